/// No stamps are left: the range that begins at the number passes 2^62 - 1.
#[derive(Clone, Copy, Debug, PartialEq, Eq)]
pub struct StampsSpent {
    /// The number that was drawn when the seat first met this, at least 2^62 - 511.
    pub number: u64,
}
