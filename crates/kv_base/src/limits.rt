/// How much one worker's store may take.
#[derive(Clone, Copy, Debug, PartialEq, Eq)]
pub struct Limits {
    /// Slots of each class, 1 to 2^24.
    pub slots: u32,
    /// Pages that the cache keeps, 1 to 1,024.
    pub cache: u32,
}
