/// Where an item lies on disk. Places are ordered by class, then slot.
#[derive(Clone, Copy, Debug, PartialEq, Eq, PartialOrd, Ord)]
pub struct Place {
    /// The size class, 1 to 11.
    pub class: u8,
    /// The number of the slot in the slab of its class.
    pub slot: u32,
}
