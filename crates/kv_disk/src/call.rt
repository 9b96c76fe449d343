/// A page that a disk in memory held before its first call, with its content.
#[derive(Clone, Copy, Drop)]
pub struct Held {
    /// The file, 0 to 13.
    pub file: u8,
    /// The page of the file.
    pub page: u32,
    /// What it reads as, all of it durable.
    pub content: [u8; 4096],
}

/// A page by its file and its number.
#[derive(Clone, Copy, Drop)]
pub struct Spot {
    /// The file, 0 to 13.
    pub file: u8,
    /// The page of the file.
    pub page: u32,
}

/// One write of a page.
#[derive(Clone, Copy, Drop)]
pub struct Write {
    /// The file, 0 to 13.
    pub file: u8,
    /// The page of the file.
    pub page: u32,
    /// What was written.
    pub content: [u8; 4096],
    /// Whether the page then read as the content: a write that failed left it as it was.
    pub done: bool,
}

/// One call of a disk in memory, as far as it changed anything.
#[derive(Clone, Copy, Drop)]
pub enum Call {
    /// A write, done or failed.
    Write(Write),
    /// A sync that was Ok.
    Sync,
    /// A call that changed nothing.
    Idle,
}
