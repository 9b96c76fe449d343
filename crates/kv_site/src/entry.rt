ghost use Rattle.std.specs.Prelude.{◌≡◌, ◌&&◌, ◌==◌};
ghost use Rattle.std.specs.Str.{bytes_eq};
ghost use Rattle.kv_site.specs.Entries.{is_at, is_home, homed};

use kv_base::Bytes;

/// A place of a site in memory, which holds a thing or is empty.
#[derive(Drop)]
pub struct Entry<T> {
    /// The folder in which it stands. Things without a folder stand in the one that has no name.
    pub folder: Bytes,
    /// The number of the worker or of the session.
    pub number: u32,
    /// What it holds.
    pub thing: Option<T>,
    /// Whether the last thing of this number that was taken was taken from here.
    pub home: bool,
}

impl<T> Entry<T> {
    /// Whether it is the place of this number in this folder.
    pub fn is_at(&self, folder: &[u8], number: u32) -> bool
        ensures { result ≡ is_at folder.now number self.now }
    {
        self.folder.as_slice() == folder && self.number == number
    }

    /// Whether the last thing of this number was taken from here.
    pub fn is_home(&self, number: u32) -> bool
        ensures { result ≡ is_home number self.now }
    {
        self.home && self.number == number
    }

    /// Notes that a thing of this number was taken from this folder.
    pub fn set_home(&mut self, folder: &[u8], number: u32)
        ensures { self.new ≡ homed folder.now number self.old }
    {
        if self.number == number {
            self.home = self.folder.as_slice() == folder;
        }
    }
}
