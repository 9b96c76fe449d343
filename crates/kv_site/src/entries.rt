ghost use Rattle.std.specs.Prelude.{◌≡◌, IfOk, OnOk, OnErr, IfSome, IfNone, None, [], map};
ghost use Rattle.std.specs.List.{position};
ghost use Rattle.std.specs.Option.{option_copied};
ghost use Rattle.kv_site.specs.Entries.{is_at, is_home, thing_at, Puts, Takes, Gives, homed};

use crate::entry::Entry;
use kv_base::{Bytes, NoMemory};
use std::alloc::Global;

/// What a site in memory holds of one kind, by folder and number.
#[derive(Drop)]
pub struct Entries<T> {
    entries: Vec<Entry<T>>,
}

impl<T: Drop> Entries<T> {
    /// Nothing is held.
    pub fn new(alloc: Global) -> Entries<T>
        ensures { result.entries.items ≡ [] }
    {
        Entries {
            entries: Vec::new(alloc),
        }
    }

    // The index of the first place of this number in this folder.
    fn find(&self, folder: &[u8], number: u32) -> Option<usize>
        ensures { result ≡ position (is_at folder.now number) self.now.entries.items }
    {
        self.entries
            .iter()
            .position(|entry| entry.is_at(folder, number))
    }

    // The index of the place from which the last thing of this number was taken.
    fn find_home(&self, number: u32) -> Option<usize>
        ensures { result ≡ position (is_home number) self.now.entries.items }
    {
        self.entries.iter().position(|entry| entry.is_home(number))
    }

    /// What is held for this number in this folder.
    pub fn get(&self, folder: &[u8], number: u32) -> Option<&T>
        ensures { option_copied result ≡ thing_at self.now.entries.items folder.now number }
    {
        match self.find(folder, number) {
            Some(at) => self.entries[at].thing.as_ref(),
            None => None,
        }
    }

    /// Holds this for the number in this folder, in place of an earlier thing.
    pub fn put(
        &mut self,
        alloc: Global,
        folder: &[u8],
        number: u32,
        thing: T,
    ) -> Result<(), NoMemory>
        ensures ok { OnOk result (Puts self.old.entries.items self.new.entries.items folder.now
            number thing) }
        ensures err { OnErr result (self.new.entries.items ≡ self.old.entries.items) }
    {
        if let Some(at) = self.find(folder, number) {
            self.entries[at].thing = Some(thing);
            return Ok(());
        }
        let folder = Bytes::copy(alloc, folder)?;
        self.entries.push(Entry {
            folder,
            number,
            thing: Some(thing),
            home: false,
        })?;
        Ok(())
    }

    /// Takes what is held for this number in this folder.
    pub fn take(&mut self, folder: &[u8], number: u32) -> Option<T>
        ensures some { IfSome result (Takes self.old.entries.items self.new.entries.items folder.now
            number) }
        ensures none { IfNone result (thing_at self.old.entries.items folder.now number ≡ None) }
        ensures kept { IfNone result (self.new.entries.items ≡ self.old.entries.items) }
    {
        let Some(at) = self.find(folder, number) else {
            return None;
        };
        let Some(thing) = self.entries[at].thing.take() else {
            return None;
        };
        note_home(&mut self.entries, folder, number);
        Some(thing)
    }

    /// Holds this again where the last thing of this number was taken from, and drops it where none
    /// was.
    pub fn give(&mut self, number: u32, thing: T)
        ensures { Gives self.old.entries.items self.new.entries.items number thing }
    {
        let Some(home) = self.find_home(number) else {
            return;
        };
        if let Some(at) = self.find(self.entries[home].folder.as_slice(), number) {
            self.entries[at].thing = Some(thing);
        }
    }
}

// Notes in each place that a thing of this number was taken from this folder.
fn note_home<T>(entries: &mut Vec<Entry<T>>, folder: &[u8], number: u32)
    ensures { entries.new.items ≡ map (homed folder.now number) entries.old.items }
{
    for at in 0..entries.len() {
        entries[at].set_home(folder, number);
    }
}
