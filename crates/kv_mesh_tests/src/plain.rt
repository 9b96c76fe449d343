use crate::asks::Ask;
use crate::replies::Told;

/// One plain map: each key's value, with the stamp of its Put.
#[derive(Drop)]
pub struct PlainMap {
    values: [Option<(u64, u8)>; 256],
}

impl PlainMap {
    /// No key has a value.
    pub fn new() -> PlainMap {
        PlainMap {
            values: [None; 256],
        }
    }

    // Gives the key a value, or takes it out. What it had.
    fn replace(&mut self, key: u8, value: Option<(u64, u8)>) -> Option<(u64, u8)> {
        let before = self.values[key as usize];
        self.values[key as usize] = value;
        before
    }

    /// The greatest stamp of the values that it has, 0 where it has none.
    pub fn newest(&self) -> u64 {
        let mut newest = 0;
        for value in &self.values {
            if let Some((stamp, _)) = *value {
                newest = stamp.max(newest);
            }
        }
        newest
    }

    /// What it answers with this stamp.
    pub fn answer(&mut self, ask: Ask, stamp: u64) -> Told {
        match ask {
            Ask::Put(key, value) => {
                self.replace(key, Some((stamp, value)));
                Told::Stored(stamp)
            }
            Ask::Get(key) => match self.values[key as usize] {
                Some((_, value)) => Told::Found(stamp, value),
                None => Told::Missing(stamp),
            },
            Ask::Delete(key) => match self.replace(key, None) {
                Some(_) => Told::Removed(stamp),
                None => Told::Absent(stamp),
            },
            Ask::Flush | Ask::After(_) => Told::Other,
        }
    }
}
