ghost use Rattle.std.specs.Prelude.{◌≡◌, ℕ, List, None, Some, IfOk, OnOk, if◌then◌else◌};
ghost use Rattle.std.specs.HashMap.{hash_map_len};
ghost use Rattle.std.specs.Str.{bytes_eq};
ghost use Rattle.kv_worker.specs.Overlay.{last_of};

use kv_base::NoMemory;
use std::alloc::Global;
use std::collections::HashMap;

/// The last accepted write of a key.
#[derive(Clone, Copy, Debug)]
pub struct Last {
    /// The number of its request in the batch, from 0 on.
    pub task: u16,
    /// The class of the new slot that it takes, where it takes one.
    pub slot: Option<u8>,
}

/// Of each key that the batch wrote so far, its last accepted write.
#[derive(Drop)]
pub struct Overlay<'a> {
    lasts: HashMap<&'a [u8], Last>,
}

impl<'a> Overlay<'a> {
    /// No key yet, and room for so many. The one error is want of memory.
    pub fn with_room(alloc: Global, keys: usize) -> Result<Overlay<'a>, NoMemory>
        ensures { IfOk result (λ overlay. (key : List ℕ) → last_of overlay key ≡ None) }
    {
        let lasts = HashMap::with_capacity(alloc, keys)?;
        Ok(Overlay { lasts })
    }

    /// The last write of the key. `None` exactly where there is none.
    pub fn find(&self, key: &[u8]) -> Option<Last>
        ensures { result ≡ last_of self.now key.now }
    {
        self.lasts.get(key).copied()
    }

    /// The number of keys.
    pub fn keys(&self) -> usize
        ensures { result ≡ hash_map_len self.now.lasts }
    {
        self.lasts.len()
    }

    /// Makes this the last write of the key. The one error is want of memory.
    pub fn set(&mut self, key: &'a [u8], last: Last) -> Result<(), NoMemory>
        ensures { OnOk result ((other : List ℕ) → last_of self.new other
            ≡ (if bytes_eq key.now other then Some last else last_of self.old other)) }
    {
        self.lasts.insert(key, last)?;
        Ok(())
    }
}
