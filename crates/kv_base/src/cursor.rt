ghost use Rattle.std.specs.Prelude.{◌≡◌, ◌++◌, [], take, length, min};

use crate::Bytes;
use std::marker::Model;

/// Bytes in memory and how far they were read. Contracts see a stream.
#[derive(Debug, Drop)]
pub struct Cursor {
    bytes: Bytes,
    next: usize,
}

impl Model for Cursor {
    ghost use Rattle.std.specs.Prelude.{◌≤◌, take, drop, length};
    ghost use Rattle.kv_base.specs.Stream.{Stream};

    ghost Value = { Stream };

    ghost view = { λ c. record { taken = take c.next c.bytes; left = drop c.next c.bytes } };

    ghost invariant = { λ c. c.next ≤ length c.bytes };
}

impl Cursor {
    /// All bytes are left.
    pub fn new(bytes: Bytes) -> Cursor
        ensures { result ≡ record { taken = []; left = bytes } }
    {
        Cursor { bytes, next: 0 }
    }

    /// Takes the next bytes into the front of the buffer, at most so many, and answers how many.
    pub fn take(&mut self, buf: &mut [u8], most: usize) -> usize
        ensures value { result ≡ min (length buf.old) (min most (length self.old.left)) }
        ensures taken { self.new.taken ≡ self.old.taken ++ take result buf.new }
        ensures left { self.old.left ≡ take result buf.new ++ self.new.left }
    {
        let left = &self.bytes.as_slice()[self.next..];
        let n = buf.len().min(most.min(left.len()));
        buf[..n].copy_from_slice(&left[..n]);
        self.next += n;
        n
    }
}
