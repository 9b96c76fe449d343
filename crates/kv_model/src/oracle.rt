ghost use Rattle.std.specs.Prelude.{◌≡◌, ◌+◌, ◌^◌, ◌≤◌, [], ◌∷◌, ◌++◌, length, OnOk, OnErr, IfOk};
ghost use Rattle.std.specs.Option.{option_copied};

use crate::batch::answer_all;
use crate::found::Found;
use crate::item::ItemList;
use crate::lasts::net;
use crate::latest::{find_latest, value_of};
use crate::lookup::Asked;
use crate::range::items_at;
use crate::write::{Recorded, record};
use kv_base::{NoMemory, Replies, Request};
use std::alloc::Global;
use std::marker::Model;

/// A plain program over a list of writes, with which a store can be compared. Contracts see the
/// list.
#[derive(Debug, Drop)]
pub struct Oracle {
    alloc: Global,
    writes: Vec<Recorded>,
}

impl Model for Oracle {
    ghost use Rattle.std.specs.Prelude.{List};
    ghost use Rattle.kv_model.specs.History.{Write};

    ghost Value = { List Write };

    ghost use Rattle.kv_model.specs.Oracle.{history_of};

    ghost view = { λ o. history_of o.writes.items };
}

impl Oracle {
    ghost use Rattle.kv_model.specs.History.{value_at};
    ghost use Rattle.kv_model.specs.Items.{AreItems, AnswersBatch};
    ghost use Rattle.kv_model.specs.Oracle.{items_of};

    /// No write so far.
    pub fn new(alloc: Global) -> Oracle
        ensures { result ≡ [] }
    {
        Oracle {
            alloc,
            writes: Vec::new(alloc),
        }
    }

    /// Adds a write; no value is a deletion. The one error is want of memory, and then the list is
    /// as before.
    pub fn write(&mut self, stamp: u64, key: &[u8], value: Option<&[u8]>) -> Result<(), NoMemory>
        ensures ok { OnOk result (self.new ≡ self.old ++ record {
          stamp = stamp;
          key = key.now;
          value = option_copied value.entry;
        } ∷ []) }
        ensures err { OnErr result (self.new ≡ self.old) }
    {
        record(self.alloc, &mut self.writes, stamp, key, value)
    }

    /// What the key has at the stamp: the value of its write with the greatest stamp not above
    /// that. `None` where there is no such write or it is a deletion.
    pub fn value_at(&self, stamp: u64, key: &[u8]) -> Option<&[u8]>
        ensures { option_copied result ≡ value_at self.now stamp key.now }
    {
        value_of(find_latest(&self.writes, stamp, key))
    }
    /// The items of the keys at or after `low` and below `high` at the stamp, by rising key; an
    /// empty `high` is no end. The one error is want of memory.
    pub fn items_at(&self, stamp: u64, low: &[u8], high: &[u8]) -> Result<ItemList, NoMemory>
        ensures { IfOk result (λ list. AreItems self.now stamp low.now high.now
            (items_of list.items)) }
    {
        items_at(self.alloc, &self.writes, Asked { stamp, low, high })
    }
    /// Answers a batch of requests, of which the first has the stamp `base` and where a class has
    /// `limit` items at most, and takes the batch's net changes in. The one error is want of
    /// memory, and then the list is as before.
    pub fn step(&mut self, requests: &[Request], base: u64, limit: u32) -> Result<Replies, NoMemory>
        requires stamps { base + length requests.now ≤ 2 ^ 62 }
        ensures answered { IfOk result (λ replies. AnswersBatch self.old self.new base limit
            requests.now replies.items) }
        ensures kept { OnErr result (self.new ≡ self.old) }
    {
        let stamp = base.saturating_sub(1);
        let items = self.items_at(stamp, b"", b"")?;
        let found = Found {
            writes: &self.writes,
            stamp,
            items: items.as_slice(),
            limit,
        };
        let mut written = Vec::new(self.alloc);
        let replies = answer_all(self.alloc, found, &mut written, base, requests)?;
        let mut changes = net(self.alloc, found, &written)?;
        self.writes.append(&mut changes)?;
        Ok(replies)
    }
}
