ghost use Rattle.std.specs.Prelude.{◌≡◌, ◌+◌, ◌-◌, ◌^◌, ◌<◌, ◌≤◌, IfOk, OnOk, IfNone, MatchOption};
ghost use Rattle.std.specs.Prelude.{if◌then◌else◌};
ghost use Rattle.std.specs.FinMap as finite;
ghost use Rattle.kv_index.specs.Entries.{HasNoneFrom, IsNext};

use crate::head::head_of;
use crate::item::Item;
use crate::node::Node;
use crate::pool::Pool;
use crate::root::{remove_below, set_below};
use kv_base::{Bytes, NoMemory};
use kv_index::{Entry, Index};
use std::alloc::Global;
use std::marker::Model;

/// A tree of nodes that are half full at least, with its spare nodes.
#[derive(Drop)]
pub struct Nodes {
    root: Node,
    pool: Pool,
    keys: u32,
    spare: usize,
    // How many nodes there are in the tree and in the pool, and how many of them can have kids.
    all: usize,
    inner: usize,
}

impl Model for Nodes {
    ghost use Rattle.std.specs.FinMap.{from_sorted};
    ghost use Rattle.kv_index.specs.Entries.{Indexed, indexed_code};
    ghost use Rattle.kv_tree.specs.Subtree.{IsTree};

    ghost Value = { Indexed };

    ghost coded = { indexed_code };

    ghost view = { λ t. record { entries = from_sorted t.root.pairs; spare = t.spare } };

    ghost invariant = { λ t. IsTree t.root t.pool t.keys t.spare t.all t.inner };
}

impl Nodes {
    /// A tree with no key and no room. The one error is want of memory.
    pub fn new(alloc: Global) -> Result<Nodes, NoMemory>
        ensures none { IfOk result (λ index. index.entries ≡ finite.empty) }
        ensures spare { IfOk result (λ index. index.spare ≡ 0) }
    {
        let mut pool = Pool::new(alloc);
        pool.make_room(1)?;
        let root = Node::leaf(alloc)?;
        Ok(Nodes {
            root,
            pool,
            keys: 0,
            spare: 0,
            all: 1,
            inner: 0,
        })
    }
}

impl Index for Nodes {
    ghost entries = { λ s. s.entries };

    ghost spare = { λ s. s.spare };

    fn find(&self, key: &[u8]) -> Option<Entry> {
        self.root.find(head_of(key), key)
    }

    fn reserve(&mut self, n: u32) -> Result<(), NoMemory> {
        let wanted = n as usize;
        if self.spare < wanted {
            let pairs = self.keys as usize + wanted;
            self.pool
                .fill(&mut self.all, &mut self.inner, wanted, pairs)?;
            self.spare = wanted;
        }
        Ok(())
    }

    fn set(&mut self, key: Bytes, entry: Entry) {
        let item = Item::new(key, entry);
        let number = item.number();
        let found = set_below(&mut self.root, number, &mut self.pool, item);
        if !found {
            self.keys += 1;
            self.spare -= 1;
        }
    }

    fn remove(&mut self, key: &[u8]) -> Option<Entry> {
        let number = head_of(key);
        match remove_below(&mut self.root, number, key, &mut self.pool) {
            Some(entry) => {
                self.keys -= 1;
                Some(entry)
            }
            None => None,
        }
    }

    fn next_at_or_after(&self, key: &[u8]) -> Option<(&[u8], Entry)> {
        self.root.next(head_of(key), key)
    }

    fn len(&self) -> u32 {
        self.keys
    }
}
