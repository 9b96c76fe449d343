ghost use Rattle.std.specs.Prelude.{◌≡◌, ◌-◌, ◌^◌, ◌<◌, ◌≤◌, OnOk, IfNone, MatchOption};
ghost use Rattle.std.specs.Prelude.{if◌then◌else◌};
ghost use Rattle.std.specs.FinMap as finite;
ghost use Rattle.kv_index.specs.Entries.{HasNoneFrom, IsNext};

use crate::nodes::Nodes;
use kv_base::{Bytes, NoMemory};
use kv_index::{Entry, Index};
use std::alloc::Global;
use std::marker::Model;

/// An index in a B-tree of order 32. A key is found by a search down from the root.
#[derive(Drop)]
pub struct TreeIndex {
    nodes: Option<Nodes>,
    alloc: Global,
}

impl Model for TreeIndex {
    ghost use Rattle.kv_index.specs.Entries.{Indexed, indexed_code};
    ghost use Rattle.kv_tree.specs.Subtree.{indexed_of};

    ghost Value = { Indexed };

    ghost coded = { indexed_code };

    ghost view = { λ t. indexed_of t.nodes };
}

impl TreeIndex {
    /// An index with no key and no room. Takes no memory.
    pub fn new(alloc: Global) -> TreeIndex
        ensures none { result.entries ≡ finite.empty }
        ensures spare { result.spare ≡ 0 }
    {
        TreeIndex { nodes: None, alloc }
    }
}

impl Index for TreeIndex {
    ghost entries = { λ s. s.entries };

    ghost spare = { λ s. s.spare };

    fn find(&self, key: &[u8]) -> Option<Entry> {
        match &self.nodes {
            Some(nodes) => nodes.find(key),
            None => None,
        }
    }

    fn reserve(&mut self, n: u32) -> Result<(), NoMemory> {
        if let Some(nodes) = &mut self.nodes {
            return nodes.reserve(n);
        }
        let mut nodes = Nodes::new(self.alloc)?;
        nodes.reserve(n)?;
        self.nodes = Some(nodes);
        Ok(())
    }

    fn set(&mut self, key: Bytes, entry: Entry) {
        match &mut self.nodes {
            Some(nodes) => nodes.set(key, entry),
            None => unreachable!(),
        }
    }

    fn remove(&mut self, key: &[u8]) -> Option<Entry> {
        let Some(nodes) = &mut self.nodes else {
            return None;
        };
        nodes.remove(key)
    }

    fn next_at_or_after(&self, key: &[u8]) -> Option<(&[u8], Entry)> {
        match &self.nodes {
            Some(nodes) => nodes.next_at_or_after(key),
            None => None,
        }
    }

    fn len(&self) -> u32 {
        match &self.nodes {
            Some(nodes) => nodes.len(),
            None => 0,
        }
    }
}
