ghost use Rattle.std.specs.Prelude.{[], ◌∷◌, ◌++◌, ◌≡◌, ◌+◌, ◌*◌, ◌<◌, ◌≤◌, IfOk};
ghost use Rattle.std.specs.Prelude.{MatchOption, Some, None, is_some, false};
ghost use Rattle.std.specs.Ordering.{nat_cmp};
ghost use Rattle.std.specs.Cmp.Lexicographic.{slice_cmp};
ghost use Rattle.std.specs.FinMap.Entries.{put};
ghost use Rattle.kv_index.specs.Places.{HasRisingKeys};
ghost use Rattle.kv_tree.specs.Head.{HasHead};
ghost use Rattle.kv_tree.specs.Subtree.{entry_of, next_from, blank, without, new_keys};
ghost use Rattle.kv_tree.specs.Subtree.{IsKid, IsFilled, HasRoom, HasWidth, TakesAtMost};

use crate::even::refill;
use crate::item::Item;
use crate::moves::{insert_within, take_last};
use crate::pool::Pool;
use crate::search::{place_in_order, place_of};
use crate::split::split_kid;
use kv_base::NoMemory;
use kv_index::Entry;
use std::alloc::Global;
use std::marker::Model;
use std::mem;

/// A node: its items, and between and around them its kids, unless it is a leaf.
#[derive(Drop)]
pub struct Node {
    pub items: Vec<Item>,
    pub kids: Vec<Node>,
}

impl Model for Node {
    ghost use Rattle.kv_tree.specs.Subtree.{Subtree, subtree_code, subtree, IsNode};
    ghost use Rattle.std.specs.Prelude.{vec_len, vec_capacity};
    ghost use Rattle.kv_tree.specs.Falls.{deepest_kid};

    ghost Value = { Subtree };

    ghost coded = { subtree_code };

    ghost view = { λ a. subtree a.kids.items a.items.items };

    ghost invariant = { λ a. IsNode a.kids.items a.items.items (vec_capacity a.kids)
        (vec_capacity a.items) };

    ghost size = { λ s. s.depth };

    ghost size_decreases = { λ a h. deepest_kid a.kids.items h.kids };
}

impl Node {
    /// A leaf with no items, and room for all that a node may hold. The one error is want of
    /// memory.
    pub fn leaf(alloc: Global) -> Result<Node, NoMemory>
        ensures ok { IfOk result (λ node. node ≡ blank) }
    {
        let items = Vec::with_capacity(alloc, 32)?;
        Ok(Node {
            items,
            kids: Vec::new(alloc),
        })
    }

    /// The number of its own items.
    pub fn own(&self) -> usize
        ensures value { result ≡ self.now.own }
        ensures few { self.now.own ≤ 32 }
        ensures filled { IsFilled self.now }
    {
        self.items.len()
    }

    /// The entry of a key.
    pub fn find(&self, number: u64, key: &[u8]) -> Option<Entry>
        requires rising { HasRisingKeys (slice_cmp nat_cmp) self.now.pairs }
        requires number { HasHead key.now number }
        ensures { result ≡ entry_of self.now.pairs key.now }
    {
        match place_of(&self.items, number, key) {
            Ok(at) => Some(self.items[at].entry()),
            Err(at) => {
                if self.kids.len() > 0 {
                    self.kids[at].find(number, key)
                } else {
                    None
                }
            }
        }
    }

    /// Gives the key this entry, and answers whether it was there. The node may be left with one
    /// item more than may stand below another.
    pub fn set(&mut self, number: u64, pool: &mut Pool, item: Item) -> bool
        requires rising { HasRisingKeys (slice_cmp nat_cmp) self.old.pairs }
        requires number { HasHead item.0 number }
        requires few { self.old.own ≤ 31 }
        requires room { HasRoom self.old pool.old }
        requires width { HasWidth self.old pool.old }
        ensures found { result ≡ is_some (entry_of self.old.pairs item.0) }
        ensures pairs { self.new.pairs ≡ put (slice_cmp nat_cmp) item.0 item.1 self.old.pairs }

        // what it takes from the pool
        ensures nodes { self.new.nodes + pool.new.nodes ≡ self.old.nodes + pool.old.nodes }
        ensures inner { self.new.inner + pool.new.inner ≡ self.old.inner + pool.old.inner }
        ensures takes { TakesAtMost (new_keys result) pool.old pool.new }
        ensures leaf { self.old.depth ≡ 0 → TakesAtMost 0 pool.old pool.new }
        ensures room { pool.new.room ≡ pool.old.room }

        // what shape it leaves
        ensures depth { self.new.depth ≡ self.old.depth }
        ensures own { (self.old.own ≤ self.new.own) × (self.new.own ≤ self.old.own + 1) }
        ensures over { 31 < self.new.own → result ≡ false }
        ensures kid { IsKid self.old.depth self.old → self.new.own ≤ 31
            → IsKid self.old.depth self.new }
    {
        match place_of(&self.items, number, item.key()) {
            Ok(at) => {
                let own = &mut self.items[at];
                own.set_entry(item.entry());
                true
            }
            Err(at) => {
                if self.kids.len() > 0 {
                    let kid = &mut self.kids[at];
                    let found = kid.set(number, pool, item);
                    if kid.own() > 31 {
                        split_kid(&mut self.items, &mut self.kids, at, pool);
                    }
                    found
                } else {
                    insert_within(&mut self.items, at, item);
                    false
                }
            }
        }
    }

    /// Takes a key out, and answers its entry. The node may be left with one item less than half.
    pub fn remove(&mut self, number: u64, key: &[u8], pool: &mut Pool) -> Option<Entry>
        requires rising { HasRisingKeys (slice_cmp nat_cmp) self.old.pairs }
        requires number { HasHead key.now number }
        requires has_own { 0 < self.old.depth → 0 < self.old.own }
        requires few { self.old.own ≤ 31 }
        requires room { self.old.nodes + pool.old.nodes ≤ pool.old.room }
        requires inner_room { self.old.inner + pool.old.inner ≤ pool.old.room }
        ensures value { result ≡ entry_of self.old.pairs key.now }
        ensures pairs { self.new.pairs ≡ without key.now self.old.pairs }
        ensures nodes { self.new.nodes + pool.new.nodes ≡ self.old.nodes + pool.old.nodes }
        ensures inner { self.new.inner + pool.new.inner ≡ self.old.inner + pool.old.inner }
        ensures spares { TakesAtMost 0 pool.old pool.new }
        ensures room { pool.new.room ≡ pool.old.room }
        ensures depth { self.new.depth ≡ self.old.depth }
        ensures fewer { self.new.own ≤ self.old.own }
        ensures own { self.old.own ≤ self.new.own + 1 }
        ensures kid { IsKid self.old.depth self.old → 15 ≤ self.new.own
            → IsKid self.old.depth self.new }
    {
        match place_of(&self.items, number, key) {
            Ok(at) => {
                if self.kids.len() > 0 {
                    let kid = &mut self.kids[at];
                    let greatest = kid.take_greatest(pool);
                    let own = &mut self.items[at];
                    let old = mem::replace(own, greatest);
                    refill(&mut self.items, &mut self.kids, at, pool);
                    Some(old.entry())
                } else {
                    let old = self.items.remove(at);
                    Some(old.entry())
                }
            }
            Err(at) => {
                if self.kids.len() > 0 {
                    let kid = &mut self.kids[at];
                    let found = kid.remove(number, key, pool);
                    refill(&mut self.items, &mut self.kids, at, pool);
                    found
                } else {
                    None
                }
            }
        }
    }

    /// Takes the greatest item out. The node may be left with one item less than half.
    fn take_greatest(&mut self, pool: &mut Pool) -> Item
        requires some { 0 < self.old.own }
        requires few { self.old.own ≤ 31 }
        requires room { self.old.nodes + pool.old.nodes ≤ pool.old.room }
        requires inner_room { self.old.inner + pool.old.inner ≤ pool.old.room }
        ensures pairs { self.old.pairs ≡ self.new.pairs ++ result ∷ [] }
        ensures nodes { self.new.nodes + pool.new.nodes ≡ self.old.nodes + pool.old.nodes }
        ensures inner { self.new.inner + pool.new.inner ≡ self.old.inner + pool.old.inner }
        ensures spares { TakesAtMost 0 pool.old pool.new }
        ensures room { pool.new.room ≡ pool.old.room }
        ensures depth { self.new.depth ≡ self.old.depth }
        ensures fewer { self.new.own ≤ self.old.own }
        ensures own { self.old.own ≤ self.new.own + 1 }
        ensures kid { IsKid self.old.depth self.old → 15 ≤ self.new.own
            → IsKid self.old.depth self.new }
    {
        let count = self.kids.len();
        if count > 0 {
            let kid = &mut self.kids[count - 1];
            let greatest = kid.take_greatest(pool);
            refill(&mut self.items, &mut self.kids, count - 1, pool);
            greatest
        } else {
            take_last(&mut self.items)
        }
    }

    /// The first item at or after a key.
    pub fn next(&self, number: u64, key: &[u8]) -> Option<(&[u8], Entry)>
        requires rising { HasRisingKeys (slice_cmp nat_cmp) self.now.pairs }
        requires number { HasHead key.now number }
        ensures { MatchOption result (next_from key.now self.now.pairs ≡ None)
            (λ next. next_from key.now self.now.pairs ≡ Some (next.0.now, next.1)) }
    {
        match place_in_order(&self.items, self.kids.is_empty(), number, key) {
            Ok(at) => {
                let item = &self.items[at];
                Some((item.key(), item.entry()))
            }
            Err(at) => {
                if self.kids.len() > 0 {
                    if let Some(found) = self.kids[at].next(number, key) {
                        return Some(found);
                    }
                }
                if at < self.items.len() {
                    let item = &self.items[at];
                    Some((item.key(), item.entry()))
                } else {
                    None
                }
            }
        }
    }
}
