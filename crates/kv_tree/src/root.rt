ghost use Rattle.std.specs.Prelude.{[], ◌∷◌, ◌≡◌, ◌+◌, ◌*◌, ◌<◌, ◌≤◌, length, is_some};
ghost use Rattle.std.specs.Prelude.{vec_capacity};
ghost use Rattle.std.specs.Ordering.{nat_cmp};
ghost use Rattle.std.specs.Cmp.Lexicographic.{slice_cmp};
ghost use Rattle.std.specs.FinMap.Entries.{put};
ghost use Rattle.kv_index.specs.Places.{HasRisingKeys};
ghost use Rattle.kv_tree.specs.Head.{HasHead};
ghost use Rattle.kv_tree.specs.Subtree.{entry_of, subtree, blank, without, IsKid, TakesAtMost};
ghost use Rattle.kv_tree.specs.Subtree.{new_keys};

use crate::item::Item;
use crate::moves::{push_within, take_last};
use crate::node::Node;
use crate::pool::Pool;
use crate::split::split;
use kv_index::Entry;
use std::mem;

// Puts a node over the root and what was split off to its right.
fn put_over(root: &mut Node, middle: Item, right: Node, top: Node, kids: Vec<Node>)
    requires blank { top ≡ blank }
    requires empty { kids.items ≡ [] }
    requires kid_room { 33 ≤ vec_capacity kids }
    requires left { IsKid root.old.depth root.old }
    requires right { IsKid root.old.depth right }
    ensures { root.new ≡ subtree (root.old ∷ right ∷ []) (middle ∷ []) }
{
    let left = mem::replace(root, top);
    push_within(&mut root.items, middle);
    root.kids = two_kids(left, right, kids);
}

// The two kids of a new root.
fn two_kids(left: Node, right: Node, mut kids: Vec<Node>) -> Vec<Node>
    requires empty { kids.items ≡ [] }
    requires room { 33 ≤ vec_capacity kids }
    ensures items { result.items ≡ left ∷ right ∷ [] }
    ensures room { 33 ≤ vec_capacity result }
{
    push_within(&mut kids, left);
    push_within(&mut kids, right);
    kids
}

// Cuts a root that has an item too many in two, and puts a node over both.
#[inline(never)]
fn raise(root: &mut Node, pool: &mut Pool)
    requires own { root.old.own ≡ 32 }
    requires spare { 1 < pool.old.nodes }
    requires inner { 0 < pool.old.inner }
    requires spare_inner { 0 < root.old.depth → 1 < pool.old.inner }
    ensures pairs { root.new.pairs ≡ root.old.pairs }
    ensures nodes { root.new.nodes + pool.new.nodes ≡ root.old.nodes + pool.old.nodes }
    ensures inner { root.new.inner + pool.new.inner ≡ root.old.inner + pool.old.inner }
    ensures takes { TakesAtMost 1 pool.old pool.new }
    ensures takes_inner { 0 < root.old.depth → TakesAtMost 0 pool.old pool.new }
    ensures room { pool.new.room ≡ pool.old.room }
    ensures own { root.new.own ≡ 1 }
{
    let (middle, right) = split(root, pool);
    let top = pool.take();
    let kids = pool.take_kids();
    put_over(root, middle, right, top, kids);
}

/// Gives the key this entry in the tree of the root, which may grow by a level, and answers whether
/// the key was there.
pub fn set_below(root: &mut Node, number: u64, pool: &mut Pool, item: Item) -> bool
    requires rising { HasRisingKeys (slice_cmp nat_cmp) root.old.pairs }
    requires number { HasHead item.0 number }
    requires few { root.old.own ≤ 31 }
    requires enough { pool.old.nodes ≤ pool.old.inner
        → length root.old.pairs + 1 < 15 * (root.old.nodes + pool.old.nodes) }
    requires wide { root.old.nodes + pool.old.nodes ≤ 16 * (root.old.inner + pool.old.inner) + 1 }
    ensures found { result ≡ is_some (entry_of root.old.pairs item.0) }
    ensures pairs { root.new.pairs ≡ put (slice_cmp nat_cmp) item.0 item.1 root.old.pairs }
    ensures nodes { root.new.nodes + pool.new.nodes ≡ root.old.nodes + pool.old.nodes }
    ensures inner { root.new.inner + pool.new.inner ≡ root.old.inner + pool.old.inner }
    ensures takes { TakesAtMost (new_keys result) pool.old pool.new }
    ensures room { pool.new.room ≡ pool.old.room }
    ensures few { root.new.own ≤ 31 }
    ensures has_own { (0 < root.old.depth → 0 < root.old.own) → 0 < root.new.depth
        → 0 < root.new.own }
{
    let found = root.set(number, pool, item);
    if root.own() > 31 {
        raise(root, pool);
    }
    found
}

/// Takes a key out of the tree of the root, which may lose a level.
pub fn remove_below(root: &mut Node, number: u64, key: &[u8], pool: &mut Pool) -> Option<Entry>
    requires rising { HasRisingKeys (slice_cmp nat_cmp) root.old.pairs }
    requires number { HasHead key.now number }
    requires has_own { 0 < root.old.depth → 0 < root.old.own }
    requires few { root.old.own ≤ 31 }
    requires room { root.old.nodes + pool.old.nodes ≤ pool.old.room }
    requires inner_room { root.old.inner + pool.old.inner ≤ pool.old.room }
    ensures value { result ≡ entry_of root.old.pairs key.now }
    ensures pairs { root.new.pairs ≡ without key.now root.old.pairs }
    ensures nodes { root.new.nodes + pool.new.nodes ≡ root.old.nodes + pool.old.nodes }
    ensures inner { root.new.inner + pool.new.inner ≡ root.old.inner + pool.old.inner }
    ensures spares { TakesAtMost 0 pool.old pool.new }
    ensures room { pool.new.room ≡ pool.old.room }
    ensures has_own { 0 < root.new.depth → 0 < root.new.own }
    ensures few { root.new.own ≤ 31 }
{
    let found = root.remove(number, key, pool);
    lower(root, pool);
    found
}

// Where the root has a single kid, makes that the root.
fn lower(root: &mut Node, pool: &mut Pool)
    requires few { root.old.own ≤ 31 }
    requires room { root.old.nodes + pool.old.nodes ≤ pool.old.room }
    requires inner_room { root.old.inner + pool.old.inner ≤ pool.old.room }
    ensures pairs { root.new.pairs ≡ root.old.pairs }
    ensures nodes { root.new.nodes + pool.new.nodes ≡ root.old.nodes + pool.old.nodes }
    ensures inner { root.new.inner + pool.new.inner ≡ root.old.inner + pool.old.inner }
    ensures spares { TakesAtMost 0 pool.old pool.new }
    ensures room { pool.new.room ≡ pool.old.room }
    ensures has_own { 0 < root.new.depth → 0 < root.new.own }
    ensures few { root.new.own ≤ 31 }
{
    if root.items.len() == 0 {
        if root.kids.len() > 0 {
            let mut kids = mem::replace(&mut root.kids, pool.no_kids());
            let kid = take_last(&mut kids);
            let old = mem::replace(root, kid);
            pool.give(old);
            pool.give_kids(kids);
        }
    }
}
