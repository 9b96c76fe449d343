ghost use Rattle.std.specs.Prelude.{[], ◌∷◌, ◌++◌, ◌≡◌, ◌+◌, ◌<◌, ◌≤◌, vec_len};
ghost use Rattle.std.specs.Prelude.{vec_capacity};
ghost use Rattle.kv_tree.specs.Subtree.{weave, nodes_in, inner_over, depth_over, level_of};
ghost use Rattle.kv_tree.specs.Subtree.{IsNode, IsKid, TakesAtMost};
ghost use Rattle.kv_tree.specs.Uneven.{AreKidsBut, IsOver};

use crate::item::Item;
use crate::moves::{insert_within, move_tail, take_last};
use crate::node::Node;
use crate::pool::Pool;

/// Moves what is right of the middle item of a node that has one too many into a node of its own.
pub fn split(left: &mut Node, pool: &mut Pool) -> (Item, Node)
    requires own { left.old.own ≡ 32 }
    requires spare { 0 < pool.old.nodes }
    requires spare_inner { 0 < left.old.depth → 0 < pool.old.inner }
    ensures pairs { left.new.pairs ++ result.0 ∷ result.1.pairs ≡ left.old.pairs }
    ensures nodes { left.new.nodes + result.1.nodes + pool.new.nodes
        ≡ left.old.nodes + pool.old.nodes }
    ensures inner { left.new.inner + result.1.inner + pool.new.inner
        ≡ left.old.inner + pool.old.inner }
    ensures takes { pool.new.nodes + 1 ≡ pool.old.nodes }
    ensures takes_inner { 0 < left.old.depth → pool.new.inner + 1 ≡ pool.old.inner }
    ensures leaf { left.old.depth ≡ 0 → pool.new.inner ≡ pool.old.inner }
    ensures room { pool.new.room ≡ pool.old.room }
    ensures left { IsKid left.old.depth left.new }
    ensures right { IsKid left.old.depth result.1 }
{
    let mut right = pool.take();
    move_tail(&mut left.items, 17, &mut right.items);
    right.kids = split_kids(&mut left.kids, pool);
    let middle = take_last(&mut left.items);
    (middle, right)
}

/// Cuts the kid at this place, which has one item too many, in two. It stands apart, since few
/// changes come to it.
#[inline(never)]
pub fn split_kid(items: &mut Vec<Item>, kids: &mut Vec<Node>, at: usize, pool: &mut Pool)
    requires level { AreKidsBut IsOver at (level_of kids.old.items) kids.old.items }
    requires lengths { vec_len kids.old ≡ vec_len items.old + 1 }
    requires at { at < vec_len kids.old }
    requires few { vec_len items.old ≤ 31 }
    requires item_room { 32 ≤ vec_capacity items.old }
    requires kid_room { 33 ≤ vec_capacity kids.old }
    requires spare { 0 < pool.old.nodes }
    requires spare_inner { 0 < level_of kids.old.items → 0 < pool.old.inner }
    ensures pairs { weave kids.new.items items.new.items ≡ weave kids.old.items items.old.items }
    ensures nodes { nodes_in kids.new.items + pool.new.nodes
        ≡ nodes_in kids.old.items + pool.old.nodes }
    ensures inner { inner_over kids.new.items + pool.new.inner
        ≡ inner_over kids.old.items + pool.old.inner }
    ensures takes { TakesAtMost 1 pool.old pool.new }
    ensures takes_inner { 0 < level_of kids.old.items → TakesAtMost 0 pool.old pool.new }
    ensures room { pool.new.room ≡ pool.old.room }
    ensures node { IsNode kids.new.items items.new.items (vec_capacity kids.new)
        (vec_capacity items.new) }
    ensures depth { depth_over kids.new.items ≡ depth_over kids.old.items }
    ensures own { vec_len items.new ≡ vec_len items.old + 1 }
{
    let kid = &mut kids[at];
    let (middle, right) = split(kid, pool);
    insert_within(items, at, middle);
    insert_within(kids, at + 1, right);
}

// Moves the kids behind the first 17 into a vector of their own.
fn split_kids(kids: &mut Vec<Node>, pool: &mut Pool) -> Vec<Node>
    requires few { vec_len kids.old ≤ 33 }
    requires spare { 0 < vec_len kids.old → 0 < pool.old.inner }
    ensures items { kids.old.items ≡ kids.new.items ++ result.items }
    ensures len { 17 ≤ vec_len kids.old → vec_len kids.new ≡ 17 }
    ensures short { vec_len kids.old ≤ 17 → result.items ≡ [] }
    ensures capacity { vec_capacity kids.new ≡ vec_capacity kids.old }
    ensures room { 0 < vec_len kids.old → 33 ≤ vec_capacity result }
    ensures nodes { pool.new.nodes ≡ pool.old.nodes }
    ensures inner { 0 < vec_len kids.old → pool.new.inner + 1 ≡ pool.old.inner }
    ensures none { vec_len kids.old ≡ 0 → pool.new.inner ≡ pool.old.inner }
    ensures pool_room { pool.new.room ≡ pool.old.room }
{
    if kids.len() > 0 {
        let mut right = pool.take_kids();
        move_tail(kids, 17, &mut right);
        right
    } else {
        pool.no_kids()
    }
}
