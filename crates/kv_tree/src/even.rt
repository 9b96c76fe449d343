ghost use Rattle.std.specs.Prelude.{◌∷◌, ◌++◌, ◌≡◌, ◌+◌, ◌<◌, ◌≤◌, IfSome, IfNone, vec_len};
ghost use Rattle.std.specs.Prelude.{vec_capacity};
ghost use Rattle.kv_tree.specs.Subtree.{weave, joined_pairs, joined_nodes, joined_inner, nodes_in};
ghost use Rattle.kv_tree.specs.Subtree.{inner_over, depth_over, level_of, IsNode, IsKid};
ghost use Rattle.kv_tree.specs.Subtree.{TakesAtMost};
ghost use Rattle.kv_tree.specs.Uneven.{AreKidsBut, IsThin, IsThinAt};

use crate::item::Item;
use crate::moves::{
    append_within, insert_within, move_first, move_last, push_within, take_first, take_last,
};
use crate::node::Node;
use crate::pool::Pool;
use std::mem;

// Makes one node, or two that are half full at least, of two nodes and the item between them.
fn even_out(left: &mut Node, middle: Item, right: Node, pool: &mut Pool) -> Option<(Item, Node)>
    requires depth { left.old.depth ≡ right.depth }
    requires low_left { 14 ≤ left.old.own }
    requires low_right { 14 ≤ right.own }
    requires few { left.old.own + right.own ≤ 45 }
    requires room { pool.old.nodes < pool.old.room }
    requires inner_room { pool.old.inner < pool.old.room }
    ensures pairs { joined_pairs left.new result ≡ left.old.pairs ++ middle ∷ right.pairs }
    ensures nodes { joined_nodes left.new result + pool.new.nodes
        ≡ left.old.nodes + right.nodes + pool.old.nodes }
    ensures inner { joined_inner left.new result + pool.new.inner
        ≡ left.old.inner + right.inner + pool.old.inner }
    ensures spares { TakesAtMost 0 pool.old pool.new }
    ensures room { pool.new.room ≡ pool.old.room }
    ensures whole { IfNone result (IsKid left.old.depth left.new) }
    ensures split { IfSome result (λ s. IsKid left.old.depth left.new × IsKid left.old.depth s.1) }
{
    if left.own() + right.own() < 31 {
        merge(left, middle, right, pool);
        None
    } else if left.own() < right.own() {
        Some(shift_left(left, middle, right))
    } else {
        Some(shift_right(left, middle, right))
    }
}

// Makes one node of two.
fn merge(left: &mut Node, middle: Item, mut right: Node, pool: &mut Pool)
    requires depth { left.old.depth ≡ right.depth }
    requires low { 14 ≤ left.old.own + right.own }
    requires few { left.old.own + right.own ≤ 30 }
    requires room { pool.old.nodes < pool.old.room }
    requires inner_room { pool.old.inner < pool.old.room }
    ensures pairs { left.new.pairs ≡ left.old.pairs ++ middle ∷ right.pairs }
    ensures nodes { left.new.nodes + pool.new.nodes ≡ left.old.nodes + right.nodes +
        pool.old.nodes }
    ensures inner { left.new.inner + pool.new.inner ≡ left.old.inner + right.inner +
        pool.old.inner }
    ensures spares { TakesAtMost 0 pool.old pool.new }
    ensures room { pool.new.room ≡ pool.old.room }
    ensures kid { IsKid left.old.depth left.new }
{
    push_within(&mut left.items, middle);
    append_within(&mut left.items, &mut right.items);
    let kids = mem::replace(&mut right.kids, pool.no_kids());
    join_kids(&mut left.kids, kids, pool);
    pool.give(right);
}

// Moves all kids of a node behind those of the node before it.
fn join_kids(left: &mut Vec<Node>, mut right: Vec<Node>, pool: &mut Pool)
    requires fits { vec_len left.old + vec_len right ≤ vec_capacity left.old }
    requires wide { 0 < vec_len right → 33 ≤ vec_capacity right }
    requires room { 0 < vec_len right → pool.old.inner < pool.old.room }
    ensures items { left.new.items ≡ left.old.items ++ right.items }
    ensures capacity { vec_capacity left.old ≤ vec_capacity left.new }
    ensures nodes { pool.new.nodes ≡ pool.old.nodes }
    ensures inner { 0 < vec_len right → pool.new.inner ≡ pool.old.inner + 1 }
    ensures none { vec_len right ≡ 0 → pool.new.inner ≡ pool.old.inner }
    ensures room { pool.new.room ≡ pool.old.room }
{
    if right.len() > 0 {
        append_within(left, &mut right);
        pool.give_kids(right);
    }
}

// Moves an item to the left.
fn shift_left(left: &mut Node, middle: Item, mut right: Node) -> (Item, Node)
    requires depth { left.old.depth ≡ right.depth }
    requires left { (14 ≤ left.old.own) × (left.old.own ≤ 30) }
    requires right { (16 ≤ right.own) × (right.own ≤ 31) }
    ensures pairs { left.new.pairs ++ result.0 ∷ result.1.pairs ≡ left.old.pairs
        ++ middle ∷ right.pairs }
    ensures nodes { left.new.nodes + result.1.nodes ≡ left.old.nodes + right.nodes }
    ensures inner { left.new.inner + result.1.inner ≡ left.old.inner + right.inner }
    ensures left { IsKid left.old.depth left.new }
    ensures right { IsKid left.old.depth result.1 }
{
    push_within(&mut left.items, middle);
    let up = take_first(&mut right.items);
    move_first(&mut left.kids, &mut right.kids);
    (up, right)
}

// Moves an item to the right.
fn shift_right(left: &mut Node, middle: Item, mut right: Node) -> (Item, Node)
    requires depth { left.old.depth ≡ right.depth }
    requires left { (16 ≤ left.old.own) × (left.old.own ≤ 31) }
    requires right { (14 ≤ right.own) × (right.own ≤ 30) }
    ensures pairs { left.new.pairs ++ result.0 ∷ result.1.pairs ≡ left.old.pairs
        ++ middle ∷ right.pairs }
    ensures nodes { left.new.nodes + result.1.nodes ≡ left.old.nodes + right.nodes }
    ensures inner { left.new.inner + result.1.inner ≡ left.old.inner + right.inner }
    ensures left { IsKid left.old.depth left.new }
    ensures right { IsKid left.old.depth result.1 }
{
    insert_within(&mut right.items, 0, middle);
    let up = take_last(&mut left.items);
    move_last(&mut left.kids, &mut right.kids);
    (up, right)
}

/// Makes the kid at this place half full again, where it wants an item.
pub fn refill(items: &mut Vec<Item>, kids: &mut Vec<Node>, at: usize, pool: &mut Pool)
    requires level { AreKidsBut IsThin at (level_of kids.old.items) kids.old.items }
    requires lengths { vec_len kids.old ≡ vec_len items.old + 1 }
    requires at { at < vec_len kids.old }
    requires some { 0 < vec_len items.old }
    requires few { vec_len items.old ≤ 31 }
    requires item_room { 32 ≤ vec_capacity items.old }
    requires kid_room { 33 ≤ vec_capacity kids.old }
    requires room { nodes_in kids.old.items + 1 + pool.old.nodes ≤ pool.old.room }
    requires inner_room { inner_over kids.old.items + pool.old.inner ≤ pool.old.room }
    ensures pairs { weave kids.new.items items.new.items ≡ weave kids.old.items items.old.items }
    ensures nodes { nodes_in kids.new.items + pool.new.nodes
        ≡ nodes_in kids.old.items + pool.old.nodes }
    ensures inner { inner_over kids.new.items + pool.new.inner
        ≡ inner_over kids.old.items + pool.old.inner }
    ensures spares { TakesAtMost 0 pool.old pool.new }
    ensures room { pool.new.room ≡ pool.old.room }
    ensures node { IsNode kids.new.items items.new.items (vec_capacity kids.new)
        (vec_capacity items.new) }
    ensures depth { depth_over kids.new.items ≡ depth_over kids.old.items }
    ensures fewer { vec_len items.new ≤ vec_len items.old }
    ensures own { vec_len items.old ≤ vec_len items.new + 1 }
{
    let thin = &kids[at];
    if thin.own() < 15 {
        let first = if at + 1 < kids.len() { at } else { at - 1 };
        even_at(items, kids, at, first, pool);
    }
}

// Evens out the kids at a place and behind it, of which one wants an item. It stands apart, since
// few removals come to it.
#[inline(never)]
fn even_at(items: &mut Vec<Item>, kids: &mut Vec<Node>, at: usize, first: usize, pool: &mut Pool)
    requires level { AreKidsBut IsThin at (level_of kids.old.items) kids.old.items }
    requires lengths { vec_len kids.old ≡ vec_len items.old + 1 }
    requires at { at < vec_len kids.old }
    requires thin { IsThinAt at kids.old.items }
    requires first { (first ≤ at) × (at ≤ first + 1) }
    requires behind { first < vec_len items.old }
    requires few { vec_len items.old ≤ 31 }
    requires item_room { 32 ≤ vec_capacity items.old }
    requires kid_room { 33 ≤ vec_capacity kids.old }
    requires room { nodes_in kids.old.items + 1 + pool.old.nodes ≤ pool.old.room }
    requires inner_room { inner_over kids.old.items + pool.old.inner ≤ pool.old.room }
    ensures pairs { weave kids.new.items items.new.items ≡ weave kids.old.items items.old.items }
    ensures nodes { nodes_in kids.new.items + pool.new.nodes
        ≡ nodes_in kids.old.items + pool.old.nodes }
    ensures inner { inner_over kids.new.items + pool.new.inner
        ≡ inner_over kids.old.items + pool.old.inner }
    ensures spares { TakesAtMost 0 pool.old pool.new }
    ensures room { pool.new.room ≡ pool.old.room }
    ensures node { IsNode kids.new.items items.new.items (vec_capacity kids.new)
        (vec_capacity items.new) }
    ensures depth { depth_over kids.new.items ≡ depth_over kids.old.items }
    ensures fewer { vec_len items.new ≤ vec_len items.old }
    ensures own { vec_len items.old ≤ vec_len items.new + 1 }
{
    let middle = items.remove(first);
    let right = kids.remove(first + 1);
    let left = &mut kids[first];
    match even_out(left, middle, right, pool) {
        None => {}
        Some((middle, right)) => {
            insert_within(items, first, middle);
            insert_within(kids, first + 1, right);
        }
    }
}
