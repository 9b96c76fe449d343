ghost use Rattle.std.specs.Prelude.{◌≡◌, ◌+◌, ◌*◌, ◌^◌, ◌<◌, ◌≤◌, [], OnOk, OnErr, IsTrue, false};
ghost use Rattle.std.specs.Prelude.{vec_capacity};
ghost use Rattle.kv_tree.specs.Subtree.{blank, TakesAtMost};

use crate::moves::push_within;
use crate::node::Node;
use kv_base::NoMemory;
use std::alloc::Global;
use std::marker::Model;

/// Nodes that stand ready, so that a change takes no memory. A node gets room for kids only where
/// it becomes more than a leaf.
#[derive(Drop)]
pub struct Pool {
    nodes: Vec<Node>,
    inner: Vec<Vec<Node>>,
    room: usize,
    alloc: Global,
}

impl Model for Pool {
    ghost use Rattle.std.specs.Prelude.{◌≤◌, vec_len, vec_capacity};
    ghost use Rattle.kv_tree.specs.Subtree.{Spares, spares_code, AreBlank, AreKidRooms};

    ghost Value = { Spares };

    ghost coded = { spares_code };

    ghost view = { λ p. record {
      nodes = vec_len p.nodes;
      inner = vec_len p.inner;
      room = p.room;
    } };

    ghost invariant = { λ p. record {
      blank : AreBlank p.nodes.items;
      empty : AreKidRooms p.inner.items;
      fits : p.room ≤ vec_capacity p.nodes;
      fits_inner : p.room ≤ vec_capacity p.inner;
    } };
}

impl Pool {
    /// No nodes. Takes no memory.
    pub fn new(alloc: Global) -> Pool
        ensures nodes { result.nodes ≡ 0 }
        ensures inner { result.inner ≡ 0 }
        ensures room { result.room ≡ 0 }
    {
        Pool {
            nodes: Vec::new(alloc),
            inner: Vec::new(alloc),
            room: 0,
            alloc,
        }
    }

    /// Takes a node out.
    pub fn take(&mut self) -> Node
        requires { 0 < self.old.nodes }
        ensures value { result ≡ blank }
        ensures nodes { self.new.nodes + 1 ≡ self.old.nodes }
        ensures inner { self.new.inner ≡ self.old.inner }
        ensures room { self.new.room ≡ self.old.room }
    {
        match self.nodes.pop() {
            Some(node) => node,
            None => unreachable!(),
        }
    }

    /// Takes room for kids out.
    pub fn take_kids(&mut self) -> Vec<Node>
        requires { 0 < self.old.inner }
        ensures empty { result.items ≡ [] }
        ensures capacity { 33 ≤ vec_capacity result }
        ensures nodes { self.new.nodes ≡ self.old.nodes }
        ensures inner { self.new.inner + 1 ≡ self.old.inner }
        ensures room { self.new.room ≡ self.old.room }
    {
        match self.inner.pop() {
            Some(kids) => kids,
            None => unreachable!(),
        }
    }

    /// A leaf's kids. Takes no memory.
    pub fn no_kids(&self) -> Vec<Node>
        ensures { result.items ≡ [] }
    {
        Vec::new(self.alloc)
    }

    /// Puts a node in. Takes no memory.
    pub fn give(&mut self, node: Node)
        requires blank { node ≡ blank }
        requires room { self.old.nodes < self.old.room }
        ensures nodes { self.new.nodes ≡ self.old.nodes + 1 }
        ensures inner { self.new.inner ≡ self.old.inner }
        ensures room { self.new.room ≡ self.old.room }
    {
        push_within(&mut self.nodes, node);
    }

    /// Puts room for kids in. Takes no memory.
    pub fn give_kids(&mut self, kids: Vec<Node>)
        requires empty { kids.items ≡ [] }
        requires capacity { 33 ≤ vec_capacity kids }
        requires room { self.old.inner < self.old.room }
        ensures nodes { self.new.nodes ≡ self.old.nodes }
        ensures inner { self.new.inner ≡ self.old.inner + 1 }
        ensures room { self.new.room ≡ self.old.room }
    {
        push_within(&mut self.inner, kids);
    }

    /// Makes room for so many nodes. The one error is want of memory.
    pub fn make_room(&mut self, room: usize) -> Result<(), NoMemory>
        ensures nodes { self.new.nodes ≡ self.old.nodes }
        ensures inner { self.new.inner ≡ self.old.inner }
        ensures kept { self.old.room ≤ self.new.room }
        ensures ok { OnOk result (room ≤ self.new.room) }
    {
        if self.room < room {
            self.nodes.reserve(room)?;
            self.inner.reserve(room)?;
            self.room = room;
        }
        Ok(())
    }

    // Makes a node. The one error is want of memory.
    fn make_node(&mut self) -> Result<(), NoMemory>
        requires room { self.old.nodes < self.old.room }
        ensures ok { OnOk result (self.new.nodes ≡ self.old.nodes + 1) }
        ensures err { OnErr result (self.new.nodes ≡ self.old.nodes) }
        ensures inner { self.new.inner ≡ self.old.inner }
        ensures room { self.new.room ≡ self.old.room }
    {
        let node = Node::leaf(self.alloc)?;
        self.give(node);
        Ok(())
    }

    // Makes one node more, and room for the kids of one where nodes are 16 times as many. The one
    // error is want of memory.
    fn make(&mut self, nodes: &mut usize, inner: &mut usize) -> Result<(), NoMemory>
        requires few { nodes.old < 2 ^ 30 }
        requires wide { nodes.old ≤ 16 * inner.old + 1 }
        requires room { nodes.old ≤ self.old.room }
        requires has { self.old.nodes ≤ nodes.old }
        requires has_inner { self.old.inner ≤ inner.old }
        requires fewer { inner.old ≤ nodes.old }
        ensures nodes { self.new.nodes + nodes.old ≡ self.old.nodes + nodes.new }
        ensures inner { self.new.inner + inner.old ≡ self.old.inner + inner.new }
        ensures few { nodes.new ≤ 2 ^ 30 }
        ensures wide { nodes.new ≤ 16 * inner.new + 1 }
        ensures room { nodes.new ≤ self.new.room }
        ensures fewer { inner.new ≤ nodes.new }
        ensures spares { TakesAtMost 0 self.old self.new }
        ensures ok { OnOk result (nodes.new ≡ nodes.old + 1) }
        ensures err { OnErr result (nodes.new ≡ nodes.old) }
    {
        self.make_room(*nodes + 1)?;
        if *nodes > 16 * *inner {
            let kids = Vec::with_capacity(self.alloc, 33)?;
            self.make_node()?;
            self.give_kids(kids);
            *inner += 1;
        } else {
            self.make_node()?;
        }
        *nodes += 1;
        Ok(())
    }

    // Whether so many pairs and so many more may want another node.
    fn is_short(&self, nodes: usize, more: usize, pairs: usize) -> bool
        requires pairs { pairs < 2 ^ 33 }
        requires more { more < 2 ^ 32 }
        requires few { nodes ≤ 2 ^ 30 }
        requires inner { self.now.inner ≤ nodes }
        ensures short { IsTrue result → 15 * nodes ≤ pairs + 1 }
        ensures enough { result ≡ false → self.now.nodes ≤ more + self.now.inner
            → pairs + 1 < 15 * nodes }
    {
        self.nodes.len() <= more + self.inner.len() && 15 * nodes <= pairs + 1
    }

    /// Makes nodes for so many more pairs, where in all there are to be so many. The one error is
    /// want of memory; what was made by then stays.
    pub fn fill(
        &mut self,
        nodes: &mut usize,
        inner: &mut usize,
        more: usize,
        pairs: usize,
    ) -> Result<(), NoMemory>
        requires pairs { pairs < 2 ^ 33 }
        requires more { more < 2 ^ 32 }
        requires few { nodes.old ≤ 2 ^ 30 }
        requires wide { nodes.old ≤ 16 * inner.old + 1 }
        requires room { nodes.old ≤ self.old.room }
        requires has { self.old.nodes ≤ nodes.old }
        requires has_inner { self.old.inner ≤ inner.old }
        requires fewer { inner.old ≤ nodes.old }
        ensures nodes { self.new.nodes + nodes.old ≡ self.old.nodes + nodes.new }
        ensures inner { self.new.inner + inner.old ≡ self.old.inner + inner.new }
        ensures few { nodes.new ≤ 2 ^ 30 }
        ensures wide { nodes.new ≤ 16 * inner.new + 1 }
        ensures room { nodes.new ≤ self.new.room }
        ensures more { nodes.old ≤ nodes.new }
        ensures fewer { inner.new ≤ nodes.new }
        ensures spares { TakesAtMost 0 self.old self.new }
        ensures ok { OnOk result (self.new.nodes ≤ more + self.new.inner
            → pairs + 1 < 15 * nodes.new) }
    {
        while self.is_short(*nodes, more, pairs) {
            self.make(nodes, inner)?;
        }
        Ok(())
    }
}
