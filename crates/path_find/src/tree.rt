ghost use Rattle.std.specs.Prelude.{
  ◌≡◌,
  ◌<◌,
  ◌≤◌,
  ◌^◌,
  IfOk,
  IfSome,
  IfNone,
  OnOk,
  Contains,
  length,
};
ghost use Rattle.path_find.specs.Tree.{level_at, node_at, one_row, parent_at, row_count};
ghost use Rattle.path_find.specs.Tree.{with_node};

use indexmap::IndexSet;
use std::alloc::{AllocError, Global};
use std::marker::Model;

/// The nodes that a search by breadth has found, in order. One is found by its hash. Contracts see
/// rows.
#[derive(Drop)]
pub(crate) struct Tree {
    nodes: IndexSet<u32>,
    parents: Vec<usize>,
    levels: Vec<usize>,
}

impl Model for Tree {
    ghost use Rattle.std.specs.Prelude.{◌<◌, ◌^◌, All};
    ghost use Rattle.path_find.specs.Tree.{Rows};

    ghost Value = { Rows };

    ghost view = { λ t. record {
      nodes = t.nodes.keys;
      parents = t.parents.items;
      levels = t.levels.items;
    } };

    ghost invariant = { λ t. All (λ node. node < 2 ^ 32) t.nodes.keys };
}

impl Tree {
    /// The first node alone.
    pub(crate) fn new(alloc: Global, from: u32) -> Result<Tree, AllocError>
        ensures { IfOk result (λ tree. tree ≡ one_row from) }
    {
        let mut tree = Tree {
            nodes: IndexSet::new(alloc),
            parents: Vec::new(alloc),
            levels: Vec::new(alloc),
        };
        tree.add(from, 0, 0)?;
        Ok(tree)
    }

    /// Adds a node, unless it is there.
    pub(crate) fn add(&mut self, node: u32, parent: usize, level: usize) -> Result<(), AllocError>
        ensures { OnOk result (self.new ≡ with_node self.old node parent level) }
    {
        let (_, is_new) = self.nodes.insert_full(node)?;
        if is_new {
            self.parents.push(parent)?;
            self.levels.push(level)?;
        }
        Ok(())
    }

    /// How many nodes there are.
    pub(crate) fn len(&self) -> usize
        ensures is { result ≡ row_count self.now }
        ensures few { result ≤ 2 ^ 32 }
    {
        self.nodes.len()
    }

    /// The row of a node.
    pub(crate) fn find(&self, node: u32) -> Option<usize>
        ensures low { IfSome result (λ row. row < row_count self.now) }
        ensures is { IfSome result (λ row. node_at self.now row ≡ node) }
        ensures none { IfNone result (¬ Contains self.now.nodes node) }
    {
        self.nodes.get_index_of(&node)
    }

    /// The node of a row.
    pub(crate) fn node(&self, row: usize) -> u32
        requires { row < row_count self.now }
        ensures { result ≡ node_at self.now row }
    {
        match self.nodes.get_index(row) {
            Some(node) => *node,
            None => unreachable!(),
        }
    }

    /// The row of the node that it was found from.
    pub(crate) fn parent(&self, row: usize) -> usize
        requires { row < length self.now.parents }
        ensures { result ≡ parent_at self.now row }
    {
        self.parents[row]
    }

    /// How many edges are on the way to it.
    pub(crate) fn level(&self, row: usize) -> usize
        requires { row < length self.now.levels }
        ensures { result ≡ level_at self.now row }
    {
        self.levels[row]
    }
}
