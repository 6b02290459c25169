//! What is kept at the nodes of a tree, in the shape of the tree.

ghost use Rattle.std.specs.Prelude.{◌≡◌, ◌<◌, ◌+◌, ◌^◌, ◌≤◌, ℕ, length, []};
ghost use Rattle.mm_nodes.specs.KeptTrees.KeptTree.{Two};
ghost use Rattle.mm_nodes.specs.KeptTrees.{top, count, entry_at, row_sum, path_in, remade, rows_beside};
ghost use Rattle.mm_nodes.specs.KeptNodes.{tree_of, IsCounted};

use crate::Keeps;

/// What is kept at a join, and the sums over the nodes of its subtree.
#[derive(Drop)]
pub struct Above<N> {
    pub(crate) entry: N,
    pub(crate) nodes: u32,
    pub(crate) rows: u64,
}

/// What is kept at the nodes of a tree, in the shape of the tree.
#[derive(Drop)]
pub enum Kept<N> {
    /// A leaf.
    One(N),
    /// A join, and what is kept below it on the left and on the right.
    Two(Above<N>, Box<Kept<N>>, Box<Kept<N>>),
}

impl<N> Above<N> {
    /// What is kept at the join.
    pub(crate) fn entry(&self) -> &N
        ensures { result.now ≡ self.now.entry }
    {
        &self.entry
    }
}

impl<N: Keeps> Kept<N> {
    /// The entry of the root.
    pub fn entry(&self) -> &N
        ensures { result.now ≡ top (tree_of self.now) }
    {
        match self {
            Kept::One(entry) => entry,
            Kept::Two(above, _, _) => &above.entry,
        }
    }

    /// The entry of the node of a number.
    pub fn entry_at(&self, at: u32) -> &N
        requires counted { IsCounted N.rows self.now }
        requires within { at < count (tree_of self.now) }
        ensures { result.now ≡ entry_at at (tree_of self.now) }
    {
        if at == 0 {
            return self.entry();
        }
        match self {
            Kept::One(entry) => entry,
            Kept::Two(_, left, right) => {
                let before = left.nodes();
                if at - 1 < before {
                    left.entry_at(at - 1)
                } else {
                    right.entry_at(at - 1 - before)
                }
            }
        }
    }

    /// How many nodes there are.
    pub fn nodes(&self) -> u32
        requires { IsCounted N.rows self.now }
        ensures { result ≡ count (tree_of self.now) }
    {
        match self {
            Kept::One(_) => 1,
            Kept::Two(above, _, _) => above.nodes,
        }
    }

    /// How many rows there are.
    pub fn rows(&self) -> u64
        requires { IsCounted N.rows self.now }
        ensures { result ≡ row_sum N.rows (tree_of self.now) }
    {
        match self {
            Kept::One(entry) => entry.row_count() as u64,
            Kept::Two(above, _, _) => above.rows,
        }
    }

    /// An entry above two parts.
    pub(crate) fn two(entry: N, left: Box<Kept<N>>, right: Box<Kept<N>>) -> Kept<N>
        requires left { IsCounted N.rows left.value }
        requires right { IsCounted N.rows right.value }
        requires few { count (tree_of left.value) + count (tree_of right.value) < 100000 }
        requires small { row_sum N.rows (tree_of left.value) + row_sum N.rows (tree_of right.value) < 2 ^ 63 }
        ensures counted { IsCounted N.rows result }
        ensures tree { tree_of result ≡ Two entry (tree_of left.value) (tree_of right.value) }
    {
        let nodes = left.nodes() + right.nodes() + 1;
        let rows = left.rows() + right.rows() + entry.row_count() as u64;
        Kept::Two(Above { entry, nodes, rows }, left, right)
    }
}
