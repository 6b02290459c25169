//! The exchange of a part, and of the entries that were made above it.

ghost use Rattle.std.specs.Prelude.{◌≡◌, ◌<◌, ◌≤◌, ◌+◌, ◌^◌, length};
ghost use Rattle.mm_nodes.specs.KeptTrees.{top, count, path_in, remade, row_sum};
ghost use Rattle.mm_nodes.specs.KeptNodes.{tree_of, IsCounted};
ghost use Rattle.mm_nodes.specs.Walks.{TakesLast, renewed};

use crate::kept::Above;
use crate::{Keeps, Kept};

/// The last of the entries that were made, where there are as many as `depth`.
fn take_last<N: Keeps>(made: &mut Vec<N>, depth: u32) -> Option<N>
    requires few { length made.old.items ≤ depth }
    requires deep { 0 < depth }
    ensures { TakesLast made.old.items made.new.items depth result }
{
    if made.len() == depth as usize {
        made.pop()
    } else {
        None
    }
}

/// How many nodes and rows a part has.
#[derive(Clone, Copy)]
pub(crate) struct Sums {
    nodes: u32,
    rows: u64,
}

impl<N: Keeps> Kept<N> {
    /// The sums over all nodes.
    fn sums(&self) -> Sums
        requires { IsCounted N.rows self.now }
        ensures nodes { result.nodes ≡ count (tree_of self.now) }
        ensures rows { result.rows ≡ row_sum N.rows (tree_of self.now) }
    {
        Sums {
            nodes: self.nodes(),
            rows: self.rows(),
        }
    }
}

impl<N: Keeps> Above<N> {
    /// Takes the entry, where there is one, and the sums over two parts; gives the sums over all.
    fn renew(&mut self, entry: Option<N>, left: Sums, right: Sums) -> Sums
        requires few { left.nodes + right.nodes < 100000 }
        requires small { left.rows + right.rows < 2 ^ 63 }
        ensures entry { self.new.entry ≡ renewed entry self.old.entry }
        ensures nodes { self.new.nodes ≡ left.nodes + right.nodes + 1 }
        ensures rows { self.new.rows ≡ left.rows + right.rows + N.rows self.new.entry }
        ensures sums { (result.nodes ≡ self.new.nodes) × (result.rows ≡ self.new.rows) }
    {
        if let Some(entry) = entry {
            self.entry = entry;
        }
        self.nodes = left.nodes + right.nodes + 1;
        self.rows = left.rows + right.rows + self.entry.row_count() as u64;
        Sums {
            nodes: self.nodes,
            rows: self.rows,
        }
    }
}

/// Exchanges the part at number `at`, which is `depth` steps below, for a new one, and puts the entries that were made above it; gives the
/// sums over all nodes. No memory. The new part goes by reference: the walk is as deep as the tree, and a step takes little of the stack.
pub(crate) fn exchange<N: Keeps>(
    kept: &mut Kept<N>,
    at: u32,
    depth: u32,
    new: &mut Kept<N>,
    made: &mut Vec<N>,
) -> Sums
    requires counted { IsCounted N.rows kept.old }
    requires new { IsCounted N.rows new.old }
    requires within { at < count (tree_of kept.old) }
    requires deep { depth ≡ length (path_in at (tree_of kept.old)) }
    requires few { length made.old.items ≤ depth }
    requires nodes { count (remade (path_in at (tree_of kept.old)) (tree_of kept.old) (tree_of new.old) made.old.items) < 100000 }
    requires rows { row_sum N.rows (remade (path_in at (tree_of kept.old)) (tree_of kept.old) (tree_of new.old) made.old.items) < 2 ^ 63 }
    ensures counted { IsCounted N.rows kept.new }
    ensures tree { tree_of kept.new ≡ remade (path_in at (tree_of kept.old)) (tree_of kept.old) (tree_of new.old) made.old.items }
    ensures sums { (result.nodes ≡ count (tree_of kept.new)) × (result.rows ≡ row_sum N.rows (tree_of kept.new)) }
{
    if at == 0 {
        let sums = new.sums();
        std::mem::swap(kept, new);
        return sums;
    }
    match kept {
        Kept::One(_) => Sums { nodes: 1, rows: 0 },
        Kept::Two(above, left, right) => {
            let entry = take_last(made, depth);
            let first = left.sums();
            let second = right.sums();
            if at - 1 < first.nodes {
                let part = exchange(left, at - 1, depth - 1, new, made);
                above.renew(entry, part, second)
            } else {
                let part = exchange(right, at - 1 - first.nodes, depth - 1, new, made);
                above.renew(entry, first, part)
            }
        }
    }
}
