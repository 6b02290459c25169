//! A part made anew, with the entries above it.

ghost use Rattle.std.specs.Prelude.{◌≡◌, ◌<◌, ◌≤◌, ◌+◌, ◌^◌, ℕ, length, IfOk};
ghost use Rattle.mm_tree.specs.NamedTree.{nodes, shape};
ghost use Rattle.mm_tree.specs.Nodes.{named, field_of, IsOver};
ghost use Rattle.mm_tree.specs.Paths.{node_at};
ghost use Rattle.mm_tree.specs.ValidTree.{IsValidTree};
ghost use Rattle.mm_nodes.specs.KeptTrees.{count, path_in, row_sum, StandsBeside};
ghost use Rattle.mm_nodes.specs.KeptNodes.{tree_of, IsCounted};
ghost use Rattle.mm_nodes.specs.declared.TheConstants.{MOST_ROWS};
ghost use Rattle.mm_nodes.specs.Demands.{Frame, made_rows, frame};
ghost use Rattle.mm_nodes.specs.Calls.{CanWalk};
ghost use Rattle.mm_nodes.specs.Walks.{CanRemake, path_rows};
ghost use Rattle.mm_nodes.specs.Changes.{Changes};

use crate::build::build;
use crate::remake::{remake, rows_beside};
use crate::{KeepFault, Keeps, Kept};
use mm_base::Steps;
use mm_states::Automaton;
use mm_tree::Node;
use std::alloc::Global;
use std::sync::ledger::Ledger;

/// A new part, and the entries that were made above it, the lowest first.
pub(crate) struct Change<N> {
    pub(crate) part: Kept<N>,
    pub(crate) made: Vec<N>,
}

/// The node of a number, by how many nodes are kept.
fn part_at<'a, N: Keeps>(node: &'a Node, kept: &Kept<N>, at: u32) -> &'a Node
    requires counted { IsCounted N.rows kept.now }
    requires within { at < count (tree_of kept.now) }
    requires over { IsOver (field_of node.now) node.now }
    requires valid { IsValidTree (field_of node.now) (named node.now) }
    ensures tree { named result.now ≡ node_at (named node.now) (path_in at (tree_of kept.now)) }
    ensures over { IsOver (field_of node.now) result.now }
{
    if at == 0 {
        return node;
    }
    match kept {
        Kept::One(_) => node,
        Kept::Two(_, first, second) => match node {
            Node::Leaf(_) => node,
            Node::Join(_, _, left, right) => {
                let before = first.nodes();
                if at - 1 < before {
                    part_at(left, first, at - 1)
                } else {
                    part_at(right, second, at - 1 - before)
                }
            }
        },
    }
}

/// The entries above a new part, where they fit the limit beside `rows` and what the automaton has.
fn remake_above<N: Keeps, A: Automaton, L: Ledger>(
    alloc: Global,
    automaton: &mut A,
    kept: &Kept<N>,
    node: &Node,
    at: u32,
    part: Kept<N>,
    limit: u64,
    rows: u64,
    steps: &mut Steps<L>,
) -> Result<Change<N>, KeepFault>
    requires can { CanWalk (A.shape automaton.old) (A.field automaton.old) (A.lists automaton.old) limit node.now }
    requires parts { CanRemake N.Keeps (A.shape automaton.old) (A.lists automaton.old) (field_of node.now) (named node.now)
        (tree_of kept.now) (tree_of part) (path_in at (tree_of kept.now)) }
    requires counted { IsCounted N.rows kept.now }
    requires counted_part { IsCounted N.rows part }
    requires within { at < count (tree_of kept.now) }
    requires rows { rows ≤ MOST_ROWS }
    ensures shape { A.shape automaton.new ≡ A.shape automaton.old }
    ensures field { A.field automaton.new ≡ A.field automaton.old }
    ensures marked { A.marked automaton.new ≡ A.marked automaton.old }
    ensures ticks { steps.new ≤ steps.old + length (path_in at (tree_of kept.now)) }
    ensures part { IfOk result (λ change. change.part ≡ part) }
    ensures changes { Changes N.Keeps (A.shape automaton.old) (A.lists automaton.old) (A.lists automaton.new) (field_of node.now)
        (named node.now) (tree_of kept.now) (path_in at (tree_of kept.now)) limit
        (rows + path_rows (field_of node.now) (N.query (A.shape automaton.old)) (path_in at (tree_of kept.now)) (named node.now)) result }
{
    let mut made = Vec::new(alloc);
    let mut all = rows;
    match remake(
        alloc, automaton, node, kept, at, &part, &mut made, limit, &mut all, steps,
    ) {
        Ok(_) => {
            if automaton.cells() + all > limit {
                return Err(KeepFault::Full);
            }
            Ok(Change { part, made })
        }
        Err(fault) => Err(fault),
    }
}

/// A new part at number `at` for the nodes of a tree there, and the entries above it, where they fit the limit beside the rows that stay.
pub(crate) fn remake_part<N: Keeps, A: Automaton, L: Ledger>(
    alloc: Global,
    automaton: &mut A,
    kept: &Kept<N>,
    node: &Node,
    at: u32,
    limit: u64,
    steps: &mut Steps<L>,
) -> Result<Change<N>, KeepFault>
    requires can { CanWalk (A.shape automaton.old) (A.field automaton.old) (A.lists automaton.old) limit node.now }
    requires beside { StandsBeside (N.IsLeaf (frame (field_of node.now) (A.shape automaton.old) (A.lists automaton.old)))
        (N.IsJoin (frame (field_of node.now) (A.shape automaton.old) (A.lists automaton.old))) (path_in at (tree_of kept.now))
        (named node.now) (tree_of kept.now) }
    requires counted { IsCounted N.rows kept.now }
    requires within { at < count (tree_of kept.now) }
    requires rows { row_sum N.rows (tree_of kept.now) ≤ MOST_ROWS }
    ensures shape { A.shape automaton.new ≡ A.shape automaton.old }
    ensures field { A.field automaton.new ≡ A.field automaton.old }
    ensures marked { A.marked automaton.new ≡ A.marked automaton.old }
    ensures ticks { steps.new ≤ steps.old + nodes (node_at (named node.now) (path_in at (tree_of kept.now))) + length
        (path_in at (tree_of kept.now)) }
    ensures changes { Changes N.Keeps (A.shape automaton.old) (A.lists automaton.old) (A.lists automaton.new) (field_of node.now)
        (named node.now) (tree_of kept.now) (path_in at (tree_of kept.now)) limit
        (made_rows (field_of node.now) (N.query (A.shape automaton.old)) (shape (named node.now))) result }
{
    let mut rows = rows_beside(kept, at);
    match build(
        alloc,
        automaton,
        part_at(node, kept, at),
        limit,
        &mut rows,
        steps,
    ) {
        Ok(part) => remake_above(alloc, automaton, kept, node, at, part, limit, rows, steps),
        Err(fault) => Err(fault),
    }
}
