//! Entries for all nodes of a tree.

ghost use Rattle.std.specs.Prelude.{◌≡◌, ◌<◌, ◌≤◌, ◌+◌, ◌^◌, ℕ, OnOk};
ghost use Rattle.mm_logic.specs.Occurrence.{nodes as parts, list_cells};
ghost use Rattle.mm_logic.specs.JoinRule.{all_pairs, join_type};
ghost use Rattle.mm_logic_laws.specs.ValueLaws.{types_by_rules};
ghost use Rattle.mm_states.specs.Letters as letters;
ghost use Rattle.mm_tree.specs.NamedTree.{shape, nodes};
ghost use Rattle.mm_tree.specs.Nodes.{named, named_leaf, field_of, IsOver};
ghost use Rattle.mm_nodes.specs.declared.TheConstants.{MAX_LIMIT, MOST_ROWS};
ghost use Rattle.mm_nodes.specs.Demands.{Frame, IsExact, frame};
ghost use Rattle.mm_nodes.specs.KeptTrees.{top, count, row_sum};
ghost use Rattle.mm_nodes.specs.KeptNodes.{tree_of, IsCounted};
ghost use Rattle.mm_nodes.specs.Calls.{CanWalk, CanMakeLeaf, IsRoom, Adds};
ghost use Rattle.mm_nodes.specs.Sketches.{AreKnown, IsAt};
ghost use Rattle.mm_nodes.specs.Walks.{Joins, Builds};

use crate::sketches::Sketches;
use crate::{KeepFault, Keeps, Kept};
use mm_base::Steps;
use mm_ops::Op;
use mm_states::Automaton;
use mm_tree::{Leaf, Node};
use std::alloc::Global;
use std::sync::ledger::Ledger;

/// What the limit leaves beside the cells of an automaton and some rows.
fn room<A: Automaton>(automaton: &A, limit: u64, rows: u64) -> Result<u64, KeepFault>
    requires cells { list_cells (parts (A.shape automaton.now)) (A.lists automaton.now) ≤ limit }
    requires limited { limit ≤ MAX_LIMIT }
    requires rows { rows ≤ MOST_ROWS }
    ensures { IsRoom (list_cells (parts (A.shape automaton.now)) (A.lists automaton.now) + rows) limit result }
{
    let used = automaton.cells() + rows;
    if used > limit {
        return Err(KeepFault::Full);
    }
    Ok(limit - used)
}

/// The entry of a join, counted.
pub(crate) fn add_join<N: Keeps, A: Automaton, L: Ledger>(
    alloc: Global,
    automaton: &mut A,
    op: &Op,
    left: &N,
    right: &N,
    limit: u64,
    rows: &mut u64,
    steps: &mut Steps<L>,
) -> Result<N, KeepFault>
    requires over { letters.IsOver (A.shape automaton.old) (A.field automaton.old) op.now.f }
    requires left { N.Fits (frame op.now.f (A.shape automaton.old) (A.lists automaton.old)) op.now.op.t1 left.now }
    requires right { N.Fits (frame op.now.f (A.shape automaton.old) (A.lists automaton.old)) op.now.op.t2 right.now }
    requires exact { IsExact (A.shape automaton.old) (A.lists automaton.old) }
    requires cells { list_cells (parts (A.shape automaton.old)) (A.lists automaton.old) ≤ limit }
    requires limited { limit ≤ MAX_LIMIT }
    requires rows { rows.old ≤ MOST_ROWS }
    ensures shape { A.shape automaton.new ≡ A.shape automaton.old }
    ensures field { A.field automaton.new ≡ A.field automaton.old }
    ensures marked { A.marked automaton.new ≡ A.marked automaton.old }
    ensures tick { steps.new ≤ steps.old + 1 }
    ensures adds { Adds N.rows (A.shape automaton.old) (A.lists automaton.old) (A.lists automaton.new)
        (N.IsJoin (frame op.now.f (A.shape automaton.old) (A.lists automaton.new)) op.now.op left.now right.now)
        (all_pairs (join_type op.now.f (A.shape automaton.old) op.now.op)
        (N.types (frame op.now.f (A.shape automaton.old) (A.lists automaton.old)) left.now)
        (N.types (frame op.now.f (A.shape automaton.old) (A.lists automaton.old)) right.now)) limit rows.old rows.new result }
{
    let room = match room(automaton, limit, *rows) {
        Ok(room) => room,
        Err(fault) => return Err(fault),
    };
    match N::join(alloc, automaton, op, left, right, room, steps) {
        Ok(entry) => {
            *rows += entry.row_count() as u64;
            Ok(entry)
        }
        Err(fault) => Err(fault),
    }
}

/// The entry of a join, counted, where something may be known of joins by the same operator.
pub(crate) fn add_rejoin<N: Keeps, A: Automaton, L: Ledger>(
    alloc: Global,
    automaton: &mut A,
    op: &Op,
    left: &N,
    right: &N,
    known: &N,
    limit: u64,
    rows: &mut u64,
    steps: &mut Steps<L>,
) -> Result<N, KeepFault>
    requires over { letters.IsOver (A.shape automaton.old) (A.field automaton.old) op.now.f }
    requires left { N.Fits (frame op.now.f (A.shape automaton.old) (A.lists automaton.old)) op.now.op.t1 left.now }
    requires right { N.Fits (frame op.now.f (A.shape automaton.old) (A.lists automaton.old)) op.now.op.t2 right.now }
    requires known { N.Knows (frame op.now.f (A.shape automaton.old) (A.lists automaton.old)) op.now.op known.now }
    requires exact { IsExact (A.shape automaton.old) (A.lists automaton.old) }
    requires cells { list_cells (parts (A.shape automaton.old)) (A.lists automaton.old) ≤ limit }
    requires limited { limit ≤ MAX_LIMIT }
    requires rows { rows.old ≤ MOST_ROWS }
    ensures shape { A.shape automaton.new ≡ A.shape automaton.old }
    ensures field { A.field automaton.new ≡ A.field automaton.old }
    ensures marked { A.marked automaton.new ≡ A.marked automaton.old }
    ensures tick { steps.new ≤ steps.old + 1 }
    ensures adds { Adds N.rows (A.shape automaton.old) (A.lists automaton.old) (A.lists automaton.new)
        (N.IsJoin (frame op.now.f (A.shape automaton.old) (A.lists automaton.new)) op.now.op left.now right.now)
        (all_pairs (join_type op.now.f (A.shape automaton.old) op.now.op)
        (N.types (frame op.now.f (A.shape automaton.old) (A.lists automaton.old)) left.now)
        (N.types (frame op.now.f (A.shape automaton.old) (A.lists automaton.old)) right.now)) limit rows.old rows.new result }
{
    let room = match room(automaton, limit, *rows) {
        Ok(room) => room,
        Err(fault) => return Err(fault),
    };
    match N::rejoin(alloc, automaton, op, left, right, known, room, steps) {
        Ok(entry) => {
            *rows += entry.row_count() as u64;
            Ok(entry)
        }
        Err(fault) => Err(fault),
    }
}

/// The entry of a join, counted, by what is known of joins by its operator.
fn add_known<N: Keeps, A: Automaton, L: Ledger>(
    alloc: Global,
    automaton: &mut A,
    op: &Op,
    left: &N,
    right: &N,
    sketches: &Sketches<N>,
    place: Option<usize>,
    limit: u64,
    rows: &mut u64,
    steps: &mut Steps<L>,
) -> Result<N, KeepFault>
    requires over { letters.IsOver (A.shape automaton.old) (A.field automaton.old) op.now.f }
    requires left { N.Fits (frame op.now.f (A.shape automaton.old) (A.lists automaton.old)) op.now.op.t1 left.now }
    requires right { N.Fits (frame op.now.f (A.shape automaton.old) (A.lists automaton.old)) op.now.op.t2 right.now }
    requires exact { IsExact (A.shape automaton.old) (A.lists automaton.old) }
    requires cells { list_cells (parts (A.shape automaton.old)) (A.lists automaton.old) ≤ limit }
    requires limited { limit ≤ MAX_LIMIT }
    requires rows { rows.old ≤ MOST_ROWS }
    requires sketches { AreKnown N.Keeps (A.shape automaton.old) (A.lists automaton.old) sketches.now.kept.entries }
    requires place { IsAt op.now sketches.now.kept.entries place }
    ensures shape { A.shape automaton.new ≡ A.shape automaton.old }
    ensures field { A.field automaton.new ≡ A.field automaton.old }
    ensures marked { A.marked automaton.new ≡ A.marked automaton.old }
    ensures tick { steps.new ≤ steps.old + 1 }
    ensures adds { Adds N.rows (A.shape automaton.old) (A.lists automaton.old) (A.lists automaton.new)
        (N.IsJoin (frame op.now.f (A.shape automaton.old) (A.lists automaton.new)) op.now.op left.now right.now)
        (all_pairs (join_type op.now.f (A.shape automaton.old) op.now.op)
        (N.types (frame op.now.f (A.shape automaton.old) (A.lists automaton.old)) left.now)
        (N.types (frame op.now.f (A.shape automaton.old) (A.lists automaton.old)) right.now)) limit rows.old rows.new result }
{
    match place {
        Some(at) => add_rejoin(
            alloc,
            automaton,
            op,
            left,
            right,
            sketches.at(at),
            limit,
            rows,
            steps,
        ),
        None => add_join(alloc, automaton, op, left, right, limit, rows, steps),
    }
}

/// The entry of a join, counted, by what is known of joins by its operator; what it knows of them is known from then on.
fn add_and_learn<N: Keeps, A: Automaton, L: Ledger>(
    alloc: Global,
    automaton: &mut A,
    op: &Op,
    left: &N,
    right: &N,
    sketches: &mut Sketches<N>,
    limit: u64,
    rows: &mut u64,
    steps: &mut Steps<L>,
) -> Result<N, KeepFault>
    requires over { letters.IsOver (A.shape automaton.old) (A.field automaton.old) op.now.f }
    requires left { N.Fits (frame op.now.f (A.shape automaton.old) (A.lists automaton.old)) op.now.op.t1 left.now }
    requires right { N.Fits (frame op.now.f (A.shape automaton.old) (A.lists automaton.old)) op.now.op.t2 right.now }
    requires exact { IsExact (A.shape automaton.old) (A.lists automaton.old) }
    requires cells { list_cells (parts (A.shape automaton.old)) (A.lists automaton.old) ≤ limit }
    requires limited { limit ≤ MAX_LIMIT }
    requires rows { rows.old ≤ MOST_ROWS }
    requires sketches { AreKnown N.Keeps (A.shape automaton.old) (A.lists automaton.old) sketches.old.kept.entries }
    ensures shape { A.shape automaton.new ≡ A.shape automaton.old }
    ensures field { A.field automaton.new ≡ A.field automaton.old }
    ensures marked { A.marked automaton.new ≡ A.marked automaton.old }
    ensures tick { steps.new ≤ steps.old + 1 }
    ensures adds { Adds N.rows (A.shape automaton.old) (A.lists automaton.old) (A.lists automaton.new)
        (N.IsJoin (frame op.now.f (A.shape automaton.old) (A.lists automaton.new)) op.now.op left.now right.now)
        (all_pairs (join_type op.now.f (A.shape automaton.old) op.now.op)
        (N.types (frame op.now.f (A.shape automaton.old) (A.lists automaton.old)) left.now)
        (N.types (frame op.now.f (A.shape automaton.old) (A.lists automaton.old)) right.now)) limit rows.old rows.new result }
    ensures sketches { OnOk result (AreKnown N.Keeps (A.shape automaton.old) (A.lists automaton.new) sketches.new.kept.entries) }
{
    let place = sketches.place(op);
    match add_known(
        alloc, automaton, op, left, right, sketches, place, limit, rows, steps,
    ) {
        Ok(entry) => {
            sketches.learn(alloc, op, place, &entry);
            Ok(entry)
        }
        Err(fault) => Err(fault),
    }
}

/// The entry of a leaf, counted.
fn add_leaf<N: Keeps, A: Automaton, L: Ledger>(
    alloc: Global,
    automaton: &mut A,
    leaf: &Leaf,
    limit: u64,
    rows: &mut u64,
    steps: &mut Steps<L>,
) -> Result<N, KeepFault>
    requires leaf { CanMakeLeaf (A.shape automaton.old) (A.field automaton.old) (A.lists automaton.old) leaf.now 0 }
    requires exact { IsExact (A.shape automaton.old) (A.lists automaton.old) }
    requires cells { list_cells (parts (A.shape automaton.old)) (A.lists automaton.old) ≤ limit }
    requires limited { limit ≤ MAX_LIMIT }
    requires rows { rows.old ≤ MOST_ROWS }
    ensures shape { A.shape automaton.new ≡ A.shape automaton.old }
    ensures field { A.field automaton.new ≡ A.field automaton.old }
    ensures marked { A.marked automaton.new ≡ A.marked automaton.old }
    ensures tick { steps.new ≤ steps.old + 1 }
    ensures adds { Adds N.rows (A.shape automaton.old) (A.lists automaton.old) (A.lists automaton.new)
        (N.IsLeaf (frame leaf.now.field (A.shape automaton.old) (A.lists automaton.new)) (named_leaf leaf.now))
        (types_by_rules leaf.now.field (N.query (A.shape automaton.old)) (shape (named_leaf leaf.now))) limit rows.old rows.new result }
{
    let room = match room(automaton, limit, *rows) {
        Ok(room) => room,
        Err(fault) => return Err(fault),
    };
    match N::leaf(alloc, automaton, leaf, room, steps) {
        Ok(entry) => {
            *rows += entry.row_count() as u64;
            Ok(entry)
        }
        Err(fault) => Err(fault),
    }
}

/// What is kept at a join of two parts.
fn join_parts<N: Keeps, A: Automaton, L: Ledger>(
    alloc: Global,
    automaton: &mut A,
    op: &Op,
    left: Kept<N>,
    right: Kept<N>,
    sketches: &mut Sketches<N>,
    limit: u64,
    rows: &mut u64,
    steps: &mut Steps<L>,
) -> Result<Kept<N>, KeepFault>
    requires over { letters.IsOver (A.shape automaton.old) (A.field automaton.old) op.now.f }
    requires left { N.Fits (frame op.now.f (A.shape automaton.old) (A.lists automaton.old)) op.now.op.t1 (top (tree_of left)) }
    requires right { N.Fits (frame op.now.f (A.shape automaton.old) (A.lists automaton.old)) op.now.op.t2 (top (tree_of right)) }
    requires exact { IsExact (A.shape automaton.old) (A.lists automaton.old) }
    requires cells { list_cells (parts (A.shape automaton.old)) (A.lists automaton.old) ≤ limit }
    requires limited { limit ≤ MAX_LIMIT }
    requires rows { rows.old ≤ MOST_ROWS }
    requires sketches { AreKnown N.Keeps (A.shape automaton.old) (A.lists automaton.old) sketches.old.kept.entries }
    requires counted_left { IsCounted N.rows left }
    requires counted_right { IsCounted N.rows right }
    requires few { count (tree_of left) + count (tree_of right) < 100000 }
    requires small { row_sum N.rows (tree_of left) + row_sum N.rows (tree_of right) < 2 ^ 63 }
    ensures shape { A.shape automaton.new ≡ A.shape automaton.old }
    ensures field { A.field automaton.new ≡ A.field automaton.old }
    ensures marked { A.marked automaton.new ≡ A.marked automaton.old }
    ensures tick { steps.new ≤ steps.old + 1 }
    ensures joins { Joins N.Keeps (A.shape automaton.old) (A.lists automaton.old) (A.lists automaton.new) op.now (tree_of left)
        (tree_of right) limit rows.old rows.new result }
    ensures sketches { OnOk result (AreKnown N.Keeps (A.shape automaton.old) (A.lists automaton.new) sketches.new.kept.entries) }
{
    let Ok(left) = Box::new(alloc, left) else {
        return Err(KeepFault::NoMemory);
    };
    let Ok(right) = Box::new(alloc, right) else {
        return Err(KeepFault::NoMemory);
    };
    match add_and_learn(
        alloc,
        automaton,
        op,
        left.entry(),
        right.entry(),
        sketches,
        limit,
        rows,
        steps,
    ) {
        Ok(entry) => Ok(Kept::two(entry, left, right)),
        Err(fault) => Err(fault),
    }
}

/// Entries for all nodes below a node, the children first, by what is known of joins by their operators.
fn build_with<N: Keeps, A: Automaton, L: Ledger>(
    alloc: Global,
    automaton: &mut A,
    node: &Node,
    sketches: &mut Sketches<N>,
    limit: u64,
    rows: &mut u64,
    steps: &mut Steps<L>,
) -> Result<Kept<N>, KeepFault>
    requires can { CanWalk (A.shape automaton.old) (A.field automaton.old) (A.lists automaton.old) limit node.now }
    requires rows { rows.old ≤ MOST_ROWS }
    requires sketches { AreKnown N.Keeps (A.shape automaton.old) (A.lists automaton.old) sketches.old.kept.entries }
    ensures shape { A.shape automaton.new ≡ A.shape automaton.old }
    ensures field { A.field automaton.new ≡ A.field automaton.old }
    ensures marked { A.marked automaton.new ≡ A.marked automaton.old }
    ensures ticks { steps.new ≤ steps.old + nodes (named node.now) }
    ensures builds { Builds N.Keeps (A.shape automaton.old) (A.lists automaton.old) (A.lists automaton.new) (field_of node.now)
        (named node.now) limit rows.old rows.new result }
    ensures sketches { OnOk result (AreKnown N.Keeps (A.shape automaton.old) (A.lists automaton.new) sketches.new.kept.entries) }
{
    match node {
        Node::Leaf(leaf) => match add_leaf(alloc, automaton, leaf, limit, rows, steps) {
            Ok(entry) => Ok(Kept::One(entry)),
            Err(fault) => Err(fault),
        },
        Node::Join(_, op, left, right) => {
            match build_with(alloc, automaton, left, sketches, limit, rows, steps) {
                Ok(first) => match build_with(
                    alloc, automaton, right, sketches, limit, rows, steps,
                ) {
                    Ok(second) => join_parts(
                        alloc, automaton, op, first, second, sketches, limit, rows, steps,
                    ),
                    Err(fault) => Err(fault),
                },
                Err(fault) => Err(fault),
            }
        }
    }
}

/// Entries for all nodes below a node, the children first.
pub(crate) fn build<N: Keeps, A: Automaton, L: Ledger>(
    alloc: Global,
    automaton: &mut A,
    node: &Node,
    limit: u64,
    rows: &mut u64,
    steps: &mut Steps<L>,
) -> Result<Kept<N>, KeepFault>
    requires can { CanWalk (A.shape automaton.old) (A.field automaton.old) (A.lists automaton.old) limit node.now }
    requires rows { rows.old ≤ MOST_ROWS }
    ensures shape { A.shape automaton.new ≡ A.shape automaton.old }
    ensures field { A.field automaton.new ≡ A.field automaton.old }
    ensures marked { A.marked automaton.new ≡ A.marked automaton.old }
    ensures ticks { steps.new ≤ steps.old + nodes (named node.now) }
    ensures builds { Builds N.Keeps (A.shape automaton.old) (A.lists automaton.old) (A.lists automaton.new) (field_of node.now)
        (named node.now) limit rows.old rows.new result }
{
    let mut sketches = Sketches::new(alloc);
    build_with(alloc, automaton, node, &mut sketches, limit, rows, steps)
}
