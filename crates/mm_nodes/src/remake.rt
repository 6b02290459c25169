//! The entries above a part that is made anew.

ghost use Rattle.std.specs.Prelude.{◌≡◌, ◌<◌, ◌≤◌, ◌+◌, ◌^◌, ℕ, Bool, [], ◌∷◌, ◌++◌, length, not, true, IfOk, IfErr, false};
ghost use Rattle.mm_tree.specs.Nodes.{named, field_of};
ghost use Rattle.mm_logic.specs.Occurrence.{nodes as parts, list_cells};
ghost use Rattle.mm_states.specs.Letters as letters;
ghost use Rattle.mm_nodes.specs.declared.TheConstants.{MAX_LIMIT, MOST_ROWS};
ghost use Rattle.mm_nodes.specs.Demands.{IsExact, frame};
ghost use Rattle.mm_nodes.specs.KeptTrees.{top, count, path_in, rows_beside, row_sum};
ghost use Rattle.mm_nodes.specs.KeptNodes.{tree_of, IsCounted};
ghost use Rattle.mm_nodes.specs.Calls.{CanWalk};
ghost use Rattle.mm_nodes.specs.Walks.{highest, CanRemake, Remakes, Renews, StepsUp};

use crate::build::add_rejoin;
use crate::kept::Above;
use crate::{KeepFault, Keeps, Kept};
use mm_base::Steps;
use mm_ops::Op;
use mm_states::Automaton;
use mm_tree::Node;
use std::alloc::Global;
use std::sync::ledger::Ledger;

/// The rows of the nodes that are neither above the node of number `at` nor below it.
pub(crate) fn rows_beside<N: Keeps>(kept: &Kept<N>, at: u32) -> u64
    requires counted { IsCounted N.rows kept.now }
    requires small { row_sum N.rows (tree_of kept.now) < 2 ^ 63 }
    ensures beside { result ≡ rows_beside N.rows (path_in at (tree_of kept.now)) (tree_of kept.now) }
    ensures few { result ≤ row_sum N.rows (tree_of kept.now) }
{
    if at == 0 {
        return 0;
    }
    match kept {
        Kept::One(_) => 0,
        Kept::Two(_, left, right) => {
            let before = left.nodes();
            if at - 1 < before {
                rows_beside(left, at - 1) + right.rows()
            } else {
                rows_beside(right, at - 1 - before) + left.rows()
            }
        }
    }
}

/// The entry that was made last, or that of the new part where none was.
fn last_made<'a, N: Keeps>(made: &'a Vec<N>, new: &'a Kept<N>) -> &'a N
    ensures { result.now ≡ highest made.now.items (top (tree_of new.now)) }
{
    match made.last() {
        Some(entry) => entry,
        None => new.entry(),
    }
}

/// Keeps an entry among those that were made, and answers whether a parent can tell it from the one before.
fn renew<N: Keeps>(old: &N, entry: N, made: &mut Vec<N>) -> Result<bool, KeepFault>
    ensures { Renews N.Same old.now entry made.old.items made.new.items result }
{
    let changed = !entry.looks_same(old);
    match made.push(entry) {
        Ok(()) => Ok(changed),
        Err(_) => Err(KeepFault::NoMemory),
    }
}

/// One step upwards from the left child: where it has changed, the join's entry is made again, and else it stays.
fn step_from_left<N: Keeps, A: Automaton, L: Ledger>(
    alloc: Global,
    automaton: &mut A,
    op: &Op,
    changed: bool,
    old: &N,
    sibling: &N,
    new: &Kept<N>,
    made: &mut Vec<N>,
    limit: u64,
    rows: &mut u64,
    steps: &mut Steps<L>,
) -> Result<bool, KeepFault>
    requires over { letters.IsOver (A.shape automaton.old) (A.field automaton.old) op.now.f }
    requires left { changed ≡ true → N.Fits (frame op.now.f (A.shape automaton.old) (A.lists automaton.old)) op.now.op.t1
        (highest made.old.items (top (tree_of new.now))) }
    requires right { changed ≡ true → N.Fits (frame op.now.f (A.shape automaton.old) (A.lists automaton.old)) op.now.op.t2 sibling.now }
    requires known { N.Knows (frame op.now.f (A.shape automaton.old) (A.lists automaton.old)) op.now.op old.now }
    requires exact { IsExact (A.shape automaton.old) (A.lists automaton.old) }
    requires cells { list_cells (parts (A.shape automaton.old)) (A.lists automaton.old) ≤ limit }
    requires limited { limit ≤ MAX_LIMIT }
    requires rows { changed ≡ true → rows.old ≤ MOST_ROWS }
    requires small { rows.old < 2 ^ 63 }
    ensures shape { A.shape automaton.new ≡ A.shape automaton.old }
    ensures field { A.field automaton.new ≡ A.field automaton.old }
    ensures marked { A.marked automaton.new ≡ A.marked automaton.old }
    ensures tick { steps.new ≤ steps.old + 1 }
    ensures steps_up { StepsUp N.Keeps (A.shape automaton.old) (A.lists automaton.old) (A.lists automaton.new) op.now
        (highest made.old.items (top (tree_of new.now))) sibling.now old.now made.old.items made.new.items
        limit rows.old rows.new changed result }
{
    if !changed {
        *rows += old.row_count() as u64;
        return Ok(false);
    }
    match add_rejoin(
        alloc,
        automaton,
        op,
        last_made(made, new),
        sibling,
        old,
        limit,
        rows,
        steps,
    ) {
        Ok(entry) => renew(old, entry, made),
        Err(fault) => Err(fault),
    }
}

/// One step upwards from the right child: where it has changed, the join's entry is made again, and else it stays.
fn step_from_right<N: Keeps, A: Automaton, L: Ledger>(
    alloc: Global,
    automaton: &mut A,
    op: &Op,
    changed: bool,
    old: &N,
    sibling: &N,
    new: &Kept<N>,
    made: &mut Vec<N>,
    limit: u64,
    rows: &mut u64,
    steps: &mut Steps<L>,
) -> Result<bool, KeepFault>
    requires over { letters.IsOver (A.shape automaton.old) (A.field automaton.old) op.now.f }
    requires left { changed ≡ true → N.Fits (frame op.now.f (A.shape automaton.old) (A.lists automaton.old)) op.now.op.t1 sibling.now }
    requires right { changed ≡ true → N.Fits (frame op.now.f (A.shape automaton.old) (A.lists automaton.old)) op.now.op.t2
        (highest made.old.items (top (tree_of new.now))) }
    requires known { N.Knows (frame op.now.f (A.shape automaton.old) (A.lists automaton.old)) op.now.op old.now }
    requires exact { IsExact (A.shape automaton.old) (A.lists automaton.old) }
    requires cells { list_cells (parts (A.shape automaton.old)) (A.lists automaton.old) ≤ limit }
    requires limited { limit ≤ MAX_LIMIT }
    requires rows { changed ≡ true → rows.old ≤ MOST_ROWS }
    requires small { rows.old < 2 ^ 63 }
    ensures shape { A.shape automaton.new ≡ A.shape automaton.old }
    ensures field { A.field automaton.new ≡ A.field automaton.old }
    ensures marked { A.marked automaton.new ≡ A.marked automaton.old }
    ensures tick { steps.new ≤ steps.old + 1 }
    ensures steps_up { StepsUp N.Keeps (A.shape automaton.old) (A.lists automaton.old) (A.lists automaton.new) op.now sibling.now
        (highest made.old.items (top (tree_of new.now))) old.now made.old.items made.new.items limit rows.old rows.new changed result }
{
    if !changed {
        *rows += old.row_count() as u64;
        return Ok(false);
    }
    match add_rejoin(
        alloc,
        automaton,
        op,
        sibling,
        last_made(made, new),
        old,
        limit,
        rows,
        steps,
    ) {
        Ok(entry) => renew(old, entry, made),
        Err(fault) => Err(fault),
    }
}

/// Makes the entries above a part again, from the part upwards, as long as a parent can tell them from those before; answers whether the
/// root's was.
pub(crate) fn remake<N: Keeps, A: Automaton, L: Ledger>(
    alloc: Global,
    automaton: &mut A,
    node: &Node,
    kept: &Kept<N>,
    at: u32,
    new: &Kept<N>,
    made: &mut Vec<N>,
    limit: u64,
    rows: &mut u64,
    steps: &mut Steps<L>,
) -> Result<bool, KeepFault>
    requires can { CanWalk (A.shape automaton.old) (A.field automaton.old) (A.lists automaton.old) limit node.now }
    requires parts { CanRemake N.Keeps (A.shape automaton.old) (A.lists automaton.old) (field_of node.now) (named node.now)
        (tree_of kept.now) (tree_of new.now) (path_in at (tree_of kept.now)) }
    requires counted { IsCounted N.rows kept.now }
    requires within { at < count (tree_of kept.now) }
    requires none { made.old.items ≡ [] }
    requires rows { rows.old ≤ MOST_ROWS }
    ensures shape { A.shape automaton.new ≡ A.shape automaton.old }
    ensures field { A.field automaton.new ≡ A.field automaton.old }
    ensures marked { A.marked automaton.new ≡ A.marked automaton.old }
    ensures ticks { steps.new ≤ steps.old + length (path_in at (tree_of kept.now)) }
    ensures remakes { Remakes N.Keeps (A.shape automaton.old) (A.lists automaton.old) (A.lists automaton.new) (field_of node.now)
        (named node.now) (tree_of kept.now) (tree_of new.now)
        (path_in at (tree_of kept.now)) made.new.items limit rows.old rows.new result }
{
    if at == 0 {
        return Ok(!new.entry().looks_same(kept.entry()));
    }
    match kept {
        Kept::One(_) => Ok(false),
        Kept::Two(above, first, second) => match node {
            Node::Leaf(_) => Ok(false),
            Node::Join(_, op, left, right) => {
                let before = first.nodes();
                if at - 1 < before {
                    match remake(
                        alloc,
                        automaton,
                        left,
                        first,
                        at - 1,
                        new,
                        made,
                        limit,
                        rows,
                        steps,
                    ) {
                        Ok(changed) => step_from_left(
                            alloc,
                            automaton,
                            op,
                            changed,
                            above.entry(),
                            second.entry(),
                            new,
                            made,
                            limit,
                            rows,
                            steps,
                        ),
                        Err(fault) => Err(fault),
                    }
                } else {
                    match remake(
                        alloc,
                        automaton,
                        right,
                        second,
                        at - 1 - before,
                        new,
                        made,
                        limit,
                        rows,
                        steps,
                    ) {
                        Ok(changed) => step_from_right(
                            alloc,
                            automaton,
                            op,
                            changed,
                            above.entry(),
                            first.entry(),
                            new,
                            made,
                            limit,
                            rows,
                            steps,
                        ),
                        Err(fault) => Err(fault),
                    }
                }
            }
        },
    }
}
