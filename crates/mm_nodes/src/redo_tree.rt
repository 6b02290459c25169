//! What is kept for a tree, made once and made again where a part of the tree is exchanged.

ghost use Rattle.std.specs.Prelude.{◌≡◌, ◌<◌, ◌≤◌, ◌+◌, ◌^◌, ℕ, length, Err, OnOk, OnErr, IfOk, IfErr};
ghost use Rattle.mm_logic.specs.Growth.{root};
ghost use Rattle.mm_states.specs.Letters as letters;
ghost use Rattle.mm_logic.specs.Occurrence.{nodes as parts, list_cells};
ghost use Rattle.mm_tree.specs.NamedTree.{nodes};
ghost use Rattle.mm_tree.specs.Paths.{node_at};
ghost use Rattle.mm_tree.specs.Places.{IsPlaceOf, path_of};
ghost use Rattle.mm_nodes.specs.declared.TheConstants.{MAX_LIMIT};
ghost use Rattle.mm_nodes.specs.declared.keeps.KeepFault.TheVariants.{Full};
ghost use Rattle.mm_nodes.specs.KeptTrees.{StandsBeside, count, path_in, remade, row_sum};
ghost use Rattle.mm_nodes.specs.KeptNodes.{tree_of, IsCounted};
ghost use Rattle.mm_nodes.specs.Demands.{Frame, IsExact, frame};
ghost use Rattle.mm_nodes.specs.Changes.{IsSettled, KeepsTree, IsFull};

use crate::build::build;
use crate::change::{Change, remake_part};
use crate::exchange::exchange;
use crate::{KeepFault, Keeps, Kept};
use mm_base::Steps;
use mm_states::Automaton;
use mm_tree::{Place, Tree};
use std::alloc::Global;
use std::sync::ledger::Ledger;

/// An entry for each node of a tree. Full exactly where the cells of the types in the automaton's list with those of the tree, and the rows
/// of the tree, exceed the limit. After an Ok the automaton has a mark at its lists.
pub fn of<N: Keeps, A: Automaton, L: Ledger>(
    alloc: Global,
    automaton: &mut A,
    limit: u64,
    tree: &Tree,
    steps: &mut Steps<L>,
) -> Result<Kept<N>, KeepFault>
    requires exact { IsExact (A.shape automaton.old) (A.lists automaton.old) }
    requires cells { list_cells (parts (A.shape automaton.old)) (A.lists automaton.old) ≤ limit }
    requires limited { limit ≤ MAX_LIMIT }
    requires over { letters.IsOver (A.shape automaton.old) (A.field automaton.old) tree.now.f }
    ensures shape { A.shape automaton.new ≡ A.shape automaton.old }
    ensures field { A.field automaton.new ≡ A.field automaton.old }
    ensures ticks { steps.new ≤ steps.old + nodes tree.now.tree }
    ensures ok { IfOk result (λ kept. KeepsTree N.Keeps (A.shape automaton.old) (root (A.shape automaton.old) (A.lists automaton.old))
        (A.lists automaton.new) (A.marked automaton.new) tree.now.f tree.now.tree limit kept) }
    ensures full { IfErr result (λ e. e ≡ Full → IsFull (A.shape automaton.old) (N.query (A.shape automaton.old))
        (root (A.shape automaton.old) (A.lists automaton.old)) tree.now.f tree.now.tree limit) }
{
    let mut rows = 0;
    match build(alloc, automaton, tree.node(), limit, &mut rows, steps) {
        Ok(kept) => {
            if automaton.cells() + rows > limit {
                return Err(KeepFault::Full);
            }
            automaton.mark();
            Ok(kept)
        }
        Err(fault) => Err(fault),
    }
}

/// New entries for the nodes at a place of a tree and, as long as a parent can tell them from those before, for the joins above it. Full
/// exactly where the cells of the types in the automaton's list with those of the tree, and the rows of the tree, exceed the limit.
/// After an Ok the automaton has a mark at its lists; before a refusal it goes back to the last one, and what is kept is as before.
pub fn redo<N: Keeps, A: Automaton, L: Ledger>(
    alloc: Global,
    automaton: &mut A,
    kept: &mut Kept<N>,
    limit: u64,
    after: &Tree,
    place: &Place,
    steps: &mut Steps<L>,
) -> Result<(), KeepFault>
    requires settled { IsSettled N.rows (A.shape automaton.old) (A.lists automaton.old) (A.marked automaton.old) limit kept.old }
    requires over { letters.IsOver (A.shape automaton.old) (A.field automaton.old) after.now.f }
    requires place { IsPlaceOf after.now.tree place.now }
    requires beside { StandsBeside (N.IsLeaf (frame after.now.f (A.shape automaton.old) (A.lists automaton.old)))
        (N.IsJoin (frame after.now.f (A.shape automaton.old) (A.lists automaton.old)))
        (path_of place.now.number after.now.tree) after.now.tree (tree_of kept.old) }
    ensures shape { A.shape automaton.new ≡ A.shape automaton.old }
    ensures field { A.field automaton.new ≡ A.field automaton.old }
    ensures ticks { steps.new ≤ steps.old + nodes (node_at after.now.tree (path_of place.now.number after.now.tree)) + place.now.depth }
    ensures ok { OnOk result (KeepsTree N.Keeps (A.shape automaton.old) (root (A.shape automaton.old) (A.lists automaton.old))
        (A.lists automaton.new) (A.marked automaton.new) after.now.f after.now.tree limit kept.new) }
    ensures kept { OnErr result (kept.new ≡ kept.old) }
    ensures lists { OnErr result (A.lists automaton.new ≡ A.lists automaton.old) }
    ensures marked { OnErr result (A.marked automaton.new ≡ A.marked automaton.old) }
    ensures full { IfErr result (λ e. e ≡ Full → IsFull (A.shape automaton.old) (N.query (A.shape automaton.old))
        (root (A.shape automaton.old) (A.lists automaton.old)) after.now.f after.now.tree limit) }
{
    match remake_part(
        alloc,
        automaton,
        kept,
        after.node(),
        place.number(),
        limit,
        steps,
    ) {
        Ok(change) => {
            put(kept, place, change);
            automaton.mark();
            Ok(())
        }
        Err(fault) => {
            automaton.roll_back();
            Err(fault)
        }
    }
}

/// Puts what was made anew in its place. No memory.
fn put<N: Keeps>(kept: &mut Kept<N>, place: &Place, change: Change<N>)
    requires counted { IsCounted N.rows kept.old }
    requires part { IsCounted N.rows change.part }
    requires within { place.now.number < count (tree_of kept.old) }
    requires deep { place.now.depth ≡ length (path_in place.now.number (tree_of kept.old)) }
    requires few { length change.made.items ≤ place.now.depth }
    requires nodes { count (remade (path_in place.now.number (tree_of kept.old)) (tree_of kept.old)
        (tree_of change.part) change.made.items) < 100000 }
    requires rows { row_sum N.rows (remade (path_in place.now.number (tree_of kept.old)) (tree_of kept.old)
        (tree_of change.part) change.made.items) < 2 ^ 63 }
    ensures counted { IsCounted N.rows kept.new }
    ensures tree { tree_of kept.new ≡ remade (path_in place.now.number (tree_of kept.old)) (tree_of kept.old)
        (tree_of change.part) change.made.items }
{
    let Change { mut part, mut made } = change;
    exchange(kept, place.number(), place.depth(), &mut part, &mut made);
}
