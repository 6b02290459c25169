//! The rows of each node of a tree, and the least set.

ghost use Rattle.std.specs.Prelude.{◌≡◌, [], ◌<◌, ◌≤◌, ◌+◌, ℕ, OnOk, OnErr, IfOk, IfErr};
ghost use Rattle.mm_logic.specs.Growth.{no_values, root};
ghost use Rattle.mm_states.specs.Letters as letters;
ghost use Rattle.mm_tree.specs.NamedTree.{nodes};
ghost use Rattle.mm_tree.specs.Paths.{node_at};
ghost use Rattle.mm_tree.specs.Places.{IsPlaceOf, path_of};
ghost use Rattle.mm_nodes.specs.declared.TheConstants.{MAX_LIMIT};
ghost use Rattle.mm_nodes.specs.declared.keeps.KeepFault.TheVariants.{Full};
ghost use Rattle.mm_least.specs.LeastCalls.{KeepRows, IsFullOfRows, StandBeside};
ghost use Rattle.mm_least.specs.LeastSets.{IsBestOfRows};

use crate::best::{add_names, best_place};
use crate::{Best, LeastFault, NodeRows};
use mm_base::{NameList, NoMemory, Steps};
use mm_nodes::Kept;
use mm_states::Automaton;
use mm_tree::{Place, Tree};
use std::alloc::Global;
use std::marker::Model;
use std::sync::ledger::Ledger;

/// An automaton, the limit on its cells and the rows, and the rows of each node of a tree.
#[derive(Drop)]
pub struct Least<A: Automaton> {
    automaton: A,
    limit: u64,
    kept: Kept<NodeRows>,
}

impl<A: Automaton> Model for Least<A> {
    ghost use Rattle.mm_least.specs.LeastValue.{LeastValue, IsKept, least_code};

    ghost Value = { LeastValue A };

    ghost coded = { least_code A.code };

    ghost use Rattle.mm_nodes.specs.KeptNodes.{tree_of};

    ghost view = { λ s. record { automaton = s.automaton; limit = s.limit; rows = tree_of s.kept } };

    ghost invariant = { λ s. IsKept (A.shape s.automaton) (A.lists s.automaton) (A.marked s.automaton) s.limit s.kept };
}

impl<A: Automaton> Least<A> {
    /// Rows for each node of a tree, by an automaton with empty lists. `Full` exactly where the cells of the types of the tree and its
    /// rows exceed the limit.
    pub fn of<L: Ledger>(
        alloc: Global,
        automaton: A,
        limit: u64,
        tree: &Tree,
        steps: &mut Steps<L>,
    ) -> Result<Least<A>, LeastFault>
        requires limited { limit ≤ MAX_LIMIT }
        requires empty { A.lists automaton ≡ no_values (A.shape automaton) }
        requires over { letters.IsOver (A.shape automaton) (A.field automaton) tree.now.f }
        ensures same { IfOk result (λ least. (A.shape least.automaton ≡ A.shape automaton) ×
            (A.field least.automaton ≡ A.field automaton) × (least.limit ≡ limit)) }
        ensures ticks { steps.new ≤ steps.old + nodes tree.now.tree }
        ensures starts { IfOk result (λ least. KeepRows (A.shape automaton) [] (A.lists least.automaton)
            (A.marked least.automaton) tree.now.f tree.now.tree limit least.rows) }
        ensures full { IfErr result (λ e. e ≡ Full → IsFullOfRows (A.shape automaton) [] tree.now.f tree.now.tree limit) }
    {
        let mut automaton = automaton;
        match mm_nodes::of(alloc, &mut automaton, limit, tree, steps) {
            Ok(kept) => Ok(Least {
                automaton,
                limit,
                kept,
            }),
            Err(fault) => Err(fault),
        }
    }

    /// New rows for the nodes at a place of a tree, which are `size`, and for those above it, as long as a parent can tell them from those
    /// before. `Full` exactly where the cells of the kept types with those of the tree, and its rows, exceed the limit. After a refusal
    /// all is as before.
    pub fn redo<L: Ledger>(
        &mut self,
        alloc: Global,
        after: &Tree,
        place: &Place,
        size: u32,
        steps: &mut Steps<L>,
    ) -> Result<(), LeastFault>
        requires over { letters.IsOver (A.shape self.old.automaton) (A.field self.old.automaton) after.now.f }
        requires place { IsPlaceOf after.now.tree place.now }
        requires size { size ≡ nodes (node_at after.now.tree (path_of place.now.number after.now.tree)) }
        requires beside { StandBeside after.now.f (A.shape self.old.automaton) (A.lists self.old.automaton)
            (path_of place.now.number after.now.tree) after.now.tree self.old.rows }
        ensures same { (A.shape self.new.automaton ≡ A.shape self.old.automaton) ×
            (A.field self.new.automaton ≡ A.field self.old.automaton) × (self.new.limit ≡ self.old.limit) }
        ensures ticks { steps.new ≤ steps.old + size + place.now.depth }
        ensures ok { OnOk result (KeepRows (A.shape self.old.automaton) (root (A.shape self.old.automaton) (A.lists self.old.automaton))
            (A.lists self.new.automaton) (A.marked self.new.automaton) after.now.f after.now.tree self.old.limit self.new.rows) }
        ensures err { OnErr result ((self.new.rows ≡ self.old.rows) × (A.lists self.new.automaton ≡ A.lists self.old.automaton) ×
            (A.marked self.new.automaton ≡ A.marked self.old.automaton)) }
        ensures full { IfErr result (λ e. e ≡ Full → IsFullOfRows (A.shape self.old.automaton)
            (root (A.shape self.old.automaton) (A.lists self.old.automaton)) after.now.f after.now.tree self.old.limit) }
    {
        let _ = size;
        mm_nodes::redo(
            alloc,
            &mut self.automaton,
            &mut self.kept,
            self.limit,
            after,
            place,
            steps,
        )
    }

    /// The least set of the tree that the rows stand for, among the sets whose type is accepted: the first by weight and then by leaf word.
    /// None exactly where no set's type is accepted.
    pub fn best(&self, alloc: Global) -> Result<Option<Best>, NoMemory>
        ensures { IfOk result (λ best. IsBestOfRows (A.shape self.now.automaton) (A.lists self.now.automaton) self.now.rows best) }
    {
        let rows = &self.kept.entry().rows;
        match best_place(&self.automaton, rows) {
            Some(place) => {
                let mut names = NameList::new(alloc);
                add_names(alloc, &self.kept, place, &mut names)?;
                let weight = rows[place].weight;
                Ok(Some(Best { weight, names }))
            }
            None => Ok(None),
        }
    }

    /// The automaton. No memory.
    pub fn automaton(&self) -> &A
        ensures { result.now ≡ self.now.automaton }
    {
        &self.automaton
    }
}
