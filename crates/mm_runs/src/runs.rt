//! One run for each node of a tree.

ghost use Rattle.std.specs.Prelude.{◌≡◌, [], ◌<◌, ◌≤◌, ◌+◌, ℕ, OnOk, OnErr, IfOk, IfErr};
ghost use Rattle.mm_logic.specs.Acceptance.{accepts};
ghost use Rattle.mm_logic.specs.Growth.{no_values, root, type_at};
ghost use Rattle.mm_logic.specs.StateSize.Query.{Decide};
ghost use Rattle.mm_states.specs.Letters as letters;
ghost use Rattle.mm_tree.specs.NamedTree.{nodes};
ghost use Rattle.mm_tree.specs.Paths.{node_at};
ghost use Rattle.mm_tree.specs.Places.{IsPlaceOf, path_of};
ghost use Rattle.mm_nodes.specs.declared.TheConstants.{MAX_LIMIT};
ghost use Rattle.mm_nodes.specs.declared.keeps.KeepFault.TheVariants.{Full};
ghost use Rattle.mm_nodes.specs.Changes.{IsFull};
ghost use Rattle.mm_nodes.specs.KeptTrees.{count, entry_at, top};
ghost use Rattle.mm_runs.specs.RunsCalls.{KeepRuns, StandBeside};

use crate::{NodeRun, RunFault};
use mm_base::Steps;
use mm_nodes::Kept;
use mm_states::{Automaton, TypeId};
use mm_tree::{Place, Tree};
use std::alloc::Global;
use std::marker::Model;
use std::sync::ledger::Ledger;

/// An automaton, the limit on its cells and the rows, and one run for each node of a tree.
#[derive(Drop)]
pub struct Runs<A: Automaton> {
    automaton: A,
    limit: u64,
    kept: Kept<NodeRun>,
}

impl<A: Automaton> Model for Runs<A> {
    ghost use Rattle.mm_runs.specs.RunsValue.{RunsValue, runs_code};

    ghost Value = { RunsValue A };

    ghost coded = { runs_code A.code };

    ghost use Rattle.mm_nodes.specs.KeptNodes.{tree_of};
    ghost use Rattle.mm_runs.specs.RunsView.{IsKept};

    ghost view = { λ s. record { automaton = s.automaton; limit = s.limit; runs = tree_of s.kept } };

    ghost invariant = { λ s. IsKept (A.shape s.automaton) (A.lists s.automaton) (A.marked s.automaton) s.limit s.kept };
}

impl<A: Automaton> Runs<A> {
    /// One run for each node of a tree, by an automaton with empty lists. `Full` exactly where the cells of the types of the tree and its
    /// nodes exceed the limit.
    pub fn of<L: Ledger>(
        alloc: Global,
        automaton: A,
        limit: u64,
        tree: &Tree,
        steps: &mut Steps<L>,
    ) -> Result<Runs<A>, RunFault>
        requires limited { limit ≤ MAX_LIMIT }
        requires empty { A.lists automaton ≡ no_values (A.shape automaton) }
        requires over { letters.IsOver (A.shape automaton) (A.field automaton) tree.now.f }
        ensures same { IfOk result (λ runs. (A.shape runs.automaton ≡ A.shape automaton) ×
            (A.field runs.automaton ≡ A.field automaton) × (runs.limit ≡ limit)) }
        ensures ticks { steps.new ≤ steps.old + nodes tree.now.tree }
        ensures starts { IfOk result (λ runs. KeepRuns (A.shape automaton) [] (A.lists runs.automaton)
            (A.marked runs.automaton) tree.now.f tree.now.tree limit runs.runs) }
        ensures full { IfErr result (λ e. e ≡ Full → IsFull (A.shape automaton)
            (Decide (A.shape automaton)) [] tree.now.f tree.now.tree limit) }
    {
        let mut automaton = automaton;
        match mm_nodes::of(alloc, &mut automaton, limit, tree, steps) {
            Ok(kept) => Ok(Runs {
                automaton,
                limit,
                kept,
            }),
            Err(fault) => Err(fault),
        }
    }

    /// New runs for the nodes at a place of a tree, which are `size`, and for those above it, as long as a parent can tell them from those
    /// before. `Full` exactly where the cells of the kept types with those of the tree, and its nodes, exceed the limit. After a refusal
    /// all is as before.
    pub fn redo<L: Ledger>(
        &mut self,
        alloc: Global,
        after: &Tree,
        place: &Place,
        size: u32,
        steps: &mut Steps<L>,
    ) -> Result<(), RunFault>
        requires over { letters.IsOver (A.shape self.old.automaton) (A.field self.old.automaton) after.now.f }
        requires place { IsPlaceOf after.now.tree place.now }
        requires size { size ≡ nodes (node_at after.now.tree (path_of place.now.number after.now.tree)) }
        requires beside { StandBeside after.now.f (A.shape self.old.automaton) (A.lists self.old.automaton)
            (path_of place.now.number after.now.tree) after.now.tree self.old.runs }
        ensures same { (A.shape self.new.automaton ≡ A.shape self.old.automaton) ×
            (A.field self.new.automaton ≡ A.field self.old.automaton) × (self.new.limit ≡ self.old.limit) }
        ensures ticks { steps.new ≤ steps.old + size + place.now.depth }
        ensures ok { OnOk result (KeepRuns (A.shape self.old.automaton) (root (A.shape self.old.automaton) (A.lists self.old.automaton))
            (A.lists self.new.automaton) (A.marked self.new.automaton) after.now.f after.now.tree self.old.limit self.new.runs) }
        ensures err { OnErr result ((self.new.runs ≡ self.old.runs) × (A.lists self.new.automaton ≡ A.lists self.old.automaton) ×
            (A.marked self.new.automaton ≡ A.marked self.old.automaton)) }
        ensures full { IfErr result (λ e. e ≡ Full → IsFull (A.shape self.old.automaton) (Decide (A.shape self.old.automaton))
            (root (A.shape self.old.automaton) (A.lists self.old.automaton)) after.now.f after.now.tree self.old.limit) }
    {
        let _ = size;
        mm_nodes::redo(
            alloc,
            &mut self.automaton,
            &mut self.kept,
            self.limit,
            after,
            place,
            steps,
        )
    }

    /// Whether the automaton accepts the type of the root: the formula holds on the tree. No memory.
    pub fn truth(&self) -> bool
        ensures { result ≡ accepts (A.shape self.now.automaton)
            (type_at (A.shape self.now.automaton) (A.lists self.now.automaton) (top self.now.runs)) }
    {
        self.automaton.accepts(self.kept.entry().id())
    }

    /// The number of the type at a node. No memory.
    pub fn value_at(&self, place: &Place) -> TypeId
        requires { place.now.number < count self.now.runs }
        ensures { result ≡ entry_at place.now.number self.now.runs }
    {
        self.kept.entry_at(place.number()).id()
    }

    /// The automaton. No memory.
    pub fn automaton(&self) -> &A
        ensures { result.now ≡ self.now.automaton }
    {
        &self.automaton
    }
}
