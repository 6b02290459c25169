//! A tree, what is asked of it, and its edits.

ghost use Rattle.std.specs.Prelude.{◌≡◌, ◌≤◌, ◌<◌, ◌+◌, ℕ, [], nat_abs, OnOk, OnErr, IfOk, IfErr, Ok, Err, None};
ghost use Rattle.mm_base.specs.Causes.{counted};
ghost use Rattle.mm_logic.specs.Growth.{no_values};
ghost use Rattle.mm_logic.specs.Occurrence.{cells};
ghost use Rattle.mm_logic.specs.StateSize.{asked};
ghost use Rattle.mm_states.specs.Letters as letters;
ghost use Rattle.mm_tree.specs.NamedTree.{nodes};
ghost use Rattle.mm_tree.specs.Paths.{node_at, with_node, with_weight};
ghost use Rattle.mm_tree.specs.Replacing.{replace_fault};
ghost use Rattle.mm_tree.specs.Places.{IsPlaceOf, path_of};
ghost use Rattle.mm_tree.specs.ValidTree.{most_weight, IsValidTree};
ghost use Rattle.mm_nodes.specs.declared.TheConstants.{MAX_LIMIT};
ghost use Rattle.mm_nodes.specs.declared.keeps.KeepFault.TheVariants.{Full};
ghost use Rattle.mm_edit.specs.declared.fault.EditFault.TheVariants as fault;
ghost use Rattle.mm_edit.specs.KeptTypes.{IsOver, IsSettled, StandBeside, size_beside};
ghost use Rattle.mm_edit.specs.SessionValue.{kept_types};
ghost use Rattle.mm_edit.specs.SessionView.{value_of, types_of, AreAlike, Keep, Renewed, edited};
ghost use Rattle.mm_edit.specs.Answers.{IsAnswer};
ghost use Rattle.mm_edit.specs.Edits.{Edits, Starts, exchanged, reweighted, most_steps, no_node, query_of, rebuild_steps, IsDecided, answer_of};

use crate::fault::{edit_fault, start_fault, state_fault};
use crate::states::States;
use crate::{Answer, EditFault, Query, StartFault};
use mm_base::{Name, NoMemory, Steps};
use mm_nodes::KeepFault;
use mm_states::Automaton;
use mm_tree::{Place, Tree};
use std::alloc::Global;
use std::marker::Model;
use std::sync::ledger::Ledger;

/// A tree, what is asked of it, and what its nodes keep, with the automaton; the limit on its size, and how many rebuilds there were.
#[derive(Drop)]
pub struct Session<A: Automaton> {
    tree: Tree,
    states: States<A>,
    limit: u64,
    rebuilds: u64,
}

impl<A: Automaton> Model for Session<A> {
    ghost use Rattle.mm_edit.specs.SessionValue.{SessionValue, session_code};

    ghost Value = { SessionValue };

    ghost coded = { session_code };

    ghost use Rattle.mm_edit.specs.SessionView.{value_of, session_value, IsKept};

    ghost view = { λ s. session_value (value_of A.Automaton s.states) s.tree s.rebuilds };

    ghost invariant = { λ s. IsKept (value_of A.Automaton s.states) s.tree s.limit };
}

/// The law that a tree is valid.
fn trees_are_valid(tree: &Tree)
    ensures { IsValidTree tree.now.f tree.now.tree }
{
    let _ = tree.node();
}

/// Why there is no node so many steps above a leaf of a name.
fn no_node(tree: &Tree, name: &Name, up: u32) -> EditFault
    ensures { result ≡ no_node name.now up tree.now.tree }
{
    if tree.has_leaf(name) {
        EditFault::NoSuchNode(*name, up)
    } else {
        EditFault::UnknownName(*name)
    }
}

/// Makes all afresh for a tree, and counts it.
fn rebuild<A: Automaton, L: Ledger>(
    alloc: Global,
    states: &mut States<A>,
    rebuilds: &mut u64,
    limit: u64,
    tree: &Tree,
    steps: &mut Steps<L>,
) -> Result<(), KeepFault>
    requires limited { limit ≤ MAX_LIMIT }
    requires limit { (value_of A.Automaton states.old).limit ≡ limit }
    requires over { letters.IsOver (asked (value_of A.Automaton states.old).query) (value_of A.Automaton states.old).field tree.now.f }
    ensures alike { AreAlike (value_of A.Automaton states.old) (value_of A.Automaton states.new) }
    ensures ticks { steps.new ≤ steps.old + nodes tree.now.tree }
    ensures ok { OnOk result (Keep (value_of A.Automaton states.new) [] tree.now.f tree.now.tree limit) }
    ensures counts { OnOk result (rebuilds.new ≡ counted rebuilds.old) }
    ensures err { OnErr result (value_of A.Automaton states.new ≡ value_of A.Automaton states.old) }
    ensures stays { OnErr result (rebuilds.new ≡ rebuilds.old) }
    ensures full { IfErr result (λ e. e ≡ Full → limit < size_beside [] (value_of A.Automaton states.old).query tree.now.f tree.now.tree) }
{
    match states.renew(alloc, limit, tree, steps) {
        Ok(()) => {
            *rebuilds = rebuilds.saturating_add(1);
            Ok(())
        }
        Err(fault) => Err(fault),
    }
}

/// What the nodes of a tree keep after an edit at a place, where `size` nodes are new; made afresh where the kept types with those of the
/// tree would exceed the limit. `Full` exactly where the tree is over the limit. After a refusal all is as before.
fn redo_or_rebuild<A: Automaton, L: Ledger>(
    alloc: Global,
    states: &mut States<A>,
    rebuilds: &mut u64,
    limit: u64,
    after: &Tree,
    place: &Place,
    size: u32,
    steps: &mut Steps<L>,
) -> Result<(), KeepFault>
    requires limited { limit ≤ MAX_LIMIT }
    requires limit { (value_of A.Automaton states.old).limit ≡ limit }
    requires over { letters.IsOver (asked (value_of A.Automaton states.old).query) (value_of A.Automaton states.old).field after.now.f }
    requires place { IsPlaceOf after.now.tree place.now }
    requires size { size ≡ nodes (node_at after.now.tree (path_of place.now.number after.now.tree)) }
    requires beside { StandBeside (value_of A.Automaton states.old).query after.now.f (value_of A.Automaton states.old).lists
        (path_of place.now.number after.now.tree) after.now.tree (value_of A.Automaton states.old).entries }
    ensures alike { AreAlike (value_of A.Automaton states.old) (value_of A.Automaton states.new) }
    ensures ticks { steps.new ≤ steps.old + size + place.now.depth + rebuild_steps (types_of (value_of A.Automaton states.old))
        (value_of A.Automaton states.old).query after.now.f after.now.tree limit }
    ensures ok { OnOk result (Renewed (value_of A.Automaton states.old) (value_of A.Automaton states.new) after.now
        rebuilds.old rebuilds.new) }
    ensures err { OnErr result (value_of A.Automaton states.new ≡ value_of A.Automaton states.old) }
    ensures stays { OnErr result (rebuilds.new ≡ rebuilds.old) }
    ensures full { IfErr result (λ e. e ≡ Full → IsOver (value_of A.Automaton states.old).query after.now.f after.now.tree limit) }
{
    match states.redo(alloc, after, place, size, steps) {
        Ok(()) => Ok(()),
        Err(KeepFault::Full) => rebuild(alloc, states, rebuilds, limit, after, steps),
        Err(KeepFault::NoMemory) => Err(KeepFault::NoMemory),
    }
}

/// Puts the old node back at a place where an edit was refused.
fn put_back(tree: &mut Tree, place: &Place, old: Tree, kept: &Result<(), KeepFault>)
    requires place { IsPlaceOf tree.old.tree place.now }
    requires field { old.f ≡ tree.old.f }
    requires fits { replace_fault tree.old.tree (path_of place.now.number tree.old.tree) old.tree ≡ None }
    ensures ok { OnOk kept.now (tree.new ≡ tree.old) }
    ensures field { tree.new.f ≡ tree.old.f }
    ensures err { OnErr kept.now (tree.new.tree ≡ with_node tree.old.tree (path_of place.now.number tree.old.tree) old.tree) }
{
    if kept.is_err() {
        tree.splice(place, old);
    }
}

/// Gives an element the weight before where an edit was refused.
fn put_weight_back(tree: &mut Tree, name: &Name, before: i64, kept: &Result<(), KeepFault>)
    requires { nat_abs before ≤ most_weight }
    ensures ok { OnOk kept.now (tree.new ≡ tree.old) }
    ensures field { tree.new.f ≡ tree.old.f }
    ensures err { OnErr kept.now (tree.new.tree ≡ with_weight name.now before tree.old.tree) }
{
    if kept.is_err() {
        tree.exchange_weight(name, before);
    }
}

/// What an edit answers, by what became of runs or rows.
fn edited(kept: Result<(), KeepFault>) -> Result<(), EditFault>
    ensures { result ≡ edited kept }
{
    match kept {
        Ok(done) => Ok(done),
        Err(fault) => Err(state_fault(fault)),
    }
}

impl<A: Automaton> Session<A> {
    /// A session on a tree, by an automaton with empty lists: of a formula without free variables where it is decided; where a least set is
    /// sought, of one in which no slot but slot 0 is free. `States` exactly where the tree is over the limit.
    pub fn start<L: Ledger>(
        alloc: Global,
        automaton: A,
        query: Query,
        tree: Tree,
        limit: u64,
        steps: &mut Steps<L>,
    ) -> Result<Session<A>, StartFault>
        requires limited { limit ≤ MAX_LIMIT }
        requires empty { A.lists automaton ≡ no_values (A.shape automaton) }
        requires over { letters.IsOver (A.shape automaton) (A.field automaton) tree.f }
        ensures starts { Starts (query_of query (A.shape automaton)) tree limit result }
        ensures ticks { steps.new ≤ steps.old + nodes tree.tree }
    {
        match States::of(alloc, automaton, query, limit, &tree, steps) {
            Ok(states) => Ok(Session {
                tree,
                states,
                limit,
                rebuilds: 0,
            }),
            Err(fault) => Err(start_fault(fault)),
        }
    }

    /// Exchanges the node `up` steps above the leaf of a name for a new tree of the same field. Refused, in this order: `UnknownName` where
    /// no leaf has the name; `NoSuchNode` where it is less deep; `Boundary`, `NameTaken`, `TooManyLeaves`, `TooDeep` where the new tree may
    /// not take the node's place; `States` where the tree after the edit is over the limit. A refusal leaves the session as it was.
    pub fn replace<L: Ledger>(
        &mut self,
        alloc: Global,
        name: &Name,
        up: u32,
        new: Tree,
        steps: &mut Steps<L>,
    ) -> Result<(), EditFault>
        requires { new.f ≡ self.old.tree.f }
        ensures edits { Edits self.old self.new (exchanged name.now up new.tree self.old.tree.tree) result }
        ensures ticks { steps.new ≤ steps.old + most_steps self.old (exchanged name.now up new.tree self.old.tree.tree) }
    {
        let Some(place) = self.tree.place(name, up) else {
            return Err(no_node(&self.tree, name, up));
        };
        match self.tree.check_replace(alloc, &place, &new) {
            Ok(()) => self.exchange(alloc, &place, new, steps),
            Err(fault) => Err(edit_fault(fault)),
        }
    }

    /// Exchanges the node at a place for a tree that may take its place.
    fn exchange<L: Ledger>(
        &mut self,
        alloc: Global,
        place: &Place,
        new: Tree,
        steps: &mut Steps<L>,
    ) -> Result<(), EditFault>
        requires place { IsPlaceOf self.old.tree.tree place.now }
        requires field { new.f ≡ self.old.tree.f }
        requires fits { replace_fault self.old.tree.tree (path_of place.now.number self.old.tree.tree) new.tree ≡ None }
        ensures edits { Edits self.old self.new (Ok (record {
          tree = with_node self.old.tree.tree
              (path_of place.now.number self.old.tree.tree) new.tree;
          cost = place.now.depth + nodes new.tree;
        })) result }
        ensures ticks { steps.new ≤ steps.old + most_steps self.old (Ok (record {
          tree = with_node self.old.tree.tree
              (path_of place.now.number self.old.tree.tree) new.tree;
          cost = place.now.depth + nodes new.tree;
        })) }
    {
        trees_are_valid(&self.tree);
        let size = new.nodes();
        let old = self.tree.splice(place, new);
        let result = redo_or_rebuild(
            alloc,
            &mut self.states,
            &mut self.rebuilds,
            self.limit,
            &self.tree,
            place,
            size,
            steps,
        );
        put_back(&mut self.tree, place, old, &result);
        edited(result)
    }

    /// Gives the element of a name another weight. `UnknownName` exactly where no element has the name. Never `States`: the types are those
    /// of the tree before. Where a formula is decided it takes no memory and makes no step. A refusal leaves the session as it was.
    pub fn weight<L: Ledger>(
        &mut self,
        alloc: Global,
        name: &Name,
        weight: i64,
        steps: &mut Steps<L>,
    ) -> Result<(), EditFault>
        requires { nat_abs weight ≤ most_weight }
        ensures edits { Edits self.old self.new (reweighted name.now weight self.old.tree.tree) result }
        ensures ticks { steps.new ≤ steps.old + most_steps self.old (reweighted name.now weight self.old.tree.tree) }
        ensures fits { result ≡ Err fault.States → ⊥ }
        ensures kept { (kept_types self.new ≡ kept_types self.old) × (self.new.rebuilds ≡ self.old.rebuilds) }
        ensures decided { IsDecided self.old.query →
            (result ≡ answer_of (reweighted name.now weight self.old.tree.tree)) × (steps.new ≡ steps.old) }
    {
        trees_are_valid(&self.tree);
        let Some(before) = self.tree.exchange_weight(name, weight) else {
            return Err(EditFault::UnknownName(*name));
        };
        let result = self.states.reweigh(alloc, &self.tree, name, steps);
        put_weight_back(&mut self.tree, name, before, &result);
        edited(result)
    }

    /// What is asked, answered for the present tree: whether the formula holds; or the least set that satisfies it, or that there is none.
    pub fn answer(&self, alloc: Global) -> Result<Answer, NoMemory>
        ensures { IfOk result (λ answer. IsAnswer self.now.query self.now.tree.f self.now.tree.tree answer) }
    {
        self.states.answer(alloc)
    }

    /// The present tree. No memory.
    pub fn tree(&self) -> &Tree
        ensures tree { result.now ≡ self.now.tree }
        ensures settled { IsSettled self.now }
    {
        &self.tree
    }

    /// The cells of the kept types. No memory.
    pub fn cells(&self) -> u64
        ensures { result ≡ cells (asked self.now.query) (kept_types self.now) }
    {
        self.states.cells()
    }

    /// How many rebuilds there were, up to 2^64 - 1. No memory.
    pub fn rebuilds(&self) -> u64
        ensures { result ≡ self.now.rebuilds }
    {
        self.rebuilds
    }
}
