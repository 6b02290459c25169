//! The run of one node.

ghost use Rattle.std.specs.Prelude.{◌≡◌, ◌<◌, ◌≤◌, ◌+◌, ℕ, List, [], ◌∷◌, true, refl};
ghost use Rattle.mm_logic.specs.Formula.{Formula};
ghost use Rattle.mm_logic.specs.Operator.{Op};
ghost use Rattle.mm_logic.specs.Value.{Value};
ghost use Rattle.mm_logic.specs.StateSize.{Query};
ghost use Rattle.mm_logic.specs.StateSize.Query.{Decide};
ghost use Rattle.mm_logic.specs.Growth.{type_at};
ghost use Rattle.mm_logic.specs.JoinRule.{joined, lettered};
ghost use Rattle.mm_logic.specs.Marks.{unmarked};
ghost use Rattle.mm_logic.specs.Tree.{size};
ghost use Rattle.mm_states.specs.Calls.{IsOperand, CanJoin, value_of_join};
ghost use Rattle.mm_tree.specs.NamedTree.{Tree, shape};
ghost use Rattle.mm_tree.specs.Nodes.{named_leaf};
ghost use Rattle.mm_nodes.specs.Demands.{Frame};
ghost use Rattle.mm_nodes.specs.Calls.{CanMakeLeaf};
ghost use Rattle.mm_runs.specs.RunCalls.{IsLeafRun, IsJoinRun, Runs, IsRunOf};
ghost use Rattle.mm_runs.specs.RunLaws.{asks, leaf_has, join_has, fits, leaf_stays, join_stays, same_left, same_right};

use crate::RunFault;
use mm_base::Steps;
use mm_nodes::{Keeps, letter_of};
use mm_ops::Op;
use mm_states::{AutoFault, Automaton, TypeId};
use mm_tree::Leaf;
use std::alloc::Global;
use std::marker::Model;
use std::sync::ledger::Ledger;

/// The number of the type at one node. It is made for a node, with one step, and never copied.
#[derive(Drop)]
pub struct NodeRun {
    id: TypeId,
}

impl Model for NodeRun {
    ghost use Rattle.std.specs.Prelude.{ℕ};

    ghost Value = { ℕ };

    ghost view = { λ run. run.id };
}

impl NodeRun {
    /// The run of a leaf. `Full` exactly where the automaton's call is.
    pub fn leaf<A: Automaton, L: Ledger>(
        alloc: Global,
        automaton: &mut A,
        leaf: &Leaf,
        room: u64,
        steps: &mut Steps<L>,
    ) -> Result<NodeRun, RunFault>
        requires { CanMakeLeaf (A.shape automaton.old) (A.field automaton.old) (A.lists automaton.old) leaf.now room }
        ensures shape { A.shape automaton.new ≡ A.shape automaton.old }
        ensures field { A.field automaton.new ≡ A.field automaton.old }
        ensures marked { A.marked automaton.new ≡ A.marked automaton.old }
        ensures tick { steps.new ≡ steps.old + 1 }
        ensures runs { Runs (A.shape automaton.old) (joined leaf.now.field (A.shape automaton.old)
            (lettered (shape (named_leaf leaf.now)) (unmarked (size (shape (named_leaf leaf.now)))))) (A.lists automaton.old)
            (A.lists automaton.new) room result }
    {
        steps.tick();
        run_of(automaton.leaf(alloc, &letter_of(leaf, 0), room))
    }

    /// The run of a join. `Full` exactly where the automaton's call is.
    pub fn join<A: Automaton, L: Ledger>(
        alloc: Global,
        automaton: &mut A,
        op: &Op,
        left: &NodeRun,
        right: &NodeRun,
        room: u64,
        steps: &mut Steps<L>,
    ) -> Result<NodeRun, RunFault>
        requires { CanJoin (A.shape automaton.old) (A.field automaton.old) (A.lists automaton.old) op.now left.now right.now room }
        ensures shape { A.shape automaton.new ≡ A.shape automaton.old }
        ensures field { A.field automaton.new ≡ A.field automaton.old }
        ensures marked { A.marked automaton.new ≡ A.marked automaton.old }
        ensures tick { steps.new ≡ steps.old + 1 }
        ensures runs { Runs (A.shape automaton.old) (value_of_join (A.shape automaton.old)
            (A.lists automaton.old) op.now left.now right.now) (A.lists automaton.old) (A.lists automaton.new) room result }
    {
        steps.tick();
        run_of(automaton.join(alloc, op, left.id, right.id, room))
    }

    /// The number of the type.
    pub fn id(&self) -> TypeId
        ensures { result ≡ self.now }
    {
        self.id
    }
}

/// The run of a number.
fn run_of(id: Result<TypeId, AutoFault>) -> Result<NodeRun, RunFault>
    ensures { IsRunOf id result }
{
    match id {
        Ok(id) => Ok(NodeRun { id }),
        Err(AutoFault::Full) => Err(RunFault::Full),
        Err(AutoFault::NoMemory) => Err(RunFault::NoMemory),
    }
}

impl Keeps for NodeRun {
    ghost query = { Decide };

    ghost types = { λ fr id. type_at fr.F fr.lists id ∷ [] };

    ghost rows = { λ id. 1 };

    ghost IsLeaf = { IsLeafRun };

    ghost IsJoin = { IsJoinRun };

    ghost Knows = { λ fr op id. Unit {0} };

    ghost Same = { λ i j. i ≡ j };

    ghost Fits = { λ fr t id. IsOperand fr.F fr.f t fr.lists id };

    fn leaf<A: Automaton, L: Ledger>(
        alloc: Global,
        automaton: &mut A,
        leaf: &Leaf,
        room: u64,
        steps: &mut Steps<L>,
    ) -> Result<NodeRun, RunFault> {
        NodeRun::leaf(alloc, automaton, leaf, room, steps)
    }

    fn join<A: Automaton, L: Ledger>(
        alloc: Global,
        automaton: &mut A,
        op: &Op,
        left: &NodeRun,
        right: &NodeRun,
        room: u64,
        steps: &mut Steps<L>,
    ) -> Result<NodeRun, RunFault> {
        NodeRun::join(alloc, automaton, op, left, right, room, steps)
    }

    fn rejoin<A: Automaton, L: Ledger>(
        alloc: Global,
        automaton: &mut A,
        op: &Op,
        left: &NodeRun,
        right: &NodeRun,
        _known: &NodeRun,
        room: u64,
        steps: &mut Steps<L>,
    ) -> Result<NodeRun, RunFault> {
        NodeRun::join(alloc, automaton, op, left, right, room, steps)
    }

    fn row_count(&self) -> u32 {
        1
    }

    fn looks_same(&self, other: &NodeRun) -> bool {
        self.id == other.id
    }

    fn sketch(&self, _alloc: Global) -> Option<NodeRun> {
        None
    }

    ghost asks = { asks };

    ghost leaf_has = { leaf_has };

    ghost join_has = { join_has };

    ghost fits = { fits };

    ghost leaf_stays = { leaf_stays };

    ghost join_stays = { join_stays };

    ghost same_left = { same_left };

    ghost same_right = { same_right };

    ghost same_itself = { λ i. refl };

    ghost knows_join = { λ fr op i j id h. tt };

    ghost knows_stays = { λ fr lists op id g h. tt };
}
