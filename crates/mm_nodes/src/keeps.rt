//! What a node keeps.

ghost use Rattle.std.specs.Prelude.{◌≡◌, ◌<◌, ◌≤◌, ◌+◌, ℕ, List, true};
ghost use Rattle.mm_logic.specs.Formula.{Formula};
ghost use Rattle.mm_logic.specs.Operator.{Op};
ghost use Rattle.mm_logic.specs.Value.{Value};
ghost use Rattle.mm_logic.specs.StateSize.{Query, asked};
ghost use Rattle.mm_logic.specs.JoinRule.{all_pairs, join_type};
ghost use Rattle.mm_logic.specs.Growth.{AllBegin};
ghost use Rattle.mm_logic_laws.specs.ValueLaws.{types_by_rules};
ghost use Rattle.mm_states.specs.Letters as letters;
ghost use Rattle.mm_states.specs.Calls.{IsRoomy};
ghost use Rattle.mm_tree.specs.NamedTree.{Tree, shape, boundary};
ghost use Rattle.mm_tree.specs.Nodes.{named_leaf};
ghost use Rattle.mm_tree.specs.ValidTree.{IsValidTree};
ghost use Rattle.mm_nodes.specs.KeptTrees.{KeptTree, StandsFor, top};
ghost use Rattle.mm_nodes.specs.Demands.{Frame, HasTypes, IsExact, frame};
ghost use Rattle.mm_nodes.specs.Calls.{CanMakeLeaf, Makes, IsSketchOf};

use mm_base::Steps;
use mm_ops::Op;
use mm_states::Automaton;
use mm_tree::Leaf;
use std::alloc::Global;
use std::sync::ledger::Ledger;

/// Why no entry is made.
#[derive(Clone, Copy, Debug, PartialEq, Eq)]
pub enum KeepFault {
    /// The cells and rows exceed the room.
    Full,
    /// Memory ran out.
    NoMemory,
}

/// What is kept at a node: a run, or rows.
pub trait Keeps: Drop {
    /// What is asked of a formula.
    ghost query: { Formula → Query };

    /// The types of an entry.
    ghost types: { Frame → Self → List Value };

    /// How many rows an entry counts.
    ghost rows: { Self → ℕ };

    /// The entry is that of a leaf.
    ghost IsLeaf: { Frame → Tree → Self → Type 0 };

    /// The entry is that of a join, by an operator, of what two children keep.
    ghost IsJoin: { Frame → Op → Self → Self → Self → Type 0 };

    /// What an entry knows of joins by an operator is right.
    ghost Knows: { Frame → Op → Self → Type 0 };

    /// What a parent makes of two entries does not tell them apart.
    ghost Same: { Self → Self → Type 0 };

    /// An entry can be joined at a boundary of so many digits.
    ghost Fits: { Frame → ℕ → Self → Type 0 };

    /// The entry of a leaf, with one step.
    fn leaf<A: Automaton, L: Ledger>(
        alloc: Global,
        automaton: &mut A,
        leaf: &Leaf,
        room: u64,
        steps: &mut Steps<L>,
    ) -> Result<Self, KeepFault>
    where
        Self: Sized,
        requires leaf { CanMakeLeaf (A.shape automaton.old) (A.field automaton.old) (A.lists automaton.old) leaf.now room }
        requires exact { IsExact (A.shape automaton.old) (A.lists automaton.old) }
        ensures shape { A.shape automaton.new ≡ A.shape automaton.old }
        ensures field { A.field automaton.new ≡ A.field automaton.old }
        ensures marked { A.marked automaton.new ≡ A.marked automaton.old }
        ensures tick { steps.new ≡ steps.old + 1 }
        ensures makes { Makes (A.shape automaton.old) (A.lists automaton.old) (A.lists automaton.new)
            (IsLeaf (frame leaf.now.field (A.shape automaton.old) (A.lists automaton.new)) (named_leaf leaf.now))
            (types_by_rules leaf.now.field (query (A.shape automaton.old)) (shape (named_leaf leaf.now))) room result };

    /// The entry of a join, with one step.
    fn join<A: Automaton, L: Ledger>(
        alloc: Global,
        automaton: &mut A,
        op: &Op,
        left: &Self,
        right: &Self,
        room: u64,
        steps: &mut Steps<L>,
    ) -> Result<Self, KeepFault>
    where
        Self: Sized,
        requires over { letters.IsOver (A.shape automaton.old) (A.field automaton.old) op.now.f }
        requires left { Fits (frame op.now.f (A.shape automaton.old) (A.lists automaton.old)) op.now.op.t1 left.now }
        requires right { Fits (frame op.now.f (A.shape automaton.old) (A.lists automaton.old)) op.now.op.t2 right.now }
        requires roomy { IsRoomy (A.shape automaton.old) (A.lists automaton.old) room }
        requires exact { IsExact (A.shape automaton.old) (A.lists automaton.old) }
        ensures shape { A.shape automaton.new ≡ A.shape automaton.old }
        ensures field { A.field automaton.new ≡ A.field automaton.old }
        ensures marked { A.marked automaton.new ≡ A.marked automaton.old }
        ensures tick { steps.new ≡ steps.old + 1 }
        ensures makes { Makes (A.shape automaton.old) (A.lists automaton.old) (A.lists automaton.new)
            (IsJoin (frame op.now.f (A.shape automaton.old) (A.lists automaton.new)) op.now.op left.now right.now)
            (all_pairs (join_type op.now.f (A.shape automaton.old) op.now.op)
            (types (frame op.now.f (A.shape automaton.old) (A.lists automaton.old)) left.now)
            (types (frame op.now.f (A.shape automaton.old) (A.lists automaton.old)) right.now)) room result };

    /// The entry of a join, with one step, where something may be known of joins by the same operator.
    fn rejoin<A: Automaton, L: Ledger>(
        alloc: Global,
        automaton: &mut A,
        op: &Op,
        left: &Self,
        right: &Self,
        known: &Self,
        room: u64,
        steps: &mut Steps<L>,
    ) -> Result<Self, KeepFault>
    where
        Self: Sized,
        requires over { letters.IsOver (A.shape automaton.old) (A.field automaton.old) op.now.f }
        requires left { Fits (frame op.now.f (A.shape automaton.old) (A.lists automaton.old)) op.now.op.t1 left.now }
        requires right { Fits (frame op.now.f (A.shape automaton.old) (A.lists automaton.old)) op.now.op.t2 right.now }
        requires known { Knows (frame op.now.f (A.shape automaton.old) (A.lists automaton.old)) op.now.op known.now }
        requires roomy { IsRoomy (A.shape automaton.old) (A.lists automaton.old) room }
        requires exact { IsExact (A.shape automaton.old) (A.lists automaton.old) }
        ensures shape { A.shape automaton.new ≡ A.shape automaton.old }
        ensures field { A.field automaton.new ≡ A.field automaton.old }
        ensures marked { A.marked automaton.new ≡ A.marked automaton.old }
        ensures tick { steps.new ≡ steps.old + 1 }
        ensures makes { Makes (A.shape automaton.old) (A.lists automaton.old) (A.lists automaton.new)
            (IsJoin (frame op.now.f (A.shape automaton.old) (A.lists automaton.new)) op.now.op left.now right.now)
            (all_pairs (join_type op.now.f (A.shape automaton.old) op.now.op)
            (types (frame op.now.f (A.shape automaton.old) (A.lists automaton.old)) left.now)
            (types (frame op.now.f (A.shape automaton.old) (A.lists automaton.old)) right.now)) room result };

    /// How many rows the entry counts.
    fn row_count(&self) -> u32
        ensures { result ≡ rows self.now };

    /// Whether what a parent makes of two entries is the same.
    fn looks_same(&self, other: &Self) -> bool
        ensures { result ≡ true → Same self.now other.now };

    /// What this entry knows of joins and nothing else, if it knows anything. It is no entry of a node, and makes no step.
    fn sketch(&self, alloc: Global) -> Option<Self>
    where
        Self: Sized,
        ensures { IsSketchOf Knows self.now result };

    /// The formula is the one that is asked of.
    ghost asks: { (F : Formula) → asked (query F) ≡ F };

    /// The entry of a leaf has the types that the leaf rule gives.
    ghost leaf_has: { (fr : Frame) (T : Tree) (n : Self) → IsLeaf fr T n → HasTypes fr.F fr.lists (types fr n) (rows n)
        (types_by_rules fr.f (query fr.F) (shape T)) };

    /// The entry of a join has the types that the join rule gives.
    ghost join_has: { (fr : Frame) (op : Op) (a b n : Self) → IsJoin fr op a b n → HasTypes fr.F fr.lists (types fr n) (rows n)
        (all_pairs (join_type fr.f fr.F op) (types fr a) (types fr b)) };

    /// What stands for a valid tree can be joined at its boundary.
    ghost fits: { (fr : Frame) (T : Tree) (R : KeptTree Self) → IsValidTree fr.f T → StandsFor (IsLeaf fr) (IsJoin fr) T R → Fits fr
        (boundary T) (top R) };

    /// Entries keep their meaning where the lists grow.
    ghost leaf_stays: { (fr : Frame) (lists : List (List Value)) (T : Tree) (n : Self) → AllBegin fr.lists lists → IsLeaf fr T n →
        IsLeaf (record fr { lists = lists }) T n };

    ghost join_stays: { (fr : Frame) (lists : List (List Value)) (op : Op) (a b n : Self) → AllBegin fr.lists lists →
        IsJoin fr op a b n → IsJoin (record fr { lists = lists }) op a b n };

    /// What a parent makes of entries that look the same is the same.
    ghost same_left: { (fr : Frame) (op : Op) (a b c n : Self) → Same b a → IsJoin fr op a c n → IsJoin fr op b c n };

    ghost same_right: { (fr : Frame) (op : Op) (a b c n : Self) → Same c b → IsJoin fr op a b n → IsJoin fr op a c n };

    ghost same_itself: { (a : Self) → Same a a };

    /// The entry of a join knows what is right of joins by its operator.
    ghost knows_join: { (fr : Frame) (op : Op) (a b n : Self) → IsJoin fr op a b n → Knows fr op n };

    /// What is known stays right where the lists grow.
    ghost knows_stays: { (fr : Frame) (lists : List (List Value)) (op : Op) (n : Self) → AllBegin fr.lists lists → Knows fr op n →
        Knows (record fr { lists = lists }) op n };
}
