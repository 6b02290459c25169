//! What numbers the types of a formula on parse trees: an automaton, whose states are the numbers.

ghost use Rattle.std.specs.Prelude.{◌≡◌, ◌^◌, ◌<◌, List, length, IfOk, OnOk};
ghost use Rattle.mm_field.specs.declared.Field.{Field};
ghost use Rattle.mm_logic.specs.Formula.{Formula};
ghost use Rattle.mm_logic.specs.Value.{Value};
ghost use Rattle.mm_logic.specs.Acceptance.{accepts};
ghost use Rattle.mm_logic.specs.Occurrence.{nodes, list_cells};
ghost use Rattle.mm_logic.specs.Growth.{root, type_at, no_values};
ghost use Rattle.mm_ops.specs.OpValue.{OpValue};
ghost use Rattle.mm_states.specs.Letters.{leaf_type};
ghost use Rattle.mm_states.specs.Calls.{CanRead, CanJoin, Answers, value_of_join};

use crate::letter::{AutoFault, Letter};
use crate::table::TypeId;
use mm_base::NoMemory;
use mm_ops::Op;
use std::alloc::Global;

/// Numbers the types of a formula (after Hliněný 2006, whose automata have such types as states) in order of first sight.
///
/// Contracts see the formula, its field where it speaks of independence, and a list of values for each node of the formula, all
/// different. A `TypeId` is a place in the list of the whole formula. A new automaton has empty lists, and a mark there; each list
/// begins with the one at the last mark. No call changes the formula or the field, and `mark` alone changes the lists at the mark.
///
/// `room` is how many cells the lists may grow by. A call that is refused may have grown its lists: the caller rolls back.
pub trait Automaton: Drop {
    /// The formula, with its slots.
    ghost shape: { Self → Formula };

    /// The field, where the formula has an `ind`.
    ghost field: { Self → Field };

    /// The list of values at each node of the formula. The number of a type is its place in the list of the root.
    ghost lists: { Self → List (List Value) };

    /// The lists at the last mark.
    ghost marked: { Self → List (List Value) };

    /// The automaton is ready for joins by an operator.
    ghost IsOpen: { OpValue → Self → Type 0 };

    /// The number of the type that the leaf rule gives. `Full` exactly where the cells of the values that occur in it and are missing
    /// exceed the room.
    fn leaf(&mut self, alloc: Global, letter: &Letter, room: u64) -> Result<TypeId, AutoFault>
        requires { CanRead (shape self.old) (field self.old) (lists self.old) letter.now room }
        ensures shape { shape self.new ≡ shape self.old }
        ensures field { field self.new ≡ field self.old }
        ensures marked { marked self.new ≡ marked self.old }
        ensures answer { Answers (shape self.old) (leaf_type (shape self.old) letter.now) (lists self.old) (lists self.new) room result };

    /// The number of the type that the join rule gives to the types of two numbers. `Full` exactly where the cells of the values that
    /// occur in it and are missing exceed the room.
    fn join(
        &mut self,
        alloc: Global,
        op: &Op,
        left: TypeId,
        right: TypeId,
        room: u64,
    ) -> Result<TypeId, AutoFault>
        requires { CanJoin (shape self.old) (field self.old) (lists self.old) op.now left right room }
        ensures shape { shape self.new ≡ shape self.old }
        ensures field { field self.new ≡ field self.old }
        ensures marked { marked self.new ≡ marked self.old }
        ensures answer { Answers (shape self.old) (value_of_join (shape self.old) (lists self.old) op.now left right)
            (lists self.old) (lists self.new) room result };

    /// Makes the automaton ready for joins by an operator, so that each of them need not look for it.
    fn open(&mut self, alloc: Global, op: &Op) -> Result<(), NoMemory>
        ensures shape { shape self.new ≡ shape self.old }
        ensures field { field self.new ≡ field self.old }
        ensures lists { lists self.new ≡ lists self.old }
        ensures marked { marked self.new ≡ marked self.old }
        ensures open { OnOk result (IsOpen op.now self.new) };

    /// As `join`, by an operator that the automaton is ready for; it stays ready for it.
    fn join_open(
        &mut self,
        alloc: Global,
        op: &Op,
        left: TypeId,
        right: TypeId,
        room: u64,
    ) -> Result<TypeId, AutoFault>
        requires open { IsOpen op.now self.old }
        requires can { CanJoin (shape self.old) (field self.old) (lists self.old) op.now left right room }
        ensures open { IsOpen op.now self.new }
        ensures shape { shape self.new ≡ shape self.old }
        ensures field { field self.new ≡ field self.old }
        ensures marked { marked self.new ≡ marked self.old }
        ensures answer { Answers (shape self.old) (value_of_join (shape self.old) (lists self.old) op.now left right)
            (lists self.old) (lists self.new) room result };

    /// Whether the type of a number is accepted: the formula holds on a tree that has this type at its root. No memory.
    fn accepts(&self, id: TypeId) -> bool
        requires { id < length (root (shape self.now) (lists self.now)) }
        ensures { result ≡ accepts (shape self.now) (type_at (shape self.now) (lists self.now) id) };

    /// Marks the present lists. No memory.
    fn mark(&mut self)
        ensures shape { shape self.new ≡ shape self.old }
        ensures field { field self.new ≡ field self.old }
        ensures lists { lists self.new ≡ lists self.old }
        ensures marked { marked self.new ≡ lists self.old };

    /// Goes back to the lists at the last mark. No memory.
    fn roll_back(&mut self)
        ensures shape { shape self.new ≡ shape self.old }
        ensures field { field self.new ≡ field self.old }
        ensures lists { lists self.new ≡ marked self.old }
        ensures marked { marked self.new ≡ marked self.old };

    /// The cells of the lists: one for each value, and one for each member of a set. No memory.
    fn cells(&self) -> u64
        requires { list_cells (nodes (shape self.now)) (lists self.now) < 2 ^ 32 }
        ensures { result ≡ list_cells (nodes (shape self.now)) (lists self.now) };

    /// An automaton of the same formula and field with empty lists.
    fn fresh(&self, alloc: Global) -> Result<Self, NoMemory>
    where
        Self: Sized,
        ensures shape { IfOk result (λ a. shape a ≡ shape self.now) }
        ensures field { IfOk result (λ a. field a ≡ field self.now) }
        ensures lists { IfOk result (λ a. lists a ≡ no_values (shape self.now)) }
        ensures marked { IfOk result (λ a. marked a ≡ no_values (shape self.now)) };
}
