//! The automaton of an atom whose types are flags.

ghost use Rattle.std.specs.Prelude.{◌≡◌, ◌<◌, length, slice_index_or, []};
ghost use Rattle.mm_field.specs.declared.Field.{Field};
ghost use Rattle.mm_logic.specs.Acceptance.{accepts};
ghost use Rattle.mm_logic.specs.Formula.{Formula};
ghost use Rattle.mm_logic.specs.Value.{Value as value};
ghost use Rattle.mm_ops.specs.OpValue.{OpValue};
ghost use Rattle.mm_states.specs.Letters.{leaf_type, joined_type};
ghost use Rattle.mm_base_auto.specs.Atoms.{IsAtomic, flag_values, shown};

use crate::flags::FlagTable;
use crate::value::AtomValue;
use mm_base::NoMemory;
use mm_ops::Op;
use mm_states::{AutoFault, Automaton, Letter, TypeId};
use std::alloc::Global;

/// What an atom says of leaves and joins, where its types are flags.
pub trait FlagRule: Copy + Drop {
    /// The atom.
    ghost shape: { Self → Formula };

    /// The flag of a leaf.
    fn at_leaf(&self, letter: &Letter) -> u8
        ensures { value.Flag result ≡ leaf_type (shape self.now) letter.now };

    /// The flag of a join.
    fn at_join(&self, left: u8, right: u8) -> u8
        ensures { (op : OpValue) → value.Flag result ≡ joined_type (shape self.now) op (value.Flag left) (value.Flag right) };

    /// Whether a flag is accepted.
    fn accepts(&self, flag: u8) -> bool
        ensures { result ≡ accepts (shape self.now) (value.Flag flag) };

    /// A flag, as it is shown.
    fn shown(&self, flag: u8) -> AtomValue
        ensures { result ≡ shown Field.Two (shape self.now) (value.Flag flag) };

    ghost atomic: { (rule : Self) → IsAtomic (shape rule) };
}

/// The automaton of an atom by its rule.
#[derive(Drop)]
pub struct FlagAuto<R: FlagRule> {
    rule: R,
    flags: FlagTable,
}

impl<R: FlagRule> FlagAuto<R> {
    /// The automaton of a rule, with no values.
    pub(crate) fn of(alloc: Global, rule: R) -> Self
        ensures rule { result.rule ≡ rule }
        ensures flags { result.flags.flags.items ≡ [] }
        ensures mark { result.flags.mark ≡ 0 }
    {
        FlagAuto {
            rule,
            flags: FlagTable::new(alloc),
        }
    }

    /// How many values there are. No memory.
    pub fn len(&self) -> u32
        ensures { result ≡ length self.now.flags.flags.items }
    {
        self.flags.len()
    }

    /// The value of a number. No memory.
    pub fn value(&self, id: TypeId) -> AtomValue
        requires { id < length self.now.flags.flags.items }
        ensures { result ≡ shown Field.Two (R.shape self.now.rule)
            (slice_index_or (flag_values self.now.flags.flags.items) id value.Dead) }
    {
        self.rule.shown(self.flags.get(id))
    }
}

impl<R: FlagRule> Automaton for FlagAuto<R> {
    ghost use Rattle.std.specs.Prelude.{[], ◌∷◌, take};
    ghost use Rattle.mm_field.specs.declared.Field.{Field};
    ghost use Rattle.mm_base_auto.specs.Atoms.{flag_values};

    ghost shape = { λ a. R.shape a.rule };

    ghost field = { λ a. Field.Two };

    ghost lists = { λ a. flag_values a.flags.flags.items ∷ [] };

    ghost marked = { λ a. flag_values (take a.flags.mark a.flags.flags.items) ∷ [] };

    ghost IsOpen = { λ op a. Unit {0} };

    fn leaf(&mut self, alloc: Global, letter: &Letter, room: u64) -> Result<TypeId, AutoFault> {
        let flag = self.rule.at_leaf(letter);
        self.flags.put(alloc, flag, room)
    }

    fn join(
        &mut self,
        alloc: Global,
        _op: &Op,
        left: TypeId,
        right: TypeId,
        room: u64,
    ) -> Result<TypeId, AutoFault> {
        let flag = self
            .rule
            .at_join(self.flags.get(left), self.flags.get(right));
        self.flags.put(alloc, flag, room)
    }

    fn open(&mut self, _alloc: Global, _op: &Op) -> Result<(), NoMemory> {
        Ok(())
    }

    fn join_open(
        &mut self,
        alloc: Global,
        op: &Op,
        left: TypeId,
        right: TypeId,
        room: u64,
    ) -> Result<TypeId, AutoFault> {
        self.join(alloc, op, left, right, room)
    }

    fn accepts(&self, id: TypeId) -> bool {
        self.rule.accepts(self.flags.get(id))
    }

    fn mark(&mut self) {
        self.flags.mark();
    }

    fn roll_back(&mut self) {
        self.flags.roll_back();
    }

    fn cells(&self) -> u64 {
        self.flags.cells()
    }

    fn fresh(&self, alloc: Global) -> Result<Self, NoMemory> {
        Ok(FlagAuto::of(alloc, self.rule))
    }
}
