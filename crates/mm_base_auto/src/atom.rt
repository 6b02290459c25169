//! The six atoms as one type.

ghost use Rattle.std.specs.Prelude.{◌≡◌, ◌<◌, length, slice_index_or};
ghost use Rattle.mm_logic.specs.Value.{Value as value};
ghost use Rattle.mm_states.specs.Letters.{has_ind};
ghost use Rattle.mm_base_auto.specs.Atoms.{shown};
ghost use Rattle.mm_base_auto.specs.OneAtom.{atom_shape, atom_field, atom_values};

use crate::constant::ConstAuto;
use crate::ind::IndAuto;
use crate::member::MemberAuto;
use crate::same::SameAuto;
use crate::subset::{SameSetAuto, SubAuto};
use crate::value::AtomValue;
use mm_base::NoMemory;
use mm_ops::Op;
use mm_states::{AutoFault, Automaton, Letter, TypeId};
use std::alloc::Global;

/// The automaton of an atom.
#[derive(Drop)]
pub enum Atom {
    /// `true` or `false`.
    Const(ConstAuto),
    /// `ind`.
    Ind(IndAuto),
    /// `x in X`.
    Member(MemberAuto),
    /// `x = y`.
    SameElem(SameAuto),
    /// `X sub Y`.
    Sub(SubAuto),
    /// `X = Y`.
    SameSet(SameSetAuto),
}

impl Atom {
    /// The value of a number. No memory.
    pub fn value(&self, id: TypeId) -> AtomValue
        requires { id < length (atom_values self.now) }
        ensures { result ≡ shown (atom_field self.now) (atom_shape self.now) (slice_index_or (atom_values self.now) id value.Dead) }
    {
        match self {
            Atom::Const(auto) => auto.value(id),
            Atom::Ind(auto) => auto.value(id),
            Atom::Member(auto) => auto.value(id),
            Atom::SameElem(auto) => auto.value(id),
            Atom::Sub(auto) => auto.value(id),
            Atom::SameSet(auto) => auto.value(id),
        }
    }

    /// Whether it is `ind`, whose joins cost more than a look-up. No memory.
    pub fn is_ind(&self) -> bool
        ensures { result ≡ has_ind (atom_shape self.now) }
    {
        matches!(self, Atom::Ind(_))
    }

    /// How many values there are. No memory.
    pub fn len(&self) -> u32
        ensures { result ≡ length (atom_values self.now) }
    {
        match self {
            Atom::Const(auto) => auto.len(),
            Atom::Ind(auto) => auto.len(),
            Atom::Member(auto) => auto.len(),
            Atom::SameElem(auto) => auto.len(),
            Atom::Sub(auto) => auto.len(),
            Atom::SameSet(auto) => auto.len(),
        }
    }
}

impl Automaton for Atom {
    ghost use Rattle.std.specs.Prelude.{[], ◌∷◌};
    ghost use Rattle.mm_base_auto.specs.OneAtom.{atom_shape, atom_field, atom_values, atom_marked};

    ghost shape = { atom_shape };

    ghost field = { atom_field };

    ghost lists = { λ a. atom_values a ∷ [] };

    ghost marked = { λ a. atom_marked a ∷ [] };

    ghost IsOpen = { λ op a. Unit {0} };

    fn leaf(&mut self, alloc: Global, letter: &Letter, room: u64) -> Result<TypeId, AutoFault> {
        match self {
            Atom::Const(auto) => auto.leaf(alloc, letter, room),
            Atom::Ind(auto) => auto.leaf(alloc, letter, room),
            Atom::Member(auto) => auto.leaf(alloc, letter, room),
            Atom::SameElem(auto) => auto.leaf(alloc, letter, room),
            Atom::Sub(auto) => auto.leaf(alloc, letter, room),
            Atom::SameSet(auto) => auto.leaf(alloc, letter, room),
        }
    }

    fn join(
        &mut self,
        alloc: Global,
        op: &Op,
        left: TypeId,
        right: TypeId,
        room: u64,
    ) -> Result<TypeId, AutoFault> {
        match self {
            Atom::Const(auto) => auto.join(alloc, op, left, right, room),
            Atom::Ind(auto) => auto.join(alloc, op, left, right, room),
            Atom::Member(auto) => auto.join(alloc, op, left, right, room),
            Atom::SameElem(auto) => auto.join(alloc, op, left, right, room),
            Atom::Sub(auto) => auto.join(alloc, op, left, right, room),
            Atom::SameSet(auto) => auto.join(alloc, op, left, right, room),
        }
    }

    fn open(&mut self, _alloc: Global, _op: &Op) -> Result<(), NoMemory> {
        Ok(())
    }

    fn join_open(
        &mut self,
        alloc: Global,
        op: &Op,
        left: TypeId,
        right: TypeId,
        room: u64,
    ) -> Result<TypeId, AutoFault> {
        self.join(alloc, op, left, right, room)
    }

    fn accepts(&self, id: TypeId) -> bool {
        match self {
            Atom::Const(auto) => auto.accepts(id),
            Atom::Ind(auto) => auto.accepts(id),
            Atom::Member(auto) => auto.accepts(id),
            Atom::SameElem(auto) => auto.accepts(id),
            Atom::Sub(auto) => auto.accepts(id),
            Atom::SameSet(auto) => auto.accepts(id),
        }
    }

    fn mark(&mut self) {
        match self {
            Atom::Const(auto) => auto.mark(),
            Atom::Ind(auto) => auto.mark(),
            Atom::Member(auto) => auto.mark(),
            Atom::SameElem(auto) => auto.mark(),
            Atom::Sub(auto) => auto.mark(),
            Atom::SameSet(auto) => auto.mark(),
        }
    }

    fn roll_back(&mut self) {
        match self {
            Atom::Const(auto) => auto.roll_back(),
            Atom::Ind(auto) => auto.roll_back(),
            Atom::Member(auto) => auto.roll_back(),
            Atom::SameElem(auto) => auto.roll_back(),
            Atom::Sub(auto) => auto.roll_back(),
            Atom::SameSet(auto) => auto.roll_back(),
        }
    }

    fn cells(&self) -> u64 {
        match self {
            Atom::Const(auto) => auto.cells(),
            Atom::Ind(auto) => auto.cells(),
            Atom::Member(auto) => auto.cells(),
            Atom::SameElem(auto) => auto.cells(),
            Atom::Sub(auto) => auto.cells(),
            Atom::SameSet(auto) => auto.cells(),
        }
    }

    fn fresh(&self, alloc: Global) -> Result<Self, NoMemory> {
        match self {
            Atom::Const(auto) => Ok(Atom::Const(auto.fresh(alloc)?)),
            Atom::Ind(auto) => Ok(Atom::Ind(auto.fresh(alloc)?)),
            Atom::Member(auto) => Ok(Atom::Member(auto.fresh(alloc)?)),
            Atom::SameElem(auto) => Ok(Atom::SameElem(auto.fresh(alloc)?)),
            Atom::Sub(auto) => Ok(Atom::Sub(auto.fresh(alloc)?)),
            Atom::SameSet(auto) => Ok(Atom::SameSet(auto.fresh(alloc)?)),
        }
    }
}
