//! The automaton of `ind`.

ghost use Rattle.std.specs.Prelude.{◌≡◌, ◌<◌, ◌≤◌, ◌+◌, ◌^◌, ℕ, true, [], ◌∷◌, length, map, take, slice_index_or, All, IfOk};
ghost use Rattle.std.specs.List.{list_all};
ghost use Rattle.mm_field.specs.Vectors.{AreDigits};
ghost use Rattle.mm_logic.specs.BoundarySpaces.{ind_elem, ind_void, ind_join};
ghost use Rattle.mm_logic.specs.Formula.Formula.{Ind};
ghost use Rattle.mm_logic.specs.Marks.{in_term};
ghost use Rattle.mm_logic.specs.Value.{Value as value};
ghost use Rattle.mm_states.specs.Letters.{IsLetter, leaf_type, marks_of};
ghost use Rattle.mm_states.specs.Calls.{Answers};
ghost use Rattle.mm_base_auto.specs.Atoms.{shown};
ghost use Rattle.mm_base_auto.specs.Terms.{term_of, slots_of};
ghost use Rattle.mm_base_auto.specs.Spaces.{ind_value, ind_values, CanJoinSpaces, IsSpaceOver, prop_spaces};

use crate::marks::has_mark;
use crate::space::{IndValue, joined, span_value, zero_value};
use crate::value::AtomValue;
use mm_base::NoMemory;
use mm_combine::MarkedTable;
use mm_field::Field;
use mm_ops::Op;
use mm_space::JoinRows;
use mm_states::{AutoFault, Automaton, Letter, TypeId};
use smallvec::SmallVec;
use std::alloc::Global;

/// How many slots there are.
const SLOTS: u8 = 16;

/// A term by its slots: bit s of `slots` says that the variable of slot s is in it. All elements where it is whole.
#[derive(Clone, Copy, Debug, PartialEq, Eq)]
pub struct SlotTerm {
    /// Whether it is `*`.
    pub whole: bool,
    /// Its slots.
    pub slots: u16,
}

/// The automaton of `ind`, by the slots of its term.
#[derive(Drop)]
pub struct IndAuto {
    field: Field,
    whole: bool,
    slots: SmallVec<u8, 16>,
    values: MarkedTable<IndValue>,
    /// Room to join in, from the first join on; apart, since an automaton is handed on by value.
    rows: Option<Box<JoinRows>>,
    ghost small: { All (λ s. s < 16) slots.items },
    ghost over: { All (IsSpaceOver field) values.table } by { prop_spaces field values.table },
}

impl IndAuto {
    /// The automaton, with no values.
    pub fn new(alloc: Global, f: Field, term: SlotTerm) -> IndAuto
        ensures field { result.field ≡ f }
        ensures whole { result.whole ≡ term.whole }
        ensures slots { result.slots.items ≡ slots_of term.slots }
        ensures values { result.values.table ≡ [] }
        ensures mark { result.values.mark ≡ 0 }
    {
        let mut slots = SmallVec::new(alloc);
        for k in 0..SLOTS {
            if has_mark(term.slots, k) {
                slots.push_reserved(k);
            }
        }
        IndAuto::with_slots(alloc, f, term.whole, slots)
    }

    /// The automaton of a term with these slots, in this order, with no values.
    pub fn with_slots(alloc: Global, field: Field, whole: bool, slots: SmallVec<u8, 16>) -> IndAuto
        requires { All (λ s. s < 16) slots.items }
        ensures field { result.field ≡ field }
        ensures whole { result.whole ≡ whole }
        ensures slots { result.slots.items ≡ slots.items }
        ensures values { result.values.table ≡ [] }
        ensures mark { result.values.mark ≡ 0 }
    {
        IndAuto {
            field,
            whole,
            slots,
            values: MarkedTable::new(alloc),
            rows: None,
        }
    }

    /// How many values there are. No memory.
    pub fn len(&self) -> u32
        ensures { result ≡ length self.now.values.table }
    {
        self.values.len()
    }

    /// The value of a number. No memory.
    pub fn value(&self, id: TypeId) -> AtomValue
        requires { id < length self.now.values.table }
        ensures { result ≡ shown self.now.field (Ind (term_of self.now.whole self.now.slots.items))
            (slice_index_or (ind_values self.now.values.table) id value.Dead) }
    {
        match self.values.get(id) {
            IndValue::Dead => AtomValue::Dead,
            IndValue::Space(key) => AtomValue::Space(*key),
        }
    }

    // Whether an element with these marks is in the union of the term.
    fn is_in_term(&self, marks: u16) -> bool
        ensures { result ≡ in_term (term_of self.now.whole self.now.slots.items) (marks_of marks) }
    {
        if self.whole {
            return true;
        }
        for slot in self.slots.as_slice() {
            if has_mark(marks, *slot) {
                return true;
            }
        }
        false
    }

    // The value at a leaf.
    fn leaf_value(&self, letter: &Letter) -> IndValue
        requires field { letter.now.field ≡ self.now.field }
        requires readable { IsLetter letter.now }
        ensures over { IsSpaceOver self.now.field result }
        ensures value { ind_value result ≡ leaf_type (Ind (term_of self.now.whole self.now.slots.items)) letter.now }
    {
        match &letter.vec {
            Some(vec) => {
                if self.is_in_term(letter.marks) {
                    return span_value(self.field, vec);
                }
                zero_value(self.field, letter.t)
            }
            None => zero_value(self.field, letter.t),
        }
    }

    fn put(&mut self, alloc: Global, value: &IndValue, room: u64) -> Result<TypeId, AutoFault>
        requires over { IsSpaceOver self.old.field value.now }
        requires room { length self.old.values.table + room < 2 ^ 32 }
        ensures field { self.new.field ≡ self.old.field }
        ensures whole { self.new.whole ≡ self.old.whole }
        ensures slots { self.new.slots.items ≡ self.old.slots.items }
        ensures mark { self.new.values.mark ≡ self.old.values.mark }
        ensures kept { take self.old.values.mark self.new.values.table ≡ take self.old.values.mark self.old.values.table }
        ensures answer { Answers (Ind (term_of self.old.whole self.old.slots.items)) (ind_value value.now)
            (ind_values self.old.values.table ∷ []) (ind_values self.new.values.table ∷ []) room result }
    {
        self.values.put(alloc, value, room)
    }
}

// The value at a join, worked out in rows that are made where there are none.
fn joined_in(
    alloc: Global,
    op: &Op,
    left: &IndValue,
    right: &IndValue,
    rows: &mut Option<Box<JoinRows>>,
) -> Result<IndValue, NoMemory>
    requires left { CanJoinSpaces op.now.f op.now.op.t1 left.now }
    requires right { CanJoinSpaces op.now.f op.now.op.t2 right.now }
    ensures over { IfOk result (λ v. IsSpaceOver op.now.f v) }
    ensures value { IfOk result (λ v. ind_value v ≡ ind_join op.now.f op.now.op (ind_value left.now) (ind_value right.now)) }
{
    if rows.is_none() {
        *rows = Some(Box::new(alloc, JoinRows::new())?);
    }
    match rows {
        Some(rows) => Ok(joined(op, left, right, rows)),
        None => Err(NoMemory),
    }
}

impl Automaton for IndAuto {
    ghost use Rattle.std.specs.Prelude.{[], ◌∷◌, take};
    ghost use Rattle.mm_logic.specs.Formula.Formula.{Ind};
    ghost use Rattle.mm_base_auto.specs.Terms.{term_of};
    ghost use Rattle.mm_base_auto.specs.Spaces.{ind_values};

    ghost shape = { λ a. Ind (term_of a.whole a.slots.items) };

    ghost field = { λ a. a.field };

    ghost lists = { λ a. ind_values a.values.table ∷ [] };

    ghost marked = { λ a. ind_values (take a.values.mark a.values.table) ∷ [] };

    ghost IsOpen = { λ op a. Unit {0} };

    fn leaf(&mut self, alloc: Global, letter: &Letter, room: u64) -> Result<TypeId, AutoFault> {
        let value = self.leaf_value(letter);
        self.put(alloc, &value, room)
    }

    fn join(
        &mut self,
        alloc: Global,
        op: &Op,
        left: TypeId,
        right: TypeId,
        room: u64,
    ) -> Result<TypeId, AutoFault> {
        let left_value = *self.values.get(left);
        let right_value = *self.values.get(right);
        let value = joined_in(alloc, op, &left_value, &right_value, &mut self.rows)?;
        self.put(alloc, &value, room)
    }

    fn open(&mut self, _alloc: Global, _op: &Op) -> Result<(), NoMemory> {
        Ok(())
    }

    fn join_open(
        &mut self,
        alloc: Global,
        op: &Op,
        left: TypeId,
        right: TypeId,
        room: u64,
    ) -> Result<TypeId, AutoFault> {
        self.join(alloc, op, left, right, room)
    }

    fn accepts(&self, id: TypeId) -> bool {
        match self.values.get(id) {
            IndValue::Dead => false,
            IndValue::Space(_) => true,
        }
    }

    fn mark(&mut self) {
        self.values.mark();
    }

    fn roll_back(&mut self) {
        self.values.roll_back();
    }

    fn cells(&self) -> u64 {
        self.values.cells()
    }

    fn fresh(&self, alloc: Global) -> Result<Self, NoMemory> {
        let slots = SmallVec::from_slice(alloc, self.slots.as_slice())?;
        Ok(IndAuto::with_slots(alloc, self.field, self.whole, slots))
    }
}
