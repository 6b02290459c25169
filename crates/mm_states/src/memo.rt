//! Joins that are remembered, by their operators.

ghost use Rattle.std.specs.Prelude.{◌≡◌, ◌<◌, ◌≤◌, ℕ, Some, IfOk, OnOk, length, false, []};
ghost use Rattle.std.specs.List.{list_any};
ghost use Rattle.mm_ops.specs.OpValue.{OpValue};
ghost use Rattle.mm_states.specs.Numbered.{IsNumbered, op_same, prop_numbered, number_of, answer_by, ForgetsJoins, KeepsJoin};
ghost use Rattle.mm_states.specs.Memos.{joins_answer};

use crate::joins::JoinMemo;
use crate::table::{Table, TypeId};
use mm_base::NoMemory;
use mm_ops::Op;
use std::alloc::Global;

/// The most operators that a memo numbers: one more, and it forgets all.
const MAX_OPERATORS: u32 = 65_536;

/// Joins that are remembered, by their operators. It never answers for another operator, and may forget others whenever it keeps one.
///
/// It numbers operators within itself. What makes many joins by one operator asks for its number once ([`Memo::number`]).
#[derive(Drop)]
pub struct Memo {
    ops: Table<Op>,
    joins: JoinMemo,
    ghost few: { length ops ≤ 65536 },
    ghost known: { IsNumbered ops (joins_answer joins) } by { prop_numbered ops (joins_answer joins) },
}

impl Memo {
    /// Remembers nothing. It takes no memory.
    pub fn new(alloc: Global) -> Memo
        ensures { (op : OpValue) (left right id : ℕ) → (answer_by result.ops (joins_answer result.joins)) op left right ≡ Some id → ⊥ }
    {
        Memo {
            ops: Table::new(alloc),
            joins: JoinMemo::new(alloc),
        }
    }

    /// The number of a join, where it is remembered. No memory.
    pub fn find(&self, op: &Op, left: TypeId, right: TypeId) -> Option<TypeId>
        ensures { result ≡ answer_by self.now.ops (joins_answer self.now.joins) op.now left right }
    {
        match self.ops.find(op) {
            Some(number) => self.joins.find(number, left, right),
            None => None,
        }
    }

    /// Remembers a join, and may forget others.
    pub fn keep(
        &mut self,
        alloc: Global,
        op: &Op,
        left: TypeId,
        right: TypeId,
        id: TypeId,
    ) -> Result<(), NoMemory>
        ensures there { OnOk result (answer_by self.new.ops (joins_answer self.new.joins) op.now left right ≡ Some id) }
        ensures others { KeepsJoin (answer_by self.old.ops (joins_answer self.old.joins))
            (answer_by self.new.ops (joins_answer self.new.joins)) op.now left right id }
    {
        let number = self.number(alloc, op)?;
        self.joins.keep(alloc, number, left, right, id)
    }

    /// Forgets all. No memory.
    pub fn clear(&mut self)
        ensures operators { self.new.ops ≡ [] }
        ensures joins { (op : OpValue) (left right id : ℕ) →
            answer_by self.new.ops (joins_answer self.new.joins) op left right ≡ Some id → ⊥ }
    {
        self.joins.clear();
        self.ops.cut(0);
    }

    // The number of an operator, which is new where it has none. It may forget joins.
    fn number(&mut self, alloc: Global, op: &Op) -> Result<u32, NoMemory>
        ensures number { IfOk result (λ n. number_of self.new.ops op.now ≡ Some n) }
        ensures forgets { ForgetsJoins (answer_by self.old.ops (joins_answer self.old.joins))
            (answer_by self.new.ops (joins_answer self.new.joins)) }
    {
        self.make_room();
        match self.ops.find(op) {
            Some(number) => Ok(number),
            None => self.add(alloc, op),
        }
    }

    // Forgets all where too many operators have numbers.
    fn make_room(&mut self)
        ensures room { length self.new.ops < 65536 }
        ensures forgets { ForgetsJoins (answer_by self.old.ops (joins_answer self.old.joins))
            (answer_by self.new.ops (joins_answer self.new.joins)) }
    {
        if self.ops.len() >= MAX_OPERATORS {
            self.clear();
        }
    }

    // Gives a number to an operator that has none.
    fn add(&mut self, alloc: Global, op: &Op) -> Result<u32, NoMemory>
        requires absent { list_any (op_same op.now) self.old.ops ≡ false }
        requires room { length self.old.ops < 65536 }
        ensures number { IfOk result (λ n. number_of self.new.ops op.now ≡ Some n) }
        ensures forgets { ForgetsJoins (answer_by self.old.ops (joins_answer self.old.joins))
            (answer_by self.new.ops (joins_answer self.new.joins)) }
    {
        self.ops.put(alloc, *op)
    }
}
