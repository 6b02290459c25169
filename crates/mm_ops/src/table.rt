//! Operators by their names.

ghost use Rattle.std.specs.Prelude.{◌≡◌, ◌++◌, [], ◌∷◌, OnOk, OnErr};
ghost use Rattle.mm_ops.specs.Tables.{Answers, NamesDiffer, op_named, refusal_of};

use crate::Op;
use indexmap::IndexMap;
use mm_base::Name;
use std::alloc::Global;
use std::marker::Model;
use thiserror::Error;

/// The most operators of a table.
const MAX_OPS: usize = 4096;

/// Why a table takes no operator.
#[derive(Clone, Copy, Debug, PartialEq, Eq, Error)]
pub enum OpTableFault {
    /// An operator of this name is there.
    #[error("the name is taken")]
    NameTaken,
    /// 4096 operators are there.
    #[error("the table is full")]
    Full,
    /// Memory ran out.
    #[error("memory ran out")]
    NoMemory,
}

/// Operators with different names, in the order in which they were added.
#[derive(Drop)]
pub struct OpTable {
    ops: IndexMap<Name, Op>,
}

impl Model for OpTable {
    ghost use Rattle.mm_ops.specs.Tables.{OperatorList, NamesDiffer};

    ghost Value = { OperatorList };

    ghost view = { λ t. t.ops.entries };

    ghost invariant = { λ t. NamesDiffer t.ops.entries };
}

impl OpTable {
    /// A table with no operators. It takes no memory yet.
    pub fn new(alloc: Global) -> OpTable
        ensures { result ≡ [] }
    {
        OpTable {
            ops: IndexMap::new(alloc),
        }
    }

    /// Adds an operator under a name. A table that refuses is as before.
    pub fn add(&mut self, _alloc: Global, name: Name, op: Op) -> Result<(), OpTableFault>
        ensures answers { Answers result (refusal_of name self.old) }
        ensures ok { OnOk result (self.new ≡ self.old ++ (name, op) ∷ []) }
        ensures err { OnErr result (self.new ≡ self.old) }
    {
        if let Some(fault) = self.refusal(&name) {
            return Err(fault);
        }
        let Ok(_) = self.ops.insert(name, op) else {
            return Err(OpTableFault::NoMemory);
        };
        Ok(())
    }

    /// Why no operator can be added under this name.
    fn refusal(&self, name: &Name) -> Option<OpTableFault>
        ensures { result ≡ refusal_of name.now self.now }
    {
        if self.find(name).is_some() {
            return Some(OpTableFault::NameTaken);
        }
        if self.ops.len() >= MAX_OPS {
            return Some(OpTableFault::Full);
        }
        None
    }

    /// The operator of this name. None exactly where it is not there. It tells what holds of every table, too.
    pub fn find(&self, name: &Name) -> Option<Op>
        ensures differ { NamesDiffer self.now }
        ensures found { result ≡ op_named name.now self.now }
    {
        self.ops.get(name).copied()
    }
}
