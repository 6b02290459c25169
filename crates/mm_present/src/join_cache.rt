//! What a join takes from its operator alone, computed once for each of the different operators of a tree.

ghost use Rattle.std.specs.Prelude.{◌<◌, IfOk};
ghost use Rattle.indexmap.specs.IndexMap.{index_map_len};
ghost use Rattle.mm_present.specs.JoinCache.{AreDigitsOf, AreKnown, IsKnownAt};

use crate::coordinates::{Basis, digits_in_join};
use indexmap::IndexMap;
use mm_base::NoMemory;
use mm_matrix::Matrix;
use mm_ops::Op;
use std::alloc::Global;

/// The digits that the rows of G1 and of G2 have in a join.
#[derive(Drop)]
pub(crate) struct JoinDigits {
    pub(crate) first: Matrix,
    pub(crate) second: Matrix,
}

impl JoinDigits {
    /// The digits in a join by the operator.
    fn of(alloc: Global, op: &Op) -> Result<JoinDigits, NoMemory>
        ensures { IfOk result (λ digits. AreDigitsOf op.now digits) }
    {
        let _ = op.field();
        let basis = Basis::of(alloc, op)?;
        let first = digits_in_join(alloc, op, &basis, op.g1())?;
        let second = digits_in_join(alloc, op, &basis, op.g2())?;
        Ok(JoinDigits { first, second })
    }
}

/// The operators that were met so far, each with the digits in a join by it.
#[derive(Drop)]
pub(crate) struct KnownOperators {
    digits: IndexMap<Op, JoinDigits>,
    ghost known: { AreKnown digits.entries },
}

impl KnownOperators {
    /// No operators. It takes no memory yet.
    pub(crate) fn new(alloc: Global) -> KnownOperators {
        KnownOperators {
            digits: IndexMap::new(alloc),
        }
    }

    /// The place of an operator, which is put last where it was not met before.
    fn place(&mut self, alloc: Global, op: &Op) -> Result<usize, NoMemory>
        ensures within { IfOk result (λ i. i < index_map_len self.new.digits) }
        ensures known { IfOk result (λ i. IsKnownAt op.now i self.new.digits.entries) }
    {
        if let Some(i) = self.digits.get_index_of(op) {
            return Ok(i);
        }
        let digits = JoinDigits::of(alloc, op)?;
        let (i, _) = self.digits.insert_full(*op, digits)?;
        Ok(i)
    }

    /// The digits in a join by an operator. They are computed only where it was not met before.
    pub(crate) fn digits(&mut self, alloc: Global, op: &Op) -> Result<&JoinDigits, NoMemory>
        ensures { IfOk result (λ digits. AreDigitsOf op.now digits.now) }
    {
        let i = self.place(alloc, op)?;
        Ok(&self.digits[i])
    }
}
