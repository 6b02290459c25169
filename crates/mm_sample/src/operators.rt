//! The two operators of a sample.

ghost use Rattle.std.specs.Prelude.{◌≡◌, ◌++◌, ◌∷◌, [], IfOk, None, OnOk, codes};
ghost use Rattle.mm_ops.specs.Tables.{refusal_of};
ghost use Rattle.mm_sample.specs.SampleTree.{operator_p, operator_s, operators};

use mm_base::{Name, NoMemory};
use mm_field::Field;
use mm_ops::{Op, OpTable};
use mm_space::Gen;
use std::alloc::Global;

/// The operators p and s.
pub(crate) fn operators(alloc: Global, f: Field) -> Result<OpTable, NoMemory>
    ensures { IfOk result (λ ops. ops ≡ operators f) }
{
    let mut ops = OpTable::new(alloc);
    add(alloc, &mut ops, p(), operator_p(f))?;
    add(alloc, &mut ops, s(), operator_s(f))?;
    Ok(ops)
}

/// Adds an operator that the table does not refuse: only memory may be missing.
fn add(alloc: Global, ops: &mut OpTable, name: Name, op: Op) -> Result<(), NoMemory>
    requires { refusal_of name ops.old ≡ None }
    ensures { OnOk result (ops.new ≡ ops.old ++ (name, op) ∷ []) }
{
    ops.add(alloc, name, op).or(Err(NoMemory))
}

/// The name p.
pub(crate) fn p() -> Name
    ensures { result ≡ codes "p" }
{
    let Some(name) = Name::read(b"p") else {
        unreachable!();
    };
    name
}

/// The name s.
pub(crate) fn s() -> Name
    ensures { result ≡ codes "s" }
{
    let Some(name) = Name::read(b"s") else {
        unreachable!();
    };
    name
}

/// The operator p.
fn operator_p(f: Field) -> Op
    ensures { result ≡ record { f = f; op = operator_p } }
{
    let (Some(left), Some(right)) = (Gen::read(f, b"10/01"), Gen::read(f, b"10/01")) else {
        unreachable!();
    };
    let Ok(op) = Op::new(f, 2, 2, 2, 0, left, right) else {
        unreachable!();
    };
    op
}

/// The operator s.
fn operator_s(f: Field) -> Op
    ensures { result ≡ record { f = f; op = operator_s } }
{
    let (Some(left), Some(right)) = (Gen::read(f, b"100/011"), Gen::read(f, b"010/001")) else {
        unreachable!();
    };
    let Ok(op) = Op::new(f, 2, 2, 2, 1, left, right) else {
        unreachable!();
    };
    op
}
