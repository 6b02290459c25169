//! The operators that a text gives.
ghost use Rattle.std.specs.Prelude.{◌≡◌, Some, None, Ok, Err, MatchResult};
ghost use Rattle.mm_ops.specs.OpFaults.{Makes, fault_of};
ghost use Rattle.mm_job_text.specs.Becoming.{Becomes};
ghost use Rattle.mm_job_text.specs.OperatorLines.{HasDigits, added, op_line, operator_line, operator_of, operator_refusal};

use crate::format::Format;
use crate::operator_line::{OperatorLine, ThirdMatrix, read_operator};
use crate::refusal::{Limit, Refusal, Stop};
use mm_base::Name;
use mm_field::Field;
use mm_lines::Line;
use mm_ops::{Op, OpFault, OpTable, OpTableFault};
use std::alloc::Global;

/// The operator of these numbers and matrices, or the first fault that it has.
fn operator(f: Field, fields: OperatorLine) -> Result<Op, OpFault>
    requires { HasDigits f fields }
    ensures { Makes f (operator_of fields) result }
{
    let OperatorLine {
        name: _,
        t1,
        t2,
        t3,
        c,
        g1,
        g2,
        g3,
    } = fields;
    match g3 {
        ThirdMatrix::Units => Op::new(f, t1, t2, t3, c, g1, g2),
        ThirdMatrix::Written(g3) => Op::with_boundary(f, t1, t2, t3, c, g1, g2, g3),
    }
}

/// An operator under its name.
#[derive(Clone, Copy)]
struct NamedOp {
    name: Name,
    op: Op,
}

/// The operator that the fields show under its name, or the refusal of its first fault.
fn named_operator(f: Field, number: u32, fields: OperatorLine) -> Result<NamedOp, Refusal>
    requires { HasDigits f fields }
    ensures { MatchResult result
        (λ named. (fault_of f (operator_of fields) ≡ None)
        × (named.op ≡ record { f = f; op = operator_of fields }) × (named.name ≡ fields.name))
        (λ refusal. operator_refusal number (fault_of f (operator_of fields)) ≡ Some refusal) }
{
    let name = fields.name;
    match operator(f, fields) {
        Ok(op) => Ok(NamedOp { name, op }),
        Err(OpFault::Bound) => Err(Refusal::Over(Limit::Bounds, number)),
        Err(OpFault::Shape) => Err(Refusal::Shape(number)),
        Err(OpFault::Dependent(k)) => Err(Refusal::Dependent(number, k)),
    }
}

/// Adds an operator, where its name is new and there is room.
fn add(alloc: Global, number: u32, ops: &mut OpTable, name: Name, op: Op) -> Result<(), Stop>
    ensures { Becomes result ops.new (added number ops.old name op) }
{
    match ops.add(alloc, name, op) {
        Ok(()) => Ok(()),
        Err(OpTableFault::NameTaken) => Err(Stop::Refused(Refusal::Taken(name))),
        Err(OpTableFault::Full) => Err(Stop::Refused(Refusal::Over(Limit::Operators, number))),
        Err(OpTableFault::NoMemory) => Err(Stop::NoMemory),
    }
}

/// The operator of an `op` line.
#[tactic(auto, unfolding(crate::specs::OperatorLines::operator_line))]
fn read_valid(format: Format, f: Field, line: &Line) -> Result<NamedOp, Refusal>
    ensures { MatchResult result
        (λ named. operator_line format f line.now ≡ Ok (named.name, named.op))
        (λ refusal. operator_line format f line.now ≡ Err refusal) }
{
    match read_operator(format, f, line) {
        Ok(fields) => named_operator(f, line.number, fields),
        Err(refusal) => Err(refusal),
    }
}

/// Adds the operator of an `op` line.
#[tactic(auto, unfolding(crate::specs::OperatorLines::op_line))]
pub fn add_operator(
    alloc: Global,
    format: Format,
    f: Field,
    ops: &mut OpTable,
    line: &Line,
) -> Result<(), Stop>
    ensures { Becomes result ops.new (op_line format f ops.old line.now) }
{
    let named = read_valid(format, f, line)?;
    add(alloc, line.number, ops, named.name, named.op)
}
