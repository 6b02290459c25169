//! The numbers of operators.

ghost use Rattle.std.specs.Prelude.{◌≡◌, ◌<◌, ◌≤◌, length, map, slice_get, Some, IfOk, [], true};
ghost use Rattle.mm_machine.specs.Parts.{views, IsSound};
ghost use Rattle.mm_machine.specs.Blocks.{blocks, cuts};
ghost use Rattle.mm_machine.specs.Shapes.{signs};
ghost use Rattle.mm_machine.specs.Operators.{KeepsTables, node_of, AreForgotten};

use crate::part::{Part, Parts};
use mm_base::NoMemory;
use mm_ops::Op;
use std::alloc::Global;

/// The most operators that have numbers: one more, and all joins are forgotten.
const MAX_OPERATORS: u32 = 65_536;

/// The number of an operator, under which its joins are remembered.
pub(crate) fn number_of(alloc: Global, parts: &mut Parts, op: &Op) -> Result<u32, NoMemory>
    requires { length parts.old.ops ≤ 65536 }
    ensures number { IfOk result (λ n. slice_get parts.new.ops n ≡ Some op.now) }
    ensures few { length parts.new.ops ≤ 65536 }
    ensures keeps { KeepsTables parts.old parts.new }
{
    if is_last(parts, op) {
        return Ok(parts.last);
    }
    make_room(parts);
    add_operator(alloc, parts, op)
}

// Whether an operator is the one whose number was asked for last.
fn is_last(parts: &Parts, op: &Op) -> bool
    requires { length parts.now.ops ≤ 65536 }
    ensures { result ≡ true → slice_get parts.now.ops parts.now.last ≡ Some op.now }
{
    if parts.last >= parts.ops.len() {
        return false;
    }
    parts.ops.get(parts.last) == op
}

// Forgets all joins where too many operators have numbers.
fn make_room(parts: &mut Parts)
    requires { length parts.old.ops ≤ 65536 }
    ensures few { length parts.new.ops < 65536 }
    ensures keeps { KeepsTables parts.old parts.new }
{
    if parts.ops.len() >= MAX_OPERATORS {
        forget(parts);
    }
}

// Forgets all joins, and the operators.
fn forget(parts: &mut Parts)
    ensures ops { parts.new.ops ≡ [] }
    ensures keeps { KeepsTables parts.old parts.new }
{
    forget_list(&mut parts.list);
    parts.ops.cut(0);
}

fn forget_list(list: &mut Vec<Part>)
    ensures nodes { map node_of list.new.items ≡ map node_of list.old.items }
    ensures forgotten { AreForgotten list.new.items }
{
    for i in 0..list.len() {
        list[i].memo.clear();
    }
}

// Gives a number to an operator that has none.
fn add_operator(alloc: Global, parts: &mut Parts, op: &Op) -> Result<u32, NoMemory>
    requires { length parts.old.ops < 65536 }
    ensures number { IfOk result (λ n. slice_get parts.new.ops n ≡ Some op.now) }
    ensures few { length parts.new.ops ≤ 65536 }
    ensures keeps { KeepsTables parts.old parts.new }
{
    let number = parts.ops.put(alloc, *op)?;
    parts.last = number;
    Ok(number)
}
