//! Laws of machines.

ghost use Rattle.std.specs.Prelude.{◌≡◌};
ghost use Rattle.mm_logic.specs.Occurrence.{nodes};
ghost use Rattle.mm_machine.specs.Shapes.{shapes};
ghost use Rattle.mm_machine.specs.Machines.{shape_in};

use crate::machine::Machine;

/// The formulas of the parts are the nodes of the formula, in reading order.
pub fn parts_are_nodes(machine: &Machine)
    ensures { shapes machine.now.parts.list.items ≡ nodes (shape_in machine.now.parts) }
{
    let _machine = machine;
}
