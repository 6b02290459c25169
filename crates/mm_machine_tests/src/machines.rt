//! Machines over GF(2).

ghost use Rattle.std.specs.Prelude.{◌≡◌, true, IfOk, IfSome};
ghost use Rattle.mm_field.specs.declared.Field.TheVariants.{Two};
ghost use Rattle.mm_formula.specs.Syntax.{syntax_of, is_well_sorted};
ghost use Rattle.mm_logic.specs.Growth.{no_values};
ghost use Rattle.mm_machine.specs.Machines.{shape_in, lists_in};

use mm_base::NoMemory;
use mm_field::Field;
use mm_formula::{Formula, Scoped};
use mm_formula_text::read;
use mm_machine::Machine;
use std::alloc::Global;

/// The machine over GF(2) of a formula without free variables.
pub fn machine_of(alloc: Global, formula: Formula) -> Option<Machine>
    requires { is_well_sorted (syntax_of formula) ≡ true }
    ensures field { IfSome result (λ m. m.field ≡ Two) }
    ensures empty { IfSome result (λ m. lists_in m.parts ≡ no_values (shape_in m.parts)) }
{
    let scoped = Scoped::of(alloc, formula, None).ok()?;
    Machine::of(alloc, Field::Two, &scoped).ok()
}

/// The machine over GF(2) of the formula that a text writes.
pub fn machine_of_text(alloc: Global, text: &[u8]) -> Option<Machine>
    ensures field { IfSome result (λ m. m.field ≡ Two) }
    ensures empty { IfSome result (λ m. lists_in m.parts ≡ no_values (shape_in m.parts)) }
{
    let formula = read(alloc, text).ok()?;
    machine_of(alloc, formula)
}

/// `true` under so many negations.
pub fn negations(alloc: Global, count: u32) -> Result<Formula, NoMemory>
    ensures { IfOk result (λ F. is_well_sorted (syntax_of F) ≡ true) }
{
    let mut formula = Formula::Const(true);
    for _ in 0..count {
        formula = Formula::negated(alloc, formula)?;
    }
    Ok(formula)
}
