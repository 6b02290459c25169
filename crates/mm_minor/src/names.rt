//! The variables of the minor formula.
ghost use Rattle.std.specs.Prelude.{◌≡◌, ◌<◌};
ghost use Rattle.mm_minor.specs.MinorFormula.{contracted, element};

use mm_formula::Var;

/// The most columns of a matrix whose minor formula is made.
pub const MAX_COLUMNS: usize = 5;

/// The variable of the set that is contracted.
#[tactic(auto, using(crate::proofs::NameLemmas::contracted_is_var))]
pub fn contracted() -> Var
    ensures { result ≡ contracted }
{
    match Var::read(b"C") {
        Some(v) => v,
        None => unreachable!(),
    }
}

/// The variable of element `i`, counted from 0.
pub fn element(i: usize) -> Var
    requires { i < MAX_COLUMNS }
    ensures { result ≡ element i }
{
    let name = [b'x', b'1' + i as u8];
    match Var::read(&name) {
        Some(v) => v,
        None => unreachable!(),
    }
}
