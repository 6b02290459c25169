//! The minor formula of a matrix.
ghost use Rattle.std.specs.Prelude.{◌≡◌, ◌≤◌, ◌∷◌, true, None, IfOk};
ghost use Rattle.mm_formula.specs.Syntax.{syntax_of, is_well_sorted};
ghost use Rattle.mm_formula.specs.Scope.{scope_fault};
ghost use Rattle.mm_minor.specs.MinorFormula.{contracted, elements, conditions, with_some, minor_formula};

use crate::conditions::{independent_alone, with_all_alike, with_different, with_outside};
use crate::names::{self, MAX_COLUMNS};
use mm_base::NoMemory;
use mm_formula::Formula;
use mm_matrix::Matrix;
use std::alloc::Global;

/// The conditions on the contracted set and the elements.
fn conditions(alloc: Global, n: &Matrix) -> Result<Formula, NoMemory>
    requires { n.now.cols ≤ MAX_COLUMNS }
    ensures { IfOk result (λ F. syntax_of F ≡ conditions n.now) }
{
    let k = n.cols();
    let independent = independent_alone(alloc)?;
    let outside = with_outside(alloc, independent, k)?;
    let different = with_different(alloc, outside, k)?;
    let joined = with_all_alike(alloc, different, n)?;
    Ok(joined)
}

/// The formula with some element for each of the `k` variables.
fn with_some_elements(alloc: Global, formula: Formula, k: usize) -> Result<Formula, NoMemory>
    requires { k ≤ MAX_COLUMNS }
    ensures { IfOk result (λ F. syntax_of F ≡ with_some (elements k) (syntax_of formula)) }
{
    let mut bound = formula;
    for i in (0..k).rev() {
        bound = Formula::with_some(alloc, names::element(i), bound)?;
    }
    Ok(bound)
}

/// The minor formula of a matrix with at most 5 columns. It is well sorted, and `Scoped::of` takes it without a free variable.
pub fn minor_formula(alloc: Global, n: &Matrix) -> Result<Formula, NoMemory>
    requires { n.now.cols ≤ MAX_COLUMNS }
    ensures formula { IfOk result (λ F. syntax_of F ≡ minor_formula n.now) }
    ensures sorted { IfOk result (λ F. is_well_sorted (syntax_of F) ≡ true) }
    ensures scoped { IfOk result (λ F. scope_fault (syntax_of F) None ≡ None) }
{
    let conditions = conditions(alloc, n)?;
    let bound = with_some_elements(alloc, conditions, n.cols())?;
    let formula = Formula::with_some(alloc, names::contracted(), bound)?;
    Ok(formula)
}
