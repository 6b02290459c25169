//! The conditions of the minor formula, each joined to those before it.
ghost use Rattle.std.specs.Prelude.{◌≡◌, ◌<◌, ◌≤◌, ◌^◌, ℕ, [], ◌∷◌, IfOk};
ghost use Rattle.std.specs.List.{items_where_true};
ghost use Rattle.mm_formula.specs.Syntax.{syntax_of};
ghost use Rattle.mm_formula.specs.Syntax as formula;
ghost use Rattle.mm_minor.specs.MinorFormula.{contracted, elements, subset, with_contracted, outside, different_from, different, asserted, alike, all_alike, conjunction};

use crate::independence::has_independent;
use crate::names::{self, MAX_COLUMNS};
use mm_base::NoMemory;
use mm_formula::{Connective, Formula, Term, VarList};
use mm_matrix::Matrix;
use std::alloc::Global;

/// Both formulas.
fn both(alloc: Global, first: Formula, second: Formula) -> Result<Formula, NoMemory>
    ensures { IfOk result (λ F. syntax_of F ≡ formula.Syntax.Bin Connective.And (syntax_of first) (syntax_of second)) }
{
    let first = Box::new(alloc, first)?;
    Formula::combined(alloc, Connective::And, first, second)
}

/// The formula, and each of `k` elements is outside the contracted set.
pub fn with_outside(alloc: Global, formula: Formula, k: usize) -> Result<Formula, NoMemory>
    requires { k ≤ MAX_COLUMNS }
    ensures { IfOk result (λ F. syntax_of F ≡ conjunction (syntax_of formula) (outside k)) }
{
    let mut joined = formula;
    for i in 0..k {
        let inside = Formula::Member(names::element(i), names::contracted());
        let condition = Formula::negated(alloc, inside)?;
        joined = both(alloc, joined, condition)?;
    }
    Ok(joined)
}

/// The formula, and element `i` is none of those after it.
fn with_different_from(
    alloc: Global,
    formula: Formula,
    k: usize,
    i: usize,
) -> Result<Formula, NoMemory>
    requires place { i < k }
    requires columns { k ≤ MAX_COLUMNS }
    ensures { IfOk result (λ F. syntax_of F ≡ conjunction (syntax_of formula) (different_from k i)) }
{
    let mut joined = formula;
    for j in i + 1..k {
        let same = Formula::SameElem(names::element(i), names::element(j));
        let condition = Formula::negated(alloc, same)?;
        joined = both(alloc, joined, condition)?;
    }
    Ok(joined)
}

/// The formula, and the `k` elements are different.
pub fn with_different(alloc: Global, formula: Formula, k: usize) -> Result<Formula, NoMemory>
    requires { k ≤ MAX_COLUMNS }
    ensures { IfOk result (λ F. syntax_of F ≡ conjunction (syntax_of formula) (different k)) }
{
    let mut joined = formula;
    for i in 0..k {
        joined = with_different_from(alloc, joined, k, i)?;
    }
    Ok(joined)
}

/// The contracted set, and the elements of subset `s` of `k` elements.
fn variables(alloc: Global, k: usize, s: usize) -> Result<VarList, NoMemory>
    requires { k ≤ MAX_COLUMNS }
    ensures { IfOk result (λ vars. vars ≡ contracted ∷ items_where_true (subset k s) (elements k)) }
{
    let mut vars = VarList::new(alloc);
    vars.push(alloc, names::contracted())?;
    let mut rest = s;
    for i in 0..k {
        if rest % 2 == 1 {
            vars.push(alloc, names::element(i))?;
        }
        rest /= 2;
    }
    Ok(vars)
}

/// The contracted set with the elements of subset `s` of `k` elements is independent.
fn independent(alloc: Global, k: usize, s: usize) -> Result<Formula, NoMemory>
    requires { k ≤ MAX_COLUMNS }
    ensures { IfOk result (λ F. syntax_of F ≡ with_contracted k (subset k s)) }
{
    let vars = variables(alloc, k, s)?;
    Ok(Formula::Ind(Term { whole: false, vars }))
}

/// The contracted set alone is independent.
pub fn independent_alone(alloc: Global) -> Result<Formula, NoMemory>
    ensures { IfOk result (λ F. (k : ℕ) → syntax_of F ≡ with_contracted k []) }
{
    independent(alloc, 0, 0)
}

/// The formula or its negation.
fn asserted(alloc: Global, holds: bool, formula: Formula) -> Result<Formula, NoMemory>
    ensures { IfOk result (λ F. syntax_of F ≡ asserted holds (syntax_of formula)) }
{
    if holds {
        Ok(formula)
    } else {
        Formula::negated(alloc, formula)
    }
}

/// Subset `s` of the elements, with the contracted set, is independent or dependent as its columns are.
fn alike(alloc: Global, n: &Matrix, s: usize) -> Result<Formula, NoMemory>
    requires { n.now.cols ≤ MAX_COLUMNS }
    ensures { IfOk result (λ F. syntax_of F ≡ alike n.now s) }
{
    let holds = has_independent(alloc, n, s)?;
    let formula = independent(alloc, n.cols(), s)?;
    asserted(alloc, holds, formula)
}

/// The formula, and each subset of the elements that is not empty is independent or dependent as its columns are.
pub fn with_all_alike(alloc: Global, formula: Formula, n: &Matrix) -> Result<Formula, NoMemory>
    requires { n.now.cols ≤ MAX_COLUMNS }
    ensures { IfOk result (λ F. syntax_of F ≡ conjunction (syntax_of formula) (all_alike n.now)) }
{
    let mut joined = formula;
    for s in 1..1 << n.cols() {
        let condition = alike(alloc, n, s)?;
        joined = both(alloc, joined, condition)?;
    }
    Ok(joined)
}
