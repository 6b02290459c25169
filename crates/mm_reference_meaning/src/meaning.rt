//! What a formula means on a small tree, by trying all sets and all elements.

ghost use Rattle.std.specs.Prelude.{◌≡◌, ◌<◌, ◌^◌, ◌∷◌, ◌++◌, ℕ, false, map, length, All, slice_index_or, IfOk};
ghost use Rattle.std.specs.List.{list_all, items_where_true};
ghost use Rattle.mm_logic.specs.Formula as formula;
ghost use Rattle.mm_logic.specs.Marks as marks_spec;
ghost use Rattle.mm_logic.specs.Meaning as meaning;
ghost use Rattle.mm_logic.specs.PresentMatrix as matrix;
ghost use Rattle.mm_logic.specs.Tree.{IsValid, size};
ghost use Rattle.mm_reference_meaning.specs.Rows.{rows_of};
ghost use Rattle.mm_reference_meaning.specs.Trees.{tree_of};
ghost use Rattle.mm_reference_meaning.specs.Evaluation.{union_of, holds_with, choices_of, truth_of};
ghost use Rattle.mm_reference_meaning.specs.Formulas.{connective_of, term_of, formula_of, SlotsBelow, marks_of, any_has_both, tests_of};

use crate::combinations::independent;
use crate::tree::{Tree, boundary, columns, internal};
use mm_field::Field;
use std::alloc::{AllocError, Global};

/// How many slots an element has marks for.
pub const SLOTS: usize = 16;

/// Which slots hold an element.
pub type Marks = [bool; 16];

/// A connective.
#[derive(Clone, Copy)]
pub enum Connective {
    And,
    Or,
    Implies,
    Iff,
}

/// The union of some slots, or all elements where it is whole.
#[derive(Drop)]
pub struct Term {
    pub whole: bool,
    pub slots: Vec<usize>,
}

/// A formula in which each variable is a slot.
#[derive(Drop)]
pub enum Formula {
    Const(bool),
    Ind(Term),
    Member(usize, usize),
    SameElem(usize, usize),
    Sub(usize, usize),
    SameSet(usize, usize),
    Not(Box<Formula>),
    Bin(Connective, Box<Formula>, Box<Formula>),
    ExSet(usize, Box<Formula>),
    AllSet(usize, Box<Formula>),
    ExElem(usize, Box<Formula>),
    AllElem(usize, Box<Formula>),
}

/// What a quantifier ranges over.
#[derive(Clone, Copy)]
enum Domain {
    /// All sets of elements.
    Sets,
    /// All elements.
    Elements,
}

/// The truth table of a connective.
fn connect(connective: Connective, a: bool, b: bool) -> bool
    ensures { result ≡ formula.connect (connective_of connective) a b }
{
    match connective {
        Connective::And => a && b,
        Connective::Or => a || b,
        Connective::Implies => !a || b,
        Connective::Iff => a == b,
    }
}

/// The marks with slot k exchanged for b.
fn marked(marks: &Marks, k: usize, b: bool) -> Marks
    requires { k < 16 }
    ensures { (j : ℕ) → slice_index_or result j false ≡ marks_spec.mark k b (marks_of marks.now) j }
{
    let mut changed = *marks;
    changed[k] = b;
    changed
}

/// Whether an element with these marks is in the union of a term.
fn in_term(term: &Term, marks: &Marks) -> bool
    requires { All (λ k. k < 16) term.now.slots.items }
    ensures { result ≡ marks_spec.in_term (term_of term.now) (marks_of marks.now) }
{
    if term.whole {
        return true;
    }
    for k in &term.slots {
        if marks[*k] {
            return true;
        }
    }
    false
}

/// Which elements are in the union of a term.
fn union(alloc: Global, term: &Term, marks: &[Marks]) -> Result<Vec<bool>, AllocError>
    requires { All (λ k. k < 16) term.now.slots.items }
    ensures { IfOk result (λ v. v.items ≡ union_of term.now marks.now) }
{
    let mut tests = Vec::new(alloc);
    for m in marks {
        tests.push(in_term(term, m))?;
    }
    Ok(tests)
}

/// The columns of the elements of a set.
fn chosen(alloc: Global, columns: &[Vec<u8>], set: &[bool]) -> Result<Vec<Vec<u8>>, AllocError>
    requires { length set.now ≡ length columns.now }
    ensures { IfOk result (λ v. rows_of v.items ≡ items_where_true set.now (rows_of columns.now)) }
{
    let mut kept = Vec::new(alloc);
    for (i, column) in columns.iter().enumerate() {
        if set[i] {
            kept.push(column.to_vec(alloc)?)?;
        }
    }
    Ok(kept)
}

/// The columns of the elements of the union of a term.
pub fn union_columns(
    alloc: Global,
    f: Field,
    tree: &Tree,
    term: &Term,
    marks: &[Marks],
) -> Result<Vec<Vec<u8>>, AllocError>
    requires valid { IsValid f (tree_of tree.now) }
    requires small { matrix.internal (tree_of tree.now) < 2 ^ 32 }
    requires slots { All (λ k. k < 16) term.now.slots.items }
    requires each { length marks.now ≡ size (tree_of tree.now) }
    ensures { IfOk result (λ v. rows_of v.items ≡ matrix.chosen f (tree_of tree.now) (union_of term.now marks.now)) }
{
    let all = columns(alloc, f, tree)?;
    let set = union(alloc, term, marks)?;
    Ok(chosen(alloc, &all, &set)?)
}

/// Whether the union of a term is independent.
fn is_independent_union(
    alloc: Global,
    f: Field,
    tree: &Tree,
    term: &Term,
    marks: &[Marks],
) -> Result<bool, AllocError>
    requires valid { IsValid f (tree_of tree.now) }
    requires small { matrix.internal (tree_of tree.now) < 2 ^ 32 }
    requires slots { All (λ k. k < 16) term.now.slots.items }
    requires each { length marks.now ≡ size (tree_of tree.now) }
    ensures { IfOk result (λ b. b ≡ matrix.is_independent_set f (tree_of tree.now) (union_of term.now marks.now)) }
{
    let some = union_columns(alloc, f, tree, term, marks)?;
    independent(alloc, f, boundary(tree) + internal(tree), &some)
}

/// Whether some element has both slots.
pub fn some_has_both(marks: &[Marks], x: usize, y: usize) -> bool
    requires first { x < 16 }
    requires second { y < 16 }
    ensures { result ≡ any_has_both x y marks.now }
{
    marks.iter().any(|m| m[x] && m[y])
}

/// Whether each element that has the first slot has the second.
pub fn is_subset(marks: &[Marks], a: usize, b: usize) -> bool
    requires first { a < 16 }
    requires second { b < 16 }
    ensures { result ≡ list_all (λ m. formula.implies (slice_index_or m a false) (slice_index_or m b false)) marks.now }
{
    marks.iter().all(|m| !m[a] || m[b])
}

/// Whether the same elements have both slots.
pub fn is_same_set(marks: &[Marks], a: usize, b: usize) -> bool
    requires first { a < 16 }
    requires second { b < 16 }
    ensures { result ≡ list_all (λ m. formula.iff (slice_index_or m a false) (slice_index_or m b false)) marks.now }
{
    marks.iter().all(|m| m[a] == m[b])
}

/// The assignment with the set as slot k.
pub fn assign(
    alloc: Global,
    k: usize,
    set: &[bool],
    marks: &[Marks],
) -> Result<Vec<Marks>, AllocError>
    requires slot { k < 16 }
    requires each { length set.now ≡ length marks.now }
    ensures { IfOk result (λ v. map marks_of v.items ≡ marks_spec.assign k set.now (map marks_of marks.now)) }
{
    let mut assigned = Vec::new(alloc);
    for (i, m) in marks.iter().enumerate() {
        assigned.push(marked(m, k, set[i]))?;
    }
    Ok(assigned)
}

/// Puts the sets, with one more test before each, after what is there.
fn push_longer(
    alloc: Global,
    first: bool,
    sets: &[Vec<bool>],
    out: &mut Vec<Vec<bool>>,
) -> Result<(), AllocError>
    ensures { IfOk result (λ _. tests_of out.new.items ≡ tests_of out.old.items ++ map (λ X. first ∷ X) (tests_of sets.now)) }
{
    for set in sets {
        let mut longer = Vec::new(alloc);
        longer.push(first)?;
        longer.extend_from_slice(set)?;
        out.push(longer)?;
    }
    Ok(())
}

/// All sets of n elements, in the order of their leaf words.
pub fn sets(alloc: Global, n: usize) -> Result<Vec<Vec<bool>>, AllocError>
    ensures { IfOk result (λ v. tests_of v.items ≡ marks_spec.sets n) }
{
    let mut all = Vec::new(alloc);
    if n == 0 {
        all.push(Vec::new(alloc))?;
    } else {
        let smaller = sets(alloc, n - 1)?;
        push_longer(alloc, false, &smaller, &mut all)?;
        push_longer(alloc, true, &smaller, &mut all)?;
    }
    Ok(all)
}

/// The empty set of n elements.
pub fn none(alloc: Global, n: usize) -> Result<Vec<bool>, AllocError>
    ensures { IfOk result (λ v. v.items ≡ marks_spec.none n) }
{
    let mut tests = Vec::new(alloc);
    for _ in 0..n {
        tests.push(false)?;
    }
    Ok(tests)
}

/// The sets of one element of n, in leaf order.
pub fn singles(alloc: Global, n: usize) -> Result<Vec<Vec<bool>>, AllocError>
    ensures { IfOk result (λ v. tests_of v.items ≡ marks_spec.singles n) }
{
    let mut all = Vec::new(alloc);
    if n != 0 {
        let mut first = none(alloc, n - 1)?;
        first.insert(0, true)?;
        all.push(first)?;
        push_longer(alloc, false, &singles(alloc, n - 1)?, &mut all)?;
    }
    Ok(all)
}

/// What a quantifier ranges over, for n elements: all sets of them, or the sets of one.
fn choices(alloc: Global, domain: Domain, n: usize) -> Result<Vec<Vec<bool>>, AllocError>
    ensures { IfOk result (λ v. tests_of v.items ≡ choices_of domain n) }
{
    match domain {
        Domain::Sets => sets(alloc, n),
        Domain::Elements => singles(alloc, n),
    }
}

/// Whether a formula holds on a tree, where the marks of each element give the assignment.
#[cycle(meaning)]
pub fn holds(
    alloc: Global,
    f: Field,
    formula: &Formula,
    tree: &Tree,
    marks: &[Marks],
) -> Result<bool, AllocError>
    requires valid { IsValid f (tree_of tree.now) }
    requires small { matrix.internal (tree_of tree.now) < 2 ^ 32 }
    requires slots { SlotsBelow 16 formula.now }
    requires each { length marks.now ≡ size (tree_of tree.now) }
    ensures { IfOk result (λ b. b ≡ meaning.holds f (formula_of formula.now) (tree_of tree.now) (map marks_of marks.now)) }
{
    match formula {
        Formula::Const(b) => Ok(*b),
        Formula::Ind(term) => is_independent_union(alloc, f, tree, term, marks),
        Formula::Member(x, a) => Ok(some_has_both(marks, *x, *a)),
        Formula::SameElem(x, y) => Ok(some_has_both(marks, *x, *y)),
        Formula::Sub(a, b) => Ok(is_subset(marks, *a, *b)),
        Formula::SameSet(a, b) => Ok(is_same_set(marks, *a, *b)),
        Formula::Not(part) => Ok(!holds(alloc, f, part, tree, marks)?),
        Formula::Bin(connective, left, right) => {
            let first = holds(alloc, f, left, tree, marks)?;
            let second = holds(alloc, f, right, tree, marks)?;
            Ok(connect(*connective, first, second))
        }
        Formula::ExSet(k, part) => {
            holds_over(alloc, f, part, tree, *k, marks, Domain::Sets, true)
        }
        Formula::AllSet(k, part) => {
            holds_over(alloc, f, part, tree, *k, marks, Domain::Sets, false)
        }
        Formula::ExElem(k, part) => {
            holds_over(alloc, f, part, tree, *k, marks, Domain::Elements, true)
        }
        Formula::AllElem(k, part) => {
            holds_over(alloc, f, part, tree, *k, marks, Domain::Elements, false)
        }
    }
}

/// Whether a formula holds with some of the choices of a quantifier as slot k; or with each, where it is not `some`.
#[cycle(meaning)]
fn holds_over(
    alloc: Global,
    f: Field,
    formula: &Formula,
    tree: &Tree,
    k: usize,
    marks: &[Marks],
    domain: Domain,
    some: bool,
) -> Result<bool, AllocError>
    requires valid { IsValid f (tree_of tree.now) }
    requires small { matrix.internal (tree_of tree.now) < 2 ^ 32 }
    requires slots { SlotsBelow 16 formula.now }
    requires slot { k < 16 }
    requires each { length marks.now ≡ size (tree_of tree.now) }
    ensures { IfOk result (λ b. b ≡ truth_of some (holds_with f formula.now tree.now k marks.now) (choices_of domain (length marks.now))) }
{
    let choices = choices(alloc, domain, marks.len())?;
    for set in &choices {
        if holds(alloc, f, formula, tree, &assign(alloc, k, set, marks)?)? == some {
            return Ok(some);
        }
    }
    Ok(!some)
}
