//! The type of a formula on a small tree, by trying all sets and all elements.

ghost use Rattle.std.specs.Prelude.{◌≡◌, ◌<◌, ◌^◌, map, length, All, if◌then◌else◌, IfOk, IfSome, IfNone};
ghost use Rattle.mm_logic.specs.AtomValues as atoms;
ghost use Rattle.mm_logic.specs.BoundarySpaces as boundary_spaces;
ghost use Rattle.mm_logic.specs.Formula.Formula.{ExSet, ExElem};
ghost use Rattle.mm_logic.specs.PresentMatrix as matrix;
ghost use Rattle.mm_logic.specs.Tree.{IsValid, size};
ghost use Rattle.mm_logic.specs.Types as types;
ghost use Rattle.mm_logic.specs.Value as value_spec;
ghost use Rattle.mm_reference_meaning.specs.Asked.{CannotAskWith};
ghost use Rattle.mm_reference_meaning.specs.Evaluation.{union_of};
ghost use Rattle.mm_reference.specs.Types.{type_at, type_with};
ghost use Rattle.mm_reference_meaning.specs.Formulas.{formula_of, SlotsBelow, marks_of, tests_of, any_has, any_has_both};
ghost use Rattle.mm_reference_meaning.specs.Trees.{tree_of};
ghost use Rattle.mm_reference.specs.Values.{value_of, values_of};

use crate::spaces::boundary_space;
use crate::values::{Value, collected, pair};
use mm_field::Field;
use mm_reference_meaning::{
    Formula, Marks, Term, Tree, assign, boundary, independent, internal, is_same_set, is_subset,
    none, sets, singles, some_has_both, union_columns, unmarked,
};
use std::alloc::{AllocError, Global};

/// Whether some element has the slot.
fn some_has(marks: &[Marks], x: usize) -> bool
    requires { x < 16 }
    ensures { result ≡ any_has x marks.now }
{
    marks.iter().any(|m| m[x])
}

/// The type of an inclusion or of an equality of sets.
fn holding(holds: bool) -> Value
    ensures { value_of result ≡ atoms.holding holds }
{
    if holds {
        Value::Flag(0)
    } else {
        Value::Flag(1)
    }
}

/// The type of `x in X`, for the slots of both.
fn member_type(marks: &[Marks], x: usize, a: usize) -> Value
    requires first { x < 16 }
    requires second { a < 16 }
    ensures { value_of result ≡ (if any_has x marks.now then atoms.member (any_has_both x a marks.now) else atoms.unseen) }
{
    if !some_has(marks, x) {
        Value::Flag(0)
    } else if some_has_both(marks, x, a) {
        Value::Flag(1)
    } else {
        Value::Flag(2)
    }
}

/// The type of `x = y`, for the slots of both.
fn same_elem_type(marks: &[Marks], x: usize, y: usize) -> Value
    requires first { x < 16 }
    requires second { y < 16 }
    ensures { value_of result ≡ atoms.same_elem (any_has x marks.now) (any_has y marks.now) (any_has_both x y marks.now) }
{
    match (some_has(marks, x), some_has(marks, y)) {
        (false, false) => Value::Flag(0),
        (true, false) => Value::Flag(1),
        (false, true) => Value::Flag(2),
        (true, true) => {
            if some_has_both(marks, x, y) {
                Value::Flag(3)
            } else {
                Value::Flag(4)
            }
        }
    }
}

/// The type of `ind`: the boundary space of the union of a term, if the union is independent.
fn ind_type(
    alloc: Global,
    f: Field,
    tree: &Tree,
    term: &Term,
    marks: &[Marks],
) -> Result<Value, AllocError>
    requires valid { IsValid f (tree_of tree.now) }
    requires small { matrix.internal (tree_of tree.now) < 2 ^ 32 }
    requires slots { All (λ k. k < 16) term.now.slots.items }
    requires each { length marks.now ≡ size (tree_of tree.now) }
    ensures { IfOk result (λ v. value_of v ≡ boundary_spaces.ind_type f (tree_of tree.now) (union_of term.now marks.now)) }
{
    let some = union_columns(alloc, f, tree, term, marks)?;
    let t = boundary(tree);
    let m = internal(tree);
    if !independent(alloc, f, t + m, &some)? {
        return Ok(Value::Dead);
    }
    Ok(Value::Span(t, boundary_space(alloc, f, t, m, &some)?))
}

/// The type of a formula at a tree, where the marks of each element give the assignment.
#[cycle(typing)]
pub fn read_type(
    alloc: Global,
    f: Field,
    formula: &Formula,
    tree: &Tree,
    marks: &[Marks],
) -> Result<Value, AllocError>
    requires valid { IsValid f (tree_of tree.now) }
    requires small { matrix.internal (tree_of tree.now) < 2 ^ 32 }
    requires slots { SlotsBelow 16 formula.now }
    requires each { length marks.now ≡ size (tree_of tree.now) }
    ensures { IfOk result (λ v. value_of v ≡ type_at f formula.now tree.now marks.now) }
{
    match formula {
        Formula::Const(_) => Ok(Value::Flag(0)),
        Formula::Ind(term) => ind_type(alloc, f, tree, term, marks),
        Formula::Member(x, a) => Ok(member_type(marks, *x, *a)),
        Formula::SameElem(x, y) => Ok(same_elem_type(marks, *x, *y)),
        Formula::Sub(a, b) => Ok(holding(is_subset(marks, *a, *b))),
        Formula::SameSet(a, b) => Ok(holding(is_same_set(marks, *a, *b))),
        Formula::Not(part) => read_type(alloc, f, part, tree, marks),
        Formula::Bin(_, left, right) => {
            let first = read_type(alloc, f, left, tree, marks)?;
            let second = read_type(alloc, f, right, tree, marks)?;
            pair(alloc, first, second)
        }
        Formula::ExSet(k, part) | Formula::AllSet(k, part) => {
            set_type(alloc, f, part, tree, *k, marks)
        }
        Formula::ExElem(k, part) | Formula::AllElem(k, part) => {
            elem_type(alloc, f, part, tree, *k, marks)
        }
    }
}

/// The type of a set quantifier with slot k over a formula: the set of the types over all sets of elements.
#[cycle(typing)]
fn set_type(
    alloc: Global,
    f: Field,
    part: &Formula,
    tree: &Tree,
    k: usize,
    marks: &[Marks],
) -> Result<Value, AllocError>
    requires valid { IsValid f (tree_of tree.now) }
    requires small { matrix.internal (tree_of tree.now) < 2 ^ 32 }
    requires slots { SlotsBelow 16 part.now }
    requires slot { k < 16 }
    requires each { length marks.now ≡ size (tree_of tree.now) }
    ensures { IfOk result (λ v. value_of v ≡ types.type_of f (ExSet k (formula_of part.now)) (tree_of tree.now) (map marks_of marks.now)) }
{
    let all = sets(alloc, marks.len())?;
    Ok(collected(alloc, types_over(alloc, f, part, tree, k, &all, marks)?)?)
}

/// The type of an element quantifier with slot k over a formula: the type with the slot unassigned, and the set of the types over
/// all elements.
#[cycle(typing)]
fn elem_type(
    alloc: Global,
    f: Field,
    part: &Formula,
    tree: &Tree,
    k: usize,
    marks: &[Marks],
) -> Result<Value, AllocError>
    requires valid { IsValid f (tree_of tree.now) }
    requires small { matrix.internal (tree_of tree.now) < 2 ^ 32 }
    requires slots { SlotsBelow 16 part.now }
    requires slot { k < 16 }
    requires each { length marks.now ≡ size (tree_of tree.now) }
    ensures { IfOk result (λ v. value_of v ≡ types.type_of f (ExElem k (formula_of part.now)) (tree_of tree.now) (map marks_of marks.now)) }
{
    let nowhere = none(alloc, marks.len())?;
    let unassigned = read_type(alloc, f, part, tree, &assign(alloc, k, &nowhere, marks)?)?;
    let all = singles(alloc, marks.len())?;
    let assigned = types_over(alloc, f, part, tree, k, &all, marks)?;
    Ok(pair(alloc, unassigned, collected(alloc, assigned)?)?)
}

/// The types of a formula with each of the sets as slot k.
#[cycle(typing)]
pub fn types_over(
    alloc: Global,
    f: Field,
    formula: &Formula,
    tree: &Tree,
    k: usize,
    sets: &[Vec<bool>],
    marks: &[Marks],
) -> Result<Vec<Value>, AllocError>
    requires valid { IsValid f (tree_of tree.now) }
    requires small { matrix.internal (tree_of tree.now) < 2 ^ 32 }
    requires slots { SlotsBelow 16 formula.now }
    requires slot { k < 16 }
    requires each { length marks.now ≡ size (tree_of tree.now) }
    requires sets { All (λ X. length X ≡ length marks.now) (tests_of sets.now) }
    ensures { IfOk result (λ v. values_of v.items ≡ map (type_with f formula.now tree.now k marks.now) (tests_of sets.now)) }
{
    let mut types = Vec::new(alloc);
    for set in sets {
        types.push(read_type(alloc, f, formula, tree, &assign(alloc, k, set, marks)?)?)?;
    }
    Ok(types)
}

/// The type of a formula at a tree, where the marks of each element, in leaf order, give the assignment. Nothing where the tree is
/// not valid or has 2^32 internal rows or more, the formula names more slots than an element has marks for, or there are not as
/// many marks as elements.
pub fn type_of(
    alloc: Global,
    f: Field,
    formula: &Formula,
    tree: &Tree,
    marks: &[Marks],
) -> Result<Option<Value>, AllocError>
    ensures none { IfOk result (λ answer. IfNone answer (CannotAskWith f formula.now (tree_of tree.now) (length marks.now))) }
    ensures some { IfOk result (λ answer. IfSome answer (λ v. value_of v ≡ type_at f formula.now tree.now marks.now)) }
{
    match unmarked(alloc, f, formula, tree)? {
        None => Ok(None),
        Some(elements) => {
            if elements.len() != marks.len() {
                return Ok(None);
            }
            Ok(Some(read_type(alloc, f, formula, tree, marks)?))
        }
    }
}
