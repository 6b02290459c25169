//! The state size of a tree, by listing the types at all nodes.

ghost use Rattle.std.specs.Prelude.{◌≡◌, ◌<◌, ◌^◌, ◌+◌, ◌++◌, ℕ, map, flat_map, length, sum_by, IfOk, IfSome, IfNone};
ghost use Rattle.mm_logic.specs.Occurrence as occurrence;
ghost use Rattle.mm_logic.specs.PresentMatrix as matrix;
ghost use Rattle.mm_logic.specs.StateSize as state_sizes;
ghost use Rattle.mm_logic.specs.Tree.{IsValid};
ghost use Rattle.mm_logic.specs.Value as value_spec;
ghost use Rattle.mm_reference_meaning.specs.Formulas.{formula_of, SlotsBelow};
ghost use Rattle.mm_reference.specs.Sizes.{IsCount, CannotCount, query_of, size_of, types_of};
ghost use Rattle.mm_reference_meaning.specs.Trees.{tree_of};
ghost use Rattle.mm_reference.specs.Values.{value_of, values_of, seen_of};

use crate::types::{read_type, types_over};
use crate::values::{Value, compare};
use mm_field::Field;
use mm_reference_meaning::{Formula, Tree, push_unmarked, sets, unmarked};
use std::alloc::{AllocError, Global};

/// What is asked of a tree with a formula.
#[derive(Clone, Copy)]
pub enum Question {
    /// Whether the formula, which has no free variables, holds.
    Decide,
    /// The least set that satisfies the formula as its one free variable, slot 0.
    Least,
}

/// The first part of a pair.
fn first(value: &Value) -> &Value
    ensures { value_of result.now ≡ value_spec.first (value_of value.now) }
{
    match value {
        Value::Pair(first, _) => first,
        _ => value,
    }
}

/// The second part of a pair.
fn second(value: &Value) -> &Value
    ensures { value_of result.now ≡ value_spec.second (value_of value.now) }
{
    match value {
        Value::Pair(_, second) => second,
        _ => value,
    }
}

/// The first parts of some pairs.
fn firsts<'a>(alloc: Global, values: &[&'a Value]) -> Result<Vec<&'a Value>, AllocError>
    ensures { IfOk result (λ v. seen_of v.items ≡ map value_spec.first (seen_of values.now)) }
{
    let mut parts = Vec::new(alloc);
    for value in values {
        parts.push(first(value))?;
    }
    Ok(parts)
}

/// The second parts of some pairs.
fn seconds<'a>(alloc: Global, values: &[&'a Value]) -> Result<Vec<&'a Value>, AllocError>
    ensures { IfOk result (λ v. seen_of v.items ≡ map value_spec.second (seen_of values.now)) }
{
    let mut parts = Vec::new(alloc);
    for value in values {
        parts.push(second(value))?;
    }
    Ok(parts)
}

/// Puts the members of a set after what is there.
fn push_members<'a>(value: &'a Value, out: &mut Vec<&'a Value>) -> Result<(), AllocError>
    ensures { IfOk result (λ _. seen_of out.new.items ≡ seen_of out.old.items ++ value_spec.members (value_of value.now)) }
{
    if let Value::With(least, rest) = value {
        out.push(least)?;
        push_members(rest, out)?;
    }
    Ok(())
}

/// The members of some sets.
fn members<'a>(alloc: Global, values: &[&'a Value]) -> Result<Vec<&'a Value>, AllocError>
    ensures { IfOk result (λ v. seen_of v.items ≡ flat_map value_spec.members (seen_of values.now)) }
{
    let mut parts = Vec::new(alloc);
    for value in values {
        push_members(value, &mut parts)?;
    }
    Ok(parts)
}

/// The unassigned parts and the members of some values of an element quantifier.
fn elem_parts<'a>(alloc: Global, values: &[&'a Value]) -> Result<Vec<&'a Value>, AllocError>
    ensures { IfOk result (λ v. seen_of v.items ≡ flat_map occurrence.elem_parts (seen_of values.now)) }
{
    let mut parts = Vec::new(alloc);
    for value in values {
        parts.push(first(value))?;
        push_members(second(value), &mut parts)?;
    }
    Ok(parts)
}

/// The sum of two counts; nothing where it is 2^64 or more, or one of them is.
fn add(first: Option<u64>, second: Option<u64>) -> Option<u64>
    ensures { (m n : ℕ) → IsCount m first → IsCount n second → IsCount (m + n) result }
{
    match first {
        None => None,
        Some(m) => match second {
            None => None,
            Some(n) => m.checked_add(n),
        },
    }
}

/// How many members a set has.
fn count_members(set: &Value) -> Option<u64>
    ensures { IsCount (length (value_spec.members (value_of set.now))) result }
{
    match set {
        Value::With(_, rest) => add(Some(1), count_members(rest)),
        _ => Some(0),
    }
}

/// The cells of one value at a node of a formula.
fn own_cells(formula: &Formula, value: &Value) -> Option<u64>
    ensures { IsCount (occurrence.own_cells (formula_of formula.now) (value_of value.now)) result }
{
    match formula {
        Formula::ExSet(_, _) | Formula::AllSet(_, _) => add(Some(1), count_members(value)),
        Formula::ExElem(_, _) | Formula::AllElem(_, _) => {
            add(Some(1), count_members(second(value)))
        }
        _ => Some(1),
    }
}

/// Whether a value is one of some values.
fn is_among(values: &[&Value], value: &Value) -> bool
    ensures { result ≡ occurrence.is_among (seen_of values.now) (value_of value.now) }
{
    for other in values {
        if compare(value, other).is_eq() {
            return true;
        }
    }
    false
}

/// The cells of the different ones of some values at a node of a formula.
fn distinct_cells(formula: &Formula, values: &[&Value]) -> Option<u64>
    ensures { IsCount (sum_by (occurrence.own_cells (formula_of formula.now)) (occurrence.distinct (seen_of values.now))) result }
{
    let mut sum = Some(0);
    for (i, value) in values.iter().enumerate() {
        if !is_among(&values[..i], value) {
            sum = add(sum, own_cells(formula, value));
        }
    }
    sum
}

/// How many different values there are among some values.
fn count_distinct(values: &[&Value]) -> Option<u64>
    ensures { IsCount (length (occurrence.distinct (seen_of values.now))) result }
{
    let mut sum = Some(0);
    for (i, value) in values.iter().enumerate() {
        if !is_among(&values[..i], value) {
            sum = add(sum, Some(1));
        }
    }
    sum
}

/// The cells of some types of a formula.
fn cells(alloc: Global, formula: &Formula, values: &[&Value]) -> Result<Option<u64>, AllocError>
    ensures { IfOk result (IsCount (occurrence.cells (formula_of formula.now) (seen_of values.now))) }
{
    let own = distinct_cells(formula, values);
    match formula {
        Formula::Not(part) => cells(alloc, part, values),
        Formula::Bin(_, left, right) => {
            let of_firsts = cells(alloc, left, &firsts(alloc, values)?)?;
            let of_seconds = cells(alloc, right, &seconds(alloc, values)?)?;
            Ok(add(own, add(of_firsts, of_seconds)))
        }
        Formula::ExSet(_, part) | Formula::AllSet(_, part) => {
            Ok(add(own, cells(alloc, part, &members(alloc, values)?)?))
        }
        Formula::ExElem(_, part) | Formula::AllElem(_, part) => {
            Ok(add(own, cells(alloc, part, &elem_parts(alloc, values)?)?))
        }
        _ => Ok(own),
    }
}

/// The values, to be looked at.
fn seen<'a>(alloc: Global, values: &'a [Value]) -> Result<Vec<&'a Value>, AllocError>
    ensures { IfOk result (λ v. seen_of v.items ≡ values_of values.now) }
{
    let mut all = Vec::new(alloc);
    for value in values {
        all.push(value)?;
    }
    Ok(all)
}

/// The types of a formula at a tree: the one type where it is decided, the types over all sets of elements where its least set is
/// sought.
fn types_at(
    alloc: Global,
    f: Field,
    question: Question,
    formula: &Formula,
    tree: &Tree,
) -> Result<Vec<Value>, AllocError>
    requires valid { IsValid f (tree_of tree.now) }
    requires small { matrix.internal (tree_of tree.now) < 2 ^ 32 }
    requires slots { SlotsBelow 16 formula.now }
    ensures { IfOk result (λ v. values_of v.items ≡ state_sizes.types_at f (query_of question formula.now) (tree_of tree.now)) }
{
    let mut marks = Vec::new(alloc);
    push_unmarked(tree, &mut marks)?;
    match question {
        Question::Decide => {
            let mut one = Vec::new(alloc);
            one.push(read_type(alloc, f, formula, tree, &marks)?)?;
            Ok(one)
        }
        Question::Least => {
            let all = sets(alloc, marks.len())?;
            types_over(alloc, f, formula, tree, 0, &all, &marks)
        }
    }
}

/// Puts the types of a formula at the nodes of a tree after what is there.
fn push_types(
    alloc: Global,
    f: Field,
    question: Question,
    formula: &Formula,
    tree: &Tree,
    out: &mut Vec<Value>,
) -> Result<(), AllocError>
    requires valid { IsValid f (tree_of tree.now) }
    requires small { matrix.internal (tree_of tree.now) < 2 ^ 32 }
    requires slots { SlotsBelow 16 formula.now }
    ensures { IfOk result (λ _. values_of out.new.items ≡ values_of out.old.items ++ types_of f question formula.now tree.now) }
{
    let mut here = types_at(alloc, f, question, formula, tree)?;
    out.append(&mut here)?;
    if let Tree::Join(_, left, right) = tree {
        push_types(alloc, f, question, formula, left, out)?;
        push_types(alloc, f, question, formula, right, out)?;
    }
    Ok(())
}

/// How many different types of a formula there are at the nodes of a tree, counted node by node.
fn rows(
    alloc: Global,
    f: Field,
    question: Question,
    formula: &Formula,
    tree: &Tree,
) -> Result<Option<u64>, AllocError>
    requires valid { IsValid f (tree_of tree.now) }
    requires small { matrix.internal (tree_of tree.now) < 2 ^ 32 }
    requires slots { SlotsBelow 16 formula.now }
    ensures { IfOk result (IsCount (state_sizes.rows f (query_of question formula.now) (tree_of tree.now))) }
{
    let here = count_distinct(&seen(alloc, &types_at(alloc, f, question, formula, tree)?)?);
    match tree {
        Tree::Elem(_) | Tree::Void(_) => Ok(here),
        Tree::Join(_, left, right) => {
            let below_left = rows(alloc, f, question, formula, left)?;
            let below_right = rows(alloc, f, question, formula, right)?;
            Ok(add(here, add(below_left, below_right)))
        }
    }
}

/// The state size of a tree for a formula that is decided or whose least set is sought: the cells of the types at all nodes, and
/// the rows of the tree. Nothing where the tree is not valid or has 2^32 internal rows or more, the formula names more slots than an
/// element has marks for, or the state size is 2^64 or more.
pub fn state_size(
    alloc: Global,
    f: Field,
    question: Question,
    formula: &Formula,
    tree: &Tree,
) -> Result<Option<u64>, AllocError>
    ensures none { IfOk result (λ answer. IfNone answer (CannotCount f question formula.now tree.now)) }
    ensures some { IfOk result (λ answer. IfSome answer (λ n. n ≡ size_of f question formula.now tree.now)) }
{
    if unmarked(alloc, f, formula, tree)?.is_none() {
        return Ok(None);
    }
    let mut types = Vec::new(alloc);
    push_types(alloc, f, question, formula, tree, &mut types)?;
    let of_types = cells(alloc, formula, &seen(alloc, &types)?)?;
    Ok(add(of_types, rows(alloc, f, question, formula, tree)?))
}
