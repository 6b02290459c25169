//! The least set of a formula on a small tree, by trying all sets.

ghost use Rattle.std.specs.Prelude.{◌≡◌, ◌<◌, map, length, All, IfOk, IfSome, IfNone};
ghost use Rattle.mm_logic.specs.Least as least_spec;
ghost use Rattle.mm_reference_meaning.specs.Asked.{CannotAskWith, IsAsked};
ghost use Rattle.mm_reference_meaning.specs.Formulas.{formula_of, marks_of, tests_of};
ghost use Rattle.mm_reference_meaning.specs.LeastSets.{IsAnswer, satisfying_sets, set_at};
ghost use Rattle.mm_reference_meaning.specs.Trees.{tree_of};

use crate::meaning::{Formula, Marks, assign, holds, sets};
use crate::tree::Tree;
use crate::validity::unmarked;
use mm_field::Field;
use std::alloc::{AllocError, Global};

/// What is found of the least set of a formula, whose sought variable is slot 0.
#[derive(Drop)]
pub enum LeastSet {
    /// No set satisfies the formula.
    Missing,
    /// The least set: whether each element, in leaf order, is in it.
    Found(Vec<bool>),
}

/// The weight of a set, by the weights of all elements. A sum of fewer than 2^63 of them has its place in 128 bits.
fn weight(weights: &[i64], set: &[bool]) -> i128
    requires { length set.now ≡ length weights.now }
    ensures { result ≡ least_spec.weight weights.now set.now }
{
    let mut sum = 0;
    for (i, w) in weights.iter().enumerate() {
        if set[i] {
            sum += i128::from(*w);
        }
    }
    sum
}

/// Whether the leaf word of the first set is the lesser of two.
fn precedes(first: &[bool], second: &[bool]) -> bool
    requires { length first.now ≡ length second.now }
    ensures { result ≡ least_spec.precedes first.now second.now }
{
    first < second
}

/// Whether the first set weighs less than the second, or as much and precedes it.
fn is_before(weights: &[i64], first: &[bool], second: &[bool]) -> bool
    requires first { length first.now ≡ length weights.now }
    requires second { length second.now ≡ length weights.now }
    ensures { result ≡ least_spec.is_before weights.now first.now second.now }
{
    let one = weight(weights, first);
    let other = weight(weights, second);
    one < other || (one == other && precedes(first, second))
}

/// The place of the first of some sets, by weight and then by leaf word.
fn first_place(weights: &[i64], sets: &[Vec<bool>]) -> Option<usize>
    requires { All (λ X. length X ≡ length weights.now) (tests_of sets.now) }
    ensures first { least_spec.first_set weights.now (tests_of sets.now) ≡ set_at (tests_of sets.now) result }
    ensures place { IfSome result (λ i. i < length sets.now) }
{
    if sets.is_empty() {
        return None;
    }
    let mut best = 0;
    for i in 1..sets.len() {
        if is_before(weights, &sets[i], &sets[best]) {
            best = i;
        }
    }
    Some(best)
}

/// The sets that satisfy a formula, in the order of their leaf words.
fn satisfying(
    alloc: Global,
    f: Field,
    formula: &Formula,
    tree: &Tree,
    marks: &[Marks],
) -> Result<Vec<Vec<bool>>, AllocError>
    requires { IsAsked f formula.now (tree_of tree.now) (map marks_of marks.now) }
    ensures { IfOk result (λ v. tests_of v.items ≡ satisfying_sets f (formula_of formula.now) (tree_of tree.now)) }
{
    let all = sets(alloc, marks.len())?;
    let mut kept = Vec::new(alloc);
    for set in &all {
        if holds(alloc, f, formula, tree, &assign(alloc, 0, set, marks)?)? {
            kept.push(set.to_vec(alloc)?)?;
        }
    }
    Ok(kept)
}

/// The least set of a formula on a tree, by the weights of the elements in leaf order: the first by weight, and then by leaf word,
/// of the sets that satisfy the formula. Nothing where the tree is not valid or has 2^32 internal rows or more, the formula names
/// more slots than an element has marks for, or there is not one weight for each element.
pub fn least(
    alloc: Global,
    f: Field,
    formula: &Formula,
    tree: &Tree,
    weights: &[i64],
) -> Result<Option<LeastSet>, AllocError>
    ensures none { IfOk result (λ answer. IfNone answer (CannotAskWith f formula.now (tree_of tree.now) (length weights.now))) }
    ensures some { IfOk result (λ answer. IfSome answer (IsAnswer f (formula_of formula.now) (tree_of tree.now) weights.now)) }
{
    match unmarked(alloc, f, formula, tree)? {
        None => Ok(None),
        Some(marks) => {
            if weights.len() != marks.len() {
                return Ok(None);
            }
            let mut kept = satisfying(alloc, f, formula, tree, &marks)?;
            match first_place(weights, &kept) {
                None => Ok(Some(LeastSet::Missing)),
                Some(i) => Ok(Some(LeastSet::Found(kept.swap_remove(i)))),
            }
        }
    }
}
