//! Whether a tree is valid and a formula names few slots, so that the program may be asked.

ghost use Rattle.std.specs.Prelude.{◌≡◌, ◌<◌, ◌≤◌, ◌^◌, ◌++◌, ◌↔◌, ℕ, false, true, All, length, map, IfOk, IfSome, IfNone};
ghost use Rattle.mm_field.specs.Digits.{order};
ghost use Rattle.mm_field.specs.Vectors.{AreDigits, AreVectors};
ghost use Rattle.mm_logic.specs.Operator.{IsBoundary, IsValidOp};
ghost use Rattle.mm_logic.specs.Marks as marks_spec;
ghost use Rattle.mm_logic.specs.PresentMatrix as matrix;
ghost use Rattle.mm_logic.specs.Tree.{IsValid, size};
ghost use Rattle.mm_reference_meaning.specs.Rows.{rows_of};
ghost use Rattle.mm_reference_meaning.specs.Trees.{tree_of, op_of};
ghost use Rattle.mm_reference_meaning.specs.Asked.{CanAsk, IsAsked};
ghost use Rattle.mm_reference_meaning.specs.Evaluation.{HoldsOn};
ghost use Rattle.mm_reference_meaning.specs.Formulas.{SlotsBelow, marks_of};

use crate::combinations::independent;
use crate::meaning::{Formula, Marks, holds};
use crate::tree::{Op, Tree, boundary};
use mm_field::Field;
use std::alloc::{AllocError, Global};

/// Whether these are digits of the field.
fn are_digits(f: Field, v: &[u8]) -> bool
    ensures yes { result ≡ true → AreDigits f v.now }
    ensures no { result ≡ false → AreDigits f v.now → ⊥ }
{
    for d in v {
        if *d >= f.q() {
            return false;
        }
    }
    true
}

/// Whether these are rows of r digits of the field.
fn are_vectors(f: Field, r: usize, rows: &[Vec<u8>]) -> bool
    ensures yes { result ≡ true → AreVectors f r (rows_of rows.now) }
    ensures no { result ≡ false → AreVectors f r (rows_of rows.now) → ⊥ }
{
    for row in rows {
        if row.len() != r || !are_digits(f, row) {
            return false;
        }
    }
    true
}

/// Whether these are t independent rows of r digits.
fn is_boundary(
    alloc: Global,
    f: Field,
    t: usize,
    r: usize,
    rows: &[Vec<u8>],
) -> Result<bool, AllocError>
    ensures yes { IfOk result (λ b. b ≡ true → IsBoundary f t r (rows_of rows.now)) }
    ensures no { IfOk result (λ b. b ≡ false → IsBoundary f t r (rows_of rows.now) → ⊥) }
{
    if rows.len() != t || !are_vectors(f, r, rows) {
        return Ok(false);
    }
    Ok(independent(alloc, f, r, rows)?)
}

/// Whether an operator is valid.
fn is_valid_op(alloc: Global, f: Field, op: &Op) -> Result<bool, AllocError>
    ensures yes { IfOk result (λ b. b ≡ true → IsValidOp f (op_of op.now)) }
    ensures no { IfOk result (λ b. b ≡ false → IsValidOp f (op_of op.now) → ⊥) }
{
    if op.t1 > 6 || op.t2 > 6 || op.t3 > 6 || op.c > 12 {
        return Ok(false);
    }
    let r = op.t3 + op.c;
    let first = is_boundary(alloc, f, op.t1, r, &op.g1)?;
    let second = is_boundary(alloc, f, op.t2, r, &op.g2)?;
    let third = is_boundary(alloc, f, op.t3, r, &op.g3)?;
    Ok(first && second && third)
}

/// Whether a tree is valid.
pub fn is_valid(alloc: Global, f: Field, tree: &Tree) -> Result<bool, AllocError>
    ensures yes { IfOk result (λ b. b ≡ true → IsValid f (tree_of tree.now)) }
    ensures no { IfOk result (λ b. b ≡ false → IsValid f (tree_of tree.now) → ⊥) }
{
    match tree {
        Tree::Elem(vector) => Ok(are_digits(f, vector) && vector.len() <= 6),
        Tree::Void(t) => Ok(*t <= 6),
        Tree::Join(op, left, right) => {
            if !is_valid_op(alloc, f, op)? || boundary(left) != op.t1 || boundary(right) != op.t2 {
                return Ok(false);
            }
            let first = is_valid(alloc, f, left)?;
            let second = is_valid(alloc, f, right)?;
            Ok(first && second)
        }
    }
}

/// How many internal rows the matrix of a tree has, if they are fewer than 2^32.
fn few_internal(tree: &Tree) -> Option<usize>
    ensures few { IfSome result (λ n. (n ≡ matrix.internal (tree_of tree.now)) × (n < 2 ^ 32)) }
    ensures many { IfNone result (2 ^ 32 ≤ matrix.internal (tree_of tree.now)) }
{
    match tree {
        Tree::Elem(_) | Tree::Void(_) => Some(0),
        Tree::Join(op, left, right) => {
            let below = few_internal(left)? + few_internal(right)?;
            let all = op.c.checked_add(below)?;
            if all < 4_294_967_296 { Some(all) } else { None }
        }
    }
}

/// Whether a formula names no slot but those that an element has marks for.
fn has_few_slots(formula: &Formula) -> bool
    ensures yes { result ≡ true → SlotsBelow 16 formula.now }
    ensures no { result ≡ false → SlotsBelow 16 formula.now → ⊥ }
{
    match formula {
        Formula::Const(_) => true,
        Formula::Ind(term) => are_few(&term.slots),
        Formula::Member(x, y)
        | Formula::SameElem(x, y)
        | Formula::Sub(x, y)
        | Formula::SameSet(x, y) => *x < 16 && *y < 16,
        Formula::Not(part) => has_few_slots(part),
        Formula::Bin(_, left, right) => has_few_slots(left) && has_few_slots(right),
        Formula::ExSet(k, part)
        | Formula::AllSet(k, part)
        | Formula::ExElem(k, part)
        | Formula::AllElem(k, part) => { *k < 16 && has_few_slots(part) }
    }
}

/// Whether these slots are among those that an element has marks for.
fn are_few(slots: &[usize]) -> bool
    ensures yes { result ≡ true → All (λ k. k < 16) slots.now }
    ensures no { result ≡ false → All (λ k. k < 16) slots.now → ⊥ }
{
    for k in slots {
        if *k >= 16 {
            return false;
        }
    }
    true
}

/// Puts an element without marks, for each element of the tree, after what is there.
pub fn push_unmarked(tree: &Tree, out: &mut Vec<Marks>) -> Result<(), AllocError>
    ensures { IfOk result (λ _. map marks_of out.new.items ≡ map marks_of out.old.items ++ marks_spec.unmarked (size (tree_of tree.now))) }
{
    match tree {
        Tree::Elem(_) => out.push([false; 16])?,
        Tree::Void(_) => {}
        Tree::Join(_, left, right) => {
            push_unmarked(left, out)?;
            push_unmarked(right, out)?;
        }
    }
    Ok(())
}

/// The elements of a tree without marks; nothing where the program may not be asked.
pub fn unmarked(
    alloc: Global,
    f: Field,
    formula: &Formula,
    tree: &Tree,
) -> Result<Option<Vec<Marks>>, AllocError>
    ensures some { IfOk result (λ asked. IfSome asked (λ marks. IsAsked f formula.now (tree_of tree.now) (map marks_of marks.items))) }
    ensures none { IfOk result (λ asked. IfNone asked (CanAsk f formula.now (tree_of tree.now) → ⊥)) }
{
    if !has_few_slots(formula) || !is_valid(alloc, f, tree)? || few_internal(tree).is_none() {
        return Ok(None);
    }
    let mut marks = Vec::new(alloc);
    push_unmarked(tree, &mut marks)?;
    Ok(Some(marks))
}

/// Whether a formula without free variables holds on a tree; nothing where the tree is not valid or has 2^32 internal rows or more,
/// or the formula names more slots than an element has marks for.
pub fn decide(
    alloc: Global,
    f: Field,
    formula: &Formula,
    tree: &Tree,
) -> Result<Option<bool>, AllocError>
    ensures none { IfOk result (λ answer. IfNone answer (CanAsk f formula.now (tree_of tree.now) → ⊥)) }
    ensures some { IfOk result (λ answer. IfSome answer (λ b. (b ≡ true) ↔ HoldsOn f formula.now tree.now)) }
{
    match unmarked(alloc, f, formula, tree)? {
        None => Ok(None),
        Some(marks) => Ok(Some(holds(alloc, f, formula, tree, &marks)?)),
    }
}
