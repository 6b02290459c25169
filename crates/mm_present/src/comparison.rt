//! The comparison of a given matrix with the matrix of a tree.

ghost use Rattle.std.specs.Prelude.{◌≡◌, ◌<◌, ◌+◌, ◌^◌, IfOk, IfSome, length, map, All};
ghost use Rattle.std.specs.List.{IsDistinct, position};
ghost use Rattle.std.specs.Str.{bytes_eq};
ghost use Rattle.mm_present.specs.Comparing.{compared, compared_rows, digit_at, first_missing, first_outside, present_rows};
ghost use Rattle.mm_logic.specs.Tree as shapes;
ghost use Rattle.mm_tree.specs.NamedTree.{shape};
ghost use Rattle.mm_present.specs.Ordering.{IsPlaceBelow};

use crate::Named;
use crate::dependencies::first_given_outside;
use crate::images::are_seen_inside;
use crate::present::matrix_of;
use indexmap::IndexSet;
use mm_base::{Name, NameList, NoMemory};
use mm_field::Field;
use mm_matrix::{Echelon, Matrix, first_outside_bits};
use mm_tree::Tree;
use std::alloc::Global;

/// How a given matrix and the matrix of a tree compare: the first difference, or none.
#[derive(Clone, Copy, Debug, PartialEq, Eq)]
pub enum Verdict {
    /// Both have the same elements and the same row space.
    Same,
    /// The first given name that is no element of the tree, else the first element, in leaf order, that is not given.
    Elements(Name),
    /// The least given row, counted from 1, that is outside the row space of the tree's matrix.
    Given(usize),
    /// The least row of the tree's matrix, counted from 1, that is outside the row space of the given rows.
    Present(usize),
}

/// The set of different names, in their order.
fn set_of(alloc: Global, names: &NameList) -> Result<IndexSet<Name>, NoMemory>
    requires { IsDistinct bytes_eq names.now }
    ensures { IfOk result (λ set. set.keys ≡ names.now) }
{
    let mut set = IndexSet::new(alloc);
    for k in 0..names.len() {
        if set.insert(names.at(k)).is_err() {
            return Err(NoMemory);
        }
    }
    Ok(set)
}

/// The first of the names that is not in the set. None exactly where all are.
pub fn first_missing(names: &NameList, others: &IndexSet<Name>) -> Option<Name>
    ensures { result ≡ first_missing names.now others.now.keys }
{
    for k in 0..names.len() {
        let name = names.at(k);
        if !others.contains(&name) {
            return Some(name);
        }
    }
    None
}

/// The places of the names in the set.
fn places_of(
    alloc: Global,
    names: &NameList,
    set: &IndexSet<Name>,
) -> Result<Vec<Option<usize>>, NoMemory>
    ensures { IfOk result (λ places. places.items ≡ map (λ name. position (bytes_eq name) set.now.keys) names.now) }
{
    let mut places = Vec::new(alloc);
    for k in 0..names.len() {
        places.push(set.get_index_of(&names.at(k)))?;
    }
    Ok(places)
}

/// The digits of a row at some places, with 0 where there is no place.
fn digits_at(alloc: Global, row: &[u8], places: &[Option<usize>]) -> Result<Vec<u8>, NoMemory>
    requires { All (λ place. IsPlaceBelow (length row.now) place) places.now }
    ensures { IfOk result (λ digits. digits.items ≡ map (digit_at row.now) places.now) }
{
    let mut digits = Vec::new(alloc);
    for k in 0..places.len() {
        let digit = match places[k] {
            Some(i) => row[i],
            None => 0,
        };
        digits.push(digit)?;
    }
    Ok(digits)
}

/// The rows with their columns in another order.
fn in_order(alloc: Global, rows: &Matrix, places: &[Option<usize>]) -> Result<Matrix, NoMemory>
    requires { All (λ place. IsPlaceBelow rows.now.cols place) places.now }
    ensures { IfOk result (λ m. m ≡ record { f = rows.now.f; cols = length places.now; rows = map (λ row. map (digit_at row) places.now) rows.now.rows }) }
{
    let mut ordered = Matrix::new(alloc, rows.field(), places.len());
    for i in 0..rows.rows() {
        let digits = digits_at(alloc, rows.row(i), places)?;
        ordered.push_row(alloc, &digits)?;
    }
    Ok(ordered)
}

/// The first of some rows over GF(2), counted from 0, that is outside the row space of others.
fn outside_by_bits(alloc: Global, rows: &Matrix, others: &Matrix) -> Result<Option<usize>, NoMemory>
    requires two { rows.now.f ≡ Field.Two }
    requires field { others.now.f ≡ rows.now.f }
    requires columns { others.now.cols ≡ rows.now.cols }
    ensures first { IfOk result (λ found. found ≡ first_outside rows.now.f rows.now.cols rows.now.rows others.now.rows) }
    ensures small { IfOk result (λ found. IfSome found (λ i. i + 1 < 2 ^ 64)) }
{
    let _ = rows.rows();
    let _ = others.rows();
    let found = first_outside_bits(alloc, rows, others)?;
    Ok(found)
}

/// The first of some rows, counted from 0, that is outside the row space of others.
fn outside(alloc: Global, rows: &Matrix, others: &Matrix) -> Result<Option<usize>, NoMemory>
    requires field { others.now.f ≡ rows.now.f }
    requires columns { others.now.cols ≡ rows.now.cols }
    ensures first { IfOk result (λ found. found ≡ first_outside rows.now.f rows.now.cols rows.now.rows others.now.rows) }
    ensures small { IfOk result (λ found. IfSome found (λ i. i + 1 < 2 ^ 64)) }
{
    let _ = rows.rows();
    if let Field::Two = rows.field() {
        return outside_by_bits(alloc, rows, others);
    }
    let space = Echelon::of(alloc, others)?;
    let found = space.first_outside(alloc, rows)?;
    Ok(found)
}

/// The first row of a given matrix, or of the tree's matrix, that is outside the row space of the other.
fn compare_rows(alloc: Global, given: &Matrix, tree: &Tree) -> Result<Verdict, NoMemory>
    requires field { given.now.f ≡ tree.now.f }
    requires columns { given.now.cols ≡ shapes.size (shape tree.now.tree) }
    ensures { IfOk result (λ v. v ≡ compared_rows given.now.f given.now.cols given.now.rows (present_rows tree.now.f tree.now.tree)) }
{
    if let Some(i) = first_given_outside(alloc, given, tree)? {
        return Ok(Verdict::Given(i + 1));
    }
    if are_seen_inside(alloc, given, tree)? {
        return Ok(Verdict::Same);
    }
    let present = matrix_of(alloc, tree)?;
    match outside(alloc, &present.rows, given)? {
        Some(j) => Ok(Verdict::Present(j + 1)),
        None => Ok(Verdict::Same),
    }
}

/// The first difference of a given matrix and the matrix of the tree: a given name that is no element, an element that is not given,
/// the least given row outside the row space of the tree's matrix, the least row of the tree's matrix outside the given row space.
pub fn compare(alloc: Global, given: &Named, tree: &Tree) -> Result<Verdict, NoMemory>
    requires field { given.now.rows.f ≡ tree.now.f }
    requires columns { given.now.rows.cols ≡ length given.now.names }
    requires different { IsDistinct bytes_eq given.now.names }
    ensures { IfOk result (λ v. v ≡ compared tree.now.f (record { names = given.now.names; rows = given.now.rows.rows }) tree.now.tree) }
{
    let elements = tree.elements(alloc)?;
    let given_names = set_of(alloc, &given.names)?;
    let element_names = set_of(alloc, &elements)?;
    if let Some(name) = first_missing(&given.names, &element_names) {
        return Ok(Verdict::Elements(name));
    }
    if let Some(name) = first_missing(&elements, &given_names) {
        return Ok(Verdict::Elements(name));
    }
    let places = places_of(alloc, &elements, &given_names)?;
    let ordered = in_order(alloc, &given.rows, &places)?;
    compare_rows(alloc, &ordered, tree)
}
