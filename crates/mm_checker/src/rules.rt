//! What the leaf rule and the join rule give, from earlier claims.

ghost use Rattle.std.specs.Prelude.{◌≡◌, ◌<◌, ◌+◌, ◌++◌, ◌∷◌, [], All, true, Some, None, List, is_some, if◌then◌else◌, ℕ, map, IfOk, length, take, slice_index_or};
ghost use Rattle.std.specs.List.Sorted.{IsNonDecreasingBy};
ghost use Rattle.std.specs.Ordering.{nat_cmp};
ghost use Rattle.mm_logic.specs.Order.{normal};
ghost use Rattle.mm_logic.specs.AtomValues.{member, holding, same_elem, same_elem_join, member_join, holding_join, unseen};
ghost use Rattle.mm_logic.specs.BoundarySpaces.{ind_join};
ghost use Rattle.mm_logic.specs.Operator.{Op as JoinOp};
ghost use Rattle.mm_field.specs.declared.Field.{Field};
ghost use Rattle.mm_logic.specs.Marks.{in_term};
ghost use Rattle.mm_logic.specs.Value.{Value as value};
ghost use Rattle.mm_logic.specs.Formula.{Formula};
ghost use Rattle.mm_logic.specs.Formula.{Formula as formula};
ghost use Rattle.mm_tree.specs.Nodes.{named_leaf};
ghost use Rattle.mm_checker.specs.Places.{first_part};
ghost use Rattle.mm_checker.specs.KeptPlaces.{IsPlace, HasSlots, HasContent, IsSide, IsPut, IsSetOf, IsLeaf};
ghost use Rattle.mm_checker.specs.declared.certificate.Content.TheVariants as content;
ghost use Rattle.mm_checker.specs.Claims.{GlueClaims, marks_of, without_slot, with_slot, at_leaf, parts_of, atom_content, leaf_type, leaf_content, set_at_leaf, one_at_leaf, at_glue, glued, glued_pairs, all_numbers, set_of, one_of, atom_value, glue_content};

use crate::claims::Claims;
use crate::places::Place;
use crate::spaces::{content_of_nothing, content_of_vector, join_spaces};
use crate::{Content, GlueKey, LeafKey, Numbers};
use mm_base::{Name, NoMemory};
use mm_ops::Op;
use mm_tree::Leaf;
use std::alloc::Global;

/// Whether the element is in, or is, the variable of a slot.
fn has_slot(marks: u16, slot: u8) -> bool
    requires { slot < 16 }
    ensures { result ≡ marks_of marks slot }
{
    marks >> slot & 1 == 1
}

fn without_slot(marks: u16, slot: u8) -> u16
    requires { slot < 16 }
    ensures { result ≡ without_slot slot marks }
{
    if has_slot(marks, slot) {
        marks ^ 1 << slot
    } else {
        marks
    }
}

fn with_slot(marks: u16, slot: u8) -> u16
    requires { slot < 16 }
    ensures { result ≡ with_slot slot marks }
{
    marks | 1 << slot
}

// ---- atoms at a leaf

fn is_in_term(whole: bool, slots: &[u8], marks: u16) -> bool
    requires { All (λ s. s < 16) slots.now }
    ensures { result ≡ in_term (record { whole = whole; slots = slots.now }) (marks_of marks) }
{
    if whole {
        return true;
    }
    for slot in slots {
        if has_slot(marks, *slot) {
            return true;
        }
    }
    false
}

fn ind_at_leaf(leaf: &Leaf, whole: bool, slots: &[u8], marks: u16) -> Content
    requires leaf { IsLeaf leaf.now }
    requires slots { All (λ s. s < 16) slots.now }
    ensures { result ≡ atom_content leaf.now.field (leaf_type leaf.now.field
        (formula.Ind (record { whole = whole; slots = slots.now })) (named_leaf leaf.now) (marks_of marks)) }
{
    match &leaf.item {
        Some(item) => {
            if is_in_term(whole, slots, marks) {
                return content_of_vector(leaf.field, &item.vec);
            }
            content_of_nothing(leaf.field, item.vec.len())
        }
        None => content_of_nothing(leaf.field, leaf.t),
    }
}

fn member_at_leaf(x: u8, set: u8, marks: u16) -> u8
    requires element { x < 16 }
    requires sets { set < 16 }
    ensures { value.Flag result ≡ (if marks_of marks x then member (marks_of marks set) else unseen) }
{
    if !has_slot(marks, x) {
        return 0;
    }
    if has_slot(marks, set) { 1 } else { 2 }
}

fn same_at_leaf(x: u8, y: u8, marks: u16) -> u8
    requires first { x < 16 }
    requires second { y < 16 }
    ensures { value.Flag result ≡ same_elem (marks_of marks x) (marks_of marks y) true }
{
    match (has_slot(marks, x), has_slot(marks, y)) {
        (false, false) => 0,
        (true, false) => 1,
        (false, true) => 2,
        (true, true) => 3,
    }
}

fn holding(holds: bool) -> u8
    ensures { value.Flag result ≡ holding holds }
{
    if holds { 0 } else { 1 }
}

// ---- sets of numbers

// Whether number i of a list that does not fall is another than those before it.
fn is_new(numbers: &[u32], i: usize) -> bool
    requires rising { IsNonDecreasingBy (λ n. n) numbers.now }
    requires inside { i < length numbers.now }
    ensures { normal nat_cmp (take (i + 1) numbers.now) ≡ (if result
        then normal nat_cmp (take i numbers.now) ++ slice_index_or numbers.now i 0 ∷ [] else normal nat_cmp (take i numbers.now)) }
{
    if i == 0 {
        return true;
    }
    numbers[i - 1] != numbers[i]
}

// The numbers of a list that does not fall, each once.
fn each_once(alloc: Global, numbers: &[u32]) -> Result<Numbers, NoMemory>
    requires { IsNonDecreasingBy (λ n. n) numbers.now }
    ensures { IfOk result (λ set. set ≡ normal nat_cmp numbers.now) }
{
    let mut set = Numbers::new(alloc);
    for i in 0..numbers.len() {
        if is_new(numbers, i) {
            set.add(numbers[i])?;
        }
    }
    Ok(set)
}

// The numbers in rising order, each once.
fn set_of(alloc: Global, mut numbers: Vec<u32>) -> Result<Numbers, NoMemory>
    ensures { IfOk result (λ set. set ≡ normal nat_cmp numbers.items) }
{
    numbers.sort()?;
    each_once(alloc, &numbers)
}

// Puts a number where it is there, and says whether it is.
fn put(numbers: &mut Vec<u32>, number: Option<u32>) -> Result<bool, NoMemory>
    ensures { IfOk result (λ b. IsPut numbers.old.items (number ∷ []) b numbers.new.items) }
{
    match number {
        Some(n) => {
            numbers.push(n)?;
            Ok(true)
        }
        None => Ok(false),
    }
}

// ---- the leaf rule

fn pair_at_leaf(claims: &Claims, key: &LeafKey, second: u32) -> Option<Content>
    requires { key.now.place < 65536 }
    ensures { result ≡ parts_of (at_leaf claims.now.leaves.entries (first_part key.now.place) key.now.leaf key.now.marks)
        (at_leaf claims.now.leaves.entries second key.now.leaf key.now.marks) }
{
    let a = claims.at_leaf(key.place + 1, key.leaf, key.marks)?;
    let b = claims.at_leaf(second, key.leaf, key.marks)?;
    Some(Content::Parts(a, b))
}

// Where the element is away from the variable of a slot, and where it is at it.
fn away(claims: &Claims, key: &LeafKey, slot: u8) -> Option<u32>
    requires place { key.now.place < 65536 }
    requires slot { slot < 16 }
    ensures { result ≡ at_leaf claims.now.leaves.entries (first_part key.now.place) key.now.leaf (without_slot slot key.now.marks) }
{
    claims.at_leaf(key.place + 1, key.leaf, without_slot(key.marks, slot))
}

fn at(claims: &Claims, key: &LeafKey, slot: u8) -> Option<u32>
    requires place { key.now.place < 65536 }
    requires slot { slot < 16 }
    ensures { result ≡ at_leaf claims.now.leaves.entries (first_part key.now.place) key.now.leaf (with_slot slot key.now.marks) }
{
    claims.at_leaf(key.place + 1, key.leaf, with_slot(key.marks, slot))
}

fn one_number(alloc: Global, n: u32) -> Result<Numbers, NoMemory>
    ensures { IfOk result (λ set. set ≡ n ∷ []) }
{
    let mut set = Numbers::new(alloc);
    set.add(n)?;
    Ok(set)
}

fn two_numbers(alloc: Global, n: u32, m: u32) -> Result<Numbers, NoMemory>
    ensures { IfOk result (λ set. set ≡ normal nat_cmp (n ∷ m ∷ [])) }
{
    let mut numbers = Vec::new(alloc);
    numbers.push(n)?;
    numbers.push(m)?;
    set_of(alloc, numbers)
}

fn set_at_leaf(
    alloc: Global,
    claims: &Claims,
    leaf: &Leaf,
    key: &LeafKey,
    slot: u8,
) -> Result<Option<Content>, NoMemory>
    requires place { key.now.place < 65536 }
    requires slot { slot < 16 }
    ensures { IfOk result (λ c. c ≡ set_at_leaf claims.now.leaves.entries key.now.place key.now.leaf key.now.marks (is_some leaf.now.item) slot) }
{
    let Some(apart) = away(claims, key, slot) else {
        return Ok(None);
    };
    if leaf.item.is_none() {
        return Ok(Some(Content::SetOf(one_number(alloc, apart)?)));
    }
    let Some(taken) = at(claims, key, slot) else {
        return Ok(None);
    };
    Ok(Some(Content::SetOf(two_numbers(alloc, apart, taken)?)))
}

fn one_at_leaf(
    alloc: Global,
    claims: &Claims,
    leaf: &Leaf,
    key: &LeafKey,
    slot: u8,
) -> Result<Option<Content>, NoMemory>
    requires place { key.now.place < 65536 }
    requires slot { slot < 16 }
    ensures { IfOk result (λ c. c ≡ one_at_leaf claims.now.leaves.entries key.now.place key.now.leaf key.now.marks (is_some leaf.now.item) slot) }
{
    let Some(apart) = away(claims, key, slot) else {
        return Ok(None);
    };
    if leaf.item.is_none() {
        return Ok(Some(Content::OneOf(apart, Numbers::new(alloc))));
    }
    let Some(taken) = at(claims, key, slot) else {
        return Ok(None);
    };
    Ok(Some(Content::OneOf(apart, one_number(alloc, taken)?)))
}

/// What the leaf rule gives at a place of a leaf, where the claims that it asks for are there.
pub(crate) fn at_leaf(
    alloc: Global,
    claims: &Claims,
    place: &Place,
    leaf: &Leaf,
    key: &LeafKey,
) -> Result<Option<Content>, NoMemory>
    requires leaf { IsLeaf leaf.now }
    requires marks { leaf.now.item ≡ None → key.now.marks ≡ 0 }
    requires slots { HasSlots place.now }
    requires place { key.now.place < 65536 }
    ensures { (F : Formula) → IsPlace key.now.place F place.now → IfOk result (λ c. c ≡
        leaf_content leaf.now.field claims.now.leaves.entries key.now.place key.now.leaf key.now.marks (named_leaf leaf.now) F) }
{
    let marks = key.marks;
    let flag = match place {
        Place::Ind(whole, slots) => return Ok(Some(ind_at_leaf(leaf, *whole, slots, marks))),
        Place::Pair(second) => return Ok(pair_at_leaf(claims, key, *second)),
        Place::Set(slot) => return set_at_leaf(alloc, claims, leaf, key, *slot),
        Place::One(slot) => return one_at_leaf(alloc, claims, leaf, key, *slot),
        Place::Const => 0,
        Place::Member(x, set) => member_at_leaf(*x, *set, marks),
        Place::SameElem(x, y) => same_at_leaf(*x, *y, marks),
        Place::Sub(a, b) => holding(!has_slot(marks, *a) || has_slot(marks, *b)),
        Place::SameSet(a, b) => holding(has_slot(marks, *a) == has_slot(marks, *b)),
    };
    Ok(Some(Content::Flag(flag)))
}

// ---- atoms at a join

fn same_at_join(left: u8, right: u8) -> u8
    ensures { value.Flag result ≡ same_elem_join (value.Flag left) (value.Flag right) }
{
    match (left, right) {
        (0, right) => right,
        (1, 2) | (2, 1) => 4,
        _ => left,
    }
}

fn other_at_join(left: u8, right: u8) -> u8
    ensures member { value.Flag result ≡ member_join (value.Flag left) (value.Flag right) }
    ensures holding { value.Flag result ≡ holding_join (value.Flag left) (value.Flag right) }
{
    if left == 0 { right } else { left }
}

fn flag_at_join(place: &Place, left: u8, right: u8) -> u8
    requires { HasContent place.now (content.Flag left) }
    ensures { (f : Field) (claims : GlueClaims) (p : ℕ) (name : List ℕ) (op : JoinOp) (F : Formula) → IsPlace p F place.now →
        Some (content.Flag result) ≡ glue_content f claims p name op F (content.Flag left) (content.Flag right) }
{
    match place {
        Place::Const => 0,
        Place::SameElem(_, _) => same_at_join(left, right),
        _ => other_at_join(left, right),
    }
}

fn ind_at_join(op: &Op, left: &Content, right: &Content) -> Content
    requires left { IsSide op.now.f op.now.op.t1 left.now }
    requires right { IsSide op.now.f op.now.op.t2 right.now }
    ensures { result ≡ atom_content op.now.f (ind_join op.now.f op.now.op (atom_value left.now) (atom_value right.now)) }
{
    match left {
        Content::Space(a) => match right {
            Content::Space(b) => join_spaces(op, a, b),
            _ => Content::Dead,
        },
        _ => Content::Dead,
    }
}

// ---- the join rule

// The claims of one kind of join: at a place, by an operator.
#[derive(Clone, Copy)]
struct Glue<'a> {
    claims: &'a Claims,
    place: u32,
    op: Name,
}

impl Glue<'_> {
    fn get(&self, left: u32, right: u32) -> Option<u32>
        requires { self.now.place < 65536 }
        ensures { result ≡ glued self.now.claims.now.glues.entries self.now.place self.now.op left right }
    {
        self.claims.at_glue(self.place + 1, self.op, left, right)
    }

    // Puts what is claimed of one with each, as far as all are there.
    fn put_row(&self, numbers: &mut Vec<u32>, left: u32, rights: &[u32]) -> Result<bool, NoMemory>
        requires { self.now.place < 65536 }
        ensures { IfOk result (λ b. IsPut numbers.old.items
            (map (glued self.now.claims.now.glues.entries self.now.place self.now.op left) rights.now) b numbers.new.items) }
    {
        for i in 0..rights.len() {
            if !put(numbers, self.get(left, rights[i]))? {
                return Ok(false);
            }
        }
        Ok(true)
    }

    // The same of each with one.
    fn put_column(
        &self,
        numbers: &mut Vec<u32>,
        lefts: &[u32],
        right: u32,
    ) -> Result<bool, NoMemory>
        requires { self.now.place < 65536 }
        ensures { IfOk result (λ b. IsPut numbers.old.items
            (map (λ n. glued self.now.claims.now.glues.entries self.now.place self.now.op n right) lefts.now) b numbers.new.items) }
    {
        for i in 0..lefts.len() {
            if !put(numbers, self.get(lefts[i], right))? {
                return Ok(false);
            }
        }
        Ok(true)
    }

    fn put_all(
        &self,
        numbers: &mut Vec<u32>,
        lefts: &[u32],
        rights: &[u32],
    ) -> Result<bool, NoMemory>
        requires { self.now.place < 65536 }
        ensures { IfOk result (λ b. IsPut numbers.old.items
            (glued_pairs self.now.claims.now.glues.entries self.now.place self.now.op lefts.now rights.now) b numbers.new.items) }
    {
        for i in 0..lefts.len() {
            if !self.put_row(numbers, lefts[i], rights)? {
                return Ok(false);
            }
        }
        Ok(true)
    }

    fn set(&self, alloc: Global, lefts: &[u32], rights: &[u32]) -> Result<Option<Content>, NoMemory>
        requires { self.now.place < 65536 }
        ensures { IfOk result (λ c. c ≡ set_of (all_numbers
            (glued_pairs self.now.claims.now.glues.entries self.now.place self.now.op lefts.now rights.now))) }
    {
        let mut numbers = Vec::new(alloc);
        if !self.put_all(&mut numbers, lefts, rights)? {
            return Ok(None);
        }
        Ok(Some(Content::SetOf(set_of(alloc, numbers)?)))
    }
}

impl Glue<'_> {
    // The set of what is claimed of each of some with one, and of one with each of others.
    fn either(
        &self,
        alloc: Global,
        lefts: &[u32],
        right: u32,
        left: u32,
        rights: &[u32],
    ) -> Result<Option<Numbers>, NoMemory>
        requires { self.now.place < 65536 }
        ensures { IfOk result (λ set. IsSetOf set (all_numbers
            (map (λ n. glued self.now.claims.now.glues.entries self.now.place self.now.op n right) lefts.now
            ++ map (glued self.now.claims.now.glues.entries self.now.place self.now.op left) rights.now))) }
    {
        let mut numbers = Vec::new(alloc);
        if !self.put_column(&mut numbers, lefts, right)? {
            return Ok(None);
        }
        if !self.put_row(&mut numbers, left, rights)? {
            return Ok(None);
        }
        Ok(Some(set_of(alloc, numbers)?))
    }

    fn one(
        &self,
        alloc: Global,
        left: u32,
        lefts: &[u32],
        right: u32,
        rights: &[u32],
    ) -> Result<Option<Content>, NoMemory>
        requires { self.now.place < 65536 }
        ensures { IfOk result (λ c. c ≡ one_of (glued self.now.claims.now.glues.entries self.now.place self.now.op left right) (all_numbers
            (map (λ n. glued self.now.claims.now.glues.entries self.now.place self.now.op n right) lefts.now
            ++ map (glued self.now.claims.now.glues.entries self.now.place self.now.op left) rights.now))) }
    {
        let Some(apart) = self.get(left, right) else {
            return Ok(None);
        };
        let Some(set) = self.either(alloc, lefts, right, left, rights)? else {
            return Ok(None);
        };
        Ok(Some(Content::OneOf(apart, set)))
    }

    fn pair(&self, second: u32, left: (u32, u32), right: (u32, u32)) -> Option<Content>
        requires { self.now.place < 65536 }
        ensures { result ≡ parts_of (glued self.now.claims.now.glues.entries self.now.place self.now.op left.0 right.0)
            (at_glue self.now.claims.now.glues.entries second self.now.op left.1 right.1) }
    {
        let a = self.get(left.0, right.0)?;
        let b = self.claims.at_glue(second, self.op, left.1, right.1)?;
        Some(Content::Parts(a, b))
    }
}

/// What the join rule gives at a place of two contents, where the claims that it asks for are there.
pub(crate) fn at_join(
    alloc: Global,
    claims: &Claims,
    place: &Place,
    op: &Op,
    key: &GlueKey,
    left: &Content,
    right: &Content,
) -> Result<Option<Content>, NoMemory>
    requires place { key.now.place < 65536 }
    requires left { HasContent place.now left.now }
    requires right { HasContent place.now right.now }
    requires left_side { IsSide op.now.f op.now.op.t1 left.now }
    requires right_side { IsSide op.now.f op.now.op.t2 right.now }
    ensures { (F : Formula) → IsPlace key.now.place F place.now → IfOk result (λ c. c ≡
        glue_content op.now.f claims.now.glues.entries key.now.place key.now.op op.now.op F left.now right.now) }
{
    let glue = Glue {
        claims,
        place: key.place,
        op: key.op,
    };
    match (left, right) {
        (Content::Flag(a), Content::Flag(b)) => {
            Ok(Some(Content::Flag(flag_at_join(place, *a, *b))))
        }
        (Content::Parts(a, b), Content::Parts(c, d)) => match place {
            Place::Pair(second) => Ok(glue.pair(*second, (*a, *b), (*c, *d))),
            _ => Ok(None),
        },
        (Content::SetOf(a), Content::SetOf(b)) => glue.set(alloc, a.as_slice(), b.as_slice()),
        (Content::OneOf(a, more), Content::OneOf(b, others)) => {
            glue.one(alloc, *a, more.as_slice(), *b, others.as_slice())
        }
        _ => Ok(Some(ind_at_join(op, left, right))),
    }
}
