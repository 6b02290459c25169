//! The places of a formula as a list.

ghost use Rattle.std.specs.Prelude.{◌≡◌, ◌≤◌, ◌+◌, ℕ, List, length, map, IfOk, OnOk, ◌∷◌, [], ◌++◌};
ghost use Rattle.mm_formula.specs.Scope.{slot_in, slotted, depth, outermost};
ghost use Rattle.mm_formula.specs.Syntax.{syntax_of, nodes};
ghost use Rattle.mm_formula.specs.Syntax.{Syntax as syntax};
ghost use Rattle.mm_formula.specs.Variables.{is_set};
ghost use Rattle.mm_checker.specs.Places.{places};
ghost use Rattle.mm_logic.specs.Formula.{Formula as Slotted, Connective as Joined};
ghost use Rattle.mm_checker.specs.KeptPlaces.{IsPlace};
ghost use Rattle.mm_checker.specs.KeptBinders.{names, IsQuantifier, IsPlain, PutsPlaces, ArePlaces};

use mm_base::NoMemory;
use mm_formula::{Formula, Scoped, Term, Var};
use std::alloc::Global;

/// A place of a formula, with the slots that it speaks of.
#[derive(Drop)]
pub(crate) enum Place {
    Const,
    /// `ind`: whether its term is all elements, and the slots of its variables.
    Ind(bool, Vec<u8>),
    Member(u8, u8),
    SameElem(u8, u8),
    Sub(u8, u8),
    SameSet(u8, u8),
    /// A connective, with the number of its second part.
    Pair(u32),
    /// A set quantifier, with its slot.
    Set(u8),
    /// An element quantifier, with its slot.
    One(u8),
}

/// The binders around a place in a formula, the innermost first.
#[derive(Clone, Copy)]
pub(crate) enum Binders<'a> {
    /// No binder.
    Outermost,
    /// A binder, and those around it.
    Under(Var, &'a Binders<'a>),
}

impl Binders<'_> {
    /// How many binders there are.
    fn len(&self) -> u8
        requires { length (names self.now) ≤ 16 }
        ensures { result ≡ length (names self.now) }
    {
        match self {
            Binders::Outermost => 0,
            Binders::Under(_, outer) => 1 + outer.len(),
        }
    }

    /// The slot of the innermost binder of a variable.
    fn slot(&self, v: &Var) -> u8
        requires { length (names self.now) ≤ 16 }
        ensures { result ≡ slot_in (names self.now) v.now }
    {
        match self {
            Binders::Outermost => 0,
            Binders::Under(w, outer) => {
                if v.is(w) {
                    return outer.len();
                }
                outer.slot(v)
            }
        }
    }
}

/// The slots of variables, in their order.
fn slots_of(alloc: Global, term: &Term, binders: &Binders<'_>) -> Result<Vec<u8>, NoMemory>
    requires { length (names binders.now) ≤ 16 }
    ensures { IfOk result (λ slots. slots.items ≡ map (slot_in (names binders.now)) term.now.vars) }
{
    let vars = term.vars.as_slice();
    let mut slots = Vec::new(alloc);
    for i in 0..vars.len() {
        slots.push(binders.slot(&vars[i]))?;
    }
    Ok(slots)
}

// The place of a quantifier over sets or elements.
fn quantifier(v: &Var, slot: u8) -> Place
    ensures { IsQuantifier (is_set v.now) slot result }
{
    if v.is_set() {
        Place::Set(slot)
    } else {
        Place::One(slot)
    }
}

// How many places a formula has.
fn count(formula: &Formula) -> u32
    requires { nodes (syntax_of formula.now) ≤ 512 }
    ensures count { (binders : List (List ℕ)) → result ≡ length (places (slotted binders (syntax_of formula.now))) }
    ensures few { result ≤ nodes (syntax_of formula.now) }
{
    match formula {
        Formula::Not(body) => count(body),
        Formula::Bin(_, first, second) => 1 + count(first) + count(second),
        Formula::Ex(_, body) => 1 + count(body),
        Formula::All(_, body) => 1 + count(body),
        _ => 1,
    }
}

// Puts a place behind those of a list.
#[tactic(auto, using(crate::proofs::PutPlaces::put_one))]
fn push(list: &mut Vec<Place>, place: Place) -> Result<(), NoMemory>
    ensures { (F : Slotted) → IsPlace (length list.old.items) F place → OnOk result (PutsPlaces list.old.items (F ∷ []) list.new.items) }
{
    list.push(place)?;
    Ok(())
}

// The place of an atom that is no `ind`.
fn atom(formula: &Formula, binders: &Binders<'_>) -> Place
    requires { length (names binders.now) ≤ 16 }
    ensures { (p : ℕ) → IsPlain (syntax_of formula.now) → IsPlace p (slotted (names binders.now) (syntax_of formula.now)) result }
{
    match formula {
        Formula::Member(x, a) => Place::Member(binders.slot(x), binders.slot(a)),
        Formula::SameElem(x, y) => Place::SameElem(binders.slot(x), binders.slot(y)),
        Formula::Sub(a, b) => Place::Sub(binders.slot(a), binders.slot(b)),
        Formula::SameSet(a, b) => Place::SameSet(binders.slot(a), binders.slot(b)),
        _ => Place::Const,
    }
}

fn push_atom(
    formula: &Formula,
    binders: &Binders<'_>,
    list: &mut Vec<Place>,
) -> Result<(), NoMemory>
    requires { length (names binders.now) ≤ 16 }
    ensures { IsPlain (syntax_of formula.now) → OnOk result
        (PutsPlaces list.old.items (places (slotted (names binders.now) (syntax_of formula.now))) list.new.items) }
{
    push(list, atom(formula, binders))
}

fn push_ind(
    alloc: Global,
    term: &Term,
    binders: &Binders<'_>,
    list: &mut Vec<Place>,
) -> Result<(), NoMemory>
    requires { length (names binders.now) ≤ 16 }
    ensures { OnOk result
        (PutsPlaces list.old.items (places (slotted (names binders.now) (syntax.Ind term.now))) list.new.items) }
{
    let slots = slots_of(alloc, term, binders)?;
    push(list, Place::Ind(term.whole, slots))
}

// The place of a connective that is place `at` of a formula.
fn pair(at: usize, first: &Formula) -> Place
    requires at { at ≤ 512 }
    requires few { nodes (syntax_of first.now) ≤ 512 }
    ensures { (o : Joined) (binders : List (List ℕ)) (G : Slotted) → IsPlace at (Slotted.Bin o (slotted binders (syntax_of first.now)) G) result }
{
    Place::Pair(at as u32 + 1 + count(first))
}

// Puts the places of a formula behind those of a list.
fn push_places(
    alloc: Global,
    formula: &Formula,
    binders: &Binders<'_>,
    list: &mut Vec<Place>,
) -> Result<(), NoMemory>
    requires scope { length (names binders.now) + depth (syntax_of formula.now) ≤ 16 }
    requires few { length list.old.items + nodes (syntax_of formula.now) ≤ 512 }
    ensures { OnOk result
        (PutsPlaces list.old.items (places (slotted (names binders.now) (syntax_of formula.now))) list.new.items) }
{
    match formula {
        Formula::Ind(term) => push_ind(alloc, term, binders, list),
        Formula::Not(body) => push_places(alloc, body, binders, list),
        Formula::Bin(_, first, second) => {
            let place = pair(list.len(), first);
            push(list, place)?;
            push_places(alloc, first, binders, list)?;
            push_places(alloc, second, binders, list)
        }
        Formula::Ex(v, body) => {
            push(list, quantifier(v, binders.len()))?;
            push_places(alloc, body, &Binders::Under(*v, &*binders), list)
        }
        Formula::All(v, body) => {
            push(list, quantifier(v, binders.len()))?;
            push_places(alloc, body, &Binders::Under(*v, &*binders), list)
        }
        _ => push_atom(formula, binders, list),
    }
}

/// The places of a scoped formula.
pub(crate) fn places_of(alloc: Global, scoped: &Scoped) -> Result<Vec<Place>, NoMemory>
    ensures { IfOk result (λ list. ArePlaces 0
        (places (slotted (outermost scoped.now.free) (syntax_of scoped.now.formula))) list.items) }
{
    let mut list = Vec::new(alloc);
    let none = Binders::Outermost;
    match scoped.free() {
        None => push_places(alloc, scoped.formula(), &none, &mut list)?,
        Some(v) => push_places(
            alloc,
            scoped.formula(),
            &Binders::Under(v, &none),
            &mut list,
        )?,
    }
    Ok(list)
}
