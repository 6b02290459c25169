//! Scoped formulas: each variable has a binder, and the formula is within its limits.
ghost use Rattle.std.specs.Prelude.{◌≡◌, ℕ, ◌-◌, nat_le, List, [], ◌∷◌, Option, false, slice_get, Some, None, MatchResult, true, not, if◌then◌else◌};
ghost use Rattle.std.specs.List.{find, list_all};
ghost use Rattle.mm_formula.specs.Repeats.{has};
ghost use Rattle.mm_formula.specs.Variables.{is_set};
ghost use Rattle.mm_formula.specs.Syntax.{Syntax, syntax_of, nodes, is_well_sorted};
ghost use Rattle.mm_formula.specs.Scope.{without, unbound, outermost, depth, scope_fault, IsScoped, slotted};
ghost use Rattle.mm_formula.specs.Binders.{names};
ghost use Rattle.mm_logic.specs.Meaning.{WellSorted};

use crate::{Formula, Var};
use std::alloc::Global;

/// The most binders that an atom stands under, the free variable among them.
const MAX_IN_SCOPE: usize = 16;

/// The most nodes of a formula.
const MAX_NODES: usize = 512;

/// Why a formula is not scoped.
#[derive(Clone, Copy, Debug, PartialEq, Eq)]
pub enum ScopeFault {
    /// The first variable in reading order that has no binder.
    Unbound(Var),
    /// An atom stands under more than 16 binders.
    TooManyInScope,
    /// The formula has more than 512 nodes.
    TooManyNodes,
    /// Memory ran out.
    NoMemory,
}

/// The binders around a place in a formula, the innermost first.
///
/// A walk down a formula puts each binder before those above it, so it keeps them without memory of its own.
#[derive(Clone, Copy)]
enum Binders<'a> {
    /// No binder.
    Outermost,
    /// A binder, and those around it.
    Under(Var, &'a Binders<'a>),
}

impl Binders<'_> {
    /// Whether one of them binds the variable.
    fn has(&self, v: Var) -> bool
        ensures { result ≡ has v (names self.now) }
    {
        match self {
            Binders::Outermost => false,
            Binders::Under(w, outer) => {
                if v.is(w) {
                    return true;
                }
                outer.has(v)
            }
        }
    }
}

/// The variable, where nothing binds it.
fn unbound_var(v: Var, binders: &Binders<'_>) -> Option<Var>
    ensures { result ≡ slice_get (without (names binders.now) (v ∷ [])) 0 }
{
    if binders.has(v) { None } else { Some(v) }
}

/// The first of two variables that nothing binds.
fn unbound_of_two(v: Var, w: Var, binders: &Binders<'_>) -> Option<Var>
    ensures { result ≡ slice_get (without (names binders.now) (v ∷ w ∷ [])) 0 }
{
    if binders.has(v) {
        unbound_var(w, binders)
    } else {
        Some(v)
    }
}

/// The first of the variables that is not among the binders.
fn first_outside(vars: &[Var], binders: &Binders<'_>) -> Option<Var>
    ensures { result ≡ find (λ v. not (has v (names binders.now))) vars.now }
{
    vars.iter().copied().find(|v| !binders.has(*v))
}

/// The first of the variables that nothing binds.
#[tactic(auto, using(crate::proofs::ScopeLemmas::first_kept))]
fn unbound_of_all(vars: &[Var], binders: &Binders<'_>) -> Option<Var>
    ensures { result ≡ slice_get (without (names binders.now) vars.now) 0 }
{
    first_outside(vars, binders)
}

/// The first variable of the formula in reading order that nothing binds.
fn first_unbound(formula: &Formula, binders: &Binders<'_>) -> Option<Var>
    ensures { result ≡ slice_get (unbound (names binders.now) (syntax_of formula.now)) 0 }
{
    match formula {
        Formula::Const(_) => None,
        Formula::Ind(term) => unbound_of_all(term.vars.as_slice(), binders),
        Formula::Member(x, a) => unbound_of_two(*x, *a, binders),
        Formula::SameElem(x, y) => unbound_of_two(*x, *y, binders),
        Formula::Sub(a, b) => unbound_of_two(*a, *b, binders),
        Formula::SameSet(a, b) => unbound_of_two(*a, *b, binders),
        Formula::Not(body) => first_unbound(body, binders),
        Formula::Bin(_, first, second) => match first_unbound(first, binders) {
            Some(v) => Some(v),
            None => first_unbound(second, binders),
        },
        Formula::Ex(v, body) => first_unbound(body, &Binders::Under(*v, &*binders)),
        Formula::All(v, body) => first_unbound(body, &Binders::Under(*v, &*binders)),
    }
}

/// What is left of `room` nodes after those of the formula; `None` where it has more.
fn spend_nodes(formula: &Formula, room: usize) -> Option<usize>
    ensures { result ≡ (if nat_le (nodes (syntax_of formula.now)) room then Some (room - nodes (syntax_of formula.now)) else None) }
{
    if room == 0 {
        return None;
    }
    match formula {
        Formula::Not(body) => spend_nodes(body, room - 1),
        Formula::Bin(_, first, second) => match spend_nodes(first, room - 1) {
            None => None,
            Some(room) => spend_nodes(second, room),
        },
        Formula::Ex(_, body) => spend_nodes(body, room - 1),
        Formula::All(_, body) => spend_nodes(body, room - 1),
        _ => Some(room - 1),
    }
}

/// Whether each atom stands under at most `room` binders of the formula.
fn fits_scope(formula: &Formula, room: usize) -> bool
    ensures { result ≡ nat_le (depth (syntax_of formula.now)) room }
{
    match formula {
        Formula::Not(body) => fits_scope(body, room),
        Formula::Bin(_, first, second) => {
            if !fits_scope(first, room) {
                return false;
            }
            fits_scope(second, room)
        }
        Formula::Ex(_, body) => room > 0 && fits_scope(body, room - 1),
        Formula::All(_, body) => room > 0 && fits_scope(body, room - 1),
        _ => true,
    }
}

/// The first variable that nothing binds, where the whole formula has this free variable.
fn unbound_under(formula: &Formula, free: &Option<Var>) -> Option<Var>
    ensures { result ≡ slice_get (unbound (outermost free.now) (syntax_of formula.now)) 0 }
{
    let none = Binders::Outermost;
    match free {
        None => first_unbound(formula, &none),
        Some(v) => first_unbound(formula, &Binders::Under(*v, &none)),
    }
}

/// Why the formula is not scoped.
fn fault_of(formula: &Formula, free: &Option<Var>) -> Option<ScopeFault>
    ensures { result ≡ scope_fault (syntax_of formula.now) free.now }
{
    if let Some(v) = unbound_under(formula, free) {
        return Some(ScopeFault::Unbound(v));
    }
    let room = match free {
        None => MAX_IN_SCOPE,
        Some(_) => MAX_IN_SCOPE - 1,
    };
    if !fits_scope(formula, room) {
        return Some(ScopeFault::TooManyInScope);
    }
    if spend_nodes(formula, MAX_NODES).is_none() {
        return Some(ScopeFault::TooManyNodes);
    }
    None
}

/// A formula in which each variable has a binder, or is the one free variable, and which is within the limits.
///
/// The slot of a binder is the number of binders above it, so that the free variable has slot 0.
#[derive(Drop)]
pub struct Scoped {
    formula: Formula,
    free: Option<Var>,
    ghost scoped: { IsScoped (syntax_of formula) free },
}

impl Scoped {
    /// The formula with its scope; each refusal of `ScopeFault` comes exactly where it applies, the first of
    /// them in their order. The formula is well sorted, and its free variable stands for a set. This takes no
    /// memory.
    pub fn of(_alloc: Global, formula: Formula, free: Option<Var>) -> Result<Scoped, ScopeFault>
        requires sorted { is_well_sorted (syntax_of formula) ≡ true }
        requires set { list_all is_set (outermost free) ≡ true }
        ensures { MatchResult result
            (λ s. (scope_fault (syntax_of formula) free ≡ None) × (s.formula ≡ formula) × (s.free ≡ free))
            (λ fault. scope_fault (syntax_of formula) free ≡ Some fault) }
    {
        if let Some(fault) = fault_of(&formula, &free) {
            return Err(fault);
        }
        Ok(Scoped { formula, free })
    }

    /// The formula.
    pub fn formula(&self) -> &Formula
        ensures formula { result.now ≡ self.now.formula }
        ensures scoped { IsScoped (syntax_of self.now.formula) self.now.free }
    {
        &self.formula
    }

    /// The free variable; `None` exactly where there is none.
    pub fn free(&self) -> Option<Var>
        ensures { result ≡ self.now.free }
    {
        self.free
    }
}

/// In the formula with slots of a scoped formula, each slot of an element variable is one where elements are spoken
/// of, and each slot of a set variable one where sets are.
pub fn slots_are_sorted()
    ensures { (F : Syntax) (free : Option (List ℕ)) → IsScoped F free → WellSorted (λ _. false) (slotted (outermost free) F) }
{}
