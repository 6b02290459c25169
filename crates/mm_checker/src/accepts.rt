//! Which values a formula accepts, by their numbers.

ghost use Rattle.std.specs.Prelude.{◌≡◌, ℕ, List};
ghost use Rattle.std.specs.List.{list_any, list_all};
ghost use Rattle.mm_formula.specs.Scope.{connective as named, slotted};
ghost use Rattle.mm_formula.specs.Syntax.{syntax_of};
ghost use Rattle.mm_logic.specs.Acceptance.{accepts};
ghost use Rattle.mm_logic.specs.Formula.{connect};
ghost use Rattle.mm_checker.specs.Contents.{meaning};
ghost use Rattle.mm_checker.specs.Certificates.{content_of};
ghost use Rattle.mm_checker.specs.KeptAcceptance.{has_flag, is_dead, parts_in, members_in, takes, IsTyped, AreMeant};

use crate::Content;
use crate::values::Values;
use mm_formula::{Connective, Formula};

fn connected(connective: Connective, first: bool, second: bool) -> bool
    ensures { result ≡ connect (named connective) first second }
{
    match connective {
        Connective::And => first && second,
        Connective::Or => first || second,
        Connective::Implies => !first || second,
        Connective::Iff => first == second,
    }
}

fn has_flag(values: &Values, n: u32, flag: u8) -> bool
    ensures { result ≡ has_flag flag (content_of values.now.ended.keys n) }
{
    match values.content(n) {
        Some(Content::Flag(k)) => *k == flag,
        _ => false,
    }
}

fn is_dead(values: &Values, n: u32) -> bool
    ensures { result ≡ is_dead (content_of values.now.ended.keys n) }
{
    match values.content(n) {
        Some(Content::Dead) => true,
        _ => false,
    }
}

// The parts of the value of a connective.
fn parts(values: &Values, n: u32) -> (u32, u32)
    ensures { result ≡ parts_in (content_of values.now.ended.keys n) }
{
    match values.content(n) {
        Some(Content::Parts(first, second)) => (*first, *second),
        _ => (0, 0),
    }
}

// The members of the value of a quantifier.
fn members(values: &Values, n: u32) -> &[u32]
    ensures { result.now ≡ members_in (content_of values.now.ended.keys n) }
{
    match values.content(n) {
        Some(Content::SetOf(numbers)) => numbers.as_slice(),
        Some(Content::OneOf(_, numbers)) => numbers.as_slice(),
        _ => &[],
    }
}

// Whether a formula takes a number.
#[cycle(takes)]
fn takes(values: &Values, formula: &Formula, n: u32) -> bool
    ensures { result ≡ takes values.now.ended.keys (syntax_of formula.now) n }
{
    match formula {
        Formula::Const(holds) => *holds,
        Formula::Ind(_) => !is_dead(values, n),
        Formula::Member(_, _) => has_flag(values, n, 1),
        Formula::SameElem(_, _) => has_flag(values, n, 3),
        Formula::Sub(_, _) => has_flag(values, n, 0),
        Formula::SameSet(_, _) => has_flag(values, n, 0),
        Formula::Not(body) => !takes(values, body, n),
        Formula::Bin(connective, first, second) => {
            let (a, b) = parts(values, n);
            let left = takes(values, first, a);
            let right = takes(values, second, b);
            connected(*connective, left, right)
        }
        Formula::Ex(_, body) => any_accepted(values, body, members(values, n)),
        Formula::All(_, body) => all_accepted(values, body, members(values, n)),
    }
}

#[cycle(takes)]
fn any_accepted(values: &Values, formula: &Formula, numbers: &[u32]) -> bool
    ensures { result ≡ list_any (takes values.now.ended.keys (syntax_of formula.now)) numbers.now }
{
    for i in 0..numbers.len() {
        if takes(values, formula, numbers[i]) {
            return true;
        }
    }
    false
}

#[cycle(takes)]
fn all_accepted(values: &Values, formula: &Formula, numbers: &[u32]) -> bool
    ensures { result ≡ list_all (takes values.now.ended.keys (syntax_of formula.now)) numbers.now }
{
    for i in 0..numbers.len() {
        if !takes(values, formula, numbers[i]) {
            return false;
        }
    }
    true
}

/// Whether a formula accepts the value of a number, where this and the values below it are such as the formula has them.
pub(crate) fn accepts(values: &Values, formula: &Formula, n: u32) -> bool
    requires typed { IsTyped values.now.ended.keys (syntax_of formula.now) n }
    requires meant { AreMeant values.now.ended.keys }
    ensures { (binders : List (List ℕ)) → result ≡ accepts (slotted binders (syntax_of formula.now)) (meaning values.now.ended.keys n) }
{
    takes(values, formula, n)
}
