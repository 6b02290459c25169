//! What is accepted, part by part.

ghost use Rattle.std.specs.Prelude.{◌≡◌, ◌<◌, ◌+◌, ℕ, length, [], ◌∷◌, drop};
ghost use Rattle.std.specs.List.{list_any, list_all};
ghost use Rattle.mm_logic.specs.Formula.{connect};
ghost use Rattle.mm_logic.specs.Formula.Formula.{Bin};
ghost use Rattle.mm_formula.specs.Scope.{connective, connective as named};
ghost use Rattle.mm_states.specs.Lists.{AllFit};
ghost use Rattle.mm_machine.specs.Parts.{views, Begins, IsNumber};
ghost use Rattle.mm_machine.specs.Parts.{Kind as kind};
ghost use Rattle.mm_machine.specs.Blocks.{blocks};
ghost use Rattle.mm_machine.specs.Looks.{CanLook};
ghost use Rattle.mm_machine.specs.Shapes.{accepts_by, head_shape, node_connective, node_quantifier, over_sets, over_elements, quantified, shapes};

use crate::looks::{atom_accepts_at, one_parts_at, set_members_at};
use crate::part::{Kind, Node, Parts, Quantifier};
use crate::tables::{kind_at, pair_at};
use mm_formula::Connective;
use mm_states::TypeId;

fn connective_of(node: &Node) -> Connective
    ensures { result ≡ node_connective node.now }
{
    match node {
        Node::Pair(connective, _, _) => *connective,
        _ => Connective::And,
    }
}

// The connective at a place.
fn connective_at(parts: &Parts, at: usize) -> Connective
    requires { at < length parts.now.list.items }
    ensures { (skip : ℕ) → Begins (drop at (blocks parts.now)) (kind.IsPair skip) → head_shape (drop at (shapes parts.now.list.items))
        ≡ Bin (connective result) (head_shape (drop (at + 1) (shapes parts.now.list.items)))
        (head_shape (drop (at + 1 + skip) (shapes parts.now.list.items))) }
{
    connective_of(&parts.list[at].node)
}

fn quantifier_of(node: &Node) -> Quantifier
    ensures { result ≡ node_quantifier node.now }
{
    match node {
        Node::Set(quantifier, _, _) => *quantifier,
        Node::One(quantifier, _, _) => *quantifier,
        _ => Quantifier::Ex,
    }
}

// The quantifier at a place.
fn quantifier_at(parts: &Parts, at: usize) -> Quantifier
    requires { at < length parts.now.list.items }
    ensures sets { Begins (drop at (blocks parts.now)) kind.IsSet → (k : ℕ) ×
        (head_shape (drop at (shapes parts.now.list.items)) ≡ over_sets result k
        (head_shape (drop (at + 1) (shapes parts.now.list.items)))) }
    ensures elements { Begins (drop at (blocks parts.now)) kind.IsOne → (k : ℕ) ×
        (head_shape (drop at (shapes parts.now.list.items)) ≡ over_elements result k
        (head_shape (drop (at + 1) (shapes parts.now.list.items)))) }
{
    quantifier_of(&parts.list[at].node)
}

fn connected(connective: Connective, first: bool, second: bool) -> bool
    ensures { result ≡ connect (named connective) first second }
{
    match connective {
        Connective::And => first && second,
        Connective::Or => first || second,
        Connective::Implies => !first || second,
        Connective::Iff => first == second,
    }
}

/// Whether the formula of the part `at` accepts a number.
#[cycle(accepts)]
pub(crate) fn accepts_at(parts: &Parts, at: usize, id: TypeId) -> bool
    requires look { CanLook (drop at (blocks parts.now)) }
    requires id { IsNumber (views (drop at (blocks parts.now))) id }
    ensures { result ≡ accepts_by (drop at (shapes parts.now.list.items)) (views (drop at (blocks parts.now))) id }
{
    match kind_at(parts, at) {
        Kind::Atom => atom_accepts_at(parts, at, id),
        Kind::Not => !accepts_at(parts, at + 1, id),
        Kind::Pair(skip) => {
            let (first, second) = pair_at(parts, at, id);
            let left = accepts_at(parts, at + 1, first);
            let right = accepts_at(parts, at + 1 + skip, second);
            connected(connective_at(parts, at), left, right)
        }
        Kind::Set => {
            let quantifier = quantifier_at(parts, at);
            accepts_members(parts, at + 1, quantifier, set_members_at(parts, at, id))
        }
        Kind::One => {
            let quantifier = quantifier_at(parts, at);
            let (_, members) = one_parts_at(parts, at, id);
            accepts_members(parts, at + 1, quantifier, members)
        }
    }
}

// Whether some of the numbers is accepted, or each.
#[cycle(accepts)]
fn accepts_members(parts: &Parts, at: usize, quantifier: Quantifier, ids: &[TypeId]) -> bool
    requires look { CanLook (drop at (blocks parts.now)) }
    requires ids { AllFit (IsNumber (views (drop at (blocks parts.now)))) ids.now }
    ensures { result ≡ quantified quantifier (accepts_by (drop at (shapes parts.now.list.items))
        (views (drop at (blocks parts.now)))) ids.now }
{
    match quantifier {
        Quantifier::Ex => any_accepted(parts, at, ids),
        Quantifier::All => all_accepted(parts, at, ids),
    }
}

#[cycle(accepts)]
fn any_accepted(parts: &Parts, at: usize, ids: &[TypeId]) -> bool
    requires look { CanLook (drop at (blocks parts.now)) }
    requires ids { AllFit (IsNumber (views (drop at (blocks parts.now)))) ids.now }
    ensures { result ≡ list_any (accepts_by (drop at (shapes parts.now.list.items)) (views (drop at (blocks parts.now)))) ids.now }
{
    for i in 0..ids.len() {
        if accepts_at(parts, at, ids[i]) {
            return true;
        }
    }
    false
}

#[cycle(accepts)]
fn all_accepted(parts: &Parts, at: usize, ids: &[TypeId]) -> bool
    requires look { CanLook (drop at (blocks parts.now)) }
    requires ids { AllFit (IsNumber (views (drop at (blocks parts.now)))) ids.now }
    ensures { result ≡ list_all (accepts_by (drop at (shapes parts.now.list.items)) (views (drop at (blocks parts.now)))) ids.now }
{
    for i in 0..ids.len() {
        if !accepts_at(parts, at, ids[i]) {
            return false;
        }
    }
    true
}
