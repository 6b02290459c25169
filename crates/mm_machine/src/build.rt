//! The parts of a formula, made from the formula.

ghost use Rattle.std.specs.Prelude.{◌≡◌, ◌≤◌, ◌+◌, length, reverse, OnOk, IfOk, [], true};
ghost use Rattle.mm_formula.specs.Scope.{depth, outermost, slotted};
ghost use Rattle.mm_formula.specs.Syntax.{syntax_of, nodes, Syntax as syntax};
ghost use Rattle.mm_formula.specs.Variables.{is_set};
ghost use Rattle.mm_base_auto.specs.OneAtom.{atom_shape};
ghost use Rattle.mm_base_auto.specs.declared.atom.Atom.TheVariants as atom;
ghost use Rattle.mm_machine.specs.Builds.{IsNewAtom, IsNewQuantifier, Pushes, Built};
ghost use Rattle.mm_machine.specs.Scopes.{names};

use crate::part::{Node, Part, Quantifier};
use crate::scope::{Binders, slots_of};
use crate::slots::Slot;
use mm_base::NoMemory;
use mm_base_auto::{Atom, ConstAuto, IndAuto, MemberAuto, SameAuto, SameSetAuto, SubAuto};
use mm_combine::{OneTable, PairTable, SetTable};
use mm_field::Field;
use mm_formula::{Formula, Scoped, Term, Var};
use mm_states::JoinMemo;
use std::alloc::Global;

fn push_node(alloc: Global, list: &mut Vec<Part>, node: Node) -> Result<(), NoMemory>
    ensures { OnOk result (Pushes node list.old.items list.new.items) }
{
    let memo = JoinMemo::new(alloc);
    list.push(Part { node, memo })?;
    Ok(())
}

fn push_atom(alloc: Global, f: Field, list: &mut Vec<Part>, atom: Atom) -> Result<(), NoMemory>
    requires { IsNewAtom f atom }
    ensures { OnOk result (Built f (atom_shape atom) (reverse list.old.items) (reverse list.new.items)) }
{
    push_node(alloc, list, Node::Atom(atom))
}

// The automaton of `ind`.
fn ind_of(alloc: Global, f: Field, term: &Term, binders: &Binders<'_>) -> Result<IndAuto, NoMemory>
    requires { length (names binders.now) ≤ 16 }
    ensures new { IfOk result (λ a. IsNewAtom f (atom.Ind a)) }
    ensures shape { IfOk result (λ a. atom_shape (atom.Ind a) ≡ slotted (names binders.now) (syntax.Ind term.now)) }
{
    let slots = slots_of(alloc, term.vars.as_slice(), binders)?;
    Ok(IndAuto::with_slots(alloc, f, term.whole, slots))
}

// The node of a quantifier over sets or elements.
fn quantifier_node(alloc: Global, quantifier: Quantifier, v: &Var, slot: Slot) -> Node
    ensures { IsNewQuantifier quantifier (is_set v.now) slot.number result }
{
    if v.is_set() {
        return Node::Set(quantifier, slot, SetTable::new(alloc));
    }
    Node::One(quantifier, slot, OneTable::new(alloc))
}

// Puts the parts of a formula, the last one first.
fn push_parts(
    alloc: Global,
    f: Field,
    formula: &Formula,
    binders: &Binders<'_>,
    list: &mut Vec<Part>,
) -> Result<(), NoMemory>
    requires { length (names binders.now) + depth (syntax_of formula.now) ≤ 16 }
    ensures { OnOk result (Built f (slotted (names binders.now) (syntax_of formula.now)) (reverse list.old.items)
        (reverse list.new.items)) }
{
    match formula {
        Formula::Const(value) => {
            let atom = ConstAuto::new(alloc, *value);
            push_atom(alloc, f, list, Atom::Const(atom))
        }
        Formula::Ind(term) => {
            let atom = ind_of(alloc, f, term, binders)?;
            push_atom(alloc, f, list, Atom::Ind(atom))
        }
        Formula::Member(x, a) => {
            let atom = MemberAuto::new(alloc, binders.slot(x), binders.slot(a));
            push_atom(alloc, f, list, Atom::Member(atom))
        }
        Formula::SameElem(x, y) => {
            let atom = SameAuto::new(alloc, binders.slot(x), binders.slot(y));
            push_atom(alloc, f, list, Atom::SameElem(atom))
        }
        Formula::Sub(a, b) => {
            let atom = SubAuto::new(alloc, binders.slot(a), binders.slot(b));
            push_atom(alloc, f, list, Atom::Sub(atom))
        }
        Formula::SameSet(a, b) => {
            let atom = SameSetAuto::new(alloc, binders.slot(a), binders.slot(b));
            push_atom(alloc, f, list, Atom::SameSet(atom))
        }
        Formula::Not(body) => {
            push_parts(alloc, f, body, binders, list)?;
            push_node(alloc, list, Node::Not)
        }
        Formula::Bin(connective, first, second) => {
            push_parts(alloc, f, second, binders, list)?;
            let before = list.len();
            push_parts(alloc, f, first, binders, list)?;
            let skip = list.len() - before;
            let table = PairTable::new(alloc);
            push_node(alloc, list, Node::Pair(*connective, table, skip))
        }
        Formula::Ex(v, body) => {
            let slot = Slot {
                number: binders.len(),
            };
            push_parts(alloc, f, body, &Binders::Under(*v, &*binders), list)?;
            let node = quantifier_node(alloc, Quantifier::Ex, v, slot);
            push_node(alloc, list, node)
        }
        Formula::All(v, body) => {
            let slot = Slot {
                number: binders.len(),
            };
            push_parts(alloc, f, body, &Binders::Under(*v, &*binders), list)?;
            let node = quantifier_node(alloc, Quantifier::All, v, slot);
            push_node(alloc, list, node)
        }
    }
}

// Puts the parts of a scoped formula, the last one first.
fn push_scoped(
    alloc: Global,
    f: Field,
    scoped: &Scoped,
    list: &mut Vec<Part>,
) -> Result<(), NoMemory>
    ensures size { nodes (syntax_of scoped.now.formula) ≤ 512 }
    ensures built { OnOk result (Built f (slotted (outermost scoped.now.free) (syntax_of scoped.now.formula)) (reverse list.old.items)
        (reverse list.new.items)) }
{
    let formula = scoped.formula();
    let none = Binders::Outermost;
    match scoped.free() {
        None => push_parts(alloc, f, formula, &none, list),
        Some(v) => push_parts(alloc, f, formula, &Binders::Under(v, &none), list),
    }
}

/// The parts of a scoped formula, without values.
pub(crate) fn parts_of(alloc: Global, f: Field, scoped: &Scoped) -> Result<Vec<Part>, NoMemory>
    ensures size { IfOk result (λ ps. length ps.items ≤ 512) }
    ensures built { IfOk result (λ ps. Built f (slotted (outermost scoped.now.free) (syntax_of scoped.now.formula)) [] ps.items) }
{
    let mut list = Vec::new(alloc);
    push_scoped(alloc, f, scoped, &mut list)?;
    list.as_mut_slice().reverse();
    Ok(list)
}
