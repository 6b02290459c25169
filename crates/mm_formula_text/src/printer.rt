//! Printing a formula.
ghost use Rattle.std.specs.Prelude.{◌≡◌, ◌++◌, true, codes, IfOk, OnOk};
ghost use Rattle.std.specs.List.{list_all, flat_map};
ghost use Rattle.mm_formula.specs.Repeats.{IsDistinct};
ghost use Rattle.mm_formula.specs.Syntax.{Syntax, syntax_of, is_well_sorted, IsProper};
ghost use Rattle.mm_formula.specs.Variables.{is_var};
ghost use Rattle.mm_formula_text.specs.Canonical.{barred, term_text, between, canonical};
ghost use Rattle.mm_formula_text.specs.Grammar.{IsTextOf};

use mm_base::{NoMemory, Text};
use mm_formula::{Connective, Formula, Term, Var};
use std::alloc::Global;

fn write_var(alloc: Global, out: &mut Text, v: &Var) -> Result<(), NoMemory>
    ensures text { OnOk result (out.new ≡ out.old ++ v.now) }
    ensures word { is_var v.now ≡ true }
{
    out.append(alloc, v.bytes())
}

/// The variables, each after a bar.
fn write_barred(alloc: Global, out: &mut Text, vars: &[Var]) -> Result<(), NoMemory>
    ensures text { OnOk result (out.new ≡ out.old ++ flat_map barred vars.now) }
    ensures words { OnOk result (list_all is_var vars.now ≡ true) }
{
    'vars: for v in vars {
        out.append(alloc, b"|")?;
        write_var(alloc, out, v)?;
    }
    Ok(())
}

fn write_vars(alloc: Global, out: &mut Text, whole: bool, vars: &[Var]) -> Result<(), NoMemory>
    ensures text { OnOk result (out.new ≡ out.old ++ term_text whole vars.now) }
    ensures words { OnOk result (list_all is_var vars.now ≡ true) }
{
    match vars {
        [] => out.append(alloc, if whole { b"*" } else { b"0" }),
        [first, rest @ ..] => {
            write_var(alloc, out, first)?;
            write_barred(alloc, out, rest)?;
            if whole {
                return out.append(alloc, b"|*");
            }
            Ok(())
        }
    }
}

/// Two variables with a relation between them.
fn write_atom(
    alloc: Global,
    out: &mut Text,
    first: &Var,
    between: &[u8],
    second: &Var,
) -> Result<(), NoMemory>
    ensures text { OnOk result (out.new ≡ out.old ++ (first.now ++ (between.now ++ second.now))) }
    ensures words { OnOk result ((is_var first.now ≡ true) × (is_var second.now ≡ true)) }
{
    write_var(alloc, out, first)?;
    out.append(alloc, between)?;
    write_var(alloc, out, second)
}

fn write_between(alloc: Global, out: &mut Text, connective: Connective) -> Result<(), NoMemory>
    ensures { OnOk result (out.new ≡ out.old ++ between connective) }
{
    match connective {
        Connective::And => out.append(alloc, b" and "),
        Connective::Or => out.append(alloc, b" or "),
        Connective::Implies => out.append(alloc, b" implies "),
        Connective::Iff => out.append(alloc, b" iff "),
    }
}

fn write_ind(alloc: Global, out: &mut Text, term: &Term) -> Result<(), NoMemory>
    ensures text { OnOk result (out.new ≡ out.old ++ (codes "ind(" ++ (term_text term.now.whole term.now.vars ++ codes ")"))) }
    ensures words { OnOk result (list_all is_var term.now.vars ≡ true) }
    ensures distinct { IsDistinct term.now.vars }
{
    let vars = term.vars.as_slice();
    out.append(alloc, b"ind(")?;
    write_vars(alloc, out, term.whole, vars)?;
    out.append(alloc, b")")
}

/// A quantifier's word and its variable, each with a blank after it.
fn write_binder(alloc: Global, out: &mut Text, quantifier: &[u8], v: &Var) -> Result<(), NoMemory>
    ensures text { OnOk result (out.new ≡ out.old ++ (quantifier.now ++ (v.now ++ codes " "))) }
    ensures word { OnOk result (is_var v.now ≡ true) }
{
    out.append(alloc, quantifier)?;
    write_var(alloc, out, v)?;
    out.append(alloc, b" ")
}

fn write_formula(alloc: Global, out: &mut Text, formula: &Formula) -> Result<(), NoMemory>
    ensures text { OnOk result (out.new ≡ out.old ++ canonical (syntax_of formula.now)) }
    ensures proper { OnOk result (IsProper (syntax_of formula.now)) }
{
    match formula {
        Formula::Const(true) => out.append(alloc, b"true"),
        Formula::Const(false) => out.append(alloc, b"false"),
        Formula::Ind(term) => write_ind(alloc, out, term),
        Formula::Member(x, a) => write_atom(alloc, out, x, b" in ", a),
        Formula::SameElem(x, y) => write_atom(alloc, out, x, b" = ", y),
        Formula::Sub(a, b) => write_atom(alloc, out, a, b" sub ", b),
        Formula::SameSet(a, b) => write_atom(alloc, out, a, b" = ", b),
        Formula::Not(body) => {
            out.append(alloc, b"not ")?;
            write_formula(alloc, out, body)
        }
        Formula::Bin(connective, first, second) => {
            out.append(alloc, b"(")?;
            write_formula(alloc, out, first)?;
            write_between(alloc, out, *connective)?;
            write_formula(alloc, out, second)?;
            out.append(alloc, b")")
        }
        Formula::Ex(v, body) => {
            write_binder(alloc, out, b"ex ", v)?;
            write_formula(alloc, out, body)
        }
        Formula::All(v, body) => {
            write_binder(alloc, out, b"all ", v)?;
            write_formula(alloc, out, body)
        }
    }
}

/// The canonical text of a formula. It derives the formula, and so `read` gives the formula back.
pub fn print(alloc: Global, formula: &Formula) -> Result<Text, NoMemory>
    requires { is_well_sorted (syntax_of formula.now) ≡ true }
    ensures text { IfOk result (λ text. text ≡ canonical (syntax_of formula.now)) }
    ensures derived { IfOk result (λ text. IsTextOf (syntax_of formula.now) text) }
{
    let mut text = Text::new(alloc);
    write_formula(alloc, &mut text, formula)?;
    Ok(text)
}

/// The canonical text of a well sorted formula derives it.
pub fn canonical_text_derives()
    ensures { (F : Syntax) → IsProper F → is_well_sorted F ≡ true → IsTextOf F (canonical F) }
{}
