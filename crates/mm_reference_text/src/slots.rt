//! Formulas as they are read, as formulas with slots.
use mm_formula::{Connective as Word, Formula as Written, Var};
use mm_reference::{Connective, Formula, Term};
use std::alloc::Global;
use std::test::Fail;

/// The slot of a variable: the place of its innermost binder.
fn slot(binders: &[Var], v: &Var) -> Result<usize, Fail> {
    let mut found = None;
    for (k, binder) in binders.iter().enumerate() {
        if v.is(binder) {
            found = Some(k);
        }
    }
    Ok(found.ok_or("a binder")?)
}

/// The slots of some variables.
fn slots(alloc: Global, binders: &[Var], vars: &[Var]) -> Result<Vec<usize>, Fail> {
    let mut slots = Vec::new(alloc);
    for v in vars {
        slots.push(slot(binders, v)?)?;
    }
    Ok(slots)
}

fn connective(word: Word) -> Connective {
    match word {
        Word::And => Connective::And,
        Word::Or => Connective::Or,
        Word::Implies => Connective::Implies,
        Word::Iff => Connective::Iff,
    }
}

/// The formula, under these binders, with the slots of its variables.
pub fn with_slots(
    alloc: Global,
    binders: &mut Vec<Var>,
    written: &Written,
) -> Result<Formula, Fail> {
    Ok(match written {
        Written::Const(b) => Formula::Const(*b),
        Written::Ind(term) => Formula::Ind(Term {
            whole: term.whole,
            slots: slots(alloc, binders, term.vars.as_slice())?,
        }),
        Written::Member(x, a) => Formula::Member(slot(binders, x)?, slot(binders, a)?),
        Written::SameElem(x, y) => Formula::SameElem(slot(binders, x)?, slot(binders, y)?),
        Written::Sub(a, b) => Formula::Sub(slot(binders, a)?, slot(binders, b)?),
        Written::SameSet(a, b) => Formula::SameSet(slot(binders, a)?, slot(binders, b)?),
        Written::Not(part) => Formula::Not(Box::new(alloc, with_slots(alloc, binders, part)?)?),
        Written::Bin(word, first, second) => {
            let first = with_slots(alloc, binders, first)?;
            let second = with_slots(alloc, binders, second)?;
            Formula::Bin(
                connective(*word),
                Box::new(alloc, first)?,
                Box::new(alloc, second)?,
            )
        }
        Written::Ex(v, part) | Written::All(v, part) => {
            let k = binders.len();
            binders.push(*v)?;
            let part = Box::new(alloc, with_slots(alloc, binders, part)?)?;
            binders.pop();
            match (written, v.is_set()) {
                (Written::Ex(_, _), true) => Formula::ExSet(k, part),
                (Written::Ex(_, _), false) => Formula::ExElem(k, part),
                (_, true) => Formula::AllSet(k, part),
                (_, false) => Formula::AllElem(k, part),
            }
        }
    })
}
