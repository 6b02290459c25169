//! A term while it is read.
ghost use Rattle.std.specs.Prelude.{◌≡◌, [], ◌∷◌, true, false, IfOk};
ghost use Rattle.mm_formula_text.specs.Grammar.{mention, mention_all};

use indexmap::IndexSet;
use mm_base::NoMemory;
use mm_formula::{Term, Var, VarList};
use std::alloc::Global;
use std::marker::Model;

/// The parts of a term so far. Its variables are kept in a set too, so that each further one is looked up in one step.
#[derive(Drop)]
pub struct Parts {
    term: Term,
    seen: IndexSet<Var>,
}

impl Model for Parts {
    ghost use Rattle.mm_formula.specs.declared.formula.Term.{Term};
    ghost use Rattle.mm_formula_text.specs.PartsView.{IsSeen};

    ghost Value = { Term };

    ghost view = { λ p. p.term };

    ghost invariant = { IsSeen };
}

impl Parts {
    /// A term of one variable.
    pub fn variable(alloc: Global, v: Var) -> Result<Parts, NoMemory>
        ensures { IfOk result (λ t. t ≡ record { whole = false; vars = v ∷ [] }) }
    {
        Parts::nothing(alloc).mention(alloc, v)
    }

    /// The term of all elements.
    pub fn all_elements(alloc: Global) -> Parts
        ensures { result ≡ record { whole = true; vars = [] } }
    {
        Parts {
            term: Term {
                whole: true,
                vars: VarList::new(alloc),
            },
            seen: IndexSet::new(alloc),
        }
    }

    /// No parts.
    fn nothing(alloc: Global) -> Parts
        ensures { result ≡ record { whole = false; vars = [] } }
    {
        Parts {
            term: Term {
                whole: false,
                vars: VarList::new(alloc),
            },
            seen: IndexSet::new(alloc),
        }
    }

    /// The term with a variable joined to it.
    pub fn mention(self, alloc: Global, v: Var) -> Result<Parts, NoMemory>
        ensures { IfOk result (λ t. t ≡ mention self v) }
    {
        let Parts { mut term, mut seen } = self;
        let (_, is_new) = seen.insert_full(v)?;
        if !is_new {
            return Ok(Parts { term, seen });
        }
        term.vars.push(alloc, v)?;
        Ok(Parts { term, seen })
    }

    /// The term with all elements joined to it.
    pub fn mention_all(self) -> Parts
        ensures { result ≡ mention_all self }
    {
        let mut parts = self;
        parts.term.whole = true;
        parts
    }

    /// The term.
    pub fn term(self) -> Term
        ensures { result ≡ self }
    {
        self.term
    }
}
