//! Terms and formulas.
ghost use Rattle.std.specs.Prelude.{◌≡◌, IfOk};
ghost use Rattle.mm_formula.specs.Syntax.{syntax_of};
ghost use Rattle.mm_formula.specs.Syntax as formula;

use crate::{Var, VarList};
use mm_base::NoMemory;
use std::alloc::Global;

/// A set of elements: the union of variables, or all elements.
#[derive(Drop)]
pub struct Term {
    /// The term mentions `*`, the set of all elements.
    pub whole: bool,
    /// The variables in the order of their first mention.
    pub vars: VarList,
}

/// A connective of two formulas.
#[derive(Clone, Copy, Debug, PartialEq, Eq)]
pub enum Connective {
    /// Both hold.
    And,
    /// At least one holds.
    Or,
    /// The second holds where the first does.
    Implies,
    /// Both hold, or neither does.
    Iff,
}

/// A formula.
#[derive(Drop)]
pub enum Formula {
    /// `true` or `false`.
    Const(bool),
    /// The columns of the term's elements are independent.
    Ind(Term),
    /// The element is in the set.
    Member(Var, Var),
    /// The elements are one.
    SameElem(Var, Var),
    /// The first set is within the second.
    Sub(Var, Var),
    /// The sets are one.
    SameSet(Var, Var),
    /// The formula does not hold.
    Not(Box<Formula>),
    /// Two formulas with a connective between them.
    Bin(Connective, Box<Formula>, Box<Formula>),
    /// There is a set, or an element, with which the formula holds.
    Ex(Var, Box<Formula>),
    /// The formula holds with each set, or each element.
    All(Var, Box<Formula>),
}

impl Formula {
    /// The formula that holds where this one does not.
    pub fn negated(alloc: Global, body: Formula) -> Result<Formula, NoMemory>
        ensures { IfOk result (λ F. syntax_of F ≡ formula.Syntax.Not (syntax_of body)) }
    {
        Ok(Formula::Not(Box::new(alloc, body)?))
    }

    /// Two formulas with a connective between them.
    pub fn combined(
        alloc: Global,
        connective: Connective,
        first: Box<Formula>,
        second: Formula,
    ) -> Result<Formula, NoMemory>
        ensures { IfOk result (λ F. syntax_of F ≡ formula.Syntax.Bin connective (syntax_of first.value) (syntax_of second)) }
    {
        Ok(Formula::Bin(connective, first, Box::new(alloc, second)?))
    }

    /// The formula with some set, or some element, for its variable.
    pub fn with_some(alloc: Global, v: Var, body: Formula) -> Result<Formula, NoMemory>
        ensures { IfOk result (λ F. syntax_of F ≡ formula.Syntax.Ex v (syntax_of body)) }
    {
        Ok(Formula::Ex(v, Box::new(alloc, body)?))
    }

    /// The formula with each set, or each element, for its variable.
    pub fn with_each(alloc: Global, v: Var, body: Formula) -> Result<Formula, NoMemory>
        ensures { IfOk result (λ F. syntax_of F ≡ formula.Syntax.All v (syntax_of body)) }
    {
        Ok(Formula::All(v, Box::new(alloc, body)?))
    }
}
