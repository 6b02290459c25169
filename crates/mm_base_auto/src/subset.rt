//! The automata of `X sub Y` and `X = Y`.

ghost use Rattle.std.specs.Prelude.{◌≡◌, ◌<◌, []};
ghost use Rattle.mm_logic.specs.Value.{Value as value};
ghost use Rattle.mm_logic.specs.AtomValues.{holding, holding_join};
ghost use Rattle.mm_base_auto.specs.Atoms.{shown_holding};

use crate::flag_auto::{FlagAuto, FlagRule};
use crate::marks::has_mark;
use crate::value::AtomValue;
use mm_states::Letter;
use std::alloc::Global;

const HOLDS: u8 = 0;

const FAILS: u8 = 1;

// The flag of a test.
fn holding(holds: bool) -> u8
    ensures { value.Flag result ≡ holding holds }
{
    if holds { HOLDS } else { FAILS }
}

// The flag at a join: it holds where it holds on both sides.
fn joined(left: u8, right: u8) -> u8
    ensures { value.Flag result ≡ holding_join (value.Flag left) (value.Flag right) }
{
    if left == HOLDS { right } else { left }
}

fn shown_holding(flag: u8) -> AtomValue
    ensures { result ≡ shown_holding (value.Flag flag) }
{
    match flag {
        HOLDS => AtomValue::Holds,
        _ => AtomValue::Fails,
    }
}

/// The rule of `X sub Y`, by the slots of X and Y.
#[derive(Clone, Copy)]
pub struct SubRule {
    a: u8,
    b: u8,
    ghost small_a: { a < 16 },
    ghost small_b: { b < 16 },
}

/// The automaton of `X sub Y`, by the slots of X and Y.
pub type SubAuto = FlagAuto<SubRule>;

impl FlagAuto<SubRule> {
    /// The automaton, with no values.
    pub fn new(alloc: Global, a: u8, b: u8) -> SubAuto
        requires a { a < 16 }
        requires b { b < 16 }
        ensures a { result.rule.a ≡ a }
        ensures b { result.rule.b ≡ b }
        ensures flags { result.flags.flags.items ≡ [] }
        ensures mark { result.flags.mark ≡ 0 }
    {
        FlagAuto::of(alloc, SubRule { a, b })
    }
}

impl FlagRule for SubRule {
    ghost use Rattle.mm_logic.specs.Formula.Formula.{Sub};

    ghost shape = { λ r. Sub r.a r.b };

    ghost atomic = { λ r. tt };

    fn at_leaf(&self, letter: &Letter) -> u8 {
        if letter.vec.is_none() {
            return HOLDS;
        }
        let (a, b) = (
            has_mark(letter.marks, self.a),
            has_mark(letter.marks, self.b),
        );
        holding(!a || b)
    }

    fn at_join(&self, left: u8, right: u8) -> u8 {
        joined(left, right)
    }

    fn accepts(&self, flag: u8) -> bool {
        flag == HOLDS
    }

    fn shown(&self, flag: u8) -> AtomValue {
        shown_holding(flag)
    }
}

/// The rule of `X = Y`, by the slots of X and Y.
#[derive(Clone, Copy)]
pub struct SameSetRule {
    a: u8,
    b: u8,
    ghost small_a: { a < 16 },
    ghost small_b: { b < 16 },
}

/// The automaton of `X = Y`, by the slots of X and Y.
pub type SameSetAuto = FlagAuto<SameSetRule>;

impl FlagAuto<SameSetRule> {
    /// The automaton, with no values.
    pub fn new(alloc: Global, a: u8, b: u8) -> SameSetAuto
        requires a { a < 16 }
        requires b { b < 16 }
        ensures a { result.rule.a ≡ a }
        ensures b { result.rule.b ≡ b }
        ensures flags { result.flags.flags.items ≡ [] }
        ensures mark { result.flags.mark ≡ 0 }
    {
        FlagAuto::of(alloc, SameSetRule { a, b })
    }
}

impl FlagRule for SameSetRule {
    ghost use Rattle.mm_logic.specs.Formula.Formula.{SameSet};

    ghost shape = { λ r. SameSet r.a r.b };

    ghost atomic = { λ r. tt };

    fn at_leaf(&self, letter: &Letter) -> u8 {
        if letter.vec.is_none() {
            return HOLDS;
        }
        let (a, b) = (
            has_mark(letter.marks, self.a),
            has_mark(letter.marks, self.b),
        );
        holding(a == b)
    }

    fn at_join(&self, left: u8, right: u8) -> u8 {
        joined(left, right)
    }

    fn accepts(&self, flag: u8) -> bool {
        flag == HOLDS
    }

    fn shown(&self, flag: u8) -> AtomValue {
        shown_holding(flag)
    }
}
