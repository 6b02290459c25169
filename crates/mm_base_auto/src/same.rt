//! The automaton of `x = y`.

ghost use Rattle.std.specs.Prelude.{◌≡◌, ◌<◌, []};
ghost use Rattle.mm_logic.specs.Value.{Value as value};
ghost use Rattle.mm_logic.specs.AtomValues.{same_elem_join};

use crate::flag_auto::{FlagAuto, FlagRule};
use crate::marks::has_mark;
use crate::value::AtomValue;
use mm_states::Letter;
use std::alloc::Global;

const NEITHER: u8 = 0;

const ONLY_X: u8 = 1;

const ONLY_Y: u8 = 2;

const SAME: u8 = 3;

const DIFF: u8 = 4;

/// The rule of `x = y`, by the slots of x and y.
#[derive(Clone, Copy)]
pub struct SameRule {
    x: u8,
    y: u8,
    ghost small_x: { x < 16 },
    ghost small_y: { y < 16 },
}

/// The automaton of `x = y`, by the slots of x and y.
pub type SameAuto = FlagAuto<SameRule>;

impl FlagAuto<SameRule> {
    /// The automaton, with no values.
    pub fn new(alloc: Global, x: u8, y: u8) -> SameAuto
        requires x { x < 16 }
        requires y { y < 16 }
        ensures x { result.rule.x ≡ x }
        ensures y { result.rule.y ≡ y }
        ensures flags { result.flags.flags.items ≡ [] }
        ensures mark { result.flags.mark ≡ 0 }
    {
        FlagAuto::of(alloc, SameRule { x, y })
    }
}

// The flag at a join: that of the side on which something is assigned; two variables that are assigned apart are two elements.
fn joined(left: u8, right: u8) -> u8
    ensures { value.Flag result ≡ same_elem_join (value.Flag left) (value.Flag right) }
{
    if left == NEITHER {
        right
    } else if (left == ONLY_X && right == ONLY_Y) || (left == ONLY_Y && right == ONLY_X) {
        DIFF
    } else {
        left
    }
}

impl FlagRule for SameRule {
    ghost use Rattle.mm_logic.specs.Formula.Formula.{SameElem};

    ghost shape = { λ r. SameElem r.x r.y };

    ghost atomic = { λ r. tt };

    fn at_leaf(&self, letter: &Letter) -> u8 {
        if letter.vec.is_none() {
            return NEITHER;
        }
        match (
            has_mark(letter.marks, self.x),
            has_mark(letter.marks, self.y),
        ) {
            (false, false) => NEITHER,
            (true, false) => ONLY_X,
            (false, true) => ONLY_Y,
            (true, true) => SAME,
        }
    }

    fn at_join(&self, left: u8, right: u8) -> u8 {
        joined(left, right)
    }

    fn accepts(&self, flag: u8) -> bool {
        flag == SAME
    }

    fn shown(&self, flag: u8) -> AtomValue {
        match flag {
            NEITHER => AtomValue::Neither,
            ONLY_X => AtomValue::OnlyX,
            ONLY_Y => AtomValue::OnlyY,
            SAME => AtomValue::Same,
            _ => AtomValue::Diff,
        }
    }
}
