//! The automaton of `x in X`.

ghost use Rattle.std.specs.Prelude.{◌≡◌, ◌<◌, []};
ghost use Rattle.mm_logic.specs.Value.{Value as value};
ghost use Rattle.mm_logic.specs.AtomValues.{member_join};

use crate::flag_auto::{FlagAuto, FlagRule};
use crate::marks::has_mark;
use crate::value::AtomValue;
use mm_states::Letter;
use std::alloc::Global;

const UNSEEN: u8 = 0;

const YES: u8 = 1;

const NO: u8 = 2;

/// The rule of `x in X`, by the slots of x and X.
#[derive(Clone, Copy)]
pub struct MemberRule {
    x: u8,
    set: u8,
    ghost small_x: { x < 16 },
    ghost small_set: { set < 16 },
}

/// The automaton of `x in X`, by the slots of x and X.
pub type MemberAuto = FlagAuto<MemberRule>;

impl FlagAuto<MemberRule> {
    /// The automaton, with no values.
    pub fn new(alloc: Global, x: u8, set: u8) -> MemberAuto
        requires x { x < 16 }
        requires set { set < 16 }
        ensures x { result.rule.x ≡ x }
        ensures set { result.rule.set ≡ set }
        ensures flags { result.flags.flags.items ≡ [] }
        ensures mark { result.flags.mark ≡ 0 }
    {
        FlagAuto::of(alloc, MemberRule { x, set })
    }
}

// The flag at a join: the left one, unless x is unassigned there.
fn joined(left: u8, right: u8) -> u8
    ensures { value.Flag result ≡ member_join (value.Flag left) (value.Flag right) }
{
    if left == UNSEEN { right } else { left }
}

impl FlagRule for MemberRule {
    ghost use Rattle.mm_logic.specs.Formula.Formula.{Member};

    ghost shape = { λ r. Member r.x r.set };

    ghost atomic = { λ r. tt };

    fn at_leaf(&self, letter: &Letter) -> u8 {
        if letter.vec.is_none() || !has_mark(letter.marks, self.x) {
            UNSEEN
        } else if has_mark(letter.marks, self.set) {
            YES
        } else {
            NO
        }
    }

    fn at_join(&self, left: u8, right: u8) -> u8 {
        joined(left, right)
    }

    fn accepts(&self, flag: u8) -> bool {
        flag == YES
    }

    fn shown(&self, flag: u8) -> AtomValue {
        match flag {
            UNSEEN => AtomValue::Unseen,
            YES => AtomValue::Yes,
            _ => AtomValue::No,
        }
    }
}
