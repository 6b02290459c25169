//! The automaton of `true` and `false`.

ghost use Rattle.std.specs.Prelude.{◌≡◌, []};

use crate::flag_auto::{FlagAuto, FlagRule};
use crate::value::AtomValue;
use mm_states::Letter;
use std::alloc::Global;

const UNIT: u8 = 0;

/// The rule of `true` or `false`.
#[derive(Clone, Copy)]
pub struct ConstRule {
    holds: bool,
}

/// The automaton of `true` or `false`.
pub type ConstAuto = FlagAuto<ConstRule>;

impl FlagAuto<ConstRule> {
    /// The automaton, with no values.
    pub fn new(alloc: Global, value: bool) -> ConstAuto
        ensures value { result.rule.holds ≡ value }
        ensures flags { result.flags.flags.items ≡ [] }
        ensures mark { result.flags.mark ≡ 0 }
    {
        FlagAuto::of(alloc, ConstRule { holds: value })
    }
}

impl FlagRule for ConstRule {
    ghost use Rattle.mm_logic.specs.Formula.Formula.{Const};

    ghost shape = { λ r. Const r.holds };

    ghost atomic = { λ r. tt };

    fn at_leaf(&self, _letter: &Letter) -> u8 {
        UNIT
    }

    fn at_join(&self, _left: u8, _right: u8) -> u8 {
        UNIT
    }

    fn accepts(&self, _flag: u8) -> bool {
        self.holds
    }

    fn shown(&self, _flag: u8) -> AtomValue {
        AtomValue::Unit
    }
}
