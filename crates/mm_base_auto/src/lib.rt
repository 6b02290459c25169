//! The automata of the six atoms: what `true`, `ind`, `x in X`, `x = y`, `X sub Y` and `X = Y` have as types, numbered.
//!
//! The types of five of them are flags, of which an atom has at most five: they stand in a short list in place, and a look-up goes
//! through it. These five are one automaton, [`FlagAuto`], by the rule of the atom. The types of `ind` are subspaces of the boundary,
//! each packed in one number and found by one hash; a join of two is one elimination. `value` shows the type of a number.
#![tactic(auto)]

mod atom;
mod constant;
mod flag_auto;
mod flags;
mod ind;
mod marks;
mod member;
mod same;
mod space;
mod subset;
mod value;

pub use atom::Atom;
pub use constant::{ConstAuto, ConstRule};
pub use flag_auto::{FlagAuto, FlagRule};
pub use ind::{IndAuto, SlotTerm};
pub use member::{MemberAuto, MemberRule};
pub use same::{SameAuto, SameRule};
pub use subset::{SameSetAuto, SameSetRule, SubAuto, SubRule};
pub use value::AtomValue;
