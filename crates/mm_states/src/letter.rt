//! What a leaf of a parse tree says, and why a call of an automaton gives no number.

ghost use Rattle.std.specs.Prelude.{◌≡◌};
ghost use Rattle.mm_states.specs.declared.letter.AutoFault.TheVariants as fault;

use mm_base::NoMemory;
use mm_field::Field;
use mm_space::Vector;

/// What a leaf of a parse tree shows to an automaton.
#[derive(Clone, Copy, Debug)]
pub struct Letter {
    /// The field of the vector.
    pub field: Field,
    /// The boundary of the leaf, at most 6 digits: where it has an element, the length of its vector.
    pub t: u8,
    /// The vector of its element, where it has one.
    pub vec: Option<Vector>,
    /// The marks of its element: bit s says that the element is in, or is, the variable of slot s. 0 without an element.
    pub marks: u16,
}

/// Why a call of an automaton or of a table gives no number.
#[derive(Clone, Copy, Debug, PartialEq, Eq)]
pub enum AutoFault {
    /// The cells of the values that are needed and missing exceed the room.
    Full,
    /// Memory ran out.
    NoMemory,
}

impl From<NoMemory> for AutoFault {
    ghost from_gives = { λ _ e. e ≡ fault.NoMemory };

    fn from(_: NoMemory) -> AutoFault {
        AutoFault::NoMemory
    }
}
