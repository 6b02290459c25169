//! The values that a certificate numbers.

use mm_cert_lines::Numbers;
use mm_space::Key;

/// What a value is, by the numbers of the values below it.
#[derive(Drop, PartialEq, Eq, Hash)]
pub enum Content {
    /// The value of an atom other than `ind`.
    Flag(u8),
    /// The value of `ind` for dependent columns.
    Dead,
    /// The value of `ind` for independent columns.
    Space(Key),
    /// The values of the two parts of a connective.
    Parts(u32, u32),
    /// The members of the value of a set quantifier.
    SetOf(Numbers),
    /// The unassigned value and the members of the value of an element quantifier.
    OneOf(u32, Numbers),
}

/// A value of a place of the formula.
#[derive(Drop, PartialEq, Eq, Hash)]
pub struct Valued {
    /// The number of the place.
    pub place: u32,
    /// What stands there.
    pub content: Content,
}
