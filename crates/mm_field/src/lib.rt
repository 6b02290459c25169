//! The fields of two, three, four and five elements, and the kernels that add multiples of whole vectors.
//!
//! `Field` names a field and computes with its digits, by tables. `lanes` holds the loops that linear algebra spends
//! its time in. The words of linear algebra over a field (combination, span, independence, row space) are definitions in
//! `specs/`, with their laws in `proofs/`, for the crates above.
#![tactic(auto)]

ghost use Rattle.std.specs.Prelude.{◌≡◌, ◌≢◌, ◌+◌, ◌<◌, ◌≤◌, ◌↔◌, IsSome, IfSome};
ghost use Rattle.mm_field.specs.Digits.{order, plus, times, negative, inverse};
ghost use Rattle.mm_field.specs.FieldLaws.{IsField};

mod field_tables;
pub mod lanes;

use field_tables::{INVERSES, NEGATIVES, PRODUCTS, SUMS};

/// A digit of a field of q elements: a number from 0 to q - 1.
///
/// Over GF(2), GF(3) and GF(5) it is a number modulo q. Over GF(4), bit k of a digit is the coefficient of the k-th power
/// of a root of `z^2 + z + 1`, so that 2 is the root itself.
pub type Elt = u8;

/// One of the four fields.
#[derive(Clone, Copy, PartialEq, Eq, Hash, Debug)]
pub enum Field {
    /// GF(2), the bits.
    Two,
    /// GF(3), the numbers modulo 3.
    Three,
    /// GF(4), the polynomials over GF(2) modulo `z^2 + z + 1`.
    Four,
    /// GF(5), the numbers modulo 5.
    Five,
}

impl Field {
    /// How many elements the field has.
    #[inline]
    pub fn q(&self) -> u8
        ensures { result ≡ order self.now }
    {
        match self {
            Field::Two => 2,
            Field::Three => 3,
            Field::Four => 4,
            Field::Five => 5,
        }
    }

    /// The field of q elements. None exactly where q is not 2, 3, 4 or 5.
    pub fn of(q: u8) -> Option<Field>
        ensures exact { IfSome result (λ f. order f ≡ q) }
        ensures none { IsSome result ↔ ((1 < q) × (q < 6)) }
    {
        match q {
            2 => Some(Field::Two),
            3 => Some(Field::Three),
            4 => Some(Field::Four),
            5 => Some(Field::Five),
            _ => None,
        }
    }

    /// The sum of two digits.
    #[inline]
    pub fn add(&self, a: Elt, b: Elt) -> Elt
        requires left { a < order self.now }
        requires right { b < order self.now }
        ensures sum { result ≡ plus self.now a b }
        ensures digit { result < order self.now }
    {
        SUMS[self.row()][a as usize][b as usize]
    }

    /// The digit that a digit adds up to 0 with.
    #[inline]
    pub fn neg(&self, a: Elt) -> Elt
        requires { a < order self.now }
        ensures negative { result ≡ negative self.now a }
        ensures digit { result < order self.now }
    {
        NEGATIVES[self.row()][a as usize]
    }

    /// The product of two digits.
    #[inline]
    pub fn mul(&self, a: Elt, b: Elt) -> Elt
        requires left { a < order self.now }
        requires right { b < order self.now }
        ensures product { result ≡ times self.now a b }
        ensures digit { result < order self.now }
    {
        PRODUCTS[self.row()][a as usize][b as usize]
    }

    /// The digit whose product with a digit other than 0 is 1.
    #[inline]
    pub fn inv(&self, a: Elt) -> Elt
        requires digit { a < order self.now }
        requires nonzero { a ≢ 0 }
        ensures inverse { result ≡ inverse self.now a }
        ensures digit { result < order self.now }
    {
        INVERSES[self.row()][a as usize]
    }

    // The place of the field's tables among those of the four fields.
    #[inline]
    fn row(&self) -> usize
        ensures { result + 2 ≡ order self.now }
    {
        self.q() as usize - 2
    }

    /// The digit that a byte shows in ASCII. None exactly where the byte is not an ASCII digit of a number below q.
    pub fn digit(&self, byte: u8) -> Option<Elt>
        ensures value { IfSome result (λ d. (d < order self.now) × (d + 48 ≡ byte)) }
        ensures none { IsSome result ↔ ((48 ≤ byte) × (byte < 48 + order self.now)) }
    {
        if byte >= b'0' && byte < b'0' + self.q() {
            Some(byte - b'0')
        } else {
            None
        }
    }
}

/// The law that the digits of each of the four fields form a field.
pub fn digits_form_a_field(f: Field)
    ensures { IsField f }
{}
