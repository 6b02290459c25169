//! Lines of a text that comes in pieces, their tokens, and numbers in decimal digits.
//!
//! - [`Framer`] is fed a text in any pieces, and hands out its lines: numbered from 1, without
//!   comments and lines of blanks. Which lines those are is said by the whole text alone, however
//!   it was cut. A line that is too long is known as such before its end comes.
//! - [`Line`] has a number and, if it is not too long, its bytes, which are read token by token.
//! - [`read_u32`] and [`read_i64`] read a token as a number.
//!
//! A line costs one search for its newline, which never goes over a byte twice, and one copy. A line
//! that is passed over is not copied. A framer holds its whole text.
#![tactic(auto)]

/// The most bytes of a text that are used.
pub const MOST_BYTES: usize = 67_108_864;

/// The least length of a line that is too long, in bytes before its newline.
pub const TOO_LONG: usize = 65_537;

mod framer;
mod laws;
mod line;
mod numbers;
mod place;
mod token;

pub use framer::Framer;
pub use laws::{
    a_rest_has_the_tokens_from_its_own_on, framed_lines_are_those_of_the_text, settled_lines_stay,
};
pub use line::{Bytes, Line, LineText};
pub use numbers::{read_i64, read_u32};
pub use token::Tokens;
