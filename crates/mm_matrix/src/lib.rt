//! Matrices over GF(q): rows of digits, their elimination, and the rows that are orthogonal to them.
#![tactic(auto)]

mod bit_rows;
mod echelon;
mod elimination;
mod matrix;
mod orthogonality;
mod products;

pub use bit_rows::first_outside_bits;
pub use echelon::Echelon;
pub use matrix::Matrix;
pub use orthogonality::orthogonal;
pub use products::combination;
