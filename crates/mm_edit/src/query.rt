//! What is asked of a formula.

/// What is asked of a formula.
#[derive(Clone, Copy, Debug, PartialEq, Eq)]
pub enum Query {
    /// Whether it holds.
    Decide,
    /// The least set that satisfies it, as its variable of slot 0.
    Least,
}
