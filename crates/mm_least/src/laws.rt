//! The law of rows: they are first sets. It is the contract of a function that does nothing.

ghost use Rattle.mm_least.specs.LeastSets.{RowsAreFirstSets};

/// The rows of the root of what stands for a tree are the first sets of all types, by weight and then by leaf word, and they stand in the
/// order of their leaf words.
pub fn rows_are_first_sets()
    ensures { RowsAreFirstSets }
{}
