//! The types of atoms, as they are shown.

use mm_space::Key;

/// The type of an atom.
#[derive(Clone, Copy, Debug, PartialEq, Eq)]
pub enum AtomValue {
    /// Of `true` and `false`.
    Unit,
    /// Of `ind`: the elements are dependent.
    Dead,
    /// Of `ind`: the boundary space.
    Space(Key),
    /// Of `x in X`: x is not assigned.
    Unseen,
    /// Of `x in X`: x is in X.
    Yes,
    /// Of `x in X`: x is not in X.
    No,
    /// Of `x = y`: neither is assigned.
    Neither,
    /// Of `x = y`: x alone is assigned.
    OnlyX,
    /// Of `x = y`: y alone is assigned.
    OnlyY,
    /// Of `x = y`: both are one element.
    Same,
    /// Of `x = y`: they are two elements.
    Diff,
    /// Of `X sub Y` and `X = Y`: it holds of the elements so far.
    Holds,
    /// Of `X sub Y` and `X = Y`: it fails.
    Fails,
}
