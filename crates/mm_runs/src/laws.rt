//! The law of runs as a list. It is the contract of a function that does nothing.

ghost use Rattle.mm_runs.specs.Listing.{RunsStandAsListed};

/// Runs stand for a tree exactly where their list in the order of places does: one entry for each node, with the number of nodes of its
/// subtree, and the number of the type that is joined there.
pub fn runs_stand_as_listed()
    ensures { RunsStandAsListed }
{}
