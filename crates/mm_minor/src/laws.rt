//! What the minor formula means. Each law is the contract of a function that does nothing.
ghost use Rattle.mm_minor.specs.Contractions.{AnySetMayBeContracted};
ghost use Rattle.mm_minor.specs.Minors.{MinorsAreAsked};

/// The minor formula of a matrix holds on a tree exactly where the tree's matroid has the matroid of the matrix as a minor.
pub fn minors_are_asked()
    ensures { MinorsAreAsked }
{}

/// A minor by any set that is contracted is one by an independent set, so that none is missed.
pub fn any_set_may_be_contracted()
    ensures { AnySetMayBeContracted }
{}
