//! The laws of named trees: what their nodes and the weights of their elements are.
ghost use Rattle.mm_job_laws.specs.TreeLaws.{ElementsAreNamedAndWeighted, SubtreesAreOfNodes, WeightsOfSetsFit};

/// Each element has a name and a weight: there are as many of both as elements.
pub fn elements_are_named_and_weighted()
    ensures { ElementsAreNamedAndWeighted }
{}

/// The weight of any set of elements of a valid tree fits an i64.
pub fn weights_of_sets_fit()
    ensures { WeightsOfSetsFit }
{}

/// The subtrees of a tree are those of its nodes, by their numbers and by the ways to them.
pub fn subtrees_are_of_nodes()
    ensures { SubtreesAreOfNodes }
{}
