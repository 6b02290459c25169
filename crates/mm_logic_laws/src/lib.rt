//! The laws of the logic, proved over its definitions alone: why types that are joined from the leaves upwards decide what a
//! formula means on a matroid, and why the first sets of types give the least set. Each law is the contract of a function that
//! does nothing; `docs/THEORY.md` tells them in order.
#![tactic(auto)]

ghost use Rattle.mm_logic_laws.specs.MatrixLaws.{MatrixHasItsSize, ColumnsSplitOnce, InternalRowsArePadded, FormatOneSplitsDigits, FormatOneIsValid, PivotsAreMeant, ColumnsOfJoinArePadded, RowsOfJoinAreCombined};
ghost use Rattle.mm_logic_laws.specs.SpaceLaws.{IndependenceIsDecided, BoundarySpaceIsMeant, PreimageIsMeant, BasisIsMeant, IndependenceAtJoin, BoundarySpaceAtJoin, SpansAreDecided, JoinOfSpacesIsMeant};
ghost use Rattle.mm_logic_laws.specs.SplitLaws.{SetsSplitOnce, ElementsSplitOnce, SinglesSplitOnce};
ghost use Rattle.mm_logic_laws.specs.MeaningLaws.{MeaningIsDecided, TypesAreMadeByJoins, AcceptanceIsMeaning};
ghost use Rattle.mm_logic_laws.specs.LeastLaws.{LeastSetIsMeant, LeastSetsRestrict, FirstsOfPairs, AnswerOfFirsts, PairsOfFirstsHaveAllTypes, FirstsHaveDifferentTypes, FirstsAreAsManyAsTypes, NothingWithoutAcceptedFirst};
ghost use Rattle.mm_logic_laws.specs.OccurrenceLaws.{OccurrenceSplits, OccursInEither, CellsGrow, RuleValuesOccur, CellsAreOfWhatOccurs};
ghost use Rattle.mm_logic_laws.specs.SizeLaws.{RowsOfDecideAreNodes, TypesOfQueriesAreMadeByJoins};
ghost use Rattle.mm_logic_laws.specs.ValueLaws.{RulesKeepValues, TypesAreValues, TypesAreGivenByRules};
ghost use Rattle.mm_logic_laws.specs.TreeLaws.{SubtreesAreValid, SubtreesAreInOrder, WeightsFit};

/// The matrix of a tree has a column for each element and a row for each boundary and internal digit.
pub fn matrix_has_its_size()
    ensures { MatrixHasItsSize }
{}

/// A column of a join has its boundary digits and its internal digits in exactly one way.
pub fn columns_split_once()
    ensures { ColumnsSplitOnce }
{}

/// A column of a join is its boundary digits, its new internal digits, and the padded old ones.
pub fn columns_of_join_are_padded()
    ensures { ColumnsOfJoinArePadded }
{}

/// The boundary rows and the new internal rows of a join are combinations of the boundary rows of its children.
pub fn rows_of_join_are_combined()
    ensures { RowsOfJoinAreCombined }
{}

/// The internal rows of a join are those of its children, padded with zeros.
pub fn internal_rows_are_padded()
    ensures { InternalRowsArePadded }
{}

/// With the first unit vectors as third boundary, the boundary digits come first.
pub fn format_one_splits_digits()
    ensures { FormatOneSplitsDigits }
{}

/// The first unit vectors are a third boundary.
pub fn format_one_is_valid()
    ensures { FormatOneIsValid }
{}

/// The pivot columns of a third boundary are those of its reduced echelon form.
pub fn pivots_are_meant()
    ensures { PivotsAreMeant }
{}

/// Elimination decides independence.
pub fn independence_is_decided()
    ensures { IndependenceIsDecided }
{}

/// The basis of a boundary space spans it.
pub fn boundary_space_is_meant()
    ensures { BoundarySpaceIsMeant }
{}

/// The basis of a preimage spans it.
pub fn preimage_is_meant()
    ensures { PreimageIsMeant }
{}

/// A space has one reduced echelon basis, and it is written by it.
pub fn basis_is_meant()
    ensures { BasisIsMeant }
{}

/// Elimination decides whether a vector is in a span, and whether two spans meet in zero alone.
pub fn spans_are_decided()
    ensures { SpansAreDecided }
{}

/// Boundary spaces decide independence at a join.
pub fn independence_at_join()
    ensures { IndependenceAtJoin }
{}

/// Boundary spaces give the boundary space at a join.
pub fn boundary_space_at_join()
    ensures { BoundarySpaceAtJoin }
{}

/// The join rule of `ind` gives what the images of two spaces say, whatever the spaces are.
pub fn join_of_spaces_is_meant()
    ensures { JoinOfSpacesIsMeant }
{}

/// A set of the elements of a join is one set of each child's, in exactly one way.
pub fn sets_split_once()
    ensures { SetsSplitOnce }
{}

/// An element of a join is exactly one element of one child.
pub fn elements_split_once()
    ensures { ElementsSplitOnce }
{}

/// The set of one element of a join is that set in one child, with no element of the other.
pub fn singles_split_once()
    ensures { SinglesSplitOnce }
{}

/// Listing all sets and elements decides what a formula means.
pub fn meaning_is_decided()
    ensures { MeaningIsDecided }
{}

/// The types read from the matrix are those that the rules make from the leaves upwards.
pub fn types_are_made_by_joins()
    ensures { TypesAreMadeByJoins }
{}

/// A type is accepted exactly where the formula holds.
pub fn acceptance_is_meaning()
    ensures { AcceptanceIsMeaning }
{}

/// The rules give values of the formula whose spaces are of the boundary of the node.
pub fn rules_keep_values()
    ensures { RulesKeepValues }
{}

/// A type is a value of the formula whose spaces are of the boundary of the tree.
pub fn types_are_values()
    ensures { TypesAreValues }
{}

/// The types that a query asks for are, at every node, those that the rules give.
pub fn types_are_given_by_rules()
    ensures { TypesAreGivenByRules }
{}

/// Listing all sets finds the least set, and nothing exactly where no set satisfies the formula.
pub fn least_set_is_meant()
    ensures { LeastSetIsMeant }
{}

/// The first set of a type at a join restricts to the first set of its own type in each child.
pub fn least_sets_restrict()
    ensures { LeastSetsRestrict }
{}

/// The first set of a type at a join is found among pairs of first sets.
pub fn firsts_of_pairs()
    ensures { FirstsOfPairs }
{}

/// Each type at a join is that of a pair of first sets.
pub fn pairs_of_firsts_have_all_types()
    ensures { PairsOfFirstsHaveAllTypes }
{}

/// First sets of one type are one set.
pub fn firsts_have_different_types()
    ensures { FirstsHaveDifferentTypes }
{}

/// The first sets of a node are as many as its different types.
pub fn firsts_are_as_many_as_types()
    ensures { FirstsAreAsManyAsTypes }
{}

/// The least set is the first accepted first set at the root.
pub fn answer_of_firsts()
    ensures { AnswerOfFirsts }
{}

/// No set satisfies the formula where no first set at the root has an accepted type.
pub fn nothing_without_accepted_first()
    ensures { NothingWithoutAcceptedFirst }
{}

/// What occurs in two lists of types, node by node.
pub fn occurrence_splits()
    ensures { OccurrenceSplits }
{}

/// A value occurs in two lists of types exactly where it occurs in one or in the other.
pub fn occurs_in_either()
    ensures { OccursInEither }
{}

/// Cells grow by the values that are new.
pub fn cells_grow()
    ensures { CellsGrow }
{}

/// Cells depend only on which values occur.
pub fn cells_are_of_what_occurs()
    ensures { CellsAreOfWhatOccurs }
{}

/// What the rules give at the places below a type occurs in it, and nothing else does.
pub fn rule_values_occur()
    ensures { RuleValuesOccur }
{}

/// A formula that is decided has one row for each node of the tree.
pub fn rows_of_decide_are_nodes()
    ensures { RowsOfDecideAreNodes }
{}

/// The types that a query asks for are made from the leaves upwards.
pub fn types_of_queries_are_made_by_joins()
    ensures { TypesOfQueriesAreMadeByJoins }
{}

/// The subtrees of a valid tree are valid.
pub fn subtrees_are_valid()
    ensures { SubtreesAreValid }
{}

/// The subtrees of a join are itself, those of its left child, and those of its right child.
pub fn subtrees_are_in_order()
    ensures { SubtreesAreInOrder }
{}

/// The weight of a set of elements fits an i64.
pub fn weights_fit()
    ensures { WeightsFit }
{}
