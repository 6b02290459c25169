//! The laws of trees that are built for decompositions, and of the headers that are written of them, proved over the definitions alone.
//! Each law is the contract of a function that does nothing.
#![tactic(auto)]

ghost use Rattle.mm_decomp_laws.specs.DualLaws.{DualsAreNarrow, TreesOfDualsAreDual};
ghost use Rattle.mm_decomp_laws.specs.QueriesAfterHeaders.{QueriesDecide};
ghost use Rattle.mm_decomp_laws.specs.Ranks.{BoundariesAreConnectivities};
ghost use Rattle.mm_decomp_laws.specs.RowSpaces.{BuiltTreesHaveTheGivenRowSpace};
ghost use Rattle.mm_decomp_laws.specs.WrittenHeaders.{WrittenHeadersAreRead};

/// The boundary of a join is the rank of the columns below it, and that of the columns outside, less that of all columns. At a leaf it is
/// 0 for a zero column, and else 1.
pub fn boundaries_are_connectivities()
    ensures { BoundariesAreConnectivities }
{}

/// The matrix of the tree that is built has the row space of the given rows.
pub fn built_trees_have_the_given_row_space()
    ensures { BuiltTreesHaveTheGivenRowSpace }
{}

/// The rows of the tree that is built for the dual of a tree's rows, and the tree's shape, are exactly those orthogonal to the tree's.
pub fn trees_of_duals_are_dual()
    ensures { TreesOfDualsAreDual }
{}

/// No boundary of a dual is above 6, where the shape is that of a parse tree.
pub fn duals_are_narrow()
    ensures { DualsAreNarrow }
{}

/// A header that is written for names, rows and a tree is read as these, up to its last line, whatever text comes after it.
pub fn written_headers_are_read()
    ensures { WrittenHeadersAreRead }
{}

/// After the header that `build` makes of a text, and after that of a dual, a query line is the first line that can be refused, and the
/// rows and the tree agree.
pub fn queries_after_headers_decide()
    ensures { QueriesDecide }
{}
