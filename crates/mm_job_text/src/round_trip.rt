//! The laws that what is written of a valid tree is read as the tree, and that the operators of a tree that was read are those under
//! their names.
ghost use Rattle.mm_job_text.specs.WrittenTrees.{ReadTreesHaveTheirOperators, WrittenTreesAreReadBack};

/// The lines that are written of a valid tree are read as the same tree.
pub fn written_trees_are_read_back()
    ensures { WrittenTreesAreReadBack }
{}

/// Where a tree was read over operators of a field, these hold each join's one under its name.
pub fn read_trees_have_their_operators()
    ensures { ReadTreesHaveTheirOperators }
{}
