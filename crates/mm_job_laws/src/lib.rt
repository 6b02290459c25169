//! The laws of a job, proved over its definitions alone: those of its header, of its answers and of its tree. Each law is the contract
//! of a function that does nothing.
#![tactic(auto)]

ghost use Rattle.mm_job_laws.specs.Agreement.{SameExactlyWhereTheyAgree};
ghost use Rattle.mm_job_laws.specs.HeaderLaws.{LinesAreSound, OutputRefusesRowsExactly, OutputRefusesSizeExactly, RowsAreRefusedExactly};

mod answers;
mod trees;

pub use answers::{
    answer_lines_are_answers, checks_are_answered, decisions_ignore_weights, headers_give_sessions,
    items_keep_sessions_sound, minors_are_decided, minors_are_told,
    query_lines_give_what_they_spell, refusals_change_nothing, replacements_are_answered,
    sessions_may_begin_with_the_present_tree, the_output_answers_checks,
    the_output_answers_replacements, the_output_answers_weights, the_output_begins_with_the_answer,
    the_output_names_the_difference, verdicts_are_meant, weights_are_answered,
};
pub use trees::{elements_are_named_and_weighted, subtrees_are_of_nodes, weights_of_sets_fit};

/// Given rows and a tree are compared as the same exactly where each has the elements and the row space of the other.
pub fn compared_says_same_exactly_where_they_agree()
    ensures { SameExactlyWhereTheyAgree }
{}

/// The lines before the query, where none is faulty, give different names, rows with a digit for each of them, and a valid tree.
pub fn the_lines_before_the_query_are_sound()
    ensures { LinesAreSound }
{}

/// Where the query is reached and no line is faulty, a header is refused for its rows exactly where they do not agree with the
/// tree.
pub fn rows_are_refused_exactly_where_they_disagree()
    ensures { RowsAreRefusedExactly }
{}

/// Where no line of a job up to its query is faulty, its output is one line that refuses the rows exactly where they do not agree
/// with the tree.
pub fn the_output_refuses_rows_exactly_where_they_disagree()
    ensures { OutputRefusesRowsExactly }
{}

/// Where no line of a job up to its query is faulty and its rows agree with its tree, its output is the one line `states` exactly where
/// the tree is over the limit.
pub fn the_output_refuses_sizes_exactly_where_they_are_over()
    ensures { OutputRefusesSizeExactly }
{}
