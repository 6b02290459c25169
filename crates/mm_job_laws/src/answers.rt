//! The laws of what is printed: queries, answers and comparisons stand on the relations of the logic and of linear algebra.
ghost use Rattle.mm_job_laws.specs.AnswerLaws.{AnswerLinesAreAnswers, ChecksAreAnswered, HeadersGiveSessions, ItemsKeepSessionsSound, QueryLinesGiveWhatTheySpell};
ghost use Rattle.mm_job_laws.specs.AnswerLaws.{OutputAnswersChecks, OutputBeginsWithAnswer, OutputNamesTheDifference, VerdictsAreMeant};
ghost use Rattle.mm_job_laws.specs.AnswerLaws.{RefusalsChangeNothing, ReplacementsAreAnswered, WeightsAreAnswered};
ghost use Rattle.mm_job_laws.specs.EditLaws.{DecisionsIgnoreWeights, OutputAnswersReplacements, OutputAnswersWeights, SessionsMayBegin};
ghost use Rattle.mm_job_laws.specs.MinorLaws.{MinorsAreDecided, MinorsAreTold};

/// A query line gives exactly the query that it spells: the grammar derives its formula from the text of the line, and the formula
/// is scoped and within its limits.
pub fn query_lines_give_what_they_spell()
    ensures { QueryLinesGiveWhatTheySpell }
{}

/// The line that is written for a query is its answer on the matrix of the tree: whether the formula holds, or the least set.
pub fn answer_lines_are_answers()
    ensures { AnswerLinesAreAnswers }
{}

/// Where a header is read, its lines give a sound session.
pub fn headers_give_sessions()
    ensures { HeadersGiveSessions }
{}

/// Where the header of a text is read, the first line of its output answers the query.
pub fn the_output_begins_with_the_answer()
    ensures { OutputBeginsWithAnswer }
{}

/// Given rows and a tree are compared by exactly the verdict that is meant: they agree, or it is their first difference.
pub fn verdicts_are_meant()
    ensures { VerdictsAreMeant }
{}

/// Where no line of a job up to its query is faulty and its rows do not agree with its tree, its output names their first
/// difference.
pub fn the_output_names_the_difference()
    ensures { OutputNamesTheDifference }
{}

/// Sessions stay sound, whatever the items are.
pub fn items_keep_sessions_sound()
    ensures { ItemsKeepSessionsSound }
{}

/// Another weight of an element is answered for the tree after it, or refused as `states` exactly where that tree is over the limit.
pub fn weights_are_answered()
    ensures { WeightsAreAnswered }
{}

/// A new subtree is answered for the tree after it, or refused as `states` exactly where that tree is over the limit.
pub fn replacements_are_answered()
    ensures { ReplacementsAreAnswered }
{}

/// An item that is refused leaves the session as it is.
pub fn refusals_change_nothing()
    ensures { RefusalsChangeNothing }
{}

/// A check answers whether the given rows agree with the present tree.
pub fn checks_are_answered()
    ensures { ChecksAreAnswered }
{}

/// Where the items of a text come to a check, the output has the line that answers it.
pub fn the_output_answers_checks()
    ensures { OutputAnswersChecks }
{}

/// Where the items of a text come to another weight of an element, the output has the line that answers it.
pub fn the_output_answers_weights()
    ensures { OutputAnswersWeights }
{}

/// Where the items of a text come to a new subtree, the output has the line that answers it.
pub fn the_output_answers_replacements()
    ensures { OutputAnswersReplacements }
{}

/// However the present tree of a job came about, a session begun with it is not refused for its size.
pub fn sessions_may_begin_with_the_present_tree()
    ensures { SessionsMayBegin }
{}

/// Where the word `minor` asks a formula and the header is read, the output says whether the formula holds on the tree, `true` or
/// `false`, and so does the line of each edit that is done for the tree after it.
pub fn minors_are_decided()
    ensures { MinorsAreDecided }
{}

/// Whether a formula holds does not depend on weights, so that another weight leaves the answer as it is.
pub fn decisions_ignore_weights()
    ensures { DecisionsIgnoreWeights }
{}

/// Where the word `minor` asks the minor formula of a matrix, the first line and the line of each edit that is done say whether the matroid of
/// the present tree has that of the matrix as a minor.
pub fn minors_are_told()
    ensures { MinorsAreTold }
{}
