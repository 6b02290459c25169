//! What a session answers.

ghost use Rattle.std.specs.Prelude.{◌≡◌, if◌then◌else◌};
ghost use Rattle.mm_edit.specs.declared.answer.Answer.TheVariants.{Yes, No};
ghost use Rattle.mm_edit.specs.SessionView.{IsLeastAnswer};

use mm_least::Best;

/// What a session answers for its present tree.
#[derive(Drop)]
pub enum Answer {
    /// The formula holds.
    Yes,
    /// The formula does not hold.
    No,
    /// The least set that satisfies the formula.
    Least(Best),
    /// No set satisfies the formula.
    Nothing,
}

/// The answer whether a formula holds.
pub(crate) fn decided(holds: bool) -> Answer
    ensures { result ≡ (if holds then Yes else No) }
{
    if holds { Answer::Yes } else { Answer::No }
}

/// The answer of a least set, if there is one.
pub(crate) fn sought(best: Option<Best>) -> Answer
    ensures { IsLeastAnswer best result }
{
    match best {
        Some(best) => Answer::Least(best),
        None => Answer::Nothing,
    }
}
