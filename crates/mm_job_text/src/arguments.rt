//! The words of a line: its first token, and the others, which are its arguments.
ghost use Rattle.std.specs.Prelude.{◌≡◌, ◌∷◌, [], MatchOption, Some, None};
ghost use Rattle.std.specs.Str.{bytes_eq};
ghost use Rattle.mm_job_text.specs.Arguments.{args, begins, is_word, one_of, two_of, three_of, too_long};

use crate::refusal::Refusal;
use mm_lines::{Line, LineText, Tokens};

/// Whether two texts are the same.
pub fn is_text(bytes: &[u8], text: &[u8]) -> bool
    ensures { result ≡ bytes_eq bytes.now text.now }
{
    bytes == text
}

/// The tokens after the first.
pub fn args(line: &Line) -> Tokens<'_>
    ensures { result ≡ args line.now }
{
    let mut tokens = line.tokens();
    tokens.next();
    tokens
}

/// Whether the line's first token is this word.
pub fn begins(line: &Line, word: &[u8]) -> bool
    ensures { result ≡ begins word.now line.now }
{
    match line.tokens().next() {
        Some(token) => is_text(word, token),
        None => false,
    }
}

/// Whether the line's only token is this word.
pub fn is_word(line: &Line, word: &[u8]) -> bool
    ensures { result ≡ is_word word.now line.now }
{
    begins(line, word) && args(line).next().is_none()
}

/// The one token that is left.
pub fn one<'a>(tokens: Tokens<'a>) -> Option<&'a [u8]>
    ensures { MatchOption result (one_of tokens.entry ≡ None) (λ a. one_of tokens.entry ≡ Some a.now) }
{
    let mut tokens = tokens;
    let first = tokens.next()?;
    match tokens.next() {
        None => Some(first),
        Some(_) => None,
    }
}

/// The two tokens that are left.
pub fn two<'a>(tokens: Tokens<'a>) -> Option<(&'a [u8], &'a [u8])>
    ensures { MatchOption result (two_of tokens.entry ≡ None) (λ t. two_of tokens.entry ≡ Some (t.0.now, t.1.now)) }
{
    let mut tokens = tokens;
    let first = tokens.next()?;
    let second = tokens.next()?;
    match tokens.next() {
        None => Some((first, second)),
        Some(_) => None,
    }
}

/// The three tokens that are left.
pub fn three<'a>(tokens: Tokens<'a>) -> Option<(&'a [u8], &'a [u8], &'a [u8])>
    ensures { MatchOption result (three_of tokens.entry ≡ None) (λ t. three_of tokens.entry ≡ Some (t.0.now, t.1.now, t.2.now)) }
{
    let mut tokens = tokens;
    let first = tokens.next()?;
    let second = tokens.next()?;
    let third = tokens.next()?;
    match tokens.next() {
        None => Some((first, second, third)),
        Some(_) => None,
    }
}

/// The refusal of a line that is too long.
pub fn too_long(line: &Line) -> Option<Refusal>
    ensures { result ≡ too_long line.now.text line.now.number }
{
    match &line.text {
        LineText::Whole(_) => None,
        LineText::TooLong => Some(Refusal::LineTooLong(line.number)),
    }
}
