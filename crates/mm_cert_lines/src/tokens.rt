//! The tokens of a line, so many as a form has, and numbers.
ghost use Rattle.std.specs.Prelude.{◌≡◌, MatchOption, Some, None, IfOk};
ghost use Rattle.std.specs.Str.{bytes_eq};
ghost use Rattle.mm_cert_lines.specs.Fields.{one_of, two_of, four_of, five_of, numbers_of, at_most};

use crate::Numbers;
use mm_base::NoMemory;
use mm_lines::{Tokens, read_u32};
use std::alloc::Global;

/// Whether a token is this word.
pub(crate) fn is_word(token: &[u8], word: &[u8]) -> bool
    ensures { result ≡ bytes_eq token.now word.now }
{
    token == word
}

/// The one token that is left.
pub(crate) fn one<'a>(tokens: Tokens<'a>) -> Option<&'a [u8]>
    ensures { MatchOption result (one_of tokens.entry ≡ None) (λ a. one_of tokens.entry ≡ Some a.now) }
{
    let mut tokens = tokens;
    let first = tokens.next()?;
    match tokens.next() {
        None => Some(first),
        Some(_) => None,
    }
}

/// The two tokens that are left.
pub(crate) fn two<'a>(tokens: Tokens<'a>) -> Option<(&'a [u8], &'a [u8])>
    ensures { MatchOption result (two_of tokens.entry ≡ None) (λ t. two_of tokens.entry ≡ Some (t.0.now, t.1.now)) }
{
    let mut tokens = tokens;
    let first = tokens.next()?;
    let second = tokens.next()?;
    match tokens.next() {
        None => Some((first, second)),
        Some(_) => None,
    }
}

/// The four tokens that are left.
pub(crate) fn four<'a>(tokens: Tokens<'a>) -> Option<(&'a [u8], &'a [u8], &'a [u8], &'a [u8])>
    ensures { MatchOption result (four_of tokens.entry ≡ None)
        (λ t. four_of tokens.entry ≡ Some (t.0.now, t.1.now, t.2.now, t.3.now)) }
{
    let mut tokens = tokens;
    let first = tokens.next()?;
    let second = tokens.next()?;
    let third = tokens.next()?;
    let fourth = tokens.next()?;
    match tokens.next() {
        None => Some((first, second, third, fourth)),
        Some(_) => None,
    }
}

/// The tokens of a line with five of them after its word.
#[derive(Clone, Copy)]
pub(crate) struct GlueTokens<'a> {
    pub place: &'a [u8],
    pub op: &'a [u8],
    pub left: &'a [u8],
    pub right: &'a [u8],
    pub value: &'a [u8],
}

/// The five tokens that are left.
pub(crate) fn five<'a>(tokens: Tokens<'a>) -> Option<GlueTokens<'a>>
    ensures { MatchOption result (five_of tokens.entry ≡ None)
        (λ t. five_of tokens.entry ≡ Some (t.place.now, t.op.now, t.left.now, t.right.now, t.value.now)) }
{
    let mut tokens = tokens;
    let place = tokens.next()?;
    let op = tokens.next()?;
    let left = tokens.next()?;
    let right = tokens.next()?;
    let value = tokens.next()?;
    match tokens.next() {
        None => Some(GlueTokens {
            place,
            op,
            left,
            right,
            value,
        }),
        Some(_) => None,
    }
}

/// The numbers of all tokens that are left, where each is one.
pub(crate) fn numbers(alloc: Global, tokens: Tokens<'_>) -> Result<Option<Numbers>, NoMemory>
    ensures { IfOk result (λ ns. ns ≡ numbers_of tokens.entry) }
{
    let mut tokens = tokens;
    let mut all = Numbers::new(alloc);
    'numbers: while let Some(token) = tokens.next() {
        let Some(n) = read_u32(token) else {
            return Ok(None);
        };
        all.add(n)?;
    }
    Ok(Some(all))
}

/// The same, where they are at most so many.
pub(crate) fn few_numbers(
    alloc: Global,
    tokens: Tokens<'_>,
    most: usize,
) -> Result<Option<Numbers>, NoMemory>
    ensures { IfOk result (λ ns. ns ≡ at_most most (numbers_of tokens.entry)) }
{
    match numbers(alloc, tokens)? {
        Some(all) => {
            if all.as_slice().len() <= most {
                return Ok(Some(all));
            }
            Ok(None)
        }
        None => Ok(None),
    }
}
