//! The tokens of a line.
ghost use Rattle.std.specs.Prelude.{◌≡◌, ◌∷◌, [], ◌≤◌, ◌<◌, List, ℕ, MatchOption, length, slice_index, false};
ghost use Rattle.std.specs.List.{position};
ghost use Rattle.mm_lines.specs.Tokens.{is_blank, skip_blanks, skip_token, tokens, trim_end};

use std::marker::Model;

fn is_blank(b: u8) -> bool
    ensures { result ≡ is_blank b }
{
    b == b' ' || b == b'\t'
}

fn blank_in(line: &[u8]) -> Option<usize>
    ensures { result ≡ position is_blank line.now }
{
    line.iter().position(|b| is_blank(*b))
}

/// The line without the blanks that it begins with.
pub(crate) fn skip_blanks(line: &[u8]) -> &[u8]
    ensures value { result.now ≡ skip_blanks line.now }
    ensures tokens { tokens result.now ≡ tokens line.now }
    ensures start { 0 < length result.now → is_blank (slice_index result.now 0) ≡ false }
{
    let mut rest = line;
    'blanks: while let [first, after @ ..] = rest {
        if !is_blank(*first) {
            return rest;
        }
        rest = after;
    }
    rest
}

/// The line from its first blank on.
pub(crate) fn skip_token(line: &[u8]) -> &[u8]
    ensures { result.now ≡ skip_token line.now }
{
    let mut rest = line;
    'token: while let [first, after @ ..] = rest {
        if is_blank(*first) {
            return rest;
        }
        rest = after;
    }
    rest
}

/// The line without the blanks at its end.
pub(crate) fn trim_end(line: &[u8]) -> &[u8]
    ensures { result.now ≡ trim_end line.now }
{
    let mut rest = line;
    'blanks: while let [before @ .., last] = rest {
        if !is_blank(*last) {
            return rest;
        }
        rest = before;
    }
    rest
}

/// The tokens of a line that are left, which contracts see as their list.
#[derive(Drop)]
pub struct Tokens<'a> {
    line: &'a [u8],
}

impl<'a> Model for Tokens<'a> {
    ghost use Rattle.std.specs.Prelude.{List, ℕ};
    ghost use Rattle.mm_lines.specs.Tokens.{tokens};

    ghost Value = { List (List ℕ) };

    ghost view = { λ t. tokens t.line.now };
}

impl<'a> Tokens<'a> {
    /// All tokens of a line.
    pub fn new(line: &'a [u8]) -> Tokens<'a>
        ensures { result ≡ tokens line.now }
    {
        Tokens { line }
    }

    /// The same tokens once more.
    pub fn again(&self) -> Tokens<'a>
        ensures { result ≡ self.now }
    {
        Tokens { line: self.line }
    }

    /// Takes the next token. None exactly where no token is left.
    #[tactic(auto, using(crate::proofs::TokenLemmas::tokens_nil, crate::proofs::TokenLemmas::token_first, crate::proofs::TokenLemmas::token_last))]
    pub fn next(&mut self) -> Option<&'a [u8]>
        ensures { MatchOption result
            ((self.old ≡ []) × (self.new ≡ []))
            (λ token. self.old ≡ token.now ∷ self.new) }
    {
        let line = skip_blanks(self.line);
        if line.is_empty() {
            self.line = line;
            return None;
        }
        match blank_in(line) {
            Some(at) => {
                self.line = &line[at + 1..];
                Some(&line[..at])
            }
            None => {
                self.line = &line[line.len()..];
                Some(line)
            }
        }
    }
}
