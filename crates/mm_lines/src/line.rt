//! A line that is not passed over.
ghost use Rattle.std.specs.Prelude.{◌≡◌, ◌+◌, [], ◌∷◌, List, ℕ, length, drop, false, option_copied, IfOk};
ghost use Rattle.std.specs.List.{slice_get};
ghost use Rattle.mm_lines.specs.Tokens.{rest_of, tokens};
ghost use Rattle.mm_lines.specs.LineBytes.{bytes_of};

use crate::token::{Tokens, skip_blanks, skip_token, trim_end};
use mm_base::NoMemory;
use std::alloc::Global;
use std::marker::Model;

/// The bytes of a line, which contracts see as a list.
#[derive(Debug, Drop)]
pub struct Bytes {
    bytes: Vec<u8>,
}

impl Model for Bytes {
    ghost use Rattle.std.specs.Prelude.{List, ℕ};

    ghost Value = { List ℕ };

    ghost view = { λ b. b.bytes.items };
}

impl Bytes {
    /// A copy of these bytes.
    pub(crate) fn copy(alloc: Global, bytes: &[u8]) -> Result<Bytes, NoMemory>
        ensures { IfOk result (λ b. b ≡ bytes.now) }
    {
        Ok(Bytes {
            bytes: bytes.to_vec(alloc)?,
        })
    }

    /// The bytes.
    pub fn as_slice(&self) -> &[u8]
        ensures { result.now ≡ self.now }
    {
        &self.bytes
    }
}

/// What a line says.
#[derive(Debug, Drop)]
pub enum LineText {
    /// Its bytes, without one `\r` at the end.
    Whole(Bytes),
    /// It has 65,537 bytes or more. None are kept.
    TooLong,
}

/// A line of a text that is neither a comment nor blank.
#[derive(Debug, Drop)]
pub struct Line {
    /// Its number in the text, from 1. Every line counts.
    pub number: u32,
    /// What it says.
    pub text: LineText,
}

impl Line {
    /// The bytes of the line, none of one that is too long.
    pub fn bytes(&self) -> &[u8]
        ensures { result.now ≡ bytes_of self.now }
    {
        match &self.text {
            LineText::Whole(bytes) => bytes.as_slice(),
            LineText::TooLong => &[],
        }
    }

    /// The tokens of the line, one after another.
    pub fn tokens(&self) -> Tokens<'_>
        ensures { result ≡ tokens (bytes_of self.now) }
    {
        Tokens::new(self.bytes())
    }

    /// How many tokens the line has, none where it is too long.
    pub fn count(&self) -> usize
        ensures { result ≡ length (tokens (bytes_of self.now)) }
    {
        let bytes = self.bytes();
        let mut tokens = Tokens::new(bytes);
        let mut count = 0;
        'tokens: while let Some(_) = tokens.next() {
            count += 1;
        }
        count
    }

    /// Token `k`, counted from 0. None exactly where the line has no token `k`.
    pub fn token(&self, k: usize) -> Option<&[u8]>
        ensures { option_copied result ≡ slice_get (tokens (bytes_of self.now)) k }
    {
        let mut tokens = self.tokens();
        'before: for _ in 0..k {
            let Some(_) = tokens.next() else {
                return None;
            };
        }
        tokens.next()
    }

    /// The line from token `k` on, counted from 0, without the blanks at its end. Empty where there is no token `k`.
    #[tactic(auto, unfolding(crate::specs::Tokens::rest_of))]
    pub fn rest(&self, k: usize) -> &[u8]
        ensures { result.now ≡ rest_of k (bytes_of self.now) }
    {
        let mut rest = skip_blanks(self.bytes());
        let mut before = k;
        'tokens: while before > 0 && !rest.is_empty() {
            rest = skip_blanks(skip_token(rest));
            before -= 1;
        }
        trim_end(rest)
    }
}
