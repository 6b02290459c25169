//! The tokens of a formula's text.
ghost use Rattle.std.specs.Prelude.{◌≡◌, ℕ, ◌+◌, ◌<◌, ◌≤◌, List, [], ◌∷◌, ◌++◌, Bool, true, false, length, take, drop, MatchOption, take_while, position};
ghost use Rattle.std.specs.List.{list_all};
ghost use Rattle.mm_formula.specs.Variables.{is_word_byte};
ghost use Rattle.mm_formula_text.specs.Tokens.{is_blank, token_of, tokens, first_len};

use mm_formula::{Connective, Var};
use std::marker::Model;

/// A quantifier.
#[derive(Clone, Copy)]
pub enum Quantifier {
    /// `ex`
    Ex,
    /// `all`
    All,
}

/// A relation of two variables.
#[derive(Clone, Copy)]
pub enum Relation {
    /// `in`
    In,
    /// `sub`
    Sub,
    /// `=`
    Equals,
}

/// A token of a formula's text.
#[derive(Clone, Copy)]
pub enum Token {
    /// `iff`, `implies`, `or` or `and`
    Connective(Connective),
    /// `not`
    Not,
    /// `ex` or `all`
    Quantifier(Quantifier),
    /// `true` or `false`
    Const(bool),
    /// `ind`
    Ind,
    /// `in`, `sub` or `=`
    Relation(Relation),
    /// `(`
    Open,
    /// `)`
    Close,
    /// `|`
    Bar,
    /// `*`
    Star,
    /// `0`
    Zero,
    /// A variable.
    Variable(Var),
    /// What no formula has.
    Unknown,
}

/// The token that a word or a sign is.
#[tactic(auto, unfolding(crate::specs::Tokens::token_of))]
fn token_of(word: &[u8]) -> Token
    ensures { result ≡ token_of word.now }
{
    if word == b"iff".as_slice() {
        return Token::Connective(Connective::Iff);
    }
    if word == b"implies".as_slice() {
        return Token::Connective(Connective::Implies);
    }
    if word == b"or".as_slice() {
        return Token::Connective(Connective::Or);
    }
    if word == b"and".as_slice() {
        return Token::Connective(Connective::And);
    }
    if word == b"not".as_slice() {
        return Token::Not;
    }
    if word == b"ex".as_slice() {
        return Token::Quantifier(Quantifier::Ex);
    }
    if word == b"all".as_slice() {
        return Token::Quantifier(Quantifier::All);
    }
    if word == b"true".as_slice() {
        return Token::Const(true);
    }
    if word == b"false".as_slice() {
        return Token::Const(false);
    }
    if word == b"ind".as_slice() {
        return Token::Ind;
    }
    if word == b"in".as_slice() {
        return Token::Relation(Relation::In);
    }
    if word == b"sub".as_slice() {
        return Token::Relation(Relation::Sub);
    }
    if word == b"=".as_slice() {
        return Token::Relation(Relation::Equals);
    }
    if word == b"(".as_slice() {
        return Token::Open;
    }
    if word == b")".as_slice() {
        return Token::Close;
    }
    if word == b"|".as_slice() {
        return Token::Bar;
    }
    if word == b"*".as_slice() {
        return Token::Star;
    }
    if word == b"0".as_slice() {
        return Token::Zero;
    }
    match Var::read(word) {
        Some(v) => Token::Variable(v),
        None => Token::Unknown,
    }
}

pub fn is_blank(byte: u8) -> bool
    ensures { result ≡ is_blank byte }
{
    byte == b' ' || byte == b'\t'
}

fn is_word_byte(byte: u8) -> bool
    ensures { result ≡ is_word_byte byte }
{
    byte.is_ascii_alphabetic() || byte.is_ascii_digit() || byte == b'_'
}

/// How many blanks a text begins with.
fn blanks_in_front(text: &[u8]) -> usize
    ensures { result ≡ length (take_while is_blank text.now) }
{
    text.iter().take_while(|byte| is_blank(**byte)).count()
}

/// How many letters, digits and underscores a text begins with.
fn word_bytes_in_front(text: &[u8]) -> usize
    ensures { result ≡ length (take_while is_word_byte text.now) }
{
    text.iter().take_while(|byte| is_word_byte(**byte)).count()
}

/// The length of the word or sign that a text begins with.
fn first_len(text: &[u8]) -> usize
    ensures { result ≡ first_len text.now }
{
    match text {
        [] => 0,
        [first, ..] => {
            if is_word_byte(*first) {
                word_bytes_in_front(text)
            } else {
                1
            }
        }
    }
}

/// The tokens that are left of a text, read one by one.
#[derive(Drop)]
pub struct Tokens<'a> {
    rest: &'a [u8],
}

impl<'a> Model for Tokens<'a> {
    ghost use Rattle.std.specs.Prelude.{List};
    ghost use Rattle.mm_formula_text.specs.declared.token.Token.{Token};
    ghost use Rattle.mm_formula_text.specs.Tokens.{tokens};

    ghost Value = { List Token };

    ghost view = { λ t. tokens t.rest.now };
}

impl<'a> Tokens<'a> {
    /// The tokens of a text.
    pub fn of(text: &'a [u8]) -> Tokens<'a>
        ensures { result ≡ tokens text.now }
    {
        Tokens { rest: text }
    }

    /// The next token; `None` exactly where none is left.
    pub fn next(&mut self) -> Option<Token>
        ensures { MatchOption result ((self.old ≡ []) × (self.new ≡ [])) (λ token. self.old ≡ token ∷ self.new) }
    {
        let text = &self.rest[blanks_in_front(self.rest)..];
        if text.is_empty() {
            self.rest = text;
            return None;
        }
        let size = first_len(text);
        let token = token_of(&text[..size]);
        self.rest = &text[size..];
        Some(token)
    }
}
