//! The lines of a certificate as text.
ghost use Rattle.std.specs.Prelude.{◌≡◌, IfOk};
ghost use Rattle.mm_lines.specs.LineBytes.{bytes_of};
ghost use Rattle.mm_lines.specs.Tokens.{tokens};
ghost use Rattle.mm_cert_lines.specs.Fields.{is_end};
ghost use Rattle.mm_cert_lines.specs.LineForm.{line_of, value_line, more_line, value_of, set_value, one_value, small_value, space_value, pair_value, leaf_line, glue_line, row_line, has_line, bare_line, short_line};

use crate::spaces::key_of_rows;
use crate::tokens::{few_numbers, five, four, is_word, numbers, one, two};
use crate::words::plain_value;
use crate::{CertLine, GlueKey, LeafKey, Stated};
use mm_base::{Name, NoMemory};
use mm_field::Field;
use mm_lines::{Line, Tokens, read_i64, read_u32};
use mm_space::Gen;
use std::alloc::Global;

/// The most numbers of a `set` or `one` line.
const MAX_NUMBERS: usize = 1024;

/// The least marks that are too many.
const MANY_MARKS: u32 = 65_536;

/// What a line says. None where no line of a certificate has its form.
pub fn read_line(alloc: Global, f: Field, line: &Line) -> Result<Option<CertLine>, NoMemory>
    ensures { IfOk result (λ l. l ≡ line_of f (tokens (bytes_of line.now))) }
{
    let mut tokens = line.tokens();
    let Some(word) = tokens.next() else {
        return Ok(None);
    };
    if is_word(word, b"val") {
        return read_value(alloc, f, tokens);
    }
    if is_word(word, b"more") {
        return read_more(alloc, tokens);
    }
    Ok(read_short(word, tokens))
}

fn read_more(alloc: Global, tokens: Tokens<'_>) -> Result<Option<CertLine>, NoMemory>
    ensures { IfOk result (λ l. l ≡ more_line tokens.entry) }
{
    match numbers(alloc, tokens)? {
        Some(numbers) => Ok(Some(CertLine::More(numbers))),
        None => Ok(None),
    }
}

// `val P CONTENT`
fn read_value(alloc: Global, f: Field, tokens: Tokens<'_>) -> Result<Option<CertLine>, NoMemory>
    ensures { IfOk result (λ l. l ≡ value_line f tokens.entry) }
{
    let mut tokens = tokens;
    let Some(place) = tokens.next() else {
        return Ok(None);
    };
    let Some(word) = tokens.next() else {
        return Ok(None);
    };
    let Some(place) = read_u32(place) else {
        return Ok(None);
    };
    match read_content(alloc, f, word, tokens)? {
        Some(stated) => Ok(Some(CertLine::Val(place, stated))),
        None => Ok(None),
    }
}

fn read_content(
    alloc: Global,
    f: Field,
    word: &[u8],
    tokens: Tokens<'_>,
) -> Result<Option<Stated>, NoMemory>
    ensures { IfOk result (λ v. v ≡ value_of f word.now tokens.entry) }
{
    if is_word(word, b"set") {
        return read_set(alloc, tokens);
    }
    if is_word(word, b"one") {
        return read_one(alloc, tokens);
    }
    Ok(read_small(f, word, tokens))
}

fn read_set(alloc: Global, tokens: Tokens<'_>) -> Result<Option<Stated>, NoMemory>
    ensures { IfOk result (λ v. v ≡ set_value tokens.entry) }
{
    match few_numbers(alloc, tokens, MAX_NUMBERS)? {
        Some(numbers) => Ok(Some(Stated::Set(numbers))),
        None => Ok(None),
    }
}

fn read_one(alloc: Global, tokens: Tokens<'_>) -> Result<Option<Stated>, NoMemory>
    ensures { IfOk result (λ v. v ≡ one_value tokens.entry) }
{
    let mut tokens = tokens;
    let Some(apart) = tokens.next() else {
        return Ok(None);
    };
    let Some(apart) = read_u32(apart) else {
        return Ok(None);
    };
    match few_numbers(alloc, tokens, MAX_NUMBERS - 1)? {
        Some(numbers) => Ok(Some(Stated::One(apart, numbers))),
        None => Ok(None),
    }
}

// Whether no token is left.
fn is_end(tokens: &Tokens<'_>) -> bool
    ensures { result ≡ is_end tokens.now }
{
    tokens.again().next().is_none()
}

// A value of numbers, or of a word that stands alone.
fn read_small(f: Field, word: &[u8], tokens: Tokens<'_>) -> Option<Stated>
    ensures { result ≡ small_value f word.now tokens.entry }
{
    if is_end(&tokens) {
        return plain_value(word);
    }
    if is_word(word, b"space") {
        return read_space(f, tokens);
    }
    if is_word(word, b"pair") {
        return read_pair(tokens);
    }
    None
}

// `space T GEN`
#[tactic(auto, unfolding(crate::specs::LineForm::space_value))]
fn read_space(f: Field, tokens: Tokens<'_>) -> Option<Stated>
    ensures { result ≡ space_value f tokens.entry }
{
    let (t, rows) = two(tokens)?;
    let t = read_u32(t)?;
    let rows = Gen::read(f, rows)?;
    let key = key_of_rows(f, t, &rows)?;
    Some(Stated::Space(key))
}

// `pair A B`
#[tactic(auto, unfolding(crate::specs::LineForm::pair_value))]
fn read_pair(tokens: Tokens<'_>) -> Option<Stated>
    ensures { result ≡ pair_value tokens.entry }
{
    let (first, second) = two(tokens)?;
    let first = read_u32(first)?;
    let second = read_u32(second)?;
    Some(Stated::Pair(first, second))
}

// A line of a word and numbers, or of a word that stands alone.
fn read_short(word: &[u8], tokens: Tokens<'_>) -> Option<CertLine>
    ensures { result ≡ short_line word.now tokens.entry }
{
    if is_end(&tokens) {
        return read_bare(word);
    }
    if is_word(word, b"leaf") {
        return read_leaf(tokens);
    }
    if is_word(word, b"glue") {
        return read_glue(tokens);
    }
    if is_word(word, b"has") {
        return read_has(tokens);
    }
    None
}

fn read_bare(word: &[u8]) -> Option<CertLine>
    ensures { result ≡ bare_line word.now }
{
    if is_word(word, b"node") {
        return Some(CertLine::Node);
    }
    if is_word(word, b"end") {
        return Some(CertLine::End);
    }
    None
}

// `leaf P K M V`
#[tactic(auto, unfolding(crate::specs::LineForm::leaf_line))]
fn read_leaf(tokens: Tokens<'_>) -> Option<CertLine>
    ensures { result ≡ leaf_line tokens.entry }
{
    let (place, leaf, marks, value) = four(tokens)?;
    let place = read_u32(place)?;
    let leaf = read_u32(leaf)?;
    let marks = read_u32(marks)?;
    let value = read_u32(value)?;
    if marks >= MANY_MARKS {
        return None;
    }
    let marks = marks as u16;
    Some(CertLine::Leaf(LeafKey { place, leaf, marks }, value))
}

// `glue P O A B V`
#[tactic(auto, unfolding(crate::specs::LineForm::glue_line))]
fn read_glue(tokens: Tokens<'_>) -> Option<CertLine>
    ensures { result ≡ glue_line tokens.entry }
{
    let written = five(tokens)?;
    let place = read_u32(written.place)?;
    let op = Name::read(written.op)?;
    let left = read_u32(written.left)?;
    let right = read_u32(written.right)?;
    let value = read_u32(written.value)?;
    let key = GlueKey {
        place,
        op,
        left,
        right,
    };
    Some(CertLine::Glue(key, value))
}

// `has V`, or `has V W X Y`
fn read_has(tokens: Tokens<'_>) -> Option<CertLine>
    ensures { result ≡ has_line tokens.entry }
{
    match one(tokens.again()) {
        Some(value) => {
            let value = read_u32(value)?;
            Some(CertLine::Has(value))
        }
        None => read_row(tokens),
    }
}

// `has V W X Y`
#[tactic(auto, unfolding(crate::specs::LineForm::row_line))]
fn read_row(tokens: Tokens<'_>) -> Option<CertLine>
    ensures { result ≡ row_line tokens.entry }
{
    let (value, weight, x, y) = four(tokens)?;
    let value = read_u32(value)?;
    let weight = read_i64(weight)?;
    let x = read_u32(x)?;
    let y = read_u32(y)?;
    Some(CertLine::HasSet(value, weight, x, y))
}
