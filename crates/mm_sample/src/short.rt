//! What is shown of the lines of a job.

ghost use Rattle.std.specs.Prelude.{◌≡◌, ◌<◌, ◌^◌, ◌++◌, IfOk, OnOk, codes, length};
ghost use Rattle.std.specs.Str.{bytes_eq};
ghost use Rattle.std.specs.List.{position, slice_split};
ghost use Rattle.mm_lines.specs.Lines.{is_newline};
ghost use Rattle.mm_sample.specs.Summary.{AreLines, first_line, last_line, short_line, summary};

use crate::numbers::append_number;
use mm_base::{NoMemory, Text};
use mm_lines::Tokens;
use std::alloc::Global;

/// How many lines there are, and the first and the last one: of a line with a least set the number of its elements is shown in
/// place of their names.
#[tactic(auto, unfolding(crate::specs::Summary::summary))]
pub fn summary(alloc: Global, out: &[u8]) -> Result<Text, NoMemory>
    requires { AreLines out.now }
    ensures { IfOk result (λ text. text ≡ summary out.now) }
{
    let lines = &out[..out.len() - 1];
    let last = last_line(lines);
    let mut text = Text::new(alloc);
    text.append(alloc, b"answers ")?;
    append_number(alloc, &mut text, last.number)?;
    text.append(alloc, b"\nfirst ")?;
    append_short(alloc, &mut text, first_line(lines))?;
    text.append(alloc, b"\nlast ")?;
    append_short(alloc, &mut text, last.line)?;
    text.append(alloc, b"\n")?;
    Ok(text)
}

/// The last of some lines, and its number, from 1.
#[derive(Clone, Copy)]
struct LastLine<'a> {
    number: u64,
    line: &'a [u8],
}

/// The last of the lines that have a newline between each two.
fn last_line(lines: &[u8]) -> LastLine<'_>
    ensures number { result.number ≡ length (slice_split is_newline lines.now) }
    ensures line { result.line.now ≡ last_line (slice_split is_newline lines.now) }
{
    let mut number = 1;
    let mut line = lines;
    'lines: while let Some(at) = newline_in(line) {
        number += 1;
        line = &line[at + 1..];
    }
    LastLine { number, line }
}

/// The first of the lines that have a newline between each two.
fn first_line(lines: &[u8]) -> &[u8]
    ensures { result.now ≡ first_line (slice_split is_newline lines.now) }
{
    match newline_in(lines) {
        Some(at) => &lines[..at],
        None => lines,
    }
}

/// The place of the first newline.
fn newline_in(bytes: &[u8]) -> Option<usize>
    ensures { result ≡ position is_newline bytes.now }
{
    bytes.iter().position(|b| *b == b'\n')
}

/// A line, or its short form.
fn append_short(alloc: Global, text: &mut Text, line: &[u8]) -> Result<(), NoMemory>
    ensures { OnOk result (text.new ≡ text.old ++ short_line line.now) }
{
    let mut words = Tokens::new(line);
    let (Some(word), Some(weight)) = (words.next(), words.next()) else {
        return text.append(alloc, line);
    };
    if !is_least(word) {
        return text.append(alloc, line);
    }
    text.append(alloc, b"least ")?;
    text.append(alloc, weight)?;
    text.append(alloc, b" ")?;
    append_number(alloc, text, count(words))
}

/// Whether a word begins the line of a least set.
fn is_least(word: &[u8]) -> bool
    ensures { result ≡ bytes_eq word.now (codes "least") }
{
    word == b"least".as_slice()
}

/// How many words are left.
fn count(words: Tokens<'_>) -> u64
    requires { length words < 2 ^ 63 }
    ensures { result ≡ length words.entry }
{
    let mut words = words;
    let mut count = 0;
    'words: while let Some(_) = words.next() {
        count += 1;
    }
    count
}
