//! Where a framer stands in its stream, and the steps from line to line.
ghost use Rattle.std.specs.Prelude.{◌≡◌, ◌+◌, ◌<◌, ◌≤◌, if◌then◌else◌, [], ◌∷◌, List, ℕ, MatchOption, IfOk, length, slice_index, true, false};
ghost use Rattle.std.specs.Str.Lines.{strip_carriage_return};
ghost use Rattle.mm_lines.specs.Lines.{is_newline, is_passed_over, is_too_long, line_of, most_bytes};
ghost use Rattle.mm_lines.specs.Places.{Goes, IsPlace, NoNewline, begun, found_in, is_handed_out, lines_from};

use crate::TOO_LONG;
use crate::line::{Bytes, Line, LineText};
use crate::token::Tokens;
use memchr::memchr;
use mm_base::NoMemory;
use std::alloc::Global;

/// Where a framer stands: before a line of its stream.
#[derive(Clone, Copy, Debug)]
pub struct Place {
    /// Where the line begins that comes next, or, where it is `passing`, that is passed.
    pub start: usize,
    /// No newline stands from `start` up to here, so no byte is searched twice.
    pub searched: usize,
    /// The number of that line, from 1.
    pub number: u32,
    /// The line was handed out already, as too long, and its rest is still to come.
    pub passing: bool,
}

/// The bytes between two newlines.
#[derive(Drop)]
pub struct Piece<'a> {
    /// The number of the line, from 1.
    pub number: u32,
    /// It was handed out already, as too long.
    pub passed: bool,
    /// The bytes without the newline, all that are there so far.
    pub bytes: &'a [u8],
}

/// The first newline from a place on.
fn newline_from(bytes: &[u8], from: usize) -> Option<usize>
    requires { from ≤ length bytes.now }
    ensures { MatchOption result
        (NoNewline bytes.now from (length bytes.now))
        (λ at. (from ≤ at) × (at < length bytes.now) × NoNewline bytes.now from at × (is_newline (slice_index bytes.now at) ≡ true)) }
{
    match memchr(b'\n', &bytes[from..]) {
        Some(at) => Some(from + at),
        None => None,
    }
}

fn is_too_long(line: &[u8]) -> bool
    ensures { result ≡ is_too_long line.now }
{
    line.len() >= TOO_LONG
}

/// Whether a line is a comment, or has blanks alone.
fn is_passed_over(line: &[u8]) -> bool
    ensures { result ≡ is_passed_over line.now }
{
    if let [b'#', ..] = line {
        return true;
    }
    Tokens::new(line).next().is_none()
}

/// The line without one `\r` at its end.
fn without_return(line: &[u8]) -> &[u8]
    ensures { result.now ≡ strip_carriage_return line.now }
{
    match line {
        [front @ .., b'\r'] => front,
        _ => line,
    }
}

impl<'a> Piece<'a> {
    fn is_handed_out(&self) -> bool
        ensures { result ≡ is_handed_out self.now }
    {
        if self.passed {
            return false;
        }
        if is_too_long(self.bytes) {
            return true;
        }
        !is_passed_over(without_return(self.bytes))
    }

    /// The line of a piece that is handed out.
    pub fn line(&self, alloc: Global) -> Result<Line, NoMemory>
        requires { is_handed_out self.now ≡ true }
        ensures { IfOk result (λ line. found_in self.now ≡ line ∷ []) }
    {
        if is_too_long(self.bytes) {
            return Ok(Line {
                number: self.number,
                text: LineText::TooLong,
            });
        }
        let bytes = Bytes::copy(alloc, without_return(self.bytes))?;
        Ok(Line {
            number: self.number,
            text: LineText::Whole(bytes),
        })
    }
}

/// Cuts off the last bytes, where no newline stands after the place: a line that is too long
/// already, or the last line of a stream that has ended.
fn cut_open<'a>(bytes: &'a [u8], ended: bool, place: &mut Place) -> Option<Piece<'a>>
    requires size { length bytes.now ≤ most_bytes }
    requires place { IsPlace bytes.now place.old }
    requires clean { NoNewline bytes.now place.old.start (length bytes.now) }
    ensures place { IsPlace bytes.now place.new }
    ensures cut { MatchOption result
        (Goes ended bytes.now place.old [] place.new × (lines_from ended place.new bytes.now ≡ []) × (begun place.new ≡ begun place.old))
        (λ piece. Goes ended bytes.now place.old (found_in piece) place.new
        × (is_handed_out piece ≡ false → place.old.start < place.new.start)
        × (piece.passed ≡ false)
        × (begun place.new ≡ begun place.old + 1)) }
{
    place.searched = bytes.len();
    if place.passing {
        return None;
    }
    let unclosed = Piece {
        number: place.number,
        passed: false,
        bytes: &bytes[place.start..],
    };
    if is_too_long(unclosed.bytes) {
        place.passing = true;
        return Some(unclosed);
    }
    if ended && place.start < bytes.len() {
        place.start = bytes.len();
        place.number += 1;
        return Some(unclosed);
    }
    None
}

/// Cuts off the next piece, that a newline closes or that is a line without one.
fn cut<'a>(bytes: &'a [u8], ended: bool, place: &mut Place) -> Option<Piece<'a>>
    requires size { length bytes.now ≤ most_bytes }
    requires place { IsPlace bytes.now place.old }
    ensures place { IsPlace bytes.now place.new }
    ensures cut { MatchOption result
        (Goes ended bytes.now place.old [] place.new × (lines_from ended place.new bytes.now ≡ []) × (begun place.new ≡ begun place.old))
        (λ piece. Goes ended bytes.now place.old (found_in piece) place.new
        × (is_handed_out piece ≡ false → place.old.start < place.new.start)
        × (begun place.new ≡ begun place.old + (if piece.passed then 0 else 1))) }
{
    match newline_from(bytes, place.searched) {
        Some(end) => {
            let piece = Piece {
                number: place.number,
                passed: place.passing,
                bytes: &bytes[place.start..end],
            };
            *place = Place {
                start: end + 1,
                searched: end + 1,
                number: place.number + 1,
                passing: false,
            };
            Some(piece)
        }
        None => cut_open(bytes, ended, place),
    }
}

/// Cuts off the next piece that is handed out, and goes past those that are not.
pub fn next_piece<'a>(bytes: &'a [u8], ended: bool, place: &mut Place) -> Option<Piece<'a>>
    requires size { length bytes.now ≤ most_bytes }
    requires place { IsPlace bytes.now place.old }
    ensures place { IsPlace bytes.now place.new }
    ensures cut { MatchOption result
        (Goes ended bytes.now place.old [] place.new × (lines_from ended place.new bytes.now ≡ []) × (begun place.old ≤ begun place.new))
        (λ piece. Goes ended bytes.now place.old (found_in piece) place.new
        × (is_handed_out piece ≡ true)
        × (begun place.old < begun place.new)) }
{
    'pieces: while let Some(piece) = cut(bytes, ended, place) {
        if piece.is_handed_out() {
            return Some(piece);
        }
    }
    None
}
