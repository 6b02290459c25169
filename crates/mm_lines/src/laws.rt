//! Laws of lines and tokens, for the crates that speak of whole texts.
ghost use Rattle.std.specs.Prelude.{◌≡◌, ◌++◌, take, drop, not, false};
ghost use Rattle.mm_lines.specs.Fronts.{IsFront};
ghost use Rattle.mm_lines.specs.LineBytes.{bytes_of};
ghost use Rattle.mm_lines.specs.Lines.{is_over, lines, lines_of, most_bytes, settled};
ghost use Rattle.mm_lines.specs.Tokens.{rest_of, tokens};

use crate::framer::Framer;
use crate::line::Line;

/// The lines of a framer that was fed what is used of a text, and finished where the text is no
/// longer than that, are the lines of the text. One that is not finished has the settled ones.
#[tactic(auto, unfolding(crate::specs::Lines::lines, crate::specs::Lines::settled))]
pub fn framed_lines_are_those_of_the_text(_framer: &Framer, _text: &[u8])
    requires fed { _framer.now.bytes ≡ take most_bytes _text.now }
    ensures whole { _framer.now.ended ≡ not (is_over _text.now) → lines_of _framer.now.ended _framer.now.bytes ≡ lines _text.now }
    ensures part { _framer.now.ended ≡ false → lines_of _framer.now.ended _framer.now.bytes ≡ settled _text.now }
{}

/// The settled lines of a text stay the first ones, however the text goes on, and when it ends.
pub fn settled_lines_stay(_text: &[u8], _more: &[u8])
    ensures going_on { IsFront (settled _text.now) (settled (_text.now ++ _more.now)) }
    ensures ended { IsFront (settled _text.now) (lines (_text.now ++ _more.now)) }
{}

/// The tokens of a rest are those of the line from the rest's own on.
pub fn a_rest_has_the_tokens_from_its_own_on(_line: &Line, _k: usize)
    ensures { tokens (rest_of _k (bytes_of _line.now)) ≡ drop _k (tokens (bytes_of _line.now)) }
{}
