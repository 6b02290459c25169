//! A stream of bytes that comes in pieces, cut into lines.
ghost use Rattle.std.specs.Prelude.{◌≡◌, ◌+◌, ◌≤◌, [], ◌++◌, List, ℕ, MatchOption, OnOk, OnErr, IfOk, length, take, not, true, false};
ghost use Rattle.mm_lines.specs.Lines.{is_over, lines, lines_of, most_bytes, settled};
ghost use Rattle.mm_lines.specs.Streams.{Stream, next_of, after_line};

use crate::line::Line;
use crate::place::{Place, next_piece};
use mm_base::NoMemory;
use std::alloc::Global;
use std::marker::Model;

/// A stream of bytes that is fed in any pieces and hands out its lines, which contracts see as the
/// bytes so far, whether the stream has ended, and how many of its lines were handed out.
///
/// The lines are those of the whole stream, however it was cut.
#[derive(Drop)]
pub struct Framer {
    /// The whole stream so far.
    bytes: Vec<u8>,
    /// The stream has ended.
    ended: bool,
    /// Where the next line begins.
    place: Place,
    /// How many lines were handed out. There are fewer of them than lines were begun.
    handed: u32,
}

impl Model for Framer {
    ghost use Rattle.std.specs.Prelude.{List, ℕ};
    ghost use Rattle.mm_lines.specs.Streams.{Stream};

    ghost Value = { Stream };

    ghost use Rattle.mm_lines.specs.Framers.{stream_of, IsFramed};

    ghost view = { stream_of };

    ghost invariant = { IsFramed };
}

impl Framer {
    /// A stream with no bytes so far. It takes no memory yet.
    pub fn new(alloc: Global) -> Framer
        ensures { result ≡ record { bytes = []; ended = false; handed = 0 } }
    {
        Framer {
            bytes: Vec::new(alloc),
            ended: false,
            place: Place {
                start: 0,
                searched: 0,
                number: 1,
                passing: false,
            },
            handed: 0,
        }
    }

    /// The stream goes on with this piece. Without memory it stays as it was.
    pub fn feed(&mut self, _alloc: Global, piece: &[u8]) -> Result<(), NoMemory>
        requires goes_on { self.old.ended ≡ false }
        requires size { length self.old.bytes + length piece.now ≤ most_bytes }
        ensures ok { OnOk result (self.new ≡ record self.old { bytes = self.old.bytes ++ piece.now }) }
        ensures err { OnErr result (self.new ≡ self.old) }
    {
        self.bytes.extend_from_slice(piece)?;
        Ok(())
    }

    /// The stream ends here. Its end closes the last line, if bytes stand after the last newline.
    pub fn finish(&mut self)
        requires goes_on { self.old.ended ≡ false }
        ensures { self.new ≡ record self.old { ended = true } }
    {
        self.ended = true;
    }

    /// The next line that is neither a comment nor blank. None exactly where no further line of the
    /// stream is closed or known to be too long. Without memory the line comes at the next call.
    pub fn next_line(&mut self, alloc: Global) -> Result<Option<Line>, NoMemory>
        ensures line { IfOk result (λ line. line ≡ next_of self.old) }
        ensures handed { IfOk result (λ line. self.new ≡ after_line line self.old) }
        ensures err { OnErr result (self.new ≡ self.old) }
    {
        let mut place = self.place;
        let Some(piece) = next_piece(&self.bytes, self.ended, &mut place) else {
            self.place = place;
            return Ok(None);
        };
        let line = piece.line(alloc)?;
        self.place = place;
        self.handed += 1;
        Ok(Some(line))
    }
}
