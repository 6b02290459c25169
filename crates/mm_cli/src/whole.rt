//! Reading a source as a whole.
ghost use Rattle.std.specs.Prelude.{◌≡◌, ◌≤◌, ◌<◌, ◌+◌, [], length, IfErr, IfOk};
ghost use Rattle.mm_base.specs.Causes.{Rose};
ghost use Rattle.mm_base.specs.declared.status.Status.TheVariants as ends;
ghost use Rattle.mm_lines.specs.Lines.{most_bytes};
ghost use Rattle.mm_cli.specs.Whole.{StopsReading, TookAll, TookPiece};

use crate::reading::{MOST_TAKEN, PIECE};
use mm_base::{Source, Status, Text};
use std::alloc::Global;

/// Reads a piece, puts it after the text, and says how many bytes it has: none at the end of the source.
fn read_more<S: Source>(
    alloc: Global,
    buffer: &mut [u8],
    source: &mut S,
    text: &mut Text,
) -> Result<usize, Status>
    requires some { 0 < length buffer.old }
    ensures within { IfOk result (λ n. n ≤ length buffer.old) }
    ensures took { IfOk result (TookPiece (S.left source.old) (S.left source.new) text.old text.new) }
    ensures stops { IfErr result StopsReading }
    ensures later { S.faults source.old ≤ S.faults source.new }
    ensures read_fault { IfErr result (λ s. s ≡ ends.ReadFault → Rose (S.faults source.old) (S.faults source.new)) }
{
    let Ok(count) = source.read(buffer) else {
        return Err(Status::ReadFault);
    };
    match text.append(alloc, &buffer[..count]) {
        Ok(()) => Ok(count),
        Err(_) => Err(Status::NoMemory),
    }
}

/// Reads all that is used of a source, and one byte more where there is one. The status where the run ends before.
pub(crate) fn read_whole<S: Source>(
    alloc: Global,
    source: &mut S,
    text: &mut Text,
) -> Result<(), Status>
    requires { text.old ≡ [] }
    ensures took { IfOk result (λ u. TookAll (S.left source.old) (S.left source.new) text.new) }
    ensures stops { IfErr result StopsReading }
    ensures read_fault { IfErr result (λ s. s ≡ ends.ReadFault → Rose (S.faults source.old) (S.faults source.new)) }
{
    let mut buffer = [0u8; PIECE];
    let mut taken = 0;
    'pieces: while taken < MOST_TAKEN {
        let want = PIECE.min(MOST_TAKEN - taken);
        match read_more(alloc, &mut buffer[..want], source, text) {
            Ok(0) => return Ok(()),
            Ok(count) => taken += count,
            Err(status) => return Err(status),
        }
    }
    Ok(())
}
