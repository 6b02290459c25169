//! Reads a text from standard input, cuts it into lines, and prints how many are neither comments
//! nor blank. For measuring alone: it does what the tool does before it reads a first token.
#![tactic(auto)]

ghost use Rattle.std.specs.Prelude.{◌≡◌, ◌≤◌, length, false};
ghost use Rattle.mm_lines.specs.Lines.{most_bytes};

use anyhow::{Result, bail};
use mm_base::{Source, StdSource};
use mm_lines::{Framer, MOST_BYTES};
use std::alloc::Global;

/// How many bytes one read asks for.
const PIECE: usize = 65_536;

/// A framer of the whole text of a source, up to the bytes that are used of a text.
fn framed<S: Source>(alloc: Global, source: &mut S) -> Result<Framer> {
    let mut framer = Framer::new(alloc);
    let mut buffer = [0u8; PIECE];
    let mut total = 0;
    'pieces: while total < MOST_BYTES {
        let want = PIECE.min(MOST_BYTES - total);
        let Ok(count) = source.read(&mut buffer[..want]) else {
            bail!("the read failed");
        };
        if count == 0 {
            break 'pieces;
        }
        framer.feed(alloc, &buffer[..count])?;
        total += count;
    }
    framer.finish();
    Ok(framer)
}

fn main(rt: HostRuntime) -> Result<()> {
    let mut source = StdSource::new(rt.stdin());
    let mut framer = framed(rt.alloc(), &mut source)?;
    let mut count = 0u64;
    'lines: for before in 0..u64::MAX {
        count = before;
        if framer.next_line(rt.alloc())?.is_none() {
            break 'lines;
        }
    }
    println!(rt; "{count}")?;
    Ok(())
}
