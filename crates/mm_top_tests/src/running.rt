//! Calls of `top` over memory.
ghost use Rattle.std.specs.Prelude.{◌≡◌, ◌<◌};

use mm_base::{MemorySink, MemorySource, Sink, Source, Status, Steps};
use mm_cli::top;
use std::alloc::Global;
use std::marker::Brand;
use std::sync::ledger::{Blank, Ledger};
use std::test::Fail;

/// The words of a line.
pub fn words(alloc: Global, line: &str) -> Result<Vec<String>, Fail> {
    let mut words = Vec::new(alloc);
    for word in line.split(' ') {
        if !word.is_empty() {
            words.push(word.to_string(alloc)?)?;
        }
    }
    Ok(words)
}

/// A call of `top` with a new counter of steps.
fn call<S: Source, K: Sink, L: Ledger>(
    alloc: Global,
    words: &Vec<String>,
    source: &mut S,
    sink: &mut K,
    blank: Blank,
) -> Status
    requires name { blank.name ≡ L.name }
    requires parts { blank.parts ≡ L.parts }
    requires some { 0 < blank.parts }
{
    let mut steps: Steps<L> = Steps::new(blank);
    top(alloc, words, source, sink, &mut steps)
}

/// A call of `top` with a counter that nobody reads.
pub fn call_once<S: Source, K: Sink>(
    alloc: Global,
    line: &str,
    source: &mut S,
    sink: &mut K,
) -> Result<Status, Fail> {
    let words = words(alloc, line)?;
    Ok(call::<S, K, Brand>(alloc, &words, source, sink, Blank::new(1)))
}

/// Whether a text that comes in such pieces gives this output and this status.
pub fn gives(
    alloc: Global,
    line: &str,
    text: &[u8],
    piece: usize,
    output: &str,
    status: u8,
) -> Result<bool, Fail>
    requires { 0 < piece }
{
    let mut source = MemorySource::new(alloc, text, piece, &[])?;
    let mut sink = MemorySink::new(alloc, 4096, &[])?;
    let ended = call_once(alloc, line, &mut source, &mut sink)?;
    Ok(ended.code() == status && sink.bytes() == output.as_bytes())
}
