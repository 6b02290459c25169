//! Numbers the types of a tree anew, again and again. For measuring alone: it does what the tool does between the end of a header and
//! the first answer.
//!
//! `bench_types ROUNDS WORD ..` reads a header without a query from standard input, and ROUNDS times makes an automaton of the query
//! that the words spell (`decide` and a formula) and the runs of all nodes by it. It prints how many types the last one has in all
//! parts of its formula. `bench/types.sh` takes the time.
#![tactic(auto)]

ghost use Rattle.std.specs.Prelude.{◌≡◌, ◌<◌, ◌≤◌, length};
ghost use Rattle.mm_lines.specs.Lines.{most_bytes};

use anyhow::{Result, bail};
use mm_base::{Source, StdSource, Steps, Text};
use mm_decomp::read_tree_text;
use mm_formula::Scoped;
use mm_header::read_query;
use mm_lines::{Framer, MOST_BYTES};
use mm_machine::Machine;
use mm_nodes::MAX_LIMIT;
use mm_runs::Runs;
use mm_tree::Tree;
use std::alloc::Global;
use std::env;
use std::marker::Brand;
use std::sync::ledger::{Blank, Ledger};

/// How many bytes one read asks for.
const PIECE: usize = 8192;

/// The text of a source, up to the bytes that are used of a text.
fn text_of<S: Source>(alloc: Global, source: &mut S) -> Result<Text> {
    let mut text = Text::new(alloc);
    let mut buffer = [0u8; PIECE];
    let mut total = 0;
    'pieces: while total < MOST_BYTES {
        let want = PIECE.min(MOST_BYTES - total);
        let Ok(count) = source.read(&mut buffer[..want]) else {
            bail!("the read failed");
        };
        if count == 0 {
            break 'pieces;
        }
        text.append(alloc, &buffer[..count])?;
        total += count;
    }
    Ok(text)
}

/// The query that the line spells.
fn query_of(alloc: Global, spelled: &[u8]) -> Result<Scoped>
    requires { length spelled.now ≤ most_bytes }
{
    let mut framer = Framer::new(alloc);
    framer.feed(alloc, spelled)?;
    framer.finish();
    let Some(line) = framer.next_line(alloc)? else {
        bail!("no query");
    };
    match read_query(alloc, &line) {
        Ok(query) => Ok(query),
        Err(_) => bail!("this is no query"),
    }
}

/// The number of types in all parts, after the runs of the tree by a new automaton of the query.
fn types_of<L: Ledger>(
    alloc: Global,
    tree: &Tree,
    query: &Scoped,
    steps: &mut Steps<L>,
) -> Result<u64> {
    let machine = Machine::of(alloc, tree.field(), query)?;
    match Runs::of(alloc, machine, MAX_LIMIT, tree, steps) {
        Ok(runs) => Ok(all_types(runs.automaton())),
        Err(_) => bail!("too many types"),
    }
}

/// The number of types in all parts of an automaton.
fn all_types(machine: &Machine) -> u64 {
    let mut sum: u64 = 0;
    for part in 0..machine.parts() {
        sum = sum.wrapping_add(machine.count(part) as u64);
    }
    sum
}

/// So many rounds.
fn rounds<L: Ledger>(
    alloc: Global,
    tree: &Tree,
    query: &Scoped,
    count: u64,
    blank: Blank,
) -> Result<u64>
    requires name { blank.name ≡ L.name }
    requires parts { blank.parts ≡ L.parts }
    requires some { 0 < blank.parts }
{
    let mut steps: Steps<L> = Steps::new(blank);
    let mut types = 0;
    for _ in 0..count {
        types = types_of(alloc, tree, query, &mut steps)?;
    }
    Ok(types)
}

/// The number that ASCII digits show, as far as it fits.
fn number(text: &[u8]) -> u64 {
    let mut n: u64 = 0;
    for b in text {
        if *b >= b'0' && *b <= b'9' {
            n = n.wrapping_mul(10).wrapping_add((*b - b'0') as u64);
        }
    }
    n
}

/// The words after the first one, with a blank after each.
fn spelled_by(rt: &HostRuntime) -> Result<(u64, Text)> {
    let mut count = 0;
    let mut spelled = Text::new(rt.alloc());
    for (i, word) in env::args(rt)?.skip(1).enumerate() {
        if i == 0 {
            count = number(word.as_bytes());
        } else {
            spelled.append(rt.alloc(), word.as_bytes())?;
            spelled.append(rt.alloc(), b" ")?;
        }
    }
    Ok((count, spelled))
}

fn main(rt: HostRuntime) -> Result<()> {
    let alloc = rt.alloc();
    let (count, spelled) = spelled_by(&rt)?;
    if spelled.bytes().len() > MOST_BYTES {
        bail!("the query is too long");
    }
    let query = query_of(alloc, spelled.bytes())?;
    let text = text_of(alloc, &mut StdSource::new(rt.stdin()))?;
    match read_tree_text(alloc, text.bytes()) {
        Ok(read) => {
            let types = rounds::<Brand>(alloc, &read.tree, &query, count, Blank::new(1))?;
            println!(rt; "{types}")?;
            Ok(())
        }
        Err(_) => bail!("this is no header"),
    }
}
