//! The reading of the text of a decomposition.

ghost use Rattle.std.specs.Prelude.{◌≡◌, ◌<◌, [], length, take, true, false, IfOk, Ok, Err, MatchResult};
ghost use Rattle.mm_lines.specs.Lines.{lines, most_bytes};
ghost use Rattle.mm_job_text.specs.Becoming.{Goes};
ghost use Rattle.mm_decomp.specs.BuildStates.{IsKept, IsKeptAt, given_in, parts_from, step_lines};
ghost use Rattle.mm_decomp.specs.BuildTexts.{IsTextOf, ReadsAs, ReadsText, left};
ghost use Rattle.mm_decomp.specs.Decompositions.{at_end, decomposition_of, read_at_end};
ghost use Rattle.mm_decomp.specs.declared.build_state.Stage.TheVariants as stages;

use crate::build_state::{BuildState, Stage};
use crate::decomposition::{BuildText, LineNumbers};
use mm_base::{NoMemory, TextFault};
use mm_field::Field;
use mm_job_text::{Refusal, Stop, words};
use mm_lines::{Framer, MOST_BYTES};
use mm_matrix::Matrix;
use std::alloc::Global;
use std::mem;

/// The bytes of a text that are used.
fn used(bytes: &[u8]) -> &[u8]
    ensures { result.now ≡ take most_bytes bytes.now }
{
    &bytes[..bytes.len().min(MOST_BYTES)]
}

/// The lines of a text.
pub(crate) fn framed(alloc: Global, bytes: &[u8]) -> Result<Framer, NoMemory>
    ensures { IfOk result (λ framer. left framer ≡ lines bytes.now) }
{
    let mut framer = Framer::new(alloc);
    framer.feed(alloc, used(bytes))?;
    if bytes.len() > MOST_BYTES {
        return Ok(framer);
    }
    framer.finish();
    Ok(framer)
}

/// Takes the next line, if there is one, and says whether there was.
fn read_next(alloc: Global, state: &mut BuildState, framer: &mut Framer) -> Result<bool, Stop>
    requires { IsKept state.old }
    ensures kept { IfOk result (λ more. IsKept state.new) }
    ensures goes { Goes result (parts_from state.old (left framer.old)) (λ more. parts_from state.new (left framer.new)) }
    ensures more { IfOk result (λ more. more ≡ true → length (left framer.new) < length (left framer.old)) }
    ensures all { IfOk result (λ more. more ≡ false → left framer.new ≡ []) }
{
    let Some(line) = framer.next_line(alloc)? else {
        return Ok(false);
    };
    match state.take(alloc, &line) {
        Ok(()) => Ok(true),
        Err(stop) => Err(stop),
    }
}

/// Takes all lines.
fn read_lines(alloc: Global, state: &mut BuildState, framer: &mut Framer) -> Result<(), Stop>
    requires { IsKept state.old }
    ensures kept { IfOk result (λ u. IsKept state.new) }
    ensures goes { Goes result (parts_from state.old (left framer.old)) (λ u. parts_from state.new []) }
{
    'lines: loop {
        match read_next(alloc, state, framer) {
            Ok(true) => {}
            Ok(false) => return Ok(()),
            Err(stop) => return Err(stop),
        }
    }
}

/// Takes the end of the text, which may have more bytes than are used.
fn read_end(state: &BuildState, over: bool) -> Result<(), Refusal>
    ensures { MatchResult result
        (λ u. (state.now.stage ≡ stages.End) × (at_end over (parts_from state.now []) ≡ Ok (record { given = given_in state.now; shape = step_lines state.now.steps })))
        (λ e. at_end over (parts_from state.now []) ≡ Err e) }
{
    if over {
        return Err(Refusal::TooLong);
    }
    match state.stage {
        Stage::End => Ok(()),
        _ => Err(Refusal::Unfinished),
    }
}

/// What was read.
fn finish(alloc: Global, state: &mut BuildState) -> Result<BuildText, NoMemory>
    requires { IsKeptAt stages.End state.old }
    ensures { IfOk result (λ text. IsTextOf state.old text) }
{
    let names = state.names.to_list(alloc)?;
    let shape = state.steps.builder.finish().unwrap();
    let numbers = mem::replace(&mut state.steps.numbers, Vec::new(alloc));
    let rows = mem::replace(&mut state.rows, Matrix::new(alloc, Field::Two, 0));
    Ok(BuildText {
        names,
        rows,
        shape,
        lines: LineNumbers { numbers },
    })
}

/// Takes all lines and the end of the text.
fn read_all(
    alloc: Global,
    state: &mut BuildState,
    framer: &mut Framer,
    over: bool,
) -> Result<BuildText, Stop>
    requires { IsKept state.old }
    ensures { ReadsAs result (read_at_end over (parts_from state.old (left framer.old))) }
{
    if let Err(stop) = read_lines(alloc, state, framer) {
        return Err(stop);
    }
    if let Err(refusal) = read_end(state, over) {
        return Err(Stop::Refused(refusal));
    }
    let Ok(text) = finish(alloc, state) else {
        return Err(Stop::NoMemory);
    };
    match text.compare_names(alloc) {
        Ok(()) => Ok(text),
        Err(stop) => Err(stop),
    }
}

/// Reads a text.
#[tactic(auto, unfolding(crate::specs::Decompositions::decomposition_of))]
fn read_text(alloc: Global, bytes: &[u8]) -> Result<BuildText, Stop>
    ensures { ReadsAs result (decomposition_of bytes.now) }
{
    let mut framer = framed(alloc, bytes)?;
    let mut state = BuildState::new(alloc);
    read_all(alloc, &mut state, &mut framer, bytes.len() > MOST_BYTES)
}

/// The names, the rows and the shape that a text gives. It is refused by its first faulty line, else as too long, else as unfinished,
/// else by a name that is not both a column's and a leaf's.
pub fn read_build(alloc: Global, bytes: &[u8]) -> Result<BuildText, TextFault>
    ensures { ReadsText result (decomposition_of bytes.now) }
{
    match read_text(alloc, bytes) {
        Ok(text) => Ok(text),
        Err(Stop::Refused(refusal)) => Err(TextFault::Refused(words(alloc, &refusal)?)),
        Err(Stop::NoMemory) => Err(TextFault::NoMemory),
    }
}
