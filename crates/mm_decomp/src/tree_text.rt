//! The reading of the text of a header without its query.

ghost use Rattle.std.specs.Prelude.{◌≡◌, ◌<◌, ◌≤◌, ◌∷◌, [], List, length, true, false, IfOk};
ghost use Rattle.mm_header.specs.State.HeaderStates.{IsKeptAfter, header_value};
ghost use Rattle.mm_header.specs.declared.state.HeaderStep.TheVariants as steps;
ghost use Rattle.mm_lines.specs.declared.line.Line.{Line as LineOf};
ghost use Rattle.mm_job_text.specs.Becoming.{Goes};
ghost use Rattle.mm_job_text.proofs.ReadingLemmas.{IfRead};
ghost use Rattle.mm_tree.specs.NamedTree.{element_names};
ghost use Rattle.mm_decomp.specs.BuildTexts.{left};
ghost use Rattle.mm_decomp.specs.GivenTrees.{HasFewElements, ReadsTree, ReadsTreeAs, agreeing, given_tree_of, tree_at_end, tree_from};
ghost use Rattle.mm_decomp.specs.Shapes.{most_leaves};

use crate::build_state::line_after_end;
use crate::read::framed;
use mm_base::TextFault;
use mm_header::{HeaderData, HeaderRules, HeaderState, HeaderStep, match_rows, take_header_line};
use mm_job_text::{Refusal, Stop, words};
use mm_lines::{Framer, Line, MOST_BYTES};
use mm_present::Named;
use mm_tree::Tree;
use std::alloc::Global;
use std::mem;

/// A matrix with names for its columns, and a tree whose matrix has the same row space, as a text gives them.
#[derive(Drop)]
pub struct TreeText {
    /// The names of the columns, and the rows.
    pub given: Named,
    /// The tree. Its elements are the names.
    pub tree: Tree,
}

/// Takes a line, after what was read so far.
fn take(alloc: Global, step: HeaderStep, line: &Line) -> Result<HeaderStep, Stop>
    requires { IsKeptAfter step }
    ensures kept { IfOk result IsKeptAfter }
    ensures goes { (rs : List LineOf) → Goes result (tree_from step (line.now ∷ rs)) (λ s. tree_from s rs) }
{
    match step {
        HeaderStep::More(state) => take_header_line(alloc, HeaderRules::of_dual(), state, line),
        HeaderStep::Parts(_, _) => Err(Stop::Refused(line_after_end(line))),
    }
}

/// Takes the next line, if there is one, and says whether there was.
fn read_next(alloc: Global, step: &mut HeaderStep, framer: &mut Framer) -> Result<bool, Stop>
    requires { IsKeptAfter step.old }
    ensures kept { IfOk result (λ more. IsKeptAfter step.new) }
    ensures goes { Goes result (tree_from step.old (left framer.old)) (λ more. tree_from step.new (left framer.new)) }
    ensures more { IfOk result (λ more. more ≡ true → length (left framer.new) < length (left framer.old)) }
    ensures all { IfOk result (λ more. more ≡ false → left framer.new ≡ []) }
{
    let Some(line) = framer.next_line(alloc)? else {
        return Ok(false);
    };
    let before = mem::replace(step, HeaderStep::More(HeaderState::Format));
    match take(alloc, before, &line) {
        Ok(after) => {
            *step = after;
            Ok(true)
        }
        Err(stop) => Err(stop),
    }
}

/// Takes all lines.
fn read_lines(alloc: Global, step: &mut HeaderStep, framer: &mut Framer) -> Result<(), Stop>
    requires { IsKeptAfter step.old }
    ensures kept { IfOk result (λ u. IsKeptAfter step.new) }
    ensures goes { Goes result (tree_from step.old (left framer.old)) (λ u. tree_from step.new []) }
{
    'lines: loop {
        match read_next(alloc, step, framer) {
            Ok(true) => {}
            Ok(false) => return Ok(()),
            Err(stop) => return Err(stop),
        }
    }
}

/// Compares the rows with the tree.
fn compared(alloc: Global, header: HeaderData, tree: Tree) -> Result<TreeText, Stop>
    requires kept { IsKeptAfter (steps.Parts header tree) }
    requires few { length (element_names tree.tree) ≤ most_leaves }
    ensures { ReadsTreeAs result (agreeing (header_value header, tree.tree)) }
{
    match match_rows(alloc, &header, &tree) {
        Ok(()) => Ok(TreeText {
            given: header.matrix,
            tree,
        }),
        Err(stop) => Err(stop),
    }
}

/// Takes the end of the text, which may have more bytes than are used.
fn read_end(alloc: Global, step: HeaderStep, over: bool) -> Result<TreeText, Stop>
    requires kept { IsKeptAfter step }
    requires few { IfRead HasFewElements (tree_from step []) }
    ensures { ReadsTreeAs result (tree_at_end over (tree_from step [])) }
{
    if over {
        return Err(Stop::Refused(Refusal::TooLong));
    }
    match step {
        HeaderStep::More(_) => Err(Stop::Refused(Refusal::Unfinished)),
        HeaderStep::Parts(header, tree) => compared(alloc, header, tree),
    }
}

/// Reads a text.
fn read_text(alloc: Global, bytes: &[u8]) -> Result<TreeText, Stop>
    ensures { ReadsTreeAs result (given_tree_of bytes.now) }
{
    let mut framer = framed(alloc, bytes)?;
    let mut step = HeaderStep::More(HeaderState::Format);
    match read_lines(alloc, &mut step, &mut framer) {
        Ok(()) => read_end(alloc, step, bytes.len() > MOST_BYTES),
        Err(stop) => Err(stop),
    }
}

/// The names, the rows and the tree that a text gives. It is refused by its first faulty line, else as too long, else as unfinished, else
/// by the first difference of the rows and the tree.
pub fn read_tree_text(alloc: Global, bytes: &[u8]) -> Result<TreeText, TextFault>
    ensures { ReadsTree result (given_tree_of bytes.now) }
{
    match read_text(alloc, bytes) {
        Ok(text) => Ok(text),
        Err(Stop::Refused(refusal)) => Err(TextFault::Refused(words(alloc, &refusal)?)),
        Err(Stop::NoMemory) => Err(TextFault::NoMemory),
    }
}
