//! The items of a job, line by line.
ghost use Rattle.std.specs.Prelude.{◌≡◌, ◌∷◌, ◌++◌, [], List, IfOk, OnErr, Some, None, true, false};
ghost use Rattle.std.specs.List.{IsDistinct};
ghost use Rattle.std.specs.Str.{bytes_eq};
ghost use Rattle.mm_lines.specs.declared.line.Line.{Line};
ghost use Rattle.mm_header.specs.State.HeaderStates.{IsMatrix};
ghost use Rattle.mm_job.specs.Edits.{line_edit, replacement};
ghost use Rattle.mm_job.specs.Items.{closes, opens};
ghost use Rattle.mm_job.specs.Output.{Ending};
ghost use Rattle.mm_job.specs.State.Blocks.{AreBegun, IsBegun, IsSubtree, comparison_line, lines_from_block, work_from_block, written};
ghost use Rattle.mm_job.specs.State.Replies.{ClosesBlock, RepliesToEdit, SpendsEdit, SpendsEnd};
ghost use Rattle.mm_job.specs.State.Sessions.{IsEditor, kept_of, session_of};
ghost use Rattle.mm_job.specs.State.Spending.{Spends, SpendsAtMost};

use crate::block::{Block, closes, opens};
use crate::edit::{Above, read_single};
use crate::editor::{Editor, exchange, reweigh};
use crate::output_line::{OutputLine, says};
use mm_base::{NoMemory, Steps};
use mm_header::Trees;
use mm_job_text::NameSet;
use mm_lines::Line;
use mm_matrix::Matrix;
use mm_present::{Named, Verdict, compare};
use std::alloc::Global;
use std::sync::ledger::Ledger;

/// Whether given rows agree with the present tree.
fn compare_present(alloc: Global, editor: &Editor, given: &Named) -> Result<OutputLine, NoMemory>
    requires editor { IsEditor editor.now }
    requires given { IsMatrix editor.now.field given.now }
    ensures { IfOk result (λ output_line. output_line ≡
        comparison_line (session_of editor.now) (record { names = given.now.names; rows = given.now.rows.rows })) }
{
    match compare(alloc, given, editor.session.tree())? {
        Verdict::Same => says(alloc, b"same"),
        _ => says(alloc, b"differs"),
    }
}

/// Whether a matrix with these names and no rows agrees with the present tree.
fn compare_names(alloc: Global, editor: &Editor, names: &NameSet) -> Result<OutputLine, NoMemory>
    requires editor { IsEditor editor.now }
    requires different { IsDistinct bytes_eq names.now }
    ensures { IfOk result (λ output_line. output_line ≡
        comparison_line (session_of editor.now) (record { names = names.now; rows = [] })) }
{
    let rows = Matrix::new(alloc, editor.field, names.len());
    let names = names.to_list(alloc)?;
    compare_present(alloc, editor, &Named { names, rows })
}

/// The reply to a new subtree at its `end`.
fn close_subtree<L: Ledger>(
    alloc: Global,
    editor: &mut Editor,
    above: &Above,
    trees: Trees,
    line: &Line,
    steps: &mut Steps<L>,
) -> Result<OutputLine, NoMemory>
    requires editor { IsEditor editor.old }
    requires closes { closes line.now ≡ true }
    requires begun { IsSubtree (session_of editor.old) above.now trees }
    ensures replies { IfOk result (RepliesToEdit editor.old editor.new
        (replacement (session_of editor.old) above.now.name above.now.up trees.trees (line.now ∷ []))) }
    ensures steps { SpendsEdit editor.old (replacement (session_of editor.old) above.now.name above.now.up trees.trees (line.now ∷ [])) steps.old steps.new }
{
    match trees.end(line) {
        Ok(tree) => exchange(alloc, editor, above, tree, line, steps),
        Err(refusal) => Ok(OutputLine::Refuses(refusal)),
    }
}

/// The reply to a block at its `end`.
fn close<L: Ledger>(
    alloc: Global,
    editor: &mut Editor,
    block: Block,
    line: &Line,
    steps: &mut Steps<L>,
) -> Result<OutputLine, NoMemory>
    requires editor { IsEditor editor.old }
    requires closes { closes line.now ≡ true }
    requires begun { IsBegun (session_of editor.old) block }
    ensures closed { IfOk result (ClosesBlock editor.old editor.new block line.now) }
    ensures steps { SpendsEnd editor.old block line.now steps.old steps.new }
{
    match block {
        Block::Denied(refusal) => Ok(OutputLine::Refuses(refusal)),
        Block::Subtree(above, trees) => close_subtree(alloc, editor, &above, trees, line, steps),
        Block::Names(names) => compare_names(alloc, editor, &names),
        Block::Rows(given) => compare_present(alloc, editor, &given),
    }
}

/// What a line of the items says, and the block that has begun then, if any.
#[derive(Drop)]
struct ItemStep {
    /// The line that is written.
    pub output_line: Option<OutputLine>,
    /// The block.
    pub block: Option<Block>,
}

/// The reply to an item of one line.
fn take_single<L: Ledger>(
    alloc: Global,
    editor: &mut Editor,
    line: &Line,
    steps: &mut Steps<L>,
) -> Result<OutputLine, NoMemory>
    requires editor { IsEditor editor.old }
    ensures replies { IfOk result (RepliesToEdit editor.old editor.new (line_edit (session_of editor.old) line.now)) }
    ensures steps { SpendsEdit editor.old (line_edit (session_of editor.old) line.now) steps.old steps.new }
{
    match read_single(line) {
        Ok(new) => reweigh(alloc, editor, &new, line, steps),
        Err(refusal) => Ok(OutputLine::Refuses(refusal)),
    }
}

/// Takes a line between two items.
fn take_between<L: Ledger>(
    alloc: Global,
    editor: &mut Editor,
    line: &Line,
    steps: &mut Steps<L>,
) -> Result<ItemStep, NoMemory>
    requires editor { IsEditor editor.old }
    ensures editor { IfOk result (λ taken. IsEditor editor.new × AreBegun (session_of editor.new) taken.block) }
    ensures step { IfOk result (λ taken. (e : Ending) (rs : List Line) →
        lines_from_block e (session_of editor.old) None (line.now ∷ rs)
        ≡ written taken.output_line ++ lines_from_block e (session_of editor.new) taken.block rs) }
    ensures spends { IfOk result (λ taken. Spends (work_from_block (kept_of editor.old) (session_of editor.old) None)
        (work_from_block (kept_of editor.new) (session_of editor.new) taken.block) (line.now ∷ []) [] steps.old steps.new) }
    ensures most { OnErr result (SpendsAtMost (work_from_block (kept_of editor.old) (session_of editor.old) None) (line.now ∷ []) steps.old steps.new) }
{
    if opens(line) {
        return Ok(ItemStep {
            output_line: None,
            block: Some(Block::open(alloc, editor, line)),
        });
    }
    let output_line = take_single(alloc, editor, line, steps)?;
    Ok(ItemStep {
        output_line: Some(output_line),
        block: None,
    })
}

/// Takes a line inside a block.
fn take_inside<L: Ledger>(
    alloc: Global,
    editor: &mut Editor,
    block: Block,
    line: &Line,
    steps: &mut Steps<L>,
) -> Result<ItemStep, NoMemory>
    requires editor { IsEditor editor.old }
    requires begun { IsBegun (session_of editor.old) block }
    ensures editor { IfOk result (λ taken. IsEditor editor.new × AreBegun (session_of editor.new) taken.block) }
    ensures step { IfOk result (λ taken. (e : Ending) (rs : List Line) →
        lines_from_block e (session_of editor.old) (Some block) (line.now ∷ rs)
        ≡ written taken.output_line ++ lines_from_block e (session_of editor.new) taken.block rs) }
    ensures spends { IfOk result (λ taken. Spends (work_from_block (kept_of editor.old) (session_of editor.old) (Some block))
        (work_from_block (kept_of editor.new) (session_of editor.new) taken.block) (line.now ∷ []) [] steps.old steps.new) }
    ensures most { OnErr result (SpendsAtMost (work_from_block (kept_of editor.old) (session_of editor.old) (Some block)) (line.now ∷ []) steps.old steps.new) }
{
    if closes(line) {
        let output_line = close(alloc, editor, block, line, steps)?;
        return Ok(ItemStep {
            output_line: Some(output_line),
            block: None,
        });
    }
    let block = block.take(alloc, editor, line)?;
    Ok(ItemStep {
        output_line: None,
        block: Some(block),
    })
}

/// Takes a line of the items. What is written for all lines from this one on is what is written for it, and then for those after it.
fn take_item_line<L: Ledger>(
    alloc: Global,
    editor: &mut Editor,
    block: Option<Block>,
    line: &Line,
    steps: &mut Steps<L>,
) -> Result<ItemStep, NoMemory>
    requires editor { IsEditor editor.old }
    requires begun { AreBegun (session_of editor.old) block }
    ensures editor { IfOk result (λ taken. IsEditor editor.new × AreBegun (session_of editor.new) taken.block) }
    ensures step { IfOk result (λ taken. (e : Ending) (rs : List Line) →
        lines_from_block e (session_of editor.old) block (line.now ∷ rs)
        ≡ written taken.output_line ++ lines_from_block e (session_of editor.new) taken.block rs) }
    ensures spends { IfOk result (λ taken. Spends (work_from_block (kept_of editor.old) (session_of editor.old) block)
        (work_from_block (kept_of editor.new) (session_of editor.new) taken.block) (line.now ∷ []) [] steps.old steps.new) }
    ensures most { OnErr result (SpendsAtMost (work_from_block (kept_of editor.old) (session_of editor.old) block) (line.now ∷ []) steps.old steps.new) }
{
    match block {
        None => take_between(alloc, editor, line, steps),
        Some(block) => take_inside(alloc, editor, block, line, steps),
    }
}

/// The same, where the block stands in its place.
pub fn take_item<L: Ledger>(
    alloc: Global,
    editor: &mut Editor,
    block: &mut Option<Block>,
    line: &Line,
    steps: &mut Steps<L>,
) -> Result<Option<OutputLine>, NoMemory>
    requires editor { IsEditor editor.old }
    requires begun { AreBegun (session_of editor.old) block.old }
    ensures editor { IfOk result (λ output. IsEditor editor.new × AreBegun (session_of editor.new) block.new) }
    ensures step { IfOk result (λ output. (e : Ending) (rs : List Line) →
        lines_from_block e (session_of editor.old) block.old (line.now ∷ rs)
        ≡ written output ++ lines_from_block e (session_of editor.new) block.new rs) }
    ensures spends { IfOk result (λ output. Spends (work_from_block (kept_of editor.old) (session_of editor.old) block.old)
        (work_from_block (kept_of editor.new) (session_of editor.new) block.new) (line.now ∷ []) [] steps.old steps.new) }
    ensures most { OnErr result (SpendsAtMost (work_from_block (kept_of editor.old) (session_of editor.old) block.old) (line.now ∷ []) steps.old steps.new) }
{
    let begun = block.take();
    let ItemStep {
        output_line,
        block: next,
    } = take_item_line(alloc, editor, begun, line, steps)?;
    *block = next;
    Ok(output_line)
}
