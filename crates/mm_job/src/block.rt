//! A block of a job, line by line.
ghost use Rattle.std.specs.Prelude.{◌≡◌, ◌∷◌, List, IfOk, None, true, false};
ghost use Rattle.mm_lines.specs.declared.line.Line.{Line};
ghost use Rattle.mm_job.specs.State.Blocks.{GoesOn, IsBegun, IsSubtree, Opened, block_from, edit_from, reply_of};
ghost use Rattle.mm_job.specs.State.Sessions.{IsEditor, session_of};
ghost use Rattle.mm_job.specs.Edits.{changed, check_names, check_rows, checked, compared_or, replace_edit};
ghost use Rattle.std.specs.Result.{result_ok};
ghost use Rattle.mm_job.specs.declared.block.Block.TheVariants as begun;
ghost use Rattle.std.specs.List.{IsDistinct};
ghost use Rattle.std.specs.Str.{bytes_eq};
ghost use Rattle.mm_job.specs.Header.{Session};
ghost use Rattle.mm_header.specs.State.HeaderStates.{IsMatrix};
ghost use Rattle.mm_job.specs.Items.{closes, opens};

use crate::edit::{Above, read_replace};
use crate::editor::{Editor, node_refusal};
use mm_base::NoMemory;
use mm_field::Field;
use mm_header::{HeaderRules, Trees};
use mm_job_text::{
    NameSet, Refusal, Stop, add_elements, add_row, args, begins, is_tree_part, is_word, too_long,
};
use mm_lines::Line;
use mm_matrix::Matrix;
use mm_present::Named;
use std::alloc::Global;

/// A block that has begun and is not ended.
#[derive(Drop)]
pub enum Block {
    /// It is refused, whatever its other lines say.
    Denied(Refusal),
    /// A new subtree for the node so many steps above a leaf, with the trees that its lines have made so far.
    Subtree(Above, Trees),
    /// A check that has these names so far.
    Names(NameSet),
    /// A check that has these names, and these rows so far.
    Rows(Named),
}

/// Whether a line opens a block.
pub fn opens(line: &Line) -> bool
    ensures { result ≡ opens line.now }
{
    begins(line, b"replace") || begins(line, b"check")
}

/// Whether a line ends a block.
pub fn closes(line: &Line) -> bool
    ensures { result ≡ closes line.now }
{
    is_word(line, b"end")
}

/// The block that a line `replace` opens.
#[tactic(auto, unfolding(crate::specs::Edits::replace_edit, crate::specs::Edits::replacement))]
fn open_replace(alloc: Global, editor: &Editor, line: &Line) -> Block
    ensures begun { IsBegun (session_of editor.now) result }
    ensures reply { (rs : List Line) → changed (session_of editor.now) (replace_edit (session_of editor.now) line.now rs) ≡ block_from (session_of editor.now) result rs }
    ensures edit { (rs : List Line) → result_ok (replace_edit (session_of editor.now) line.now rs) ≡ edit_from (session_of editor.now) result rs }
{
    match read_replace(line) {
        Err(refusal) => Block::Denied(refusal),
        Ok(above) => match node_refusal(editor, &above) {
            Some(refusal) => Block::Denied(refusal),
            None => Block::Subtree(above, Trees::new(alloc, editor.field)),
        },
    }
}

/// The block that a line `check` opens.
#[tactic(auto, unfolding(crate::specs::Edits::checked, crate::specs::Edits::check_fields), using(mm_tree::proofs::BuilderLemmas::none_distinct))]
fn open_check(alloc: Global, line: &Line) -> Block
    ensures begun { (s : Session) → IsBegun s result }
    ensures reply { (s : Session) (rs : List Line) → compared_or (checked s line.now rs) ≡ block_from s result rs }
    ensures edit { (s : Session) (rs : List Line) → edit_from s result rs ≡ None }
{
    if args(line).next().is_some() {
        return Block::Denied(Refusal::Syntax(line.number));
    }
    Block::Names(NameSet::new(alloc))
}

impl Block {
    /// The block that a line opens.
    #[tactic(auto, unfolding(crate::specs::Edits::block))]
    pub fn open(alloc: Global, editor: &Editor, line: &Line) -> Block
        requires opens { opens line.now ≡ true }
        ensures begun { IsBegun (session_of editor.now) result }
        ensures opened { Opened (session_of editor.now) line.now result }
    {
        if begins(line, b"replace") {
            open_replace(alloc, editor, line)
        } else {
            open_check(alloc, line)
        }
    }
}

/// Takes a line of a new subtree that is not its `end`.
#[tactic(auto, unfolding(crate::specs::Edits::replacement, mm_job_text::specs::TreeLines::tree_lines, mm_job_text::specs::TreeLines::end_line))]
fn take_subtree(
    alloc: Global,
    editor: &Editor,
    above: Above,
    trees: Trees,
    line: &Line,
) -> Result<Block, NoMemory>
    requires editor { IsEditor editor.now }
    requires inside { closes line.now ≡ false }
    requires begun { IsSubtree (session_of editor.now) above trees }
    ensures begun { IfOk result (λ b. IsBegun (session_of editor.now) b) }
    ensures goes { IfOk result (λ b. GoesOn (session_of editor.now) (begun.Subtree above trees) line.now b) }
{
    if is_tree_part(line) {
        let mut trees = trees;
        let most = HeaderRules::of_job().leaves;
        return match trees.take(alloc, most, editor.field, &editor.ops, line) {
            Ok(()) => Ok(Block::Subtree(above, trees)),
            Err(Stop::Refused(refusal)) => Ok(Block::Denied(refusal)),
            Err(Stop::NoMemory) => Err(NoMemory),
        };
    }
    if let Some(refusal) = too_long(line) {
        return Ok(Block::Denied(refusal));
    }
    Ok(Block::Denied(Refusal::Syntax(line.number)))
}

/// Takes a line of a check that is not its `end`, after these names and rows.
#[tactic(auto, unfolding(crate::specs::Edits::check_rows, crate::specs::Edits::check_end))]
fn take_check_row(alloc: Global, f: Field, given: Named, line: &Line) -> Result<Block, NoMemory>
    requires inside { closes line.now ≡ false }
    requires given { IsMatrix f given }
    ensures begun { IfOk result (λ b. (s : Session) → s.f ≡ f → IsBegun s b) }
    ensures goes { IfOk result (λ b. (s : Session) (rs : List Line) → s.f ≡ f →
        reply_of s (check_rows s.f given.names given.rows.rows (line.now ∷ rs)) ≡ block_from s b rs) }
    ensures edit { IfOk result (λ b. (s : Session) (rs : List Line) → edit_from s b rs ≡ None) }
{
    if begins(line, b"row") {
        let mut given = given;
        return match add_row(alloc, &mut given.rows, line) {
            Ok(()) => Ok(Block::Rows(given)),
            Err(Stop::Refused(refusal)) => Ok(Block::Denied(refusal)),
            Err(Stop::NoMemory) => Err(NoMemory),
        };
    }
    if let Some(refusal) = too_long(line) {
        return Ok(Block::Denied(refusal));
    }
    Ok(Block::Denied(Refusal::Syntax(line.number)))
}

/// Takes a line of a check that is not its `end`, after these names.
#[tactic(auto, unfolding(crate::specs::Edits::check_names), using(mm_header::proofs::KeptLemmas::elements_kept))]
fn take_check_name(alloc: Global, f: Field, names: NameSet, line: &Line) -> Result<Block, NoMemory>
    requires inside { closes line.now ≡ false }
    requires different { IsDistinct bytes_eq names }
    ensures begun { IfOk result (λ b. (s : Session) → s.f ≡ f → IsBegun s b) }
    ensures goes { IfOk result (λ b. (s : Session) (rs : List Line) → s.f ≡ f →
        reply_of s (check_names s.f names (line.now ∷ rs)) ≡ block_from s b rs) }
    ensures edit { IfOk result (λ b. (s : Session) (rs : List Line) → edit_from s b rs ≡ None) }
{
    if begins(line, b"elements") {
        let mut names = names;
        return match add_elements(alloc, HeaderRules::of_job().names, &mut names, line) {
            Ok(()) => Ok(Block::Names(names)),
            Err(Stop::Refused(refusal)) => Ok(Block::Denied(refusal)),
            Err(Stop::NoMemory) => Err(NoMemory),
        };
    }
    let rows = Matrix::new(alloc, f, names.len());
    let names = names.to_list(alloc)?;
    take_check_row(alloc, f, Named { names, rows }, line)
}

impl Block {
    /// Takes a line that is not the block's `end`.
    pub fn take(self, alloc: Global, editor: &Editor, line: &Line) -> Result<Block, NoMemory>
        requires editor { IsEditor editor.now }
        requires inside { closes line.now ≡ false }
        requires begun { IsBegun (session_of editor.now) self }
        ensures begun { IfOk result (λ b. IsBegun (session_of editor.now) b) }
        ensures goes { IfOk result (λ b. GoesOn (session_of editor.now) self line.now b) }
    {
        match self {
            Block::Denied(refusal) => Ok(Block::Denied(refusal)),
            Block::Subtree(above, trees) => take_subtree(alloc, editor, above, trees, line),
            Block::Names(names) => take_check_name(alloc, editor.field, names, line),
            Block::Rows(given) => take_check_row(alloc, editor.field, given, line),
        }
    }
}
