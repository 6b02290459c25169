//! The header of a text up to its query, line by line.
ghost use Rattle.std.specs.Prelude.{◌≡◌, ◌∷◌, [], List, IfOk, true, false, codes};
ghost use Rattle.std.specs.List.{IsDistinct};
ghost use Rattle.std.specs.Str.{bytes_eq};
ghost use Rattle.mm_lines.specs.declared.line.Line.{Line as LineOf};
ghost use Rattle.mm_header.specs.Header.{field_part, ops_part, parts, rows_part};
ghost use Rattle.mm_header.specs.State.HeaderStates.{IsHeader, IsKept, IsKeptAfter, elements_from, header_value, parts_after, parts_from, tree_from};
ghost use Rattle.mm_header.specs.declared.rules.HeaderRules.{HeaderRules as RulesOf};
ghost use Rattle.mm_job_text.specs.Arguments.{begins};
ghost use Rattle.mm_job_text.specs.Becoming.{Goes};
ghost use Rattle.mm_job_text.specs.Readers.{Read};
ghost use Rattle.mm_job_text.specs.TreeLines.{is_tree_part};

use crate::rules::HeaderRules;
use crate::tree_lines::Trees;
use mm_base::NoMemory;
use mm_field::Field;
use mm_job_text::{
    Format, NameSet, Stop, add_elements, add_operator, add_row, begins, is_tree_part, read_field,
    read_format, read_tree, too_long,
};
use mm_lines::Line;
use mm_matrix::Matrix;
use mm_ops::OpTable;
use mm_present::Named;
use mm_tree::Tree;
use std::alloc::Global;

/// What the lines before the rows give.
#[derive(Drop)]
pub struct Elements {
    format: Format,
    field: Field,
    names: NameSet,
}

/// What the lines before the tree give.
#[derive(Drop)]
pub struct HeaderData {
    /// The format of the text.
    pub format: Format,
    /// The field of the matrix and of the tree.
    pub field: Field,
    /// The names of the columns, and the rows.
    pub matrix: Named,
    /// The operators.
    pub ops: OpTable,
}

/// What was read of a header, by what may come next. A header begins with `HeaderState::Format`.
#[derive(Drop)]
pub enum HeaderState {
    /// The format.
    Format,
    /// The field.
    Field(Format),
    /// Elements, or what stands after them.
    Elements(Elements),
    /// Rows, or what stands after them.
    Rows(HeaderData),
    /// Operators, or what stands after them.
    Operators(HeaderData),
    /// The tree.
    Tree(HeaderData, Trees),
}

/// What was read of a header after one line more.
#[derive(Drop)]
pub enum HeaderStep {
    /// The header goes on.
    More(HeaderState),
    /// The tree has ended, and the query comes next.
    Parts(HeaderData, Tree),
}

/// Takes the line of the format.
#[tactic(auto, unfolding(crate::specs::Header::parts))]
fn take_format(line: &Line) -> Result<Format, Stop>
    ensures { (rules : RulesOf) (rs : List LineOf) →
        Goes result (parts rules (line.now ∷ rs)) (λ version. field_part rules version rs) }
{
    if let Some(refusal) = too_long(line) {
        return Err(Stop::Refused(refusal));
    }
    Ok(read_format(line)?)
}

/// Takes the line of the field.
#[tactic(auto, unfolding(crate::specs::Header::field_part), using(mm_tree::proofs::BuilderLemmas::none_distinct))]
fn take_field(alloc: Global, format: Format, line: &Line) -> Result<Elements, Stop>
    ensures different { IfOk result (λ e. IsDistinct bytes_eq e.names) }
    ensures goes { (rules : RulesOf) (rs : List LineOf) →
        Goes result (field_part rules format (line.now ∷ rs)) (λ e. elements_from rules e rs) }
{
    if let Some(refusal) = too_long(line) {
        return Err(Stop::Refused(refusal));
    }
    let field = read_field(line)?;
    Ok(Elements {
        format,
        field,
        names: NameSet::new(alloc),
    })
}

/// Takes a line of elements.
#[tactic(auto, unfolding(crate::specs::Header::elements_part), using(crate::proofs::KeptLemmas::elements_kept))]
fn take_elements(
    alloc: Global,
    rules: HeaderRules,
    elements: &mut Elements,
    line: &Line,
) -> Result<(), Stop>
    requires begins { begins (codes "elements") line.now ≡ true }
    requires different { IsDistinct bytes_eq elements.old.names }
    ensures different { IfOk result (λ u. IsDistinct bytes_eq elements.new.names) }
    ensures goes { (rs : List LineOf) →
        Goes result (elements_from rules elements.old (line.now ∷ rs)) (λ u. elements_from rules elements.new rs) }
{
    add_elements(alloc, rules.names, &mut elements.names, line)
}

impl Elements {
    /// The names are complete.
    #[tactic(auto, unfolding(crate::specs::Header::elements_part))]
    fn into_header(self, alloc: Global, line: &Line) -> Result<HeaderData, NoMemory>
        requires begins { begins (codes "elements") line.now ≡ false }
        requires different { IsDistinct bytes_eq self.names }
        ensures header { IfOk result IsHeader }
        ensures ops { IfOk result (λ h. h.ops ≡ []) }
        ensures same { IfOk result (λ h. (rules : RulesOf) (rs : List LineOf) →
            elements_from rules self (line.now ∷ rs) ≡ rows_part rules (header_value h) (line.now ∷ rs)) }
    {
        let Elements {
            format,
            field,
            names,
        } = self;
        let rows = Matrix::new(alloc, field, names.len());
        let names = names.to_list(alloc)?;
        Ok(HeaderData {
            format,
            field,
            matrix: Named { names, rows },
            ops: OpTable::new(alloc),
        })
    }
}

/// Takes a row.
#[tactic(auto, unfolding(crate::specs::Header::rows_part))]
fn take_row(alloc: Global, header: &mut HeaderData, line: &Line) -> Result<(), Stop>
    requires begins { begins (codes "row") line.now ≡ true }
    requires header { IsHeader header.old }
    requires ops { header.old.ops ≡ [] }
    ensures header { IsHeader header.new × (header.new.ops ≡ []) }
    ensures goes { (rules : RulesOf) (rs : List LineOf) →
        Goes result (rows_part rules (header_value header.old) (line.now ∷ rs)) (λ u. rows_part rules (header_value header.new) rs) }
{
    add_row(alloc, &mut header.matrix.rows, line)
}

/// The rows are complete.
#[tactic(auto, unfolding(crate::specs::Header::rows_part))]
fn end_rows(header: &HeaderData, line: &Line)
    requires begins { begins (codes "row") line.now ≡ false }
    ensures same { (rules : RulesOf) (rs : List LineOf) →
        rows_part rules (header_value header.now) (line.now ∷ rs) ≡ ops_part rules (header_value header.now) (line.now ∷ rs) }
{}

/// Takes an operator.
#[tactic(auto, unfolding(crate::specs::Header::ops_part), using(crate::proofs::KeptLemmas::operators_kept))]
fn take_operator(alloc: Global, header: &mut HeaderData, line: &Line) -> Result<(), Stop>
    requires begins { begins (codes "op") line.now ≡ true }
    requires header { IsHeader header.old }
    ensures header { IfOk result (λ u. IsHeader header.new) }
    ensures goes { (rules : RulesOf) (rs : List LineOf) →
        Goes result (ops_part rules (header_value header.old) (line.now ∷ rs)) (λ u. ops_part rules (header_value header.new) rs) }
{
    add_operator(alloc, header.format, header.field, &mut header.ops, line)
}

/// Takes the line `tree`, after the operators.
#[tactic(auto, unfolding(crate::specs::Header::ops_part))]
fn take_tree(header: &HeaderData, line: &Line) -> Result<(), Stop>
    requires begins { begins (codes "op") line.now ≡ false }
    ensures { (rules : RulesOf) (rs : List LineOf) →
        Goes result (ops_part rules (header_value header.now) (line.now ∷ rs)) (λ u. tree_from rules header.now [] rs) }
{
    if let Some(refusal) = too_long(line) {
        return Err(Stop::Refused(refusal));
    }
    Ok(read_tree(line)?)
}

/// Takes a line of the tree that is not its `end`.
#[tactic(auto, unfolding(crate::specs::Header::tree_part_of, mm_job_text::specs::TreeLines::tree_lines))]
fn take_part(
    alloc: Global,
    rules: HeaderRules,
    header: &HeaderData,
    trees: &mut Trees,
    line: &Line,
) -> Result<(), Stop>
    requires part { is_tree_part line.now ≡ true }
    requires header { IsHeader header.now }
    requires field { trees.old.f ≡ header.now.field }
    ensures field { trees.new.f ≡ trees.old.f }
    ensures goes { (rs : List LineOf) →
        Goes result (tree_from rules header.now trees.old.trees (line.now ∷ rs)) (λ u. tree_from rules header.now trees.new.trees rs) }
{
    trees.take(alloc, rules.leaves, header.field, &header.ops, line)
}

/// Takes the `end` of the tree.
#[tactic(auto, unfolding(crate::specs::Header::tree_part_of, mm_job_text::specs::TreeLines::tree_lines))]
fn take_end(header: &HeaderData, trees: Trees, line: &Line) -> Result<Tree, Stop>
    requires part { is_tree_part line.now ≡ false }
    ensures field { IfOk result (λ t. t.f ≡ trees.f) }
    ensures goes { (rules : RulesOf) (rs : List LineOf) →
        Goes result (tree_from rules header.now trees.trees (line.now ∷ rs)) (λ t. Read (header_value header.now, t.tree) rs) }
{
    if let Some(refusal) = too_long(line) {
        return Err(Stop::Refused(refusal));
    }
    Ok(trees.end(line)?)
}

/// Takes a line of the tree, or its `end`.
fn take_tree_line(
    alloc: Global,
    rules: HeaderRules,
    header: HeaderData,
    trees: Trees,
    line: &Line,
) -> Result<HeaderStep, Stop>
    requires header { IsHeader header }
    requires field { trees.f ≡ header.field }
    ensures kept { IfOk result IsKeptAfter }
    ensures goes { (rs : List LineOf) →
        Goes result (tree_from rules header trees.trees (line.now ∷ rs)) (λ s. parts_after rules s rs) }
{
    if is_tree_part(line) {
        let mut trees = trees;
        take_part(alloc, rules, &header, &mut trees, line)?;
        return Ok(HeaderStep::More(HeaderState::Tree(header, trees)));
    }
    let tree = take_end(&header, trees, line)?;
    Ok(HeaderStep::Parts(header, tree))
}

/// Takes an operator, or what stands after the operators.
fn take_operators(
    alloc: Global,
    rules: HeaderRules,
    header: HeaderData,
    line: &Line,
) -> Result<HeaderStep, Stop>
    requires { IsHeader header }
    ensures kept { IfOk result IsKeptAfter }
    ensures goes { (rs : List LineOf) →
        Goes result (ops_part rules (header_value header) (line.now ∷ rs)) (λ s. parts_after rules s rs) }
{
    if begins(line, b"op") {
        let mut header = header;
        take_operator(alloc, &mut header, line)?;
        return Ok(HeaderStep::More(HeaderState::Operators(header)));
    }
    take_tree(&header, line)?;
    let trees = Trees::new(alloc, header.field);
    Ok(HeaderStep::More(HeaderState::Tree(header, trees)))
}

/// Takes a row, or what stands after the rows.
fn take_rows(
    alloc: Global,
    rules: HeaderRules,
    header: HeaderData,
    line: &Line,
) -> Result<HeaderStep, Stop>
    requires header { IsHeader header }
    requires ops { header.ops ≡ [] }
    ensures kept { IfOk result IsKeptAfter }
    ensures goes { (rs : List LineOf) →
        Goes result (rows_part rules (header_value header) (line.now ∷ rs)) (λ s. parts_after rules s rs) }
{
    if begins(line, b"row") {
        let mut header = header;
        take_row(alloc, &mut header, line)?;
        return Ok(HeaderStep::More(HeaderState::Rows(header)));
    }
    end_rows(&header, line);
    take_operators(alloc, rules, header, line)
}

/// Takes elements, or what stands after them.
fn take_names(
    alloc: Global,
    rules: HeaderRules,
    elements: Elements,
    line: &Line,
) -> Result<HeaderStep, Stop>
    requires { IsDistinct bytes_eq elements.names }
    ensures kept { IfOk result IsKeptAfter }
    ensures goes { (rs : List LineOf) →
        Goes result (elements_from rules elements (line.now ∷ rs)) (λ s. parts_after rules s rs) }
{
    if begins(line, b"elements") {
        let mut elements = elements;
        take_elements(alloc, rules, &mut elements, line)?;
        return Ok(HeaderStep::More(HeaderState::Elements(elements)));
    }
    let header = elements.into_header(alloc, line)?;
    take_rows(alloc, rules, header, line)
}

/// Takes the line of the format.
fn take_first(line: &Line) -> Result<HeaderStep, Stop>
    ensures kept { IfOk result IsKeptAfter }
    ensures goes { (rules : RulesOf) (rs : List LineOf) →
        Goes result (parts rules (line.now ∷ rs)) (λ s. parts_after rules s rs) }
{
    Ok(HeaderStep::More(HeaderState::Field(take_format(line)?)))
}

/// Takes the line of the field.
fn take_second(alloc: Global, format: Format, line: &Line) -> Result<HeaderStep, Stop>
    ensures kept { IfOk result IsKeptAfter }
    ensures goes { (rules : RulesOf) (rs : List LineOf) →
        Goes result (field_part rules format (line.now ∷ rs)) (λ s. parts_after rules s rs) }
{
    Ok(HeaderStep::More(HeaderState::Elements(take_field(alloc, format, line)?)))
}

/// Takes a line of the header, after what was read of it. What all lines from this one on make of the header is what those after it
/// make of the step. A line is refused by its own first refusal.
pub fn take_header_line(
    alloc: Global,
    rules: HeaderRules,
    state: HeaderState,
    line: &Line,
) -> Result<HeaderStep, Stop>
    requires { IsKept state }
    ensures kept { IfOk result IsKeptAfter }
    ensures goes { (rs : List LineOf) →
        Goes result (parts_from rules state (line.now ∷ rs)) (λ s. parts_after rules s rs) }
{
    match state {
        HeaderState::Format => take_first(line),
        HeaderState::Field(format) => take_second(alloc, format, line),
        HeaderState::Elements(elements) => take_names(alloc, rules, elements, line),
        HeaderState::Rows(header) => take_rows(alloc, rules, header, line),
        HeaderState::Operators(header) => take_operators(alloc, rules, header, line),
        HeaderState::Tree(header, trees) => take_tree_line(alloc, rules, header, trees, line),
    }
}
