//! The text of a decomposition, line by line.

ghost use Rattle.std.specs.Prelude.{◌≡◌, ◌∷◌, [], List, IfOk, true, false, codes, length};
ghost use Rattle.std.specs.List.{IsDistinct};
ghost use Rattle.std.specs.Str.{bytes_eq};
ghost use Rattle.mm_lines.specs.declared.line.Line.{Line as LineOf};
ghost use Rattle.mm_header.specs.Header.{Parts};
ghost use Rattle.mm_job_text.specs.Arguments.{begins};
ghost use Rattle.mm_job_text.specs.Becoming.{Goes};
ghost use Rattle.mm_decomp.specs.BuildLines.{is_shape_part};
ghost use Rattle.mm_decomp.specs.BuildStates.{IsKept, IsGiven, given_in, parts_from, step_lines};
ghost use Rattle.mm_job_text.specs.Readers.{Refused};
ghost use Rattle.mm_decomp.specs.Decompositions.{Decomposition, build_parts, field_part, names_part, nothing_after, rows_part, steps_part};
ghost use Rattle.mm_decomp.specs.Shapes.{after_steps};
ghost use Rattle.mm_decomp.specs.Spaces.{Given};
ghost use Rattle.mm_decomp.specs.declared.build_state.Stage.TheVariants as stages;

use crate::build_lines::{is_shape_part, read_build_line, read_shape_line};
use crate::shape::MAX_LEAVES;
use crate::step_lines::Steps;
use mm_field::Field;
use mm_job_text::{NameSet, Refusal, Stop, add_elements, add_row, begins, read_field, too_long};
use mm_lines::Line;
use mm_matrix::Matrix;
use std::alloc::Global;

/// What may come next.
#[derive(Clone, Copy, Debug, PartialEq, Eq)]
pub(crate) enum Stage {
    /// The first line.
    First,
    /// The field.
    Field,
    /// Names, or what stands after them.
    Names,
    /// Rows, or what stands after them.
    Rows,
    /// Steps of the shape, or its `end`.
    Steps,
    /// Nothing more.
    End,
}

/// What was read so far.
#[derive(Drop)]
pub(crate) struct BuildState {
    pub(crate) stage: Stage,
    pub(crate) field: Field,
    pub(crate) names: NameSet,
    pub(crate) rows: Matrix,
    pub(crate) steps: Steps,
}

/// Takes the first line.
#[tactic(auto, unfolding(crate::specs::Decompositions::build_parts))]
fn take_first(line: &Line) -> Result<(), Stop>
    ensures { (rs : List LineOf) → Goes result (build_parts (line.now ∷ rs)) (λ u. field_part rs) }
{
    if let Some(refusal) = too_long(line) {
        return Err(Stop::Refused(refusal));
    }
    Ok(read_build_line(line)?)
}

/// Takes the line of the field.
#[tactic(auto, unfolding(crate::specs::Decompositions::field_part))]
fn take_field(line: &Line) -> Result<Field, Stop>
    ensures { (rs : List LineOf) → Goes result (field_part (line.now ∷ rs)) (λ f. names_part f [] rs) }
{
    if let Some(refusal) = too_long(line) {
        return Err(Stop::Refused(refusal));
    }
    Ok(read_field(line)?)
}

/// Takes a line of names.
#[tactic(auto, unfolding(crate::specs::Decompositions::names_part), using(mm_header::proofs::KeptLemmas::elements_kept))]
fn take_names(alloc: Global, field: Field, names: &mut NameSet, line: &Line) -> Result<(), Stop>
    requires begins { begins (codes "elements") line.now ≡ true }
    requires different { IsDistinct bytes_eq names.old }
    ensures different { IfOk result (λ u. IsDistinct bytes_eq names.new) }
    ensures goes { (rs : List LineOf) →
        Goes result (names_part field names.old (line.now ∷ rs)) (λ u. names_part field names.new rs) }
{
    let _ = field;
    add_elements(alloc, MAX_LEAVES, names, line)
}

/// The names are complete.
#[tactic(auto, unfolding(crate::specs::Decompositions::names_part))]
fn end_names(field: Field, names: &NameSet, line: &Line)
    requires { begins (codes "elements") line.now ≡ false }
    ensures { (rs : List LineOf) →
        names_part field names.now (line.now ∷ rs) ≡ rows_part (record { f = field; names = names.now; rows = [] }) (line.now ∷ rs) }
{}

/// Takes a row.
#[tactic(auto, unfolding(crate::specs::Decompositions::rows_part))]
fn take_row(alloc: Global, state: &mut BuildState, line: &Line) -> Result<(), Stop>
    requires begins { begins (codes "row") line.now ≡ true }
    requires given { IsGiven state.old }
    ensures given { IsGiven state.new }
    ensures stage { state.new.stage ≡ state.old.stage }
    ensures goes { (rs : List LineOf) →
        Goes result (rows_part (given_in state.old) (line.now ∷ rs)) (λ u. rows_part (given_in state.new) rs) }
{
    add_row(alloc, &mut state.rows, line)
}

/// Takes the line after the rows.
#[tactic(auto, unfolding(crate::specs::Decompositions::rows_part))]
fn take_shape(state: &BuildState, line: &Line) -> Result<(), Stop>
    requires { begins (codes "row") line.now ≡ false }
    ensures { (rs : List LineOf) →
        Goes result (rows_part (given_in state.now) (line.now ∷ rs))
        (λ u. steps_part (given_in state.now) (record { steps = []; numbers = [] }) rs) }
{
    let _ = state;
    if let Some(refusal) = too_long(line) {
        return Err(Stop::Refused(refusal));
    }
    Ok(read_shape_line(line)?)
}

/// Takes a step of the shape.
#[tactic(auto, unfolding(crate::specs::Decompositions::steps_part))]
fn take_step(alloc: Global, steps: &mut Steps, line: &Line) -> Result<(), Stop>
    requires { is_shape_part line.now ≡ true }
    ensures { (given : Given) (rs : List LineOf) →
        Goes result (steps_part given (step_lines steps.old) (line.now ∷ rs)) (λ u. steps_part given (step_lines steps.new) rs) }
{
    steps.take(alloc, line)
}

/// Takes the `end` of the shape.
#[tactic(auto, unfolding(crate::specs::Decompositions::steps_part))]
fn take_end(steps: &Steps, line: &Line) -> Result<(), Stop>
    requires { is_shape_part line.now ≡ false }
    ensures one { IfOk result (λ u. length (after_steps [] steps.now.builder) ≡ 1) }
    ensures goes { (given : Given) (rs : List LineOf) →
        Goes result (steps_part given (step_lines steps.now) (line.now ∷ rs)) (λ u.
        nothing_after (record { given = given; shape = step_lines steps.now }) rs) }
{
    if let Some(refusal) = too_long(line) {
        return Err(Stop::Refused(refusal));
    }
    Ok(steps.end(line)?)
}

impl BuildState {
    /// Nothing was read yet. It takes no memory yet.
    pub(crate) fn new(alloc: Global) -> BuildState
        ensures { result.stage ≡ stages.First }
    {
        BuildState {
            stage: Stage::First,
            field: Field::Two,
            names: NameSet::new(alloc),
            rows: Matrix::new(alloc, Field::Two, 0),
            steps: Steps::new(alloc),
        }
    }

    /// The names come next.
    fn start_names(&mut self, alloc: Global, field: Field)
        ensures stage { self.new.stage ≡ stages.Names }
        ensures field { self.new.field ≡ field }
        ensures names { self.new.names ≡ [] }
    {
        self.field = field;
        self.names = NameSet::new(alloc);
        self.stage = Stage::Names;
    }

    /// The names are complete, and rows come next.
    fn start_rows(&mut self, alloc: Global)
        requires { IsDistinct bytes_eq self.old.names }
        ensures stage { self.new.stage ≡ stages.Rows }
        ensures given { IsGiven self.new }
        ensures value { given_in self.new ≡ record { f = self.old.field; names = self.old.names; rows = [] } }
    {
        self.rows = Matrix::new(alloc, self.field, self.names.len());
        self.stage = Stage::Rows;
    }

    /// The rows are complete, and steps come next.
    fn start_steps(&mut self, alloc: Global)
        requires { IsGiven self.old }
        ensures stage { self.new.stage ≡ stages.Steps }
        ensures given { IsGiven self.new }
        ensures value { given_in self.new ≡ given_in self.old }
        ensures steps { step_lines self.new.steps ≡ record { steps = []; numbers = [] } }
    {
        self.steps = Steps::new(alloc);
        self.stage = Stage::Steps;
    }

    /// Takes the line of the field.
    fn take_second(&mut self, alloc: Global, line: &Line) -> Result<(), Stop>
        ensures kept { IfOk result (λ u. IsKept self.new) }
        ensures goes { (rs : List LineOf) →
            Goes result (field_part (line.now ∷ rs)) (λ u. parts_from self.new rs) }
    {
        match take_field(line) {
            Ok(field) => {
                self.start_names(alloc, field);
                Ok(())
            }
            Err(stop) => Err(stop),
        }
    }

    /// Takes names, or what stands after them.
    fn take_names(&mut self, alloc: Global, line: &Line) -> Result<(), Stop>
        requires stage { self.old.stage ≡ stages.Names }
        requires different { IsDistinct bytes_eq self.old.names }
        ensures kept { IfOk result (λ u. IsKept self.new) }
        ensures goes { (rs : List LineOf) →
            Goes result (names_part self.old.field self.old.names (line.now ∷ rs)) (λ u. parts_from self.new rs) }
    {
        if begins(line, b"elements") {
            return take_names(alloc, self.field, &mut self.names, line);
        }
        end_names(self.field, &self.names, line);
        self.start_rows(alloc);
        self.take_rows(alloc, line)
    }

    /// Takes a row, or what stands after the rows.
    fn take_rows(&mut self, alloc: Global, line: &Line) -> Result<(), Stop>
        requires stage { self.old.stage ≡ stages.Rows }
        requires given { IsGiven self.old }
        ensures kept { IfOk result (λ u. IsKept self.new) }
        ensures goes { (rs : List LineOf) →
            Goes result (rows_part (given_in self.old) (line.now ∷ rs)) (λ u. parts_from self.new rs) }
    {
        if begins(line, b"row") {
            return take_row(alloc, self, line);
        }
        match take_shape(self, line) {
            Ok(()) => {
                self.start_steps(alloc);
                Ok(())
            }
            Err(stop) => Err(stop),
        }
    }

    /// Takes a step of the shape, or its `end`.
    fn take_steps(&mut self, alloc: Global, line: &Line) -> Result<(), Stop>
        requires stage { self.old.stage ≡ stages.Steps }
        requires given { IsGiven self.old }
        ensures kept { IfOk result (λ u. IsKept self.new) }
        ensures goes { (rs : List LineOf) →
            Goes result (steps_part (given_in self.old) (step_lines self.old.steps) (line.now ∷ rs)) (λ u. parts_from self.new rs) }
    {
        if is_shape_part(line) {
            return take_step(alloc, &mut self.steps, line);
        }
        match take_end(&self.steps, line) {
            Ok(()) => {
                self.stage = Stage::End;
                Ok(())
            }
            Err(stop) => Err(stop),
        }
    }

    /// Takes the first line.
    fn take_first(&mut self, line: &Line) -> Result<(), Stop>
        ensures kept { IfOk result (λ u. IsKept self.new) }
        ensures goes { (rs : List LineOf) →
            Goes result (build_parts (line.now ∷ rs)) (λ u. parts_from self.new rs) }
    {
        match take_first(line) {
            Ok(()) => {
                self.stage = Stage::Field;
                Ok(())
            }
            Err(stop) => Err(stop),
        }
    }

    /// Takes a line, after what was read so far. What all lines from this one on make of the text is what those after it make of the
    /// new state. A line is refused by its own first refusal.
    pub(crate) fn take(&mut self, alloc: Global, line: &Line) -> Result<(), Stop>
        requires { IsKept self.old }
        ensures kept { IfOk result (λ u. IsKept self.new) }
        ensures goes { (rs : List LineOf) →
            Goes result (parts_from self.old (line.now ∷ rs)) (λ u. parts_from self.new rs) }
    {
        match self.stage {
            Stage::First => self.take_first(line),
            Stage::Field => self.take_second(alloc, line),
            Stage::Names => self.take_names(alloc, line),
            Stage::Rows => self.take_rows(alloc, line),
            Stage::Steps => self.take_steps(alloc, line),
            Stage::End => Err(Stop::Refused(line_after_end(line))),
        }
    }
}

/// The refusal of a line after the `end`.
#[tactic(auto, unfolding(crate::specs::Decompositions::nothing_after))]
pub(crate) fn line_after_end(line: &Line) -> Refusal
    ensures build { (d : Decomposition) (rs : List LineOf) → nothing_after d (line.now ∷ rs) ≡ Refused result }
    ensures tree { (p : Parts) (rs : List LineOf) → nothing_after p (line.now ∷ rs) ≡ Refused result }
{
    too_long(line).unwrap_or(Refusal::Syntax(line.number))
}
