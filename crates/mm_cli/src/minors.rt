//! The command `minor`: a job whose query asks for the matroid of a matrix as a minor.
ghost use Rattle.std.specs.Prelude.{◌≡◌, ◌≤◌, IfOk, IfSome, true, None};
ghost use Rattle.mm_base.specs.Causes.{Rose};
ghost use Rattle.mm_base.specs.declared.status.Status.TheVariants as ends;
ghost use Rattle.mm_formula.specs.Scope.{scope_fault};
ghost use Rattle.mm_formula.specs.Syntax.{is_well_sorted, syntax_of};
ghost use Rattle.mm_job.specs.Settings.{with_formula};
ghost use Rattle.mm_minor.specs.MinorFormula.{minor_formula};
ghost use Rattle.mm_cli.specs.Minors.{matrix_in, minor_settings};
ghost use Rattle.mm_cli.specs.Runs.{Ran};
ghost use Rattle.mm_cli.specs.Spending.{SpendsOnJob};
ghost use Rattle.mm_cli.specs.Words.{IsSmallMatrix, most_limit};

use crate::reading::answer;
use crate::words::{MOST_LIMIT, MinorMatrix};
use mm_base::{NoMemory, Sink, Source, Status, Steps};
use mm_field::Elt;
use mm_formula::Formula;
use mm_job::Job;
use mm_matrix::Matrix;
use mm_minor::minor_formula;
use mm_space::Vector;
use std::alloc::Global;
use std::sync::ledger::Ledger;

/// The digits of a vector.
fn digits_of(alloc: Global, v: &Vector) -> Result<Vec<Elt>, NoMemory>
    ensures { IfOk result (λ digits. digits.items ≡ v.now) }
{
    let mut digits = Vec::new(alloc);
    for k in 0..v.len() {
        digits.push(v.at(k))?;
    }
    Ok(digits)
}

/// The matrix of the rows.
fn matrix_of(alloc: Global, matrix: &MinorMatrix) -> Result<Matrix, NoMemory>
    requires { IsSmallMatrix matrix.now }
    ensures { IfOk result (λ n. n ≡ matrix_in matrix.now) }
{
    let columns = matrix.rows.row(0).len() as usize;
    let mut rows = Matrix::new(alloc, matrix.field, columns);
    for k in 0..matrix.rows.rows() {
        let row = digits_of(alloc, &matrix.rows.row(k))?;
        rows.push_row(alloc, &row)?;
    }
    Ok(rows)
}

/// The formula that asks for the matroid of the matrix as a minor.
fn formula_of(alloc: Global, matrix: &MinorMatrix) -> Result<Formula, NoMemory>
    requires { IsSmallMatrix matrix.now }
    ensures formula { IfOk result (λ F. syntax_of F ≡ minor_formula (matrix_in matrix.now)) }
    ensures sorted { IfOk result (λ F. is_well_sorted (syntax_of F) ≡ true) }
    ensures scoped { IfOk result (λ F. scope_fault (syntax_of F) None ≡ None) }
{
    let rows = matrix_of(alloc, matrix)?;
    minor_formula(alloc, &rows)
}

/// Answers the job in the source, where the line `minor` asks this formula.
fn answer_asked<S: Source, K: Sink, L: Ledger>(
    alloc: Global,
    formula: Formula,
    source: &mut S,
    sink: &mut K,
    steps: &mut Steps<L>,
) -> Status
    requires sorted { is_well_sorted (syntax_of formula) ≡ true }
    requires scoped { scope_fault (syntax_of formula) None ≡ None }
    ensures run { Ran (with_formula most_limit (syntax_of formula)) (S.left source.old) (S.left source.new)
        (K.held sink.old) (K.held sink.new) result }
    ensures read_fault { result ≡ ends.ReadFault → Rose (S.faults source.old) (S.faults source.new) }
    ensures write_fault { result ≡ ends.WriteFault → Rose (K.faults sink.old) (K.faults sink.new) }
    ensures steps { SpendsOnJob (with_formula most_limit (syntax_of formula)) (S.left source.old) steps.old steps.new }
{
    let mut job = Job::with_query(alloc, MOST_LIMIT, formula);
    answer(alloc, &mut job, source, sink, steps)
}

/// Answers the job in the source, where the line `minor` asks for the matroid of the matrix as a minor.
pub fn minor<S: Source, K: Sink, L: Ledger>(
    alloc: Global,
    matrix: &MinorMatrix,
    source: &mut S,
    sink: &mut K,
    steps: &mut Steps<L>,
) -> Status
    requires { IsSmallMatrix matrix.now }
    ensures run { Ran (minor_settings matrix.now) (S.left source.old) (S.left source.new) (K.held sink.old) (K.held sink.new) result }
    ensures read_fault { result ≡ ends.ReadFault → Rose (S.faults source.old) (S.faults source.new) }
    ensures write_fault { result ≡ ends.WriteFault → Rose (K.faults sink.old) (K.faults sink.new) }
    ensures steps { SpendsOnJob (minor_settings matrix.now) (S.left source.old) steps.old steps.new }
{
    match formula_of(alloc, matrix) {
        Ok(formula) => answer_asked(alloc, formula, source, sink, steps),
        Err(NoMemory) => Status::NoMemory,
    }
}
