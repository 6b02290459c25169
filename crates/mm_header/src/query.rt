//! The query line of a text.
ghost use Rattle.std.specs.Prelude.{◌≡◌, true, IfOk, None, Some};
ghost use Rattle.std.specs.List.{list_all};
ghost use Rattle.mm_formula.specs.Scope.{outermost};
ghost use Rattle.mm_formula.specs.Syntax.{is_well_sorted, syntax_of};
ghost use Rattle.mm_formula.specs.Variables.{is_set};
ghost use Rattle.mm_job_text.specs.Becoming.{Reads, StopsAs};
ghost use Rattle.mm_header.specs.QueryValues.{query_value};
ghost use Rattle.mm_header.specs.Queries.{formula_of, least_query, minor_line, query_line, query_of, scope_refusal, scoped, set_variable_of, spelled_query};
ghost use Rattle.mm_header.specs.Queries.Question.{Spelled};
ghost use Rattle.mm_job_text.specs.Checks.{found};
ghost use Rattle.mm_job_text.specs.Readers.{whole};
ghost use Rattle.mm_job_text.specs.declared.refusal.Refusal.TheVariants as refusal;

use mm_formula::{Formula, ScopeFault, Scoped, Var};
use mm_formula_text::{ReadFault, read};
use mm_job_text::{Limit, Refusal, Stop, args, begins, is_word, too_long};
use mm_lines::Line;
use std::alloc::Global;

/// The most bytes of a formula.
const MAX_FORMULA: usize = 4096;

/// The formula that the text derives.
fn read_formula(alloc: Global, text: &[u8]) -> Result<Formula, Stop>
    ensures read { Reads syntax_of result (found (formula_of text.now) refusal.Formula) }
    ensures sorted { IfOk result (λ F. is_well_sorted (syntax_of F) ≡ true) }
{
    match read(alloc, text) {
        Ok(formula) => Ok(formula),
        Err(ReadFault::Syntax) => Err(Stop::Refused(Refusal::Formula)),
        Err(ReadFault::NoMemory) => Err(Stop::NoMemory),
    }
}

/// Why a formula is not scoped, in the line with this number.
fn stop_of(number: u32, fault: ScopeFault) -> Stop
    ensures { StopsAs result (scope_refusal number (Some fault)) }
{
    match fault {
        ScopeFault::Unbound(v) => Stop::Refused(Refusal::Unbound(v)),
        ScopeFault::TooManyInScope => Stop::Refused(Refusal::Over(Limit::Scope, number)),
        ScopeFault::TooManyNodes => Stop::Refused(Refusal::Over(Limit::Nodes, number)),
        ScopeFault::NoMemory => Stop::NoMemory,
    }
}

/// The formula with its scope, in the line with this number.
fn scope(alloc: Global, number: u32, formula: Formula, sought: Option<Var>) -> Result<Scoped, Stop>
    requires sorted { is_well_sorted (syntax_of formula) ≡ true }
    requires set { list_all is_set (outermost sought) ≡ true }
    ensures { Reads query_value result (scoped number sought (syntax_of formula)) }
{
    match Scoped::of(alloc, formula, sought) {
        Ok(scoped) => Ok(scoped),
        Err(fault) => Err(stop_of(number, fault)),
    }
}

/// The query of this text, in the line with this number, that seeks this variable, if any.
#[tactic(auto, unfolding(crate::specs::Queries::query_of))]
fn query_of(alloc: Global, number: u32, sought: Option<Var>, text: &[u8]) -> Result<Scoped, Stop>
    requires set { list_all is_set (outermost sought) ≡ true }
    ensures { Reads query_value result (query_of number sought text.now) }
{
    if text.is_empty() {
        return Err(Stop::Refused(Refusal::Syntax(number)));
    }
    if text.len() > MAX_FORMULA {
        return Err(Stop::Refused(Refusal::Over(Limit::Formula, number)));
    }
    let formula = read_formula(alloc, text)?;
    scope(alloc, number, formula, sought)
}

/// The set variable that the bytes spell.
fn set_variable(bytes: &[u8]) -> Option<Var>
    ensures { result ≡ set_variable_of bytes.now }
{
    match Var::read(bytes) {
        Some(v) => { if v.is_set() { Some(v) } else { None } }
        None => None,
    }
}

/// `least X FORMULA`
#[tactic(auto, unfolding(crate::specs::Queries::least_query))]
fn least_query(alloc: Global, line: &Line) -> Result<Scoped, Stop>
    ensures { Reads query_value result (least_query line.now) }
{
    let Some(token) = args(line).next() else {
        return Err(Stop::Refused(Refusal::Syntax(line.number)));
    };
    let Some(v) = set_variable(token) else {
        return Err(Stop::Refused(Refusal::Syntax(line.number)));
    };
    query_of(alloc, line.number, Some(v), line.rest(2))
}

/// `decide FORMULA` or `least X FORMULA`
#[tactic(auto, unfolding(crate::specs::Queries::spelled_query))]
fn spelled_query(alloc: Global, line: &Line) -> Result<Scoped, Stop>
    ensures { Reads query_value result (spelled_query line.now) }
{
    if begins(line, b"decide") {
        return query_of(alloc, line.number, None, line.rest(1));
    }
    if begins(line, b"least") {
        return least_query(alloc, line);
    }
    Err(Stop::Refused(Refusal::Syntax(line.number)))
}

/// Reads the query line of a text whose query line spells its query. Its refusals are those of a line that is too long, then of its
/// form, then of the formula: its bytes, its grammar, its variables, its binders, its nodes.
pub fn read_query(alloc: Global, line: &Line) -> Result<Scoped, Stop>
    ensures { Reads query_value result (whole (query_line Spelled) line.now) }
{
    if let Some(refusal) = too_long(line) {
        return Err(Stop::Refused(refusal));
    }
    spelled_query(alloc, line)
}

/// Reads the query line of a text whose query is given: the word `minor`.
#[tactic(auto, unfolding(crate::specs::Queries::minor_line))]
pub fn read_minor(line: &Line) -> Result<(), Refusal>
    ensures { result ≡ whole minor_line line.now }
{
    if let Some(refusal) = too_long(line) {
        return Err(refusal);
    }
    if !is_word(line, b"minor") {
        return Err(Refusal::Syntax(line.number));
    }
    Ok(())
}
