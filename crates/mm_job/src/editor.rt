//! What a job answers about.
ghost use Rattle.std.specs.Prelude.{◌≡◌, ◌≤◌, ◌∷◌, ◌+◌, ◌++◌, [], IfOk, OnOk, IfSome, None, Ok, Err, false, nat_abs, flat_map, codes};
ghost use Rattle.std.specs.Fmt.{signed_decimal};
ghost use Rattle.mm_edit.specs.declared.fault.EditFault.{EditFault as FaultOf};
ghost use Rattle.mm_header.specs.QueryValues.{query_value};
ghost use Rattle.mm_header.specs.State.HeaderStates.{IsHeader, header_value};
ghost use Rattle.mm_job.specs.Edits.{another_weight, exchanged, replaced_path};
ghost use Rattle.mm_header.specs.Queries.Question.{Minor, Spelled};
ghost use Rattle.mm_job.specs.Header.{query_part, session_part};
ghost use Rattle.mm_job.specs.Output.{answered};
ghost use Rattle.mm_job.specs.State.Replies.{RepliesToEdit, SpendsEdit, Starts, answer_text, edit_stop};
ghost use Rattle.mm_job.specs.State.Sessions.{IsEditor, session_of};
ghost use Rattle.mm_job.specs.declared.output_line.OutputLine.TheVariants.{Refuses, Says};
ghost use Rattle.mm_job_text.specs.declared.refusal.Refusal.{Refusal as RefusalOf};
ghost use Rattle.mm_job_text.specs.declared.refusal.Stop.TheVariants as stops;
ghost use Rattle.mm_nodes.specs.declared.TheConstants.{MAX_LIMIT};
ghost use Rattle.mm_edit.specs.Edits.{query_of};
ghost use Rattle.mm_formula.specs.Scope.{outermost};
ghost use Rattle.mm_job.specs.State.Replies.{Begins};
ghost use Rattle.mm_job.specs.State.Sessions.{kind_of, session_with};
ghost use Rattle.mm_logic.specs.Growth.{no_values};
ghost use Rattle.mm_logic.specs.Meaning.{WellSorted};
ghost use Rattle.mm_logic.specs.StateSize.{asked};
ghost use Rattle.mm_machine.specs.Machines.{lists_in, shape_in};
ghost use Rattle.mm_tree.specs.NamedTree.{nodes};
ghost use Rattle.mm_tree.specs.Paths.{Path};
ghost use Rattle.mm_tree.specs.ValidTree.{IsValidTree, most_weight};

use crate::edit::{Above, NewWeight};
use crate::output_line::{OutputLine, says};
use crate::settings::Settings;
use mm_base::{Name, NameList, NoMemory, Steps, Text};
use mm_edit::{Answer, EditFault, Query, Session, StartFault};
use mm_field::Field;
use mm_formula::Scoped;
use mm_header::{HeaderData, match_rows, read_minor, read_query};
use mm_job_text::{Limit, Refusal, Stop};
use mm_least::Best;
use mm_lines::Line;
use mm_machine::Machine;
use mm_ops::OpTable;
use mm_tree::Tree;
use std::alloc::Global;
use std::sync::ledger::Ledger;

/// A session with what the lines of edits are read by.
#[derive(Drop)]
pub struct Editor {
    /// The field of the tree.
    pub field: Field,
    /// The operators that new subtrees may use.
    pub ops: OpTable,
    /// The present tree, the query, the limit on sizes and the answers.
    pub session: Session<Machine>,
}

/// Appends a name after a blank.
fn append_name(alloc: Global, text: &mut Text, name: &Name) -> Result<(), NoMemory>
    ensures { OnOk result (text.new ≡ text.old ++ codes " " ++ name.now) }
{
    text.append(alloc, b" ")?;
    text.append(alloc, name.bytes())
}

/// Appends the names of a set, each after a blank.
fn append_names(alloc: Global, text: &mut Text, names: &NameList) -> Result<(), NoMemory>
    ensures { OnOk result (text.new ≡ text.old ++ flat_map (λ name. codes " " ++ name) names.now) }
{
    for i in 0..names.len() {
        append_name(alloc, text, &names.at(i))?;
    }
    Ok(())
}

/// The line of a least set.
fn least_line(alloc: Global, best: &Best) -> Result<OutputLine, NoMemory>
    ensures { IfOk result (λ output_line. output_line ≡
        Says (codes "least " ++ signed_decimal best.now.weight ++ flat_map (λ name. codes " " ++ name) best.now.names)) }
{
    let mut text = Text::new(alloc);
    text.append(alloc, b"least ")?;
    let weight = best.weight;
    text.append(alloc, format!(in alloc; "{weight}")?.as_bytes())?;
    append_names(alloc, &mut text, &best.names)?;
    Ok(OutputLine::Says(text))
}

/// The line of an answer.
fn answer_line(alloc: Global, answer: &Answer) -> Result<OutputLine, NoMemory>
    ensures { IfOk result (λ output_line. output_line ≡ Says (answer_text answer.now)) }
{
    match answer {
        Answer::Yes => says(alloc, b"true"),
        Answer::No => says(alloc, b"false"),
        Answer::Least(best) => least_line(alloc, best),
        Answer::Nothing => says(alloc, b"none"),
    }
}

/// The line of the answer for the present tree.
pub fn answer(alloc: Global, editor: &Editor) -> Result<OutputLine, NoMemory>
    requires { IsEditor editor.now }
    ensures { IfOk result (λ output_line. output_line ≡ answered (session_of editor.now)) }
{
    let answer = editor.session.answer(alloc)?;
    answer_line(alloc, &answer)
}

/// Why an edit is not done, by a line or a block whose last line has this number.
fn edit_stop(number: u32, fault: EditFault) -> Stop
    ensures { result ≡ edit_stop number fault }
{
    match fault {
        EditFault::UnknownName(name) => Stop::Refused(Refusal::Unknown(name)),
        EditFault::NoSuchNode(name, up) => Stop::Refused(Refusal::NoNode(name, up)),
        EditFault::Boundary(old, new) => Stop::Refused(Refusal::Boundary(old, new)),
        EditFault::NameTaken(name) => Stop::Refused(Refusal::Taken(name)),
        EditFault::TooManyLeaves => Stop::Refused(Refusal::Over(Limit::Leaves, number)),
        EditFault::TooDeep => Stop::Refused(Refusal::Over(Limit::Depth, number)),
        EditFault::States => Stop::Refused(Refusal::States),
        EditFault::NoMemory => Stop::NoMemory,
    }
}

/// What is written of an edit by a line or a block whose last line has this number.
fn reply(
    alloc: Global,
    editor: &Editor,
    number: u32,
    done: Result<(), EditFault>,
) -> Result<OutputLine, NoMemory>
    requires { OnOk done (IsEditor editor.now) }
    ensures done { OnOk done (IfOk result (λ output_line. output_line ≡ answered (session_of editor.now))) }
    ensures refused { (e : FaultOf) → done ≡ Err e → IfOk result (λ output_line. (why : RefusalOf)
        × (edit_stop number e ≡ stops.Refused why) × (output_line ≡ Refuses why)) }
{
    match done {
        Ok(()) => answer(alloc, editor),
        Err(fault) => match edit_stop(number, fault) {
            Stop::Refused(refusal) => Ok(OutputLine::Refuses(refusal)),
            Stop::NoMemory => Err(NoMemory),
        },
    }
}

/// Another weight of an element.
pub fn reweigh<L: Ledger>(
    alloc: Global,
    editor: &mut Editor,
    new: &NewWeight,
    line: &Line,
    steps: &mut Steps<L>,
) -> Result<OutputLine, NoMemory>
    requires editor { IsEditor editor.old }
    requires light { nat_abs new.now.weight ≤ most_weight }
    ensures replies { IfOk result (RepliesToEdit editor.old editor.new
        (another_weight (session_of editor.old).tree new.now.name new.now.weight)) }
    ensures steps { SpendsEdit editor.old (another_weight (session_of editor.old).tree new.now.name new.now.weight) steps.old steps.new }
{
    let done = editor.session.weight(alloc, &new.name, new.weight, steps);
    reply(alloc, editor, line.number, done)
}

/// A new subtree for the node so many steps above a leaf.
pub fn exchange<L: Ledger>(
    alloc: Global,
    editor: &mut Editor,
    above: &Above,
    tree: Tree,
    line: &Line,
    steps: &mut Steps<L>,
) -> Result<OutputLine, NoMemory>
    requires editor { IsEditor editor.old }
    requires field { tree.f ≡ editor.old.field }
    ensures replies { IfOk result (λ output_line. (path : Path) → replaced_path (session_of editor.old).tree above.now.name above.now.up ≡ Ok path
        → RepliesToEdit editor.old editor.new (exchanged (session_of editor.old).tree path tree.tree line.now.number) output_line) }
    ensures steps { (path : Path) → replaced_path (session_of editor.old).tree above.now.name above.now.up ≡ Ok path
        → SpendsEdit editor.old (exchanged (session_of editor.old).tree path tree.tree line.now.number) steps.old steps.new }
{
    let _ = tree.node();
    let done = editor
        .session
        .replace(alloc, &above.name, above.up, tree, steps);
    reply(alloc, editor, line.number, done)
}

/// Why there is no node so many steps above a leaf, if there is none.
#[tactic(auto, unfolding(crate::specs::Edits::replaced_path))]
pub fn node_refusal(editor: &Editor, above: &Above) -> Option<Refusal>
    ensures none { result ≡ None → (path : Path) × (replaced_path (session_of editor.now).tree above.now.name above.now.up ≡ Ok path) }
    ensures some { IfSome result (λ why. replaced_path (session_of editor.now).tree above.now.name above.now.up ≡ Err why) }
{
    let tree = editor.session.tree();
    if !tree.has_leaf(&above.name) {
        return Some(Refusal::Unknown(above.name));
    }
    match tree.place(&above.name, above.up) {
        Some(_) => None,
        None => Some(Refusal::NoNode(above.name, above.up)),
    }
}

/// What a scoped formula asks.
fn kind_of(query: &Scoped) -> Query
    ensures { result ≡ kind_of query.now }
{
    match query.free() {
        Some(_) => Query::Least,
        None => Query::Decide,
    }
}

/// The machine of a query.
fn machine_of(alloc: Global, field: Field, query: &Scoped) -> Result<Machine, NoMemory>
    ensures shape { IfOk result (λ m. query_of (kind_of query.now) (shape_in m.parts) ≡ query_value query.now) }
    ensures field { IfOk result (λ m. m.field ≡ field) }
    ensures lists { IfOk result (λ m. lists_in m.parts ≡ no_values (shape_in m.parts)) }
    ensures sorted { IfOk result (λ m. WellSorted (λ k. false) (asked (query_value query.now))) }
{
    let _ = query.formula();
    Machine::of(alloc, field, query)
}

/// A session on a tree, with the operators of a header.
fn begin<L: Ledger>(
    alloc: Global,
    limit: u64,
    header: HeaderData,
    tree: Tree,
    kind: Query,
    machine: Machine,
    steps: &mut Steps<L>,
) -> Result<Editor, Stop>
    requires header { IsHeader header }
    requires tree { tree.f ≡ header.field }
    requires limit { limit ≤ MAX_LIMIT }
    requires field { machine.field ≡ header.field }
    requires lists { lists_in machine.parts ≡ no_values (shape_in machine.parts) }
    requires sorted { WellSorted (λ k. false) (shape_in machine.parts) }
    ensures begins { Begins (session_with limit header (query_of kind (shape_in machine.parts)) tree.tree) result }
    ensures steps { steps.new ≤ steps.old + nodes tree.tree }
{
    let _ = tree.node();
    let HeaderData {
        format: _,
        field,
        matrix: _,
        ops,
    } = header;
    match Session::start(alloc, machine, kind, tree, limit, steps) {
        Ok(session) => Ok(Editor {
            field,
            ops,
            session,
        }),
        Err(StartFault::States) => Err(Stop::Refused(Refusal::States)),
        Err(StartFault::NoMemory) => Err(Stop::NoMemory),
    }
}

/// Begins with a query on the tree of a header, where the rows and the tree agree.
fn start_query<L: Ledger>(
    alloc: Global,
    limit: u64,
    header: HeaderData,
    tree: Tree,
    query: &Scoped,
    steps: &mut Steps<L>,
) -> Result<Editor, Stop>
    requires header { IsHeader header }
    requires tree { tree.f ≡ header.field }
    requires limit { limit ≤ MAX_LIMIT }
    ensures { Starts (session_part limit (header_value header, tree.tree) (query_value query.now)) [] result steps.old steps.new }
{
    match match_rows(alloc, &header, &tree) {
        Ok(()) => match machine_of(alloc, header.field, query) {
            Ok(machine) => begin(alloc, limit, header, tree, kind_of(query), machine, steps),
            Err(_) => Err(Stop::NoMemory),
        },
        Err(stop) => Err(stop),
    }
}

/// Takes the query line, where it spells the query.
fn start_spelled<L: Ledger>(
    alloc: Global,
    settings: &Settings,
    header: HeaderData,
    tree: Tree,
    line: &Line,
    steps: &mut Steps<L>,
) -> Result<Editor, Stop>
    requires header { IsHeader header }
    requires tree { tree.f ≡ header.field }
    requires spelled { settings.now.question ≡ Spelled }
    ensures { Starts (query_part settings.now (header_value header, tree.tree)) (line.now ∷ []) result steps.old steps.new }
{
    match read_query(alloc, line) {
        Ok(query) => start_query(alloc, settings.limit(), header, tree, &query, steps),
        Err(stop) => Err(stop),
    }
}

/// Takes the query line, where the word `minor` stands for this query.
fn start_given<L: Ledger>(
    alloc: Global,
    settings: &Settings,
    header: HeaderData,
    tree: Tree,
    query: &Scoped,
    line: &Line,
    steps: &mut Steps<L>,
) -> Result<Editor, Stop>
    requires header { IsHeader header }
    requires tree { tree.f ≡ header.field }
    requires given { settings.now.question ≡ Minor (query_value query.now) }
    ensures { Starts (query_part settings.now (header_value header, tree.tree)) (line.now ∷ []) result steps.old steps.new }
{
    match read_minor(line) {
        Ok(()) => start_query(alloc, settings.limit(), header, tree, query, steps),
        Err(refusal) => Err(Stop::Refused(refusal)),
    }
}

/// Takes the query line after a header and its tree.
pub fn start<L: Ledger>(
    alloc: Global,
    settings: &Settings,
    header: HeaderData,
    tree: Tree,
    line: &Line,
    steps: &mut Steps<L>,
) -> Result<Editor, Stop>
    requires header { IsHeader header }
    requires tree { tree.f ≡ header.field }
    ensures { Starts (query_part settings.now (header_value header, tree.tree)) (line.now ∷ []) result steps.old steps.new }
{
    match settings.given() {
        None => start_spelled(alloc, settings, header, tree, line, steps),
        Some(query) => start_given(alloc, settings, header, tree, query, line, steps),
    }
}
