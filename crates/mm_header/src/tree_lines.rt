//! The lines of a tree, which build it up.
ghost use Rattle.std.specs.Prelude.{◌≡◌, ◌≤◌, [], Ok, Err, IfOk, MatchResult};
ghost use Rattle.mm_tree.specs.Building.{AreOver};
ghost use Rattle.mm_tree.specs.ValidTree.{most_leaves};
ghost use Rattle.mm_header.specs.State.TreeStates.{counted, leaf_answer, stop_of, stopped};
ghost use Rattle.mm_job_text.specs.Becoming.{Becomes};
ghost use Rattle.mm_job_text.specs.TreeLines.{elem_line, end_line, join_line, tree_part, void_line};

use mm_field::Field;
use mm_job_text::{
    ElementLine, Limit, Refusal, Stop, VoidLine, begins, is_word, read_element, read_join,
    read_void,
};
use mm_lines::Line;
use mm_ops::OpTable;
use mm_tree::{BuildFault, Builder, Tree};
use std::alloc::Global;
use std::marker::Model;

/// Why the line with this number is not taken.
fn stop_of(number: u32, fault: BuildFault) -> Stop
    ensures { result ≡ stop_of number fault }
{
    match fault {
        BuildFault::UnknownOp(name) => Stop::Refused(Refusal::Unknown(name)),
        BuildFault::TooFew => Stop::Refused(Refusal::Trees(number)),
        BuildFault::Boundary(wanted, found) => Stop::Refused(Refusal::Boundary(wanted, found)),
        BuildFault::NameTaken(name) => Stop::Refused(Refusal::Taken(name)),
        BuildFault::TooManyLeaves => Stop::Refused(Refusal::Over(Limit::Leaves, number)),
        BuildFault::TooDeep => Stop::Refused(Refusal::Over(Limit::Depth, number)),
        BuildFault::NoMemory => Stop::NoMemory,
    }
}

/// What a builder answers to the line with this number.
fn stopped(number: u32, answer: Result<(), BuildFault>) -> Result<(), Stop>
    ensures { result ≡ stopped number answer }
{
    match answer {
        Ok(()) => Ok(()),
        Err(fault) => Err(stop_of(number, fault)),
    }
}

/// What is answered to a leaf in the line with this number, where there were so many leaves before.
fn leaf_answer(
    most: usize,
    before: usize,
    number: u32,
    answer: Result<(), BuildFault>,
) -> Result<(), Stop>
    ensures { result ≡ leaf_answer most before number answer }
{
    match answer {
        Err(fault) => Err(stop_of(number, fault)),
        Ok(()) if before < most => Ok(()),
        Ok(()) => Err(Stop::Refused(Refusal::Over(Limit::Leaves, number))),
    }
}

/// How many leaves there are after a builder's answer.
fn counted(before: usize, answer: &Result<(), BuildFault>) -> usize
    requires { before ≤ most_leaves }
    ensures { result ≡ counted before answer.now }
{
    match answer {
        Ok(()) => before + 1,
        Err(_) => before,
    }
}

/// The trees over one field that the lines of a tree have made so far, which contracts see as those of a builder: the last one first.
#[derive(Drop)]
pub struct Trees {
    builder: Builder,
    /// How many leaves the trees have together.
    leaves: usize,
}

impl Model for Trees {
    ghost use Rattle.mm_tree.specs.Building.{BuilderValue, builder_code};

    ghost Value = { BuilderValue };

    ghost coded = { builder_code };

    ghost use Rattle.mm_header.specs.State.TreeStates.{AreCounted, builder_of};

    ghost view = { builder_of };

    ghost invariant = { AreCounted };
}

impl Trees {
    /// No trees yet. They take no memory yet.
    pub fn new(alloc: Global, f: Field) -> Trees
        ensures { (result.f ≡ f) × (result.trees ≡ []) }
    {
        Trees {
            builder: Builder::new(alloc, f),
            leaves: 0,
        }
    }

    /// Takes the line of a leaf with an element.
    #[tactic(auto, using(crate::proofs::TreeLineLemmas::element_refused, crate::proofs::TreeLineLemmas::element_light, crate::proofs::TreeLineLemmas::element_taken))]
    fn take_element(
        &mut self,
        alloc: Global,
        most: usize,
        f: Field,
        line: &Line,
    ) -> Result<(), Stop>
        requires field { self.old.f ≡ f }
        ensures field { self.new.f ≡ self.old.f }
        ensures trees { Becomes result self.new.trees (elem_line most f self.old.trees line.now) }
    {
        let ElementLine { name, vec, weight } = read_element(f, line)?;
        let answer = self.builder.elem(alloc, name, vec, weight);
        let before = self.leaves;
        self.leaves = counted(before, &answer);
        leaf_answer(most, before, line.number, answer)
    }

    /// Takes the line of a leaf without an element.
    #[tactic(auto, using(crate::proofs::TreeLineLemmas::void_refused, crate::proofs::TreeLineLemmas::void_kept, crate::proofs::TreeLineLemmas::void_taken))]
    fn take_void(&mut self, alloc: Global, most: usize, line: &Line) -> Result<(), Stop>
        ensures field { self.new.f ≡ self.old.f }
        ensures trees { Becomes result self.new.trees (void_line most self.old.trees line.now) }
    {
        let VoidLine { name, t } = read_void(line)?;
        let answer = self.builder.void(alloc, name, t);
        let before = self.leaves;
        self.leaves = counted(before, &answer);
        leaf_answer(most, before, line.number, answer)
    }

    /// Takes the line of a join.
    #[tactic(auto, using(crate::proofs::TreeLineLemmas::join_refused, crate::proofs::TreeLineLemmas::join_taken))]
    fn take_join(&mut self, alloc: Global, ops: &OpTable, line: &Line) -> Result<(), Stop>
        requires ops { AreOver self.old.f ops.now }
        ensures field { self.new.f ≡ self.old.f }
        ensures trees { Becomes result self.new.trees (join_line ops.now self.old.trees line.now) }
    {
        let name = read_join(line)?;
        stopped(line.number, self.builder.join(alloc, ops, &name))
    }

    /// Takes a line of a tree with at most `most` leaves that is not its `end`. After a refusal the trees are worth nothing more.
    pub fn take(
        &mut self,
        alloc: Global,
        most: usize,
        f: Field,
        ops: &OpTable,
        line: &Line,
    ) -> Result<(), Stop>
        requires field { self.old.f ≡ f }
        requires ops { AreOver f ops.now }
        ensures field { self.new.f ≡ self.old.f }
        ensures trees { Becomes result self.new.trees (tree_part most f ops.now self.old.trees line.now) }
    {
        if begins(line, b"elem") {
            self.take_element(alloc, most, f, line)
        } else if begins(line, b"void") {
            self.take_void(alloc, most, line)
        } else {
            self.take_join(alloc, ops, line)
        }
    }

    /// Takes the `end` of a tree, and gives the one tree that is there.
    #[tactic(auto, unfolding(mm_job_text::specs::TreeLines::end_line))]
    pub fn end(self, line: &Line) -> Result<Tree, Refusal>
        ensures field { IfOk result (λ t. t.f ≡ self.f) }
        ensures tree { MatchResult result
            (λ t. end_line self.trees line.now ≡ Ok (t.tree, line.now.number))
            (λ refusal. end_line self.trees line.now ≡ Err refusal) }
    {
        if !is_word(line, b"end") {
            return Err(Refusal::Syntax(line.number));
        }
        let Trees { builder, leaves: _ } = self;
        let mut builder = builder;
        match builder.finish() {
            Ok(tree) => Ok(tree),
            Err(_) => Err(Refusal::Trees(line.number)),
        }
    }
}
