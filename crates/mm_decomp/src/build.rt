//! Trees built for a decomposition.

ghost use Rattle.std.specs.Prelude.{◌≡◌, ◌≤◌, ◌<◌, ◌+◌, ◌^◌, [], ◌∷◌, length, nat_abs, reverse, take, None, IfOk, OnOk};
ghost use Rattle.mm_field.specs.Vectors.{IsVector};
ghost use Rattle.mm_ops.specs.Tables.{op_named};
ghost use Rattle.mm_tree.specs.Building.{AreOver, join_fault, joined_by, leaf_fault, named_fault};
ghost use Rattle.mm_tree.specs.ValidTree.{most_weight};
ghost use Rattle.mm_decomp.specs.Building.{AreLeaves, BuildsFrom, given_of, no_memory};
ghost use Rattle.mm_decomp.specs.BuiltTree.{join_name};
ghost use Rattle.mm_decomp.specs.Shapes.{AreSteps, IsShape, after_steps};
ghost use Rattle.mm_decomp.specs.Steps.{AddsLeaf, AreColumnsFor, AreOf, Fit, IsBuilding, IsNew, Joins, JoinsLast, LastFit, MakesTree, PutsJoin, TakesStep, TreesFit, leaf_columns_of};

use crate::columns::{dependencies, leaf_columns};
use crate::form::Form;
use crate::operator::{first_digit, operator};
use crate::{Shape, Step};
use mm_base::{Name, NameList, NoMemory};
use mm_field::Field;
use mm_matrix::Matrix;
use mm_ops::{Op, OpTable, OpTableFault};
use mm_tree::{BuildFault, Builder, Tree};
use std::alloc::Global;
use thiserror::Error;

/// The greatest boundary of a node.
const MAX_BOUNDARY: usize = 6;

/// Why no tree is built.
#[derive(Clone, Copy, Debug, PartialEq, Eq, Error)]
pub enum DecompFault {
    /// The boundary of the node of this step, counted from 0, is above 6; it is the first such step.
    #[error("the boundary of step {0} is above 6")]
    Width(u32),
    /// Memory ran out.
    #[error("memory ran out")]
    NoMemory,
}

impl From<NoMemory> for DecompFault {
    ghost from_gives = { λ _ e. e ≡ no_memory };

    fn from(_: NoMemory) -> DecompFault {
        DecompFault::NoMemory
    }
}

/// The form of a join, and its operator.
#[derive(Drop)]
struct Joined {
    form: Form,
    op: Op,
}

/// What was made of the steps so far: the trees and forms that are not joined yet, the last one at the end.
#[derive(Drop)]
struct Building {
    field: Field,
    builder: Builder,
    forms: Vec<Form>,
    leaves: usize,
    joins: usize,
}

/// `j1`, `j2`, ..
fn join_name(alloc: Global, number: u32) -> Result<Name, NoMemory>
    ensures { IfOk result (λ name. name ≡ join_name number) }
{
    let text = format!(in alloc; "j{number}")?;
    Ok(Name::read(text.as_bytes()).unwrap())
}

/// A table with one operator.
fn table_of(alloc: Global, name: Name, op: Op) -> Result<OpTable, NoMemory>
    ensures { IfOk result (λ table. table ≡ (name, op) ∷ []) }
{
    let mut table = OpTable::new(alloc);
    match table.add(alloc, name, op) {
        Ok(()) => Ok(table),
        Err(OpTableFault::NoMemory) => Err(NoMemory),
        Err(_) => unreachable!(),
    }
}

/// Joins the last two trees by the operator of a name, which fits them.
fn join_trees(
    alloc: Global,
    builder: &mut Builder,
    table: &OpTable,
    name: &Name,
) -> Result<(), NoMemory>
    requires over { AreOver builder.old.f table.now }
    requires fits { named_fault name.now (op_named name.now table.now) builder.old.trees ≡ None }
    ensures { OnOk result
        (builder.new ≡ record builder.old { trees = joined_by name.now (op_named name.now table.now) builder.old.trees }) }
{
    match builder.join(alloc, table, name) {
        Ok(()) => Ok(()),
        Err(BuildFault::NoMemory) => Err(NoMemory),
        Err(_) => unreachable!(),
    }
}

/// The form of the join of two forms, and its operator. `step` is the number of the join.
fn join_forms(alloc: Global, left: &Form, right: &Form, step: u32) -> Result<Joined, DecompFault>
    requires { Fit left.now right.now }
    ensures { Joins left.now right.now step result }
{
    let form = Form::join(alloc, left, right)?;
    if form.basis.rows() > MAX_BOUNDARY {
        return Err(DecompFault::Width(step));
    }
    let op = operator(alloc, &form.basis, &left.basis, &right.basis)?;
    Ok(Joined { form, op })
}

impl Building {
    /// Adds a leaf with its vector and its column.
    fn leaf(
        &mut self,
        alloc: Global,
        functional: &[u8],
        column: &[u8],
        name: Name,
        weight: i64,
    ) -> Result<(), NoMemory>
        requires functional { IsVector self.old.field (length functional.now) functional.now }
        requires column { IsVector self.old.field (length column.now) column.now }
        requires field { self.old.builder.f ≡ self.old.field }
        requires light { nat_abs weight ≤ most_weight }
        requires few { self.old.leaves < 2 ^ 32 }
        requires free { leaf_fault name self.old.builder.trees ≡ None }
        ensures { OnOk result (AddsLeaf self.old self.new functional.now column.now name weight) }
    {
        let form = Form::leaf(alloc, self.field, functional, column)?;
        let digit = first_digit(self.field, column);
        match self.builder.elem(alloc, name, digit, weight) {
            Ok(()) => {}
            Err(BuildFault::NoMemory) => return Err(NoMemory),
            Err(_) => unreachable!(),
        }
        self.forms.push(form)?;
        self.leaves += 1;
        Ok(())
    }
}

impl Building {
    /// Puts a join in the place of the last two shapes.
    fn put_join(&mut self, alloc: Global, joined: Joined) -> Result<(), NoMemory>
        requires two { 2 ≤ length self.old.forms.items }
        requires field { joined.op.f ≡ self.old.builder.f }
        requires fits { join_fault joined.op self.old.builder.trees ≡ None }
        requires few { self.old.joins < 4096 }
        ensures { OnOk result (PutsJoin self.old self.new joined) }
    {
        let Joined { form, op } = joined;
        let name = join_name(alloc, self.joins as u32 + 1)?;
        let table = table_of(alloc, name, op)?;
        join_trees(alloc, &mut self.builder, &table, &name)?;
        self.forms.truncate(self.forms.len() - 2);
        self.forms.push(form)?;
        self.joins += 1;
        Ok(())
    }

    /// Joins the last two shapes. `step` is the number of the join.
    fn join(&mut self, alloc: Global, step: u32) -> Result<(), DecompFault>
        requires fit { LastFit (reverse self.old.forms.items) }
        requires trees { TreesFit (reverse self.old.forms.items) self.old.builder.trees }
        requires field { self.old.builder.f ≡ self.old.field }
        requires same { AreOf self.old.field (reverse self.old.forms.items) }
        requires few { self.old.joins < 4096 }
        ensures { JoinsLast self.old self.new step result }
    {
        let n = self.forms.len();
        match join_forms(alloc, &self.forms[n - 2], &self.forms[n - 1], step) {
            Ok(joined) => {
                self.put_join(alloc, joined)?;
                Ok(())
            }
            Err(fault) => Err(fault),
        }
    }
}

impl Building {
    /// What is made of no steps.
    fn new(alloc: Global, field: Field) -> Building
        ensures { IsNew field result }
    {
        Building {
            field,
            builder: Builder::new(alloc, field),
            forms: Vec::new(alloc),
            leaves: 0,
            joins: 0,
        }
    }

    /// Takes step `i` of the shape.
    fn step(
        &mut self,
        alloc: Global,
        functionals: &Matrix,
        columns: &Matrix,
        steps: &[Step],
        i: usize,
    ) -> Result<(), DecompFault>
        requires place { i < length steps.now }
        requires few { length steps.now < 2 ^ 32 }
        requires shape { AreSteps steps.now }
        requires columns { AreColumnsFor functionals.now columns.now steps.now }
        requires so_far { IsBuilding (leaf_columns_of functionals.now columns.now) (after_steps [] (take i steps.now)) self.old }
        ensures { TakesStep (leaf_columns_of functionals.now columns.now) steps.now i self.new result }
    {
        let _ = (functionals.rows(), columns.rows());
        match steps[i] {
            Step::Leaf(name, weight) => {
                let p = self.leaves;
                self.leaf(alloc, functionals.row(p), columns.row(p), name, weight)?;
                Ok(())
            }
            Step::Join => self.join(alloc, i as u32),
        }
    }
}

/// The tree of the steps, from the vectors and columns of the leaves.
fn build_from(
    alloc: Global,
    functionals: &Matrix,
    columns: &Matrix,
    steps: &[Step],
) -> Result<Tree, DecompFault>
    requires few { length steps.now < 2 ^ 32 }
    requires shape { IsShape steps.now }
    requires columns { AreColumnsFor functionals.now columns.now steps.now }
    ensures { MakesTree (leaf_columns_of functionals.now columns.now) steps.now result }
{
    let mut building = Building::new(alloc, columns.field());
    for i in 0..steps.len() {
        match building.step(alloc, functionals, columns, steps, i) {
            Ok(()) => {}
            Err(fault) => return Err(fault),
        }
    }
    Ok(building.builder.finish().unwrap())
}

/// The tree that is built for these rows and this decomposition. The first step whose node has a boundary above 6 is refused.
pub fn build_tree(
    alloc: Global,
    names: &NameList,
    rows: &Matrix,
    shape: &Shape,
) -> Result<Tree, DecompFault>
    requires { AreLeaves names.now rows.now shape.now }
    ensures { BuildsFrom (given_of names.now rows.now) shape.now result }
{
    let steps = shape.steps();
    let columns = leaf_columns(alloc, names, rows, steps)?;
    let functionals = dependencies(alloc, &columns)?;
    build_from(alloc, &functionals, &columns, steps)
}
