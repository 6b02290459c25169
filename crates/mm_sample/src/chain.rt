//! The tree of a sample.

ghost use Rattle.std.specs.Prelude.{◌≡◌, ◌≤◌, ◌∷◌, [], IfOk, None, Ok, OnOk};
ghost use Rattle.mm_field.specs.Digits.{order};
ghost use Rattle.mm_ops.specs.Tables.{op_named};
ghost use Rattle.mm_sample.specs.Draws.{after, next};
ghost use Rattle.mm_sample.specs.SampleTree.{element_name, leaf, operator_name, operators, sample_tree};
ghost use Rattle.mm_tree.specs.Building.{Answers, joined_by, leaf_fault, named_fault};

use crate::draws::Draws;
use crate::numbers::element;
use crate::operators::{operators, p, s};
use mm_base::{Name, NoMemory};
use mm_field::Field;
use mm_ops::OpTable;
use mm_tree::{BuildFault, Builder, Tree};
use std::alloc::Global;

/// The tree of n elements, drawn from a seed.
pub(crate) fn sample_tree(alloc: Global, f: Field, n: u32, seed: Draws) -> Result<Tree, NoMemory>
    requires some { 1 ≤ n }
    requires few { n ≤ 200 }
    ensures tree { IfOk result (λ made. made.tree ≡ sample_tree f n seed.x) }
    ensures field { IfOk result (λ made. made.f ≡ f) }
{
    let mut builder = Builder::new(alloc, f);
    grow(alloc, f, &mut builder, n, seed)?;
    let Ok(tree) = builder.finish() else {
        unreachable!();
    };
    Ok(tree)
}

/// Makes the tree of n elements in a new builder.
fn grow(alloc: Global, f: Field, builder: &mut Builder, n: u32, seed: Draws) -> Result<(), NoMemory>
    requires some { 1 ≤ n }
    requires few { n ≤ 200 }
    requires new { builder.old ≡ record { f = f; trees = [] } }
    ensures { OnOk result (builder.new ≡ record { f = f; trees = sample_tree f n seed.x ∷ [] }) }
{
    let ops = operators(alloc, f)?;
    let mut leaves = seed;
    let mut joins = seed.after(3 * n);
    add_leaf(alloc, builder, f, 1, &mut leaves)?;
    for k in 0..n - 1 {
        add_leaf(alloc, builder, f, k + 2, &mut leaves)?;
        add_join(alloc, builder, f, &ops, &mut joins)?;
    }
    Ok(())
}

/// Draws the leaf of element i.
fn add_leaf(
    alloc: Global,
    builder: &mut Builder,
    f: Field,
    i: u32,
    draws: &mut Draws,
) -> Result<(), NoMemory>
    requires field { builder.old.f ≡ f }
    requires fault { leaf_fault (element_name i) builder.old.trees ≡ None }
    ensures tree { OnOk result (builder.new ≡ record { f = f; trees = leaf (order f) i draws.old.x ∷ builder.old.trees }) }
    ensures draws { OnOk result (draws.new.x ≡ after 3 draws.old.x) }
{
    let name = element(alloc, i)?;
    let digits = draws.digits(f);
    let weight = draws.weight();
    without_fault(builder.elem(alloc, name, digits, weight))
}

/// Draws the join of the last two trees.
fn add_join(
    alloc: Global,
    builder: &mut Builder,
    f: Field,
    ops: &OpTable,
    draws: &mut Draws,
) -> Result<(), NoMemory>
    requires field { builder.old.f ≡ f }
    requires ops { ops.now ≡ operators f }
    requires fault { named_fault (operator_name draws.old.x) (op_named (operator_name draws.old.x) (operators f)) builder.old.trees ≡ None }
    ensures tree { OnOk result (builder.new ≡ record {
      f = f;
      trees = joined_by (operator_name draws.old.x) (op_named (operator_name draws.old.x) (operators f)) builder.old.trees;
    }) }
    ensures draws { OnOk result (draws.new.x ≡ next draws.old.x) }
{
    let name = operator_name(draws);
    without_fault(builder.join(alloc, ops, &name))
}

/// What a builder answers where it has no fault: only memory may be missing.
fn without_fault(answer: Result<(), BuildFault>) -> Result<(), NoMemory>
    requires { Answers answer None }
    ensures { OnOk result (answer ≡ Ok tt) }
{
    answer.or(Err(NoMemory))
}

/// The operator that is drawn.
fn operator_name(draws: &mut Draws) -> Name
    ensures name { result ≡ operator_name draws.old.x }
    ensures draws { draws.new.x ≡ next draws.old.x }
{
    if draws.below(2) == 0 { p() } else { s() }
}
