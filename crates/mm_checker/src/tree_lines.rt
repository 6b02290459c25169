//! The nodes of a tree in the order of its lines.

ghost use Rattle.std.specs.Prelude.{◌≡◌, ◌≤◌, ◌+◌, ◌++◌, ◌∷◌, ℕ, [], List, Option, length, IfOk, OnOk, None};
ghost use Rattle.mm_field.specs.declared.Field.{Field as Over};
ghost use Rattle.mm_logic.specs.Operator.{Op as JoinOp};
ghost use Rattle.mm_logic.specs.Tree.{IsValid};
ghost use Rattle.mm_ops.specs.Tables.{op_named as kept_op};
ghost use Rattle.mm_tree.specs.NamedTree.{shape};
ghost use Rattle.mm_tree.specs.Nodes.{named, named_leaf, IsOver};
ghost use Rattle.mm_checker.specs.Certificates.{op_named, first_op};
ghost use Rattle.mm_checker.specs.NodeLines.{lines_from, leaves};
ghost use Rattle.mm_checker.specs.KeptLines.{PutsLines, PutsLeaves, AreLines, AreLeaves, AreOps, only_op};

use indexmap::IndexMap;
use mm_base::{Name, NoMemory};
use mm_ops::Op;
use mm_tree::{Item, Leaf, Node, Tree};
use std::alloc::Global;

/// A line of a tree: a leaf by its number, or the join of the last two trees by an operator of that name.
#[derive(Clone, Copy)]
pub(crate) enum TreeLine {
    Leaf(u32),
    Join(Name),
}

// Puts the lines of the tree below a node behind others, its leaves numbered from a number on. The number after its last is the answer.
#[tactic(auto, unfolding(mm_tree::specs::Nodes::named))]
fn push_lines(node: &Node, next: u32, lines: &mut Vec<TreeLine>) -> Result<u32, NoMemory>
    requires { next + length (leaves (named node.now)) ≤ 8192 }
    ensures lines { OnOk result (PutsLines lines.old.items (lines_from next (named node.now)) lines.new.items) }
    ensures next { IfOk result (λ n. n ≡ next + length (leaves (named node.now))) }
{
    match node {
        Node::Leaf(_) => {
            lines.push(TreeLine::Leaf(next))?;
            Ok(next + 1)
        }
        Node::Join(name, _, left, right) => {
            let middle = push_lines(left, next, lines)?;
            let end = push_lines(right, middle, lines)?;
            lines.push(TreeLine::Join(*name))?;
            Ok(end)
        }
    }
}

// Puts a leaf behind others.
fn push_leaf(leaf: &Leaf, all: &mut Vec<Leaf>) -> Result<(), NoMemory>
    ensures { OnOk result (all.new.items ≡ all.old.items ++ leaf.now ∷ []) }
{
    let item: Option<Item> = leaf.item;
    all.push(Leaf {
        field: leaf.field,
        name: leaf.name,
        t: leaf.t,
        item,
    })?;
    Ok(())
}

// Puts the leaves of the tree below a node behind others.
#[tactic(auto, unfolding(mm_tree::specs::Nodes::named, mm_tree::specs::Nodes::IsOver, mm_tree::specs::NamedTree::shape))]
fn push_leaves(node: &Node, all: &mut Vec<Leaf>) -> Result<(), NoMemory>
    ensures { (f : Over) → IsOver f node.now → IsValid f (shape (named node.now)) →
        OnOk result (PutsLeaves f all.old.items (leaves (named node.now)) all.new.items) }
{
    match node {
        Node::Leaf(leaf) => push_leaf(leaf, all),
        Node::Join(_, _, left, right) => {
            push_leaves(left, all)?;
            push_leaves(right, all)
        }
    }
}

/// The operators of a tree by their names.
#[derive(Drop)]
pub(crate) struct Ops {
    kept: IndexMap<Name, Op>,
}

impl Ops {
    fn new(alloc: Global) -> Ops
        ensures { result.kept.entries ≡ [] }
    {
        Ops {
            kept: IndexMap::new(alloc),
        }
    }

    /// The operator of a name.
    pub(crate) fn find(&self, name: &Name) -> Option<Op>
        ensures { result ≡ kept_op name.now self.now.kept.entries }
    {
        self.kept.get(name).copied()
    }

    // Adds an operator under a name that has none yet.
    fn add(&mut self, name: Name, op: Op) -> Result<(), NoMemory>
        ensures { (f : Over) (g : List ℕ → Option JoinOp) → op.f ≡ f → AreOps f self.old.kept.entries g →
            OnOk result (AreOps f self.new.kept.entries (λ n. first_op (g n) (only_op name op.op n))) }
    {
        if self.find(&name).is_some() {
            return Ok(());
        }
        self.kept.insert(name, op)?;
        Ok(())
    }
}

// Adds the operators of the joins of the tree below a node.
#[tactic(auto, unfolding(mm_tree::specs::Nodes::named, mm_tree::specs::Nodes::IsOver))]
fn add_ops(node: &Node, ops: &mut Ops) -> Result<(), NoMemory>
    ensures { (f : Over) (g : List ℕ → Option JoinOp) → IsOver f node.now → AreOps f ops.old.kept.entries g →
        OnOk result (AreOps f ops.new.kept.entries (λ n. first_op (g n) (op_named n (named node.now)))) }
{
    match node {
        Node::Leaf(_) => Ok(()),
        Node::Join(name, op, left, right) => {
            ops.add(*name, *op)?;
            add_ops(left, ops)?;
            add_ops(right, ops)
        }
    }
}

/// The lines of a tree, its leaves by their numbers, and its operators by their names.
#[derive(Drop)]
pub(crate) struct TreeLines {
    pub lines: Vec<TreeLine>,
    pub leaves: Vec<Leaf>,
    pub ops: Ops,
}

impl TreeLines {
    /// The lines of a tree.
    pub(crate) fn of(alloc: Global, tree: &Tree) -> Result<TreeLines, NoMemory>
        ensures lines { IfOk result (λ t. AreLines (lines_from 0 tree.now.tree) t.lines.items) }
        ensures leaves { IfOk result (λ t. AreLeaves tree.now.f (leaves tree.now.tree) t.leaves.items) }
        ensures ops { IfOk result (λ t. AreOps tree.now.f t.ops.kept.entries (λ n. op_named n tree.now.tree)) }
    {
        let mut all = TreeLines {
            lines: Vec::new(alloc),
            leaves: Vec::new(alloc),
            ops: Ops::new(alloc),
        };
        let node = tree.node();
        push_lines(node, 0, &mut all.lines)?;
        push_leaves(node, &mut all.leaves)?;
        add_ops(node, &mut all.ops)?;
        Ok(all)
    }
}
