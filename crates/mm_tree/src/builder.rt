//! Trees from their lines: leaves, and joins of the last two trees.

ghost use Rattle.std.specs.Prelude.{◌≡◌, ◌≤◌, [], ◌∷◌, length, nat_abs, OnOk, OnErr, IfOk, IfErr};
ghost use Rattle.mm_field.specs.Vectors.{AreDigits};
ghost use Rattle.mm_tree.specs.Building.{Answers, AreOver, leaf_fault, pair_fault, join_fault, named_fault, joined, joined_by};
ghost use Rattle.mm_ops.specs.Tables.{op_named};
ghost use Rattle.mm_tree.specs.NamedTree.{depth};
ghost use Rattle.mm_tree.specs.NamedTree.Tree.{Elem, Void};
ghost use Rattle.mm_tree.specs.Nodes.{named_leaf};
ghost use Rattle.mm_tree.specs.BuilderView.{IsGoodLeaf, tree_of};
ghost use Rattle.mm_tree.specs.ValidTree.{most_weight};
ghost use Rattle.mm_tree.specs.declared.builder.BuildFault.TheVariants.{TooFew};

use crate::node::names_have_their_form;
use crate::{Item, Leaf, MAX_DEPTH, MAX_LEAVES, Node, Tree, walk};
use indexmap::IndexSet;
use mm_base::Name;
use mm_field::Field;
use mm_ops::{Op, OpTable};
use mm_space::Vector;
use std::alloc::Global;
use std::marker::Model;
use thiserror::Error;

/// Why a builder refuses a call.
#[derive(Clone, Copy, Debug, PartialEq, Eq, Error)]
pub enum BuildFault {
    /// No operator has the name.
    #[error("no operator has the name")]
    UnknownOp(Name),
    /// Fewer than two trees are there for a join, or not exactly one at the end.
    #[error("there are too few trees")]
    TooFew,
    /// The operator takes the first boundary, and the child has the second one.
    #[error("the boundary is {1}, not {0}")]
    Boundary(u8, u8),
    /// A leaf of this name is there.
    #[error("a name is taken")]
    NameTaken(Name),
    /// 8192 leaves are there.
    #[error("there are too many leaves")]
    TooManyLeaves,
    /// The joined tree would be deeper than 1023.
    #[error("the tree is too deep")]
    TooDeep,
    /// Memory ran out.
    #[error("memory ran out")]
    NoMemory,
}

/// A tree that is not joined yet, and its depth.
#[derive(Drop)]
pub(crate) struct StackEntry {
    node: Box<Node>,
    depth: u32,
}

/// A stack of trees over one field, whose leaves all have different names.
#[derive(Drop)]
pub struct Builder {
    field: Field,
    trees: Vec<StackEntry>,
    names: IndexSet<Name>,
}

impl Model for Builder {
    ghost use Rattle.mm_tree.specs.Building.{BuilderValue, builder_code};

    ghost Value = { BuilderValue };

    ghost coded = { builder_code };

    ghost use Rattle.mm_tree.specs.BuilderView.{value_of, IsKept};

    ghost view = { value_of };

    ghost invariant = { IsKept };
}

impl Builder {
    /// A builder without trees. It takes no memory yet.
    pub fn new(alloc: Global, f: Field) -> Builder
        ensures { (result.f ≡ f) × (result.trees ≡ []) }
    {
        Builder {
            field: f,
            trees: Vec::new(alloc),
            names: IndexSet::new(alloc),
        }
    }

    /// Adds a leaf with an element. A builder that refuses is as before.
    pub fn elem(
        &mut self,
        alloc: Global,
        name: Name,
        vec: Vector,
        weight: i64,
    ) -> Result<(), BuildFault>
        requires digits { AreDigits self.old.f vec }
        requires short { length vec ≤ 6 }
        requires light { nat_abs weight ≤ most_weight }
        ensures answers { Answers result (leaf_fault name self.old.trees) }
        ensures ok { OnOk result (self.new ≡ record self.old { trees = Elem name vec weight ∷ self.old.trees }) }
        ensures err { OnErr result (self.new ≡ self.old) }
    {
        let leaf = Leaf {
            field: self.field,
            name,
            t: vec.len(),
            item: Some(Item { vec, weight }),
        };
        self.push_leaf(alloc, leaf)
    }

    /// Adds a leaf without an element. A builder that refuses is as before.
    pub fn void(&mut self, alloc: Global, name: Name, t: u8) -> Result<(), BuildFault>
        requires { t ≤ 6 }
        ensures answers { Answers result (leaf_fault name self.old.trees) }
        ensures ok { OnOk result (self.new ≡ record self.old { trees = Void name t ∷ self.old.trees }) }
        ensures err { OnErr result (self.new ≡ self.old) }
    {
        let leaf = Leaf {
            field: self.field,
            name,
            t,
            item: None,
        };
        self.push_leaf(alloc, leaf)
    }

    /// Adds a leaf, where it may be added.
    fn push_leaf(&mut self, alloc: Global, leaf: Leaf) -> Result<(), BuildFault>
        requires { IsGoodLeaf self.old.f leaf }
        ensures answers { Answers result (leaf_fault leaf.name self.old.trees) }
        ensures ok { OnOk result (self.new ≡ record self.old { trees = named_leaf leaf ∷ self.old.trees }) }
        ensures err { OnErr result (self.new ≡ self.old) }
    {
        if let Some(fault) = self.leaf_fault(&leaf.name) {
            return Err(fault);
        }
        names_have_their_form(&leaf.name);
        let Ok(node) = Box::new(alloc, Node::Leaf(leaf)) else {
            return Err(BuildFault::NoMemory);
        };
        if self.trees.push(StackEntry { node, depth: 0 }).is_err() {
            return Err(BuildFault::NoMemory);
        }
        if self.names.insert(leaf.name).is_err() {
            self.trees.pop();
            return Err(BuildFault::NoMemory);
        }
        Ok(())
    }

    /// Why no leaf of this name can be added.
    fn leaf_fault(&self, name: &Name) -> Option<BuildFault>
        ensures { result ≡ leaf_fault name.now self.now.trees }
    {
        if self.names.contains(name) {
            return Some(BuildFault::NameTaken(*name));
        }
        if self.names.len() >= MAX_LEAVES {
            return Some(BuildFault::TooManyLeaves);
        }
        None
    }

    /// Joins the last two trees by the operator of a name: the last one becomes the right child. A builder that refuses is as before.
    pub fn join(&mut self, alloc: Global, ops: &OpTable, name: &Name) -> Result<(), BuildFault>
        requires { AreOver self.old.f ops.now }
        ensures answers { Answers result (named_fault name.now (op_named name.now ops.now) self.old.trees) }
        ensures ok { OnOk result (self.new ≡ record self.old { trees = joined_by name.now (op_named name.now ops.now) self.old.trees }) }
        ensures err { OnErr result (self.new ≡ self.old) }
    {
        let Some(op) = ops.find(name) else {
            return Err(BuildFault::UnknownOp(*name));
        };
        self.join_by(alloc, *name, op)
    }

    /// Joins the last two trees by an operator of this name.
    fn join_by(&mut self, alloc: Global, name: Name, op: Op) -> Result<(), BuildFault>
        requires { op.f ≡ self.old.f }
        ensures answers { Answers result (join_fault op self.old.trees) }
        ensures ok { OnOk result (self.new ≡ record self.old { trees = joined name op self.old.trees }) }
        ensures err { OnErr result (self.new ≡ self.old) }
    {
        if let Some(fault) = self.join_fault(&op) {
            return Err(fault);
        }
        names_have_their_form(&name);
        // The room for the join is made first: a refusal then loses no tree.
        let leaf = Leaf {
            field: op.field(),
            name,
            t: 0,
            item: None,
        };
        let Ok(mut node) = Box::new(alloc, Node::Leaf(leaf)) else {
            return Err(BuildFault::NoMemory);
        };
        let Some(right) = self.trees.pop() else {
            return Err(BuildFault::TooFew);
        };
        let Some(left) = self.trees.pop() else {
            return Err(BuildFault::TooFew);
        };
        let depth = left.depth.max(right.depth) + 1;
        *node = Node::Join(name, op, left.node, right.node);
        if self.trees.push(StackEntry { node, depth }).is_err() {
            return Err(BuildFault::NoMemory);
        }
        Ok(())
    }

    /// Why the last two trees are not joined by an operator.
    fn join_fault(&self, op: &Op) -> Option<BuildFault>
        ensures { result ≡ join_fault op.now self.now.trees }
    {
        let Some((right, rest)) = self.trees.split_last() else {
            return Some(BuildFault::TooFew);
        };
        let Some((left, _)) = rest.split_last() else {
            return Some(BuildFault::TooFew);
        };
        pair_fault(op, left, right)
    }

    /// The tree, where there is exactly one. After that the builder is as new; a builder that refuses is as before.
    pub fn finish(&mut self) -> Result<Tree, BuildFault>
        ensures ok { IfOk result (λ made. (self.old.trees ≡ made.tree ∷ []) × (made.f ≡ self.old.f)
            × (self.new.f ≡ self.old.f) × (self.new.trees ≡ [])) }
        ensures err { IfErr result (λ e. (e ≡ TooFew) × (self.new ≡ self.old) × (length self.old.trees ≡ 1 → ⊥)) }
    {
        if self.trees.len() != 1 {
            return Err(BuildFault::TooFew);
        }
        let Some(grown) = self.trees.pop() else {
            return Err(BuildFault::TooFew);
        };
        self.names.clear();
        Ok(Tree {
            node: Box::into_inner(grown.node),
        })
    }
}

/// Why an operator does not join two trees.
fn pair_fault(op: &Op, left: &StackEntry, right: &StackEntry) -> Option<BuildFault>
    requires left { left.now.depth ≡ depth (tree_of left.now) }
    requires right { right.now.depth ≡ depth (tree_of right.now) }
    ensures { result ≡ pair_fault op.now (tree_of left.now) (tree_of right.now) }
{
    let first = walk::boundary(&left.node);
    if first != op.t1() {
        return Some(BuildFault::Boundary(op.t1(), first));
    }
    let second = walk::boundary(&right.node);
    if second != op.t2() {
        return Some(BuildFault::Boundary(op.t2(), second));
    }
    if left.depth.max(right.depth) >= MAX_DEPTH {
        return Some(BuildFault::TooDeep);
    }
    None
}
