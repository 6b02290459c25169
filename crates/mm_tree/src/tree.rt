//! Trees that are always valid.

ghost use Rattle.std.specs.Prelude.{◌≡◌, ◌≤◌, ◌+◌, ℕ, nat_abs, Some, None, IfSome, IfOk, IsTrue};
ghost use Rattle.std.specs.List.{IsDistinct};
ghost use Rattle.std.specs.Option.{is_some};
ghost use Rattle.std.specs.Str.{bytes_eq};
ghost use Rattle.mm_tree.specs.NamedTree.{boundary, depth, nodes, leaf_names, element_names, is_one_of};
ghost use Rattle.mm_tree.specs.Nodes.{named, IsOver};
ghost use Rattle.mm_tree.specs.Places.{IsPlaceOf, path_above, path_of, place_at_end};
ghost use Rattle.mm_tree.specs.Replacing.{Answers, leaves_fault, replace_fault};
ghost use Rattle.mm_tree.specs.ValidTree.{IsValidTree, most_weight};
ghost use Rattle.mm_tree.specs.OutsideLeaves.{with_leaves};
ghost use Rattle.mm_tree.specs.Paths.{names_outside, node_at, with_node, with_weight};
ghost use Rattle.mm_tree.specs.Weights.{weight_named};

use crate::place::{Reached, search};
use crate::replace::Outside;
use crate::splice::Sought;
use crate::{MAX_DEPTH, MAX_LEAVES, Node, Place, ReplaceFault, replace, splice, walk};
use indexmap::IndexSet;
use mm_base::{Name, NameList, NoMemory};
use mm_field::Field;
use std::alloc::Global;
use std::marker::Model;

/// A parse tree over a field, at most 8192 leaves with different names, none deeper than 1023, whose joins take the boundaries that
/// their children have.
#[derive(Drop)]
pub struct Tree {
    pub(crate) node: Node,
}

impl Model for Tree {
    ghost use Rattle.mm_tree.specs.TreeValue.{TreeValue, tree_value_code};

    ghost Value = { TreeValue };

    ghost coded = { tree_value_code };

    ghost use Rattle.mm_tree.specs.TreeView.{value_of, IsKept};

    ghost view = { value_of };

    ghost invariant = { IsKept };
}

impl Tree {
    /// The root. Every leaf and operator below is over the tree's field.
    pub fn node(&self) -> &Node
        ensures tree { named result.now ≡ self.now.tree }
        ensures over { IsOver self.now.f result.now }
        ensures valid { IsValidTree self.now.f self.now.tree }
    {
        &self.node
    }

    /// The field of its vectors and operators.
    pub fn field(&self) -> Field
        ensures { result ≡ self.now.f }
    {
        walk::field_of(&self.node)
    }

    /// How many digits the boundary has.
    pub fn boundary(&self) -> u8
        ensures { result ≡ boundary self.now.tree }
    {
        walk::boundary(&self.node)
    }

    /// How many joins stand above the deepest leaf.
    pub fn depth(&self) -> u32
        ensures { result ≡ depth self.now.tree }
    {
        walk::depth(&self.node)
    }

    /// How many nodes there are, leaves and joins together.
    pub fn nodes(&self) -> u32
        ensures { result ≡ nodes self.now.tree }
    {
        walk::nodes(&self.node)
    }

    /// Whether a leaf has the name.
    pub fn has_leaf(&self, name: &Name) -> bool
        ensures { result ≡ is_one_of name.now (leaf_names self.now.tree) }
    {
        walk::has_leaf(&self.node, name)
    }

    /// Whether an element has the name.
    pub fn has_element(&self, name: &Name) -> bool
        ensures { result ≡ is_one_of name.now (element_names self.now.tree) }
    {
        walk::has_element(&self.node, name)
    }

    /// The names of all leaves, from left to right.
    pub fn leaves(&self, alloc: Global) -> Result<NameList, NoMemory>
        ensures { IfOk result (λ names. names ≡ leaf_names self.now.tree) }
    {
        let mut names = NameList::new(alloc);
        walk::push_leaves(alloc, &self.node, &mut names)?;
        Ok(names)
    }

    /// The names of all elements, from left to right. They are different.
    pub fn elements(&self, alloc: Global) -> Result<NameList, NoMemory>
        ensures names { IfOk result (λ names. names ≡ element_names self.now.tree) }
        ensures different { IfOk result (λ names. IsDistinct bytes_eq names) }
    {
        let mut names = NameList::new(alloc);
        walk::push_elements(alloc, &self.node, &mut names)?;
        Ok(names)
    }

    /// The weight of the element of this name.
    pub fn weight_of(&self, name: &Name) -> i64
        requires { IsTrue (is_one_of name.now (element_names self.now.tree)) }
        ensures { weight_named name.now self.now.tree ≡ Some result }
    {
        walk::weight_of(&self.node, name).unwrap_or(0)
    }

    /// Gives the element of this name another weight.
    pub fn set_weight(&mut self, name: &Name, weight: i64)
        requires element { IsTrue (is_one_of name.now (element_names self.old.tree)) }
        requires light { nat_abs weight ≤ most_weight }
        ensures field { self.new.f ≡ self.old.f }
        ensures tree { self.new.tree ≡ with_weight name.now weight self.old.tree }
    {
        walk::exchange_weight(&mut self.node, name, weight);
    }

    /// Gives the element of this name another weight, and gives the weight before. None exactly where no element has the name, and then all
    /// is as before. One walk.
    pub fn exchange_weight(&mut self, name: &Name, weight: i64) -> Option<i64>
        requires { nat_abs weight ≤ most_weight }
        ensures before { result ≡ weight_named name.now self.old.tree }
        ensures found { is_some result ≡ is_one_of name.now (element_names self.old.tree) }
        ensures field { self.new.f ≡ self.old.f }
        ensures tree { self.new.tree ≡ with_weight name.now weight self.old.tree }
        ensures stays { result ≡ None → self.new ≡ self.old }
    {
        walk::exchange_weight(&mut self.node, name, weight)
    }

    /// The place of the node `up` steps above the leaf of a name. None exactly where no leaf has the name or its depth is below `up`.
    pub fn place(&self, name: &Name, up: u32) -> Option<Place>
        ensures found { result ≡ place_at_end self.now.tree (path_above name.now up self.now.tree) }
        ensures within { IfSome result (λ place. IsPlaceOf self.now.tree place) }
    {
        match search(&self.node, Place::root(), name, up) {
            Reached::At(place) => Some(place),
            Reached::Above(_) => None,
            Reached::Absent(_) => None,
        }
    }

    /// The boundary of the node at a place.
    pub fn boundary_at(&self, place: &Place) -> u8
        requires { IsPlaceOf self.now.tree place.now }
        ensures { result ≡ boundary (node_at self.now.tree (path_of place.now.number self.now.tree)) }
    {
        walk::boundary(self.at(place))
    }

    /// The node at a place.
    fn at(&self, place: &Place) -> &Node
        requires { IsPlaceOf self.now.tree place.now }
        ensures { named result.now ≡ node_at self.now.tree (path_of place.now.number self.now.tree) }
    {
        match splice::node_at(&self.node, place.number()) {
            Sought::Here(node) => node,
            Sought::Beyond(_) => &self.node,
        }
    }

    /// Whether a tree may be put at a place, or why not.
    pub fn check_replace(
        &self,
        alloc: Global,
        place: &Place,
        new: &Tree,
    ) -> Result<(), ReplaceFault>
        requires { IsPlaceOf self.now.tree place.now }
        ensures { Answers result (replace_fault self.now.tree (path_of place.now.number self.now.tree) new.now.tree) }
    {
        let node = self.at(place);
        let (old, given) = (walk::boundary(node), new.boundary());
        if old != given {
            return Err(ReplaceFault::Boundary(old, given));
        }
        match self.check_leaves(alloc, place, node, new) {
            Ok(()) => {
                if self.depth_at(place, new) > MAX_DEPTH {
                    Err(ReplaceFault::TooDeep)
                } else {
                    Ok(())
                }
            }
            Err(fault) => Err(fault),
        }
    }

    /// Whether the leaves of a tree may be put at a place, where a node stands, or why not.
    fn check_leaves(
        &self,
        alloc: Global,
        place: &Place,
        node: &Node,
        new: &Tree,
    ) -> Result<(), ReplaceFault>
        requires place { IsPlaceOf self.now.tree place.now }
        requires node { named node.now ≡ node_at self.now.tree (path_of place.now.number self.now.tree) }
        ensures { Answers result (leaves_fault self.now.tree (path_of place.now.number self.now.tree) new.now.tree) }
    {
        let _ = &self.node;
        // a name below the node is not one outside it, and one leaf is not more than there were: nothing else is to be seen
        if replace::is_leaf_of(&new.node, node) {
            return Ok(());
        }
        let names = new.leaf_set(alloc)?;
        let outside = self.outside(place, &names);
        if let Some(i) = outside.taken {
            return Err(ReplaceFault::NameTaken(names[i]));
        }
        if outside.leaves + names.len() > MAX_LEAVES {
            return Err(ReplaceFault::TooManyLeaves);
        }
        Ok(())
    }

    /// The names of the leaves in a set, from left to right.
    fn leaf_set(&self, alloc: Global) -> Result<IndexSet<Name>, NoMemory>
        ensures { IfOk result (λ names. names.keys ≡ leaf_names self.now.tree) }
    {
        let mut names = IndexSet::new(alloc);
        replace::add_names(&self.node, &mut names)?;
        Ok(names)
    }

    /// How deep the deepest leaf of a tree stands that is put at a place.
    fn depth_at(&self, place: &Place, new: &Tree) -> u32
        requires { IsPlaceOf self.now.tree place.now }
        ensures value { result ≡ place.now.depth + depth new.now.tree }
        ensures shallow { depth self.now.tree ≤ 1023 }
    {
        let _ = &self.node;
        place.depth() + walk::depth(&new.node)
    }

    /// What is seen of the leaves that are not below the node at a place.
    fn outside(&self, place: &Place, names: &IndexSet<Name>) -> Outside
        requires { IsPlaceOf self.now.tree place.now }
        ensures few { result.leaves ≤ 16383 }
        ensures seen { result ≡
            with_leaves names.now.keys (record { leaves = 0; taken = None }) (names_outside self.now.tree (path_of place.now.number self.now.tree)) }
    {
        let mut seen = Outside::nothing();
        replace::see_outside(&self.node, Some(place.number()), names, &mut seen);
        seen
    }

    /// Puts a tree at a place, and gives the tree that stood there. The same place then has the root of the new one.
    pub fn splice(&mut self, place: &Place, new: Tree) -> Tree
        requires place { IsPlaceOf self.old.tree place.now }
        requires field { new.f ≡ self.old.f }
        requires fits { replace_fault self.old.tree (path_of place.now.number self.old.tree) new.tree ≡ None }
        ensures field { self.new.f ≡ self.old.f }
        ensures tree { self.new.tree ≡ with_node self.old.tree (path_of place.now.number self.old.tree) new.tree }
        ensures old_field { result.f ≡ self.old.f }
        ensures old_tree { result.tree ≡ node_at self.old.tree (path_of place.now.number self.old.tree) }
    {
        let mut node = new.node;
        splice::splice(&mut self.node, place.number(), &mut node);
        Tree { node }
    }
}
