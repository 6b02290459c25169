//! Places of nodes, and the search for one above a leaf.

ghost use Rattle.std.specs.Prelude.{◌≡◌, ◌≤◌, ◌+◌};
ghost use Rattle.mm_tree.specs.NamedTree.{depth, nodes};
ghost use Rattle.mm_tree.specs.Nodes.{named};
ghost use Rattle.mm_tree.specs.Places.{IsReached};
ghost use Rattle.mm_tree.specs.Steps.{IsClimbed, IsCounted};
ghost use Rattle.mm_tree.specs.Paths.{path_to};

use crate::Node;
use crate::walk::is_named;
use mm_base::Name;

/// The place of a node in a tree. The nodes are counted from 0, each join before its left subtree, and this before the right one.
#[derive(Clone, Copy, Debug, PartialEq, Eq)]
pub struct Place {
    number: u32,
    depth: u32,
}

impl Place {
    /// The place of the root.
    pub(crate) fn root() -> Place
        ensures { (result.number ≡ 0) × (result.depth ≡ 0) }
    {
        Place {
            number: 0,
            depth: 0,
        }
    }

    /// The number of the node, from 0.
    pub fn number(&self) -> u32
        ensures { result ≡ self.now.number }
    {
        self.number
    }

    /// How many joins stand above the node.
    pub fn depth(&self) -> u32
        ensures { result ≡ self.now.depth }
    {
        self.depth
    }
}

/// What a search for the node some steps above a leaf finds below a node.
pub(crate) enum Reached {
    /// No leaf has the name; how many nodes were passed.
    Absent(u32),
    /// A leaf has the name; how many steps are left above the node.
    Above(u32),
    /// The place that was sought.
    At(Place),
}

/// Searches below `node`, whose place is `here`, for the node `up` steps above the leaf of a name.
#[tactic(auto, unfolding(crate::specs::Nodes::named, crate::specs::NamedTree::nodes, crate::specs::NamedTree::depth), using(crate::proofs::Walks::leaf_nodes))]
pub(crate) fn search(node: &Node, here: Place, name: &Name, up: u32) -> Reached
    requires numbers { here.number + nodes (named node.now) ≤ 16383 }
    requires deep { here.depth + depth (named node.now) ≤ 1023 }
    ensures counted { IsCounted (nodes (named node.now)) result }
    ensures reached { IsReached (named node.now) here up (path_to name.now (named node.now)) result }
{
    match node {
        Node::Leaf(leaf) => {
            if is_named(leaf, name) {
                climb(up, here)
            } else {
                Reached::Absent(1)
            }
        }
        Node::Join(_, _, left, right) => {
            let mut below = Place {
                number: here.number + 1,
                depth: here.depth + 1,
            };
            match search(left, below, name, up) {
                Reached::Absent(passed) => {
                    below.number += passed;
                    match search(right, below, name, up) {
                        Reached::Absent(more) => Reached::Absent(passed + more + 1),
                        Reached::Above(steps) => climb(steps - 1, here),
                        Reached::At(place) => Reached::At(place),
                    }
                }
                Reached::Above(steps) => climb(steps - 1, here),
                Reached::At(place) => Reached::At(place),
            }
        }
    }
}

/// The node at hand, where no steps are left.
fn climb(steps: u32, here: Place) -> Reached
    ensures { IsClimbed here steps result }
{
    if steps == 0 {
        Reached::At(here)
    } else {
        Reached::Above(steps)
    }
}
