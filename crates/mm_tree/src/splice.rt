//! The node of a number, and its exchange for another one.

ghost use Rattle.std.specs.Prelude.{◌≡◌};
ghost use Rattle.mm_tree.specs.Nodes.{named};
ghost use Rattle.mm_tree.specs.Steps.{IsSought, IsSpliced};

use crate::Node;

/// What a search for the node of a number finds below a node.
pub(crate) enum Sought<'a> {
    /// The node of this number.
    Here(&'a Node),
    /// How much of the number is left after the node.
    Beyond(u32),
}

/// The node of number `at`, counted from `node`.
pub(crate) fn node_at<'a>(node: &'a Node, at: u32) -> Sought<'a>
    ensures { IsSought (named node.now) at result }
{
    if at == 0 {
        return Sought::Here(node);
    }
    match node {
        Node::Leaf(_) => Sought::Beyond(at - 1),
        Node::Join(_, _, left, right) => match node_at(left, at - 1) {
            Sought::Beyond(rest) => node_at(right, rest),
            Sought::Here(found) => Sought::Here(found),
        },
    }
}

/// What became of a node that was to be exchanged for the one of a number.
#[derive(Clone, Copy)]
pub(crate) enum Spliced {
    /// The two were exchanged.
    Done,
    /// The number is beyond, and nothing changed; how much of the number is left.
    Beyond(u32),
}

/// Exchanges `new` for the node of number `at`, counted from `node`. Both stay where they are on the way down, for a node is large.
pub(crate) fn splice(node: &mut Node, at: u32, new: &mut Node) -> Spliced
    ensures { IsSpliced node.old node.new at new.old new.new result }
{
    if at == 0 {
        std::mem::swap(node, new);
        return Spliced::Done;
    }
    match node {
        Node::Leaf(_) => Spliced::Beyond(at - 1),
        Node::Join(_, _, left, right) => match splice(left, at - 1, new) {
            Spliced::Beyond(rest) => splice(right, rest, new),
            Spliced::Done => Spliced::Done,
        },
    }
}
