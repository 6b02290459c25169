//! What a leaf shows to an automaton.

ghost use Rattle.mm_nodes.specs.LeafLetters.{IsLetterOf};

use mm_states::Letter;
use mm_tree::Leaf;

/// What a leaf shows: its vector, with the marks of its element. No memory.
pub fn letter_of(leaf: &Leaf, marks: u16) -> Letter
    ensures { IsLetterOf leaf.now marks result }
{
    Letter {
        field: leaf.field,
        t: leaf.t,
        vec: match leaf.item {
            Some(item) => Some(item.vec),
            None => None,
        },
        marks,
    }
}
