//! What is known of joins by the operators that a walk has met.

ghost use Rattle.std.specs.Prelude.{◌≡◌, ◌<◌, Some, [], length, slice_get};
ghost use Rattle.std.specs.Map.{values_of};
ghost use Rattle.mm_nodes.specs.Sketches.{IsAt, Learns};

use crate::Keeps;
use indexmap::IndexMap;
use mm_ops::Op;
use std::alloc::Global;

/// For each operator that was met, what is known of joins by it.
#[derive(Drop)]
pub(crate) struct Sketches<N> {
    pub(crate) kept: IndexMap<Op, N>,
}

impl<N: Keeps> Sketches<N> {
    /// Nothing is known. It takes no memory yet.
    pub(crate) fn new(alloc: Global) -> Sketches<N>
        ensures { result.kept.entries ≡ [] }
    {
        Sketches {
            kept: IndexMap::new(alloc),
        }
    }

    /// The place of an operator, if something is known of joins by it.
    pub(crate) fn place(&self, op: &Op) -> Option<usize>
        ensures { IsAt op.now self.now.kept.entries result }
    {
        if self.kept.is_empty() {
            return None;
        }
        self.kept.get_index_of(op)
    }

    /// What is known at a place.
    pub(crate) fn at(&self, place: usize) -> &N
        requires { place < length self.now.kept.entries }
        ensures { slice_get (values_of self.now.kept.entries) place ≡ Some result.now }
    {
        &self.kept[place]
    }

    /// Keeps what the entry of a join by an operator knows, at the operator's place. Where memory runs out, nothing more is known.
    pub(crate) fn learn(&mut self, alloc: Global, op: &Op, place: Option<usize>, entry: &N)
        requires { IsAt op.now self.old.kept.entries place }
        ensures { Learns N.Keeps op.now entry.now self.old.kept.entries self.new.kept.entries }
    {
        let Some(sketch) = entry.sketch(alloc) else {
            return;
        };
        match place {
            Some(at) => self.kept[at] = sketch,
            None => {
                let _ = self.kept.insert(*op, sketch);
            }
        }
    }
}
