//! The least set, found from the root downwards.

ghost use Rattle.std.specs.Prelude.{◌≡◌, ◌<◌, ◌+◌, ◌++◌, [], Some, true, length, slice_index_or, OnOk};
ghost use Rattle.mm_nodes.specs.KeptTrees.{top};
ghost use Rattle.mm_nodes.specs.KeptNodes.{tree_of};
ghost use Rattle.mm_least.specs.Rows.{shown};
ghost use Rattle.mm_least.specs.Passes.{AreWithin};
ghost use Rattle.mm_least.specs.LeastSets.{AreLinked, IsLightestBefore, is_accepted, names_of, name_at_leaf};

use crate::{NodeRows, Origin, Row};
use mm_base::{Name, NameList, NoMemory};
use mm_nodes::Kept;
use mm_states::Automaton;
use std::alloc::Global;

/// A least set: its weight, and the names of its elements in leaf order.
#[derive(Drop)]
pub struct Best {
    /// The sum of the weights of its elements.
    pub weight: i64,
    /// The names of its elements.
    pub names: NameList,
}

/// The place of the lightest row whose type is accepted, the first of these, with row `k` after those before it.
fn lightest_with<A: Automaton>(
    automaton: &A,
    rows: &[Row],
    k: usize,
    best: Option<usize>,
) -> Option<usize>
    requires there { k < length rows.now }
    requires within { AreWithin (A.shape automaton.now) (A.lists automaton.now) (shown rows.now) }
    requires before { IsLightestBefore (is_accepted (A.shape automaton.now) (A.lists automaton.now)) rows.now k best }
    ensures { IsLightestBefore (is_accepted (A.shape automaton.now) (A.lists automaton.now)) rows.now (k + 1) result }
{
    if !automaton.accepts(rows[k].id) {
        return best;
    }
    match best {
        Some(place) => {
            if rows[place].weight <= rows[k].weight {
                best
            } else {
                Some(k)
            }
        }
        None => Some(k),
    }
}

/// The place of the lightest row whose type is accepted, the first of these.
pub(crate) fn best_place<A: Automaton>(automaton: &A, rows: &[Row]) -> Option<usize>
    requires { AreWithin (A.shape automaton.now) (A.lists automaton.now) (shown rows.now) }
    ensures { IsLightestBefore (is_accepted (A.shape automaton.now) (A.lists automaton.now)) rows.now (length rows.now) result }
{
    let mut best = None;
    for k in 0..rows.len() {
        best = lightest_with(automaton, rows, k, best);
    }
    best
}

/// Adds the name of the element of a leaf, where it is taken.
fn add_name(
    alloc: Global,
    name: Option<Name>,
    origin: Origin,
    names: &mut NameList,
) -> Result<(), NoMemory>
    ensures { OnOk result (names.new ≡ names.old ++ name_at_leaf name origin) }
{
    match (name, origin) {
        (Some(name), Origin::Taken) => names.push(alloc, name),
        _ => Ok(()),
    }
}

/// Whether the set of a row is known to be empty.
fn is_nothing(rows: &NodeRows, place: usize) -> bool
    ensures { result ≡ true → rows.now.nothing ≡ Some place }
{
    match rows.nothing {
        Some(nothing) => nothing as usize == place,
        None => false,
    }
}

/// Adds the names of the elements of a row's set, in leaf order.
pub(crate) fn add_names(
    alloc: Global,
    kept: &Kept<NodeRows>,
    place: usize,
    names: &mut NameList,
) -> Result<(), NoMemory>
    requires linked { AreLinked (tree_of kept.now) }
    requires within { place < length (top (tree_of kept.now)).rows }
    ensures { OnOk result (names.new ≡ names.old ++ slice_index_or (names_of (tree_of kept.now)) place []) }
{
    if is_nothing(kept.entry(), place) {
        return Ok(());
    }
    match kept {
        Kept::One(node) => add_name(alloc, node.name, node.rows[place].origin, names),
        Kept::Two(_, left, right) => match kept.entry().rows[place].origin {
            Origin::Pair(i, j) => {
                add_names(alloc, left, i as usize, names)?;
                add_names(alloc, right, j as usize, names)
            }
            Origin::Out | Origin::Taken => Ok(()),
        },
    }
}
