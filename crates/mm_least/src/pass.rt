//! The walk over the candidates of a node.

ghost use Rattle.std.specs.Prelude.{◌≡◌, ◌<◌, ◌≤◌, ◌+◌, ℕ, ℤ, List, [], ◌∷◌, OnOk, false, length, nat_abs, ◌+ℤ◌};
ghost use Rattle.mm_logic.specs.Growth.{type_at};
ghost use Rattle.mm_logic.specs.JoinRule.{join_type};
ghost use Rattle.mm_logic.specs.Occurrence.{nodes as parts, list_cells};
ghost use Rattle.mm_states.specs.Calls.{CanRead, CanJoin, IsOperand, IsRoomy, value_of_join};
ghost use Rattle.mm_states.specs.Letters.{leaf_type};
ghost use Rattle.mm_states.specs.Letters as letters;
ghost use Rattle.mm_states.specs.Lists.{AllFit};
ghost use Rattle.mm_tree.specs.Nodes.{named_leaf};
ghost use Rattle.mm_nodes.specs.Demands.{IsExact};
ghost use Rattle.mm_nodes.specs.Calls.{CanMakeLeaf};
ghost use Rattle.mm_least.specs.Rows.{shown};
ghost use Rattle.mm_least.specs.Candidates.{candidate, leaf_candidates, typed, types_of, pairs_with, pairs_of};
ghost use Rattle.mm_least.specs.Transitions.{AreIn, Told};
ghost use Rattle.mm_least.specs.FoundTypes.{IsFound, AddsFound, is_in, names_of, rows_of};
ghost use Rattle.mm_least.specs.Passes.{AreWithin, Passes, IsFaultOf, AreOperands, AreLight, most_sum};

use crate::found::Found;
use crate::row::add_row;
use crate::{LeastFault, Origin, Row};
use mm_nodes::letter_of;
use mm_ops::Op;
use mm_states::{AutoFault, Automaton, Letter};
use mm_tree::Leaf;
use std::alloc::Global;

/// The same fault.
fn fault_of(fault: AutoFault) -> LeastFault
    ensures { IsFaultOf fault result }
{
    match fault {
        AutoFault::Full => LeastFault::Full,
        AutoFault::NoMemory => LeastFault::NoMemory,
    }
}

/// One candidate of a leaf.
pub(crate) fn add_letter<A: Automaton>(
    alloc: Global,
    automaton: &mut A,
    letter: &Letter,
    weight: i64,
    origin: Origin,
    rows: &mut Vec<Row>,
    room: &mut u64,
) -> Result<(), LeastFault>
    requires can { CanRead (A.shape automaton.old) (A.field automaton.old) (A.lists automaton.old) letter.now room.old }
    requires exact { IsExact (A.shape automaton.old) (A.lists automaton.old) }
    requires within { AreWithin (A.shape automaton.old) (A.lists automaton.old) (shown rows.old.items) }
    ensures shape { A.shape automaton.new ≡ A.shape automaton.old }
    ensures field { A.field automaton.new ≡ A.field automaton.old }
    ensures marked { A.marked automaton.new ≡ A.marked automaton.old }
    ensures passes { Passes (A.shape automaton.old) (A.lists automaton.old) (A.lists automaton.new)
        (candidate (leaf_type (A.shape automaton.old) letter.now) weight origin ∷ []) rows.old.items rows.new.items
        room.old room.new result }
{
    let before = automaton.cells();
    match automaton.leaf(alloc, letter, *room) {
        Ok(id) => {
            *room -= automaton.cells() - before;
            add_row(Row { id, weight, origin }, rows, room)
        }
        Err(fault) => Err(fault_of(fault)),
    }
}

/// The candidates of a leaf.
pub(crate) fn add_leaf<A: Automaton>(
    alloc: Global,
    automaton: &mut A,
    leaf: &Leaf,
    rows: &mut Vec<Row>,
    room: &mut u64,
) -> Result<(), LeastFault>
    requires leaf { CanMakeLeaf (A.shape automaton.old) (A.field automaton.old) (A.lists automaton.old) leaf.now room.old }
    requires exact { IsExact (A.shape automaton.old) (A.lists automaton.old) }
    requires none { rows.old.items ≡ [] }
    ensures shape { A.shape automaton.new ≡ A.shape automaton.old }
    ensures field { A.field automaton.new ≡ A.field automaton.old }
    ensures marked { A.marked automaton.new ≡ A.marked automaton.old }
    ensures passes { Passes (A.shape automaton.old) (A.lists automaton.old) (A.lists automaton.new)
        (leaf_candidates leaf.now.field (A.shape automaton.old) (named_leaf leaf.now)) rows.old.items rows.new.items
        room.old room.new result }
{
    match add_letter(
        alloc,
        automaton,
        &letter_of(leaf, 0),
        0,
        Origin::Out,
        rows,
        room,
    ) {
        Ok(()) => match leaf.item {
            Some(item) => add_letter(
                alloc,
                automaton,
                &letter_of(leaf, 1),
                item.weight,
                Origin::Taken,
                rows,
                room,
            ),
            None => Ok(()),
        },
        Err(fault) => Err(fault),
    }
}

/// Puts the row of another type; it takes one of the room.
fn put_new(row: Row, found: &mut Found, room: &mut u64) -> Result<(), LeastFault>
    requires found { IsFound found.old }
    requires new { is_in row.id found.old.ids.items ≡ false }
    requires few { room.old + length (rows_of found.old) < 4294967296 }
    ensures { AddsFound row found.old found.new room.old room.new result }
{
    if *room == 0 {
        return Err(LeastFault::Full);
    }
    *room -= 1;
    found.put_new(row)
}

/// One candidate of a join, by an operator that the automaton is ready for. The room, the rows and the cells sum to `whole` throughout.
fn add_pair<A: Automaton>(
    alloc: Global,
    automaton: &mut A,
    op: &Op,
    left: &Row,
    right: &Row,
    origin: Origin,
    whole: u64,
    found: &mut Found,
    room: &mut u64,
) -> Result<(), LeastFault>
    requires open { A.IsOpen op.now automaton.old }
    requires whole { whole ≡ room.old + length (rows_of found.old) + list_cells (parts (A.shape automaton.old)) (A.lists automaton.old) }
    requires whole_few { whole < 4294967296 }
    requires can { CanJoin (A.shape automaton.old) (A.field automaton.old) (A.lists automaton.old) op.now
        left.now.id right.now.id room.old }
    requires exact { IsExact (A.shape automaton.old) (A.lists automaton.old) }
    requires found { IsFound found.old }
    requires within { AreWithin (A.shape automaton.old) (A.lists automaton.old) (shown (rows_of found.old)) }
    requires listed { AreIn (A.shape automaton.old) (A.lists automaton.old) (names_of found.old) }
    requires left { nat_abs left.now.weight ≤ most_sum }
    requires right { nat_abs right.now.weight ≤ most_sum }
    ensures open { A.IsOpen op.now automaton.new }
    ensures shape { A.shape automaton.new ≡ A.shape automaton.old }
    ensures field { A.field automaton.new ≡ A.field automaton.old }
    ensures marked { A.marked automaton.new ≡ A.marked automaton.old }
    ensures found { OnOk result (IsFound found.new) }
    ensures passes { Passes (A.shape automaton.old) (A.lists automaton.old) (A.lists automaton.new)
        (candidate (value_of_join (A.shape automaton.old) (A.lists automaton.old) op.now left.now.id right.now.id)
        (left.now.weight +ℤ right.now.weight) origin ∷ []) (rows_of found.old) (rows_of found.new) room.old room.new result }
    ensures told { OnOk result (Told (A.shape automaton.old) (A.lists automaton.old) (A.lists automaton.new) (names_of found.old)
        (names_of found.new) (value_of_join (A.shape automaton.old) (A.lists automaton.old) op.now left.now.id right.now.id ∷ [])) }
{
    let weight = left.weight + right.weight;
    match automaton.join_open(alloc, op, left.id, right.id, *room) {
        Ok(id) => match found.place_of(id) {
            // The type has a row: it was in the lists, and no cell was missing.
            Some(place) => found.put(place, Row { id, weight, origin }),
            None => {
                *room = whole - found.count() as u64 - automaton.cells();
                put_new(Row { id, weight, origin }, found, room)
            }
        },
        Err(fault) => Err(fault_of(fault)),
    }
}

/// The candidates of one left row, by an operator that the automaton is ready for. The room, the rows and the cells sum to `whole` throughout.
fn add_pairs_with<A: Automaton>(
    alloc: Global,
    automaton: &mut A,
    op: &Op,
    left: &Row,
    place: u32,
    right: &[Row],
    whole: u64,
    found: &mut Found,
    room: &mut u64,
) -> Result<(), LeastFault>
    requires open { A.IsOpen op.now automaton.old }
    requires whole { whole ≡ room.old + length (rows_of found.old) + list_cells (parts (A.shape automaton.old)) (A.lists automaton.old) }
    requires whole_few { whole < 4294967296 }
    requires over { letters.IsOver (A.shape automaton.old) (A.field automaton.old) op.now.f }
    requires left { IsOperand (A.shape automaton.old) op.now.f op.now.op.t1 (A.lists automaton.old) left.now.id }
    requires left_light { nat_abs left.now.weight ≤ most_sum }
    requires right { AreOperands (A.shape automaton.old) op.now.f op.now.op.t2 (A.lists automaton.old) (shown right.now) }
    requires right_light { AreLight (shown right.now) }
    requires few { length right.now < 4294967296 }
    requires roomy { IsRoomy (A.shape automaton.old) (A.lists automaton.old) room.old }
    requires exact { IsExact (A.shape automaton.old) (A.lists automaton.old) }
    requires found { IsFound found.old }
    requires within { AreWithin (A.shape automaton.old) (A.lists automaton.old) (shown (rows_of found.old)) }
    requires listed { AreIn (A.shape automaton.old) (A.lists automaton.old) (names_of found.old) }
    ensures open { A.IsOpen op.now automaton.new }
    ensures shape { A.shape automaton.new ≡ A.shape automaton.old }
    ensures field { A.field automaton.new ≡ A.field automaton.old }
    ensures marked { A.marked automaton.new ≡ A.marked automaton.old }
    ensures found { OnOk result (IsFound found.new) }
    ensures passes { Passes (A.shape automaton.old) (A.lists automaton.old) (A.lists automaton.new)
        (pairs_with (join_type op.now.f (A.shape automaton.old) op.now.op)
        (type_at (A.shape automaton.old) (A.lists automaton.old) left.now.id, left.now.weight) place
        (typed (A.shape automaton.old) (A.lists automaton.old) (shown right.now)) 0)
        (rows_of found.old) (rows_of found.new) room.old room.new result }
    ensures told { OnOk result (Told (A.shape automaton.old) (A.lists automaton.old) (A.lists automaton.new) (names_of found.old)
        (names_of found.new) (types_of (pairs_with (join_type op.now.f (A.shape automaton.old) op.now.op)
        (type_at (A.shape automaton.old) (A.lists automaton.old) left.now.id, left.now.weight) place
        (typed (A.shape automaton.old) (A.lists automaton.old) (shown right.now)) 0))) }
{
    for k in 0..right.len() {
        let origin = Origin::Pair(place, k as u32);
        match add_pair(
            alloc, automaton, op, left, &right[k], origin, whole, found, room,
        ) {
            Ok(()) => {}
            Err(fault) => return Err(fault),
        }
    }
    Ok(())
}

/// The candidates of a join, by an operator that the automaton is ready for. The room, the rows and the cells sum to `whole` throughout.
fn add_open_pairs<A: Automaton>(
    alloc: Global,
    automaton: &mut A,
    op: &Op,
    left: &[Row],
    right: &[Row],
    whole: u64,
    found: &mut Found,
    room: &mut u64,
) -> Result<(), LeastFault>
    requires open { A.IsOpen op.now automaton.old }
    requires whole { whole ≡ room.old + length (rows_of found.old) + list_cells (parts (A.shape automaton.old)) (A.lists automaton.old) }
    requires whole_few { whole < 4294967296 }
    requires over { letters.IsOver (A.shape automaton.old) (A.field automaton.old) op.now.f }
    requires left { AreOperands (A.shape automaton.old) op.now.f op.now.op.t1 (A.lists automaton.old) (shown left.now) }
    requires left_light { AreLight (shown left.now) }
    requires few_left { length left.now < 4294967296 }
    requires right { AreOperands (A.shape automaton.old) op.now.f op.now.op.t2 (A.lists automaton.old) (shown right.now) }
    requires right_light { AreLight (shown right.now) }
    requires few { length right.now < 4294967296 }
    requires roomy { IsRoomy (A.shape automaton.old) (A.lists automaton.old) room.old }
    requires exact { IsExact (A.shape automaton.old) (A.lists automaton.old) }
    requires found { IsFound found.old }
    requires within { AreWithin (A.shape automaton.old) (A.lists automaton.old) (shown (rows_of found.old)) }
    requires listed { AreIn (A.shape automaton.old) (A.lists automaton.old) (names_of found.old) }
    ensures shape { A.shape automaton.new ≡ A.shape automaton.old }
    ensures field { A.field automaton.new ≡ A.field automaton.old }
    ensures marked { A.marked automaton.new ≡ A.marked automaton.old }
    ensures found { OnOk result (IsFound found.new) }
    ensures passes { Passes (A.shape automaton.old) (A.lists automaton.old) (A.lists automaton.new)
        (pairs_of (join_type op.now.f (A.shape automaton.old) op.now.op)
        (typed (A.shape automaton.old) (A.lists automaton.old) (shown left.now)) 0
        (typed (A.shape automaton.old) (A.lists automaton.old) (shown right.now)))
        (rows_of found.old) (rows_of found.new) room.old room.new result }
    ensures told { OnOk result (Told (A.shape automaton.old) (A.lists automaton.old) (A.lists automaton.new) (names_of found.old)
        (names_of found.new) (types_of (pairs_of (join_type op.now.f (A.shape automaton.old) op.now.op)
        (typed (A.shape automaton.old) (A.lists automaton.old) (shown left.now)) 0
        (typed (A.shape automaton.old) (A.lists automaton.old) (shown right.now))))) }
{
    for k in 0..left.len() {
        match add_pairs_with(
            alloc, automaton, op, &left[k], k as u32, right, whole, found, room,
        ) {
            Ok(()) => {}
            Err(fault) => return Err(fault),
        }
    }
    Ok(())
}

/// The candidates of a join. The room, the rows and the cells sum to `whole` throughout.
pub(crate) fn add_pairs<A: Automaton>(
    alloc: Global,
    automaton: &mut A,
    op: &Op,
    left: &[Row],
    right: &[Row],
    whole: u64,
    found: &mut Found,
    room: &mut u64,
) -> Result<(), LeastFault>
    requires whole { whole ≡ room.old + length (rows_of found.old) + list_cells (parts (A.shape automaton.old)) (A.lists automaton.old) }
    requires whole_few { whole < 4294967296 }
    requires over { letters.IsOver (A.shape automaton.old) (A.field automaton.old) op.now.f }
    requires left { AreOperands (A.shape automaton.old) op.now.f op.now.op.t1 (A.lists automaton.old) (shown left.now) }
    requires left_light { AreLight (shown left.now) }
    requires few_left { length left.now < 4294967296 }
    requires right { AreOperands (A.shape automaton.old) op.now.f op.now.op.t2 (A.lists automaton.old) (shown right.now) }
    requires right_light { AreLight (shown right.now) }
    requires few { length right.now < 4294967296 }
    requires roomy { IsRoomy (A.shape automaton.old) (A.lists automaton.old) room.old }
    requires exact { IsExact (A.shape automaton.old) (A.lists automaton.old) }
    requires found { IsFound found.old }
    requires within { AreWithin (A.shape automaton.old) (A.lists automaton.old) (shown (rows_of found.old)) }
    requires listed { AreIn (A.shape automaton.old) (A.lists automaton.old) (names_of found.old) }
    ensures shape { A.shape automaton.new ≡ A.shape automaton.old }
    ensures field { A.field automaton.new ≡ A.field automaton.old }
    ensures marked { A.marked automaton.new ≡ A.marked automaton.old }
    ensures found { OnOk result (IsFound found.new) }
    ensures passes { Passes (A.shape automaton.old) (A.lists automaton.old) (A.lists automaton.new)
        (pairs_of (join_type op.now.f (A.shape automaton.old) op.now.op)
        (typed (A.shape automaton.old) (A.lists automaton.old) (shown left.now)) 0
        (typed (A.shape automaton.old) (A.lists automaton.old) (shown right.now)))
        (rows_of found.old) (rows_of found.new) room.old room.new result }
    ensures told { OnOk result (Told (A.shape automaton.old) (A.lists automaton.old) (A.lists automaton.new) (names_of found.old)
        (names_of found.new) (types_of (pairs_of (join_type op.now.f (A.shape automaton.old) op.now.op)
        (typed (A.shape automaton.old) (A.lists automaton.old) (shown left.now)) 0
        (typed (A.shape automaton.old) (A.lists automaton.old) (shown right.now))))) }
{
    match automaton.open(alloc, op) {
        Ok(()) => add_open_pairs(alloc, automaton, op, left, right, whole, found, room),
        Err(_) => Err(LeastFault::NoMemory),
    }
}
