//! The rows of one node.

ghost use Rattle.std.specs.Prelude.{◌≡◌, ◌<◌, ◌≤◌, ◌+◌, ℕ, List, [], ◌∷◌, length, true, refl};
ghost use Rattle.mm_logic.specs.Formula.{Formula};
ghost use Rattle.mm_logic.specs.Operator.{Op};
ghost use Rattle.mm_logic.specs.Value.{Value};
ghost use Rattle.mm_logic.specs.StateSize.{Query};
ghost use Rattle.mm_logic.specs.StateSize.Query.{Least};
ghost use Rattle.mm_logic.specs.JoinRule.{all_pairs, join_type};
ghost use Rattle.mm_logic_laws.specs.ValueLaws.{types_by_rules};
ghost use Rattle.mm_states.specs.Letters as letters;
ghost use Rattle.mm_states.specs.Calls.{IsRoomy};
ghost use Rattle.mm_tree.specs.NamedTree.{Tree, shape};
ghost use Rattle.mm_tree.specs.Nodes.{named_leaf};
ghost use Rattle.mm_nodes.specs.Demands.{Frame, IsExact, frame};
ghost use Rattle.mm_nodes.specs.Calls.{CanMakeLeaf};
ghost use Rattle.mm_least.specs.Rows.{shown};
ghost use Rattle.mm_least.specs.FoundTypes.{IsFound, rows_of};
ghost use Rattle.mm_least.specs.RowLaws.{ShowSame, asks, leaf_has, join_has, fits, leaf_stays, join_stays};
ghost use Rattle.mm_least.specs.RowLaws.{same_left, same_right, same_itself, knows_join, knows_stays};
ghost use Rattle.mm_least.specs.RowCalls.{IsLeafRows, IsJoinRows, CanBeJoined, MakesRows, IsNodeOf, IsNodeAgain};
ghost use Rattle.mm_least.specs.RowCalls.{KnowsJoins, row_types, element_name};

use crate::empty::{place_from, place_from_both, same_place};
use crate::found::Found;
use crate::known::known_rows;
use crate::log::standing;
use crate::pass::{add_leaf, add_pairs};
use crate::row::show_same;
use crate::transition::{Transition, ids_of};
use crate::{LeastFault, Origin, Row};
use mm_base::{Name, Steps};
use mm_nodes::Keeps;
use mm_ops::Op;
use mm_states::Automaton;
use mm_tree::Leaf;
use std::alloc::Global;
use std::marker::Model;
use std::rc::Rc;
use std::sync::ledger::Ledger;

/// One row for each type at a node, in the order of the leaf words of their sets; the name of the element of a leaf; at a join the types
/// that its operator made; and the place of the row whose set is empty, if there is one. It is made for a node, with one step, and never
/// copied; what it knows of its operator may be shared.
#[derive(Drop)]
pub struct NodeRows {
    pub(crate) name: Option<Name>,
    pub(crate) rows: Vec<Row>,
    pub(crate) known: Option<Rc<Transition>>,
    pub(crate) nothing: Option<u32>,
}

impl Model for NodeRows {
    ghost use Rattle.std.specs.Prelude.{ℕ, ◌<◌, length};
    ghost use Rattle.std.specs.Option.{option_map};
    ghost use Rattle.mm_least.specs.NodeRowsValue.{NodeValue, node_code};

    ghost Value = { NodeValue };

    ghost coded = { node_code };

    ghost view = { λ s. record { name = s.name; rows = s.rows.items; known = option_map (λ t. t.value) s.known; nothing = s.nothing } };

    ghost invariant = { λ s. length s.rows.items < 4294967296 };
}

impl NodeRows {
    /// The rows of a leaf. `Full` exactly where the missing cells and the rows exceed the room.
    pub fn leaf<A: Automaton, L: Ledger>(
        alloc: Global,
        automaton: &mut A,
        leaf: &Leaf,
        room: u64,
        steps: &mut Steps<L>,
    ) -> Result<NodeRows, LeastFault>
        requires leaf { CanMakeLeaf (A.shape automaton.old) (A.field automaton.old) (A.lists automaton.old) leaf.now room }
        requires exact { IsExact (A.shape automaton.old) (A.lists automaton.old) }
        ensures shape { A.shape automaton.new ≡ A.shape automaton.old }
        ensures field { A.field automaton.new ≡ A.field automaton.old }
        ensures marked { A.marked automaton.new ≡ A.marked automaton.old }
        ensures tick { steps.new ≡ steps.old + 1 }
        ensures makes { MakesRows (A.shape automaton.old) (A.lists automaton.old) (A.lists automaton.new)
            (IsLeafRows (frame leaf.now.field (A.shape automaton.old) (A.lists automaton.new)) (named_leaf leaf.now))
            (types_by_rules leaf.now.field (Least (A.shape automaton.old)) (shape (named_leaf leaf.now))) room result }
    {
        steps.tick();
        let mut rows = Vec::new(alloc);
        let mut left = room;
        match add_leaf(alloc, automaton, leaf, &mut rows, &mut left) {
            Ok(()) => {
                let nothing = place_from(&rows, Origin::Out);
                Ok(NodeRows {
                    name: name_of(leaf),
                    rows,
                    known: None,
                    nothing,
                })
            }
            Err(fault) => Err(fault),
        }
    }

    /// The rows of a join. `Full` exactly where the missing cells and the rows exceed the room.
    pub fn join<A: Automaton, L: Ledger>(
        alloc: Global,
        automaton: &mut A,
        op: &Op,
        left: &NodeRows,
        right: &NodeRows,
        room: u64,
        steps: &mut Steps<L>,
    ) -> Result<NodeRows, LeastFault>
        requires over { letters.IsOver (A.shape automaton.old) (A.field automaton.old) op.now.f }
        requires left { CanBeJoined (frame op.now.f (A.shape automaton.old) (A.lists automaton.old)) op.now.op.t1 left.now }
        requires right { CanBeJoined (frame op.now.f (A.shape automaton.old) (A.lists automaton.old)) op.now.op.t2 right.now }
        requires roomy { IsRoomy (A.shape automaton.old) (A.lists automaton.old) room }
        requires exact { IsExact (A.shape automaton.old) (A.lists automaton.old) }
        ensures shape { A.shape automaton.new ≡ A.shape automaton.old }
        ensures field { A.field automaton.new ≡ A.field automaton.old }
        ensures marked { A.marked automaton.new ≡ A.marked automaton.old }
        ensures tick { steps.new ≡ steps.old + 1 }
        ensures makes { MakesRows (A.shape automaton.old) (A.lists automaton.old) (A.lists automaton.new)
            (IsJoinRows (frame op.now.f (A.shape automaton.old) (A.lists automaton.new)) op.now.op left.now right.now)
            (all_pairs (join_type op.now.f (A.shape automaton.old) op.now.op)
            (row_types (frame op.now.f (A.shape automaton.old) (A.lists automaton.old)) left.now)
            (row_types (frame op.now.f (A.shape automaton.old) (A.lists automaton.old)) right.now)) room result }
    {
        steps.tick();
        let mut found = Found::new(alloc);
        let mut rest = room;
        let whole = room + automaton.cells();
        match add_pairs(
            alloc,
            automaton,
            op,
            &left.rows,
            &right.rows,
            whole,
            &mut found,
            &mut rest,
        ) {
            Ok(()) => joined(
                alloc,
                &left.rows,
                &right.rows,
                left.nothing,
                right.nothing,
                found,
            ),
            Err(fault) => Err(fault),
        }
    }

    /// The rows of a join, by what is known of joins by the same operator. `Full` exactly where the missing cells and the rows exceed
    /// the room.
    pub fn rejoin<A: Automaton, L: Ledger>(
        alloc: Global,
        automaton: &mut A,
        op: &Op,
        left: &NodeRows,
        right: &NodeRows,
        known: &NodeRows,
        room: u64,
        steps: &mut Steps<L>,
    ) -> Result<NodeRows, LeastFault>
        requires over { letters.IsOver (A.shape automaton.old) (A.field automaton.old) op.now.f }
        requires left { CanBeJoined (frame op.now.f (A.shape automaton.old) (A.lists automaton.old)) op.now.op.t1 left.now }
        requires right { CanBeJoined (frame op.now.f (A.shape automaton.old) (A.lists automaton.old)) op.now.op.t2 right.now }
        requires known { KnowsJoins (frame op.now.f (A.shape automaton.old) (A.lists automaton.old)) op.now.op known.now }
        requires roomy { IsRoomy (A.shape automaton.old) (A.lists automaton.old) room }
        requires exact { IsExact (A.shape automaton.old) (A.lists automaton.old) }
        ensures shape { A.shape automaton.new ≡ A.shape automaton.old }
        ensures field { A.field automaton.new ≡ A.field automaton.old }
        ensures marked { A.marked automaton.new ≡ A.marked automaton.old }
        ensures tick { steps.new ≡ steps.old + 1 }
        ensures makes { MakesRows (A.shape automaton.old) (A.lists automaton.old) (A.lists automaton.new)
            (IsJoinRows (frame op.now.f (A.shape automaton.old) (A.lists automaton.new)) op.now.op left.now right.now)
            (all_pairs (join_type op.now.f (A.shape automaton.old) op.now.op)
            (row_types (frame op.now.f (A.shape automaton.old) (A.lists automaton.old)) left.now)
            (row_types (frame op.now.f (A.shape automaton.old) (A.lists automaton.old)) right.now)) room result }
    {
        let Some(transition) = &known.known else {
            return NodeRows::join(alloc, automaton, op, left, right, room, steps);
        };
        match known_rows(alloc, &left.rows, &right.rows, transition) {
            Ok(Some(rows)) => {
                steps.tick();
                joined_again(rows, transition, left.nothing, right.nothing, room)
            }
            Ok(None) => NodeRows::join(alloc, automaton, op, left, right, room, steps),
            Err(fault) => {
                steps.tick();
                Err(fault)
            }
        }
    }
}

impl Keeps for NodeRows {
    ghost query = { Least };

    ghost types = { row_types };

    ghost rows = { λ n. length n.rows };

    ghost IsLeaf = { IsLeafRows };

    ghost IsJoin = { IsJoinRows };

    ghost Knows = { KnowsJoins };

    ghost Same = { ShowSame };

    ghost Fits = { CanBeJoined };

    fn leaf<A: Automaton, L: Ledger>(
        alloc: Global,
        automaton: &mut A,
        leaf: &Leaf,
        room: u64,
        steps: &mut Steps<L>,
    ) -> Result<NodeRows, LeastFault> {
        NodeRows::leaf(alloc, automaton, leaf, room, steps)
    }

    fn join<A: Automaton, L: Ledger>(
        alloc: Global,
        automaton: &mut A,
        op: &Op,
        left: &NodeRows,
        right: &NodeRows,
        room: u64,
        steps: &mut Steps<L>,
    ) -> Result<NodeRows, LeastFault> {
        NodeRows::join(alloc, automaton, op, left, right, room, steps)
    }

    fn rejoin<A: Automaton, L: Ledger>(
        alloc: Global,
        automaton: &mut A,
        op: &Op,
        left: &NodeRows,
        right: &NodeRows,
        known: &NodeRows,
        room: u64,
        steps: &mut Steps<L>,
    ) -> Result<NodeRows, LeastFault> {
        NodeRows::rejoin(alloc, automaton, op, left, right, known, room, steps)
    }

    fn row_count(&self) -> u32 {
        self.rows.len() as u32
    }

    fn looks_same(&self, other: &NodeRows) -> bool {
        show_same(&self.rows, &other.rows) && same_place(self.nothing, other.nothing)
    }

    fn sketch(&self, alloc: Global) -> Option<NodeRows> {
        let Some(transition) = &self.known else {
            return None;
        };
        match transition.clone() {
            Ok(transition) => Some(NodeRows {
                name: None,
                rows: Vec::new(alloc),
                known: Some(transition),
                nothing: None,
            }),
            Err(_) => None,
        }
    }

    ghost asks = { asks };

    ghost leaf_has = { leaf_has };

    ghost join_has = { join_has };

    ghost fits = { fits };

    ghost leaf_stays = { leaf_stays };

    ghost join_stays = { join_stays };

    ghost same_left = { same_left };

    ghost same_right = { same_right };

    ghost same_itself = { same_itself };

    ghost knows_join = { knows_join };

    ghost knows_stays = { knows_stays };
}

/// The name of the element of a leaf.
fn name_of(leaf: &Leaf) -> Option<Name>
    ensures { result ≡ element_name (named_leaf leaf.now) }
{
    match leaf.item {
        Some(_) => Some(leaf.name),
        None => None,
    }
}

/// No more pairs of types are kept at a node.
const MOST_PAIRS: usize = 16384;

/// The node of a join by what was found for its pairs.
fn joined(
    alloc: Global,
    left: &[Row],
    right: &[Row],
    nothing_left: Option<u32>,
    nothing_right: Option<u32>,
    found: Found,
) -> Result<NodeRows, LeastFault>
    requires found { IsFound found }
    requires few { length (rows_of found) < 4294967296 }
    ensures { IsNodeOf (rows_of found) left.now right.now nothing_left nothing_right found.ids.items found.table.items result }
{
    let rows = match standing(alloc, &found.lasts, &found.log) {
        Ok(rows) => rows,
        Err(fault) => return Err(fault),
    };
    let nothing = place_from_both(nothing_left, nothing_right, &rows);
    let name = None;
    if found.table.len() > MOST_PAIRS {
        let known = None;
        return Ok(NodeRows {
            name,
            rows,
            known,
            nothing,
        });
    }
    let left = match ids_of(alloc, left) {
        Ok(ids) => ids,
        Err(fault) => return Err(fault),
    };
    let right = match ids_of(alloc, right) {
        Ok(ids) => ids,
        Err(fault) => return Err(fault),
    };
    let Found { ids, table, .. } = found;
    let transition = Transition {
        left,
        right,
        ids,
        table,
    };
    match Rc::new(alloc, transition) {
        Ok(transition) => {
            let known = Some(transition);
            Ok(NodeRows {
                name,
                rows,
                known,
                nothing,
            })
        }
        Err(_) => Err(LeastFault::NoMemory),
    }
}

/// The node of a join by its rows and a transition that was known, where the rows are within the room.
fn joined_again(
    rows: Vec<Row>,
    transition: &Rc<Transition>,
    nothing_left: Option<u32>,
    nothing_right: Option<u32>,
    room: u64,
) -> Result<NodeRows, LeastFault>
    requires { room < 4294967296 }
    ensures { IsNodeAgain rows.items transition.now.value nothing_left nothing_right room result }
{
    if rows.len() as u64 > room {
        return Err(LeastFault::Full);
    }
    let nothing = place_from_both(nothing_left, nothing_right, &rows);
    match transition.clone() {
        Ok(transition) => {
            let name = None;
            let known = Some(transition);
            Ok(NodeRows {
                name,
                rows,
                known,
                nothing,
            })
        }
        Err(_) => Err(LeastFault::NoMemory),
    }
}
