//! What an operator makes of the types of two children.

ghost use Rattle.mm_least.specs.Transitions.{IsPlaceOf, ListsIds};

use crate::{LeastFault, Row};
use mm_states::TypeId;
use std::alloc::Global;
use std::marker::Model;

/// The types that an operator makes of the types of two children, each of them once; and for each type on the left and each on the right
/// the place of what is made of them, in a table where the pairs of the first type on the left come first.
#[derive(Drop)]
pub struct Transition {
    pub(crate) left: Vec<TypeId>,
    pub(crate) right: Vec<TypeId>,
    pub(crate) ids: Vec<TypeId>,
    pub(crate) table: Vec<u32>,
}

impl Model for Transition {
    ghost use Rattle.mm_least.specs.Transitions.{TransitionValue, transition_code};

    ghost Value = { TransitionValue };

    ghost coded = { transition_code };

    ghost view = { λ t. record { left = t.left.items; right = t.right.items; ids = t.ids.items; table = t.table.items } };
}

/// The numbers of the types of rows.
pub(crate) fn ids_of(alloc: Global, rows: &[Row]) -> Result<Vec<TypeId>, LeastFault>
    ensures { ListsIds rows.now result }
{
    let mut ids = Vec::new(alloc);
    for k in 0..rows.len() {
        if ids.push(rows[k].id).is_err() {
            return Err(LeastFault::NoMemory);
        }
    }
    Ok(ids)
}

/// A place of a number, sought at `guess` first.
pub(crate) fn place_near(ids: &[TypeId], id: TypeId, guess: usize) -> Option<usize>
    ensures { IsPlaceOf ids.now id result }
{
    if guess < ids.len() && ids[guess] == id {
        return Some(guess);
    }
    for k in 0..ids.len() {
        if ids[k] == id {
            return Some(k);
        }
    }
    None
}
