//! The calls of an automaton, through its bound.

ghost use Rattle.std.specs.Prelude.{◌≡◌, ◌<◌, ◌^◌, IfSome};
ghost use Rattle.mm_field.specs.declared.Field.TheVariants.{Two};
ghost use Rattle.mm_logic.specs.Growth.{no_values};
ghost use Rattle.mm_states.specs.Letters.{IsLetter, IsOver};

use mm_field::Field;
use mm_ops::Op;
use mm_space::{Gen, Vector};
use mm_states::{AutoFault, Automaton, Letter, TypeId};
use std::alloc::Global;

/// More cells than any test needs.
pub const ROOM: u64 = 1_000;

/// What the calls of an automaton answer at a leaf, and at a join of two such leaves.
#[derive(Clone, Copy)]
pub struct Answered {
    /// The number of the leaf's type.
    pub leaf: TypeId,
    /// The number of the join's type.
    pub join: TypeId,
    /// The number of the join's type, asked once more after going back, of an automaton that was made ready for the operator.
    pub opened: TypeId,
    /// Whether the join's type is accepted.
    pub accepted: bool,
    /// The cells after both.
    pub cells: u64,
    /// The cells at the leaf, to which the automaton went back.
    pub leaf_cells: u64,
    /// The cells of a new one.
    pub fresh_cells: u64,
}

/// Calls an automaton without values at a leaf, and at a join of two such leaves; goes back to the leaf; and makes a new one.
pub fn answers_of<A: Automaton>(
    alloc: Global,
    automaton: &mut A,
    letter: &Letter,
    op: &Op,
) -> Result<Answered, AutoFault>
    requires letter { IsLetter letter.now }
    requires field { letter.now.field ≡ op.now.f }
    requires left { op.now.op.t1 ≡ letter.now.t }
    requires right { op.now.op.t2 ≡ letter.now.t }
    requires over { IsOver (A.shape automaton.old) (A.field automaton.old) letter.now.field }
    requires empty { A.lists automaton.old ≡ no_values (A.shape automaton.old) }
{
    let leaf = automaton.leaf(alloc, letter, ROOM)?;
    automaton.mark();
    let join = automaton.join(alloc, op, leaf, leaf, ROOM)?;
    let accepted = automaton.accepts(join);
    let cells = automaton.cells();
    automaton.roll_back();
    let leaf_cells = automaton.cells();
    let fresh_cells = cells_of_fresh(alloc, automaton)?;
    automaton.open(alloc, op)?;
    let opened = automaton.join_open(alloc, op, leaf, leaf, ROOM)?;
    Ok(Answered {
        leaf,
        join,
        opened,
        accepted,
        cells,
        leaf_cells,
        fresh_cells,
    })
}

// The cells of a new automaton of the same formula.
fn cells_of_fresh<A: Automaton>(alloc: Global, automaton: &A) -> Result<u64, AutoFault> {
    let fresh = automaton.fresh(alloc)?;
    Ok(fresh.cells())
}

/// A leaf with an element whose vector is 1.
pub fn element() -> Option<Letter>
    ensures letter { IfSome result (λ l. IsLetter l) }
    ensures field { IfSome result (λ l. l.field ≡ Two) }
    ensures boundary { IfSome result (λ l. l.t ≡ 1) }
{
    let vector = Vector::read(Field::Two, b"1")?;
    Some(Letter {
        field: Field::Two,
        t: 1,
        vec: Some(vector),
        marks: 0,
    })
}

/// The operator over GF(2) that puts two boundaries of one digit on one another.
pub fn onto_one_another() -> Option<Op>
    ensures field { IfSome result (λ op. op.f ≡ Two) }
    ensures left { IfSome result (λ op. op.op.t1 ≡ 1) }
    ensures right { IfSome result (λ op. op.op.t2 ≡ 1) }
{
    let matrix = Gen::read(Field::Two, b"1")?;
    Op::new(Field::Two, 1, 1, 1, 0, matrix, matrix).ok()
}

/// What the calls of an automaton over GF(2) without values answer at an element, and at a join of two.
pub fn on_elements<A: Automaton>(alloc: Global, automaton: A) -> Option<Answered>
    requires over { IsOver (A.shape automaton) (A.field automaton) Two }
    requires empty { A.lists automaton ≡ no_values (A.shape automaton) }
{
    let mut automaton = automaton;
    let letter = element()?;
    let op = onto_one_another()?;
    answers_of(alloc, &mut automaton, &letter, &op).ok()
}

/// What an automaton without values answers at a leaf, within room.
fn leaf_answer<A: Automaton>(
    alloc: Global,
    automaton: &mut A,
    letter: &Letter,
    room: u64,
) -> Result<TypeId, AutoFault>
    requires room { room < 2 ^ 32 }
    requires letter { IsLetter letter.now }
    requires over { IsOver (A.shape automaton.old) (A.field automaton.old) letter.now.field }
    requires empty { A.lists automaton.old ≡ no_values (A.shape automaton.old) }
{
    automaton.leaf(alloc, letter, room)
}

/// What an automaton over GF(2) without values answers at an element, within room.
pub fn leaf_within<A: Automaton>(
    alloc: Global,
    automaton: A,
    room: u64,
) -> Option<Result<TypeId, AutoFault>>
    requires room { room < 2 ^ 32 }
    requires over { IsOver (A.shape automaton) (A.field automaton) Two }
    requires empty { A.lists automaton ≡ no_values (A.shape automaton) }
{
    let mut automaton = automaton;
    let letter = element()?;
    Some(leaf_answer(alloc, &mut automaton, &letter, room))
}
