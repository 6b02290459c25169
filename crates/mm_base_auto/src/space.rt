//! The values of `ind`: Dead, or a subspace of the boundary.

ghost use Rattle.std.specs.Prelude.{◌≡◌, ◌≤◌, ◌==◌, true, [], length};
ghost use Rattle.std.specs.List.{list_all};
ghost use Rattle.mm_field.specs.Vectors.{AreDigits};
ghost use Rattle.mm_logic.specs.BoundarySpaces.{ind_elem, ind_void, ind_join};
ghost use Rattle.mm_logic.specs.Value.{Value as value};
ghost use Rattle.mm_base_auto.specs.Spaces.{ind_value, CanJoinSpaces, IsSpaceOver};

use mm_base::NoMemory;
use mm_combine::TableKey;
use mm_field::Field;
use mm_ops::Op;
use mm_space::{JoinRows, Key, Vector};
use std::alloc::Global;

/// A value of `ind`.
#[derive(Clone, Copy, PartialEq, Eq, Hash)]
pub(crate) enum IndValue {
    /// The elements are dependent.
    Dead,
    /// The boundary space of independent elements.
    Space(Key),
}

impl TableKey for IndValue {
    ghost use Rattle.mm_combine.specs.Sizes.{one_at_least};

    ghost size = { λ v. 1 };

    ghost some = { λ v. one_at_least 0 };

    fn cells(&self) -> u64 {
        1
    }

    fn copy(&self, _alloc: Global) -> Result<Self, NoMemory> {
        Ok(*self)
    }
}

/// The value of one element that is in the term: the multiples of its vector, or Dead for the zero vector.
pub(crate) fn span_value(f: Field, vec: &Vector) -> IndValue
    requires short { length vec.now ≤ 6 }
    requires digits { AreDigits f vec.now }
    ensures over { IsSpaceOver f result }
    ensures value { ind_value result ≡ ind_elem f vec.now true }
{
    if is_zero(vec) {
        return IndValue::Dead;
    }
    let key = Key::span_of(f, vec);
    let _t = key.t();
    IndValue::Space(key)
}

/// The value where no element is in the term: the zero space.
pub(crate) fn zero_value(f: Field, t: u8) -> IndValue
    requires { t ≤ 6 }
    ensures over { IsSpaceOver f result }
    ensures value { ind_value result ≡ ind_void f t }
{
    let key = Key::zero(f, t);
    let _t = key.t();
    IndValue::Space(key)
}

/// The value at a join.
pub(crate) fn joined(op: &Op, left: &IndValue, right: &IndValue, rows: &mut JoinRows) -> IndValue
    requires left { CanJoinSpaces op.now.f op.now.op.t1 left.now }
    requires right { CanJoinSpaces op.now.f op.now.op.t2 right.now }
    ensures over { IsSpaceOver op.now.f result }
    ensures value { ind_value result ≡ ind_join op.now.f op.now.op (ind_value left.now) (ind_value right.now) }
{
    match (left, right) {
        (IndValue::Space(left), IndValue::Space(right)) => joined_spaces(op, left, right, rows),
        _ => IndValue::Dead,
    }
}

fn joined_spaces(op: &Op, left: &Key, right: &Key, rows: &mut JoinRows) -> IndValue
    requires left_field { left.now.f ≡ op.now.f }
    requires right_field { right.now.f ≡ op.now.f }
    requires left_boundary { left.now.t ≡ op.now.op.t1 }
    requires right_boundary { right.now.t ≡ op.now.op.t2 }
    ensures over { IsSpaceOver op.now.f result }
    ensures value { ind_value result ≡
        ind_join op.now.f op.now.op (value.Span left.now.t left.now.rows) (value.Span right.now.t right.now.rows) }
{
    let _field = op.field();
    match op.join(left, right, rows) {
        Some(key) => {
            let _t = key.t();
            IndValue::Space(key)
        }
        None => IndValue::Dead,
    }
}

fn is_zero(vec: &Vector) -> bool
    ensures { result ≡ list_all (λ d. d == 0) vec.now }
{
    for k in 0..vec.len() {
        if vec.at(k) != 0 {
            return false;
        }
    }
    true
}
