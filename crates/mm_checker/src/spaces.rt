//! Subspaces of a boundary, by the plain calls of `mm_space`: what the checker says of `ind`.

ghost use Rattle.std.specs.Prelude.{◌≡◌, ◌≤◌, ◌==◌, true, length};
ghost use Rattle.std.specs.List.{list_all};
ghost use Rattle.mm_field.specs.Vectors.{AreDigits};
ghost use Rattle.mm_logic.specs.BoundarySpaces.{ind_elem, ind_void, ind_join};
ghost use Rattle.mm_logic.specs.Value.{Value as value};
ghost use Rattle.mm_checker.specs.Claims.{atom_content};

use crate::Content;
use mm_field::Field;
use mm_ops::Op;
use mm_space::{Key, Space, Vector};

fn is_zero(vec: &Vector) -> bool
    ensures { result ≡ list_all (λ d. d == 0) vec.now }
{
    for k in 0..vec.len() {
        if vec.at(k) != 0 {
            return false;
        }
    }
    true
}

/// What `ind` says of an element that is in its term.
pub(crate) fn content_of_vector(f: Field, vec: &Vector) -> Content
    requires short { length vec.now ≤ 6 }
    requires digits { AreDigits f vec.now }
    ensures { result ≡ atom_content f (ind_elem f vec.now true) }
{
    if is_zero(vec) {
        return Content::Dead;
    }
    Content::Space(Key::span_of(f, vec))
}

/// What `ind` says of no element.
pub(crate) fn content_of_nothing(f: Field, t: u8) -> Content
    requires { t ≤ 6 }
    ensures { result ≡ atom_content f (ind_void f t) }
{
    Content::Space(Key::zero(f, t))
}

/// What `ind` says at a join of what it says of both parts.
pub(crate) fn join_spaces(op: &Op, left: &Key, right: &Key) -> Content
    requires left_field { left.now.f ≡ op.now.f }
    requires right_field { right.now.f ≡ op.now.f }
    requires left_boundary { left.now.t ≡ op.now.op.t1 }
    requires right_boundary { right.now.t ≡ op.now.op.t2 }
    ensures { result ≡ atom_content op.now.f
        (ind_join op.now.f op.now.op (value.Span left.now.t left.now.rows) (value.Span right.now.t right.now.rows)) }
{
    let f = op.field();
    let r = op.t3() + op.c();
    let first = Space::image(f, left, op.g1(), r);
    let second = Space::image(f, right, op.g2(), r);
    if !first.meets_only_in_zero(&second) {
        return Content::Dead;
    }
    Content::Space(first.sum(&second).preimage(op.g3(), op.t3()))
}
