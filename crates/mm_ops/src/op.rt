//! Operators: how two parts of a matroid are joined along their boundaries.

ghost use Rattle.std.specs.Prelude.{◌≡◌, ◌≤◌, ◌+◌, ◌&&◌, nat_le, All, map};
ghost use Rattle.std.specs.List.{range_with_len};
ghost use Rattle.mm_field.specs.Vectors.{AreDigits, AreVectors};
ghost use Rattle.mm_linear.specs.Coordinates.{unit};
ghost use Rattle.mm_logic.specs.Operator.{IsValidOp};
ghost use Rattle.mm_ops.specs.OpFaults.{Makes, first_dependent, has_shape};
ghost use Rattle.mm_ops.specs.OpValue.{form_of, operator};
ghost use Rattle.mm_space.specs.JoinForms.{Joins};

use crate::independence::are_independent;
use mm_field::Field;
use mm_space::{Gen, JoinForm, JoinRows, Key, first_units};
use std::marker::Model;
use thiserror::Error;

/// The most digits of a boundary.
const MAX_BOUNDARY: u32 = 6;

/// The most internal digits of a join.
const MAX_INTERNAL: u32 = 12;

/// Why numbers and matrices are no valid operator, the first that applies.
#[derive(Clone, Copy, Debug, PartialEq, Eq, Error)]
pub enum OpFault {
    /// A boundary is above 6, or c is above 12.
    #[error("a boundary or c is above its limit")]
    Bound,
    /// G1, G2 or G3 has not t1, t2 or t3 rows of t3 + c digits each.
    #[error("a matrix has the wrong shape")]
    Shape,
    /// The rows of G1, G2 or G3 are dependent; the number of the first such matrix, from 1.
    #[error("the rows of a matrix are dependent")]
    Dependent(u8),
}

/// A valid operator: boundaries t1, t2 and t3 of at most 6 digits, c of at most 12, and three matrices G1, G2 and G3 with t1, t2
/// and t3 independent rows of t3 + c digits. A boundary vector b of the left part lies at b times G1 in the space of the join,
/// one of the right part at b times G2, and one of the join at b times G3.
#[derive(Clone, Copy, Debug, PartialEq, Eq, Hash)]
pub struct Op {
    t1: u8,
    t2: u8,
    t3: u8,
    c: u8,
    // The field and the matrices, ready to join keys.
    form: JoinForm,
}

impl Model for Op {
    ghost use Rattle.mm_ops.specs.OpValue.{OpValue};

    ghost Value = { OpValue };

    ghost use Rattle.mm_ops.specs.OpView.{value_of, inside_of, with_length, IsKept};
    ghost use Rattle.std.proofs.Common.{ap};

    ghost view = { value_of };

    ghost invariant = { IsKept };

    ghost inverse = { inside_of };

    ghost inverse_ok = { λ a h. ap (with_length a) h.length };
}

impl Op {
    /// The operator of these numbers and matrices, or the first fault that it has.
    #[tactic(auto, unfolding(crate::specs::OpFaults::fault_of))]
    pub fn with_boundary(
        f: Field,
        t1: u32,
        t2: u32,
        t3: u32,
        c: u32,
        g1: Gen,
        g2: Gen,
        g3: Gen,
    ) -> Result<Op, OpFault>
        requires first { All (λ v. AreDigits f v) g1 }
        requires second { All (λ v. AreDigits f v) g2 }
        requires third { All (λ v. AreDigits f v) g3 }
        ensures { Makes f (operator t1 t2 t3 c g1 g2 g3) result }
    {
        if !is_within_bounds(t1, t2, t3, c) {
            return Err(OpFault::Bound);
        }
        let (t1, t2, t3, c) = (t1 as u8, t2 as u8, t3 as u8, c as u8);
        let r = t3 + c;
        if !has_shape(&g1, t1, r) || !has_shape(&g2, t2, r) || !has_shape(&g3, t3, r) {
            return Err(OpFault::Shape);
        }
        if let Some(k) = first_dependent(f, r, &g1, &g2, &g3) {
            return Err(OpFault::Dependent(k));
        }
        Ok(Op::of_valid(f, t1, t2, t3, c, g1, g2, g3))
    }

    // The operator of numbers and matrices that are valid.
    fn of_valid(f: Field, t1: u8, t2: u8, t3: u8, c: u8, g1: Gen, g2: Gen, g3: Gen) -> Op
        requires { IsValidOp f (operator t1 t2 t3 c g1 g2 g3) }
        ensures { result ≡ record { f = f; op = operator t1 t2 t3 c g1 g2 g3 } }
    {
        Op {
            t1,
            t2,
            t3,
            c,
            form: JoinForm::new(f, t3 + c, g1, g2, g3),
        }
    }

    /// The operator whose third matrix is the first t3 unit vectors, or the first fault that it has.
    #[tactic(auto, unfolding(crate::specs::OpFaults::fault_of))]
    pub fn new(f: Field, t1: u32, t2: u32, t3: u32, c: u32, g1: Gen, g2: Gen) -> Result<Op, OpFault>
        requires first { All (λ v. AreDigits f v) g1 }
        requires second { All (λ v. AreDigits f v) g2 }
        ensures { Makes f (operator t1 t2 t3 c g1 g2 (map (unit (t3 + c)) (range_with_len 0 t3))) result }
    {
        if !is_within_bounds(t1, t2, t3, c) {
            return Err(OpFault::Bound);
        }
        Op::with_boundary(
            f,
            t1,
            t2,
            t3,
            c,
            g1,
            g2,
            first_units(t3 as u8, (t3 + c) as u8),
        )
    }

    /// The field of the digits. Every operator is valid over its field.
    pub fn field(&self) -> Field
        ensures field { result ≡ self.now.f }
        ensures valid { IsValidOp self.now.f self.now.op }
    {
        self.form.field()
    }

    /// The boundary of the left part.
    pub fn t1(&self) -> u8
        ensures { result ≡ self.now.op.t1 }
    {
        self.t1
    }

    /// The boundary of the right part.
    pub fn t2(&self) -> u8
        ensures { result ≡ self.now.op.t2 }
    {
        self.t2
    }

    /// The boundary of the join.
    pub fn t3(&self) -> u8
        ensures { result ≡ self.now.op.t3 }
    {
        self.t3
    }

    /// How many internal digits the join adds.
    pub fn c(&self) -> u8
        ensures { result ≡ self.now.op.c }
    {
        self.c
    }

    /// Where the boundary of the left part lies.
    pub fn g1(&self) -> &Gen
        ensures { result.now ≡ self.now.op.g1 }
    {
        self.form.g1()
    }

    /// Where the boundary of the right part lies.
    pub fn g2(&self) -> &Gen
        ensures { result.now ≡ self.now.op.g2 }
    {
        self.form.g2()
    }

    /// Where the boundary of the join lies.
    pub fn g3(&self) -> &Gen
        ensures { result.now ≡ self.now.op.g3 }
    {
        self.form.g3()
    }

    /// The boundary space of a join from those of its parts: the key of all b such that b*G3 is in the sum of the images of the left
    /// key under G1 and of the right key under G2. None exactly where a vector other than zero is in both images. The rows are
    /// room to work in, and what they held before does not matter.
    #[inline]
    pub fn join(&self, left: &Key, right: &Key, rows: &mut JoinRows) -> Option<Key>
        requires left_field { left.now.f ≡ self.now.f }
        requires right_field { right.now.f ≡ self.now.f }
        requires left_boundary { left.now.t ≡ self.now.op.t1 }
        requires right_boundary { right.now.t ≡ self.now.op.t2 }
        ensures { Joins (form_of self.now) left.now right.now result }
    {
        self.form.join(left, right, rows)
    }
}

/// Whether the boundaries are at most 6 and c is at most 12.
fn is_within_bounds(t1: u32, t2: u32, t3: u32, c: u32) -> bool
    ensures { result ≡ (nat_le t1 6 && nat_le t2 6 && nat_le t3 6 && nat_le c 12) }
{
    t1 <= MAX_BOUNDARY && t2 <= MAX_BOUNDARY && t3 <= MAX_BOUNDARY && c <= MAX_INTERNAL
}

/// The first of three matrices with rows of r digits, counted from 1, whose rows are dependent.
fn first_dependent(f: Field, r: u8, g1: &Gen, g2: &Gen, g3: &Gen) -> Option<u8>
    requires short { r ≤ 18 }
    requires first { AreVectors f r g1.now }
    requires second { AreVectors f r g2.now }
    requires third { AreVectors f r g3.now }
    ensures { result ≡ first_dependent f r g1.now g2.now g3.now }
{
    if !are_independent(f, r, g1) {
        Some(1)
    } else if !are_independent(f, r, g2) {
        Some(2)
    } else if !are_independent(f, r, g3) {
        Some(3)
    } else {
        None
    }
}

/// Whether `g` has t rows of r digits each.
fn has_shape(g: &Gen, t: u8, r: u8) -> bool
    ensures { result ≡ has_shape t r g.now }
{
    if g.rows() != t {
        return false;
    }
    for k in 0..t {
        if g.row(k).len() != r {
            return false;
        }
    }
    true
}
