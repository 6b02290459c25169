//! The kernels of linear algebra: sums and multiples of whole vectors, entry by entry.
//!
//! Each factor of each field has a loop of its own, without branches or tables, so that the compiler can work on many
//! entries at once.
#![tactic(auto)]

ghost use Rattle.std.specs.Prelude.{◌≡◌, ◌≢◌, ◌<◌, ◌≤◌, ◌*◌, ◌%◌, ◌↔◌, ℕ, length, slice_index, IsSome, IfSome, IfNone, All};
ghost use Rattle.mm_field.specs.Digits.{order, plus, times};
ghost use Rattle.mm_field.specs.Vectors.{AreDigits, vector_sum, multiple, zeros};

use crate::{Elt, Field};

/// Adds c times x to y, entry by entry.
#[inline(always)]
pub fn axpy(f: Field, c: Elt, x: &[u8], y: &mut [u8])
    requires same_length { length x.now ≡ length y.old }
    requires factor { c < order f }
    requires digits_x { AreDigits f x.now }
    requires digits_y { AreDigits f y.old }
    ensures { y.new ≡ vector_sum f y.old (multiple f c x.now) }
{
    if c == 0 {
        return;
    }
    match f {
        Field::Two => add_two(x, y),
        Field::Three => add_any_three(c, x, y),
        Field::Four => add_any_four(c, x, y),
        Field::Five => add_any_five(c, x, y),
    }
}

/// Makes x into c times x, entry by entry.
#[inline(always)]
pub fn scale(f: Field, c: Elt, x: &mut [u8])
    requires factor { c < order f }
    requires digits { AreDigits f x.old }
    ensures { x.new ≡ multiple f c x.old }
{
    if c == 1 {
        return;
    }
    for e in x.iter_mut() {
        *e = f.mul(c, *e);
    }
}

/// The least place with a digit other than 0. None exactly where all digits are 0.
#[inline(always)]
pub fn first_nonzero(x: &[u8]) -> Option<usize>
    ensures found { IfSome result (λ p. (p < length x.now) × (slice_index x.now p ≢ 0)) }
    ensures least { IfSome result (λ p. (k : ℕ) → k < p → slice_index x.now k ≡ 0) }
    ensures none { IfNone result (x.now ≡ zeros (length x.now)) }
{
    for (i, d) in x.iter().enumerate() {
        if *d != 0 {
            return Some(i);
        }
    }
    None
}

// Over GF(2), where the only factor other than 0 is 1.
#[inline(always)]
fn add_two(x: &[u8], y: &mut [u8])
    requires same_length { length x.now ≡ length y.old }
    requires digits_x { AreDigits Field.Two x.now }
    requires digits_y { AreDigits Field.Two y.old }
    ensures { y.new ≡ vector_sum Field.Two y.old (multiple Field.Two 1 x.now) }
{
    for i in 0..x.len() {
        y[i] = sum_two(x[i], y[i]);
    }
}

// Over GF(3), a loop for each factor other than 0.
#[inline(always)]
fn add_any_three(c: Elt, x: &[u8], y: &mut [u8])
    requires same_length { length x.now ≡ length y.old }
    requires factor { c < 3 }
    requires nonzero { c ≢ 0 }
    requires digits_x { AreDigits Field.Three x.now }
    requires digits_y { AreDigits Field.Three y.old }
    ensures { y.new ≡ vector_sum Field.Three y.old (multiple Field.Three c x.now) }
{
    match c {
        1 => add_three(1, x, y),
        _ => add_three(2, x, y),
    }
}

// One loop, for a factor that the caller writes out.
#[inline(always)]
fn add_three(c: Elt, x: &[u8], y: &mut [u8])
    requires same_length { length x.now ≡ length y.old }
    requires factor { c < 3 }
    requires nonzero { c ≢ 0 }
    requires digits_x { AreDigits Field.Three x.now }
    requires digits_y { AreDigits Field.Three y.old }
    ensures { y.new ≡ vector_sum Field.Three y.old (multiple Field.Three c x.now) }
{
    for i in 0..x.len() {
        y[i] = sum_three(c, x[i], y[i]);
    }
}

// Over GF(4), a loop for each factor other than 0.
#[inline(always)]
fn add_any_four(c: Elt, x: &[u8], y: &mut [u8])
    requires same_length { length x.now ≡ length y.old }
    requires factor { c < 4 }
    requires nonzero { c ≢ 0 }
    requires digits_x { AreDigits Field.Four x.now }
    requires digits_y { AreDigits Field.Four y.old }
    ensures { y.new ≡ vector_sum Field.Four y.old (multiple Field.Four c x.now) }
{
    match c {
        1 => add_four(1, x, y),
        2 => add_four(2, x, y),
        _ => add_four(3, x, y),
    }
}

// One loop, for a factor that the caller writes out.
#[inline(always)]
fn add_four(c: Elt, x: &[u8], y: &mut [u8])
    requires same_length { length x.now ≡ length y.old }
    requires factor { c < 4 }
    requires nonzero { c ≢ 0 }
    requires digits_x { AreDigits Field.Four x.now }
    requires digits_y { AreDigits Field.Four y.old }
    ensures { y.new ≡ vector_sum Field.Four y.old (multiple Field.Four c x.now) }
{
    for i in 0..x.len() {
        y[i] = sum_four(c, x[i], y[i]);
    }
}

// Over GF(5), a loop for each factor other than 0.
#[inline(always)]
fn add_any_five(c: Elt, x: &[u8], y: &mut [u8])
    requires same_length { length x.now ≡ length y.old }
    requires factor { c < 5 }
    requires nonzero { c ≢ 0 }
    requires digits_x { AreDigits Field.Five x.now }
    requires digits_y { AreDigits Field.Five y.old }
    ensures { y.new ≡ vector_sum Field.Five y.old (multiple Field.Five c x.now) }
{
    match c {
        1 => add_five(1, x, y),
        2 => add_five(2, x, y),
        3 => add_five(3, x, y),
        _ => add_five(4, x, y),
    }
}

// One loop, for a factor that the caller writes out.
#[inline(always)]
fn add_five(c: Elt, x: &[u8], y: &mut [u8])
    requires same_length { length x.now ≡ length y.old }
    requires factor { c < 5 }
    requires nonzero { c ≢ 0 }
    requires digits_x { AreDigits Field.Five x.now }
    requires digits_y { AreDigits Field.Five y.old }
    ensures { y.new ≡ vector_sum Field.Five y.old (multiple Field.Five c x.now) }
{
    for i in 0..x.len() {
        y[i] = sum_five(c, x[i], y[i]);
    }
}

// b + a over GF(2).
#[inline(always)]
fn sum_two(a: Elt, b: Elt) -> Elt
    requires left { a < 2 }
    requires right { b < 2 }
    ensures { result ≡ plus Field.Two b (times Field.Two 1 a) }
{
    b ^ a
}

// b + c*a over GF(3), where c is 1 or 2.
#[inline(always)]
fn sum_three(c: Elt, a: Elt, b: Elt) -> Elt
    requires factor { c < 3 }
    requires nonzero { c ≢ 0 }
    requires left { a < 3 }
    requires right { b < 3 }
    ensures { result ≡ plus Field.Three b (times Field.Three c a) }
{
    less_three(b + times_three(c, a))
}

// c*a, up to a multiple of 3.
#[inline(always)]
fn times_three(c: Elt, a: Elt) -> Elt
    requires factor { c < 3 }
    requires nonzero { c ≢ 0 }
    requires digit { a < 3 }
    ensures small { result ≤ 3 }
    ensures product { result % 3 ≡ c * a % 3 }
{
    match c {
        1 => a,
        _ => 3 - a,
    }
}

// s modulo 3.
#[inline(always)]
fn less_three(s: Elt) -> Elt
    requires { s < 6 }
    ensures { result ≡ s % 3 }
{
    if s >= 3 { s - 3 } else { s }
}

// b + c*a over GF(4), where c is not 0.
#[inline(always)]
fn sum_four(c: Elt, a: Elt, b: Elt) -> Elt
    requires factor { c < 4 }
    requires nonzero { c ≢ 0 }
    requires left { a < 4 }
    requires right { b < 4 }
    ensures { result ≡ plus Field.Four b (times Field.Four c a) }
{
    b ^ times_four(c, a)
}

// c*a over GF(4), where c is not 0.
#[inline(always)]
fn times_four(c: Elt, a: Elt) -> Elt
    requires factor { c < 4 }
    requires nonzero { c ≢ 0 }
    requires digit { a < 4 }
    ensures small { result < 4 }
    ensures product { result ≡ times Field.Four c a }
{
    let twice = twice_four(a);
    if c == 2 {
        return twice;
    }
    if c == 3 { a ^ twice } else { a }
}

// 2*a over GF(4): the high bit of a, times 2, becomes 3.
#[inline(always)]
fn twice_four(a: Elt) -> Elt
    requires { a < 4 }
    ensures small { result < 4 }
    ensures product { result ≡ times Field.Four 2 a }
{
    if a >= 2 { (a + a) ^ 7 } else { a + a }
}

// b + c*a over GF(5), where c is not 0.
#[inline(always)]
fn sum_five(c: Elt, a: Elt, b: Elt) -> Elt
    requires factor { c < 5 }
    requires nonzero { c ≢ 0 }
    requires left { a < 5 }
    requires right { b < 5 }
    ensures { result ≡ plus Field.Five b (times Field.Five c a) }
{
    less_five(b + times_five(c, a))
}

// c*a, up to a multiple of 5.
#[inline(always)]
fn times_five(c: Elt, a: Elt) -> Elt
    requires factor { c < 5 }
    requires nonzero { c ≢ 0 }
    requires digit { a < 5 }
    ensures small { result ≤ 5 }
    ensures product { result % 5 ≡ c * a % 5 }
{
    match c {
        1 => a,
        2 => less_five(a + a),
        3 => 5 - less_five(a + a),
        _ => 5 - a,
    }
}

// s modulo 5.
#[inline(always)]
fn less_five(s: Elt) -> Elt
    requires { s < 10 }
    ensures { result ≡ s % 5 }
{
    if s >= 5 { s - 5 } else { s }
}
