//! Times what a join of types costs in algebra: by two images, whether they meet, their sum and its preimage, and by one
//! elimination.
//!
//! `bench_space Q T ROUNDS MODE` joins ROUNDS times over GF(Q) at boundary T, with matrices of 2T columns and keys of T/2 and of T
//! basis rows by turns: by the calls one after another (MODE 0), by one elimination (1), or by both, which are compared (2). It
//! prints how often the key found was another than before. `bench/space.sh` takes the time.
#![tactic(auto)]

ghost use Rattle.std.specs.Prelude.{◌≡◌, ◌<◌, ◌≤◌, ◌+◌, ◌*◌, length, IfSome};
ghost use Rattle.mm_field.specs.Vectors.{AreVectors};

use mm_field::Field;
use mm_ops::Op;
use mm_space::{Gen, JoinRows, Key, Space, Vector};
use std::{env, io};

// A matrix of t rows and 2t columns: a unit matrix from column `from` on, and elsewhere pseudo-random digits where `from` is 0.
fn drawn(f: Field, t: u8, from: u8, seed: &mut u64) -> Option<Gen>
    requires { t ≤ 6 }
    ensures { IfSome result (λ g. (length g ≡ t) × AreVectors f (2 * t) g) }
{
    let mut text = [b'/'; 128];
    let mut len = 0;
    for i in 0..t {
        for j in 0..2 * t {
            *seed = seed
                .wrapping_mul(6364136223846793005)
                .wrapping_add(1442695040888963407);
            if len < 128 {
                text[len] = b'0' + entry(f, t, from, i, j, *seed);
                len += 1;
            }
        }
        if i + 1 < t && len < 128 {
            len += 1;
        }
    }
    if len <= 128 {
        matrix(f, t, &text[..len])
    } else {
        None
    }
}

// The digit in row i and column j.
fn entry(f: Field, t: u8, from: u8, i: u8, j: u8, drawn: u64) -> u8
    ensures { result < 5 }
{
    if from <= j && j - from < t {
        if j - from == i { 1 } else { 0 }
    } else if from > 0 {
        0
    } else {
        ((drawn >> 33) % f.q() as u64) as u8
    }
}

// The t rows of 2t digits that the text shows.
fn matrix(f: Field, t: u8, text: &[u8]) -> Option<Gen>
    requires { t ≤ 6 }
    ensures { IfSome result (λ g. (length g ≡ t) × AreVectors f (2 * t) g) }
{
    match Gen::read(f, text) {
        Some(g) => {
            if g.rows() != t {
                return None;
            }
            for k in 0..t {
                if g.row(k).len() != 2 * t {
                    return None;
                }
            }
            Some(g)
        }
        None => None,
    }
}

// The span of the first k unit vectors of F^t.
fn first_units(f: Field, t: u8, k: u8) -> Key
    requires { t ≤ 6 }
    ensures field { result.f ≡ f }
    ensures length { result.t ≡ t }
{
    let mut space = Space::zero(f, t);
    for i in 0..t {
        if i < k {
            let mut text = [b'0'; 6];
            text[i as usize] = b'1';
            if let Some(v) = Vector::read(f, &text[..t as usize]) {
                if v.len() == t {
                    space.add_vector(&v);
                }
            }
        }
    }
    space.head(t)
}

// The key at a join, or the zero key where the children's images meet.
#[inline(never)]
fn joined(f: Field, t: u8, key: &Key, g1: &Gen, g2: &Gen, g3: &Gen) -> Key
    requires narrow { t ≤ 6 }
    requires field { key.now.f ≡ f }
    requires length { key.now.t ≡ t }
    requires first { (length g1.now ≡ t) × AreVectors f (2 * t) g1.now }
    requires second { (length g2.now ≡ t) × AreVectors f (2 * t) g2.now }
    requires third { (length g3.now ≡ t) × AreVectors f (2 * t) g3.now }
{
    let left = Space::image(f, key, g1, 2 * t);
    let right = Space::image(f, key, g2, 2 * t);
    if left.meets_only_in_zero(&right) {
        left.sum(&right).preimage(g3, t)
    } else {
        Key::zero(f, t)
    }
}

// The operator of three matrices.
fn op_of(f: Field, t: u8, g1: Gen, g2: Gen, g3: Gen) -> Option<Op>
    requires first { AreVectors f (2 * t) g1 }
    requires second { AreVectors f (2 * t) g2 }
    requires third { AreVectors f (2 * t) g3 }
    ensures { IfSome result (λ made. (made.f ≡ f) × (made.op.t1 ≡ t) × (made.op.t2 ≡ t)) }
{
    let n = t as u32;
    match Op::with_boundary(f, n, n, n, n, g1, g2, g3) {
        Ok(op) => Some(op),
        Err(_) => None,
    }
}

// The key at a join by one elimination, or the zero key where the children's images meet.
#[inline(never)]
fn joined_once(f: Field, t: u8, key: &Key, op: &Op, rows: &mut JoinRows) -> Key
    requires narrow { t ≤ 6 }
    requires field { key.now.f ≡ f }
    requires op_field { op.now.f ≡ f }
    requires length { key.now.t ≡ t }
    requires first { op.now.op.t1 ≡ t }
    requires second { op.now.op.t2 ≡ t }
{
    match op.join(key, key, rows) {
        Some(k) => k,
        None => Key::zero(f, t),
    }
}

// Whether both ways find one key.
fn agree(f: Field, t: u8, key: &Key, g1: &Gen, g2: &Gen, g3: &Gen, op: &Op) -> bool
    requires narrow { t ≤ 6 }
    requires field { key.now.f ≡ f }
    requires length { key.now.t ≡ t }
    requires first { (length g1.now ≡ t) × AreVectors f (2 * t) g1.now }
    requires second { (length g2.now ≡ t) × AreVectors f (2 * t) g2.now }
    requires third { (length g3.now ≡ t) × AreVectors f (2 * t) g3.now }
    requires op_field { op.now.f ≡ f }
    requires op_first { op.now.op.t1 ≡ t }
    requires op_second { op.now.op.t2 ≡ t }
{
    let mut rows = JoinRows::new();
    joined(f, t, key, g1, g2, g3) == joined_once(f, t, key, op, &mut rows)
}

fn changes(f: Field, t: u8, rounds: u64, mode: u64) -> Option<u64>
    requires { t ≤ 6 }
{
    let mut seed = 1;
    let g1 = drawn(f, t, 0, &mut seed)?;
    let g2 = drawn(f, t, t, &mut seed)?;
    let g3 = drawn(f, t, 0, &mut seed)?;
    let op = op_of(f, t, g1, g2, g3)?;
    let half = first_units(f, t, t / 2);
    let whole = first_units(f, t, t);
    let mut rows = JoinRows::new();
    let mut last = whole;
    let mut changed: u64 = 0;
    for i in 0..rounds {
        let key = if i % 2 == 0 { half } else { whole };
        if mode == 2 && !agree(f, t, &key, &g1, &g2, &g3, &op) {
            return None;
        }
        let next = if mode == 0 {
            joined(f, t, &key, &g1, &g2, &g3)
        } else {
            joined_once(f, t, &key, &op, &mut rows)
        };
        if next != last {
            changed = changed.wrapping_add(1);
        }
        last = next;
    }
    Some(changed)
}

// The number that ASCII digits show, as far as it fits.
fn number(text: &[u8]) -> u64 {
    let mut n: u64 = 0;
    for b in text {
        if *b >= b'0' && *b <= b'9' {
            n = n.wrapping_mul(10).wrapping_add((*b - b'0') as u64);
        }
    }
    n
}

fn main(rt: HostRuntime) -> io::Result<()> {
    let mut given = [0; 5];
    for (i, word) in env::args(&rt)?.enumerate() {
        if i < 5 {
            given[i] = number(word.as_bytes());
        }
    }
    let mut found = None;
    if given[1] < 6 && given[2] <= 6 {
        if let Some(f) = Field::of(given[1] as u8) {
            found = changes(f, given[2] as u8, given[3], given[4]);
        }
    }
    match found {
        Some(changed) => println!(rt; "{changed}")?,
        None => println!(rt; "bench_space Q T ROUNDS MODE")?,
    }
    Ok(())
}
