//! Vectors, matrices and subspaces from outside.
ghost use Rattle.std.specs.Prelude.{◌≡◌, ◌≤◌, length, IfSome};
ghost use Rattle.mm_field.specs.Vectors.{AreVectors};

use mm_field::Field;
use mm_space::{Gen, Key, Space, Vector};

#[test]
fn vectors_read(rt: HostRuntime) {
    for (text, length) in [
        (&b"12"[..], Some(2)),
        (b"-", Some(0)),
        (b"13", None),
        (b"", None),
        (b"-1", None),
        (b"101010101010101010", Some(18)),
        (b"1010101010101010101", None),
    ] {
        assert_eq!(rt; Vector::read(Field::Three, text).map(|v| v.len()), length);
    }
    let v = Vector::read(Field::Three, b"12").expect(&rt, "a vector");
    if v.len() == 2 {
        assert_eq!(rt; v.at(0), 1);
        assert_eq!(rt; v.at(1), 2);
    }
}

#[test]
fn rows_read(rt: HostRuntime) {
    for (text, rows) in [
        (&b"."[..], Some(0)),
        (b"-", Some(1)),
        (b"10/01", Some(2)),
        (b"1/-/1/1/1/1", Some(6)),
        (b"1/1/1/1/1/1/1", None),
        (b"10/", None),
        (b"/1", None),
        (b"./1", None),
        (b"12", None),
        (b"", None),
    ] {
        assert_eq!(rt; Gen::read(Field::Two, text).map(|g| g.rows()), rows);
    }
}

#[test]
fn basis_of_a_line(rt: HostRuntime) {
    let v = Vector::read(Field::Three, b"20").expect(&rt, "a vector");
    if v.len() <= 6 {
        let key = Key::span_of(Field::Three, &v);
        assert_eq!(rt; key.t(), 2);
        assert_eq!(rt;
            Some(key.basis(Field::Three)),
            Gen::read(Field::Three, b"10")
        );
    } else {
        assert!(rt; false);
    }
}

#[test]
fn zero_keys(rt: HostRuntime) {
    let key = Key::zero(Field::Five, 6);
    assert_eq!(rt; key.t(), 6);
    assert_eq!(rt; key.basis(Field::Five).rows(), 0);
    assert!(rt; key != Key::zero(Field::Four, 6));
    assert!(rt; key != Key::zero(Field::Five, 5));
}

/// Adds the vector that the bytes show, where it has r digits.
fn add(f: Field, r: u8, space: &mut Space, bytes: &[u8])
    requires field { space.old.f ≡ f }
    requires length { space.old.r ≡ r }
    ensures field { space.new.f ≡ f }
    ensures length { space.new.r ≡ r }
{
    if let Some(v) = Vector::read(f, bytes) {
        if v.len() == r {
            space.add_vector(&v);
        }
    }
}

/// The span of two vectors of r digits.
fn span(f: Field, r: u8, first: &[u8], second: &[u8]) -> Space
    requires { r ≤ 18 }
    ensures field { result.f ≡ f }
    ensures length { result.r ≡ r }
{
    let mut space = Space::zero(f, r);
    add(f, r, &mut space, first);
    add(f, r, &mut space, second);
    space
}

/// Whether the space has r digits and holds the vector that the bytes show.
fn holds_text(f: Field, r: u8, space: &Space, bytes: &[u8]) -> bool
    requires field { space.now.f ≡ f }
    requires length { space.now.r ≡ r }
{
    match Vector::read(f, bytes) {
        Some(v) => v.len() == r && space.contains(&v),
        None => false,
    }
}

/// The multiples of the vector that the bytes show.
fn line(f: Field, bytes: &[u8]) -> Key
    ensures { result.f ≡ f }
{
    match Vector::read(f, bytes) {
        Some(v) => {
            if v.len() <= 6 {
                Key::span_of(f, &v)
            } else {
                Key::zero(f, 0)
            }
        }
        None => Key::zero(f, 0),
    }
}

/// The matrix of n rows of r digits that the bytes show.
fn matrix(f: Field, n: u8, r: u8, bytes: &[u8]) -> Option<Gen>
    ensures { IfSome result (λ g. (length g ≡ n) × AreVectors f r g) }
{
    match Gen::read(f, bytes) {
        Some(g) => {
            if g.rows() != n {
                return None;
            }
            for k in 0..n {
                if g.row(k).len() != r {
                    return None;
                }
            }
            Some(g)
        }
        None => None,
    }
}

#[test]
fn head_of_a_space(rt: HostRuntime) {
    let space = span(Field::Two, 3, b"100", b"011");
    assert!(rt; space.head(2) == line(Field::Two, b"10"));
}

#[test]
fn preimage_of_a_line(rt: HostRuntime) {
    let g = matrix(Field::Two, 1, 2, b"11").expect(&rt, "a matrix");
    let space = span(Field::Two, 2, b"10", b"");
    assert!(rt; space.preimage(&g, 1) == Key::zero(Field::Two, 1));
    let plane = span(Field::Two, 2, b"10", b"01");
    assert!(rt; plane.preimage(&g, 1) == line(Field::Two, b"1"));
}

#[test]
fn sums_and_meets(rt: HostRuntime) {
    let plane = span(Field::Two, 3, b"100", b"010");
    let inside = span(Field::Two, 3, b"110", b"");
    let outside = span(Field::Two, 3, b"011", b"");
    assert!(rt; !plane.meets_only_in_zero(&inside));
    assert!(rt; plane.meets_only_in_zero(&outside));
    assert!(rt; plane.sum(&inside) == plane);
    let all = plane.sum(&outside);
    assert!(rt; holds_text(Field::Two, 3, &all, b"001"));
    assert!(rt; !holds_text(Field::Two, 3, &plane, b"001"));
}

#[test]
fn image_of_a_line(rt: HostRuntime) {
    let g = matrix(Field::Three, 2, 3, b"101/011").expect(&rt, "a matrix");
    let key = line(Field::Three, b"12");
    if key.t() == 2 {
        let image = Space::image(Field::Three, &key, &g, 3);
        assert!(rt; holds_text(Field::Three, 3, &image, b"210"));
        assert!(rt; !holds_text(Field::Three, 3, &image, b"100"));
        assert!(rt; image == span(Field::Three, 3, b"120", b"210"));
    } else {
        assert!(rt; false);
    }
}
