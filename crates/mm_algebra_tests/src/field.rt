//! Digits worked out by hand, and operations on rows.
use mm_field::Field;
use mm_field::lanes::{axpy, first_nonzero, scale};

#[test]
fn fields_of_orders(rt: HostRuntime) {
    for q in [0, 1, 6, 7, 9] {
        assert_eq!(rt; Field::of(q), None, "at {q}");
    }
    for q in [2, 3, 4, 5] {
        assert_eq!(rt; Field::of(q).map(|f| f.q()), Some(q), "at {q}");
    }
}

#[test]
fn digits_of_gf4_and_gf5(rt: HostRuntime) {
    assert_eq!(rt; Field::Four.mul(2, 3), 1);
    assert_eq!(rt; Field::Four.mul(2, 2), 3);
    assert_eq!(rt; Field::Four.add(2, 3), 1);
    assert_eq!(rt; Field::Four.neg(2), 2);
    assert_eq!(rt; Field::Four.inv(2), 3);
    assert_eq!(rt; Field::Five.inv(3), 2);
    assert_eq!(rt; Field::Five.neg(3), 2);
    assert_eq!(rt; Field::Three.neg(1), 2);
}

#[test]
fn digits_in_ascii(rt: HostRuntime) {
    assert_eq!(rt; Field::Three.digit(b'2'), Some(2));
    assert_eq!(rt; Field::Three.digit(b'3'), None);
    assert_eq!(rt; Field::Five.digit(b'0'), Some(0));
    assert_eq!(rt; Field::Five.digit(b'/'), None);
}

#[test]
fn axpy_over_gf4(rt: HostRuntime) {
    let mut y = [1, 1, 1, 1];
    axpy(Field::Four, 2, &[0, 1, 2, 3], &mut y);
    assert_eq!(rt; y, [1, 3, 2, 0]);
}

#[test]
fn axpy_over_the_other_fields(rt: HostRuntime) {
    let mut y = [0, 1, 0, 1];
    axpy(Field::Two, 1, &[0, 0, 1, 1], &mut y);
    assert_eq!(rt; y, [0, 1, 1, 0]);
    let mut y = [0, 1, 2, 2];
    axpy(Field::Three, 2, &[0, 1, 2, 1], &mut y);
    assert_eq!(rt; y, [0, 0, 0, 1]);
    let mut y = [0, 1, 2, 4];
    axpy(Field::Five, 3, &[1, 1, 2, 4], &mut y);
    assert_eq!(rt; y, [3, 4, 3, 1]);
    axpy(Field::Five, 0, &[1, 1, 2, 4], &mut y);
    assert_eq!(rt; y, [3, 4, 3, 1]);
}

#[test]
fn scale_over_gf5(rt: HostRuntime) {
    let mut x = [1, 2, 3, 4];
    scale(Field::Five, 3, &mut x);
    assert_eq!(rt; x, [3, 1, 4, 2]);
}

#[test]
fn first_nonzero_of_a_long_row(rt: HostRuntime) {
    let mut x = [0; 66];
    x[65] = 1;
    assert_eq!(rt; first_nonzero(&x), Some(65));
    assert_eq!(rt; first_nonzero(&[]), None);
    assert_eq!(rt; first_nonzero(&[0, 0]), None);
}
