//! Values are numbered in order of first sight, and joins are remembered.
use mm_base::NoMemory;
use mm_field::Field;
use mm_ops::Op;
use mm_space::Gen;
use mm_states::{Memo, Table};
use std::test::Fail;

#[test]
fn values_are_numbered(rt: HostRuntime) -> Result<(), NoMemory> {
    let alloc = rt.alloc();
    let mut table: Table<u64> = Table::new(alloc);
    assert_eq!(rt; table.put(alloc, 7)?, 0);
    assert_eq!(rt; table.put(alloc, 5)?, 1);
    assert_eq!(rt; table.put(alloc, 7)?, 0);
    assert_eq!(rt; table.find(&5), Some(1));
    assert_eq!(rt; table.find(&6), None);
    table.cut(1);
    assert_eq!(rt; table.len(), 1);
    assert_eq!(rt; *table.get(0), 7);
    Ok(())
}

/// An operator over GF(2) of two boundaries of one digit, whose vectors stand apart.
fn joining(third: &[u8]) -> Option<Op> {
    let first = Gen::read(Field::Two, b"10")?;
    let second = Gen::read(Field::Two, b"01")?;
    let third = Gen::read(Field::Two, third)?;
    Op::with_boundary(Field::Two, 1, 1, 1, 1, first, second, third).ok()
}

#[test]
fn joins_are_remembered_by_their_operators(rt: HostRuntime) -> Result<(), Fail> {
    let alloc = rt.alloc();
    let sum = joining(b"11").ok_or("an operator")?;
    let left = joining(b"10").ok_or("an operator")?;
    let mut memo = Memo::new(alloc);
    memo.keep(alloc, &sum, 1, 2, 3)?;
    memo.keep(alloc, &left, 1, 2, 4)?;
    memo.keep(alloc, &sum, 100_000, 2, 5)?;
    assert_eq!(rt; memo.find(&sum, 1, 2), Some(3));
    assert_eq!(rt; memo.find(&left, 1, 2), Some(4));
    assert_eq!(rt; memo.find(&sum, 100_000, 2), Some(5));
    assert_eq!(rt; memo.find(&sum, 2, 1), None);
    memo.clear();
    assert_eq!(rt; memo.find(&sum, 1, 2), None);
    Ok(())
}
