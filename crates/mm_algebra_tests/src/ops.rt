//! Operators with known faults, and a table of two.

use mm_base::Name;
use mm_field::Field;
use mm_ops::{Op, OpFault, OpTable, OpTableFault};
use mm_space::Gen;
use std::test::Fail;

/// The fault of an operator over GF(2), from the texts of its matrices.
fn fault(numbers: [u32; 4], texts: [&[u8]; 3]) -> Option<OpFault> {
    let [t1, t2, t3, c] = numbers;
    let [first, second, third] = texts;
    let g1 = Gen::read(Field::Two, first)?;
    let g2 = Gen::read(Field::Two, second)?;
    let g3 = Gen::read(Field::Two, third)?;
    Op::with_boundary(Field::Two, t1, t2, t3, c, g1, g2, g3).err()
}

#[test]
fn faults_come_in_their_order(rt: HostRuntime) {
    assert_eq!(rt;
        fault([7, 0, 0, 0], [b"1", b".", b"."]),
        Some(OpFault::Bound)
    );
    assert_eq!(rt;
        fault([0, 0, 0, 13], [b".", b".", b"."]),
        Some(OpFault::Bound)
    );
    assert_eq!(rt;
        fault([0, 0, 0, 0], [b"-", b".", b"."]),
        Some(OpFault::Shape)
    );
    assert_eq!(rt;
        fault([1, 0, 0, 0], [b"-", b".", b"."]),
        Some(OpFault::Dependent(1))
    );
    assert_eq!(rt;
        fault([1, 1, 1, 1], [b"10", b"01", b"00"]),
        Some(OpFault::Dependent(3))
    );
    assert_eq!(rt; fault([1, 1, 1, 1], [b"10", b"01", b"11"]), None);
}

#[test]
fn a_name_is_taken_once(rt: HostRuntime) -> Result<(), Fail> {
    let alloc = rt.alloc();
    let mut table = OpTable::new(alloc);
    let name = Name::read(b"j").ok_or("a name")?;
    let none = Gen::read(Field::Two, b".").ok_or("no rows")?;
    let op = Op::new(Field::Two, 0, 0, 0, 0, none, none)?;
    assert_eq!(rt; table.add(alloc, name, op), Ok(()));
    assert_eq!(rt; table.add(alloc, name, op), Err(OpTableFault::NameTaken));
    assert_eq!(rt; table.find(&name), Some(op));
    Ok(())
}
