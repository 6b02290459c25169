//! Pairs and sets of numbers are numbered, and a table goes back to its mark.
use mm_base::NoMemory;
use mm_combine::{Members, OneIds, OneTable, PairTable, SetTable};
use mm_states::AutoFault;
use std::alloc::Global;

#[test]
fn pairs(rt: HostRuntime) -> Result<(), AutoFault> {
    let alloc = rt.alloc();
    let mut table = PairTable::new(alloc);
    assert_eq!(rt; table.put(alloc, 3, 4, 1)?, 0);
    table.mark();
    assert_eq!(rt; table.put(alloc, 4, 3, 1)?, 1);
    assert_eq!(rt; table.put(alloc, 3, 4, 0)?, 0);
    assert!(rt; table.put(alloc, 5, 5, 0) == Err(AutoFault::Full));
    table.roll_back();
    assert_eq!(rt; table.cells(), 1);
    Ok(())
}

/// The set of two numbers.
fn two(alloc: Global, first: u32, second: u32) -> Result<Members, NoMemory> {
    let mut members = Members::new(alloc);
    members.add(alloc, first)?;
    members.add(alloc, second)?;
    Ok(members)
}

#[test]
fn sets(rt: HostRuntime) -> Result<(), AutoFault> {
    let alloc = rt.alloc();
    let mut table = SetTable::new(alloc);
    assert_eq!(rt; table.put(alloc, &two(alloc, 1, 2)?, 9)?, 0);
    assert_eq!(rt; table.put(alloc, &two(alloc, 2, 1)?, 9)?, 0);
    assert_eq!(rt; table.put(alloc, &two(alloc, 2, 2)?, 9)?, 1);
    assert_eq!(rt; table.cells(), 5);
    Ok(())
}

#[test]
fn sets_beside_a_number(rt: HostRuntime) -> Result<(), AutoFault> {
    let alloc = rt.alloc();
    let mut table = OneTable::new(alloc);
    let members = two(alloc, 1, 2)?;
    let value = OneIds {
        unassigned: 7,
        members,
    };
    assert_eq!(rt; table.put(alloc, &value, 9)?, 0);
    assert_eq!(rt; table.unassigned(0), 7);
    assert_eq!(rt; table.cells(), 3);
    Ok(())
}
