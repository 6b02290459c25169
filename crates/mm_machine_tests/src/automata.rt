//! Each automaton answers its calls, through their bound, at an element and at a join of two.
use crate::calls::on_elements;
use mm_base_auto::{
    Atom, ConstAuto, IndAuto, MemberAuto, SameAuto, SameSetAuto, SlotTerm, SubAuto,
};
use mm_field::Field;
use std::test::Fail;

#[test]
fn a_constant(rt: HostRuntime) -> Result<(), Fail> {
    let alloc = rt.alloc();
    let automaton = ConstAuto::new(alloc, false);
    let seen = on_elements(alloc, automaton).ok_or("numbers")?;
    assert!(rt; !seen.accepted);
    assert_eq!(rt; (seen.leaf, seen.join), (0, 0));
    assert_eq!(rt; seen.opened, seen.join);
    assert_eq!(rt; (seen.cells, seen.leaf_cells, seen.fresh_cells), (1, 1, 0));
    Ok(())
}

/// Two elements whose vectors are one are dependent.
#[test]
fn independence(rt: HostRuntime) -> Result<(), Fail> {
    let alloc = rt.alloc();
    let term = SlotTerm {
        whole: true,
        slots: 0,
    };
    let automaton = IndAuto::new(alloc, Field::Two, term);
    let seen = on_elements(alloc, automaton).ok_or("numbers")?;
    assert!(rt; !seen.accepted);
    assert_eq!(rt; (seen.leaf, seen.join), (0, 1));
    assert_eq!(rt; seen.opened, seen.join);
    assert_eq!(rt; (seen.cells, seen.leaf_cells, seen.fresh_cells), (2, 1, 0));
    Ok(())
}

#[test]
fn a_member(rt: HostRuntime) -> Result<(), Fail> {
    let alloc = rt.alloc();
    let automaton = MemberAuto::new(alloc, 1, 0);
    let seen = on_elements(alloc, automaton).ok_or("numbers")?;
    assert!(rt; !seen.accepted);
    assert_eq!(rt; seen.opened, seen.join);
    assert_eq!(rt; (seen.cells, seen.leaf_cells, seen.fresh_cells), (1, 1, 0));
    Ok(())
}

#[test]
fn one_element(rt: HostRuntime) -> Result<(), Fail> {
    let alloc = rt.alloc();
    let automaton = SameAuto::new(alloc, 1, 2);
    let seen = on_elements(alloc, automaton).ok_or("numbers")?;
    assert!(rt; !seen.accepted);
    assert_eq!(rt; seen.opened, seen.join);
    assert_eq!(rt; (seen.cells, seen.leaf_cells, seen.fresh_cells), (1, 1, 0));
    Ok(())
}

#[test]
fn a_set_within_another(rt: HostRuntime) -> Result<(), Fail> {
    let alloc = rt.alloc();
    let automaton = SubAuto::new(alloc, 0, 1);
    let seen = on_elements(alloc, automaton).ok_or("numbers")?;
    assert!(rt; seen.accepted);
    assert_eq!(rt; seen.opened, seen.join);
    assert_eq!(rt; (seen.cells, seen.leaf_cells, seen.fresh_cells), (1, 1, 0));
    Ok(())
}

#[test]
fn sets_that_are_one(rt: HostRuntime) -> Result<(), Fail> {
    let alloc = rt.alloc();
    let automaton = Atom::SameSet(SameSetAuto::new(alloc, 0, 1));
    let seen = on_elements(alloc, automaton).ok_or("numbers")?;
    assert!(rt; seen.accepted);
    assert_eq!(rt; seen.opened, seen.join);
    assert_eq!(rt; (seen.cells, seen.leaf_cells, seen.fresh_cells), (1, 1, 0));
    Ok(())
}
