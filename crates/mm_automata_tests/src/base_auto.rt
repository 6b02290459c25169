//! Each atom numbers the types of leaves.
use mm_base_auto::{
    Atom, AtomValue, ConstAuto, IndAuto, MemberAuto, SameAuto, SameSetAuto, SlotTerm, SubAuto,
};
use mm_field::Field;
use mm_space::{Key, Vector};
use mm_states::{AutoFault, Automaton, Letter};
use std::test::Fail;

/// A leaf without an element.
const VOID: Letter = Letter {
    field: Field::Two,
    t: 1,
    vec: None,
    marks: 0,
};

#[test]
fn flags_at_a_leaf_without_an_element(rt: HostRuntime) -> Result<(), AutoFault> {
    let alloc = rt.alloc();
    let mut constant = ConstAuto::new(alloc, true);
    let id = constant.leaf(alloc, &VOID, 9)?;
    assert_eq!(rt; constant.value(id), AtomValue::Unit);
    assert!(rt; constant.accepts(id));
    let mut member = MemberAuto::new(alloc, 1, 0);
    let id = member.leaf(alloc, &VOID, 9)?;
    assert_eq!(rt; member.value(id), AtomValue::Unseen);
    let mut same = SameAuto::new(alloc, 1, 2);
    let id = same.leaf(alloc, &VOID, 9)?;
    assert_eq!(rt; same.value(id), AtomValue::Neither);
    let mut sub = SubAuto::new(alloc, 0, 1);
    let id = sub.leaf(alloc, &VOID, 9)?;
    assert_eq!(rt; sub.value(id), AtomValue::Holds);
    let mut equal = SameSetAuto::new(alloc, 0, 1);
    let id = equal.leaf(alloc, &VOID, 9)?;
    assert_eq!(rt; equal.value(id), AtomValue::Holds);
    Ok(())
}

#[test]
fn spaces_at_leaves(rt: HostRuntime) -> Result<(), Fail> {
    let alloc = rt.alloc();
    let term = SlotTerm {
        whole: false,
        slots: 1,
    };
    let mut auto = Atom::Ind(IndAuto::new(alloc, Field::Two, term));
    let outside = auto.leaf(alloc, &VOID, 9)?;
    assert_eq!(rt;
        auto.value(outside),
        AtomValue::Space(Key::zero(Field::Two, 1))
    );
    auto.mark();
    let vector = Vector::read(Field::Two, b"1").ok_or("a vector")?;
    let letter = Letter {
        field: Field::Two,
        t: 1,
        vec: Some(vector),
        marks: 1,
    };
    let inside = auto.leaf(alloc, &letter, 9)?;
    assert_eq!(rt; inside, 1);
    assert_eq!(rt; auto.cells(), 2);
    auto.roll_back();
    assert_eq!(rt; auto.cells(), 1);
    Ok(())
}
