//! A machine numbers the types of a formula, part by part.
use crate::calls::{leaf_within, on_elements};
use crate::machines::{machine_of, machine_of_text, negations};
use mm_states::AutoFault;
use std::test::Fail;

/// Some element is in X, and not each is, for some X.
const SOME_AND_NOT_EACH: &[u8] = b"ex X (ex x x in X and not all x x in X)";

#[test]
fn one_set_with_an_element(rt: HostRuntime) -> Result<(), Fail> {
    let alloc = rt.alloc();
    let machine = machine_of_text(alloc, SOME_AND_NOT_EACH).ok_or("a machine")?;
    let parts = machine.parts();
    let seen = on_elements(alloc, machine).ok_or("numbers")?;
    assert_eq!(rt; parts, 7);
    assert!(rt; seen.accepted);
    assert_eq!(rt; (seen.leaf, seen.join), (0, 1));
    assert_eq!(rt; seen.opened, seen.join);
    assert_eq!(rt; seen.fresh_cells, 0);
    Ok(())
}

#[test]
fn a_formula_of_512_nodes(rt: HostRuntime) -> Result<(), Fail> {
    let alloc = rt.alloc();
    let formula = negations(alloc, 511)?;
    let machine = machine_of(alloc, formula).ok_or("a machine")?;
    let parts = machine.parts();
    let seen = on_elements(alloc, machine).ok_or("numbers")?;
    assert_eq!(rt; parts, 512);
    assert!(rt; !seen.accepted);
    assert_eq!(rt; seen.cells, 1);
    Ok(())
}

/// A formula under 16 binders.
const SIXTEEN: &[u8] =
    b"ex X ex X ex X ex X ex X ex X ex X ex X ex X ex X ex X ex X ex X ex X ex X ex X X sub X";

#[test]
fn a_formula_under_16_binders(rt: HostRuntime) -> Result<(), Fail> {
    let alloc = rt.alloc();
    let machine = machine_of_text(alloc, SIXTEEN).ok_or("a machine")?;
    let parts = machine.parts();
    let seen = on_elements(alloc, machine).ok_or("numbers")?;
    assert_eq!(rt; parts, 17);
    assert!(rt; seen.accepted);
    assert_eq!(rt; seen.cells, 33);
    Ok(())
}

/// A cell for the type of `true`, and two for that of the quantifier: it has one member.
#[test]
fn the_cells_of_an_element_quantifier(rt: HostRuntime) -> Result<(), Fail> {
    let alloc = rt.alloc();
    let machine = machine_of_text(alloc, b"ex x true").ok_or("a machine")?;
    let answer = leaf_within(alloc, machine, 3);
    assert!(rt; matches!(answer, Some(Ok(_))));
    let machine = machine_of_text(alloc, b"ex x true").ok_or("a machine")?;
    let answer = leaf_within(alloc, machine, 2);
    assert!(rt; matches!(answer, Some(Err(AutoFault::Full))));
    Ok(())
}

/// A cell for each atom's type, and one for the pair.
#[test]
fn the_cells_of_a_connective(rt: HostRuntime) -> Result<(), Fail> {
    let alloc = rt.alloc();
    let machine = machine_of_text(alloc, b"true and false").ok_or("a machine")?;
    let answer = leaf_within(alloc, machine, 3);
    assert!(rt; matches!(answer, Some(Ok(_))));
    let machine = machine_of_text(alloc, b"true and false").ok_or("a machine")?;
    let answer = leaf_within(alloc, machine, 2);
    assert!(rt; matches!(answer, Some(Err(AutoFault::Full))));
    Ok(())
}
