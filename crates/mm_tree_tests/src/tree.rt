//! Small trees, and what is read off them, changed in them and written of them.

ghost use Rattle.mm_field.specs.declared.Field.TheVariants.{Two};
ghost use Rattle.mm_tree.specs.Building.{AreOver};
ghost use Rattle.std.specs.Prelude.{IfSome, ◌≡◌};

use mm_base::Name;
use mm_field::Field;
use mm_ops::{Op, OpTable};
use mm_space::{Gen, Vector};
use mm_tree::{BuildFault, Builder, Tree, write_tree};
use std::alloc::Global;
use std::test::Fail;

/// A leaf with an element of the boundary 1 and the weight 5.
fn leaf(alloc: Global, name: &[u8]) -> Option<Tree>
    ensures { IfSome result (λ tree. tree.f ≡ Two) }
{
    let mut builder = Builder::new(alloc, Field::Two);
    let name = Name::read(name)?;
    let vec = Vector::read(Field::Two, b"1")?;
    if vec.len() > 6 {
        return None;
    }
    builder.elem(alloc, name, vec, 5).ok()?;
    builder.finish().ok()
}

#[test]
fn a_leaf_has_its_name_and_weight(rt: HostRuntime) -> Result<(), Fail> {
    let alloc = rt.alloc();
    let mut tree = leaf(alloc, b"a").ok_or("a leaf")?;
    let name = Name::read(b"a").ok_or("a name")?;
    assert_eq!(rt; tree.leaves(alloc)?.len(), 1);
    assert_eq!(rt; (tree.depth(), tree.nodes(), tree.boundary()), (0, 1, 1));
    if tree.has_element(&name) {
        assert_eq!(rt; tree.weight_of(&name), 5);
        tree.set_weight(&name, -7);
    }
    if tree.has_element(&name) {
        assert_eq!(rt; tree.weight_of(&name), -7);
    }
    Ok(())
}

#[test]
fn names_are_taken_outside_alone(rt: HostRuntime) -> Result<(), Fail> {
    let alloc = rt.alloc();
    let tree = leaf(alloc, b"a").ok_or("a leaf")?;
    let name = Name::read(b"a").ok_or("a name")?;
    let place = tree.place(&name, 0).ok_or("a place")?;
    assert_eq!(rt; tree.check_replace(alloc, &place, &tree), Ok(()));
    assert_eq!(rt; tree.place(&name, 1), None);
    Ok(())
}

#[test]
fn joins_are_refused_in_order(rt: HostRuntime) -> Result<(), Fail> {
    let alloc = rt.alloc();
    let mut builder = Builder::new(alloc, Field::Two);
    let name = Name::read(b"a").ok_or("a name")?;
    assert_eq!(rt; builder.void(alloc, name, 1), Ok(()));
    assert_eq!(rt;
        builder.void(alloc, name, 1),
        Err(BuildFault::NameTaken(name))
    );
    let ops = OpTable::new(alloc);
    assert_eq!(rt;
        builder.join(alloc, &ops, &name),
        Err(BuildFault::UnknownOp(name))
    );
    Ok(())
}

/// The operators over GF(2) that join three elements to a circuit: j keeps the boundaries of two children of one digit, and k closes
/// it.
fn table(alloc: Global) -> Option<OpTable>
    ensures { IfSome result (λ ops. AreOver Two ops) }
{
    let first = Gen::read(Field::Two, b"10")?;
    let second = Gen::read(Field::Two, b"01")?;
    let kept = Op::new(Field::Two, 1, 1, 2, 0, first, second).ok()?;
    let both = Gen::read(Field::Two, b"10/01")?;
    let sum = Gen::read(Field::Two, b"11")?;
    let closed = Op::new(Field::Two, 2, 1, 0, 2, both, sum).ok()?;
    let mut ops = OpTable::new(alloc);
    ops.add(alloc, Name::read(b"j")?, kept).ok()?;
    ops.add(alloc, Name::read(b"k")?, closed).ok()?;
    Some(ops)
}

/// Puts an element of the boundary 1 and the weight 5 after those that are there.
fn add(alloc: Global, builder: &mut Builder, name: &[u8]) -> Option<()>
    requires { builder.old.f ≡ Two }
    ensures { builder.new.f ≡ Two }
{
    let name = Name::read(name)?;
    let vec = Vector::read(Field::Two, b"1")?;
    if vec.len() > 6 {
        return None;
    }
    builder.elem(alloc, name, vec, 5).ok()
}

/// Joins the last two trees by the operator of this name.
fn join(alloc: Global, builder: &mut Builder, name: &[u8]) -> Option<()>
    requires { builder.old.f ≡ Two }
    ensures { builder.new.f ≡ Two }
{
    let ops = table(alloc)?;
    builder.join(alloc, &ops, &Name::read(name)?).ok()
}

/// The leaves a and b, joined by j.
fn pair(alloc: Global) -> Option<Tree>
    ensures { IfSome result (λ tree. tree.f ≡ Two) }
{
    let mut builder = Builder::new(alloc, Field::Two);
    add(alloc, &mut builder, b"a")?;
    add(alloc, &mut builder, b"b")?;
    join(alloc, &mut builder, b"j")?;
    builder.finish().ok()
}

#[test]
fn a_leaf_takes_the_place_of_another(rt: HostRuntime) -> Result<(), Fail> {
    let alloc = rt.alloc();
    let mut tree = pair(alloc).ok_or("two leaves")?;
    let new = leaf(alloc, b"c").ok_or("a leaf")?;
    let b = Name::read(b"b").ok_or("a name")?;
    let c = Name::read(b"c").ok_or("a name")?;
    let root = tree.place(&b, 1).ok_or("the root")?;
    assert_eq!(rt; tree.boundary_at(&root), 2);
    let place = tree.place(&b, 0).ok_or("a place")?;
    assert_eq!(rt; (place.number(), place.depth()), (2, 1));
    if let Ok(()) = tree.check_replace(alloc, &place, &new) {
        let old = tree.splice(&place, new);
        assert!(rt; old.has_leaf(&b));
    }
    assert!(rt; tree.has_leaf(&c));
    assert!(rt; !tree.has_leaf(&b));
    Ok(())
}

/// The circuit of the elements a, b and c.
fn circuit(alloc: Global) -> Option<Tree> {
    let mut builder = Builder::new(alloc, Field::Two);
    add(alloc, &mut builder, b"a")?;
    add(alloc, &mut builder, b"b")?;
    join(alloc, &mut builder, b"j")?;
    add(alloc, &mut builder, b"c")?;
    join(alloc, &mut builder, b"k")?;
    builder.finish().ok()
}

#[test]
fn a_circuit_has_its_leaves_in_order(rt: HostRuntime) -> Result<(), Fail> {
    let alloc = rt.alloc();
    let names = circuit(alloc).ok_or("a circuit")?.leaves(alloc)?;
    assert_eq!(rt; names.len(), 3);
    for (k, name) in [b"a", b"b", b"c"].into_iter().enumerate() {
        if k < names.len() {
            assert_eq!(rt; names.at(k).bytes(), name.as_slice());
        }
    }
    Ok(())
}

#[test]
fn a_circuit_is_written_as_it_is_given(rt: HostRuntime) -> Result<(), Fail> {
    let alloc = rt.alloc();
    let tree = circuit(alloc).ok_or("a circuit")?;
    assert_eq!(rt;
        write_tree(alloc, &tree)?.bytes(),
        b"elem a 1 5\nelem b 1 5\njoin j\nelem c 1 5\njoin k\nend\n".as_slice()
    );
    Ok(())
}

/// An element without a boundary, of the weight -12.
fn negative(alloc: Global) -> Option<Tree> {
    let mut builder = Builder::new(alloc, Field::Five);
    let vec = Vector::read(Field::Five, b"-")?;
    if vec.len() > 6 {
        return None;
    }
    builder.elem(alloc, Name::read(b"e1")?, vec, -12).ok()?;
    builder.finish().ok()
}

/// A leaf without an element, of a boundary of three digits.
fn vacant(alloc: Global) -> Option<Tree> {
    let mut builder = Builder::new(alloc, Field::Three);
    builder.void(alloc, Name::read(b"v")?, 3).ok()?;
    builder.finish().ok()
}

#[test]
fn leaves_are_written_in_short_form(rt: HostRuntime) -> Result<(), Fail> {
    let alloc = rt.alloc();
    let element = negative(alloc).ok_or("an element")?;
    assert_eq!(rt;
        write_tree(alloc, &element)?.bytes(),
        b"elem e1 - -12\nend\n".as_slice()
    );
    let vacant = vacant(alloc).ok_or("a leaf")?;
    assert_eq!(rt;
        write_tree(alloc, &vacant)?.bytes(),
        b"void v 3\nend\n".as_slice()
    );
    Ok(())
}
