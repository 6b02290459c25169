//! The matrices of two trees over GF(2) that were found by hand, and how others compare with them.

ghost use Rattle.mm_field.specs.declared.Field.TheVariants.{Two};
ghost use Rattle.mm_tree.specs.Building.{AreOver};
ghost use Rattle.std.specs.Prelude.{IfOk, IfSome, ◌≡◌};

use mm_base::{Name, NameList};
use mm_field::Field;
use mm_matrix::Matrix;
use mm_ops::{Op, OpTable};
use mm_present::{Named, Verdict, compare, is_independent, matrix_of};
use mm_space::{Gen, Vector};
use mm_tree::{Builder, Tree};
use std::alloc::Global;
use std::test::Fail;

/// Puts an element with the boundary 1 after the trees that are there.
fn add(alloc: Global, builder: &mut Builder, name: &[u8]) -> Option<()>
    requires { builder.old.f ≡ Two }
    ensures { builder.new.f ≡ Two }
{
    let name = Name::read(name)?;
    let vec = Vector::read(Field::Two, b"1")?;
    if vec.len() > 6 {
        return None;
    }
    builder.elem(alloc, name, vec, 1).ok()
}

/// Joins the last two trees, of one boundary digit each, by an operator of these numbers and matrices.
fn join(
    alloc: Global,
    builder: &mut Builder,
    t3: u32,
    c: u32,
    g: (&[u8], &[u8]),
    third: Option<&[u8]>,
) -> Option<()>
    requires { builder.old.f ≡ Two }
    ensures { builder.new.f ≡ Two }
{
    let name = Name::read(b"j")?;
    let (first, second) = (Gen::read(Field::Two, g.0)?, Gen::read(Field::Two, g.1)?);
    let op = match third {
        None => Op::new(Field::Two, 1, 1, t3, c, first, second),
        Some(g3) => {
            Op::with_boundary(
                Field::Two,
                1,
                1,
                t3,
                c,
                first,
                second,
                Gen::read(Field::Two, g3)?,
            )
        }
    };
    let mut ops = OpTable::new(alloc);
    ops.add(alloc, name, op.ok()?).ok()?;
    builder.join(alloc, &ops, &name).ok()
}

/// The tree with the elements a, b and c, of which a and b are joined first, by an operator with or without a third boundary.
fn tree(alloc: Global, g: (&[u8], &[u8]), third: Option<&[u8]>) -> Option<Tree>
    ensures { IfSome result (λ tree. tree.f ≡ Two) }
{
    let mut builder = Builder::new(alloc, Field::Two);
    add(alloc, &mut builder, b"a")?;
    add(alloc, &mut builder, b"b")?;
    join(alloc, &mut builder, 1, 1, g, third)?;
    add(alloc, &mut builder, b"c")?;
    join(alloc, &mut builder, 0, 1, (b"1", b"1"), None)?;
    builder.finish().ok()
}

/// The tree with the elements a, b, c and d, of which a and b are joined by the same operator as c and d.
fn tree_of_pairs(alloc: Global) -> Option<Tree> {
    let pair = (&b"01"[..], &b"11"[..]);
    let mut builder = Builder::new(alloc, Field::Two);
    add(alloc, &mut builder, b"a")?;
    add(alloc, &mut builder, b"b")?;
    join(alloc, &mut builder, 1, 1, pair, None)?;
    add(alloc, &mut builder, b"c")?;
    add(alloc, &mut builder, b"d")?;
    join(alloc, &mut builder, 1, 1, pair, None)?;
    join(alloc, &mut builder, 0, 1, (b"1", b"1"), None)?;
    builder.finish().ok()
}

/// The tree with the elements a, b and c whose matrix has ten zero rows: a and b are joined with twelve internal digits.
fn tree_of_many_rows(alloc: Global) -> Option<Tree>
    ensures { IfSome result (λ tree. tree.f ≡ Two) }
{
    let apart = (&b"0100000000000"[..], &b"0010000000000"[..]);
    let mut builder = Builder::new(alloc, Field::Two);
    add(alloc, &mut builder, b"a")?;
    add(alloc, &mut builder, b"b")?;
    join(alloc, &mut builder, 1, 12, apart, None)?;
    add(alloc, &mut builder, b"c")?;
    join(alloc, &mut builder, 0, 1, (b"1", b"1"), None)?;
    builder.finish().ok()
}

/// How rows over three different names compare with a tree.
fn compared(
    alloc: Global,
    names: (&[u8], &[u8], &[u8]),
    rows: Matrix,
    tree: &Tree,
) -> Result<Verdict, Fail>
    requires field { rows.f ≡ tree.now.f }
    requires columns { rows.cols ≡ 3 }
{
    let a = Name::read(names.0).ok_or("a name")?;
    let b = Name::read(names.1).ok_or("a name")?;
    let c = Name::read(names.2).ok_or("a name")?;
    if a == b || a == c || b == c {
        return Err(Fail::from("two names are the same"));
    }
    let mut names = NameList::new(alloc);
    names.push(alloc, a)?;
    names.push(alloc, b)?;
    names.push(alloc, c)?;
    Ok(compare(alloc, &Named { names, rows }, tree)?)
}

#[test]
fn a_matrix_compares_with_itself_in_another_order(rt: HostRuntime) -> Result<(), Fail> {
    let alloc = rt.alloc();
    let tree = tree(alloc, (b"01", b"11"), None).ok_or("a tree")?;
    let mut rows = Matrix::new(alloc, Field::Two, 3);
    rows.push_row(alloc, &[0, 1, 1])?;
    rows.push_row(alloc, &[1, 0, 1])?;
    let names = (&b"c"[..], &b"b"[..], &b"a"[..]);
    assert_eq!(rt; compared(alloc, names, rows, &tree)?, Verdict::Same);
    Ok(())
}

#[test]
fn the_first_difference_is_found(rt: HostRuntime) -> Result<(), Fail> {
    let alloc = rt.alloc();
    let tree = tree(alloc, (b"01", b"11"), None).ok_or("a tree")?;
    let mut rows = Matrix::new(alloc, Field::Two, 3);
    rows.push_row(alloc, &[0, 1, 1])?;
    let names = (&b"a"[..], &b"b"[..], &b"c"[..]);
    assert_eq!(rt; compared(alloc, names, rows, &tree)?, Verdict::Present(2));
    let mut rows = Matrix::new(alloc, Field::Two, 3);
    rows.push_row(alloc, &[0, 1, 1])?;
    rows.push_row(alloc, &[0, 0, 1])?;
    assert_eq!(rt; compared(alloc, names, rows, &tree)?, Verdict::Given(2));
    let rows = Matrix::new(alloc, Field::Two, 3);
    let others = (&b"a"[..], &b"d"[..], &b"e"[..]);
    let d = Name::read(b"d").ok_or("a name")?;
    assert_eq!(rt; compared(alloc, others, rows, &tree)?, Verdict::Elements(d));
    Ok(())
}

#[test]
fn a_matrix_with_more_rows_than_columns(rt: HostRuntime) -> Result<(), Fail> {
    let alloc = rt.alloc();
    let tree = tree_of_many_rows(alloc).ok_or("a tree")?;
    let names = (&b"a"[..], &b"b"[..], &b"c"[..]);
    let mut rows = Matrix::new(alloc, Field::Two, 3);
    rows.push_row(alloc, &[1, 1, 0])?;
    rows.push_row(alloc, &[0, 1, 0])?;
    rows.push_row(alloc, &[0, 1, 1])?;
    assert_eq!(rt; compared(alloc, names, rows, &tree)?, Verdict::Same);
    let mut rows = Matrix::new(alloc, Field::Two, 3);
    rows.push_row(alloc, &[1, 0, 0])?;
    rows.push_row(alloc, &[0, 1, 0])?;
    assert_eq!(rt; compared(alloc, names, rows, &tree)?, Verdict::Present(1));
    assert!(rt; is_independent(alloc, &tree)?);
    Ok(())
}

#[test]
fn internal_rows_by_the_first_format(rt: HostRuntime) -> Result<(), Fail> {
    let alloc = rt.alloc();
    let tree = tree(alloc, (b"01", b"11"), None).ok_or("a tree")?;
    let present = matrix_of(alloc, &tree)?;
    assert_eq!(rt; (present.names.len(), present.rows.rows()), (3, 2));
    assert_eq!(rt; present.rows.row(0), [0, 1, 1].as_slice());
    assert_eq!(rt; present.rows.row(1), [1, 1, 0].as_slice());
    assert!(rt; !is_independent(alloc, &tree)?);
    Ok(())
}

#[test]
fn internal_rows_by_a_third_boundary(rt: HostRuntime) -> Result<(), Fail> {
    let alloc = rt.alloc();
    let tree = tree(alloc, (b"10", b"01"), Some(b"11")).ok_or("a tree")?;
    let present = matrix_of(alloc, &tree)?;
    assert_eq!(rt; present.rows.rows(), 2);
    assert_eq!(rt; present.rows.row(0), [1, 0, 1].as_slice());
    assert_eq!(rt; present.rows.row(1), [1, 1, 0].as_slice());
    Ok(())
}

#[test]
fn an_operator_that_joins_twice(rt: HostRuntime) -> Result<(), Fail> {
    let alloc = rt.alloc();
    let tree = tree_of_pairs(alloc).ok_or("a tree")?;
    let present = matrix_of(alloc, &tree)?;
    assert_eq!(rt; (present.names.len(), present.rows.rows()), (4, 3));
    assert_eq!(rt; present.rows.row(0), [0, 1, 0, 1].as_slice());
    assert_eq!(rt; present.rows.row(1), [1, 1, 0, 0].as_slice());
    assert_eq!(rt; present.rows.row(2), [0, 0, 1, 1].as_slice());
    Ok(())
}
