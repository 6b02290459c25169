//! Matrices with known row spaces.

use mm_field::Field;
use mm_matrix::{Echelon, Matrix, combination, orthogonal};
use std::test::Fail;

#[test]
fn row_outside(rt: HostRuntime) -> Result<(), Fail> {
    let alloc = rt.alloc();
    let mut one = Matrix::new(alloc, Field::Two, 3);
    one.push_row(alloc, &[1, 0, 1])?;
    let space = Echelon::of(alloc, &one)?;
    assert_eq!(rt; (space.rank(), space.leads()), (1, [0].as_slice()));
    assert_eq!(rt;
        &space.residue(alloc, &[1, 1, 0])?[..],
        [0, 1, 1].as_slice()
    );
    let mut two = Matrix::new(alloc, Field::Two, 3);
    two.push_row(alloc, &[1, 0, 1])?;
    two.push_row(alloc, &[0, 1, 1])?;
    assert_eq!(rt; space.first_outside(alloc, &two)?, Some(1));
    assert_eq!(rt; Echelon::of(alloc, &two)?.first_outside(alloc, &one)?, None);
    Ok(())
}

#[test]
fn entries(rt: HostRuntime) -> Result<(), Fail> {
    let alloc = rt.alloc();
    let mut m = Matrix::new(alloc, Field::Five, 2);
    m.push_row(alloc, &[1, 2])?;
    m.set(0, 1, 4);
    assert_eq!(rt; m.get(0, 1), 4);
    assert_eq!(rt; m.row(0), [1, 4].as_slice());
    assert_eq!(rt; (m.rows(), m.cols()), (1, 2));
    Ok(())
}

#[test]
fn a_circuit_is_orthogonal_to_all_ones(rt: HostRuntime) -> Result<(), Fail> {
    let alloc = rt.alloc();
    let mut m = Matrix::new(alloc, Field::Two, 3);
    m.push_row(alloc, &[1, 0, 1])?;
    m.push_row(alloc, &[0, 1, 1])?;
    let basis = orthogonal(alloc, &m)?;
    assert_eq!(rt; basis.rows(), 1);
    assert_eq!(rt; basis.row(0), [1, 1, 1].as_slice());
    Ok(())
}

#[test]
fn columns_products_stacks(rt: HostRuntime) -> Result<(), Fail> {
    let alloc = rt.alloc();
    let mut m = Matrix::new(alloc, Field::Five, 2);
    m.push_row(alloc, &[1, 2])?;
    m.push_row(alloc, &[3, 4])?;
    let columns = m.columns(alloc, &[1, 0, 1])?;
    assert_eq!(rt; columns.rows(), 3);
    assert_eq!(rt; columns.row(0), [2, 4].as_slice());
    assert_eq!(rt; columns.row(1), [1, 3].as_slice());
    let product = columns.times(alloc, &m)?;
    assert_eq!(rt; product.row(0), [4, 0].as_slice());
    assert_eq!(rt; &combination(alloc, &[2, 4], &m)?[..], [4, 0].as_slice());
    let stacked = columns.stacked(alloc, &m)?;
    assert_eq!(rt; stacked.rows(), 5);
    assert_eq!(rt; stacked.row(4), [3, 4].as_slice());
    Ok(())
}

#[test]
fn a_basis_of_what_is_orthogonal(rt: HostRuntime) -> Result<(), Fail> {
    let alloc = rt.alloc();
    let mut m = Matrix::new(alloc, Field::Three, 3);
    m.push_row(alloc, &[2, 1, 1])?;
    let space = Echelon::of(alloc, &m)?;
    assert_eq!(rt; space.row(0), [1, 2, 2].as_slice());
    let null = space.kernel_vectors(alloc)?;
    assert_eq!(rt; null.rows(), 2);
    assert_eq!(rt; space.into_matrix().row(0), [1, 2, 2].as_slice());
    Ok(())
}
