//! Minor formulas, printed: that of a loop, and that of a triangle.

use mm_base::Text;
use mm_field::Field;
use mm_formula_text::print;
use mm_matrix::Matrix;
use mm_minor::minor_formula;
use std::test::Fail;

#[test]
fn formula_of_a_loop(rt: HostRuntime) -> Result<(), Fail> {
    let alloc = rt.alloc();
    let mut n = Matrix::new(alloc, Field::Two, 1);
    n.push_row(alloc, &[0])?;
    let text = print(alloc, &minor_formula(alloc, &n)?)?;
    assert_eq!(rt;
        text.bytes(),
        b"ex C ex x1 ((ind(C) and not x1 in C) and not ind(C|x1))".as_slice()
    );
    Ok(())
}

#[test]
fn formula_of_a_triangle(rt: HostRuntime) -> Result<(), Fail> {
    let alloc = rt.alloc();
    let mut n = Matrix::new(alloc, Field::Two, 3);
    n.push_row(alloc, &[1, 0, 1])?;
    n.push_row(alloc, &[0, 1, 1])?;
    let text = print(alloc, &minor_formula(alloc, &n)?)?;
    assert_eq!(rt;
        text.bytes(),
        b"ex C ex x1 ex x2 ex x3 (((((((((((((ind(C) and not x1 in C) and not x2 in C) and not x3 in C) and not x1 = x2) and not x1 = x3) and not x2 = x3) and ind(C|x1)) and ind(C|x2)) and ind(C|x1|x2)) and ind(C|x3)) and ind(C|x1|x3)) and ind(C|x2|x3)) and not ind(C|x1|x2|x3))".as_slice()
    );
    Ok(())
}
