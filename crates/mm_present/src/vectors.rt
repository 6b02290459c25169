//! Vectors as digits.

ghost use Rattle.std.specs.Prelude.{◌≡◌, ◌<◌, IfOk};
ghost use Rattle.mm_field.specs.Digits.{negative};
ghost use Rattle.mm_field.specs.Vectors.{multiple};
ghost use Rattle.mm_linear.specs.Coordinates.{unit};

use mm_base::NoMemory;
use mm_field::{Field, lanes};
use mm_space::Vector;
use std::alloc::Global;

/// The digits of a vector.
pub(crate) fn digits_of(alloc: Global, v: &Vector) -> Result<Vec<u8>, NoMemory>
    ensures { IfOk result (λ digits. digits.items ≡ v.now) }
{
    let mut digits = Vec::new(alloc);
    for k in 0..v.len() {
        digits.push(v.at(k))?;
    }
    Ok(digits)
}

/// The vector of r digits with 1 at place k and 0 elsewhere.
fn unit(alloc: Global, r: usize, k: usize) -> Result<Vec<u8>, NoMemory>
    requires { k < r }
    ensures { IfOk result (λ digits. digits.items ≡ unit r k) }
{
    let mut digits = vec![in alloc; 0; r]?;
    digits[k] = 1;
    Ok(digits)
}

/// The negative of the unit vector of t digits with 1 at place k.
pub(crate) fn negative_unit(
    alloc: Global,
    f: Field,
    t: usize,
    k: usize,
) -> Result<Vec<u8>, NoMemory>
    requires { k < t }
    ensures { IfOk result (λ digits. digits.items ≡ multiple f (negative f 1) (unit t k)) }
{
    let mut digits = unit(alloc, t, k)?;
    lanes::scale(f, f.neg(1), &mut digits);
    Ok(digits)
}
