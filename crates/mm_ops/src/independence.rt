//! Whether rows are independent.

ghost use Rattle.std.specs.Prelude.{◌≡◌, ◌≤◌};
ghost use Rattle.mm_field.specs.Vectors.{AreVectors};
ghost use Rattle.mm_linear.specs.Decide.{is_independent};

use mm_field::Field;
use mm_space::{Gen, Space};

/// Whether only all-zero digits combine the rows, of r digits each, to the zero row.
pub fn are_independent(f: Field, r: u8, g: &Gen) -> bool
    requires short { r ≤ 18 }
    requires rows { AreVectors f r g.now }
    ensures { result ≡ is_independent f r g.now }
{
    let mut span = Space::zero(f, r);
    for k in (0..g.rows()).rev() {
        let row = g.row(k);
        if span.contains(&row) {
            return false;
        }
        span.add_vector(&row);
    }
    true
}
