//! Whether the columns of a subset are independent.
ghost use Rattle.std.specs.Prelude.{◌≡◌, ℕ, IfOk};
ghost use Rattle.std.specs.List.{range_with_len, items_where_true};
ghost use Rattle.mm_minor.specs.MinorFormula.{subset, has_independent};

use mm_base::NoMemory;
use mm_matrix::{Echelon, Matrix};
use std::alloc::Global;

/// The places in subset `s` of `k` places, in increasing order.
fn places_in(alloc: Global, k: usize, s: usize) -> Result<Vec<usize>, NoMemory>
    ensures { IfOk result (λ places. places.items ≡ items_where_true (subset k s) (range_with_len 0 k)) }
{
    let mut places = Vec::new(alloc);
    let mut rest = s;
    for i in 0..k {
        if rest % 2 == 1 {
            places.push(i)?;
        }
        rest /= 2;
    }
    Ok(places)
}

/// Whether the columns of subset `s` are independent: whether their rank is their number.
pub fn has_independent(alloc: Global, n: &Matrix, s: usize) -> Result<bool, NoMemory>
    ensures { IfOk result (λ b. b ≡ has_independent n.now s) }
{
    let places = places_in(alloc, n.cols(), s)?;
    let columns = n.columns(alloc, &places)?;
    let space = Echelon::of(alloc, &columns)?;
    Ok(space.rank() == places.len())
}
