//! Texts of digits: rows.
ghost use Rattle.std.specs.Prelude.{◌≡◌, MatchOption, IfOk, Some, None, map, true, IfSome};
ghost use Rattle.mm_field.specs.Vectors.{AreDigits};
ghost use Rattle.std.specs.List.{list_all};
ghost use Rattle.mm_space.specs.DigitTexts.{digit_of, digits_of, is_digit};

use mm_base::NoMemory;
use mm_field::Field;
use std::alloc::Global;

/// An ASCII digit of the field.
fn is_digit(f: Field, byte: u8) -> bool
    ensures { result ≡ is_digit f byte }
{
    b'0' <= byte && byte < b'0' + f.q()
}

fn are_digits(f: Field, bytes: &[u8]) -> bool
    ensures { result ≡ list_all (is_digit f) bytes.now }
{
    let mut all = true;
    for b in bytes {
        all &= is_digit(f, *b);
    }
    all
}

/// The digits that the bytes show.
fn shown(alloc: Global, f: Field, bytes: &[u8]) -> Result<Vec<u8>, NoMemory>
    requires { list_all (is_digit f) bytes.now ≡ true }
    ensures { IfOk result (λ digits. digits.items ≡ map digit_of bytes.now) }
{
    let mut digits = bytes.to_vec(alloc)?;
    for digit in digits.iter_mut() {
        *digit -= b'0';
    }
    Ok(digits)
}

/// The digits that a token shows, any number of them, and `-` for none.
pub fn read_digits(alloc: Global, f: Field, bytes: &[u8]) -> Result<Option<Vec<u8>>, NoMemory>
    ensures shown { IfOk result (λ digits.
        MatchOption digits (digits_of f bytes.now ≡ None) (λ ds. digits_of f bytes.now ≡ Some ds.items)) }
    ensures digits { IfOk result (λ digits. IfSome digits (λ ds. AreDigits f ds.items)) }
{
    if bytes == b"-".as_slice() {
        return Ok(Some(Vec::new(alloc)));
    }
    if bytes.is_empty() || !are_digits(f, bytes) {
        return Ok(None);
    }
    Ok(Some(shown(alloc, f, bytes)?))
}
