//! Numbers in decimal digits.
ghost use Rattle.std.specs.Prelude.{◌≡◌, ◌≤◌, ◌<◌, ◌^◌, length, true, IfSome};
ghost use Rattle.std.specs.Char.{is_ascii_digit};
ghost use Rattle.std.specs.List.{list_all};
ghost use Rattle.std.specs.Str.Parse.{digits_value};
ghost use Rattle.mm_lines.specs.Numbers.{i64_of, is_number, number_of, u32_of};

fn are_digits(bytes: &[u8]) -> bool
    ensures { result ≡ list_all is_ascii_digit bytes.now }
{
    bytes.iter().all(|b| b.is_ascii_digit())
}

fn is_number(most: usize, bytes: &[u8]) -> bool
    ensures { result ≡ is_number most bytes.now }
{
    1 <= bytes.len() && bytes.len() <= most && are_digits(bytes)
}

fn value(digits: &[u8]) -> u64
    requires size { length digits.now ≤ 18 }
    requires digits { list_all is_ascii_digit digits.now ≡ true }
    ensures value { result ≡ digits_value 10 digits.now }
    ensures bound { result < 10 ^ length digits.now }
{
    let mut n = 0u64;
    for b in digits {
        n = n * 10 + u64::from(*b - b'0');
    }
    n
}

fn number(most: usize, bytes: &[u8]) -> Option<u64>
    requires { most ≤ 18 }
    ensures value { result ≡ number_of most bytes.now }
    ensures bound { IfSome result (λ n. n < 10 ^ most) }
{
    if is_number(most, bytes) {
        Some(value(bytes))
    } else {
        None
    }
}

/// The number that 1 to 9 digits spell. None exactly for other bytes.
pub fn read_u32(bytes: &[u8]) -> Option<u32>
    ensures { result ≡ u32_of bytes.now }
{
    match number(9, bytes) {
        Some(n) => Some(n as u32),
        None => None,
    }
}

/// The number that 1 to 18 digits spell, after a `-` or not. None exactly for other bytes.
pub fn read_i64(bytes: &[u8]) -> Option<i64>
    ensures { result ≡ i64_of bytes.now }
{
    match bytes {
        [] => None,
        [b'-', digits @ ..] => match number(18, digits) {
            Some(n) => Some(-(n as i64)),
            None => None,
        },
        _ => match number(18, bytes) {
            Some(n) => Some(n as i64),
            None => None,
        },
    }
}
