//! Types as text.
use mm_reference::Value;
use std::alloc::AllocError;

/// The digits of rows, with a bar between two of them.
fn show_rows(rows: &[Vec<u8>], out: &mut String) -> Result<(), AllocError> {
    for (i, row) in rows.iter().enumerate() {
        if i != 0 {
            out.push('/')?;
        }
        for d in row {
            out.push(char::from(b'0' + d % 10))?;
        }
    }
    Ok(())
}

/// The members of a set after the first, each after a comma.
#[cycle(showing)]
fn show_others(set: &Value, out: &mut String) -> Result<(), AllocError> {
    if let Value::With(least, others) = set {
        out.push_str(",")?;
        show(least, out)?;
        show_others(others, out)?;
    }
    Ok(())
}

/// A value as text: a flag by its number, a space by its length and its basis, a pair in round brackets, and a set in braces.
#[cycle(showing)]
pub fn show(value: &Value, out: &mut String) -> Result<(), AllocError> {
    match value {
        Value::Flag(n) => out.push(char::from(b'0' + n % 10))?,
        Value::Dead => out.push_str("dead")?,
        Value::Span(t, rows) => {
            out.push_str("<")?;
            out.push(char::from(b'0' + (*t % 10) as u8))?;
            out.push_str(":")?;
            show_rows(rows, out)?;
            out.push_str(">")?;
        }
        Value::Pair(first, second) => {
            out.push_str("(")?;
            show(first, out)?;
            out.push_str(",")?;
            show(second, out)?;
            out.push_str(")")?;
        }
        Value::Empty => out.push_str("{}")?,
        Value::With(least, others) => {
            out.push_str("{")?;
            show(least, out)?;
            show_others(others, out)?;
            out.push_str("}")?;
        }
    }
    Ok(())
}
