//! The lines of a sample before those of its tree.

ghost use Rattle.std.specs.Prelude.{◌≡◌, ◌≤◌, ◌+◌, ◌++◌, ◌∷◌, [], OnOk, map};
ghost use Rattle.mm_field.specs.declared.Field.TheVariants.{Five};
ghost use Rattle.mm_field.specs.Vectors.{AreDigits};
ghost use Rattle.mm_sample.specs.SampleText.{elements_line, header_lines, row_line};
ghost use Rattle.mm_tree.specs.TreeText.{text_of_lines};

use crate::numbers::{append_element, append_number};
use mm_base::{NoMemory, Text};
use mm_field::Field;
use mm_matrix::Matrix;
use std::alloc::Global;

/// The lines before those of the tree.
pub(crate) fn append_header(
    alloc: Global,
    text: &mut Text,
    f: Field,
    n: u32,
    rows: &Matrix,
) -> Result<(), NoMemory>
    requires { n ≤ 200 }
    ensures { OnOk result (text.new ≡ text.old ++ text_of_lines (header_lines f n rows.now.rows)) }
{
    text.append(alloc, b"mso 1\nfield ")?;
    append_number(alloc, text, u64::from(f.q()))?;
    text.append(alloc, b"\n")?;
    append_elements(alloc, text, n)?;
    text.append(alloc, b"\n")?;
    append_rows(alloc, text, rows)?;
    text.append(
        alloc,
        b"op p 2 2 2 0 10/01 10/01\nop s 2 2 2 1 100/011 010/001\ntree\n",
    )
}

/// `elements e1 .. en`
fn append_elements(alloc: Global, text: &mut Text, n: u32) -> Result<(), NoMemory>
    requires { n ≤ 200 }
    ensures { OnOk result (text.new ≡ text.old ++ elements_line n) }
{
    text.append(alloc, b"elements")?;
    for i in 0..n {
        text.append(alloc, b" ")?;
        append_element(alloc, text, i + 1)?;
    }
    Ok(())
}

/// A line for each row.
fn append_rows(alloc: Global, text: &mut Text, rows: &Matrix) -> Result<(), NoMemory>
    ensures { OnOk result (text.new ≡ text.old ++ text_of_lines (map row_line rows.now.rows)) }
{
    for i in 0..rows.rows() {
        append_row(alloc, text, rows.row(i))?;
    }
    Ok(())
}

/// `row DIGITS`
fn append_row(alloc: Global, text: &mut Text, row: &[u8]) -> Result<(), NoMemory>
    requires { AreDigits Five row.now }
    ensures { OnOk result (text.new ≡ text.old ++ text_of_lines (row_line row.now ∷ [])) }
{
    text.append(alloc, b"row ")?;
    append_digits(alloc, text, row)?;
    text.append(alloc, b"\n")
}

/// The digits of a row.
fn append_digits(alloc: Global, text: &mut Text, row: &[u8]) -> Result<(), NoMemory>
    requires { AreDigits Five row.now }
    ensures { OnOk result (text.new ≡ text.old ++ map (λ d. 48 + d) row.now) }
{
    for k in 0..row.len() {
        text.append(alloc, &[b'0' + row[k]])?;
    }
    Ok(())
}
