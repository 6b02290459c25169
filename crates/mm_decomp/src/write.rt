//! The header of a job for a tree.

ghost use Rattle.std.specs.Prelude.{◌≡◌, ◌++◌, ◌∷◌, ◌<◌, [], codes, map, All, IfOk, OnOk};
ghost use Rattle.std.specs.Fmt.{decimal};
ghost use Rattle.mm_field.specs.Vectors.{AreDigits};
ghost use Rattle.mm_field.specs.declared.Field.TheVariants.{Five};
ghost use Rattle.mm_space.specs.VectorText.{gen_text};
ghost use Rattle.mm_tree.specs.Nodes.{named};
ghost use Rattle.mm_tree.specs.TreeText.{text_of_lines};
ghost use Rattle.mm_decomp.specs.HeaderText.{elements_lines, elements_text, field_text, header_text, name_lines, operator_lines, operator_text, row_text};

use crate::operator::append_digits;
use mm_base::{Name, NameList, NoMemory, Text};
use mm_field::Field;
use mm_matrix::Matrix;
use mm_ops::Op;
use mm_space::Gen;
use mm_tree::{Node, Tree, append_vector, write_tree};
use std::alloc::Global;

/// The most names in a line.
const MAX_NAMES: usize = 64;

/// The header of a job in format 1, up to the `end` of its tree: the names of the elements, the rows, the operators and the tree. Where
/// the operators are of that format, with different names, and the tree's leaves are the names, it is read back as these.
pub fn write_header(
    alloc: Global,
    names: &NameList,
    rows: &Matrix,
    tree: &Tree,
) -> Result<Text, NoMemory>
    ensures { IfOk result (λ text. text ≡ header_text names.now rows.now tree.now.tree) }
{
    let mut text = Text::new(alloc);
    append_field(alloc, &mut text, rows.field())?;
    append_names(alloc, &mut text, names)?;
    append_rows(alloc, &mut text, rows)?;
    append_operators(alloc, &mut text, tree.node())?;
    text.append(alloc, b"tree\n")?;
    text.append(alloc, write_tree(alloc, tree)?.bytes())?;
    Ok(text)
}

/// The lines of the format and of the field.
pub(crate) fn append_field(alloc: Global, text: &mut Text, f: Field) -> Result<(), NoMemory>
    ensures { OnOk result (text.new ≡ text.old ++ text_of_lines (codes "mso 1" ∷ field_text f ∷ [])) }
{
    text.append(alloc, b"mso 1\nfield")?;
    append_number(alloc, text, f.q())?;
    text.append(alloc, b"\n")
}

/// A blank and a number.
fn append_number(alloc: Global, text: &mut Text, number: u8) -> Result<(), NoMemory>
    ensures { OnOk result (text.new ≡ text.old ++ 32 ∷ decimal number) }
{
    let digits = format!(in alloc; "{number}")?;
    text.append(alloc, b" ")?;
    text.append(alloc, digits.as_bytes())
}

/// The line with number `k` of the names.
fn append_names_line(
    alloc: Global,
    text: &mut Text,
    names: &NameList,
    k: usize,
) -> Result<(), NoMemory>
    requires { k < name_lines names.now }
    ensures { OnOk result (text.new ≡ text.old ++ text_of_lines (elements_text names.now k ∷ [])) }
{
    let n = names.len();
    let from = MAX_NAMES * k;
    text.append(alloc, b"elements")?;
    for i in 0..MAX_NAMES.min(n - from) {
        text.append(alloc, b" ")?;
        text.append(alloc, names.at(from + i).bytes())?;
    }
    text.append(alloc, b"\n")
}

/// The lines of the names.
fn append_names(alloc: Global, text: &mut Text, names: &NameList) -> Result<(), NoMemory>
    ensures { OnOk result (text.new ≡ text.old ++ text_of_lines (elements_lines names.now)) }
{
    for k in 0..names.len().div_ceil(MAX_NAMES) {
        append_names_line(alloc, text, names, k)?;
    }
    Ok(())
}

/// The line of a row.
fn append_row(alloc: Global, text: &mut Text, row: &[u8]) -> Result<(), NoMemory>
    requires { AreDigits Five row.now }
    ensures { OnOk result (text.new ≡ text.old ++ text_of_lines (row_text row.now ∷ [])) }
{
    let mut line = Vec::new(alloc);
    append_digits(&mut line, row)?;
    text.append(alloc, b"row ")?;
    text.append(alloc, &line)?;
    text.append(alloc, b"\n")
}

/// The lines of the rows.
fn append_rows(alloc: Global, text: &mut Text, rows: &Matrix) -> Result<(), NoMemory>
    ensures { OnOk result (text.new ≡ text.old ++ text_of_lines (map row_text rows.now.rows)) }
{
    for i in 0..rows.rows() {
        append_row(alloc, text, rows.row(i))?;
    }
    Ok(())
}

/// The vectors of a generator with `/` between them, or `.` for none.
fn append_generator(alloc: Global, text: &mut Text, vectors: &Gen) -> Result<(), NoMemory>
    requires { All (λ v. AreDigits Five v) vectors.now }
    ensures { OnOk result (text.new ≡ text.old ++ gen_text vectors.now) }
{
    if vectors.rows() == 0 {
        return text.append(alloc, b".");
    }
    append_vector(alloc, text, vectors.row(0))?;
    for k in 1..vectors.rows() {
        text.append(alloc, b"/")?;
        append_vector(alloc, text, vectors.row(k))?;
    }
    Ok(())
}

/// The line of an operator.
fn append_operator(alloc: Global, text: &mut Text, name: &Name, op: &Op) -> Result<(), NoMemory>
    ensures { OnOk result (text.new ≡ text.old ++ text_of_lines (operator_text name.now op.now.op ∷ [])) }
{
    let _ = op.field();
    text.append(alloc, b"op ")?;
    text.append(alloc, name.bytes())?;
    append_number(alloc, text, op.t1())?;
    append_number(alloc, text, op.t2())?;
    append_number(alloc, text, op.t3())?;
    append_number(alloc, text, op.c())?;
    text.append(alloc, b" ")?;
    append_generator(alloc, text, op.g1())?;
    text.append(alloc, b" ")?;
    append_generator(alloc, text, op.g2())?;
    text.append(alloc, b"\n")
}

/// The lines of the operators of a node and of all below it.
fn append_operators(alloc: Global, text: &mut Text, node: &Node) -> Result<(), NoMemory>
    ensures { OnOk result (text.new ≡ text.old ++ text_of_lines (operator_lines (named node.now))) }
{
    match node {
        Node::Leaf(_) => Ok(()),
        Node::Join(name, op, left, right) => {
            append_operators(alloc, text, left)?;
            append_operators(alloc, text, right)?;
            append_operator(alloc, text, name, op)
        }
    }
}
