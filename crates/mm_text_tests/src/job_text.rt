//! The words of refusals, and a written line that is read.

use mm_base::Name;
use mm_field::Field;
use mm_job_text::{Limit, Refusal, read_element, words};
use mm_lines::{Framer, Line};
use mm_space::Vector;
use mm_tree::{Builder, Tree, write_tree};
use std::alloc::Global;
use std::test::Fail;

#[test]
fn words_of_refusals(rt: HostRuntime) -> Result<(), Fail> {
    let alloc = rt.alloc();
    for (refusal, text) in [
        (Refusal::Syntax(4), &b"syntax 4"[..]),
        (Refusal::Over(Limit::Depth, 12), b"limit depth 12"),
        (Refusal::Dependent(8, 1), b"operator 8 dependent 1"),
        (Refusal::Boundary(2, 1), b"boundary 2 1"),
        (Refusal::Unfinished, b"unfinished"),
    ] {
        assert_eq!(rt; words(alloc, &refusal)?.bytes(), text);
    }
    Ok(())
}

/// An element of the boundary 12 and the weight -7, over GF(3).
fn element(alloc: Global) -> Option<Tree> {
    let mut builder = Builder::new(alloc, Field::Three);
    let vec = Vector::read(Field::Three, b"12")?;
    if vec.len() > 6 {
        return None;
    }
    builder.elem(alloc, Name::read(b"a")?, vec, -7).ok()?;
    builder.finish().ok()
}

/// The first line of a short text.
fn first_line(alloc: Global, text: &[u8]) -> Option<Line> {
    if text.len() > 100 {
        return None;
    }
    let mut framer = Framer::new(alloc);
    framer.feed(alloc, text).ok()?;
    framer.next_line(alloc).ok()?
}

#[test]
fn a_written_element_is_read(rt: HostRuntime) -> Result<(), Fail> {
    let alloc = rt.alloc();
    let tree = element(alloc).ok_or("an element")?;
    let text = write_tree(alloc, &tree)?;
    let line = first_line(alloc, text.bytes()).ok_or("a line")?;
    let words = read_element(Field::Three, &line).ok().ok_or("an element")?;
    assert_eq!(rt; words.name.bytes(), b"a".as_slice());
    assert_eq!(rt; Some(words.vec), Vector::read(Field::Three, b"12"));
    assert_eq!(rt; words.weight, -7);
    Ok(())
}
