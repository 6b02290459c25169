//! Texts of decompositions, and the headers of the trees that are built for them.

use mm_base::{Name, Text, TextFault};
use mm_decomp::{
    ShapeBuilder, ShapeFault, build_tree, dual_text, read_build, shape_of, write_header,
};
use std::alloc::Global;
use std::process::Abort;
use std::test::Fail;

fn name(rt: &impl Abort, bytes: &[u8]) -> Name {
    Name::read(bytes).expect(rt, "a name")
}

#[test]
fn a_shape_is_refused(rt: HostRuntime) -> Result<(), Fail> {
    let alloc = rt.alloc();
    let mut builder = ShapeBuilder::new(alloc);
    assert_eq!(rt; builder.join(), Err(ShapeFault::TooFew));
    let a = name(&rt, b"a");
    builder.leaf(alloc, a, 0).expect(&rt, "a leaf");
    assert_eq!(rt; builder.leaf(alloc, a, 0), Err(ShapeFault::NameTaken(a)));
    builder
        .leaf(alloc, name(&rt, b"b"), 0)
        .expect(&rt, "a leaf");
    assert_eq!(rt; builder.join(), Ok(()));
    assert_eq!(rt; builder.finish().is_ok(), true);
    assert_eq!(rt; builder.join(), Err(ShapeFault::TooFew));
    Ok(())
}

/// Four points on a line, as a text.
const LINE: &[u8] =
    b"mso-build 1\nfield 3\nelements a b\n# and two more\nelements c d\nrow 1011\nrow 0112\nshape\n\
leaf a 1\nleaf b -2\njoin\nleaf c 0\njoin\nleaf d 4\njoin\nend\n";

/// The header of the tree that is built for it.
const LINE_HEADER: &[u8] =
    b"mso 1\nfield 3\nelements a b c d\nrow 1011\nrow 0112\nop j1 1 1 2 0 10 01\n\
op j2 2 1 1 1 01/21 22\nop j3 1 1 0 1 1 1\ntree\nelem a 1 1\nelem b 1 -2\njoin j1\nelem c 1 0\njoin j2\nelem d 1 4\njoin j3\nend\n";

#[test]
fn a_text_becomes_a_header(rt: HostRuntime) -> Result<(), Fail> {
    let alloc = rt.alloc();
    let build = read_build(alloc, LINE).expect(&rt, "a decomposition");
    assert_eq!(rt; (build.line_of(0), build.line_of(6)), (9, 15));
    let tree = build_tree(alloc, &build.names, &build.rows, &build.shape).expect(&rt, "a tree");
    let header = write_header(alloc, &build.names, &build.rows, &tree)?;
    assert_eq!(rt; header.bytes(), LINE_HEADER);
    assert!(rt; tree.elements(alloc)?.len() <= 4096);
    let shape = shape_of(alloc, &tree)?.expect(&rt, "a shape");
    assert_eq!(rt; shape.steps(), build.shape.steps());
    Ok(())
}

/// The words by which a text is refused.
fn words(alloc: Global, text: &[u8]) -> Text {
    match read_build(alloc, text) {
        Err(TextFault::Refused(words)) => words,
        _ => Text::new(alloc),
    }
}

#[test]
fn a_text_is_refused(rt: HostRuntime) -> Result<(), Fail> {
    let alloc = rt.alloc();
    let cases: [(&[u8], &[u8]); 9] = [
        (b"mso-build 2\n", b"syntax 1"),
        (b"mso-build 1\nfield 6\n", b"field 2"),
        (b"mso-build 1\nfield 2\nelements a a\n", b"name a taken"),
        (
            b"mso-build 1\nfield 2\nelements a\nshape\nleaf a 1000000000001\n",
            b"limit weight 5",
        ),
        (
            b"mso-build 1\nfield 2\nelements a\nshape\nleaf a 0\njoin\n",
            b"tree 6",
        ),
        (b"mso-build 1\nfield 2\nelements a\nshape\nend\n", b"tree 5"),
        (
            b"mso-build 1\nfield 2\nelements a\nshape\nleaf a 0\nend\nend\n",
            b"syntax 7",
        ),
        (
            b"mso-build 1\nfield 2\nelements a\nshape\nleaf b 0\n",
            b"unfinished",
        ),
        (
            b"mso-build 1\nfield 2\nelements a\nshape\nleaf b 0\nend\n",
            b"elements a",
        ),
    ];
    for (text, refusal) in cases {
        assert_eq!(rt; words(alloc, text).bytes(), refusal);
    }
    Ok(())
}

/// Three points on a line, each two of them independent, as a header without its query.
const TRIANGLE: &[u8] =
    b"mso 1\nfield 2\nelements a b c\nrow 101\nrow 011\nop j 1 1 2 0 10 01\nop k 2 1 0 2 10/01 11\n\
tree\nelem a 1 5\nelem b 1 5\njoin j\nelem c 1 5\njoin k\nend\n";

/// The header of its dual: three points in one place.
const TRIANGLE_DUAL: &[u8] =
    b"mso 1\nfield 2\nelements a b c\nrow 111\nop j1 1 1 1 0 1 1\nop j2 1 1 0 1 1 1\n\
tree\nelem a 1 5\nelem b 1 5\njoin j1\nelem c 1 5\njoin j2\nend\n";

/// The header of the dual of no elements.
const EMPTY_DUAL: &[u8] = b"mso 1\nfield 3\ntree\nvoid v 0\nend\n";

#[test]
fn a_header_becomes_its_dual(rt: HostRuntime) -> Result<(), Fail> {
    let alloc = rt.alloc();
    let dual = dual_text(alloc, TRIANGLE).expect(&rt, "a header");
    assert_eq!(rt; dual.bytes(), TRIANGLE_DUAL);
    let empty = dual_text(alloc, b"mso 1\nfield 3\ntree\nvoid w 2\nend\n").expect(&rt, "a header");
    assert_eq!(rt; empty.bytes(), EMPTY_DUAL);
    Ok(())
}

/// The words by which a header is refused.
fn header_words(alloc: Global, text: &[u8]) -> Text {
    match dual_text(alloc, text) {
        Err(TextFault::Refused(words)) => words,
        _ => Text::new(alloc),
    }
}

#[test]
fn a_header_is_refused(rt: HostRuntime) -> Result<(), Fail> {
    let alloc = rt.alloc();
    let cases: [(&[u8], &[u8]); 3] = [
        (b"mso 1\nfield 3\ntree\nvoid w 2\nend\nend\n", b"syntax 6"),
        (
            b"mso 1\nfield 3\nelements a\ntree\nvoid w 2\nend\n",
            b"elements a",
        ),
        (b"mso 1\nfield 3\nelements a\n", b"unfinished"),
    ];
    for (text, refusal) in cases {
        assert_eq!(rt; header_words(alloc, text).bytes(), refusal);
    }
    Ok(())
}
