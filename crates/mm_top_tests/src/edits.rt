//! Jobs with edits, and the sizes of their trees, worked out by hand. Each text is given in one piece, and in pieces of 1 and of 7
//! bytes; then reads and writes fail.
use crate::changes::{CIRCUIT, changed};
use crate::running::{call_once, gives};
use mm_base::{MemorySink, MemorySource, Status};
use std::test::Fail;

/// The words of a job, the lines of the circuit that are exchanged (`N LINE`), the edits after it, what is written, and the status.
const EDITS: [(&str, &str, &str, &str, u8); 31] = [
    // a boundary that does not fit, and then a new leaf
    (
        "run",
        "15 least X not ind(X)",
        "replace c 0\nelem d 10 2\nend\nreplace c 0\nelem d 1 2\nend\n",
        "least 15 a b c\nrefused boundary 1 2\nleast 12 a b d\n",
        3,
    ),
    // a name that is taken, and then a new root, which has the old names again
    (
        "run",
        "",
        "replace c 0\nelem a 1 1\nend\nreplace a 2\nelem a 1 1\nelem b 1 1\njoin j\nvoid z 1\njoin k\nend\n",
        "false\nrefused name a taken\ntrue\n",
        3,
    ),
    // edits that are refused one after another
    (
        "run",
        "",
        "weight z 1\nreplace a 3\nend\nturn\nweight a 1000000000001\n",
        "false\nrefused unknown z\nrefused no-node a 3\nrefused syntax 19\nrefused limit weight 20\n",
        3,
    ),
    // new weights, the greatest and the least among them
    (
        "run",
        "15 least X not ind(X)",
        "weight a 1\nweight b 1000000000000\nweight c -1000000000000\n",
        "least 15 a b c\nleast 11 a b c\nleast 1000000000006 a b c\nleast 1 a b c\n",
        0,
    ),
    (
        "run",
        "",
        "weight a\nweight a 1 2\nweight a x\nweight A 1\n",
        "false\nrefused syntax 16\nrefused syntax 17\nrefused syntax 18\nrefused syntax 19\n",
        3,
    ),
    // a weight of a leaf without an element, of a leaf that is gone, and of one that is new
    (
        "run",
        "15 least X true",
        "replace c 0\nvoid c 1\nend\nweight c -1\nreplace c 0\nelem d 1 -2\nend\nweight c -1\nweight d -3\n",
        "least 0\nleast 0\nrefused unknown c\nleast -2 d\nrefused unknown c\nleast -3 d\n",
        3,
    ),
    // what may be wrong in a block, in the order in which it is looked for
    (
        "run",
        "",
        "replace z 0 1\nturn\nend\n",
        "false\nrefused syntax 16\n",
        3,
    ),
    (
        "run",
        "",
        "replace z 9\nturn\nend\n",
        "false\nrefused unknown z\n",
        3,
    ),
    (
        "run",
        "",
        "replace c 2\nturn\nend\n",
        "false\nrefused no-node c 2\n",
        3,
    ),
    (
        "run",
        "",
        "replace c 0\nturn\nelem d 10 1\nend\n",
        "false\nrefused syntax 17\n",
        3,
    ),
    (
        "run",
        "",
        "replace c 0\nelem d 1\nend\n",
        "false\nrefused syntax 17\n",
        3,
    ),
    (
        "run",
        "",
        "replace c 0\nelem d 1 1\nelem e 1 1\nend\n",
        "false\nrefused tree 19\n",
        3,
    ),
    (
        "run",
        "",
        "replace c 0\nend\n",
        "false\nrefused tree 17\n",
        3,
    ),
    (
        "run",
        "",
        "replace c 0\nelem d 1 1\njoin z\nend\n",
        "false\nrefused unknown z\n",
        3,
    ),
    (
        "run",
        "",
        "replace c 0\nelem d 1 1\nelem d 1 1\njoin j\nend\n",
        "false\nrefused name d taken\n",
        3,
    ),
    (
        "run",
        "",
        "replace c 0\nelem a 1 1\nelem b 1 1\njoin j\nend\n",
        "false\nrefused boundary 1 2\n",
        3,
    ),
    (
        "run",
        "",
        "replace c 0\nelem d 1111111 1\nend\n",
        "false\nrefused limit boundary 17\n",
        3,
    ),
    // the node that is exchanged may have the names of the new tree
    (
        "run",
        "15 least X not ind(X)",
        "replace a 1\nelem b 1 1\nelem a 1 2\njoin j\nend\nreplace c 1\nelem c 1 7\nvoid v 1\njoin j\nvoid w 1\njoin k\nend\n",
        "least 15 a b c\nleast 8 b a c\nnone\n",
        0,
    ),
    // checks see the present tree
    (
        "run",
        "",
        "replace c 0\nelem d 1 1\nend\ncheck\nelements a b c\nrow 101\nrow 011\nend\ncheck\nelements d a b\nrow 110\nrow 101\nend\n",
        "false\nfalse\ndiffers\nsame\n",
        0,
    ),
    (
        "run",
        "",
        "check\nelements a a\nend\ncheck\nrow 1\nend\ncheck\nelem a 1 1\nend\nend\n",
        "false\nrefused name a taken\nrefused syntax 20\nrefused syntax 23\nrefused syntax 25\n",
        3,
    ),
    // a long block that is not ended
    (
        "run",
        "",
        "weight a 1\ncheck\nelements a b c\n",
        "false\nfalse\nrefused unfinished\n",
        3,
    ),
    // all types are made afresh at each edit
    (
        "run --limit 9",
        "",
        "replace c 0\nvoid c 1\nend\nreplace c 0\nelem c 1 5\nend\nreplace c 0\nvoid c 1\nend\nreplace c 0\nelem c 1 5\nend\nreplace c 0\nvoid c 1\nend\nreplace c 0\nelem c 1 5\nend\nreplace c 0\nvoid c 1\nend\nreplace c 0\nelem c 1 5\nend\nreplace c 0\nvoid c 1\nend\nreplace c 0\nelem c 1 5\nend\n",
        "false\ntrue\nfalse\ntrue\nfalse\ntrue\nfalse\ntrue\nfalse\ntrue\nfalse\n",
        0,
    ),
    // an edit over the limit changes nothing
    (
        "run --limit 8",
        "",
        "replace c 0\nvoid c 1\nend\nweight a 2\n",
        "false\nrefused states\nfalse\n",
        3,
    ),
    ("run --limit 7", "", "weight a 2\n", "refused states\n", 1),
    // least sets: the first one where several weigh the same, none, the empty one, a negative one
    (
        "run",
        "9 elem a 1 1\n10 elem b 1 1\n12 elem c 1 1\n15 least X ex x x in X",
        "weight c 2\nweight b 2\n",
        "least 1 c\nleast 1 b\nleast 1 a\n",
        0,
    ),
    ("run", "15 least X false", "weight a 1\n", "none\nnone\n", 0),
    ("run", "15 least X true", "", "least 0\n", 0),
    (
        "run",
        "9 elem a 1 -5\n10 elem b 1 3\n12 elem c 1 0\n15 least X true",
        "",
        "least -5 a\n",
        0,
    ),
    (
        "run --limit 20",
        "15 least X not ind(X)",
        "",
        "least 15 a b c\n",
        0,
    ),
    (
        "run --limit 19",
        "15 least X not ind(X)",
        "",
        "refused states\n",
        1,
    ),
    // quantifiers over sets
    (
        "run",
        "15 decide all X all Y (X sub Y and ind(Y) implies ind(X))",
        "replace a 1\nvoid a 2\nend\n",
        "true\ntrue\n",
        0,
    ),
];

#[test]
fn edits_give_their_answers(rt: HostRuntime) -> Result<(), Fail> {
    let alloc = rt.alloc();
    for (words, lines, after, output, status) in EDITS {
        let text = changed(alloc, CIRCUIT, lines, after)?;
        for piece in [4096usize, 1, 7] {
            let same = gives(alloc, words, &text, piece.max(1), output, status)?;
            assert!(rt; same, "{words}: {lines} and {after}, in pieces of {piece}");
        }
    }
    Ok(())
}

/// The words of a job, a whole job, what is written, and the status.
const JOBS: [(&str, &str, &str, u8); 12] = [
    // the least size of all: one cell and one row
    (
        "run --limit 2",
        "mso 1\nfield 2\nelements a\nrow 1\ntree\nelem a 1 5\nend\ndecide ind(*)\n",
        "true\n",
        0,
    ),
    (
        "run --limit 1",
        "mso 1\nfield 2\nelements a\nrow 1\ntree\nelem a 1 5\nend\ndecide ind(*)\n",
        "refused states\n",
        1,
    ),
    // a quantifier over no elements
    (
        "run --limit 3",
        "mso 1\nfield 2\nelements\ntree\nvoid v 0\nend\ndecide ex x true\n",
        "false\n",
        0,
    ),
    (
        "run --limit 2",
        "mso 1\nfield 2\nelements\ntree\nvoid v 0\nend\ndecide ex x true\n",
        "refused states\n",
        1,
    ),
    (
        "run",
        "mso 1\nfield 2\nelements\ntree\nvoid v 0\nend\ndecide all x false\n",
        "true\n",
        0,
    ),
    // a leaf without an element is exchanged
    (
        "run",
        "mso 1\nfield 2\nelements a\nrow 1\nop j 1 1 2 0 10 01\ntree\nvoid v 1\nelem a 1 0\njoin j\nend\ndecide ind(*)\nreplace v 0\nelem b 1 0\nend\n",
        "true\ntrue\n",
        0,
    ),
    // two parallel elements over GF(3)
    (
        "run",
        "mso 1\nfield 3\nelements a b\nrow 12\nop m 1 1 0 1 1 2\ntree\nelem a 1 1\nelem b 1 1\njoin m\nend\ndecide ex x ex y (not x = y and not ind(x|y))\nreplace b 0\nelem b 0 1\nend\nreplace b 0\nvoid b 1\nend\n",
        "true\ntrue\nfalse\n",
        0,
    ),
    // the Fano plane, whose line d, e, f is the first
    (
        "run",
        "mso 1\nfield 2\nelements a b c d e f g\nrow 1001101\nrow 0101011\nrow 0010111\nop s 3 3 3 0 100/010/001 100/010/001\nop z 3 3 0 3 100/010/001 100/010/001\ntree\nelem a 100 1\nelem b 010 1\njoin s\nelem c 001 1\njoin s\nelem d 110 1\njoin s\nelem e 101 1\njoin s\nelem f 011 1\njoin s\nelem g 111 1\njoin z\nend\nleast X not ind(X)\nweight d 2\nweight e 2\nreplace g 0\nelem g 000 1\nend\n",
        "least 3 d e f\nleast 3 b e g\nleast 3 b c f\nleast 1 g\n",
        0,
    ),
    // a third boundary of its own: the sum of a and b, so that c closes a circuit with both
    (
        "run",
        "mso 2\nfield 2\nelements a b c\nrow 101\nrow 110\nop g 1 1 1 1 10 01 11\nop h 1 1 0 1 1 1 .\ntree\nelem a 1 1\nelem b 1 1\njoin g\nelem c 1 1\njoin h\nend\nleast X not ind(X)\nreplace b 0\nvoid b 1\nend\nreplace a 1\nelem d 1 3\nend\n",
        "least 3 a b c\nnone\nleast 4 d c\n",
        0,
    ),
    // the same over the limit, within it, and an edit over it
    (
        "run --limit 13",
        "mso 2\nfield 2\nelements a b c\nrow 101\nrow 110\nop g 1 1 1 1 10 01 11\nop h 1 1 0 1 1 1 .\ntree\nelem a 1 1\nelem b 1 1\njoin g\nelem c 1 1\njoin h\nend\nleast X not ind(X)\n",
        "refused states\n",
        1,
    ),
    (
        "run --limit 14",
        "mso 2\nfield 2\nelements a b c\nrow 101\nrow 110\nop g 1 1 1 1 10 01 11\nop h 1 1 0 1 1 1 .\ntree\nelem a 1 1\nelem b 1 1\njoin g\nelem c 1 1\njoin h\nend\nleast X not ind(X)\nweight a 3\n",
        "least 3 a b c\nleast 5 a b c\n",
        0,
    ),
    // over GF(4), with weights that turn the answer
    (
        "run",
        "mso 1\nfield 4\nelements a b\nrow 32\nop m 1 1 0 1 1 1\ntree\nelem a 1 1\nelem b 3 1\njoin m\nend\nleast X ex x x in X\nweight b 2\nreplace a 0\nelem a 2 4\nend\n",
        "least 1 b\nleast 1 a\nleast 2 b\n",
        0,
    ),
];

#[test]
fn whole_jobs_with_edits_give_their_answers(rt: HostRuntime) -> Result<(), Fail> {
    let alloc = rt.alloc();
    for (words, text, output, status) in JOBS {
        for piece in [4096usize, 1, 7] {
            let same = gives(alloc, words, text.as_bytes(), piece.max(1), output, status)?;
            assert!(rt; same, "{words}: {text} in pieces of {piece}");
        }
    }
    Ok(())
}

#[test]
fn a_long_line_is_an_edit_before_others(rt: HostRuntime) -> Result<(), Fail> {
    let alloc = rt.alloc();
    let mut text = changed(alloc, CIRCUIT, "", "")?;
    for _ in 0..65537 {
        text.push(b'a')?;
    }
    text.extend_from_slice(b"\nweight a 4\n")?;
    for piece in [4096usize, 1, 7] {
        let output = "false\nrefused line-too-long 16\nfalse\n";
        assert!(rt;
            gives(alloc, "run", &text, piece.max(1), output, 3)?,
            "in pieces of {piece}"
        );
    }
    Ok(())
}

#[test]
fn a_failed_read_keeps_the_answers_to_edits(rt: HostRuntime) -> Result<(), Fail> {
    let alloc = rt.alloc();
    let one = changed(alloc, CIRCUIT, "", "weight a 1\n")?;
    for (fails, held) in [(1u64, ""), (2, "false\n"), (3, "false\nfalse\n")] {
        let mut source = MemorySource::new(alloc, &one, 156, &[fails])?;
        let mut sink = MemorySink::new(alloc, 4096, &[])?;
        let status = call_once(alloc, "run", &mut source, &mut sink)?;
        assert!(rt; status == Status::ReadFault, "read {fails}");
        assert!(rt; sink.bytes() == held.as_bytes(), "read {fails}");
    }
    let two = changed(alloc, CIRCUIT, "", "weight a 1\nweight b 1\n")?;
    let mut source = MemorySource::new(alloc, &two, 156, &[3])?;
    let mut sink = MemorySink::new(alloc, 4096, &[])?;
    let status = call_once(alloc, "run", &mut source, &mut sink)?;
    assert!(rt; status == Status::ReadFault);
    assert!(rt; sink.bytes() == b"false\nfalse\nfalse\n".as_slice());
    Ok(())
}

#[test]
fn a_failed_write_leaves_a_front_of_the_answers_to_edits(rt: HostRuntime) -> Result<(), Fail> {
    let alloc = rt.alloc();
    let text = changed(alloc, CIRCUIT, "", "weight a 1\n")?;
    for (piece, fails, held) in [(4096usize, 1u64, ""), (1, 8, "false\nf"), (6, 2, "false\n")] {
        let mut source = MemorySource::new(alloc, &text, 156, &[])?;
        let mut sink = MemorySink::new(alloc, piece.max(1), &[fails])?;
        let status = call_once(alloc, "run", &mut source, &mut sink)?;
        assert!(rt; status == Status::WriteFault, "write {fails}");
        assert!(rt; sink.bytes() == held.as_bytes(), "write {fails}");
    }
    Ok(())
}
