//! The commands beside `run`, worked out by hand or by a plain model: what they write, in whatever pieces their text comes, and how
//! they end where reads and writes fail.
use crate::changes::CIRCUIT;
use crate::running::{call_once, gives};
use mm_base::{MemorySink, MemorySource, Status, SureSink};
use std::test::Fail;

/// Three elements over GF(2) that form a circuit, and a chain of them.
const CHAIN: &str = "\
mso-build 1
field 2
elements a b c
row 101
row 011
shape
leaf a 5
leaf b 5
join
leaf c 5
join
end
";

/// The text of a decomposition, what `build` writes, and the status.
const BUILDS: [(&str, &str, u8); 18] = [
    // three elements that form a circuit
    (
        "mso-build 1\nfield 2\nelements a b c\nrow 101\nrow 011\nshape\nleaf a 5\nleaf b 5\njoin\nleaf c 5\njoin\nend\n",
        "mso 1\nfield 2\nelements a b c\nrow 101\nrow 011\nop j1 1 1 1 1 01 11\nop j2 1 1 0 1 1 1\ntree\nelem a 1 5\nelem b 1 5\njoin j1\nelem c 1 5\njoin j2\nend\n",
        0,
    ),
    // seven columns, each with its equal on the other side
    (
        "mso-build 1\nfield 2\nelements a1 a2 a3 a4 a5 a6 a7 b1 b2 b3 b4 b5 b6 b7\nrow 10000001000000\nrow 01000000100000\nrow 00100000010000\nrow 00010000001000\nrow 00001000000100\nrow 00000100000010\nrow 00000010000001\nshape\nleaf a1 0\nleaf a2 0\njoin\nleaf a3 0\njoin\nleaf a4 0\njoin\nleaf a5 0\njoin\nleaf a6 0\njoin\nleaf a7 0\njoin\nleaf b1 0\njoin\nleaf b2 0\njoin\nleaf b3 0\njoin\nleaf b4 0\njoin\nleaf b5 0\njoin\nleaf b6 0\njoin\nleaf b7 0\njoin\nend\n",
        "refused width 24\n",
        1,
    ),
    // over GF(4), with a column of zeros and a row that depends on the others
    (
        "mso-build 1\nfield 4\nelements x y\nelements z\nrow 210\nrow 130\nrow 110\nshape\nleaf z -3\nleaf y 0\nleaf x 7\njoin\njoin\nend\n",
        "mso 1\nfield 4\nelements x y z\nrow 210\nrow 130\nrow 110\nop j1 1 1 0 2 10 01\nop j2 0 0 0 0 . .\ntree\nelem z - -3\nelem y 1 0\nelem x 2 7\njoin j1\njoin j2\nend\n",
        0,
    ),
    // no rows
    (
        "mso-build 1\nfield 3\nelements a b\nshape\nleaf b 1\nleaf a -1\njoin\nend\n",
        "mso 1\nfield 3\nelements a b\nop j1 0 0 0 0 . .\ntree\nelem b - 1\nelem a - -1\njoin j1\nend\n",
        0,
    ),
    ("", "refused unfinished\n", 1),
    // a line after the end
    (
        "mso-build 1\nfield 2\nelements a b c\nrow 101\nrow 011\nshape\nleaf a 5\nleaf b 5\njoin\nleaf c 5\njoin\nend\ndecide ind(*)\n",
        "refused syntax 13\n",
        1,
    ),
    // a comment after the end
    (
        "mso-build 1\nfield 2\nelements a b c\nrow 101\nrow 011\nshape\nleaf a 5\nleaf b 5\njoin\nleaf c 5\njoin\nend\n# note\n\n",
        "mso 1\nfield 2\nelements a b c\nrow 101\nrow 011\nop j1 1 1 1 1 01 11\nop j2 1 1 0 1 1 1\ntree\nelem a 1 5\nelem b 1 5\njoin j1\nelem c 1 5\njoin j2\nend\n",
        0,
    ),
    (
        "mso-build 1\nfield 2\nelements a b c\nrow 101\nrow 011\nshape\nleaf a 1000000000001\nleaf b 5\njoin\nleaf c 5\njoin\nend\n",
        "refused limit weight 7\n",
        1,
    ),
    (
        "mso-build 1\nfield 2\nelements a b c\nrow 101\nrow 011\nshape\nleaf a 5\nleaf b 5\njoin\nleaf a 5\njoin\nend\n",
        "refused name a taken\n",
        1,
    ),
    (
        "mso-build 1\nfield 2\nelements a b d\nrow 101\nrow 011\nshape\nleaf a 5\nleaf b 5\njoin\nleaf c 5\njoin\nend\n",
        "refused elements d\n",
        1,
    ),
    (
        "mso-build 1\nfield 2\nelements a b a\nrow 101\nrow 011\nshape\nleaf a 5\nleaf b 5\njoin\nleaf c 5\njoin\nend\n",
        "refused name a taken\n",
        1,
    ),
    (
        "mso-build 1\nfield 2\nelements a b c\nrow 101\nrow 011\nshape\nleaf a 5\njoin\nleaf b 5\nleaf c 5\njoin\nend\n",
        "refused tree 8\n",
        1,
    ),
    (
        "mso-build 1\nfield 2\nelements a b c\nrow 101\nrow 011\nshape\nleaf a 5\nleaf b 5\njoin\nleaf c 5\nend\n",
        "refused tree 11\n",
        1,
    ),
    (
        "mso-build 1\nfield 2\nelements a b c\nrow 101\nrow 011\nshape\nleaf a 5\nleaf b 5\njoin\nleaf c 5\njoin\n",
        "refused unfinished\n",
        1,
    ),
    (
        "mso 1\nfield 2\nelements a b c\nrow 101\nrow 011\nshape\nleaf a 5\nleaf b 5\njoin\nleaf c 5\njoin\nend\n",
        "refused syntax 1\n",
        1,
    ),
    (
        "mso-build 1\nfield 6\nelements a b c\nrow 101\nrow 011\nshape\nleaf a 5\nleaf b 5\njoin\nleaf c 5\njoin\nend\n",
        "refused field 2\n",
        1,
    ),
    (
        "mso-build 1\nfield 2\nelements a b c\nrow 101\nrow 021\nshape\nleaf a 5\nleaf b 5\njoin\nleaf c 5\njoin\nend\n",
        "refused syntax 5\n",
        1,
    ),
    // no leaves
    ("mso-build 1\nfield 2\nshape\nend\n", "refused tree 4\n", 1),
];

#[test]
fn decompositions_give_their_headers(rt: HostRuntime) -> Result<(), Fail> {
    let alloc = rt.alloc();
    for (text, output, status) in BUILDS {
        for piece in [4096usize, 1, 7] {
            let same = gives(
                alloc,
                "build",
                text.as_bytes(),
                piece.max(1),
                output,
                status,
            )?;
            assert!(rt; same, "{text} in pieces of {piece}");
        }
    }
    Ok(())
}

/// The text of a header without its query, what `dual` writes, and the status.
const DUALS: [(&str, &str, u8); 10] = [
    // the circuit, whose dual has one row
    (
        "mso 1\nfield 2\nelements a b c\nrow 101\nrow 011\nop j 1 1 2 0 10 01\nop k 2 1 0 2 10/01 11\ntree\nelem a 1 5\nelem b 1 5\njoin j\nelem c 1 5\njoin k\nend\n",
        "mso 1\nfield 2\nelements a b c\nrow 111\nop j1 1 1 1 0 1 1\nop j2 1 1 0 1 1 1\ntree\nelem a 1 5\nelem b 1 5\njoin j1\nelem c 1 5\njoin j2\nend\n",
        0,
    ),
    // no elements
    (
        "mso 1\nfield 3\ntree\nvoid w 2\nend\n",
        "mso 1\nfield 3\ntree\nvoid v 0\nend\n",
        0,
    ),
    // a query after the tree
    (
        "mso 1\nfield 2\nelements a b c\nrow 101\nrow 011\nop j 1 1 2 0 10 01\nop k 2 1 0 2 10/01 11\ntree\nelem a 1 5\nelem b 1 5\njoin j\nelem c 1 5\njoin k\nend\ndecide ind(*)\n",
        "refused syntax 15\n",
        1,
    ),
    // a third boundary of its own
    (
        "mso 2\nfield 2\nelements a b c\nrow 101\nrow 110\nop g 1 1 1 1 10 01 11\nop h 1 1 0 1 1 1 .\ntree\nelem a 1 1\nelem b 1 1\njoin g\nelem c 1 1\njoin h\nend\n",
        "mso 1\nfield 2\nelements a b c\nrow 111\nop j1 1 1 1 0 1 1\nop j2 1 1 0 1 1 1\ntree\nelem a 1 1\nelem b 1 1\njoin j1\nelem c 1 1\njoin j2\nend\n",
        0,
    ),
    (
        "mso 1\nfield 2\nelements a b c\nrow 101\nrow 010\nop j 1 1 2 0 10 01\nop k 2 1 0 2 10/01 11\ntree\nelem a 1 5\nelem b 1 5\njoin j\nelem c 1 5\njoin k\nend\n",
        "refused rowspace given 2\n",
        1,
    ),
    (
        "mso 1\nfield 2\nelements a b c\nrow 101\nop j 1 1 2 0 10 01\nop k 2 1 0 2 10/01 11\ntree\nelem a 1 5\nelem b 1 5\njoin j\nelem c 1 5\njoin k\nend\n",
        "refused rowspace tree 2\n",
        1,
    ),
    (
        "mso 1\nfield 2\nelements a b d\nrow 101\nrow 011\nop j 1 1 2 0 10 01\nop k 2 1 0 2 10/01 11\ntree\nelem a 1 5\nelem b 1 5\njoin j\nelem c 1 5\njoin k\nend\n",
        "refused elements d\n",
        1,
    ),
    (
        "mso 1\nfield 2\nelements a b c\nrow 101\nrow 011\nop j 1 1 2 0 10 01\nop k 2 1 0 2 10/01 11\ntree\nelem a 1 5\nelem b 1 5\njoin j\nelem c 1 5\njoin k\n",
        "refused unfinished\n",
        1,
    ),
    (
        "mso 1\nfield 2\nelements a b c\nrow 101\nrow 011\nop j 1 1 2 0 10 01\nop k 2 1 0 2 10/01 11\ntree\nelem a 1 5\nelem b 1 5\njoin j\nelem c 1 5\nend\n",
        "refused tree 13\n",
        1,
    ),
    ("", "refused unfinished\n", 1),
];

#[test]
fn headers_give_those_of_their_duals(rt: HostRuntime) -> Result<(), Fail> {
    let alloc = rt.alloc();
    for (text, output, status) in DUALS {
        for piece in [4096usize, 1, 7] {
            let same = gives(alloc, "dual", text.as_bytes(), piece.max(1), output, status)?;
            assert!(rt; same, "{text} in pieces of {piece}");
        }
    }
    Ok(())
}

/// The words, the text of a job that asks for a minor, its answers, and the status.
const MINORS: [(&str, &str, &str, u8); 6] = [
    // a circuit of three elements has a loop as a minor, and a basis has none
    (
        "minor 2 0",
        "mso 1\nfield 2\nelements a b c\nrow 101\nrow 011\nop j 1 1 2 0 10 01\nop k 2 1 0 2 10/01 11\ntree\nelem a 1 5\nelem b 1 5\njoin j\nelem c 1 5\njoin k\nend\nminor\nreplace c 0\nvoid c 1\nend\n",
        "true\nfalse\n",
        0,
    ),
    // two parallel elements
    (
        "minor 2 11",
        "mso 1\nfield 2\nelements a b c\nrow 101\nrow 011\nop j 1 1 2 0 10 01\nop k 2 1 0 2 10/01 11\ntree\nelem a 1 5\nelem b 1 5\njoin j\nelem c 1 5\njoin k\nend\nminor\n",
        "true\n",
        0,
    ),
    // four points on a line, over another field than that of the tree
    (
        "minor 03 1011/0112",
        "mso 1\nfield 2\nelements a b c\nrow 101\nrow 011\nop j 1 1 2 0 10 01\nop k 2 1 0 2 10/01 11\ntree\nelem a 1 5\nelem b 1 5\njoin j\nelem c 1 5\njoin k\nend\nminor\n",
        "false\n",
        0,
    ),
    // a query of another kind
    (
        "minor 2 11",
        "mso 1\nfield 2\nelements a b c\nrow 101\nrow 011\nop j 1 1 2 0 10 01\nop k 2 1 0 2 10/01 11\ntree\nelem a 1 5\nelem b 1 5\njoin j\nelem c 1 5\njoin k\nend\ndecide ind(*)\n",
        "refused syntax 15\n",
        1,
    ),
    (
        "run",
        "mso 1\nfield 2\nelements a b c\nrow 101\nrow 011\nop j 1 1 2 0 10 01\nop k 2 1 0 2 10/01 11\ntree\nelem a 1 5\nelem b 1 5\njoin j\nelem c 1 5\njoin k\nend\nminor\n",
        "refused syntax 15\n",
        1,
    ),
    ("minor 02 10/01", "", "refused unfinished\n", 1),
];

#[test]
fn jobs_that_ask_for_a_minor_are_answered(rt: HostRuntime) -> Result<(), Fail> {
    let alloc = rt.alloc();
    for (words, text, output, status) in MINORS {
        for piece in [4096usize, 1, 7] {
            let same = gives(alloc, words, text.as_bytes(), piece.max(1), output, status)?;
            assert!(rt; same, "{words} in pieces of {piece}");
        }
    }
    Ok(())
}

#[test]
fn a_built_header_is_that_of_a_job(rt: HostRuntime) -> Result<(), Fail> {
    let alloc = rt.alloc();
    let mut source = MemorySource::new(alloc, CHAIN.as_bytes(), 9, &[])?;
    let mut job = SureSink::new(alloc);
    let status = call_once(alloc, "build", &mut source, &mut job)?;
    assert!(rt; status == Status::Done);
    let mut text = job.bytes().to_vec(alloc)?;
    text.extend_from_slice(b"decide ind(*)\n")?;
    assert!(rt; gives(alloc, "run", &text, 9, "false\n", 0)?);
    Ok(())
}

/// The words of a sample, what is written, and the status.
const SAMPLES: [(&str, &str, u8); 8] = [
    ("sample 2 2 1", SMALLEST, 0),
    (
        "sample 03 0000000020 7",
        "answers 21\nfirst least 257 10\nlast least 220 9\n",
        0,
    ),
    (
        "sample 5 40 2147483646",
        "answers 41\nfirst least 1193 27\nlast least 1125 26\n",
        0,
    ),
    ("sample 2 1 1", "refused usage\n", 2),
    ("sample 2 201 1", "refused usage\n", 2),
    ("sample 6 2 1", "refused usage\n", 2),
    ("sample 2 2 0", "refused usage\n", 2),
    ("sample 2 2 2147483647", "refused usage\n", 2),
];

/// The short form of the smallest sample.
const SMALLEST: &str = "answers 3\nfirst least 171 2\nlast least 157 2\n";

#[test]
fn samples_are_shown_in_short(rt: HostRuntime) -> Result<(), Fail> {
    let alloc = rt.alloc();
    for (words, output, status) in SAMPLES {
        assert!(rt; gives(alloc, words, b"", 1, output, status)?, "{words}");
    }
    Ok(())
}

#[test]
fn a_sample_reads_nothing(rt: HostRuntime) -> Result<(), Fail> {
    let alloc = rt.alloc();
    let mut source = MemorySource::new(alloc, CIRCUIT.as_bytes(), 9, &[1])?;
    let mut sink = MemorySink::new(alloc, 4096, &[])?;
    let status = call_once(alloc, "sample 2 2 1", &mut source, &mut sink)?;
    assert!(rt; status == Status::Done);
    assert!(rt; sink.bytes() == SMALLEST.as_bytes());
    Ok(())
}

#[test]
fn a_failed_read_writes_nothing(rt: HostRuntime) -> Result<(), Fail> {
    let alloc = rt.alloc();
    for fails in [1u64, 2, 3] {
        let mut source = MemorySource::new(alloc, CHAIN.as_bytes(), 60, &[fails])?;
        let mut sink = MemorySink::new(alloc, 4096, &[])?;
        let status = call_once(alloc, "build", &mut source, &mut sink)?;
        assert!(rt; status == Status::ReadFault, "read {fails}");
        assert!(rt; sink.bytes().is_empty(), "read {fails}");
    }
    Ok(())
}

#[test]
fn a_failed_write_leaves_a_front_of_the_answer(rt: HostRuntime) -> Result<(), Fail> {
    let alloc = rt.alloc();
    for (words, held) in [("build", "mso 1\nfiel"), ("sample 2 2 1", "answers 3\n")] {
        let mut source = MemorySource::new(alloc, CHAIN.as_bytes(), 60, &[])?;
        let mut sink = MemorySink::new(alloc, 5, &[3])?;
        let status = call_once(alloc, words, &mut source, &mut sink)?;
        assert!(rt; status == Status::WriteFault, "{words}");
        assert!(rt; sink.bytes() == held.as_bytes(), "{words}");
    }
    Ok(())
}
