//! Jobs, their outputs and their statuses, worked out by hand. Each text is given in one piece, and in pieces of 1 and of 7 bytes.
use crate::changes::{CIRCUIT, changed};
use crate::running::gives;
use std::test::Fail;

/// A job: the lines of the circuit that are exchanged (`N LINE`, or `N` alone for no line), what stands after it, what is written,
/// and the status.
const CHANGES: [(&str, &str, &str, u8); 33] = [
    ("", "", "false\n", 0),
    ("2 field 3", "", "false\n", 0),
    ("15 decide ind(0) and not ind(*)", "", "true\n", 0),
    ("15 decide ind(*) iff true", "", "false\n", 0),
    ("5", "", "refused rowspace tree 2\n", 1),
    ("4 row 100", "", "refused rowspace given 1\n", 1),
    (
        "8 op m 2 1 2 0 11/11 10",
        "",
        "refused operator 8 dependent 1\n",
        1,
    ),
    ("6 op j 7 1 2 0 10 01", "", "refused limit bounds 6\n", 1),
    ("6 op j 1 1 2 0 1 01", "", "refused operator 6 shape\n", 1),
    ("7 op j 2 1 0 2 10/01 11", "", "refused name j taken\n", 1),
    ("9 elem a 1111111 5", "", "refused limit boundary 9\n", 1),
    (
        "9 elem a 1 1000000000001",
        "",
        "refused limit weight 9\n",
        1,
    ),
    ("10 elem a 1 5", "", "refused name a taken\n", 1),
    ("15 decide ind(Y)", "", "refused unbound Y\n", 1),
    ("15 decide ind(", "", "refused formula\n", 1),
    ("15 decide x = X", "", "refused formula\n", 1),
    ("15 decide ex x true", "", "true\n", 0),
    ("15 least X not ind(X)", "", "least 15 a b c\n", 0),
    ("3 elements a b d", "", "refused elements d\n", 1),
    ("3 elements a b a", "", "refused name a taken\n", 1),
    ("13", "", "refused tree 13\n", 1),
    ("2 field 7", "", "refused field 2\n", 1),
    ("4 row 10", "", "refused syntax 4\n", 1),
    ("11 join z", "", "refused unknown z\n", 1),
    ("13 join j", "", "refused boundary 1 2\n", 1),
    ("15 decide", "", "refused syntax 15\n", 1),
    ("15", "", "refused unfinished\n", 1),
    (
        "",
        "check\nelements c b a\nrow 101\nrow 110\nend\ncheck\nelements a b c\nrow 101\nend\n",
        "false\nsame\ndiffers\n",
        0,
    ),
    (
        "",
        "replace c 0\nelem d 1 1\n",
        "false\nrefused unfinished\n",
        3,
    ),
    (
        "",
        "turn\nend\nweight a 2\nreplace c\nend\n",
        "false\nrefused syntax 16\nrefused syntax 17\nfalse\nrefused syntax 19\n",
        3,
    ),
    ("", "replace c 0\nelem d 1 1\nend\n", "false\nfalse\n", 0),
    ("", "# note\n\n \t\n", "false\n", 0),
    ("", "check x\nend\n", "false\nrefused syntax 16\n", 3),
];

#[test]
fn changed_lines_give_their_answers(rt: HostRuntime) -> Result<(), Fail> {
    let alloc = rt.alloc();
    for (lines, after, output, status) in CHANGES {
        let text = changed(alloc, CIRCUIT, lines, after)?;
        for piece in [4096usize, 1, 7] {
            let same = gives(alloc, "run", &text, piece.max(1), output, status)?;
            assert!(rt; same, "{lines} and {after}, in pieces of {piece}");
        }
    }
    Ok(())
}

/// A whole job, what is written, and the status.
const JOBS: [(&str, &str, u8); 11] = [
    // a root with a boundary
    (
        "mso 1\nfield 2\nelements a\nrow 1\ntree\nelem a 1 5\nend\ndecide ind(*)\n",
        "true\n",
        0,
    ),
    // a loop, whose matrix has two zero rows
    (
        "mso 1\nfield 2\nelements a\nrow 0\ntree\nelem a 00 1\nend\ndecide ind(*)\n",
        "false\n",
        0,
    ),
    // over GF(4) the row 32 is 3 times 13, and 12 is no multiple of it
    (
        "mso 1\nfield 4\nelements a b\nrow 12\nop m 1 1 0 1 1 1\ntree\nelem a 1 1\nelem b 3 1\njoin m\nend\ndecide ind(*)\n",
        "refused rowspace given 1\n",
        1,
    ),
    (
        "mso 1\nfield 4\nelements a b\nrow 32\nop m 1 1 0 1 1 1\ntree\nelem a 1 1\nelem b 3 1\njoin m\nend\ndecide ind(*)\n",
        "false\n",
        0,
    ),
    // a boundary of five
    (
        "mso 1\nfield 2\nelements a\nrow 1\ntree\nelem a 11111 1\nend\ndecide ind(*)\n",
        "true\n",
        0,
    ),
    // no elements
    (
        "mso 1\nfield 2\nelements\ntree\nvoid v 0\nend\ndecide ind(*)\ncheck\nend\n",
        "true\nsame\n",
        0,
    ),
    // a third boundary of its own: the sum of a and b, so that c closes a circuit
    (
        "mso 2\nfield 2\nelements a b c\nrow 101\nrow 110\nop g 1 1 1 1 10 01 11\nop h 1 1 0 1 1 1 .\ntree\nelem a 1 1\nelem b 1 1\njoin g\nelem c 1 1\njoin h\nend\ndecide ind(*)\n",
        "false\n",
        0,
    ),
    (
        "mso 2\nfield 2\nelements a b c\nrow 101\nrow 110\nop g 1 1 1 1 10 01 00\n",
        "refused operator 6 dependent 3\n",
        1,
    ),
    (
        "mso 1\nfield 2\nelements a b c\nrow 101\nrow 110\nop g 1 1 1 1 10 01 11\n",
        "refused syntax 6\n",
        1,
    ),
    ("", "refused unfinished\n", 1),
    // line ends of two bytes, a comment and an empty line
    (
        "mso 1\r\nfield 2\r\n# note\r\n\r\nelements a b c\r\nrow 101\r\nrow 011\r\nop j 1 1 2 0 10 01\r\nop k 2 1 0 2 10/01 11\r\ntree\r\nelem a 1 5\r\nelem b 1 5\r\njoin j\r\nelem c 1 5\r\njoin k\r\nend\r\ndecide ind(*)\r\n",
        "false\n",
        0,
    ),
];

#[test]
fn whole_jobs_give_their_answers(rt: HostRuntime) -> Result<(), Fail> {
    let alloc = rt.alloc();
    for (text, output, status) in JOBS {
        for piece in [4096usize, 1, 7] {
            let same = gives(alloc, "run", text.as_bytes(), piece.max(1), output, status)?;
            assert!(rt; same, "{text} in pieces of {piece}");
        }
    }
    Ok(())
}

/// How many bytes of the circuit come, what is written, and the status.
const CUTS: [(usize, &str, u8); 10] = [
    (0, "refused unfinished\n", 1),
    (3, "refused syntax 1\n", 1),
    (35, "refused syntax 4\n", 1),
    (36, "refused unfinished\n", 1),
    (140, "refused syntax 14\n", 1),
    (141, "refused unfinished\n", 1),
    (142, "refused unfinished\n", 1),
    (148, "refused syntax 15\n", 1),
    (152, "refused formula\n", 1),
    (155, "false\n", 0),
];

#[test]
fn cut_texts_give_their_answers(rt: HostRuntime) -> Result<(), Fail> {
    let alloc = rt.alloc();
    for (length, output, status) in CUTS {
        let text = CIRCUIT.as_bytes().get(..length).ok_or("a front")?;
        for piece in [4096usize, 1, 7] {
            let same = gives(alloc, "run", text, piece.max(1), output, status)?;
            assert!(rt; same, "{length} bytes in pieces of {piece}");
        }
    }
    Ok(())
}

/// Words, and whether they are those of a command that is not built yet; else they ask for nothing.
const WORDS: [(&str, bool); 15] = [
    ("", false),
    ("run --limit 0", false),
    ("run --limit 4194305", false),
    ("run --limit=", false),
    ("run run", false),
    ("--limit 5 run", false),
    ("build x", false),
    ("sample 6 2 1", false),
    ("sample 2 1 1", false),
    ("minor 2 111111", false),
    ("minor 2 .", false),
    ("minor 02 10/1", false),
    ("dual x", false),
    ("prove", true),
    ("verify", true),
];

#[test]
fn words_are_read_by_the_table(rt: HostRuntime) -> Result<(), Fail> {
    let alloc = rt.alloc();
    for (words, is_command) in WORDS {
        let (output, status) = if is_command {
            ("refused not-built\n", 1)
        } else {
            ("refused usage\n", 2)
        };
        assert!(rt; gives(alloc, words, b"", 1, output, status)?, "{words}");
    }
    for words in [
        "run --limit 10",
        "run --limit=4194304",
        "run --limit 0000000012",
    ] {
        assert!(rt;
            gives(alloc, words, CIRCUIT.as_bytes(), 9, "false\n", 0)?,
            "{words}"
        );
    }
    assert!(rt;
        gives(
            alloc,
            "run --limit 7",
            CIRCUIT.as_bytes(),
            9,
            "refused states\n",
            1
        )?
    );
    Ok(())
}
