//! Worked jobs, answered by listing all sets: what the definitions say of a text, beside what the program writes.
use crate::changes::{CIRCUIT, changed};
use crate::running::gives;
use mm_reference::{LeastSet, Question, decide, least, state_size, type_of};
use mm_reference_text::{JobText, Query, read_job, show};
use std::alloc::Global;
use std::test::Fail;

/// The circuit by a third boundary of its own: the sum of the first two elements.
const BY_SUM: &str =
    "mso 2\nfield 2\nelements a b c\nrow 101\nrow 110\nop g 1 1 1 1 10 01 11\nop h 1 1 0 1 1 1 .\ntree\nelem a 1 1\nelem b 1 1\njoin g\nelem c 1 1\njoin h\nend\n";

/// Three elements over GF(3), with a third boundary of its own at the root.
const OVER_THREE: &str =
    "mso 2\nfield 3\nop b 1 1 2 0 10 01 10/01\nop r 2 1 1 2 100/012 011 121\ntree\nelem a 1 1\nelem b 2 1\njoin b\nelem c 1 1\njoin r\nend\n";

/// Two elements over GF(4), one of them beside a leaf without an element.
const OVER_FOUR: &str =
    "mso 2\nfield 4\nop b 1 0 2 0 12 . 10/01\nop r 2 2 2 1 120/013 103/021 100/012\ntree\nelem a 12 1\nelem b 3 1\nvoid v 0\njoin b\njoin r\nend\n";

/// Three elements over GF(5), of which the last is zero.
const OVER_FIVE: &str =
    "mso 2\nfield 5\nop b 1 1 1 0 3 2 4\nop r 1 1 1 1 13 24 12\ntree\nelem a 4 1\nelem b 1 1\nelem c 0 1\njoin b\njoin r\nend\n";

/// The lines of the circuit that are exchanged (`N LINE`, or `N` alone for no line), and the answer.
const CIRCUITS: [(&str, &str); 24] = [
    ("", "false\n"),
    ("2 field 3", "false\n"),
    ("15 decide ind(0) and not ind(*)", "true\n"),
    ("15 decide ind(*) iff true", "false\n"),
    ("15 decide ex x not ind(x)", "false\n"),
    ("15 decide all x all y ind(x|y)", "true\n"),
    ("15 decide ex X all x (x in X iff x = x)", "true\n"),
    (
        "15 decide all X all Y (X sub Y and ind(Y) implies ind(X))",
        "true\n",
    ),
    ("15 decide all X all Y (X = Y or not X sub Y)", "false\n"),
    ("15 least X not ind(X)", "least 15 a b c\n"),
    (
        "3 elements a b d\n12 elem d 1 2\n15 least X not ind(X)",
        "least 12 a b d\n",
    ),
    ("15 least X false", "none\n"),
    ("15 least X true", "least 0\n"),
    (
        "9 elem a 1 1\n10 elem b 1 1\n12 elem c 1 1\n15 least X ex x x in X",
        "least 1 c\n",
    ),
    (
        "9 elem a 1 -5\n10 elem b 1 3\n12 elem c 1 0\n15 least X true",
        "least -5 a\n",
    ),
    (
        "9 elem a 1 3\n10 elem b 1 -1\n12 elem c 1 0\n15 least X true",
        "least -1 b\n",
    ),
    (
        "9 elem a 1 5\n10 elem b 1 -3\n12 elem c 1 -2\n15 least X true",
        "least -5 b c\n",
    ),
    // the lightest bases: where weights tie, the lesser leaf word comes first
    (
        "15 least X ind(X) and all y (y in X or not ind(X|y))",
        "least 10 b c\n",
    ),
    (
        "9 elem a 1 2\n10 elem b 1 1\n12 elem c 1 2\n15 least X ind(X) and all y (y in X or not ind(X|y))",
        "least 3 b c\n",
    ),
    (
        "9 elem a 1 1\n10 elem b 1 2\n12 elem c 1 3\n15 least X ind(X) and all y (y in X or not ind(X|y))",
        "least 3 a b\n",
    ),
    (
        "9 elem a 1 -1\n10 elem b 1 5\n12 elem c 1 -2\n15 least X ind(X) and all y (y in X or not ind(X|y))",
        "least -3 a c\n",
    ),
    (
        "9 elem a 1 -1\n10 elem b 1 -1\n12 elem c 1 -1\n15 least X ind(X) and all y (y in X or not ind(X|y))",
        "least -2 b c\n",
    ),
    // the lightest circuit
    (
        "15 least X not ind(X) and all Y (Y sub X and not Y = X implies ind(Y))",
        "least 15 a b c\n",
    ),
    (
        "9 elem a 1 3\n10 elem b 1 -1\n12 elem c 1 0\n15 least X not ind(X) and all Y (Y sub X and not Y = X implies ind(Y))",
        "least 2 a b c\n",
    ),
];

/// A text up to its query, the query, and the answer.
const JOBS: [(&str, &str, &str); 20] = [
    // a root with a boundary, a loop, a boundary of five, no elements
    (
        "mso 1\nfield 2\nelements a\nrow 1\ntree\nelem a 1 5\nend\n",
        "decide ind(*)",
        "true\n",
    ),
    (
        "mso 1\nfield 2\nelements a\nrow 0\ntree\nelem a 00 1\nend\n",
        "decide ind(*)",
        "false\n",
    ),
    (
        "mso 1\nfield 2\nelements a\nrow 1\ntree\nelem a 11111 1\nend\n",
        "decide ind(*)",
        "true\n",
    ),
    (
        "mso 1\nfield 2\nelements\ntree\nvoid v 0\nend\n",
        "decide ex x true",
        "false\n",
    ),
    (
        "mso 1\nfield 2\nelements\ntree\nvoid v 0\nend\n",
        "decide all x false",
        "true\n",
    ),
    (
        "mso 1\nfield 2\nelements\ntree\nvoid v 0\nend\n",
        "decide ind(*)",
        "true\n",
    ),
    (
        "mso 1\nfield 2\nelements\ntree\nvoid v 0\nend\n",
        "least X ind(*)",
        "least 0\n",
    ),
    // two elements in one dimension
    (
        "mso 1\nfield 4\nelements a b\nrow 32\nop m 1 1 0 1 1 1\ntree\nelem a 1 1\nelem b 3 1\njoin m\nend\n",
        "decide ind(*)",
        "false\n",
    ),
    (
        "mso 1\nfield 3\nelements a b\nrow 12\nop m 1 1 0 1 1 2\ntree\nelem a 1 1\nelem b 1 1\njoin m\nend\n",
        "decide ex x ex y (not x = y and not ind(x|y))",
        "true\n",
    ),
    (
        "mso 1\nfield 5\nelements a b\nrow 40\nop m 1 1 0 1 1 1\ntree\nelem a 4 1\nelem b 0 1\njoin m\nend\n",
        "decide ind(*)",
        "false\n",
    ),
    (
        "mso 1\nfield 2\nelements a b\nop m 1 1 0 1 1 1\ntree\nelem a 0 3\nelem b 0 3\njoin m\nend\n",
        "least X not ind(X) and all Y (Y sub X and not Y = X implies ind(Y))",
        "least 3 b\n",
    ),
    (
        "mso 1\nfield 2\nelements a b\nop m 1 1 0 1 1 1\ntree\nelem a 0 -3\nelem b 0 0\njoin m\nend\n",
        "least X not ind(X) and all Y (Y sub X and not Y = X implies ind(Y))",
        "least -3 a\n",
    ),
    (
        "mso 1\nfield 2\nelements a\nrow 1\ntree\nelem a 1 7\nend\n",
        "least X not ind(X)",
        "none\n",
    ),
    // a leaf without an element beside one
    (
        "mso 1\nfield 2\nelements a\nrow 1\nop j 1 1 2 0 10 01\ntree\nvoid v 1\nelem a 1 0\njoin j\nend\n",
        "decide ind(*)",
        "true\n",
    ),
    // the Fano plane
    (
        "mso 1\nfield 2\nelements a b c d e f g\nrow 1001101\nrow 0101011\nrow 0010111\nop s 3 3 3 0 100/010/001 100/010/001\nop z 3 3 0 3 100/010/001 100/010/001\ntree\nelem a 100 1\nelem b 010 1\njoin s\nelem c 001 1\njoin s\nelem d 110 1\njoin s\nelem e 101 1\njoin s\nelem f 011 1\njoin s\nelem g 111 1\njoin z\nend\n",
        "least X not ind(X)",
        "least 3 d e f\n",
    ),
    // a tree as it is built from the rows of the circuit
    (
        "mso 1\nfield 2\nelements a b c\nrow 101\nrow 011\nop j1 1 1 1 1 01 11\nop j2 1 1 0 1 1 1\ntree\nelem a 1 5\nelem b 1 5\njoin j1\nelem c 1 5\njoin j2\nend\n",
        "decide ind(*)",
        "false\n",
    ),
    (BY_SUM, "decide ind(*)", "false\n"),
    (BY_SUM, "decide all x all y ind(x|y)", "true\n"),
    (BY_SUM, "least X not ind(X)", "least 3 a b c\n"),
    (
        BY_SUM,
        "least X ind(X) and all y (y in X or not ind(X|y))",
        "least 2 b c\n",
    ),
];

/// The part of the circuit before its query.
const CIRCUIT_TREE: &str =
    "mso 1\nfield 2\nop j 1 1 2 0 10 01\nop k 2 1 0 2 10/01 11\ntree\nelem a 1 5\nelem b 1 5\njoin j\nelem c 1 5\njoin k\nend\n";

/// A text up to its query, the query, and the state size, worked out by the rules at leaves and joins.
const SIZES: [(&str, &str, u64); 18] = [
    (CIRCUIT_TREE, "decide ind(*)", 8),
    (CIRCUIT_TREE, "decide ex X not ind(X)", 24),
    (CIRCUIT_TREE, "decide all x all y ind(x|y)", 34),
    (CIRCUIT_TREE, "decide true", 6),
    (CIRCUIT_TREE, "decide all X all Y (X sub Y iff X = Y)", 29),
    (CIRCUIT_TREE, "decide all x ex y x = y", 21),
    (
        CIRCUIT_TREE,
        "decide ex X (all x x in X and ex x not x in X)",
        35,
    ),
    (CIRCUIT_TREE, "least X not ind(X)", 20),
    (
        CIRCUIT_TREE,
        "least X ind(X) and all y (y in X or not ind(X|y))",
        88,
    ),
    (BY_SUM, "decide ind(*)", 7),
    (BY_SUM, "decide ex X not ind(X)", 15),
    (BY_SUM, "least X not ind(X)", 14),
    (
        BY_SUM,
        "least X ind(X) and all y (y in X or not ind(X|y))",
        63,
    ),
    (OVER_THREE, "decide ex X not ind(X)", 19),
    (OVER_FOUR, "decide all x all y ind(x|y)", 33),
    (
        OVER_FOUR,
        "least X ind(X) and all y (y in X or not ind(X|y))",
        69,
    ),
    (OVER_FIVE, "decide all x all y ind(x|y)", 37),
    (
        OVER_FIVE,
        "least X ind(X) and all y (y in X or not ind(X|y))",
        73,
    ),
];

/// Two elements of boundaries that lie side by side.
const PLANE: &str =
    "mso 1\nfield 2\nop j 1 1 2 0 10 01\ntree\nelem a 1 1\nelem b 1 1\njoin j\nend\n";

/// A text up to its query, the query, and its type as text.
const TYPES: [(&str, &str, &str); 11] = [
    (PLANE, "decide ind(*)", "<2:10/01>"),
    (
        PLANE,
        "decide ex X not ind(X)",
        "{<2:>,<2:01>,<2:10>,<2:10/01>}",
    ),
    (OVER_THREE, "decide ex X not ind(X)", "{<1:>,<1:1>}"),
    (OVER_FOUR, "decide ind(*)", "<2:13>"),
    (OVER_FOUR, "decide ex X not ind(X)", "{<2:>,<2:13>}"),
    (OVER_FIVE, "decide ind(*)", "dead"),
    (OVER_FIVE, "decide ex X not ind(X)", "{dead,<1:>,<1:1>}"),
    (
        OVER_FIVE,
        "decide all x all y ind(x|y)",
        "((<1:>,{dead,<1:>,<1:1>}),{(dead,{dead}),(<1:>,{dead,<1:>,<1:1>}),(<1:1>,{dead,<1:1>})})",
    ),
    (
        CIRCUIT_TREE,
        "decide all X all Y (X sub Y iff X = Y)",
        "{{(0,0),(0,1)},{(0,0),(1,1)},{(0,0),(0,1),(1,1)}}",
    ),
    (
        CIRCUIT_TREE,
        "decide all x ex y x = y",
        "((0,{2}),{(1,{3,4})})",
    ),
    (
        CIRCUIT_TREE,
        "decide ex X (all x x in X and ex x not x in X)",
        "{((0,{1}),(0,{1})),((0,{2}),(0,{2})),((0,{1,2}),(0,{1,2}))}",
    ),
];

/// The line of a set: its weight, and the names in it.
fn set_line(alloc: Global, job: &JobText, set: &[bool]) -> Result<String, Fail> {
    let mut weight = 0i64;
    let mut names = String::new(alloc);
    for ((taken, name), more) in set.iter().zip(&job.names).zip(&job.weights) {
        if *taken {
            weight = weight.saturating_add(*more);
            names.push(' ')?;
            names.push_str(name)?;
        }
    }
    Ok(format!(in alloc; "least {weight}{names}\n")?)
}

/// What the definitions answer to a query.
fn answer(alloc: Global, job: &JobText, query: &Query) -> Result<String, Fail> {
    let tree = job.trees.first().ok_or("a tree")?;
    if !query.is_least {
        let holds = decide(alloc, job.field, &query.formula, tree)?.ok_or("a truth")?;
        return Ok(format!(in alloc; "{holds}\n")?);
    }
    let found = least(alloc, job.field, &query.formula, tree, &job.weights)?;
    match found.ok_or("an answer")? {
        LeastSet::Missing => Ok("none\n".to_string(alloc)?),
        LeastSet::Found(set) => set_line(alloc, job, &set),
    }
}

/// Whether the definitions and the program answer so to a text.
fn is_answered(alloc: Global, text: &str, expected: &str) -> Result<bool, Fail> {
    let (job, query) = read_job(alloc, text)?;
    let written = answer(alloc, &job, &query)?;
    Ok(written.as_str() == expected && gives(alloc, "run", text.as_bytes(), 4096, expected, 0)?)
}

#[test]
fn the_definitions_answer_for_circuits(rt: HostRuntime) -> Result<(), Fail> {
    let alloc = rt.alloc();
    for (lines, expected) in CIRCUITS {
        let text = String::from_utf8(changed(alloc, CIRCUIT, lines, "")?);
        let text = text.ok().ok_or("a text")?;
        assert!(rt; is_answered(alloc, text.as_str(), expected)?, "{lines}");
    }
    Ok(())
}

#[test]
fn the_definitions_answer_for_jobs(rt: HostRuntime) -> Result<(), Fail> {
    let alloc = rt.alloc();
    for (head, query, expected) in JOBS {
        let text = format!(in alloc; "{head}{query}\n")?;
        assert!(rt; is_answered(alloc, text.as_str(), expected)?, "{text}");
    }
    Ok(())
}

#[test]
fn the_definitions_count_states(rt: HostRuntime) -> Result<(), Fail> {
    let alloc = rt.alloc();
    for (head, query, size) in SIZES {
        let text = format!(in alloc; "{head}{query}\n")?;
        let (job, query) = read_job(alloc, text.as_str())?;
        let question = if query.is_least {
            Question::Least
        } else {
            Question::Decide
        };
        let tree = job.trees.first().ok_or("a tree")?;
        let found = state_size(alloc, job.field, question, &query.formula, tree)?;
        assert_eq!(rt; found, Some(size), "{text}");
    }
    Ok(())
}

#[test]
fn the_definitions_have_types(rt: HostRuntime) -> Result<(), Fail> {
    let alloc = rt.alloc();
    for (head, query, expected) in TYPES {
        let text = format!(in alloc; "{head}{query}\n")?;
        let (job, query) = read_job(alloc, text.as_str())?;
        let tree = job.trees.first().ok_or("a tree")?;
        let marks = vec![in alloc; [false; 16]; job.names.len()]?;
        let value = type_of(alloc, job.field, &query.formula, tree, &marks)?.ok_or("a type")?;
        let mut shown = String::new(alloc);
        show(&value, &mut shown)?;
        assert!(rt; shown.as_str() == expected, "{text}");
    }
    Ok(())
}
