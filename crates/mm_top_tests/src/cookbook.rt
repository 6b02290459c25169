//! The questions of the page on formulas, each asked of three small binary matroids: the Fano plane, five elements of rank 2 with a loop
//! and a parallel pair, and a triangle with a coloop. The answers were worked out by listing all sets, and the cheap forms by a plain
//! model.
use crate::running::gives;
use std::alloc::Global;
use std::test::Fail;

/// The headers of the three matroids, each weight written as `W`.
const MATROIDS: [&str; 3] = [
    "mso 1\nfield 2\nelements a b c d e f g\nrow 1001101\nrow 0101011\nrow 0010111\nop j1 1 1 2 0 10 01\nop j2 2 1 3 0 100/010 001\nop j3 3 1 3 0 100/010/001 110\nop j4 3 1 2 1 100/001/011 111\nop j5 2 1 1 1 01/11 11\nop j6 1 1 0 1 1 1\ntree\nelem a 1 W\nelem b 1 W\njoin j1\nelem c 1 W\njoin j2\nelem d 1 W\njoin j3\nelem e 1 W\njoin j4\nelem f 1 W\njoin j5\nelem g 1 W\njoin j6\nend\n",
    "mso 1\nfield 2\nelements a b c d e\nrow 10101\nrow 01100\nop j1 1 1 2 0 10 01\nop j2 2 1 1 1 10/01 11\nop j3 1 0 1 0 1 .\nop j4 1 1 0 1 1 1\ntree\nelem a 1 W\nelem b 1 W\njoin j1\nelem c 1 W\njoin j2\nelem d - W\njoin j3\nelem e 1 W\njoin j4\nend\n",
    "mso 1\nfield 2\nelements a b c d\nrow 1010\nrow 0110\nrow 0001\nop j1 1 1 1 1 01 11\nop j2 1 1 0 1 1 1\nop j3 0 1 0 1 . 1\ntree\nelem a 1 W\nelem b 1 W\njoin j1\nelem c 1 W\njoin j2\nelem d 1 W\njoin j3\nend\n",
];

/// The headers of their duals.
const DUALS: [&str; 3] = [
    "mso 1\nfield 2\nelements a b c d e f g\nrow 1000011\nrow 0100101\nrow 0010111\nrow 0001110\nop j1 1 1 2 0 10 01\nop j2 2 1 3 0 100/010 001\nop j3 3 1 3 1 0001/1101/0010 1001\nop j4 3 1 2 1 001/010/101 111\nop j5 2 1 1 1 01/11 01\nop j6 1 1 0 1 1 1\ntree\nelem a 1 W\nelem b 1 W\njoin j1\nelem c 1 W\njoin j2\nelem d 1 W\njoin j3\nelem e 1 W\njoin j4\nelem f 1 W\njoin j5\nelem g 1 W\njoin j6\nend\n",
    "mso 1\nfield 2\nelements a b c d e\nrow 10001\nrow 01101\nrow 00010\nop j1 1 1 2 0 10 01\nop j2 2 1 1 1 01/11 11\nop j3 1 1 1 1 10 01\nop j4 1 1 0 1 1 1\ntree\nelem a 1 W\nelem b 1 W\njoin j1\nelem c 1 W\njoin j2\nelem d 1 W\njoin j3\nelem e 1 W\njoin j4\nend\n",
    "mso 1\nfield 2\nelements a b c d\nrow 1110\nop j1 1 1 1 0 1 1\nop j2 1 1 0 1 1 1\nop j3 0 0 0 0 . .\ntree\nelem a 1 W\nelem b 1 W\njoin j1\nelem c 1 W\njoin j2\nelem d - W\njoin j3\nend\n",
];

/// Lightest sets: whether the dual is asked, the weight of each element,
/// the question, and the answers for the three matroids.
const SETS: [(bool, &str, &str, [&str; 3]); 9] = [
    // an independent set
    (
        false,
        "1",
        "least X ind(X)",
        ["least 0", "least 0", "least 0"],
    ),
    // a circuit
    (
        false,
        "1",
        "least X not ind(X) and all Y ((Y sub X and not Y = X) implies ind(Y))",
        ["least 3 d e f", "least 1 d", "least 3 a b c"],
    ),
    // a circuit, by weights
    (
        false,
        "1",
        "least X not ind(X)",
        ["least 3 d e f", "least 1 d", "least 3 a b c"],
    ),
    // a basis
    (
        false,
        "1",
        "least X ind(X) and all y (y in X or not ind(X|y))",
        ["least 3 e f g", "least 2 c e", "least 3 b c d"],
    ),
    // a basis, by lowered weights
    (
        false,
        "-9",
        "least X ind(X)",
        ["least -27 e f g", "least -18 c e", "least -27 b c d"],
    ),
    // a spanning set
    (
        false,
        "1",
        "least X all y (y in X or ex B (B sub X and ind(B) and not ind(B|y)))",
        ["least 3 e f g", "least 2 c e", "least 3 b c d"],
    ),
    // a spanning set has a basis
    (
        false,
        "1",
        "least X ex B (B sub X and ind(B) and all y (y in B or not ind(B|y)))",
        ["least 3 e f g", "least 2 c e", "least 3 b c d"],
    ),
    // what the heaviest independent set of the dual leaves out
    (
        true,
        "-1",
        "least X ind(X)",
        ["least -4 d e f g", "least -3 c d e", "least -1 c"],
    ),
    // a longest circuit
    (
        false,
        "-1",
        "least X not ind(X) and all Y ((Y sub X and not Y = X) implies ind(Y))",
        ["least -4 c e f g", "least -3 b c e", "least -3 a b c"],
    ),
];

/// Cocircuits, flats and separations: whether the dual is asked, the weight of each element,
/// the question, and the answers for the three matroids.
const CUTS: [(bool, &str, &str, [&str; 3]); 7] = [
    // a set that hits every basis
    (
        false,
        "1",
        "least X all B ((ind(B) and all y (y in B or not ind(B|y))) implies ex x (x in B and x in X))",
        ["least 4 c e f g", "least 2 b c", "least 1 d"],
    ),
    // a cocircuit
    (
        false,
        "1",
        "least X all B ((ind(B) and all y (y in B or not ind(B|y))) implies ex x (x in B and x in X)) and all Y ((Y sub X and not Y = X) implies not all B ((ind(B) and all y (y in B or not ind(B|y))) implies ex x (x in B and x in Y)))",
        ["least 4 c e f g", "least 2 b c", "least 1 d"],
    ),
    // a cocircuit, by the dual and weights
    (
        true,
        "1",
        "least X not ind(X)",
        ["least 4 c e f g", "least 2 b c", "least 1 d"],
    ),
    // a cocircuit, by the dual
    (
        true,
        "1",
        "least X not ind(X) and all Y ((Y sub X and not Y = X) implies ind(Y))",
        ["least 4 c e f g", "least 2 b c", "least 1 d"],
    ),
    // what a lightest cocircuit leaves out
    (
        false,
        "-1",
        "least X all B (not B sub X or not ind(B) or ex y (not y in B and ind(B|y)))",
        ["least -3 d e f", "least -3 a d e", "least -3 a b c"],
    ),
    // a flat
    (
        false,
        "1",
        "least X all y (y in X or all B (not B sub X or not ind(B) or ind(B|y)))",
        ["least 0", "least 1 d", "least 0"],
    ),
    // a 1-separation
    (
        false,
        "1",
        "least X ex x x in X and ex x not x in X and all C ((not ind(C) and all D ((D sub C and not D = C) implies ind(D))) implies (C sub X or all x (x in C implies not x in X)))",
        ["none", "least 1 d", "least 1 d"],
    ),
];

/// Sentences on few elements: whether the dual is asked, the weight of each element,
/// the question, and the answers for the three matroids.
const SENTENCES: [(bool, &str, &str, [&str; 3]); 9] = [
    // simple
    (
        false,
        "1",
        "decide all x all y ind(x|y)",
        ["true", "false", "true"],
    ),
    // no circuit of three elements or less
    (
        false,
        "1",
        "decide all x all y all z ind(x|y|z)",
        ["false", "false", "false"],
    ),
    // a loop
    (
        false,
        "1",
        "decide ex x not ind(x)",
        ["false", "true", "false"],
    ),
    // a coloop
    (
        false,
        "1",
        "decide ex x all C ((not ind(C) and all D ((D sub C and not D = C) implies ind(D))) implies not x in C)",
        ["false", "false", "true"],
    ),
    // a coloop, by independent sets
    (
        false,
        "1",
        "decide ex x all I (not ind(I) or ind(I|x))",
        ["false", "false", "true"],
    ),
    // a coloop, by the dual
    (
        true,
        "1",
        "decide ex x not ind(x)",
        ["false", "false", "true"],
    ),
    // two failures
    (
        false,
        "1",
        "decide not all x all y ex I (ind(I) and not ind(I|x) and not ind(I|y))",
        ["false", "true", "true"],
    ),
    // two failures, by the dual
    (
        true,
        "1",
        "decide ex x ex y not ind(x|y)",
        ["false", "true", "true"],
    ),
    // three failures, by the dual
    (
        true,
        "1",
        "decide ex x ex y ex z not ind(x|y|z)",
        ["false", "true", "true"],
    ),
];

/// Connected matroids, covers and disjoint bases: whether the dual is asked, the weight of each element,
/// the question, and the answers for the three matroids.
const CONNECTED: [(bool, &str, &str, [&str; 3]); 8] = [
    // connected
    (
        false,
        "1",
        "decide all x all y (x = y or ex C ((x in C and y in C) and (not ind(C) and all D ((D sub C and not D = C) implies ind(D)))))",
        ["true", "false", "false"],
    ),
    // connected, by independent sets
    (
        false,
        "1",
        "decide all x all y (x = y or ex I (ind(I|x) and ind(I|y) and not ind(I|x|y)))",
        ["true", "false", "false"],
    ),
    // 3-connected
    (
        false,
        "1",
        "decide all a all b all c all d (a = b or a = c or a = d or b = c or b = d or c = d or ex I (ind(I|a|b) and ind(I|c|d) and not ind(I|a|b|c) and not ind(I|a|b|d)))",
        ["true", "false", "false"],
    ),
    // two independent sets cover
    (
        false,
        "1",
        "decide ex A (ind(A) and all B (ind(B) or ex z (z in A and z in B)))",
        ["false", "false", "true"],
    ),
    // two disjoint bases
    (
        false,
        "1",
        "decide ex A ex B ((ind(A) and all y (y in A or not ind(A|y))) and (ind(B) and all y (y in B or not ind(B|y))) and all z (not z in A or not z in B))",
        ["true", "true", "false"],
    ),
    // two disjoint bases, by the dual
    (
        true,
        "1",
        "decide ex A (ind(A) and all B (ind(B) or ex z (z in A and z in B)))",
        ["true", "true", "false"],
    ),
    // a circuit that spans
    (
        false,
        "1",
        "decide ex C ((not ind(C) and all D ((D sub C and not D = C) implies ind(D))) and ex B (B sub C and ind(B) and all y (y in B or not ind(B|y))))",
        ["true", "true", "false"],
    ),
    // a circuit that spans, by a basis
    (
        false,
        "1",
        "decide ex x ex B (ind(B) and not ind(B|x) and all D (not D sub B or D = B or ind(D|x)) and all y (y in B or not ind(B|y)))",
        ["true", "true", "false"],
    ),
];

/// A header with this weight of each element.
fn weighed(alloc: Global, header: &str, weight: &str) -> Result<String, Fail> {
    let mut text = String::new(alloc);
    for line in header.lines() {
        match line.split_once(" W") {
            Some((leaf, _)) => {
                text.push_str(leaf)?;
                text.push(' ')?;
                text.push_str(weight)?;
            }
            None => text.push_str(line)?,
        }
        text.push('\n')?;
    }
    Ok(text)
}

/// Whether the question has these answers for the three matroids, or their duals.
fn has_answers(
    alloc: Global,
    of_dual: bool,
    weight: &str,
    question: &str,
    answers: [&str; 3],
) -> Result<bool, Fail> {
    let headers = if of_dual { DUALS } else { MATROIDS };
    for (header, answer) in headers.iter().zip(&answers) {
        let header = weighed(alloc, header, weight)?;
        let text = format!(in alloc; "{header}{question}\n")?;
        let output = format!(in alloc; "{answer}\n")?;
        if !gives(alloc, "run", text.as_bytes(), 4096, output.as_str(), 0)? {
            return Ok(false);
        }
    }
    Ok(true)
}

#[test]
fn lightest_sets_are_found(rt: HostRuntime) -> Result<(), Fail> {
    let alloc = rt.alloc();
    for (of_dual, weight, question, answers) in SETS {
        let same = has_answers(alloc, of_dual, weight, question, answers)?;
        assert!(rt; same, "{question}");
    }
    Ok(())
}

#[test]
fn cocircuits_flats_and_separations_are_found(rt: HostRuntime) -> Result<(), Fail> {
    let alloc = rt.alloc();
    for (of_dual, weight, question, answers) in CUTS {
        let same = has_answers(alloc, of_dual, weight, question, answers)?;
        assert!(rt; same, "{question}");
    }
    Ok(())
}

#[test]
fn sentences_on_few_elements_are_decided(rt: HostRuntime) -> Result<(), Fail> {
    let alloc = rt.alloc();
    for (of_dual, weight, question, answers) in SENTENCES {
        let same = has_answers(alloc, of_dual, weight, question, answers)?;
        assert!(rt; same, "{question}");
    }
    Ok(())
}

#[test]
fn connected_matroids_and_covers_are_decided(rt: HostRuntime) -> Result<(), Fail> {
    let alloc = rt.alloc();
    for (of_dual, weight, question, answers) in CONNECTED {
        let same = has_answers(alloc, of_dual, weight, question, answers)?;
        assert!(rt; same, "{question}");
    }
    Ok(())
}

/// A separation that needs many states, asked of a triangle with a coloop alone.
const SEPARATION: &str =
    "decide ex X ((ex x ex y (not x = y and x in X and y in X)) and (ex x ex y (not x = y and not x in X and not y in X)) and ex J ex z (all Y ((Y sub J and not z in Y) implies ind(Y)) and all x ((x in X implies ex Y (Y sub J and Y sub X and ind(Y) and (x in Y or not ind(Y|x)))) and (x in X or ex Y (Y sub J and all y (y in Y implies not y in X) and ind(Y) and (x in Y or not ind(Y|x)))))))";

#[test]
fn a_separation_is_found(rt: HostRuntime) -> Result<(), Fail> {
    let alloc = rt.alloc();
    let header = MATROIDS.last().ok_or("a matroid")?;
    let header = weighed(alloc, header, "1")?;
    let text = format!(in alloc; "{header}{SEPARATION}\n")?;
    assert!(rt; gives(alloc, "run", text.as_bytes(), 4096, "true\n", 0)?);
    Ok(())
}
