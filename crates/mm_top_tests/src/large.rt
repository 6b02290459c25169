//! Long lines, the longest texts, the deepest tree and the most leaves.
use crate::changes::{CIRCUIT, changed};
use crate::running::gives;
use std::alloc::Global;
use std::test::Fail;

/// Puts a byte so many times after a text.
fn fill(text: &mut Vec<u8>, byte: u8, count: usize) -> Result<(), Fail> {
    for _ in 0..count {
        text.push(byte)?;
    }
    Ok(())
}

/// The circuit, and a line of so many bytes that begins with `first` and goes on with `a`.
fn with_line(alloc: Global, first: u8, length: usize, after: &str) -> Result<Vec<u8>, Fail> {
    let mut text = changed(alloc, CIRCUIT, "", "")?;
    text.push(first)?;
    fill(&mut text, b'a', length.saturating_sub(1))?;
    text.push(b'\n')?;
    text.extend_from_slice(after.as_bytes())?;
    Ok(text)
}

#[test]
fn too_long_a_line_is_an_edit_that_is_refused(rt: HostRuntime) -> Result<(), Fail> {
    let alloc = rt.alloc();
    let comment = with_line(alloc, b'#', 65536, "")?;
    assert!(rt; gives(alloc, "run", &comment, 4096, "false\n", 0)?);
    let comment = with_line(alloc, b'#', 65537, "")?;
    assert!(rt;
        gives(
            alloc,
            "run",
            &comment,
            4096,
            "false\nrefused line-too-long 16\n",
            3
        )?
    );
    let line = with_line(alloc, b'a', 65537, "check\nend\n")?;
    for piece in [4096usize, 1, 7] {
        let output = "false\nrefused line-too-long 16\ndiffers\n";
        assert!(rt;
            gives(alloc, "run", &line, piece.max(1), output, 3)?,
            "in pieces of {piece}"
        );
    }
    Ok(())
}

#[test]
fn the_longest_texts(rt: HostRuntime) -> Result<(), Fail> {
    let alloc = rt.alloc();
    let mut text = changed(alloc, CIRCUIT, "", "")?;
    let missing = 67_108_864usize.saturating_sub(text.len());
    fill(&mut text, b'\n', missing)?;
    assert!(rt; gives(alloc, "run", &text, 8192, "false\n", 0)?);
    text.push(b'\n')?;
    assert!(rt; gives(alloc, "run", &text, 8192, "false\nrefused too-long\n", 3)?);
    let mut block = changed(alloc, CIRCUIT, "", "replace c 0\nelem c 1 5\n")?;
    let missing = 67_108_865usize.saturating_sub(block.len());
    fill(&mut block, b'\n', missing)?;
    assert!(rt; gives(alloc, "run", &block, 8192, "false\nrefused too-long\n", 3)?);
    Ok(())
}

/// The head of a job over GF(2) with the elements e1 to en, without rows, and one operator without boundaries.
fn head(alloc: Global, names: usize) -> Result<Vec<u8>, Fail> {
    let mut text = Vec::new(alloc);
    text.extend_from_slice(b"mso 1\nfield 2\nelements")?;
    for k in 1..=names {
        text.extend_from_slice(format!(in alloc; " e{k}")?.as_bytes())?;
    }
    text.extend_from_slice(b"\nop z 0 0 0 0 . .\ntree\n")?;
    Ok(text)
}

fn leaf(alloc: Global, text: &mut Vec<u8>, k: usize) -> Result<(), Fail> {
    text.extend_from_slice(format!(in alloc; "elem e{k} - 0\n")?.as_bytes())?;
    Ok(())
}

/// A job whose tree is a chain: each further leaf is joined to all before it.
fn chain(alloc: Global, leaves: usize) -> Result<Vec<u8>, Fail> {
    let mut text = head(alloc, leaves)?;
    for k in 1..=leaves {
        leaf(alloc, &mut text, k)?;
        if k > 1 {
            text.extend_from_slice(b"join z\n")?;
        }
    }
    text.extend_from_slice(b"end\ndecide ind(*)\n")?;
    Ok(text)
}

/// How often 2 divides a number above 0.
fn twos(k: usize) -> u32 {
    k.trailing_zeros()
}

/// A job whose tree is balanced: after leaf k stand as many joins as 2 divides k.
fn balanced(alloc: Global, names: usize, leaves: usize) -> Result<Vec<u8>, Fail> {
    let mut text = head(alloc, names)?;
    for k in 1..=leaves {
        leaf(alloc, &mut text, k)?;
        for _ in 0..twos(k) {
            text.extend_from_slice(b"join z\n")?;
        }
    }
    text.extend_from_slice(b"end\ndecide ind(*)\n")?;
    Ok(text)
}

#[test]
fn the_deepest_chain_and_the_most_leaves(rt: HostRuntime) -> Result<(), Fail> {
    let alloc = rt.alloc();
    assert!(rt; gives(alloc, "run", &chain(alloc, 1024)?, 8192, "false\n", 0)?);
    assert!(rt;
        gives(
            alloc,
            "run",
            &chain(alloc, 1025)?,
            8192,
            "refused limit depth 2054\n",
            1
        )?
    );
    assert!(rt;
        gives(
            alloc,
            "run",
            &balanced(alloc, 8192, 8192)?,
            8192,
            "false\n",
            0
        )?
    );
    let more = balanced(alloc, 8193, 8192)?;
    assert!(rt; gives(alloc, "run", &more, 8192, "refused limit elements 3\n", 1)?);
    Ok(())
}
