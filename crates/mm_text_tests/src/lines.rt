//! Values from outside, and each call once with memory at hand.
use mm_base::NoMemory;
use mm_lines::{Framer, Line, LineText, read_i64, read_u32};
use std::alloc::Global;

/// The text of a line with slashes between its number and its tokens.
fn shown(alloc: Global, line: Option<Line>) -> Result<Vec<u8>, NoMemory> {
    let mut text = Vec::new(alloc);
    if let Some(line) = line {
        if let LineText::TooLong = line.text {
            text.extend_from_slice(b"too long")?;
        }
        let mut tokens = line.tokens();
        'tokens: for _ in 0..line.count() {
            let Some(token) = tokens.next() else {
                break 'tokens;
            };
            text.extend_from_slice(token)?;
            text.push(b'/')?;
        }
    } else {
        text.extend_from_slice(b"none")?;
    }
    Ok(text)
}

#[test]
fn a_stream_is_cut_into_lines_whatever_its_pieces(rt: HostRuntime) -> Result<(), NoMemory> {
    let mut framer = Framer::new(rt.alloc());
    framer.feed(rt.alloc(), b"a b")?;
    framer.feed(rt.alloc(), b" c")?;
    framer.feed(rt.alloc(), b"\n")?;
    framer.feed(rt.alloc(), b"# x")?;
    framer.feed(rt.alloc(), b"\n")?;
    framer.feed(rt.alloc(), b"d")?;
    framer.finish();
    let Some(first) = framer.next_line(rt.alloc())? else {
        assert!(rt; false);
        return Ok(());
    };
    assert_eq!(rt; first.number, 1);
    assert_eq!(rt; first.count(), 3);
    assert!(rt; first.token(2) == Some(b"c".as_slice()));
    assert!(rt; first.token(3).is_none());
    let Some(second) = framer.next_line(rt.alloc())? else {
        assert!(rt; false);
        return Ok(());
    };
    assert_eq!(rt; second.number, 3);
    assert_eq!(rt; second.count(), 1);
    assert!(rt; second.token(0) == Some(b"d".as_slice()));
    assert!(rt; framer.next_line(rt.alloc())?.is_none());
    Ok(())
}

#[test]
fn returns_blanks_and_comments(rt: HostRuntime) -> Result<(), NoMemory> {
    let mut framer = Framer::new(rt.alloc());
    framer.feed(rt.alloc(), b"\r\n \t\n a\r\n # x\nb\r\r\n#\n\n c\tdd")?;
    for expected in [b"a/".as_slice(), b"#/x/", b"b\r/", b"none"] {
        let line = framer.next_line(rt.alloc())?;
        assert!(rt; shown(rt.alloc(), line)?.as_slice() == expected);
    }
    Ok(())
}

#[test]
fn a_line_is_too_long_from_65537_bytes_on(rt: HostRuntime) -> Result<(), NoMemory> {
    for (length, expected) in [(65_536usize, b"none".as_slice()), (65_537, b"too long")] {
        let bytes = vec![in rt.alloc(); b'#'; length]?;
        let mut framer = Framer::new(rt.alloc());
        framer.feed(rt.alloc(), &bytes)?;
        let line = framer.next_line(rt.alloc())?;
        assert!(rt; shown(rt.alloc(), line)?.as_slice() == expected);
        let line = framer.next_line(rt.alloc())?;
        assert!(rt; shown(rt.alloc(), line)?.as_slice() == b"none".as_slice());
    }
    Ok(())
}

#[test]
fn a_rest_begins_with_its_token(rt: HostRuntime) -> Result<(), NoMemory> {
    let mut framer = Framer::new(rt.alloc());
    framer.feed(rt.alloc(), b" least  X\tnot  ind(X) \t\r\n")?;
    let Some(line) = framer.next_line(rt.alloc())? else {
        assert!(rt; false);
        return Ok(());
    };
    for (k, expected) in [
        (0, b"least  X\tnot  ind(X)".as_slice()),
        (2, b"not  ind(X)"),
        (3, b"ind(X)"),
        (4, b""),
    ] {
        assert!(rt; line.rest(k) == expected);
    }
    Ok(())
}

#[test]
fn numbers_are_read(rt: HostRuntime) {
    for (bytes, expected) in [
        (b"0".as_slice(), Some(0)),
        (b"007", Some(7)),
        (b"999999999", Some(999_999_999)),
        (b"1000000000", None),
        (b"", None),
        (b"-1", None),
        (b"+1", None),
        (b"1a", None),
    ] {
        assert!(rt; read_u32(bytes) == expected);
    }
    for (bytes, expected) in [
        (b"-0".as_slice(), Some(0)),
        (b"12", Some(12)),
        (b"-999999999999999999", Some(-999_999_999_999_999_999)),
        (b"1000000000000000000", None),
        (b"-", None),
        (b"--1", None),
        (b"+1", None),
    ] {
        assert!(rt; read_i64(bytes) == expected);
    }
}
