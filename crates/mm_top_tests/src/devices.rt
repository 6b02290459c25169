//! Reads and writes that fail, and the statuses that say so.
use crate::changes::{CIRCUIT, changed};
use crate::running::call_once;
use mm_base::{MemorySink, MemorySource, Status, SureSink, SureSource};
use std::test::Fail;

/// A `check` after the circuit, which answers `same`.
const CHECK: &str = "check\nelements a b c\nrow 101\nrow 011\nend\n";

#[test]
fn a_failed_read_keeps_what_is_settled(rt: HostRuntime) -> Result<(), Fail> {
    let alloc = rt.alloc();
    let text = changed(alloc, CIRCUIT, "", CHECK)?;
    for (fails, held) in [(1u64, ""), (2, "false\n"), (3, "false\nsame\n")] {
        let mut source = MemorySource::new(alloc, &text, 156, &[fails])?;
        let mut sink = MemorySink::new(alloc, 4096, &[])?;
        let status = call_once(alloc, "run", &mut source, &mut sink)?;
        assert!(rt; status == Status::ReadFault, "read {fails}");
        assert!(rt; sink.bytes() == held.as_bytes(), "read {fails}");
    }
    Ok(())
}

#[test]
fn a_failed_write_leaves_a_front(rt: HostRuntime) -> Result<(), Fail> {
    let alloc = rt.alloc();
    let text = changed(alloc, CIRCUIT, "", CHECK)?;
    for (piece, fails, held) in [(4096usize, 1u64, ""), (1, 8, "false\ns")] {
        let mut source = MemorySource::new(alloc, &text, 156, &[])?;
        let mut sink = MemorySink::new(alloc, piece.max(1), &[fails])?;
        let status = call_once(alloc, "run", &mut source, &mut sink)?;
        assert!(rt; status == Status::WriteFault, "write {fails}");
        assert!(rt; sink.bytes() == held.as_bytes(), "write {fails}");
    }
    Ok(())
}

#[test]
fn sure_devices_never_fail(rt: HostRuntime) -> Result<(), Fail> {
    let alloc = rt.alloc();
    let mut source = SureSource::new(alloc, CIRCUIT.as_bytes())?;
    let mut sink = SureSink::new(alloc);
    let status = call_once(alloc, "run", &mut source, &mut sink)?;
    assert!(rt; status == Status::Done);
    assert!(rt; sink.bytes() == b"false\n".as_slice());
    Ok(())
}
