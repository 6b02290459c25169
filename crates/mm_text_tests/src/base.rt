//! What no clause says: that each call succeeds with memory at hand, and values from outside.
ghost use Rattle.std.specs.Prelude.{◌≡◌, ◌<◌};

use mm_base::{
    MemorySink, MemorySource, Name, NameList, NoMemory, Sink, SinkFault, Source, Status, StdSink,
    Steps, SureSink, SureSource, Text, TextFault, write_all,
};
use std::alloc::{AllocError, Global};
use std::marker::Brand;
use std::sync::ledger::{Blank, Ledger};

#[test]
fn names_are_read(rt: HostRuntime) {
    for (bytes, is_name) in [
        (b"a".as_slice(), true),
        (b"j_1".as_slice(), true),
        (b"abcdefghijklmno9".as_slice(), true),
        (b"abcdefghijklmnop9".as_slice(), false),
        (b"".as_slice(), false),
        (b"A".as_slice(), false),
        (b"1a".as_slice(), false),
        (b"_a".as_slice(), false),
        (b"a b".as_slice(), false),
    ] {
        assert_eq!(rt; Name::read(bytes).is_some(), is_name);
    }
}

#[test]
fn lists_and_texts_grow(rt: HostRuntime) -> Result<(), NoMemory> {
    let mut names = NameList::new(rt.alloc());
    if let Some(name) = Name::read(b"ab") {
        names.push(rt.alloc(), name)?;
        assert!(rt; names.len() == 1);
        if names.len() == 1 {
            assert!(rt; names.at(0) == name);
            assert!(rt; names.at(0).bytes() == b"ab".as_slice());
        }
    }
    let mut text = Text::new(rt.alloc());
    text.append(rt.alloc(), b"ab")?;
    text.append(rt.alloc(), b"c")?;
    assert!(rt; text.bytes() == b"abc".as_slice());
    assert_eq!(rt; Status::EditRefused.code(), 3);
    Ok(())
}

/// Reads through the bound alone.
fn read_two<S: Source>(source: &mut S) -> usize {
    let mut buf = [0u8; 2];
    source.read(&mut buf).unwrap_or(9)
}

#[test]
fn sources_give_their_bytes(rt: HostRuntime) -> Result<(), NoMemory> {
    let mut source = MemorySource::new(rt.alloc(), b"abc", 5, &[2])?;
    assert_eq!(rt; read_two(&mut source), 2);
    assert_eq!(rt; read_two(&mut source), 9);
    assert_eq!(rt; read_two(&mut source), 1);
    assert_eq!(rt; read_two(&mut source), 0);
    let mut sure = SureSource::new(rt.alloc(), b"abc")?;
    assert_eq!(rt; read_two(&mut sure), 2);
    assert_eq!(rt; read_two(&mut sure), 1);
    assert_eq!(rt; read_two(&mut sure), 0);
    Ok(())
}

#[test]
fn sinks_take_pieces(rt: HostRuntime) -> Result<(), NoMemory> {
    let mut sink = MemorySink::new(rt.alloc(), 2, &[3])?;
    assert!(rt; write_all(&mut sink, b"abc").is_ok());
    assert!(rt; write_all(&mut sink, b"de") == Err(SinkFault::Failed));
    assert!(rt; write_all(&mut sink, b"f").is_ok());
    assert!(rt; sink.bytes() == b"abcf".as_slice());
    let mut sure = SureSink::new(rt.alloc());
    assert!(rt; write_all(&mut sure, b"abc").is_ok());
    assert!(rt; sure.bytes() == b"abc".as_slice());
    Ok(())
}

#[test]
fn standard_output_takes_pieces(rt: HostRuntime) {
    let mut sink = StdSink::new(rt.stdout());
    assert!(rt; write_all(&mut sink, b"standard output takes ").is_ok());
    assert!(rt; write_all(&mut sink, b"pieces\n").is_ok());
}

/// Two steps of a new counter, whatever its ledger.
fn two_steps<L: Ledger>(blank: Blank)
    requires name { blank.name ≡ L.name }
    requires parts { blank.parts ≡ L.parts }
    requires some { 0 < blank.parts }
{
    let mut steps: Steps<L> = Steps::new(blank);
    steps.tick();
    steps.tick();
}

#[test]
fn a_counter_needs_no_memory(rt: HostRuntime) {
    two_steps::<Brand>(Blank::new(1));
}

/// An error made of its cause, through the bound alone.
fn made_of<E, F: From<E>>(cause: E) -> F {
    F::from(cause)
}

#[test]
fn want_of_memory_stays_what_it_is(rt: HostRuntime) {
    let from_allocator: TextFault = made_of(AllocError);
    assert!(rt; matches!(from_allocator, TextFault::NoMemory));
    let from_call: TextFault = made_of(NoMemory);
    assert!(rt; matches!(from_call, TextFault::NoMemory));
    let of_sink: SinkFault = made_of(AllocError);
    assert!(rt; of_sink == SinkFault::NoMemory);
    let of_call: NoMemory = made_of(AllocError);
    assert!(rt; of_call == NoMemory);
}
