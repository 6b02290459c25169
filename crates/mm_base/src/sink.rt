//! Where bytes go.
ghost use Rattle.std.specs.Prelude.{◌≡◌, ◌+◌, ◌^◌, ◌-◌, ◌≤◌, ◌<◌, ◌↔◌, ◌++◌, [], List, ℕ, length, min, take, drop, Some, None, Ok, IfOk, IsOk, OnOk, OnErr, IsErrOf, IsTrue, Contains};
ghost use Rattle.std.specs.Io.{WritesAtMost};
ghost use Rattle.std.specs.Io.KnownBytes.{Appends, WriteAppends};
ghost use Rattle.std.specs.declared.option.Option.{Option};
ghost use Rattle.mm_base.specs.declared.failure.SinkFault.TheVariants.{Failed as sink_failed};
ghost use Rattle.mm_base.specs.Causes.{GrowsByFront, HasSinkCause, Rose};
ghost use Rattle.mm_base.specs.Reads.{WritesShelf};

use crate::source::next_call_fails;
use crate::{NoMemory, SinkFault};
use std::alloc::Global;
use std::io::{Stdout, Write};
use std::marker::Model;

/// Where bytes are written, each piece after the one before.
pub trait Sink {
    /// What it holds, where it is known.
    ghost held: { Self → Option (List ℕ) };

    /// How many writes have failed, up to 2 ^ 64 - 1.
    ghost faults: { Self → ℕ };

    /// Takes bytes from the front of `bytes`, and says how many. To take none of a piece that is not
    /// empty is a fault, and is counted. After an `Err` it holds what it held.
    fn write(&mut self, bytes: &[u8]) -> Result<usize, SinkFault>
        ensures bound { WritesAtMost result bytes.now }
        ensures bytes { WriteAppends (held self.old) (held self.new) result bytes.now }
        ensures cause { HasSinkCause (faults self.old) (faults self.new) result }
        ensures none { result ≡ Ok 0 → 0 < length bytes.now → Rose (faults self.old) (faults self.new) };
}

/// Writes all of the bytes. After an `Err` a front of them was written. An empty piece makes no call.
pub fn write_all<K: Sink>(out: &mut K, bytes: &[u8]) -> Result<(), SinkFault>
    ensures ok { OnOk result (Appends (K.held out.old) (K.held out.new) bytes.now) }
    ensures err { OnErr result (GrowsByFront (K.held out.old) (K.held out.new) bytes.now) }
    ensures cause { HasSinkCause (K.faults out.old) (K.faults out.new) result }
    ensures empty { length bytes.now ≡ 0 → (out.new ≡ out.old) × IsOk result }
{
    let mut at = 0;
    while at < bytes.len() {
        let count = out.write(&bytes[at..])?;
        if count == 0 {
            return Err(SinkFault::Failed);
        }
        at += count;
    }
    Ok(())
}

/// A sink in memory that takes a piece at a call, and fails at given calls.
#[derive(Drop)]
pub struct MemorySink {
    bytes: Vec<u8>,
    /// The most bytes that one call takes, at least 1.
    piece: usize,
    /// The numbers, from 1, of the calls that fail.
    fails: Vec<u64>,
    /// How many calls were made, up to 2 ^ 64 - 1.
    calls: u64,
    /// How many of them failed, up to 2 ^ 64 - 1.
    faults: u64,
}

impl Model for MemorySink {
    ghost use Rattle.std.specs.Prelude.{◌<◌};
    ghost use Rattle.mm_base.specs.DeviceStates.{SinkState};

    ghost Value = { SinkState };

    ghost view = { λ s. record {
      held = s.bytes.items;
      piece = s.piece;
      fails = s.fails.items;
      calls = s.calls;
      faults = s.faults;
    } };

    ghost invariant = { λ s. 0 < s.piece };
}

impl MemorySink {
    /// An empty sink that takes at most `piece` bytes at a call, and fails at the calls with these numbers, from 1.
    pub fn new(alloc: Global, piece: usize, fails: &[u64]) -> Result<MemorySink, NoMemory>
        requires { 0 < piece }
        ensures { IfOk result (λ s. s ≡ record {
          held = [];
          piece = piece;
          fails = fails.now;
          calls = 0;
          faults = 0;
        }) }
    {
        Ok(MemorySink {
            bytes: Vec::new(alloc),
            piece,
            fails: fails.to_vec(alloc)?,
            calls: 0,
            faults: 0,
        })
    }

    /// What it holds.
    pub fn bytes(&self) -> &[u8]
        ensures { result.now ≡ self.now.held }
    {
        &self.bytes
    }
}

impl Sink for MemorySink {
    ghost held = { λ s. Some s.held };

    ghost faults = { λ s. s.faults };

    fn write(&mut self, bytes: &[u8]) -> Result<usize, SinkFault>
        ensures bound { WritesAtMost result bytes.now }
        ensures bytes { WriteAppends (Some self.old.held) (Some self.new.held) result bytes.now }
        ensures cause { HasSinkCause self.old.faults self.new.faults result }
        ensures none { result ≡ Ok 0 → 0 < length bytes.now → Rose self.old.faults self.new.faults }
        ensures exact { WritesShelf self.old self.new result bytes.now }
    {
        if next_call_fails(&self.fails, &mut self.calls) {
            self.faults = self.faults.saturating_add(1);
            return Err(SinkFault::Failed);
        }
        let count = self.piece.min(bytes.len());
        self.bytes.extend_from_slice(&bytes[..count])?;
        Ok(count)
    }
}

/// A sink in memory that takes all, and never fails.
#[derive(Drop)]
pub struct SureSink {
    bytes: Vec<u8>,
}

impl Model for SureSink {
    ghost Value = { List ℕ };

    ghost view = { λ s. s.bytes.items };
}

impl SureSink {
    /// An empty sink. It takes no memory yet.
    pub fn new(alloc: Global) -> SureSink
        ensures { result ≡ [] }
    {
        SureSink {
            bytes: Vec::new(alloc),
        }
    }

    /// What it holds.
    pub fn bytes(&self) -> &[u8]
        ensures { result.now ≡ self.now }
    {
        &self.bytes
    }
}

impl Sink for SureSink {
    ghost held = { λ s. Some s };

    ghost faults = { λ _. 0 };

    fn write(&mut self, bytes: &[u8]) -> Result<usize, SinkFault> {
        self.bytes.extend_from_slice(bytes)?;
        Ok(bytes.len())
    }
}

/// Standard output. It tells nothing of what it holds, and is part of the trusted edge.
#[derive(Drop)]
pub struct StdSink {
    stdout: Stdout,
    /// How many writes failed, up to 2 ^ 64 - 1.
    faults: u64,
}

impl Model for StdSink {
    ghost Value = { ℕ };

    ghost view = { λ s. s.faults };
}

impl StdSink {
    /// Standard output, with no fault so far.
    pub fn new(stdout: Stdout) -> StdSink
        ensures { result ≡ 0 }
    {
        StdSink { stdout, faults: 0 }
    }
}

impl Sink for StdSink {
    ghost held = { λ _. None };

    ghost faults = { λ s. s };

    fn write(&mut self, bytes: &[u8]) -> Result<usize, SinkFault>
        ensures bound { WritesAtMost result bytes.now }
        ensures bytes { WriteAppends None None result bytes.now }
        ensures cause { HasSinkCause self.old self.new result }
        ensures none { result ≡ Ok 0 → 0 < length bytes.now → Rose self.old self.new }
        ensures memory { IsErrOf result SinkFault.NoMemory → ⊥ }
    {
        match self.stdout.write(bytes) {
            Ok(count) if count > 0 || bytes.is_empty() => Ok(count),
            _ => {
                self.faults = self.faults.saturating_add(1);
                Err(SinkFault::Failed)
            }
        }
    }
}
