//! Where bytes come from.
ghost use Rattle.std.specs.Prelude.{◌≡◌, ◌+◌, ◌^◌, ◌-◌, ◌≤◌, ◌<◌, ◌↔◌, ◌++◌, List, ℕ, length, min, take, drop, Some, None, IfOk, OnOk, OnErr, IsErr, IsTrue, Contains};
ghost use Rattle.std.specs.Io.{ReadsAtMost};
ghost use Rattle.std.specs.Io.KnownBytes.{ReadConsumes};
ghost use Rattle.std.specs.declared.option.Option.{Option};
ghost use Rattle.mm_base.specs.Causes.{HasCause, counted};
ghost use Rattle.mm_base.specs.Reads.{ReadsTape};

use crate::{Failed, NoMemory};
use std::alloc::Global;
use std::io::{Read, Stdin};
use std::marker::Model;

/// Where bytes are read from, front to back.
pub trait Source {
    /// What is left to read, where it is known.
    ghost left: { Self → Option (List ℕ) };

    /// How many reads have failed, up to 2 ^ 64 - 1.
    ghost faults: { Self → ℕ };

    /// Puts the next bytes into the front of `buf`, and says how many. None come into a buffer that
    /// is not empty only at the end. After an `Err` what is left is as before.
    fn read(&mut self, buf: &mut [u8]) -> Result<usize, Failed>
        ensures bound { ReadsAtMost result buf.new }
        ensures bytes { ReadConsumes (left self.old) (left self.new) result buf.new }
        ensures cause { HasCause (faults self.old) (faults self.new) result };
}

/// Bytes in memory that come a piece at a call, and reads that fail at given calls.
#[derive(Drop)]
pub struct MemorySource {
    bytes: Vec<u8>,
    /// How many of the bytes were read.
    at: usize,
    /// The most bytes that one call gives, at least 1.
    piece: usize,
    /// The numbers, from 1, of the calls that fail.
    fails: Vec<u64>,
    /// How many calls were made, up to 2 ^ 64 - 1.
    calls: u64,
    /// How many of them failed, up to 2 ^ 64 - 1.
    faults: u64,
}

impl Model for MemorySource {
    ghost use Rattle.std.specs.Prelude.{drop, length, ◌≤◌, ◌<◌};
    ghost use Rattle.mm_base.specs.DeviceStates.{SourceState};

    ghost Value = { SourceState };

    ghost view = { λ s. record {
      left = drop s.at s.bytes.items;
      piece = s.piece;
      fails = s.fails.items;
      calls = s.calls;
      faults = s.faults;
    } };

    ghost invariant = { λ s. (s.at ≤ length s.bytes.items) × (0 < s.piece) };
}

impl MemorySource {
    /// A source of these bytes that gives at most `piece` bytes at a call, and fails at the calls with these numbers, from 1.
    pub fn new(
        alloc: Global,
        bytes: &[u8],
        piece: usize,
        fails: &[u64],
    ) -> Result<MemorySource, NoMemory>
        requires { 0 < piece }
        ensures { IfOk result (λ s. s ≡ record {
          left = bytes.now;
          piece = piece;
          fails = fails.now;
          calls = 0;
          faults = 0;
        }) }
    {
        Ok(MemorySource {
            bytes: bytes.to_vec(alloc)?,
            at: 0,
            piece,
            fails: fails.to_vec(alloc)?,
            calls: 0,
            faults: 0,
        })
    }
}

/// Counts a call, and says whether its number, from 1, is among those that fail.
pub(crate) fn next_call_fails(fails: &[u64], calls: &mut u64) -> bool
    ensures fails { IsTrue result ↔ Contains fails.now (calls.old + 1) }
    ensures counted { calls.new ≡ counted calls.old }
{
    match calls.checked_add(1) {
        Some(number) => {
            *calls = number;
            fails.contains(&number)
        }
        None => false,
    }
}

/// Copies the front of `rest` into the front of `buf`, `most` bytes at most.
fn give(rest: &[u8], most: usize, buf: &mut [u8]) -> usize
    ensures count { result ≡ min most (min (length buf.new) (length rest.now)) }
    ensures bytes { take result buf.new ≡ take result rest.now }
{
    let count = most.min(buf.len().min(rest.len()));
    buf[..count].copy_from_slice(&rest[..count]);
    count
}

impl Source for MemorySource {
    ghost left = { λ s. Some s.left };

    ghost faults = { λ s. s.faults };

    fn read(&mut self, buf: &mut [u8]) -> Result<usize, Failed>
        ensures bound { ReadsAtMost result buf.new }
        ensures bytes { ReadConsumes (Some self.old.left) (Some self.new.left) result buf.new }
        ensures cause { HasCause self.old.faults self.new.faults result }
        ensures exact { ReadsTape self.old self.new result buf.new }
    {
        if next_call_fails(&self.fails, &mut self.calls) {
            self.faults = self.faults.saturating_add(1);
            return Err(Failed);
        }
        let count = give(&self.bytes[self.at..], self.piece, buf);
        self.at += count;
        Ok(count)
    }
}

/// Bytes in memory that come as fast as they are asked for, and never fail.
#[derive(Drop)]
pub struct SureSource {
    bytes: Vec<u8>,
    /// How many of the bytes were read.
    at: usize,
}

impl Model for SureSource {
    ghost Value = { List ℕ };

    ghost view = { λ s. drop s.at s.bytes.items };

    ghost invariant = { λ s. s.at ≤ length s.bytes.items };
}

impl SureSource {
    /// A source of these bytes.
    pub fn new(alloc: Global, bytes: &[u8]) -> Result<SureSource, NoMemory>
        ensures { IfOk result (λ s. s ≡ bytes.now) }
    {
        Ok(SureSource {
            bytes: bytes.to_vec(alloc)?,
            at: 0,
        })
    }
}

impl Source for SureSource {
    ghost left = { λ s. Some s };

    ghost faults = { λ _. 0 };

    fn read(&mut self, buf: &mut [u8]) -> Result<usize, Failed> {
        let count = give(&self.bytes[self.at..], buf.len(), buf);
        self.at += count;
        Ok(count)
    }
}

/// Standard input. It tells nothing of what is left, and is part of the trusted edge.
#[derive(Drop)]
pub struct StdSource {
    stdin: Stdin,
    /// How many reads failed, up to 2 ^ 64 - 1.
    faults: u64,
}

impl Model for StdSource {
    ghost Value = { ℕ };

    ghost view = { λ s. s.faults };
}

impl StdSource {
    /// Standard input, with no fault so far.
    pub fn new(stdin: Stdin) -> StdSource
        ensures { result ≡ 0 }
    {
        StdSource { stdin, faults: 0 }
    }
}

impl Source for StdSource {
    ghost left = { λ _. None };

    ghost faults = { λ s. s };

    fn read(&mut self, buf: &mut [u8]) -> Result<usize, Failed> {
        match self.stdin.read(buf) {
            Ok(count) => Ok(count),
            Err(_) => {
                self.faults = self.faults.saturating_add(1);
                Err(Failed)
            }
        }
    }
}
