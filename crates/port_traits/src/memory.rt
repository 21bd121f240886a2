//! A source, a sink and an environment in memory, which tell what they have and hold.
ghost use Rattle.std.specs.Prelude.{◌≡◌, ◌-◌, ◌^◌, ◌<◌, [], length, min, Some, IfOk, if◌then◌else◌, is_err, IsTrue, IsErr};
ghost use Rattle.fault_counts.specs.Causes.{HasCause, Rose, one_more};
ghost use Rattle.port_traits.specs.Streams.{Takes, Puts, ended_after, is_end};
ghost use Rattle.port_traits.specs.Memory.{is_among};

use crate::calls::Calls;
use crate::env::Env;
use crate::failed::Failed;
use crate::identity::{Draw, Identity};
use crate::sink::Sink;
use crate::source::Source;
use std::alloc::Global;
use std::marker::Model;
use val_types::{Bytes, List, NoMemory};

/// A source over bytes in memory.
#[derive(Drop)]
pub struct MemSource {
    bytes: Bytes,
    place: usize,
    piece: usize,
    calls: Calls,
}

impl Model for MemSource {
    ghost use Rattle.std.specs.Prelude.{◌<◌, ◌≤◌, length, drop};
    ghost use Rattle.port_traits.specs.Memory.{SourceState};

    ghost Value = { SourceState };

    ghost view = { λ s. record {
      left = drop s.place s.bytes;
      fails = s.calls.fails;
      piece = s.piece;
      calls = s.calls.count;
      faults = s.calls.faults;
      ended = s.calls.ended;
    } };

    ghost invariant = { λ s. (s.place ≤ length s.bytes) × (0 < s.piece) };
}

impl MemSource {
    /// A source of these bytes, whose calls fail at these numbers, counted from 1.
    pub fn new(left: Bytes, fails: List<u64>) -> MemSource
        ensures left { result.left ≡ left }
        ensures fails { result.fails ≡ fails }
        ensures piece { result.piece ≡ 2 ^ 64 - 1 }
        ensures calls { result.calls ≡ 0 }
        ensures faults { result.faults ≡ 0 }
        ensures ended { result.ended ≡ 0 }
    {
        MemSource {
            bytes: left,
            place: 0,
            piece: usize::MAX,
            calls: Calls::new(fails),
        }
    }

    /// The same source, which gives at most `piece` bytes a call.
    pub fn with_piece(self, piece: usize) -> MemSource
        requires { 0 < piece }
        ensures { result ≡ record self { piece = piece } }
    {
        let mut source = self;
        source.piece = piece;
        source
    }

    /// How many reads there were.
    pub fn calls(&self) -> u64
        ensures { result ≡ self.now.calls }
    {
        self.calls.count
    }
}

impl Source for MemSource {
    ghost left = { λ s. Some s.left };

    ghost faults = { λ s. s.faults };

    ghost ended = { λ s. s.ended };

    fn read(&mut self, buf: &mut [u8]) -> Result<usize, Failed>
        ensures takes { Takes (Some self.old.left) (Some self.new.left) result buf.new }
        ensures cause { HasCause self.old.faults self.new.faults result }
        ensures ended { self.new.ended ≡ ended_after self.old.ended (is_end result buf.new) }
        ensures count { IfOk result (λ count. count ≡ min (min (length buf.old) (length self.old.left)) self.old.piece) }
        ensures fails { is_err result ≡ is_among self.old.fails (one_more self.old.calls) }
        ensures counted { self.new.calls ≡ one_more self.old.calls }
        ensures faults { self.new.faults ≡ (if is_err result then one_more self.old.faults else self.old.faults) }
        ensures same_fails { self.new.fails ≡ self.old.fails }
        ensures same_piece { self.new.piece ≡ self.old.piece }
    {
        self.calls.begin()?;
        let left = &self.bytes.as_slice()[self.place..];
        let count = buf.len().min(left.len()).min(self.piece);
        buf[..count].copy_from_slice(&left[..count]);
        self.place += count;
        if count == 0 && !buf.is_empty() {
            self.calls.end();
        }
        Ok(count)
    }
}

/// A sink that keeps its bytes in memory.
#[derive(Drop)]
pub struct MemSink {
    written: Bytes,
    piece: usize,
    calls: Calls,
}

impl Model for MemSink {
    ghost use Rattle.std.specs.Prelude.{◌<◌};
    ghost use Rattle.port_traits.specs.Memory.{SinkState};

    ghost Value = { SinkState };

    ghost view = { λ s. record {
      written = s.written;
      fails = s.calls.fails;
      piece = s.piece;
      calls = s.calls.count;
      faults = s.calls.faults;
      ended = s.calls.ended;
    } };

    ghost invariant = { λ s. 0 < s.piece };
}

impl MemSink {
    /// An empty sink, whose calls fail at these numbers, counted from 1. A write that finds no
    /// memory fails too.
    pub fn new(alloc: Global, fails: List<u64>) -> MemSink
        ensures written { result.written ≡ [] }
        ensures fails { result.fails ≡ fails }
        ensures piece { result.piece ≡ 2 ^ 64 - 1 }
        ensures calls { result.calls ≡ 0 }
        ensures faults { result.faults ≡ 0 }
        ensures ended { result.ended ≡ 0 }
    {
        MemSink {
            written: List::new(alloc),
            piece: usize::MAX,
            calls: Calls::new(fails),
        }
    }

    /// The same sink, which takes at most `piece` bytes a call.
    pub fn with_piece(self, piece: usize) -> MemSink
        requires { 0 < piece }
        ensures { result ≡ record self { piece = piece } }
    {
        let mut sink = self;
        sink.piece = piece;
        sink
    }

    /// The bytes that were written.
    pub fn written(&self) -> &Bytes
        ensures { result.now ≡ self.now.written }
    {
        &self.written
    }

    /// How many writes there were.
    pub fn calls(&self) -> u64
        ensures { result ≡ self.now.calls }
    {
        self.calls.count
    }
}

impl Sink for MemSink {
    ghost written = { λ s. Some s.written };

    ghost faults = { λ s. s.faults };

    ghost ended = { λ s. s.ended };

    fn write(&mut self, piece: &[u8]) -> Result<usize, Failed>
        ensures puts { Puts (Some self.old.written) (Some self.new.written) result piece.now }
        ensures cause { HasCause self.old.faults self.new.faults result }
        ensures none_taken { result ≡ Ok 0 → 0 < length piece.now
            → Rose self.old.faults self.new.faults }
        ensures ended { self.new.ended ≡ ended_after self.old.ended (is_end result piece.now) }
        ensures count { IfOk result (λ count. count ≡ min (length piece.now) self.old.piece) }
        ensures fails { IsTrue (is_among self.old.fails (one_more self.old.calls)) → IsErr result }
        ensures counted { self.new.calls ≡ one_more self.old.calls }
        ensures faults { self.new.faults ≡ (if is_err result then one_more self.old.faults else self.old.faults) }
        ensures same_fails { self.new.fails ≡ self.old.fails }
        ensures same_piece { self.new.piece ≡ self.old.piece }
    {
        self.calls.begin()?;
        let count = piece.len().min(self.piece);
        match self.written.extend_from_slice(&piece[..count]) {
            Ok(()) => Ok(count),
            Err(_) => Err(self.calls.fault()),
        }
    }
}

/// An environment whose identity and draws are given.
#[derive(Drop)]
pub struct MemEnv {
    identity: Identity,
    draws: List<Draw>,
    place: usize,
}

impl Model for MemEnv {
    ghost use Rattle.std.specs.Prelude.{◌<◌, length, drop};
    ghost use Rattle.port_traits.specs.Memory.{EnvState};

    ghost Value = { EnvState };

    ghost view = { λ e. record { identity = e.identity; draws = drop e.place e.draws } };

    ghost invariant = { λ e. e.place < length e.draws };
}

impl MemEnv {
    /// An environment that hands out these draws in order, and the last one again and again.
    pub fn new(identity: Identity, draws: List<Draw>) -> MemEnv
        requires { 0 < length draws }
        ensures identity { result.identity ≡ identity }
        ensures draws { result.draws ≡ draws }
    {
        MemEnv {
            identity,
            draws,
            place: 0,
        }
    }
}

impl Env for MemEnv {
    ghost told = { λ e. Some e.identity };

    ghost draws = { λ e. Some e.draws };

    fn identity(&mut self) -> Result<Identity, NoMemory> {
        self.identity.clone()
    }

    fn draw(&mut self) -> Draw {
        let draw = self.draws[self.place];
        let last = self.draws.len() - 1;
        if self.place < last {
            self.place += 1;
        }
        draw
    }
}
