//! Streams and environments of `port_traits`, in memory and over the runtime.

use super::bytes;
use port_traits::{
    Draw, Env, Failed, HostEnv, Identity, MemEnv, MemSink, MemSource, Sink, Source, StdSink,
    StdSource, counts_rise, draws_come_in_order, reads_join,
};
use std::alloc::Global;
use std::io;
use std::random::RandomSource;
use std::rt::Clock;
use std::time::Duration;
use val_types::{Duplicate, List, NoMemory};

/// A runtime whose every call fails.
#[derive(Drop)]
struct Broken;

fn refusal() -> io::Error {
    io::Error::from(io::ErrorKind::Other)
}

impl Clock for Broken {
    fn monotonic(&self) -> io::Result<Duration> {
        Err(refusal())
    }

    fn since_1970(&self) -> io::Result<Duration> {
        Err(refusal())
    }
}

impl RandomSource for Broken {
    fn fill_bytes(&self, buf: &mut [u8]) -> io::Result<()> {
        buf.fill(7);
        Err(refusal())
    }
}

impl io::Read for Broken {
    fn read(&mut self, _buf: &mut [u8]) -> io::Result<usize> {
        Err(refusal())
    }
}

/// A writer that takes nothing, or fails.
#[derive(Drop)]
struct Full {
    fails: bool,
}

impl io::Write for Full {
    fn write(&mut self, _buf: &[u8]) -> io::Result<usize> {
        if self.fails { Err(refusal()) } else { Ok(0) }
    }

    fn flush(&mut self) -> io::Result<()> {
        Ok(())
    }
}

/// Whether a read into four bytes gives these, or is a fault where there are none.
fn gives<S: Source>(source: &mut S, wanted: Option<&[u8]>) -> bool {
    let mut buf = [0u8; 4];
    match (source.read(&mut buf), wanted) {
        (Ok(count), Some(bytes)) => count == bytes.len() && buf.starts_with(bytes),
        (Err(_), None) => true,
        _ => false,
    }
}

/// How many reads do so, from the first on.
fn reads<S: Source>(source: &mut S, wanted: &[Option<&[u8]>]) -> usize {
    for (i, bytes) in wanted.iter().enumerate() {
        if !gives(source, *bytes) {
            return i;
        }
    }
    wanted.len()
}

/// Whether a write takes so many bytes, or is a fault where there is no number.
fn takes<S: Sink>(sink: &mut S, piece: &[u8], wanted: Option<usize>) -> bool {
    match (sink.write(piece), wanted) {
        (Ok(count), Some(number)) => count == number,
        (Err(_), None) => true,
        _ => false,
    }
}

/// How many writes do so, from the first on.
fn writes<S: Sink>(sink: &mut S, wanted: &[(&[u8], Option<usize>)]) -> usize {
    for (i, (piece, count)) in wanted.iter().enumerate() {
        if !takes(sink, *piece, *count) {
            return i;
        }
    }
    wanted.len()
}

/// The number of a call that fails; 0 for none.
fn only(alloc: Global, call: u64) -> List<u64> {
    let mut calls = List::new(alloc);
    let _ = calls.push(call);
    calls
}

/// Reads in pieces of three, around the second call, which fails.
static PIECES: [Option<&[u8]>; 6] = [
    Some(b"abc"),
    None,
    Some(b"def"),
    Some(b"g"),
    Some(b""),
    Some(b""),
];

/// Whether the reads are these.
fn reads_pieces(alloc: Global) -> bool {
    let mut source = MemSource::new(bytes(alloc, b"abcdefg"), only(alloc, 2)).with_piece(3);
    reads(&mut source, &PIECES) == 6 && source.calls() == 6
}

/// Reads of seven bytes to their end, and where the second or the third call fails.
static WHOLE: [Option<&[u8]>; 3] = [Some(b"seve"), Some(b"n b"), Some(b"")];

static SECOND_FAILS: [Option<&[u8]>; 2] = [Some(b"seve"), None];

static THIRD_FAILS: [Option<&[u8]>; 3] = [Some(b"seve"), Some(b"n b"), None];

/// Whether reads of a text come to its end, or to the call that fails, 0 for none, in just so many calls.
fn reads_text(alloc: Global, fail: u64, wanted: &[Option<&[u8]>]) -> bool {
    let mut source = MemSource::new(bytes(alloc, b"seven b"), only(alloc, fail));
    reads(&mut source, wanted) == wanted.len() && source.calls() == wanted.len() as u64
}

/// Writes in pieces of two, around the second call, which fails.
static WRITES: [(&[u8], Option<usize>); 4] = [
    (b"hello", Some(2)),
    (b"llo", None),
    (b"llo", Some(2)),
    (b"", Some(0)),
];

/// Whether the writes are these.
fn writes_pieces(alloc: Global) -> bool {
    let mut sink = MemSink::new(alloc, only(alloc, 2)).with_piece(2);
    writes(&mut sink, &WRITES) == 4
        && sink.written().as_slice() == b"hell".as_slice()
        && sink.calls() == 4
}

#[test]
fn streams_in_memory(rt: HostRuntime) {
    let alloc = rt.alloc();
    assert!(rt; reads_pieces(alloc));
    assert!(rt; reads_text(alloc, 0, &WHOLE));
    assert!(rt; reads_text(alloc, 2, &SECOND_FAILS));
    assert!(rt; reads_text(alloc, 3, &THIRD_FAILS));
    assert!(rt; writes_pieces(alloc));
}

/// Whether bytes come to a writer of the runtime.
fn writes_to_vector(alloc: Global) -> bool {
    let mut sink = StdSink::new(Vec::new(alloc));
    takes(&mut sink, b"abc", Some(3)) && sink.writer.as_slice() == b"abc".as_slice()
}

/// Reads of six bytes.
static OF_SIX: [Option<&[u8]>; 3] = [Some(b"abcd"), Some(b"ef"), Some(b"")];

/// Whether a reader's bytes come, and each error of a reader or a writer is a fault.
fn streams_over_runtime() -> bool {
    let mut source = StdSource::new(io::Cursor::new(b"abcdef".as_slice()));
    reads(&mut source, &OF_SIX) == 3
        && gives(&mut StdSource::new(Broken), None)
        && takes(&mut StdSink::new(Full { fails: false }), b"abc", Some(0))
        && takes(&mut StdSink::new(Full { fails: true }), b"abc", None)
}

/// Whether a fault is told so.
fn is_told(alloc: Global) -> bool {
    match format!(in alloc; "{Failed}") {
        Ok(told) => told.as_str() == "the stream failed",
        Err(_) => false,
    }
}

#[test]
fn streams_of_the_runtime(rt: HostRuntime) {
    assert!(rt; streams_over_runtime() && writes_to_vector(rt.alloc()));
    assert!(rt; takes(&mut StdSink::new(io::writer(&rt)), b"written\n", Some(8)));
    assert!(rt; is_told(rt.alloc()));
}

fn draw_at(now: u32) -> Draw {
    Draw {
        now,
        sys: now,
        seed1: 1,
        seed2: 2,
        uuid: [9; 16],
    }
}

fn root(alloc: Global) -> Identity {
    Identity {
        server_id: 1,
        user: bytes(alloc, b"root@localhost"),
    }
}

/// Whether an identity is told, and is that one.
fn is_root(found: Result<Identity, NoMemory>) -> bool {
    match found {
        Ok(identity) => {
            identity.server_id == 1 && identity.user.as_slice() == b"root@localhost".as_slice()
        }
        Err(_) => false,
    }
}

/// Whether draws come in their order, the last one again and again, and the identity is told at each.
fn draws_in_order(env: &mut MemEnv) -> bool {
    let mut same = true;
    for now in [5, 8, 8, 8] {
        same = env.draw() == draw_at(now) && is_root(env.identity()) && same;
    }
    same
}

/// Whether an environment of two draws does so.
fn draws_two(alloc: Global) -> bool {
    match List::from_slice(alloc, &[draw_at(5), draw_at(8)]) {
        Ok(draws) => draws_in_order(&mut MemEnv::new(root(alloc), draws)),
        Err(_) => false,
    }
}

/// Whether identities and draws are copied.
fn are_copied(alloc: Global) -> bool {
    is_root(root(alloc).duplicate(alloc))
        && matches!(draw_at(5).duplicate(alloc), Ok(draw) if draw == draw_at(5))
}

/// Whether two draws have moments that rise, from this century, and different bytes.
fn are_draws(first: &Draw, second: &Draw) -> bool {
    first.uuid != second.uuid && 1_500_000_000 < first.now && first.now <= second.now
}

/// Whether an environment draws zeros.
fn draws_zeros<E: Env>(env: &mut E) -> bool {
    let zeros = Draw {
        now: 0,
        sys: 0,
        seed1: 0,
        seed2: 0,
        uuid: [0; 16],
    };
    env.draw() == zeros
}

#[test]
fn environments(rt: HostRuntime) {
    let alloc = rt.alloc();
    assert!(rt; draws_two(alloc) && are_copied(alloc));
    assert!(rt; draws_zeros(&mut HostEnv::new(Broken, root(alloc))));
    let mut host = HostEnv::new(&rt, root(alloc));
    assert!(rt; are_draws(&host.draw(), &host.draw()) && is_root(host.identity()));
    counts_rise();
    draws_come_in_order();
    reads_join();
}
