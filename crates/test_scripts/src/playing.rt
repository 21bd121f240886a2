//! Calls of the program on scripts and on logs.
//!
//! What a call is made with ([`Call`]) and should come to ([`Outcome`]) is plain data, so that a case is a line of a table; a function
//! over a table says how many of its cases hold from the first on.

use answer_text::{Report, Status, status_line};
use disk_model::MemDisk;
use port_traits::{Identity, MemEnv, MemSink, MemSource};
use program_calls::repl_run::{top, write_log};
use program_calls::run_streams::empty_report;
use program_calls::{bytes, replica_env, source_env, words_of};
use std::alloc::Global;
use std::process::Abort;
use val_types::{Bytes, List, NoMemory};

/// Texts, one behind the other.
pub fn joined(alloc: Global, parts: &[&str]) -> Bytes {
    let mut all = List::new(alloc);
    for part in parts {
        let _ = all.extend_from_slice(part.as_bytes());
    }
    all
}

/// Whether a node is the source, or the replica, that every test has.
pub fn is_root(identity: &Identity) -> bool {
    identity.server_id == 1 && identity.user.as_slice() == b"root@localhost".as_slice()
}

pub fn is_rep(identity: &Identity) -> bool {
    identity.server_id == 2 && identity.user.as_slice() == b"rep@localhost".as_slice()
}

/// What the program is called with: a command line, what is on its input, whether a read or a write moves at most 10 bytes, the read
/// and the write that fail, 0 for none, and how many draws each node has, of which the last repeats.
#[derive(Clone, Copy)]
pub struct Call<'a> {
    pub line: &'a str,
    pub input: &'a [u8],
    pub in_pieces: bool,
    pub read_fault: u64,
    pub write_fault: u64,
    pub draws: u32,
}

/// A command line over an input, in few reads and writes that do not fail.
pub fn asked<'a>(line: &'a str, input: &'a [u8]) -> Call<'a> {
    Call {
        line,
        input,
        in_pieces: false,
        read_fault: 0,
        write_fault: 0,
        draws: 3,
    }
}

/// The same in pieces of 10 bytes, where these calls fail.
pub fn asked_in_pieces<'a>(
    line: &'a str,
    input: &'a [u8],
    read_fault: u64,
    write_fault: u64,
) -> Call<'a> {
    Call {
        line,
        input,
        in_pieces: true,
        read_fault,
        write_fault,
        draws: 3,
    }
}

/// What is written.
#[derive(Clone, Copy)]
pub enum Shown<'a> {
    Any,
    Just(&'a [u8]),
    FrontOf(&'a [u8]),
}

/// What a call of the program should come to: what is written, the line that tells its status, nothing at Done, and the least and the
/// greatest number of reads and of writes.
#[derive(Clone, Copy)]
pub struct Outcome<'a> {
    pub shown: Shown<'a>,
    pub ending: &'a str,
    pub reads: (u64, u64),
    pub writes: (u64, u64),
}

/// Any number of calls.
pub const ANY: (u64, u64) = (0, u64::MAX);

/// These bytes are written, and the line tells the status, whatever calls that takes.
pub fn wanted<'a>(shown: &'a [u8], ending: &'a str) -> Outcome<'a> {
    Outcome {
        shown: Shown::Just(shown),
        ending,
        reads: ANY,
        writes: ANY,
    }
}

/// All that a call of the program works on.
#[derive(Drop)]
struct Stage {
    words: Vec<String>,
    source: MemEnv,
    replica: MemEnv,
    input: MemSource,
    out: MemSink,
}

/// The number of a call.
fn only(alloc: Global, call: u64) -> List<u64> {
    let mut calls = List::new(alloc);
    let _ = calls.push(call);
    calls
}

fn input_of(alloc: Global, asked: &Call<'_>) -> MemSource {
    let input = MemSource::new(bytes(alloc, asked.input), only(alloc, asked.read_fault));
    if asked.in_pieces {
        input.with_piece(10)
    } else {
        input
    }
}

fn output_of(alloc: Global, asked: &Call<'_>) -> MemSink {
    let out = MemSink::new(alloc, only(alloc, asked.write_fault));
    if asked.in_pieces {
        out.with_piece(10)
    } else {
        out
    }
}

fn stage_of(alloc: Global, asked: &Call<'_>) -> Option<Stage> {
    let source = source_env(alloc, asked.draws)?;
    let replica = replica_env(alloc, asked.draws)?;
    Some(Stage {
        words: words_of(alloc, asked.line),
        source,
        replica,
        input: input_of(alloc, asked),
        out: output_of(alloc, asked),
    })
}

/// A call of the program over disks of which nothing is written yet. It says nothing of what comes out, so that tests are checked
/// without the clauses of `top`.
fn called(alloc: Global, stage: &mut Stage) -> (Status, Report) {
    let mut report = empty_report(alloc);
    let status = top(
        alloc,
        stage.words.as_slice(),
        &mut stage.input,
        &mut stage.out,
        &mut MemDisk::new(alloc),
        &mut MemDisk::new(alloc),
        &mut stage.source,
        &mut stage.replica,
        &mut report,
    );
    (status, report)
}

/// The writing of a log, of which nothing is said either: the number of its status.
fn logged(alloc: Global, stage: &mut Stage) -> u8 {
    let status = write_log(
        alloc,
        &mut stage.input,
        &mut stage.out,
        &mut MemDisk::new(alloc),
        &mut MemDisk::new(alloc),
        &mut stage.source,
        &mut stage.replica,
        &mut empty_report(alloc),
    );
    status.number()
}

/// Whether a text is made, and is this one.
fn is_text(found: Result<Bytes, NoMemory>, wanted: &[u8]) -> bool {
    match found {
        Ok(text) => text.as_slice() == wanted,
        Err(_) => false,
    }
}

/// Whether this line tells the status of a call of the program.
fn is_ended(alloc: Global, stage: &mut Stage, ending: &str) -> bool {
    let (status, _) = called(alloc, stage);
    is_text(status_line(alloc, &status), ending.as_bytes())
}

fn is_within(count: u64, range: (u64, u64)) -> bool {
    let (least, greatest) = range;
    least <= count && count <= greatest
}

fn is_shown(written: &[u8], shown: Shown<'_>) -> bool {
    match shown {
        Shown::Any => true,
        Shown::Just(bytes) => written == bytes,
        Shown::FrontOf(bytes) => bytes.starts_with(written),
    }
}

/// Whether a call wrote what it should, in so many reads and writes.
fn came_to(stage: &Stage, wanted: &Outcome<'_>) -> bool {
    is_shown(stage.out.written().as_slice(), wanted.shown)
        && is_within(stage.input.calls(), wanted.reads)
        && is_within(stage.out.calls(), wanted.writes)
}

/// Whether a call of the program comes to what it should.
pub fn plays(alloc: Global, asked: &Call<'_>, wanted: &Outcome<'_>) -> bool {
    match stage_of(alloc, asked) {
        Some(mut stage) => { is_ended(alloc, &mut stage, wanted.ending) && came_to(&stage, wanted) }
        None => false,
    }
}

/// What a call of the program writes, and how many reads and writes it takes.
pub fn written_by(alloc: Global, asked: &Call<'_>) -> (Bytes, u64, u64) {
    match stage_of(alloc, asked) {
        Some(mut stage) => {
            let _ = called(alloc, &mut stage);
            let written = bytes(alloc, stage.out.written().as_slice());
            (written, stage.input.calls(), stage.out.calls())
        }
        None => (List::new(alloc), 0, 0),
    }
}

/// The report of a call of the program.
pub fn report_of(alloc: Global, asked: &Call<'_>) -> Report {
    match stage_of(alloc, asked) {
        Some(mut stage) => {
            let (_, report) = called(alloc, &mut stage);
            report
        }
        None => empty_report(alloc),
    }
}

/// The number of the status with which a script's log is written, and what was written.
pub fn write_log_of(alloc: Global, script: &[u8]) -> (u8, Bytes) {
    match stage_of(alloc, &asked_in_pieces("log", script, 0, 0)) {
        Some(mut stage) => {
            let number = logged(alloc, &mut stage);
            (number, bytes(alloc, stage.out.written().as_slice()))
        }
        None => (u8::MAX, List::new(alloc)),
    }
}

/// The log of a script.
pub fn log_of(alloc: Global, script: &[u8]) -> Bytes {
    let (_, log) = write_log_of(alloc, script);
    log
}

/// Whether a script runs to its end and writes these lines.
pub fn runs(alloc: Global, script: &[u8], lines: &[u8]) -> bool {
    plays(alloc, &asked("run", script), &wanted(lines, ""))
}

/// What stands around the scripts of a table, and around what they write.
pub struct Frame {
    pub before: &'static str,
    pub behind: &'static str,
    pub first: &'static str,
    pub last: &'static str,
}

/// Scripts as they are.
pub static BARE: Frame = Frame {
    before: "",
    behind: "",
    first: "",
    last: "",
};

/// A text between two others.
fn between(alloc: Global, front: &str, text: &str, end: &str) -> Bytes {
    let mut all = bytes(alloc, front.as_bytes());
    put_times(&mut all, text, 1);
    put_times(&mut all, end, 1);
    all
}

fn runs_in(alloc: Global, frame: &Frame, script: &str, lines: &str) -> bool {
    let script = between(alloc, frame.before, script, frame.behind);
    let lines = between(alloc, frame.first, lines, frame.last);
    runs(alloc, script.as_slice(), lines.as_slice())
}

/// How many scripts run to their end and write their lines, from the first on.
pub fn held(alloc: Global, frame: &Frame, rows: &[(&str, &str)]) -> usize {
    for (i, (script, lines)) in rows.iter().enumerate() {
        if !runs_in(alloc, frame, *script, *lines) {
            return i;
        }
    }
    rows.len()
}

/// Puts a piece so many times at the end.
pub fn put_times(text: &mut Bytes, piece: &str, times: u32) {
    for _turn in 0..times {
        let _ = text.extend_from_slice(piece.as_bytes());
    }
}

/// Puts a number in decimal at the end.
pub fn put_number(alloc: Global, text: &mut Bytes, number: u32) {
    if let Ok(number) = number.to_string(alloc) {
        put_times(text, number.as_str(), 1);
    }
}

/// Expects of a table that all its cases hold.
pub fn expect_all(rt: &impl Abort, of: &str, held: usize, cases: usize) {
    assert_eq!(rt; held, cases, "{of}");
}
