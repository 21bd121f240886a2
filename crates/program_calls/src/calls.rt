//! Calls of the program over disks that are handed in.
ghost use Rattle.disk_model.specs.Moments.{IsSettled};

use crate::environments::{bytes, replica_env, source_env};
use answer_text::{Report, Status, status_line};
use disk_model::Disk;
use port_traits::{MemEnv, MemSink, MemSource};
use repl_run::top;
use run_streams::empty_report;
use std::alloc::Global;
use val_types::{Bytes, List};

/// What the program is called with: a command line, what is on its input, and how many draws each node has, of which the last repeats.
#[derive(Clone, Copy)]
pub struct Call<'a> {
    pub line: &'a str,
    pub input: &'a [u8],
    pub draws: u32,
}

/// A command line over an input.
pub fn asked<'a>(line: &'a str, input: &'a [u8]) -> Call<'a> {
    Call {
        line,
        input,
        draws: 24,
    }
}

/// All that a call of the program works on beside its disks.
#[derive(Drop)]
struct Stage {
    words: Vec<String>,
    source: MemEnv,
    replica: MemEnv,
    input: MemSource,
    out: MemSink,
}

/// What a call of the program has come to.
#[derive(Drop)]
pub struct Ended {
    pub line: Bytes,
    pub written: Bytes,
    pub report: Report,
}

/// The words of a command line.
pub fn words_of(alloc: Global, line: &str) -> Vec<String> {
    let mut words = Vec::new(alloc);
    for word in line.split_whitespace() {
        if let Ok(word) = String::from_str(alloc, word) {
            let _ = words.push(word);
        }
    }
    words
}

fn stage_of(alloc: Global, asked: &Call<'_>) -> Option<Stage> {
    let source = source_env(alloc, asked.draws)?;
    let replica = replica_env(alloc, asked.draws)?;
    Some(Stage {
        words: words_of(alloc, asked.line),
        source,
        replica,
        input: MemSource::new(bytes(alloc, asked.input), List::new(alloc)),
        out: MemSink::new(alloc, List::new(alloc)),
    })
}

/// A call of the program over these disks. It says nothing of what comes out, so that tests are checked without the clauses of `top`.
fn called<D: Disk, R: Disk>(
    alloc: Global,
    stage: &mut Stage,
    src: &mut D,
    rep: &mut R,
) -> (Status, Report)
    requires source { IsSettled (D.told src.old) }
    requires replica { IsSettled (R.told rep.old) }
{
    let mut report = empty_report(alloc);
    let status = top(
        alloc,
        stage.words.as_slice(),
        &mut stage.input,
        &mut stage.out,
        src,
        rep,
        &mut stage.source,
        &mut stage.replica,
        &mut report,
    );
    (status, report)
}

/// What a call of the program over these disks comes to: the line of its status, what it writes, and its report; none where memory was
/// short.
pub fn over<D: Disk, R: Disk>(
    alloc: Global,
    asked: &Call<'_>,
    src: &mut D,
    rep: &mut R,
) -> Option<Ended>
    requires source { IsSettled (D.told src.old) }
    requires replica { IsSettled (R.told rep.old) }
{
    let mut stage = stage_of(alloc, asked)?;
    let (status, report) = called(alloc, &mut stage, src, rep);
    Some(Ended {
        line: status_line(alloc, &status).ok()?,
        written: bytes(alloc, stage.out.written().as_slice()),
        report,
    })
}

/// Whether a call of the program writes these lines and ends with this line.
pub fn comes_to(ended: &Option<Ended>, written: &str, line: &str) -> bool {
    match ended {
        Some(ended) => {
            ended.written.as_slice() == written.as_bytes()
                && ended.line.as_slice() == line.as_bytes()
        }
        None => false,
    }
}
