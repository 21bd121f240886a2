//! One call of the program.
ghost use Rattle.disk_model.specs.Moments.{IsSettled};

use crate::command_line::{Known, asks_log, words};
use crate::ending::{exit_of, tell};
use crate::pages::{Page, page_asked};
use crate::program::top;
use answer_text::Status;
use disk_model::Disk;
use port_traits::{Env, StdSink, StdSource};
use run_progress::{Watch, WatchedReader};
use run_streams::empty_report;
use script_run::write_log;
use std::io;
use std::io::{BufReader, Write};
use std::process::ExitCode;

/// How many bytes of standard input are asked for at once.
const READ_AHEAD: usize = 65_536;

/// Shows a page on standard output.
fn show(rt: &HostRuntime, known: Known, page: Page) -> Status {
    let mut out = io::writer(rt);
    for part in page.parts(known) {
        if out.write_all(part.as_bytes()).is_err() {
            return Status::WriteFault;
        }
    }
    Status::Done
}

/// The program over standard input and output, a source in the one environment and on the one disk, a replica in the others.
fn call<E: Env, F: Env, D: Disk, R: Disk>(
    rt: &HostRuntime,
    known: Known,
    words: &[String],
    src: &mut D,
    rep: &mut R,
    src_env: &mut E,
    rep_env: &mut F,
) -> Status
    requires settled { IsSettled (D.told src.old) }
    requires rep_settled { IsSettled (R.told rep.old) }
{
    // A log is read a header and a body at a time, of which the system gives many at once.
    let watched = WatchedReader::new(rt.reader(), Watch::asked(rt, "standard input"));
    let Ok(reader) = BufReader::with_capacity(rt.alloc(), READ_AHEAD, watched) else {
        return Status::NoMemory;
    };
    let mut input = StdSource::new(reader);
    let mut out = StdSink::new(io::writer(rt));
    let mut report = empty_report(rt.alloc());
    if matches!(known, Known::WithLog) && asks_log(words) {
        return write_log(
            rt.alloc(),
            &mut input,
            &mut out,
            src,
            rep,
            src_env,
            rep_env,
            &mut report,
        );
    }
    top(
        rt.alloc(),
        words,
        &mut input,
        &mut out,
        src,
        rep,
        src_env,
        rep_env,
        &mut report,
    )
}

/// What the words of the command line ask for, done.
fn asked<E: Env, F: Env, D: Disk, R: Disk>(
    rt: &HostRuntime,
    known: Known,
    src: &mut D,
    rep: &mut R,
    src_env: &mut E,
    rep_env: &mut F,
) -> Status
    requires settled { IsSettled (D.told src.old) }
    requires rep_settled { IsSettled (R.told rep.old) }
{
    match words(rt) {
        Err(status) => status,
        Ok(words) => match page_asked(words.as_slice()) {
            Some(page) => show(rt, known, page),
            None => call(rt, known, words.as_slice(), src, rep, src_env, rep_env),
        },
    }
}

/// Does what the words of the command line ask of a program that has these, tells how it ended on standard error, and gives
/// what the process ends with.
pub fn start<E: Env, F: Env, D: Disk, R: Disk>(
    rt: &HostRuntime,
    known: Known,
    src: &mut D,
    rep: &mut R,
    src_env: &mut E,
    rep_env: &mut F,
) -> ExitCode
    requires settled { IsSettled (D.told src.old) }
    requires rep_settled { IsSettled (R.told rep.old) }
{
    let status = asked(rt, known, src, rep, src_env, rep_env);
    // where standard error takes nothing, the exit status says it
    let _ = tell(rt.alloc(), &mut rt.stderr(), &status);
    exit_of(&status)
}
