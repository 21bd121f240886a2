//! The program: standard input and output, the clock and the random source of the system, the folders of both nodes, and the words of
//! the command line.
//!
//! `main` hands both nodes, at the system's edges, to [`start`]: the source's disk is the folder `source` where the program is called, the
//! replica's the folder `replica`, each made by the first write. A standard stream that is closed fails at its first use. Where the
//! environment variable `REPL_PROGRESS` is set, how much was read of the input and of each folder is told on standard error.
//!
//! # Proved
//! Nothing of its own: who the nodes are, and what is done with them, are clauses of `repl_run`.
//!
//! # Only tested
//! What `main` hands on, by one stored run.
#![tactic(auto)]

use answer_text::Status;
use disk_model::HostDisk;
use port_traits::HostEnv;
use repl_run::{Known, exit_of, replica_identity, source_identity, start, tell};
use run_progress::{Watch, WatchedDisk};
use std::fs::File;
use std::process::ExitCode;
use val_types::NoMemory;

/// The folder of the source's disk.
const SOURCE_FOLDER: &str = "source";

/// The folder of the replica's disk.
const REPLICA_FOLDER: &str = "replica";

/// What is opened where a standard stream is closed: a folder, of which no stream can be read or written.
const NO_STREAM: &str = "/";

/// The disk over a folder, of which it is told how much was read where that was asked for.
fn disk_over<'a>(
    rt: &'a HostRuntime,
    folder: &'static str,
) -> Result<WatchedDisk<'a, HostDisk<&'a HostRuntime>>, NoMemory> {
    let alloc = rt.alloc();
    let disk = HostDisk::new(alloc, rt, String::from_str(alloc, folder)?)?;
    Ok(WatchedDisk::new(disk, Watch::asked(rt, folder)))
}

/// The program over the system's edges.
fn run(rt: &HostRuntime) -> Result<ExitCode, NoMemory> {
    let mut src_env = HostEnv::new(rt, source_identity(rt)?);
    let mut rep_env = HostEnv::new(rt, replica_identity(rt.alloc())?);
    let mut src = disk_over(rt, SOURCE_FOLDER)?;
    let mut rep = disk_over(rt, REPLICA_FOLDER)?;
    Ok(start(
        rt,
        Known::Plain,
        &mut src,
        &mut rep,
        &mut src_env,
        &mut rep_env,
    ))
}

fn main(rt: HostRuntime) -> ExitCode {
    // The system gives a file the least descriptor that is free: where who called closed a standard stream, a file of a
    // node would take its place, and answers would be written into it. These three hold 0, 1 and 2 to the end.
    let _in = File::open(&rt, NO_STREAM);
    let _out = File::open(&rt, NO_STREAM);
    let _err = File::open(&rt, NO_STREAM);
    match run(&rt) {
        Ok(exit) => exit,
        Err(_) => {
            let _ = tell(rt.alloc(), &mut rt.stderr(), &Status::NoMemory);
            exit_of(&Status::NoMemory)
        }
    }
}
