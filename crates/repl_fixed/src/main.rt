//! The program with told identities and draws: a run gives the same bytes everywhere.
//!
//! It is the program `repl_cli` but for its environments, in which the clock and the random source of the system have no part, for its
//! disks, which are in memory, empty as it is called and gone behind it, and for a further word: `log` carries out the script on standard
//! input as `run` does, and writes the bytes of the source's binary log in place of the answers, for whoever prints or replays it, compares
//! logs or reads them with other programs.
//!
//! - `main` (here): both nodes at environments and disks in memory, handed to [`start`]
//! - `draws`: who the nodes are and what they draw
//!
//! # Proved
//! - The source is server 1 and `root@localhost`, the replica server 2 and `rep@localhost`.
//!
//! # Only tested
//! By its stored run, which goes through every kind of statement and answer: what is drawn.
#![tactic(auto)]

mod draws;

use answer_text::Status;
use disk_model::MemDisk;
use draws::{replica_env, source_env};
use repl_run::{Known, exit_of, start, tell};
use std::process::ExitCode;
use val_types::NoMemory;

/// The program over environments in memory.
fn run(rt: &HostRuntime) -> Result<ExitCode, NoMemory> {
    let mut src_env = source_env(rt.alloc())?;
    let mut rep_env = replica_env(rt.alloc())?;
    let mut src = MemDisk::new(rt.alloc());
    let mut rep = MemDisk::new(rt.alloc());
    Ok(start(
        rt,
        Known::WithLog,
        &mut src,
        &mut rep,
        &mut src_env,
        &mut rep_env,
    ))
}

fn main(rt: HostRuntime) -> ExitCode {
    match run(&rt) {
        Ok(exit) => exit,
        Err(_) => {
            let _ = tell(rt.alloc(), &mut rt.stderr(), &Status::NoMemory);
            exit_of(&Status::NoMemory)
        }
    }
}
