//! A script as its commands, or the status that tells why it has none.
ghost use Rattle.std.specs.Prelude.{◌≤◌, length, IfOk, IsTrue};
ghost use Rattle.std.specs.List.{list_all};
ghost use Rattle.script_read.specs.Script.{split_of};
ghost use Rattle.script_read.specs.Split.{is_numbered, is_short};
ghost use Rattle.run_streams.specs.Stops.{GivesCommands};

use answer_text::Status;
use script_read::{Command, SplitRefusal, split};
use std::alloc::Global;
use val_types::List;

/// The commands of a script, of which each text stands in it: BadScript where it has no command at that byte
/// or is past a limit, and want of memory.
pub fn split_commands(alloc: Global, script: &[u8]) -> Result<List<Command<'_>>, Status>
    ensures gives { GivesCommands result (split_of script.now) }
    ensures count { IfOk result (λ commands. length commands ≤ 13421772) }
    ensures texts { IfOk result (λ commands. IsTrue (list_all is_short commands)) }
    ensures sessions { IfOk result (λ commands. IsTrue (list_all is_numbered commands)) }
{
    match split(alloc, script) {
        Ok(commands) => Ok(commands),
        Err(SplitRefusal::At(at)) => Err(Status::BadScript { at }),
        Err(SplitRefusal::NoMemory) => Err(Status::NoMemory),
    }
}
