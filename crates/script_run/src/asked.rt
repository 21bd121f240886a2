//! What a script asks of the nodes.
ghost use Rattle.std.specs.Prelude.{◌≡◌, ◌≤◌, length, map, option_map, IfOk, IfSome, IsTrue};
ghost use Rattle.std.specs.List.{list_all};
ghost use Rattle.script_read.specs.Commands.{command_seen, what_seen};
ghost use Rattle.script_read.specs.Split.{is_numbered, is_short};
ghost use Rattle.run_laws.specs.run_model.Asked.{all_asked, asked_by, asked_of};
ghost use Rattle.script_run.specs.Asking.{GivesAsked, asked_seen, is_fit, most_commands};

use answer_text::Status;
use run_streams::{split_commands, with_status};
use script_read::{Command, What};
use std::alloc::Global;
use val_types::List;

/// What a command asks: a text of a session; of the replica a SELECT, at most so many bytes to be fetched, or at most so many groups
/// to be carried out; that the source, or the replica, writes what its store holds as a snapshot, or opens again.
#[derive(Clone, Copy)]
pub(crate) enum Asked<'a> {
    Say { session: u8, text: &'a [u8] },
    Select { text: &'a [u8] },
    Fetch { count: u32 },
    Apply { count: u32 },
    CheckpointSource,
    CheckpointReplica,
    RestartSource,
    RestartReplica,
}

/// What a command asks, None for what no node does yet.
fn asked_by<'a>(command: &Command<'a>) -> Option<Asked<'a>>
    requires text { IsTrue (is_short command.now) }
    requires session { IsTrue (is_numbered command.now) }
    ensures value { option_map asked_seen result ≡ asked_by (what_seen command.now.what) }
    ensures fit { IfSome result (λ asked. IsTrue (is_fit asked)) }
{
    match command.what {
        What::Session { session, text } => Some(Asked::Say { session, text }),
        What::ReplicaSelect { text } => Some(Asked::Select { text }),
        What::Fetch(count) => Some(Asked::Fetch { count }),
        What::Apply(count) => Some(Asked::Apply { count }),
        What::SourceCheckpoint => Some(Asked::CheckpointSource),
        What::ReplicaCheckpoint => Some(Asked::CheckpointReplica),
        What::SourceRestart => Some(Asked::RestartSource),
        What::ReplicaRestart => Some(Asked::RestartReplica),
        _ => None,
    }
}

/// What commands ask, BadScript at the first that no node carries out.
fn all_asked<'a>(alloc: Global, commands: &[Command<'a>]) -> Result<List<Asked<'a>>, Status>
    requires texts { IsTrue (list_all is_short commands.now) }
    requires sessions { IsTrue (list_all is_numbered commands.now) }
    ensures gives { GivesAsked result (all_asked (map command_seen commands.now)) }
    ensures count { IfOk result (λ asked. length asked ≤ length commands.now) }
    ensures fit { IfOk result (λ asked. IsTrue (list_all is_fit asked)) }
{
    let mut all = List::new(alloc);
    for command in commands {
        match asked_by(command) {
            None => return Err(Status::BadScript { at: command.at }),
            Some(asked) => with_status(all.push(asked))?,
        }
    }
    Ok(all)
}

/// What a script asks, BadScript at its first bad byte: where no command begins, or else where the first one does that no node
/// carries out.
pub(crate) fn read_asked(alloc: Global, script: &[u8]) -> Result<List<Asked<'_>>, Status>
    ensures gives { GivesAsked result (asked_of script.now) }
    ensures count { IfOk result (λ asked. length asked ≤ most_commands) }
    ensures fit { IfOk result (λ asked. IsTrue (list_all is_fit asked)) }
{
    let commands = split_commands(alloc, script)?;
    all_asked(alloc, commands.as_slice())
}
