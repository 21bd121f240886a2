//! A script as its commands.
ghost use Rattle.std.specs.Prelude.{◌≡◌, ◌+◌, ◌*◌, ◌≤◌, length, reverse, IsTrue, IfSome, IfOk, OnOk};
ghost use Rattle.std.specs.Option.{option_map};
ghost use Rattle.std.specs.List.{list_all, take_while};
ghost use Rattle.script_read.specs.Commands.{is_what_numbered, what_seen};
ghost use Rattle.script_read.specs.Script.{begins_with_end, body_of, command_of, drop_semicolon, ends_command, head_of, is_no_colon, split_of, text_of_body};
ghost use Rattle.script_read.specs.Split.{GivesSplit, is_numbered, is_short, statement_of};

use crate::bytes::{trim, trim_front};
use crate::command::{Command, What, actor_of, what_of};
use std::alloc::Global;
use val_types::{List, NoMemory};

/// The greatest length of a script, 64 MiB.
pub const SCRIPT_LIMIT: usize = 67_108_864;

/// The greatest length of a command from its first byte to the end of its `//`, 1 MiB.
pub const COMMAND_LIMIT: usize = 1_048_576;

/// Why a script was not split.
#[derive(Clone, Copy)]
pub enum SplitRefusal {
    /// No command begins at this byte, the command that does is too long, or the script is: then
    /// this is the script's limit.
    At(u64),
    NoMemory,
}

impl From<NoMemory> for SplitRefusal {
    ghost use Rattle.std.specs.Prelude.{◌≡◌};
    ghost use Rattle.script_read.specs.declared.script.SplitRefusal.TheVariants.{NoMemory as NoRoom};

    ghost from_gives = { λ _ refusal. refusal ≡ NoRoom };

    fn from(_: NoMemory) -> SplitRefusal {
        SplitRefusal::NoMemory
    }
}

/// The bytes without one closing `;`.
fn drop_semicolon(bytes: &[u8]) -> &[u8]
    ensures value { result.now ≡ reverse (drop_semicolon (reverse bytes.now)) }
    ensures within { length result.now ≤ length bytes.now }
{
    match bytes {
        [front @ .., b';'] => front,
        _ => bytes,
    }
}

/// What the body of a command says.
fn text_of_body(body: &[u8]) -> &[u8]
    ensures value { result.now ≡ text_of_body body.now }
    ensures within { length result.now ≤ length body.now }
{
    trim(drop_semicolon(trim(body)))
}

/// Whether `bytes` begin with a `//` that ends a command.
fn begins_with_end(bytes: &[u8]) -> bool
    ensures value { result ≡ begins_with_end bytes.now }
    ensures within { IsTrue result → 2 ≤ length bytes.now }
{
    match bytes {
        [b'/', b'/', rest @ ..] => ends_command(rest),
        _ => false,
    }
}

/// Whether a `//` with `bytes` behind it ends a command.
fn ends_command(bytes: &[u8]) -> bool
    ensures { result ≡ ends_command bytes.now }
{
    matches!(bytes, [] | [b'\n', ..] | [b'\r', b'\n', ..])
}

/// The bytes up to the first `//` that ends a command.
#[tactic(auto, using(crate::proofs::Splitting::body_more))]
fn body_of(bytes: &[u8]) -> Option<&[u8]>
    ensures value { option_map (λ body. body.now) result ≡ body_of bytes.now }
    ensures within { IfSome result (λ body. length body.now + 2 ≤ length bytes.now) }
{
    for i in 0..bytes.len() {
        let (body, rest) = bytes.split_at(i);
        if begins_with_end(rest) {
            return Some(body);
        }
    }
    None
}

/// How many bytes stand before the first colon.
fn head_size(bytes: &[u8]) -> usize
    ensures within { result ≤ length bytes.now }
    ensures value { result ≡ length (take_while is_no_colon bytes.now) }
{
    bytes.iter().take_while(|byte| **byte != b':').count()
}

/// The bytes up to the first colon.
#[tactic(auto, using(crate::proofs::Fronts::front_is_taken))]
fn head_of(bytes: &[u8]) -> &[u8]
    ensures value { result.now ≡ head_of bytes.now }
    ensures within { length result.now ≤ length bytes.now }
{
    &bytes[..head_size(bytes)]
}

/// The command at the front of `bytes`: what is asked, and how many bytes it has with its `//`.
fn command_of(bytes: &[u8]) -> Option<(What<'_>, usize)>
    ensures value { option_map (λ command. (what_seen command.0, command.1)) result ≡ command_of bytes.now }
    ensures within { IfSome result (λ command. (5 ≤ command.1) × (command.1 ≤ length bytes.now)) }
    ensures text { IfSome result (λ command. length (statement_of (what_seen command.0)) + 5 ≤ command.1) }
    ensures numbered { IfSome result (λ command. IsTrue (is_what_numbered (what_seen command.0))) }
{
    let head = head_of(bytes);
    let actor = actor_of(head)?;
    let body = body_of(bytes.get(head.len() + 1..)?)?;
    let what = what_of(actor, text_of_body(body))?;
    Some((what, head.len() + body.len() + 3))
}

/// The commands of a script, in order. A command is an actor, a colon and a text up to the first `//` that a line's end or the
/// end of the script follows; white space stands between commands. Texts are not copied.
pub fn split(alloc: Global, script: &[u8]) -> Result<List<Command<'_>>, SplitRefusal>
    ensures gives { GivesSplit result (split_of script.now) }
    ensures count { IfOk result (λ commands. 5 * length commands ≤ length script.now) }
    ensures texts { IfOk result (λ commands. IsTrue (list_all is_short commands)) }
    ensures sessions { IfOk result (λ commands. IsTrue (list_all is_numbered commands)) }
    ensures limit { OnOk result (length script.now ≤ 67108864) }
{
    if script.len() > SCRIPT_LIMIT {
        return Err(SplitRefusal::At(SCRIPT_LIMIT as u64));
    }
    let mut commands = List::new(alloc);
    let mut rest = trim_front(script);
    while !rest.is_empty() {
        let at = (script.len() - rest.len()) as u64;
        match command_of(rest) {
            Some((what, size)) if size <= COMMAND_LIMIT => {
                commands.push(Command { at, what })?;
                let (_, behind) = rest.split_at(size);
                rest = trim_front(behind);
            }
            _ => return Err(SplitRefusal::At(at)),
        }
    }
    Ok(commands)
}
