//! What a command says: its actor, and what its text asks of it.
ghost use Rattle.std.specs.Prelude.{◌≡◌, ◌≤◌, length, IfSome, IsTrue, OnSome};
ghost use Rattle.std.specs.Option.{option_map};
ghost use Rattle.script_read.specs.Commands.{actor_of, is_actor_numbered, is_what_numbered, replica_text, session_of, source_text, what_of, what_seen, worded_text};
ghost use Rattle.script_read.specs.Split.{statement_of};

use crate::bytes::{cut_word, is_word, number_to, trim_front};

/// The greatest number of a session.
const SESSION_LIMIT: u32 = 99;

/// How many bytes FETCH asks for at the most.
const FETCH_LIMIT: u32 = 1_073_741_824;

/// How many groups APPLY asks for at the most.
const APPLY_LIMIT: u32 = 4_294_967_295;

/// Who is asked.
#[derive(Clone, Copy)]
pub(crate) enum Actor {
    Session(u8),
    Source,
    Replica,
}

/// What is asked. A text is that between the colon and the `//`, without white space at its ends and without one closing `;`,
/// and stands in the script.
#[derive(Clone, Copy)]
pub enum What<'a> {
    /// A text of the session with this number, from 1 to 99, which need not be a statement.
    Session { session: u8, text: &'a [u8] },
    SourceCheckpoint,
    SourceFlush,
    SourceRestart,
    /// At most so many bytes of the log, from 1 to 1073741824.
    Fetch(u32),
    /// At most so many groups, from 1 to 4294967295.
    Apply(u32),
    ReplicaCheckpoint,
    ReplicaRestart,
    /// A text whose first word is SELECT.
    ReplicaSelect { text: &'a [u8] },
}

/// A command: the place of its first byte, counted from 0, and what is asked.
#[derive(Clone, Copy)]
pub struct Command<'a> {
    pub at: u64,
    pub what: What<'a>,
}

/// The session that `s1` to `s99` name.
fn session_of(head: &[u8]) -> Option<Actor>
    ensures value { result ≡ session_of head.now }
    ensures size { OnSome result (2 ≤ length head.now) }
    ensures numbered { IfSome result (λ actor. IsTrue (is_actor_numbered actor)) }
{
    match head {
        [b's' | b'S', digits @ ..] => {
            let number = number_to(SESSION_LIMIT, digits)?;
            Some(Actor::Session(number as u8))
        }
        _ => None,
    }
}

/// The actor that the bytes before a colon name.
pub(crate) fn actor_of(head: &[u8]) -> Option<Actor>
    ensures value { result ≡ actor_of head.now }
    ensures size { OnSome result (2 ≤ length head.now) }
    ensures numbered { IfSome result (λ actor. IsTrue (is_actor_numbered actor)) }
{
    if is_word(b"source", head) {
        Some(Actor::Source)
    } else if is_word(b"replica", head) {
        Some(Actor::Replica)
    } else {
        session_of(head)
    }
}

/// What a text asks of the source.
fn source_text(text: &[u8]) -> Option<What<'_>>
    ensures value { option_map what_seen result ≡ source_text text.now }
    ensures within { IfSome result (λ what. length (statement_of (what_seen what)) ≤ length text.now) }
    ensures numbered { IfSome result (λ what. IsTrue (is_what_numbered (what_seen what))) }
{
    if is_word(b"checkpoint", text) {
        Some(What::SourceCheckpoint)
    } else if is_word(b"flush", text) {
        Some(What::SourceFlush)
    } else if is_word(b"restart", text) {
        Some(What::SourceRestart)
    } else {
        None
    }
}

/// What a text that is no single word asks of the replica.
fn worded_text<'a>(text: &'a [u8], word: &[u8], rest: &[u8]) -> Option<What<'a>>
    ensures value { option_map what_seen result ≡ worded_text text.now word.now rest.now }
    ensures within { IfSome result (λ what. length (statement_of (what_seen what)) ≤ length text.now) }
    ensures numbered { IfSome result (λ what. IsTrue (is_what_numbered (what_seen what))) }
{
    if is_word(b"select", word) {
        Some(What::ReplicaSelect { text })
    } else if is_word(b"fetch", word) {
        Some(What::Fetch(number_to(FETCH_LIMIT, trim_front(rest))?))
    } else if is_word(b"apply", word) {
        Some(What::Apply(number_to(APPLY_LIMIT, trim_front(rest))?))
    } else {
        None
    }
}

/// What a text asks of the replica.
fn replica_text(text: &[u8]) -> Option<What<'_>>
    ensures value { option_map what_seen result ≡ replica_text text.now }
    ensures within { IfSome result (λ what. length (statement_of (what_seen what)) ≤ length text.now) }
    ensures numbered { IfSome result (λ what. IsTrue (is_what_numbered (what_seen what))) }
{
    if is_word(b"checkpoint", text) {
        Some(What::ReplicaCheckpoint)
    } else if is_word(b"restart", text) {
        Some(What::ReplicaRestart)
    } else {
        let (word, rest) = cut_word(text);
        worded_text(text, word, rest)
    }
}

/// What a text asks of its actor.
pub(crate) fn what_of(actor: Actor, text: &[u8]) -> Option<What<'_>>
    ensures value { option_map what_seen result ≡ what_of actor text.now }
    ensures within { IfSome result (λ what. length (statement_of (what_seen what)) ≤ length text.now) }
    ensures numbered { IsTrue (is_actor_numbered actor) → IfSome result (λ what. IsTrue (is_what_numbered (what_seen what))) }
{
    match actor {
        Actor::Session(session) => Some(What::Session { session, text }),
        Actor::Source => source_text(text),
        Actor::Replica => replica_text(text),
    }
}
