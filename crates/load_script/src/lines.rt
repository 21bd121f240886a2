//! The lines of the script.
ghost use Rattle.std.specs.Prelude.{◌≡◌, ◌++◌, OnOk};
ghost use Rattle.load_script.specs.Script.{create_text, last_lines, line_end, replica_line, session_line, step_lines, turn_lines};

use crate::changes::put_change;
use std::alloc::Global;
use val_types::{Bytes, NoMemory};

/// What the session is asked first.
const CREATE: &[u8] =
    b"CREATE TABLE g (id BIGINT NOT NULL AUTO_INCREMENT, k INT NOT NULL, v VARCHAR(20) NOT NULL, PRIMARY KEY (id), UNIQUE KEY u (k))";

/// How many changes stand between two steps of the replica.
const BETWEEN_STEPS: u32 = 100;

/// Puts what ends a line.
fn put_end(text: &mut Bytes) -> Result<(), NoMemory>
    ensures { OnOk result (text.new ≡ text.old ++ line_end) }
{
    text.extend_from_slice(b" //\n")
}

/// Puts a line of the replica.
fn put_replica_line(text: &mut Bytes, words: &[u8]) -> Result<(), NoMemory>
    ensures { OnOk result (text.new ≡ text.old ++ replica_line words.now) }
{
    text.extend_from_slice(b"replica: ")?;
    text.extend_from_slice(words)?;
    put_end(text)
}

/// Puts the first line.
pub fn put_first(text: &mut Bytes) -> Result<(), NoMemory>
    ensures { OnOk result (text.new ≡ text.old ++ session_line create_text) }
{
    text.extend_from_slice(b"s1: ")?;
    text.extend_from_slice(CREATE)?;
    put_end(text)
}

/// Puts the lines with which the replica fetches and applies behind some changes.
fn put_steps(text: &mut Bytes) -> Result<(), NoMemory>
    ensures { OnOk result (text.new ≡ text.old ++ step_lines) }
{
    put_replica_line(text, b"FETCH 1000000")?;
    put_replica_line(text, b"APPLY 1000")
}

/// Puts the lines of the i-th change.
pub fn put_turn(alloc: Global, text: &mut Bytes, i: u32) -> Result<(), NoMemory>
    ensures { OnOk result (text.new ≡ text.old ++ turn_lines i) }
{
    text.extend_from_slice(b"s1: ")?;
    put_change(alloc, text, i)?;
    put_end(text)?;
    if i % BETWEEN_STEPS == 0 {
        put_steps(text)?;
    }
    Ok(())
}

/// Puts the last lines.
pub fn put_last(text: &mut Bytes) -> Result<(), NoMemory>
    ensures { OnOk result (text.new ≡ text.old ++ last_lines) }
{
    put_replica_line(text, b"FETCH 1000000000")?;
    put_replica_line(text, b"APPLY 4294967295")?;
    put_replica_line(text, b"SELECT COUNT(*) FROM g")
}
