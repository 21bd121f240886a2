//! Who the two nodes of a program over the system are.
ghost use Rattle.std.specs.Prelude.{◌≡◌, ◌≢◌, ◌<◌, ◌^◌, ℕ, codes, string_bytes, IfOk, OnErr};
ghost use Rattle.std.specs.Fmt.{decimal};
ghost use Rattle.std.specs.Str.{bytes_eq};

use port_traits::Identity;
use std::alloc::{AllocError, Global};
use std::env;
use std::env::VarError;
use val_types::{List, NoMemory};

/// The environment variable with the number of the source's server.
const SERVER_ID_VARIABLE: &str = "REPL_SERVER_ID";

/// The number of the source's server where the variable gives none.
const SOURCE_ID: u32 = 1;

/// The number of the replica's server.
const REPLICA_ID: u32 = 2;

/// The number that a text is, 0 where it is none of 32 bits. Signs and leading zeros are passed over.
fn parsed(text: &str) -> u32
    ensures { (n : ℕ) → n < 2 ^ 32 → text.now ≡ decimal n → result ≡ n }
{
    text.parse::<u32>().unwrap_or(0)
}

/// Whether a text is a number as it is printed.
fn prints_as(alloc: Global, number: u32, text: &str) -> Result<bool, NoMemory>
    ensures { IfOk result (λ same. same ≡ bytes_eq (decimal number) text.now) }
{
    Ok(number.to_string(alloc)?.as_str() == text)
}

/// The number that a text gives: a decimal number from 1 to 4294967295 without sign or leading zero,
/// and 1 for any other text.
pub fn number_of(alloc: Global, text: &str) -> Result<u32, NoMemory>
    ensures number { IfOk result (λ id. (n : ℕ) → 0 < n → n < 2 ^ 32 → text.now ≡ decimal n → id ≡ n) }
    ensures other { IfOk result (λ id. ((n : ℕ) → 0 < n → n < 2 ^ 32 → text.now ≢ decimal n) → id ≡ 1) }
{
    let number = parsed(text);
    if number == 0 {
        return Ok(SOURCE_ID);
    }
    if prints_as(alloc, number, text)? {
        Ok(number)
    } else {
        Ok(SOURCE_ID)
    }
}

/// The number of the source's server, from what the environment answered: that of the text, 1 where there is no text or one
/// that is not UTF-8.
fn server_id_of(alloc: Global, answered: Result<String, VarError>) -> Result<u32, NoMemory>
    ensures number { IfOk result (λ id. IfOk answered (λ text. (n : ℕ) → 0 < n → n < 2 ^ 32 → string_bytes text ≡ decimal n → id ≡ n)) }
    ensures other { IfOk result (λ id. IfOk answered (λ text. ((n : ℕ) → 0 < n → n < 2 ^ 32 → string_bytes text ≢ decimal n) → id ≡ 1)) }
    ensures none { IfOk result (λ id. OnErr answered (id ≡ 1)) }
{
    match answered {
        Ok(text) => number_of(alloc, text.as_str()),
        Err(VarError::OutOfMemory) => Err(AllocError),
        Err(_) => Ok(SOURCE_ID),
    }
}

/// The source: `root@localhost`, with the number that the environment variable gives.
pub fn source_identity(rt: &HostRuntime) -> Result<Identity, NoMemory>
    ensures { IfOk result (λ node. node.user ≡ codes "root@localhost") }
{
    Ok(Identity {
        server_id: server_id_of(rt.alloc(), env::var(rt, SERVER_ID_VARIABLE))?,
        user: List::from_slice(rt.alloc(), b"root@localhost")?,
    })
}

/// The replica: `rep@localhost`, server 2.
pub fn replica_identity(alloc: Global) -> Result<Identity, NoMemory>
    ensures number { IfOk result (λ node. node.server_id ≡ 2) }
    ensures user { IfOk result (λ node. node.user ≡ codes "rep@localhost") }
{
    Ok(Identity {
        server_id: REPLICA_ID,
        user: List::from_slice(alloc, b"rep@localhost")?,
    })
}
