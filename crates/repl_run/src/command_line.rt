//! The words of the command line.
ghost use Rattle.std.specs.Prelude.{◌≡◌, map, string_bytes};
ghost use Rattle.std.specs.Str.{bytes_eq};
ghost use Rattle.repl_run.specs.Words.{asks_log};

use answer_text::Status;
use std::alloc::Global;
use std::{env, io};

/// The words that a program has, beside those that show a page.
#[derive(Clone, Copy)]
pub enum Known {
    /// `run`, `replay` and `print`
    Plain,
    /// these, and `log`, which writes the source's log in place of the answers
    WithLog,
}

/// The words of the command line, without the program's name. BadWords where one of them is not UTF-8.
pub fn words(rt: &HostRuntime) -> Result<Vec<String>, Status> {
    match env::args(rt) {
        Ok(args) => match args.skip(1).collect(rt.alloc()) {
            Ok(words) => Ok(words),
            Err(_) => Err(Status::NoMemory),
        },
        Err(error) if error.kind() == io::ErrorKind::OutOfMemory => Err(Status::NoMemory),
        Err(_) => Err(Status::BadWords),
    }
}

/// Whether the words ask for the source's log: the one word `log`.
pub fn asks_log(words: &[String]) -> bool
    ensures { result ≡ asks_log (map string_bytes words.now) }
{
    match words {
        [word] => word.as_str() == "log",
        _ => false,
    }
}
