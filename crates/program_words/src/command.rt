//! The command that `clap` reads.
ghost use Rattle.std.specs.Prelude.{◌≡◌, IfOk};
ghost use Rattle.clap.specs.Words.{app_of};
ghost use Rattle.program_words.specs.Commands.{positional_words};

use clap::{Arg, Command};
use std::alloc::Global;
use val_types::NoMemory;

/// A command of one or two positional words, without flags. It is handed the words without the program's name.
pub(crate) fn positional_words<'a>(alloc: Global) -> Result<Command<'a>, NoMemory>
    ensures { IfOk result (λ command. app_of command ≡ positional_words) }
{
    let words = Arg::new(alloc, "words").required(true).num_args(1..=2);
    Command::new(alloc, "cedarchisel")
        .no_binary_name(true)
        .disable_help_flag(true)
        .arg(words)
}
