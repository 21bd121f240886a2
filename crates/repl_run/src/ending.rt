//! How a status ends the process.
ghost use Rattle.std.specs.Prelude.{◌≡◌, OnOk};
ghost use Rattle.std.specs.Io.KnownBytes.{Appends};
ghost use Rattle.std.specs.Process.{exit_status};
ghost use Rattle.answer_text.specs.Statuses.{number_of_status, status_line};

use answer_text::{Status, status_line};
use std::alloc::Global;
use std::io;
use std::io::Write;
use std::process::ExitCode;

/// The exit status of the process: the number of the status.
pub fn exit_of(status: &Status) -> ExitCode
    ensures { exit_status result ≡ number_of_status status.now }
{
    ExitCode::from(status.number())
}

/// Tells a status on a writer, in one line; nothing at Done.
pub fn tell<W: Write>(alloc: Global, out: &mut W, status: &Status) -> io::Result<()>
    ensures { OnOk result (Appends (W.contents out.old) (W.contents out.new) (status_line status.now)) }
{
    let line = status_line(alloc, status)?;
    out.write_all(line.as_slice())
}
