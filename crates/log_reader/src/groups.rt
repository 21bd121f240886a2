//! Bytes read from an input up to the end of a group.
ghost use Rattle.std.specs.Prelude.{◌≡◌, ◌≤◌, ◌<◌, ◌+◌, ◌^◌, ◌++◌, [], false, length, option_map, IfErr, IfOk, OnErr, OnOk};
ghost use Rattle.log_groups.specs.Growing.{IsSettled};
ghost use Rattle.log_groups.specs.Views.{form_of};
ghost use Rattle.log_groups.specs.log_model.Groups.{group_at, not_whole};
ghost use Rattle.run_streams.specs.Stops.{StopsReading};
ghost use Rattle.log_file_model.specs.Passing.{names_next};
ghost use Rattle.log_reader.specs.declared.reader.Found.TheVariants as found;
ghost use Rattle.log_reader.specs.Reading.{IsEnd, Takes};
ghost use Rattle.log_reader.specs.Taking.{Ends, Finds, FindsBehindName, FindsNext, FindsSettled, IsKept};

use crate::filling::fill;
use crate::reader::Found;
use answer_text::Status;
use log_groups::{Form, Look, Next, Progress, look_at, next_group};
use port_traits::Source;
use val_types::Bytes;

/// What was found, and whether it is the name of the next log.
#[derive(Clone, Copy)]
pub(crate) struct Taken {
    pub found: Found,
    pub closed: bool,
}

/// Whether a group is the name of the next log.
fn names_next(form: &Form) -> bool
    ensures { result ≡ names_next (form_of form.now) }
{
    match form {
        Form::Start => false,
        Form::Rotate { .. } => true,
        Form::Ddl(_) => false,
        Form::Txn { .. } => false,
    }
}

/// Anything but the name of the next log.
fn plain(found: Found) -> Taken
    ensures { result ≡ record { found = found; closed = false } }
{
    Taken {
        found,
        closed: false,
    }
}

/// What bytes are that are just a group, or where an event is damaged or not known.
fn whole_or_stopped(bytes: &[u8], begin: u64) -> Taken
    requires { IsSettled (begin + length bytes.now) (group_at (record { bytes = bytes.now; pos = begin })) }
    ensures { FindsSettled bytes.now begin result.closed result.found }
{
    match next_group(bytes, begin) {
        Next::Group(group) => Taken {
            found: Found::Group,
            closed: names_next(&group.form),
        },
        Next::NotWhole => plain(Found::Damaged { pos: begin }),
        Next::Damaged { pos } => plain(Found::Damaged { pos }),
        Next::Foreign { pos, kind } => plain(Found::Foreign { pos, kind }),
    }
}

/// What an input ends in: nothing, or a front of a group, which is damaged where it begins.
fn cut(bytes: &[u8], begin: u64) -> Taken
    requires { group_at (record { bytes = bytes.now; pos = begin }) ≡ not_whole }
    ensures { Ends bytes.now begin result.found }
{
    if bytes.is_empty() {
        plain(Found::End)
    } else {
        plain(Found::Damaged { pos: begin })
    }
}

/// Reads a group that begins at this place, and no byte behind it.
fn read_group<S: Source>(
    input: &mut S,
    buffer: &mut [u8],
    bytes: &mut Bytes,
    begin: u64,
) -> Result<Taken, Status>
    requires room { 0 < length buffer.old }
    requires place { begin ≤ 1200000000 }
    requires empty { bytes.old ≡ [] }
    ensures took { OnOk result (S.left input.old ≡ option_map (λ rest. bytes.new ++ rest) (S.left input.new)) }
    ensures finds { IfOk result (λ taken. Finds bytes.new begin taken.closed (S.left input.new) taken.found) }
    ensures takes { OnErr result (Takes (S.left input.old) (S.left input.new)) }
    ensures stop { IfErr result (λ status. StopsReading status (S.faults input.old) (S.faults input.new)) }
    ensures later { S.faults input.old ≤ S.faults input.new }
    ensures goes_on { IfOk result (λ taken. taken.found ≡ found.Group → S.ended input.old ≡ 0 → S.ended input.new ≡ 0) }
    ensures at_end { IfOk result (λ taken. taken.found ≡ found.End → S.ended input.old ≡ 0 → S.ended input.new ≡ 1) }
    ensures once { S.ended input.old ≡ 0 → S.ended input.new ≤ 1 }
    ensures last { result ≡ Err Status.ReadFault → S.ended input.old ≡ 0 → S.ended input.new ≡ 1 }
{
    let mut progress = Progress::new();
    loop {
        let whole = fill(input, buffer, bytes, progress.upto as usize)?;
        match look_at(bytes.as_slice(), begin, progress) {
            Look::GoesOn(next) => {
                if !whole {
                    return Ok(cut(bytes.as_slice(), begin));
                }
                progress = next;
            }
            Look::Settled => return Ok(whole_or_stopped(bytes.as_slice(), begin)),
        }
    }
}

/// Reads a byte behind the name of the next log, where none may stand.
fn read_behind_name<S: Source>(
    input: &mut S,
    buffer: &mut [u8],
    bytes: &mut Bytes,
    begin: u64,
) -> Result<Taken, Status>
    requires room { 0 < length buffer.old }
    requires empty { bytes.old ≡ [] }
    ensures took { OnOk result (S.left input.old ≡ option_map (λ rest. bytes.new ++ rest) (S.left input.new)) }
    ensures finds { IfOk result (λ taken. FindsBehindName bytes.new begin (S.left input.new) taken.found) }
    ensures takes { OnErr result (Takes (S.left input.old) (S.left input.new)) }
    ensures stop { IfErr result (λ status. StopsReading status (S.faults input.old) (S.faults input.new)) }
    ensures later { S.faults input.old ≤ S.faults input.new }
    ensures at_end { IfOk result (λ taken. taken.found ≡ found.End → S.ended input.old ≡ 0 → S.ended input.new ≡ 1) }
    ensures once { S.ended input.old ≡ 0 → S.ended input.new ≤ 1 }
    ensures last { result ≡ Err Status.ReadFault → S.ended input.old ≡ 0 → S.ended input.new ≡ 1 }
{
    if fill(input, buffer, bytes, 1)? {
        Ok(plain(Found::Damaged { pos: begin }))
    } else {
        Ok(plain(Found::End))
    }
}

/// Reads what stands behind the groups that were read: a group, unless the last was the name of the next log.
pub(crate) fn read_next<S: Source>(
    input: &mut S,
    buffer: &mut [u8],
    bytes: &mut Bytes,
    begin: u64,
    closed: bool,
) -> Result<Taken, Status>
    requires room { 0 < length buffer.old }
    requires place { closed ≡ false → begin ≤ 1200000000 }
    requires empty { bytes.old ≡ [] }
    ensures took { OnOk result (S.left input.old ≡ option_map (λ rest. bytes.new ++ rest) (S.left input.new)) }
    ensures finds { IfOk result (λ taken. FindsNext closed bytes.new begin taken.closed (S.left input.new) taken.found) }
    ensures takes { OnErr result (Takes (S.left input.old) (S.left input.new)) }
    ensures stop { IfErr result (λ status. StopsReading status (S.faults input.old) (S.faults input.new)) }
    ensures later { S.faults input.old ≤ S.faults input.new }
    ensures goes_on { IfOk result (λ taken. taken.found ≡ found.Group → S.ended input.old ≡ 0 → S.ended input.new ≡ 0) }
    ensures at_end { IfOk result (λ taken. taken.found ≡ found.End → S.ended input.old ≡ 0 → S.ended input.new ≡ 1) }
    ensures once { S.ended input.old ≡ 0 → S.ended input.new ≤ 1 }
    ensures last { result ≡ Err Status.ReadFault → S.ended input.old ≡ 0 → S.ended input.new ≡ 1 }
{
    if closed {
        read_behind_name(input, buffer, bytes, begin)
    } else {
        read_group(input, buffer, bytes, begin)
    }
}

/// Keeps the bytes of a group, and whether it is the name of the next log; other bytes are let go.
pub(crate) fn keep(taken: Taken, bytes: &mut Bytes, closed: &mut bool)
    ensures { IsKept taken.found taken.closed bytes.old closed.old bytes.new closed.new }
{
    match taken.found {
        Found::Group => *closed = taken.closed,
        Found::End => bytes.clear(),
        Found::Damaged { .. } => bytes.clear(),
        Found::Foreign { .. } => bytes.clear(),
    }
}
