//! The snapshots of a disk.
ghost use Rattle.std.specs.Prelude.{option_copied, ◌≡◌, ◌<◌, ℕ, Some, None, Ok, IfOk, IfSome, OnOk};
ghost use Rattle.disk_model.specs.Story.{seen};
ghost use Rattle.disk_model.specs.Moments.{Only};
ghost use Rattle.disk_model.specs.Claims.{Quietly};
ghost use Rattle.disk_model.specs.Answers.{HasOpenCause};
ghost use Rattle.store_model.specs.Snapshots.{is_open, snapshot_in};
ghost use Rattle.store_model.specs.Stores.{begun_in, greater};
ghost use Rattle.store_load.specs.Loading.{Begins, TellsDamage, held_in};
ghost use Rattle.store_open.specs.Begun.{IsBegun, TellsSnapshot, begun_seen, body_in};

use crate::bodies::read_body;
use byte_fields::u64_at;
use disk_model::{Disk, OpenRefusal, settle, whole_file};
use prog_work::Work;
use std::alloc::Global;
use store_load::{Reached, Stored};
use store_model::Kind;
use val_types::{List, NoMemory};

/// How many bytes stand before a snapshot's body: the gate, and the length.
const HEAD: usize = 9;

/// Whether the gate of a snapshot is open.
fn is_open(file: &[u8]) -> bool
    ensures { result ≡ is_open file.now }
{
    file.len() > 1 && file[0] != 0
}

/// The body of a snapshot that is open, where it stands there whole.
fn body_of(file: &[u8]) -> Option<&[u8]>
    ensures { option_copied result ≡ body_in file.now }
{
    if file.len() < HEAD {
        return None;
    }
    let size = u64_at(file, 1);
    if size > (file.len() - HEAD) as u64 {
        return None;
    }
    Some(&file[HEAD..HEAD + size as usize])
}

/// The snapshot of a file, None where it is not whole, decodes to nothing, or is another file's.
#[tactic(auto, using(crate::proofs::Decoding::not_whole, crate::proofs::Decoding::not_decoded, crate::proofs::Decoding::is_of_file, crate::proofs::Decoding::not_of_file))]
fn read_snapshot(
    alloc: Global,
    kind: Kind,
    file: u32,
    bytes: &[u8],
) -> Result<Option<Stored>, NoMemory>
    ensures is { IfOk result (λ o. begun_seen o ≡ snapshot_in kind file bytes.now) }
    ensures begun { IfOk result (λ o. IfSome o (IsBegun kind)) }
{
    let Some(body) = body_of(bytes) else {
        return Ok(None);
    };
    match read_body(alloc, kind, body)? {
        Some(s) => {
            if s.generation % 2 == u64::from(file) {
                Ok(Some(s))
            } else {
                Ok(None)
            }
        }
        None => Ok(None),
    }
}

/// The snapshot of a file of a disk, which is made durable first; none where it is not open.
fn snapshot<D: Disk>(
    alloc: Global,
    d: &mut D,
    kind: Kind,
    file: u32,
) -> Result<Option<Stored>, OpenRefusal>
    ensures found { IfOk result (λ o. IfSome (D.told d.old) (λ _. begun_in kind (seen (D.told d.old)) file ≡ Ok (begun_seen o))) }
    ensures begun { IfOk result (λ o. IfSome o (IsBegun kind)) }
    ensures damaged { TellsSnapshot (D.told d.old) kind file result }
    ensures durable { OnOk result (Only (D.told d.new) file (seen (D.told d.new) file)) }
    ensures quiet { Quietly (D.told d.old) (D.told d.new) }
    ensures cause { HasOpenCause (D.faults d.old) (D.faults d.new) result }
{
    settle(d, file)?;
    let bytes = whole_file(alloc, d, file)?;
    let contents = bytes.as_slice();
    if !is_open(contents) {
        return Ok(None);
    }
    match read_snapshot(alloc, kind, file, contents)? {
        Some(s) => Ok(Some(s)),
        None => Err(OpenRefusal::Damaged { file, at: 0 }),
    }
}

/// A store that has nothing.
fn nothing(alloc: Global, kind: Kind) -> Stored
    ensures held { begun_seen (Some result) ≡ Some (greater None None) }
    ensures begun { IsBegun kind result }
{
    let reached = Reached {
        number: 0,
        ends: List::new(alloc),
        log: 1,
        pos: 4,
    };
    Stored::begun(alloc, Work::new(alloc), kind, 0, reached)
}

/// The one of the greater generation; nothing, where there is none.
fn greater_of(alloc: Global, kind: Kind, zeroth: Option<Stored>, first: Option<Stored>) -> Stored
    requires zeroth { IfSome zeroth (IsBegun kind) }
    requires first { IfSome first (IsBegun kind) }
    ensures held { begun_seen (Some result) ≡ Some (greater (begun_seen zeroth) (begun_seen first)) }
    ensures begun { IsBegun kind result }
{
    match zeroth {
        None => match first {
            None => nothing(alloc, kind),
            Some(b) => b,
        },
        Some(a) => match first {
            None => a,
            Some(b) => { if a.generation < b.generation { b } else { a } }
        },
    }
}

/// What the snapshots of a disk begin with: two files made durable and read.
pub(crate) fn begin<D: Disk>(alloc: Global, d: &mut D, kind: Kind) -> Result<Stored, OpenRefusal>
    ensures begins { IfOk result (λ s. Begins (D.told d.old) s) }
    ensures begun { IfOk result (IsBegun kind) }
    ensures damaged { TellsDamage (D.told d.old) kind result }
    ensures durable { OnOk result ((f : ℕ) → f < 2 → Only (D.told d.new) f (seen (D.told d.new) f)) }
    ensures quiet { Quietly (D.told d.old) (D.told d.new) }
    ensures cause { HasOpenCause (D.faults d.old) (D.faults d.new) result }
{
    let zeroth = snapshot(alloc, d, kind, 0)?;
    let first = snapshot(alloc, d, kind, 1)?;
    Ok(greater_of(alloc, kind, zeroth, first))
}
