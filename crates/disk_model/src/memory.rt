//! A disk in memory, which keeps its calls and tells what each moment may leave.
ghost use Rattle.std.specs.Prelude.{◌≡◌, ℕ, ◌+◌, ◌-◌, ◌^◌, ◌<◌, ◌≤◌, min, List, [], ◌∷◌, length, reverse, Some, true, false, IfOk, OnOk, OnErr, IsErr};
ghost use Rattle.hex.specs.Hex.{IsBytes};
ghost use Rattle.disk_model.specs.declared.call.Call.TheVariants.{Look};
ghost use Rattle.disk_model.specs.Story.{changed, seen};
ghost use Rattle.disk_model.specs.Left.{written_by};
ghost use Rattle.disk_model.specs.Files.{files, story_of};
ghost use Rattle.disk_model.specs.Moments.{IsSettled};
ghost use Rattle.disk_model.specs.Answers.{Reads, Tells, HasDiskCause, write_call};

use crate::call::Call;
use crate::disk::Disk;
use crate::files::Files;
use crate::refusals::DiskRefusal;
use std::alloc::Global;
use std::marker::Model;
use val_types::{Bytes, List, NoMemory};

/// A disk in memory.
///
/// It keeps the files as they are read beside those that it began with, so that no read goes over all calls.
#[derive(Drop)]
pub struct MemDisk {
    alloc: Global,
    first: List<Bytes>,
    held: Files,
    /// The oldest first.
    calls: List<Call>,
    faults: u64,
}

impl Model for MemDisk {
    ghost use Rattle.std.specs.Prelude.{◌≡◌, ℕ, reverse};
    ghost use Rattle.disk_model.specs.Story.{seen_after};
    ghost use Rattle.disk_model.specs.Left.{AreBytes};
    ghost use Rattle.disk_model.specs.Files.{MemState, files};

    ghost Value = { MemState };

    ghost view = { λ d. record { first = d.first; calls = reverse d.calls; faults = d.faults } };

    ghost invariant = { λ d. ((f : ℕ) → files d.held.list.items f ≡ seen_after (files d.first) (reverse d.calls) f)
        × AreBytes (files d.first) (reverse d.calls) };
}

/// A number of eight bits is a byte.
fn is_bytes(file: &[u8])
    ensures { IsBytes file.now }
{
    let _ = file;
}

/// Files hold bytes.
fn are_bytes(list: &[Bytes])
    ensures { (f : ℕ) → IsBytes (files list.now f) }
{
    for file in list {
        is_bytes(file.as_slice());
    }
}

impl MemDisk {
    /// An empty disk.
    pub fn new(alloc: Global) -> MemDisk
        ensures state { result ≡ record { first = []; calls = []; faults = 0 } }
        ensures settled { IsSettled (Some (story_of result)) }
    {
        MemDisk {
            alloc,
            first: List::new(alloc),
            held: Files::new(alloc),
            calls: List::new(alloc),
            faults: 0,
        }
    }

    /// A disk that has come up again with these files, by their numbers.
    pub fn with_files(alloc: Global, first: List<Bytes>) -> Result<MemDisk, NoMemory>
        ensures state { IfOk result (λ d. d ≡ record { first = first; calls = []; faults = 0 }) }
        ensures settled { IfOk result (λ d. IsSettled (Some (story_of d))) }
    {
        let held = Files::copied(alloc, &first)?;
        are_bytes(first.as_slice());
        Ok(MemDisk {
            alloc,
            first,
            held,
            calls: List::new(alloc),
            faults: 0,
        })
    }

    /// A file as it is read. This is no call of the disk.
    pub fn contents(&self, file: u32) -> &[u8]
        ensures { result.now ≡ seen (Some (story_of self.now)) file }
    {
        self.held.contents(file)
    }

    /// The calls so far, the oldest first.
    pub fn history(&self) -> &[Call]
        ensures { self.now.calls ≡ reverse result.now }
    {
        self.calls.as_slice()
    }

    /// Keeps a call that changes nothing that is read.
    fn keep(&mut self, call: Call) -> Result<(), NoMemory>
        requires same { (file : List ℕ) → changed call file ≡ file }
        requires bytes { IsBytes (written_by call) }
        ensures ok { OnOk result (self.new ≡ record self.old { calls = call ∷ self.old.calls }) }
        ensures err { OnErr result (self.new ≡ self.old) }
    {
        self.calls.push(call)
    }

    /// Keeps a call that fails, and counts the fault.
    pub(crate) fn fail<T>(&mut self, call: Call) -> Result<T, DiskRefusal>
        requires same { (file : List ℕ) → changed call file ≡ file }
        requires bytes { IsBytes (written_by call) }
        ensures err { IsErr result }
        ensures story { Tells result (λ _. call) (Some (story_of self.old)) (Some (story_of self.new)) }
        ensures cause { HasDiskCause self.old.faults self.new.faults result }
    {
        self.keep(call)?;
        self.faults = self.faults.saturating_add(1);
        Err(DiskRefusal::Failed)
    }

    /// Keeps a write that fails, and counts the fault.
    pub(crate) fn fail_write(&mut self, file: u32, at: u64, piece: &[u8]) -> Result<(), DiskRefusal>
        ensures err { IsErr result }
        ensures story { Tells result (write_call file at piece.now) (Some (story_of self.old)) (Some (story_of self.new)) }
        ensures cause { HasDiskCause self.old.faults self.new.faults result }
    {
        if at.checked_add(piece.len() as u64).is_none() {
            return self.fail(Call::Look);
        }
        let piece = List::from_slice(self.alloc, piece)?;
        self.fail(Call::Write {
            file,
            at,
            piece,
            done: false,
        })
    }

    /// Keeps a write, and changes what is read; all or nothing.
    fn write_all(&mut self, file: u32, at: u64, piece: &[u8]) -> Result<(), NoMemory>
        requires within { at ≤ length (seen (Some (story_of self.old)) file) }
        requires room { at + length piece.now < 2 ^ 64 }
        ensures ok { OnOk result (self.new ≡ record self.old { calls = write_call file at piece.now true ∷ self.old.calls }) }
        ensures err { OnErr result (self.new ≡ self.old) }
    {
        let count = self.calls.len();
        let copy = List::from_slice(self.alloc, piece)?;
        self.calls.push(Call::Write {
            file,
            at,
            piece: copy,
            done: true,
        })?;
        match self.held.write(file, at as usize, piece) {
            Ok(()) => Ok(()),
            Err(error) => {
                self.calls.truncate(count);
                Err(error)
            }
        }
    }
}

impl Disk for MemDisk {
    ghost told = { λ d. Some (story_of d) };

    ghost faults = { λ d. d.faults };

    fn length(&mut self, file: u32) -> Result<u64, DiskRefusal> {
        self.keep(Call::Look)?;
        Ok(self.contents(file).len() as u64)
    }

    fn read(&mut self, file: u32, at: u64, buf: &mut [u8]) -> Result<usize, DiskRefusal> {
        self.keep(Call::Look)?;
        Ok(copy_from(self.contents(file), at, buf))
    }

    fn write(&mut self, file: u32, at: u64, piece: &[u8]) -> Result<(), DiskRefusal> {
        if at.checked_add(piece.len() as u64).is_none() {
            return self.fail_write(file, at, piece);
        }
        self.write_all(file, at, piece)?;
        Ok(())
    }

    fn cut(&mut self, file: u32, size: u64) -> Result<(), DiskRefusal> {
        self.calls.push(Call::Cut {
            file,
            length: size,
            done: true,
        })?;
        self.held.cut(file, size);
        Ok(())
    }

    fn sync(&mut self, file: u32) -> Result<(), DiskRefusal> {
        self.keep(Call::Sync { file, done: true })?;
        Ok(())
    }

    fn calls(&self) -> u64 {
        self.calls.len() as u64
    }
}

/// Copies what stands from a place on into the front of a buffer.
fn copy_from(contents: &[u8], at: u64, buf: &mut [u8]) -> usize
    ensures reads { Reads contents.now at result buf.new }
    ensures fits { result ≤ length buf.new }
{
    let from = at.min(contents.len() as u64) as usize;
    let rest = &contents[from..];
    let count = rest.len().min(buf.len());
    buf[..count].copy_from_slice(&rest[..count]);
    count
}
