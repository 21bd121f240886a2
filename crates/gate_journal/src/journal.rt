//! The journal, as it is written.
ghost use Rattle.std.specs.Prelude.{◌≡◌, ℕ, ◌+◌, ◌^◌, ◌<◌, ◌≤◌, List, [], length, Option, Ok, OnOk, OnErr, IfSome, if◌then◌else◌};
ghost use Rattle.disk_model.specs.Story.{Story, seen, count};
ghost use Rattle.disk_model.specs.Moments.{Only};
ghost use Rattle.disk_model.specs.Claims.{Steps};
ghost use Rattle.disk_model.specs.Answers.{HasDiskCause};
ghost use Rattle.gate_journal.specs.Records.{Opened, records, with_last};
ghost use Rattle.gate_journal.specs.Journal.{Rests, HasStaged, IsPrepared, IsFound, SameRecords, MaybeOneMore};

use crate::framing::frame;
use disk_model::{Disk, DiskRefusal, put};
use std::alloc::Global;
use val_types::{Bytes, List, NoMemory};

/// Where a journal's present gate is, and what is to be written behind it.
#[derive(Drop)]
pub struct Journal {
    alloc: Global,
    file: u32,
    gate: u64,
    /// There is no gate in the file yet.
    fresh: bool,
    /// The length and the body of the next record, and the closed gate behind it.
    ready: Bytes,
}

impl Journal {
    /// The journal of a file with these bytes, whose open records were read up to this gate.
    pub fn found(alloc: Global, file: u32, bytes: &[u8], gate: usize) -> Journal
        requires { (opened : Opened) × (records bytes.now ≡ Ok opened) × (opened.gate ≡ gate) }
        ensures file { result.file ≡ file }
        ensures gate { result.gate ≡ gate }
        ensures found { (t : Option Story) → IfSome t (λ _. bytes.now ≡ seen t file) → IsFound t result }
    {
        Journal::new(alloc, file, gate as u64, bytes.len() <= 1)
    }

    /// The journal of a file with its present gate at a place, or with none yet.
    fn new(alloc: Global, file: u32, gate: u64, fresh: bool) -> Journal
        ensures { result ≡ record { alloc = alloc; file = file; gate = gate; fresh = fresh; ready = [] } }
    {
        Journal {
            alloc,
            file,
            gate,
            fresh,
            ready: List::new(alloc),
        }
    }

    /// The number of its file.
    pub fn file(&self) -> u32
        ensures { result ≡ self.now.file }
    {
        self.file
    }

    /// Where its present gate stands.
    pub fn gate(&self) -> u64
        ensures { result ≡ self.now.gate }
    {
        self.gate
    }

    /// Writes the first gate, closed, and syncs, where the file has at most one byte; else it does nothing.
    pub fn start<D: Disk>(&mut self, d: &mut D) -> Result<(), DiskRefusal>
        requires durable { Only (D.told d.old) self.old.file (seen (D.told d.old) self.old.file) }
        requires found { IsFound (D.told d.old) self.old }
        ensures file { self.new.file ≡ self.old.file }
        ensures gate { self.new.gate ≡ self.old.gate }
        ensures rests { OnOk result (Rests (D.told d.new) self.new) }
        ensures records { OnOk result (IfSome (D.told d.old) (λ _. records (seen (D.told d.new) self.old.file) ≡ records (seen (D.told d.old) self.old.file))) }
        ensures steps { Steps (D.told d.old) (D.told d.new) self.old.file (SameRecords (D.told d.old) self.old.file) }
        ensures calls { OnOk result (IfSome (D.told d.old) (λ _. count (D.told d.new) ≡ count (D.told d.old) + (if self.old.fresh then 2 else 0))) }
        ensures cause { HasDiskCause (D.faults d.old) (D.faults d.new) result }
    {
        if self.fresh {
            put(d, self.file, 0, &[0])?;
            self.fresh = false;
        }
        Ok(())
    }

    /// Makes the bytes of a record, and takes all the memory that it needs.
    pub fn prepare(&mut self, body: &Bytes) -> Result<(), NoMemory>
        requires { length body.now < 2 ^ 32 }
        ensures prepared { OnOk result (IsPrepared self.new body.now) }
        ensures err { OnErr result (self.new ≡ self.old) }
        ensures file { self.new.file ≡ self.old.file }
        ensures gate { self.new.gate ≡ self.old.gate }
        ensures fresh { self.new.fresh ≡ self.old.fresh }
    {
        self.ready = frame(self.alloc, body.as_slice())?;
        Ok(())
    }

    /// Takes over the bytes of a record that [`frame`] made before, without memory.
    pub fn take_prepared(&mut self, ready: Bytes)
        ensures { self.new ≡ record self.old { ready = ready } }
    {
        self.ready = ready;
    }

    /// Writes the record behind the present gate, which stays closed, and syncs.
    pub fn stage<D: Disk>(&mut self, d: &mut D) -> Result<(), DiskRefusal>
        requires rests { Rests (D.told d.old) self.old }
        requires prepared { (body : List ℕ) × IsPrepared self.old body }
        ensures same { self.new ≡ self.old }
        ensures staged { (body : List ℕ) → IsPrepared self.old body → OnOk result (HasStaged (D.told d.new) self.old body) }
        ensures records { OnOk result (IfSome (D.told d.old) (λ _. records (seen (D.told d.new) self.old.file) ≡ records (seen (D.told d.old) self.old.file))) }
        ensures steps { Steps (D.told d.old) (D.told d.new) self.old.file (SameRecords (D.told d.old) self.old.file) }
        ensures calls { OnOk result (IfSome (D.told d.old) (λ _. count (D.told d.new) ≡ count (D.told d.old) + 2)) }
        ensures cause { HasDiskCause (D.faults d.old) (D.faults d.new) result }
    {
        put(d, self.file, self.gate + 1, self.ready.as_slice())
    }

    /// Opens the gate and syncs: the staged record counts.
    pub fn open_gate<D: Disk>(&mut self, d: &mut D) -> Result<(), DiskRefusal>
        requires staged { (body : List ℕ) × HasStaged (D.told d.old) self.old body }
        ensures file { self.new.file ≡ self.old.file }
        ensures rests { OnOk result (Rests (D.told d.new) self.new) }
        ensures records { (body : List ℕ) → HasStaged (D.told d.old) self.old body
            → OnOk result (IfSome (D.told d.old) (λ _. records (seen (D.told d.new) self.old.file) ≡ with_last body (records (seen (D.told d.old) self.old.file)))) }
        ensures steps { (body : List ℕ) → HasStaged (D.told d.old) self.old body
            → Steps (D.told d.old) (D.told d.new) self.old.file (MaybeOneMore (D.told d.old) self.old.file body) }
        ensures calls { OnOk result (IfSome (D.told d.old) (λ _. count (D.told d.new) ≡ count (D.told d.old) + 2)) }
        ensures cause { HasDiskCause (D.faults d.old) (D.faults d.new) result }
    {
        put(d, self.file, self.gate, &[1])?;
        self.gate += self.ready.len() as u64;
        Ok(())
    }
}
