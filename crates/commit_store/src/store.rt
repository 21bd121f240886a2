//! The store.
ghost use Rattle.std.specs.Prelude.{◌≡◌, ℕ, ◌+◌, ◌%◌, ◌^◌, ◌<◌, ◌≤◌, [], List as Items, length, Option, OnOk, OnErr, IfSome, if◌then◌else◌};
ghost use Rattle.disk_model.specs.Story.{Story, count, seen};
ghost use Rattle.disk_model.specs.Moments.{Always, Only};
ghost use Rattle.disk_model.specs.Claims.{WorksOn};
ghost use Rattle.disk_model.specs.Answers.{HasDiskCause};
ghost use Rattle.gate_journal.specs.Journal.{HasStaged, IsFound, IsPrepared, Rests};
ghost use Rattle.store_model.specs.declared.record.Record.{Record as AnyRecord};
ghost use Rattle.store_model.specs.Bodies.{IsRecord, body_of};
ghost use Rattle.store_model.specs.Held.{Held};
ghost use Rattle.store_model.specs.Stores.{journal_of};
ghost use Rattle.commit_store.specs.Keeping.{Either, Holds, IsReady, Keeps, LeadsOn, MovesTo, StandsFor};
ghost use Rattle.commit_store.specs.Next.{HasRoom, passed, prepared_of};

use crate::next::Next;
use crate::prepared::Prepared;
use crate::reserved::Ends;
use disk_model::{Disk, DiskRefusal};
use gate_journal::Journal;
use std::alloc::Global;
use store_model::{Kind, Record};
use val_types::{List, NoMemory};

/// A store's journal, and what its records have set.
#[derive(Drop)]
pub struct Store {
    alloc: Global,
    node: Kind,
    generation: u64,
    number: u64,
    /// Where each log of a source ends, from the first on.
    ends: Ends,
    /// The log and the position up to which a replica has carried out its source's logs.
    log: u32,
    pos: u32,
    journal: Journal,
    /// What the record that is prepared sets.
    next: Next,
}

/// The number of the file that a generation's journal stands in.
fn journal_file(generation: u64) -> u32
    ensures { result ≡ journal_of generation }
{
    2 + (generation % 2) as u32
}

impl Store {
    /// A store whose records have set these, with a journal that has no record yet.
    pub fn new(
        alloc: Global,
        node: Kind,
        generation: u64,
        number: u64,
        ends: List<u32>,
        log: u32,
        pos: u32,
    ) -> Store
        ensures readers { result ≡ record {
          alloc = alloc;
          node = node;
          generation = generation;
          number = number;
          ends = result.ends;
          log = log;
          pos = pos;
          journal = result.journal;
          next = Next.Nothing;
        } }
        ensures ends { result.ends.list ≡ ends }
        ensures file { result.journal.file ≡ journal_of generation }
        ensures found { (t : Option Story) → IfSome t (λ _. seen t (journal_of generation) ≡ []) → IsFound t result.journal }
    {
        Store {
            alloc,
            node,
            generation,
            number,
            ends: Ends::of_places(ends),
            log,
            pos,
            journal: Journal::found(alloc, journal_file(generation), &[], 0),
            next: Next::Nothing,
        }
    }

    /// A store whose records have set these, with the journal that goes on behind them.
    pub fn found(
        alloc: Global,
        node: Kind,
        generation: u64,
        number: u64,
        ends: List<u32>,
        log: u32,
        pos: u32,
        journal: Journal,
    ) -> Store
        ensures readers { result ≡ record {
          alloc = alloc;
          node = node;
          generation = generation;
          number = number;
          ends = result.ends;
          log = log;
          pos = pos;
          journal = journal;
          next = Next.Nothing;
        } }
        ensures ends { result.ends.list ≡ ends }
    {
        Store {
            alloc,
            node,
            generation,
            number,
            ends: Ends::of_places(ends),
            log,
            pos,
            journal,
            next: Next::Nothing,
        }
    }

    /// Whose store it is.
    pub fn node(&self) -> Kind
        ensures { result ≡ self.now.node }
    {
        self.node
    }

    /// The generation of its journal.
    pub fn generation(&self) -> u64
        ensures { result ≡ self.now.generation }
    {
        self.generation
    }

    /// How many transactions were committed, or carried out.
    pub fn number(&self) -> u64
        ensures { result ≡ self.now.number }
    {
        self.number
    }

    /// Where each log of a source ends, from the first on.
    pub fn ends(&self) -> &[u32]
        ensures { result.now ≡ self.now.ends.list }
    {
        self.ends.as_slice()
    }

    /// The log of the place up to which a replica has carried out its source's logs.
    pub fn log(&self) -> u32
        ensures { result ≡ self.now.log }
    {
        self.log
    }

    /// The position of that place.
    pub fn pos(&self) -> u32
        ensures { result ≡ self.now.pos }
    {
        self.pos
    }

    /// Writes the journal's first gate, closed, and syncs, where the journal's file has at most one byte; else it does
    /// nothing. All images stand for what is held as before.
    pub fn start<D: Disk>(&mut self, d: &mut D) -> Result<(), DiskRefusal>
        requires durable { Only (D.told d.old) self.old.journal.file (seen (D.told d.old) self.old.journal.file) }
        requires found { IsFound (D.told d.old) self.old.journal }
        ensures rest { self.new ≡ record self.old { journal = self.new.journal } }
        ensures file { self.new.journal.file ≡ self.old.journal.file }
        ensures rests { OnOk result (Rests (D.told d.new) self.new.journal) }
        ensures keeps { (held : Held) → Holds (D.told d.old) self.old held → OnOk result (Keeps (D.told d.new) self.new held) }
        ensures images { (held : Held) → Holds (D.told d.old) self.old held
            → Always (count (D.told d.old)) (D.told d.new) (StandsFor self.old held) }
        ensures works { WorksOn (D.told d.old) (D.told d.new) self.old.journal.file }
        ensures calls { OnOk result (IfSome (D.told d.old) (λ _. count (D.told d.new) ≡ count (D.told d.old) + (if self.old.journal.fresh then 2 else 0))) }
        ensures cause { HasDiskCause (D.faults d.old) (D.faults d.new) result }
    {
        self.journal.start(d)
    }

    /// Makes room for the ends of so many logs more, so that the commits that begin them take no memory.
    pub fn make_room(&mut self, logs: usize) -> Result<(), NoMemory>
        ensures made { OnOk result (logs ≤ self.new.ends.room) }
        ensures grown { self.old.ends.room ≤ self.new.ends.room }
        ensures keeps { (t : Option Story) (held : Held) → Keeps t self.old held → Keeps t self.new held }
        ensures rest { self.new ≡ record self.old { ends = record self.old.ends { room = self.new.ends.room } } }
        ensures err { OnErr result (self.new ≡ self.old) }
    {
        self.ends.make_room(logs)
    }

    /// Takes over a record that was made before, in the place of one that is prepared. It takes no memory, and calls no disk.
    pub fn take(&mut self, p: Prepared)
        ensures ready { (r : AnyRecord) → p ≡ prepared_of r → IsRecord self.old.node r → length (body_of r) < 2 ^ 32 → IsReady self.new r }
        ensures file { self.new.journal.file ≡ self.old.journal.file }
        ensures rests { (t : Option Story) → Rests t self.old.journal → Rests t self.new.journal }
        ensures keeps { (t : Option Story) (held : Held) → Keeps t self.old held → Keeps t self.new held }
        ensures rest { self.new ≡ record self.old { journal = self.new.journal; next = p.next } }
    {
        let Prepared { ready, next } = p;
        self.journal.take_prepared(ready);
        self.next = next;
    }

    /// Makes the bytes of a record and all that its commit needs, so that it takes no more memory. It calls no disk.
    pub fn prepare(&mut self, r: &Record) -> Result<(), NoMemory>
        requires form { IsRecord self.old.node r.now }
        requires fits { length (body_of r.now) < 2 ^ 32 }
        ensures ready { OnOk result (IsReady self.new r.now) }
        ensures room { OnOk result (HasRoom self.new.next self.new.ends) }
        ensures grown { self.old.ends.room ≤ self.new.ends.room }
        ensures file { self.new.journal.file ≡ self.old.journal.file }
        ensures rests { (t : Option Story) → Rests t self.old.journal → Rests t self.new.journal }
        ensures keeps { (t : Option Story) (held : Held) → Keeps t self.old held → Keeps t self.new held }
        ensures rest { self.new ≡ record self.old {
          ends = record self.old.ends { room = self.new.ends.room };
          journal = self.new.journal;
          next = self.new.next;
        } }
        ensures err { OnErr result (self.new ≡ self.old) }
    {
        let prepared = Prepared::new(self.alloc, r)?;
        self.make_room(1)?;
        self.take(prepared);
        Ok(())
    }

    /// Writes the prepared record behind the journal's gate, which stays closed, and syncs: two calls of the disk. All
    /// images stand for what is held as before.
    pub fn stage<D: Disk>(&mut self, d: &mut D) -> Result<(), DiskRefusal>
        requires rests { Rests (D.told d.old) self.old.journal }
        requires prepared { (body : Items ℕ) × IsPrepared self.old.journal body }
        ensures same { self.new ≡ self.old }
        ensures staged { (r : AnyRecord) → IsReady self.old r → OnOk result (HasStaged (D.told d.new) self.old.journal (body_of r)) }
        ensures keeps { (held : Held) → Keeps (D.told d.old) self.old held → OnOk result (Keeps (D.told d.new) self.old held) }
        ensures images { (held : Held) → Keeps (D.told d.old) self.old held
            → Always (count (D.told d.old)) (D.told d.new) (StandsFor self.old held) }
        ensures works { WorksOn (D.told d.old) (D.told d.new) self.old.journal.file }
        ensures calls { OnOk result (IfSome (D.told d.old) (λ _. count (D.told d.new) ≡ count (D.told d.old) + 2)) }
        ensures cause { HasDiskCause (D.faults d.old) (D.faults d.new) result }
    {
        self.journal.stage(d)
    }

    /// Lets the readers give what the prepared record sets.
    fn pass(&mut self)
        requires { HasRoom self.old.next self.old.ends }
        ensures { self.new ≡ passed self.old.next self.old }
    {
        let next = self.next;
        self.next = Next::Nothing;
        match next {
            Next::Nothing => {}
            Next::Committed(head) => {
                self.number = head.number;
                self.ends.set_last(head.pos);
            }
            Next::LogBegun { old_end, pos } => {
                self.ends.set_last(old_end);
                self.ends.put(pos);
            }
            Next::CarriedOut(head) => {
                self.number = head.number;
                self.log = head.log;
                self.pos = head.pos;
            }
        }
    }

    /// Opens the journal's gate and syncs: two calls of the disk. At each moment in it an image stands for what was held
    /// or for what the staged record makes of it, and after Ok all do so; then the readers give what is held behind it.
    pub fn commit<D: Disk>(&mut self, d: &mut D) -> Result<(), DiskRefusal>
        requires staged { (body : Items ℕ) × HasStaged (D.told d.old) self.old.journal body }
        requires room { HasRoom self.old.next self.old.ends }
        ensures file { self.new.journal.file ≡ self.old.journal.file }
        ensures rests { OnOk result (Rests (D.told d.new) self.new.journal) }
        ensures keeps { (r : AnyRecord) (held now : Held) → LeadsOn (D.told d.old) self.old r held now → OnOk result (Keeps (D.told d.new) self.new now) }
        ensures images { (r : AnyRecord) (held now : Held) → LeadsOn (D.told d.old) self.old r held now
            → Always (count (D.told d.old)) (D.told d.new) (Either self.old held now) }
        ensures works { WorksOn (D.told d.old) (D.told d.new) self.old.journal.file }
        ensures passed { OnOk result (self.new ≡ passed self.old.next (record self.old { journal = self.new.journal })) }
        ensures err { OnErr result (self.new ≡ record self.old { journal = self.new.journal }) }
        ensures calls { OnOk result (IfSome (D.told d.old) (λ _. count (D.told d.new) ≡ count (D.told d.old) + 2)) }
        ensures cause { HasDiskCause (D.faults d.old) (D.faults d.new) result }
    {
        self.journal.open_gate(d)?;
        self.pass();
        Ok(())
    }

    /// Goes on in the journal of a generation whose snapshot counts now. Nothing is prepared behind it.
    pub fn move_to(&mut self, generation: u64)
        ensures keeps { (t : Option Story) (held : Held) → MovesTo t self.old generation held → Keeps t self.new held }
        ensures rest { self.new ≡ record self.old { generation = generation; journal = self.new.journal; next = Next.Nothing } }
    {
        self.generation = generation;
        self.journal = Journal::found(self.alloc, journal_file(generation), &[], 0);
        self.next = Next::Nothing;
    }
}
