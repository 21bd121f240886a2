//! Files in memory, without a story.
ghost use Rattle.std.specs.Prelude.{◌≡◌, ℕ, ◌==◌, ◌<◌, ◌≤◌, if◌then◌else◌, [], length, take, IfOk, OnOk, OnErr};
ghost use Rattle.disk_model.specs.Files.{files};
ghost use Rattle.disk_model.specs.Story.{overwritten};

use std::alloc::Global;
use std::mem;
use val_types::{Bytes, Duplicate, List, NoMemory};

/// Files by their numbers. One past the end of the list is empty.
#[derive(Drop)]
pub struct Files {
    alloc: Global,
    pub list: Vec<Bytes>,
}

impl Files {
    /// Copies of these files.
    pub fn copied(alloc: Global, list: &List<Bytes>) -> Result<Files, NoMemory>
        ensures { IfOk result (λ f. f.list.items ≡ list.now) }
    {
        Ok(Files {
            alloc,
            list: list.duplicate(alloc)?.into_vec(),
        })
    }

    /// No files.
    pub fn new(alloc: Global) -> Files
        ensures { result.list.items ≡ [] }
    {
        Files {
            alloc,
            list: Vec::new(alloc),
        }
    }

    /// The bytes of a file.
    pub fn contents(&self, file: u32) -> &[u8]
        ensures { result.now ≡ files self.now.list.items file }
    {
        match self.list.get(file as usize) {
            Some(bytes) => bytes.as_slice(),
            None => &[],
        }
    }

    /// Makes the list reach to a file, which is empty if it was not there.
    fn reach(&mut self, file: u32) -> Result<(), NoMemory>
        ensures same { (f : ℕ) → files self.new.list.items f ≡ files self.old.list.items f }
        ensures within { OnOk result (file < length self.new.list.items) }
    {
        for _ in self.list.len()..file as usize + 1 {
            self.list.push(List::new(self.alloc))?;
        }
        Ok(())
    }

    /// Writes a piece over what stands from a place in a file on, which grows where the piece ends behind it.
    pub fn write(&mut self, file: u32, at: usize, piece: &[u8]) -> Result<(), NoMemory>
        requires { at ≤ length (files self.old.list.items file) }
        ensures ok { OnOk result ((f : ℕ) → files self.new.list.items f ≡ (if file == f
            then overwritten at piece.now (files self.old.list.items f) else files self.old.list.items f)) }
        ensures err { OnErr result ((f : ℕ) → files self.new.list.items f ≡ files self.old.list.items f) }
    {
        self.reach(file)?;
        overwrite(self.alloc, &mut self.list[file as usize], at, piece)
    }

    /// Cuts a file to a length.
    pub fn cut(&mut self, file: u32, size: u64)
        ensures { (f : ℕ) → files self.new.list.items f ≡ (if file == f
            then take size (files self.old.list.items f) else files self.old.list.items f) }
    {
        if (file as usize) < self.list.len() {
            self.list[file as usize].truncate(size as usize);
        }
    }
}

/// Writes a piece over what stands from a place on; only what ends behind the old end takes memory.
fn overwrite(alloc: Global, contents: &mut Bytes, at: usize, piece: &[u8]) -> Result<(), NoMemory>
    requires { at ≤ length contents.old }
    ensures ok { OnOk result (contents.new ≡ overwritten at piece.now contents.old) }
    ensures err { OnErr result (contents.new ≡ contents.old) }
{
    let mut bytes = mem::replace(contents, List::new(alloc)).into_vec();
    let over = piece.len().min(bytes.len() - at);
    let grown = bytes.extend_from_slice(&piece[over..]);
    if grown.is_ok() {
        bytes[at..at + over].copy_from_slice(&piece[..over]);
    }
    *contents = List::from_vec(bytes);
    grown
}
