//! Files of a folder of the system, by number.
ghost use Rattle.std.specs.Prelude.{◌≤◌, ◌+◌, ◌^◌, ◌<◌, length, IfOk, OnOk, IfSome};

use crate::fault::FileFault;
use std::alloc::Global;
use std::fs::{self, File, OpenOptions};
use std::io::{self, ErrorKind};
use std::os::unix::fs::FileExt;
use std::path::PathBuf;
use std::rt::Files;
use val_types::{List, NoMemory};

/// At most so many files stay open.
const OPEN_FILES: usize = 100;

/// A file that is open.
#[derive(Drop)]
struct Handle {
    file: u32,
    handle: File,
}

/// Files of a folder; those that were used stay open.
#[derive(Drop)]
pub struct FolderFiles<R> {
    rt: R,
    alloc: Global,
    folder: String,
    /// The folder that the folder stands in.
    parent: PathBuf,
    handles: List<Handle>,
    /// The names in the folder are durable, as far as this process knows.
    named: bool,
}

/// An error of the system is a fault of the disk.
fn or_failed<T>(answer: io::Result<T>) -> Result<T, FileFault> {
    match answer {
        Ok(value) => Ok(value),
        Err(_) => Err(FileFault::Failed),
    }
}

/// Reads until the buffer is full or the file ends.
fn read_fully(handle: &File, at: u64, buf: &mut [u8]) -> Result<usize, FileFault>
    ensures { IfOk result (λ n. n ≤ length buf.new) }
{
    let mut count = 0;
    for _ in 0..u64::MAX {
        if count >= buf.len() {
            break;
        }
        match handle.read_at(&mut buf[count..], at.saturating_add(count as u64)) {
            Ok(0) => break,
            Ok(more) => count += more,
            Err(error) if error.kind() == ErrorKind::Interrupted => {}
            Err(_) => return Err(FileFault::Failed),
        }
    }
    Ok(count)
}

impl<R: Drop> FolderFiles<R> {
    /// The files of this folder.
    pub fn new(alloc: Global, rt: R, folder: String) -> Result<FolderFiles<R>, NoMemory> {
        let mut parent = PathBuf::from_str(alloc, folder.as_str())?;
        parent.pop();
        Ok(FolderFiles {
            rt,
            alloc,
            folder,
            parent,
            handles: List::new(alloc),
            named: false,
        })
    }

    /// Where a file stands among those that are open.
    fn position(&self, file: u32) -> Option<usize>
        ensures { IfSome result (λ i. i < length self.now.handles) }
    {
        self.handles
            .as_slice()
            .iter()
            .position(|handle| handle.file == file)
    }

    /// Keeps a file open, and says where it stands. Where too many are open, those are closed.
    fn keep(&mut self, file: u32, handle: File) -> Result<usize, FileFault>
        ensures { IfOk result (λ i. i < length self.new.handles) }
    {
        if self.handles.len() >= OPEN_FILES {
            self.handles.clear();
        }
        let place = self.handles.len();
        self.handles.push(Handle { file, handle })?;
        Ok(place)
    }

    /// The path of a file.
    fn path(&self, file: u32) -> Result<String, FileFault> {
        Ok(format!(in self.alloc; "{}/{file}", self.folder)?)
    }
}

impl<R: Files<File = File> + Drop> FolderFiles<R> {
    /// Where an open file stands; it is opened if it was not, None where it does not exist.
    fn opened(&mut self, file: u32) -> Result<Option<usize>, FileFault>
        ensures { IfOk result (λ found. IfSome found (λ i. i < length self.new.handles)) }
    {
        if let Some(place) = self.position(file) {
            return Ok(Some(place));
        }
        let path = self.path(file)?;
        match OpenOptions::new()
            .read(true)
            .write(true)
            .open(&self.rt, path.as_str())
        {
            Ok(handle) => Ok(Some(self.keep(file, handle)?)),
            Err(error) if error.kind() == ErrorKind::NotFound => Ok(None),
            Err(_) => Err(FileFault::Failed),
        }
    }

    /// Makes a file that does not exist, with its folder, and says where it stands among those that are open.
    fn made(&mut self, file: u32) -> Result<usize, FileFault>
        ensures { IfOk result (λ i. i < length self.new.handles) }
    {
        let path = self.path(file)?;
        match fs::create_dir(&self.rt, self.folder.as_str()) {
            Ok(()) => {}
            Err(error) if error.kind() == ErrorKind::AlreadyExists => {}
            Err(_) => return Err(FileFault::Failed),
        }
        self.named = false;
        let handle = or_failed(File::create_new(&self.rt, path.as_str()))?;
        self.keep(file, handle)
    }

    /// Makes the names in the folder durable, and the folder's own.
    fn sync_names(&mut self) -> Result<(), FileFault> {
        if self.named {
            return Ok(());
        }
        or_failed(self.sync_folder(self.folder.as_str()))?;
        or_failed(self.sync_parent())?;
        self.named = true;
        Ok(())
    }

    fn sync_folder(&self, path: &str) -> io::Result<()> {
        let folder = File::open(&self.rt, path)?;
        folder.sync_all()
    }

    fn sync_parent(&self) -> io::Result<()> {
        let parent = self.parent.as_str();
        if parent.is_empty() {
            self.sync_folder(".")
        } else {
            self.sync_folder(parent)
        }
    }

    /// How many bytes a file has.
    pub fn length(&mut self, file: u32) -> Result<u64, FileFault> {
        match self.opened(file)? {
            Some(place) => {
                let found = or_failed(self.handles[place].handle.metadata())?;
                Ok(found.len())
            }
            None => Ok(0),
        }
    }

    /// The bytes from a place on, as many as the buffer and the file have.
    pub fn read(&mut self, file: u32, at: u64, buf: &mut [u8]) -> Result<usize, FileFault>
        ensures { IfOk result (λ n. n ≤ length buf.new) }
    {
        match self.opened(file)? {
            Some(place) if at <= i64::MAX as u64 => {
                read_fully(&self.handles[place].handle, at, buf)
            }
            _ => Ok(0),
        }
    }

    /// Writes a whole piece; a file that did not exist is made, and its name is durable then.
    pub fn write(&mut self, file: u32, at: u64, piece: &[u8]) -> Result<(), FileFault>
        ensures { OnOk result (at + length piece.now < 2 ^ 64) }
    {
        if at.checked_add(piece.len() as u64).is_none() {
            return Err(FileFault::Failed);
        }
        let place = match self.opened(file)? {
            Some(place) => place,
            None => self.made(file)?,
        };
        or_failed(self.handles[place].handle.write_all_at(piece, at))?;
        self.sync_names()
    }

    /// Cuts a file to a length.
    pub fn cut(&mut self, file: u32, size: u64) -> Result<(), FileFault> {
        match self.opened(file)? {
            Some(place) => or_failed(self.handles[place].handle.set_len(size)),
            None => Ok(()),
        }
    }

    /// Makes a file durable, and its name.
    pub fn sync(&mut self, file: u32) -> Result<(), FileFault> {
        match self.opened(file)? {
            Some(place) => {
                or_failed(self.handles[place].handle.sync_data())?;
                self.sync_names()
            }
            None => Ok(()),
        }
    }
}
