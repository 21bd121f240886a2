//! Files of a folder of the system, by number: file n is `<folder>/n`.
//!
//! A file or a folder that does not exist has no bytes and needs no sync or cut; a write makes both. Files that
//! were used stay open. Reads and writes that the system cuts short are gone on with. The names in the folder are
//! synced behind a write that makes a file, and with the first file that is synced, since another process may
//! have made it. Where memory is wanted no byte of a file was changed.
//!
//! `disk_model` stands on this crate for its disk over a folder. What a file holds is outside all claims.
//!
//! - `files`: [`FolderFiles`]
//! - `fault`: [`FileFault`]
//!
//! # Proved
//! - A read gives no more bytes than the buffer has; a write that is done ends below 2^64. All else is safety.
//!
//! # Only tested
//! In `test_disks`, on a real folder.
#![tactic(auto)]

mod fault;
mod files;

pub use fault::FileFault;
pub use files::FolderFiles;
