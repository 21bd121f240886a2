//! The calls of a disk, as its story keeps them.

use val_types::Bytes;

/// A call of a disk. One that the device refused is kept as not done.
#[derive(Drop)]
pub enum Call {
    /// A call that changes nothing: of `length` or `read`, or a write that no file has room for.
    Look,
    /// A piece written over what stands from a place on.
    Write {
        file: u32,
        at: u64,
        piece: Bytes,
        done: bool,
    },
    /// A file cut to a length.
    Cut {
        file: u32,
        length: u64,
        done: bool,
    },
    /// A file made durable.
    Sync {
        file: u32,
        done: bool,
    },
}
