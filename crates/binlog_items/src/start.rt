//! How a log begins.
ghost use Rattle.std.specs.Prelude.{◌≡◌, length, IfOk};
ghost use Rattle.log_entry_laws.specs.log_model.Log.{head};

use event_codec::{Event, Header};
use log_entry_laws::log_model::heads_have_length;
use row_laws::row_events::put;
use std::alloc::Global;
use val_types::{Bytes, NoMemory};

/// The first bytes of a log.
const MAGIC: [u8; 4] = [0xfe, 0x62, 0x69, 0x6e];

/// The server's version.
const VERSION: [u8; 50] =
    *b"5.7.44-log\0\0\0\0\0\0\0\0\0\0\0\0\0\0\0\0\0\0\0\0\0\0\0\0\0\0\0\0\0\0\0\0\0\0\0\0\0\0\0\0";

/// The head of a log: its magic and FORMAT_DESCRIPTION.
pub fn encode_start(alloc: Global, stamp: u32, server_id: u32) -> Result<Bytes, NoMemory>
    ensures bytes { IfOk result (λ bytes. bytes ≡ head stamp server_id) }
    ensures length { IfOk result (λ bytes. length bytes ≡ 123) }
{
    heads_have_length();
    let header = Header {
        stamp,
        server_id,
        pos: 4,
    };
    let event = Event::FormatDescription {
        stamp: 0,
        length: 0,
        version: &VERSION,
    };
    let mut out = Bytes::from_slice(alloc, &MAGIC)?;
    put(&event, header, &mut out)?;
    Ok(out)
}
