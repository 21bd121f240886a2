//! The snapshot that a checkpoint leaves of a source, cut at every length and with each byte changed, its gate closed and open. What it is
//! read as is worked out from its form: the gate; the length of the body, 8 bytes; the node; the generation, 8; the number, 8; how many
//! logs, 4, and the end of one, 4; how many objects, 4; the length of a text, 8, and its 70 bytes; how many rows, 8; how many values, and
//! two, each behind its kind. Names have bytes from 20 to 7e alone, so that no change of the text is read as another.

use crate::tests::{LOGGED, SOURCE_WITH_ROW, bytes, files, files_behind, has, has_row, held_at};
use crash_images::disk_left;
use disk_model::OpenRefusal;
use std::alloc::Global;
use store_model::Kind;
use store_open::{Opened, load};
use val_types::{Bytes, List};

/// A source, generation 1, number 2; one log that ends at 336; one object, its text, one row of two values, 1 and 10: 134 bytes behind the
/// gate and their length.
static SNAPSHOT: &[u8] =
    b"\x01\x86\x00\x00\x00\x00\x00\x00\x00\x01\x01\x00\x00\x00\x00\x00\x00\x00\x02\x00\x00\x00\x00\x00\x00\x00\x01\x00\x00\x00\x50\x01\x00\x00\x01\x00\x00\x00\x46\x00\x00\x00\x00\x00\x00\x00CREATE TABLE `t` (`id` INT NOT NULL, `v` INT NULL, PRIMARY KEY (`id`))\x01\x00\x00\x00\x00\x00\x00\x00\x02\x01\x01\x00\x00\x00\x00\x00\x00\x00\x01\x0a\x00\x00\x00\x00\x00\x00\x00";

/// Bytes that can be others: which, what they become, and the number that is read then. Generations of file 1 are odd.
static GENERATIONS: [(usize, u8, u64); 8] = [
    (10, 0xff, 255),
    (11, 0xff, 65_281),
    (12, 0xff, 16_711_681),
    (13, 0xff, 4_278_190_081),
    (14, 0xff, 1_095_216_660_481),
    (15, 0xff, 280_375_465_082_881),
    (16, 0xff, 71_776_119_061_217_281),
    (17, 0xff, 18_374_686_479_671_623_681),
];

/// A source commits at most 4294967295 transactions.
static NUMBERS: [(usize, u8, u32); 6] = [
    (18, 0x00, 0),
    (18, 0xff, 255),
    (18, 0xfd, 253),
    (19, 0xff, 65_282),
    (20, 0xff, 16_711_682),
    (21, 0xff, 4_278_190_082),
];

static ENDS: [(usize, u8, u32); 2] = [(30, 0x00, 256), (31, 0x00, 80)];

/// Ends behind the log's 336 bytes: 511, 431, 65360, 65104 and 16712016. A greater one than 1150000000 is none.
static SHORT: [(usize, u8, u32); 5] = [
    (30, 0xff, 511),
    (30, 0xaf, 431),
    (31, 0xff, 65_360),
    (31, 0xfe, 65_104),
    (32, 0xff, 16_712_016),
];

/// An INT is at most 2147483647.
static IDS: [(usize, u8, u32); 5] = [
    (126, 0x00, 0),
    (126, 0xff, 255),
    (126, 0xfe, 254),
    (127, 0xff, 65_281),
    (128, 0xff, 16_711_681),
];

static VALUES: [(usize, u8, u32); 5] = [
    (135, 0x00, 0),
    (135, 0xff, 255),
    (135, 0xf5, 245),
    (136, 0xff, 65_290),
    (137, 0xff, 16_711_690),
];

/// What a store holds: its generation and number, the end of its log, and its row.
#[derive(Clone, Copy)]
struct Contents {
    generation: u64,
    number: u32,
    end: u32,
    id: u32,
    v: u32,
}

/// What the snapshot says.
fn whole() -> Contents {
    Contents {
        generation: 1,
        number: 2,
        end: 336,
        id: 1,
        v: 10,
    }
}

/// The number that a table has for a byte that becomes another; else this one.
fn listed(table: &[(usize, u8, u32)], at: usize, to: u8, otherwise: u32) -> u32 {
    for (of, other, number) in table {
        if *of == at && *other == to {
            return *number;
        }
    }
    otherwise
}

/// The generation for a byte that becomes another.
fn generation(at: usize, to: u8) -> u64 {
    for (of, other, number) in &GENERATIONS {
        if *of == at && *other == to {
            return *number;
        }
    }
    1
}

/// What is read where a byte becomes another, as far as the tables say.
fn told(at: usize, to: u8) -> Contents {
    let as_it_was = whole();
    Contents {
        generation: generation(at, to),
        number: listed(&NUMBERS, at, to, as_it_was.number),
        end: listed(&ENDS, at, to, as_it_was.end),
        id: listed(&IDS, at, to, as_it_was.id),
        v: listed(&VALUES, at, to, as_it_was.v),
    }
}

/// Whether these are the same.
fn is_same(a: Contents, b: Contents) -> bool {
    a.generation == b.generation
        && a.number == b.number
        && a.end == b.end
        && a.id == b.id
        && a.v == b.v
}

/// The files behind the checkpoint, with this snapshot.
fn files_with(alloc: Global, snapshot: &[u8]) -> List<Bytes> {
    let mut files = List::new(alloc);
    let _ = files.push(List::new(alloc));
    let _ = files.push(bytes(alloc, snapshot));
    let _ = files.push(bytes(alloc, SOURCE_WITH_ROW));
    let _ = files.push(bytes(alloc, &[0]));
    for _file in 4..8 {
        let _ = files.push(List::new(alloc));
    }
    let _ = files.push(bytes(alloc, &LOGGED));
    files
}

/// What an opening of the disk that comes up with them gives; none where memory was short for the disk.
fn opened(alloc: Global, snapshot: &[u8]) -> Option<Result<Opened, OpenRefusal>> {
    let files = files_with(alloc, snapshot);
    let mut disk = disk_left(alloc, files.as_slice())?;
    Some(load(alloc, &mut disk, Kind::Source))
}

/// Whether it holds just this.
fn holds(alloc: Global, snapshot: &[u8], told: Contents) -> bool {
    match opened(alloc, snapshot) {
        Some(Ok(o)) => {
            let ends: &[u32] = &[told.end];
            o.store.generation() == told.generation
                && o.store.number() == u64::from(told.number)
                && o.store.ends() == ends
                && has_row(alloc, &o, i64::from(told.id), i64::from(told.v))
        }
        _ => false,
    }
}

/// Whether it is damaged at this place.
fn is_damaged(alloc: Global, snapshot: &[u8], file: u32, at: u64) -> bool {
    match opened(alloc, snapshot) {
        Some(
            Err(
                OpenRefusal::Damaged {
                    file: of,
                    at: place,
                },
            ),
        ) => of == file && place == at,
        _ => false,
    }
}

/// Whether its gate closed leaves what the journal of generation 0 says.
fn is_left_out(alloc: Global, snapshot: &[u8]) -> bool {
    let closed = with_byte(alloc, snapshot, 0, 0);
    held_at(
        alloc,
        files_with(alloc, closed.as_slice()).as_slice(),
        Kind::Source,
    ) == Some(0)
}

/// These bytes with another one in a place.
fn with_byte(alloc: Global, snapshot: &[u8], at: usize, to: u8) -> Bytes {
    let mut file = bytes(alloc, snapshot);
    if at < file.len() {
        file.set(at, to);
    }
    file
}

#[test]
fn the_snapshot_is_a_checkpoints(rt: HostRuntime) {
    let alloc = rt.alloc();
    let start = files(alloc, SOURCE_WITH_ROW, 336);
    let once = files_behind(alloc, start.as_slice(), Kind::Source, 1);
    let made = files_with(alloc, SNAPSHOT);
    assert!(&rt; once.is_some_and(|f| is_each(&f, &made)));
    assert_eq!(&rt; SNAPSHOT.len(), 143);
    assert!(&rt; holds(alloc, SNAPSHOT, whole()));
}

/// Whether nine files are the same.
fn is_each(files: &List<Bytes>, others: &List<Bytes>) -> bool {
    for f in 0..9 {
        match others.get(f) {
            Some(other) => {
                if !has(files, f, other.as_slice()) {
                    return false;
                }
            }
            None => return false,
        }
    }
    true
}

/// Whether the snapshot cut at this length is none, where it has no byte behind the gate, and else damaged; and closed it is none.
fn cut_is_told(alloc: Global, length: usize) -> bool {
    let cut = &SNAPSHOT[..length.min(SNAPSHOT.len())];
    let open = if length < 2 {
        held_at(alloc, files_with(alloc, cut).as_slice(), Kind::Source) == Some(0)
    } else {
        is_damaged(alloc, cut, 1, 0)
    };
    open && is_left_out(alloc, cut)
}

#[test]
fn cut_at_every_length(rt: HostRuntime) {
    let alloc = rt.alloc();
    assert!(&rt; are_cuts_told(alloc, 0, 72));
    assert!(&rt; are_cuts_told(alloc, 72, 143));
    assert!(&rt; is_left_out(alloc, SNAPSHOT));
}

/// Whether all cuts from one length up to another are.
fn are_cuts_told(alloc: Global, from: usize, to: usize) -> bool {
    for length in from..to {
        if !cut_is_told(alloc, length) {
            return false;
        }
    }
    true
}

/// Whether the snapshot with a byte changed is what the tables say, its log too short, or damaged where they say nothing; and closed it is
/// none.
fn change_is_told(alloc: Global, at: usize, old: u8, to: u8) -> bool {
    let changed = with_byte(alloc, SNAPSHOT, at, to);
    let snapshot = changed.as_slice();
    is_read_as_told(alloc, snapshot, at, old, to) && is_left_out(alloc, snapshot)
}

/// The first of it, of such a snapshot.
fn is_read_as_told(alloc: Global, snapshot: &[u8], at: usize, old: u8, to: u8) -> bool {
    let read = told(at, to);
    if old == to || !is_same(read, whole()) {
        return holds(alloc, snapshot, read);
    }
    if listed(&SHORT, at, to, 0) > 0 {
        return is_damaged(alloc, snapshot, 8, 336);
    }
    is_damaged(alloc, snapshot, 1, 0)
}

/// Whether it is so with each of three others in the place of a byte.
fn byte_is_told(alloc: Global, at: usize) -> bool {
    match SNAPSHOT.get(at) {
        Some(old) => {
            change_is_told(alloc, at, *old, 0x00)
                && change_is_told(alloc, at, *old, 0xff)
                && change_is_told(alloc, at, *old, 0xff - *old)
        }
        None => false,
    }
}

/// Whether it is of all bytes from one up to another.
fn are_bytes_told(alloc: Global, from: usize, to: usize) -> bool {
    for at in from..to {
        if !byte_is_told(alloc, at) {
            return false;
        }
    }
    true
}

#[test]
fn a_byte_of_numbers_changed(rt: HostRuntime) {
    let alloc = rt.alloc();
    assert!(&rt; are_bytes_told(alloc, 1, 46));
}

#[test]
fn a_byte_of_the_text_changed(rt: HostRuntime) {
    let alloc = rt.alloc();
    assert!(&rt; are_bytes_told(alloc, 46, 116));
}

#[test]
fn a_byte_of_the_row_changed(rt: HostRuntime) {
    let alloc = rt.alloc();
    assert!(&rt; are_bytes_told(alloc, 116, 143));
}
