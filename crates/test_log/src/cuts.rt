//! The groups of the small log: cut at every byte, and with every byte changed to every other value.
use crate::tests::{BODIES, HEADER, LOG, bytes, expect_all};
use log_groups::{Form, Next, next_group};
use val_types::Bytes;

/// The groups of the small log: where each begins and ends, and a letter for its form.
static GROUPS: [(u64, u64, u8); 3] = [(4, 123, b's'), (123, 598, b't'), (598, 638, b'r')];

/// A letter for what stands at a place: the form of a group that ends at `end`, a group that ends
/// elsewhere, a front of one, or a stop at a place from there on.
fn letter(next: &Next, pos: u64, end: u64) -> u8 {
    match next {
        Next::Group(group) => {
            if group.begin != pos {
                b'?'
            } else if group.end != end {
                b'o'
            } else {
                match group.form {
                    Form::Start => b's',
                    Form::Rotate { .. } => b'r',
                    Form::Ddl(_) => b'q',
                    Form::Txn { .. } => b't',
                }
            }
        }
        Next::NotWhole => b'n',
        Next::Damaged { pos: at } => { if *at >= pos { b'd' } else { b'?' } }
        Next::Foreign { pos: at, .. } => { if *at >= pos { b'f' } else { b'?' } }
    }
}

/// What stands at a place of a log of which so many bytes are there.
fn letter_in(log: &[u8], pos: u64, end: u64) -> u8 {
    if pos > log.len() as u64 {
        return b'?';
    }
    letter(&next_group(&log[pos as usize..], pos), pos, end)
}

/// Whether a group is a front up to its last byte and whole from there on, however much of the log is there.
fn is_whole(begin: u64, end: u64, form: u8) -> bool {
    for length in 0..LOG.len() + 1 {
        let there = length as u64;
        let expected = if there < end { b'n' } else { form };
        if there >= begin && letter_in(&LOG[..length], begin, end) != expected {
            return false;
        }
    }
    true
}

/// How many groups do so, from the first on.
fn held_groups() -> usize {
    for (i, (begin, end, form)) in GROUPS.iter().enumerate() {
        if !is_whole(*begin, *end, *form) {
            return i;
        }
    }
    GROUPS.len()
}

/// Where a walk over the groups of a log ends, and a letter for what stands there: the end of the log, a
/// front of a group, damage, or what is not known.
fn walk(log: &[u8]) -> (u64, u8) {
    let mut pos: u64 = 4;
    for _group in 0..15 {
        if pos > log.len() as u64 {
            return (pos, b'?');
        }
        if pos == log.len() as u64 {
            return (pos, b'e');
        }
        match next_group(&log[pos as usize..], pos) {
            Next::Group(group) => pos = group.end,
            Next::NotWhole => return (pos, b'n'),
            Next::Damaged { pos: at } => return (at, b'd'),
            Next::Foreign { pos: at, .. } => return (at, b'f'),
        }
    }
    (pos, b'?')
}

/// Where the walk ends with one byte of the log set to a value.
fn walk_with(log: &mut Bytes, place: usize, value: u8) -> (u64, u8) {
    if place >= log.len() {
        return (0, b'?');
    }
    let old = log[place];
    log.set(place, value);
    let end = walk(log.as_slice());
    log.set(place, old);
    end
}

/// Whether the walk ends with a letter whatever else this byte says; damage is at `pos`.
fn all_end_with(log: &mut Bytes, place: usize, letter: u8, pos: u64) -> bool {
    let mut same = true;
    for value in 0..=255 {
        let (at, found) = walk_with(log, place, value);
        let was = place < LOG.len() && LOG[place] == value;
        same = same && (was || (found == letter && (found != b'd' || at == pos)));
    }
    same
}

/// Whether the walk ends at the end of the log, with damage or with what is not known, and not before
/// `begin`, whatever this byte says.
fn all_have_names(log: &mut Bytes, place: usize, begin: u64) -> bool {
    let mut named = true;
    for value in 0..=255 {
        let (at, found) = walk_with(log, place, value);
        named = named && at >= begin && at <= 638 && [b'e', b'd', b'f'].contains(&found);
    }
    named
}

/// Whether the header at a place is read so whatever one byte of it says, but for the type.
fn is_header_read(log: &mut Bytes, pos: u64) -> bool {
    for (i, letter) in HEADER.iter().enumerate() {
        let place = (pos as usize).saturating_add(i);
        if i != 4 && !all_end_with(log, place, *letter, pos) {
            return false;
        }
    }
    true
}

/// How many headers are, from the first on. Timestamps, server ids and flags do not matter; an event's length and next position have
/// to agree.
fn held_headers(log: &mut Bytes) -> usize {
    for (i, (pos, _)) in BODIES.iter().enumerate() {
        if !is_header_read(log, *pos) {
            return i;
        }
    }
    BODIES.len()
}

/// Whether each changed byte of a group has an end with a name.
fn has_names(log: &mut Bytes, begin: u64, end: u64) -> bool {
    for place in 4..638 {
        let within = place as u64 >= begin && (place as u64) < end;
        if within && !all_have_names(log, place, begin) {
            return false;
        }
    }
    true
}

/// In how many groups, from the first on, no change of one byte makes a front of a group of the log, nor touches the groups before it.
fn held_names(log: &mut Bytes) -> usize {
    for (i, (begin, end, _)) in GROUPS.iter().enumerate() {
        if !has_names(log, *begin, *end) {
            return i;
        }
    }
    GROUPS.len()
}

#[test]
fn groups_cut_and_changed(rt: HostRuntime) {
    let mut log = bytes(rt.alloc(), &LOG);
    expect_all(
        &rt,
        "groups whole from their last byte on",
        held_groups(),
        3,
    );
    expect_all(
        &rt,
        "headers whatever a byte says",
        held_headers(&mut log),
        15,
    );
    expect_all(
        &rt,
        "changed bytes with a named end",
        held_names(&mut log),
        3,
    );
}
