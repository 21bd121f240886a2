//! Bodies by hand. Numbers have their least byte first.
//!
//! A source's log begins and ends at 123; a table `t` of two numbers is made and the log ends at 206; the row (1, 10) is put in,
//! becomes (1, NULL), and is taken out. A replica carries the last four out and goes on at the next log.

/// Log 1 begins, and ends at 123.
pub static LOG_BEGINS: [u8; 21] = [
    3, 0, 0, 0, 0, 0, 0, 0, 0, 1, 0, 0, 0, 123, 0, 0, 0, 0, 0, 0, 0,
];

/// Transaction 1 is a definition, and log 1 ends at 206.
pub static TABLE_MADE: &[u8] =
    b"\x02\x01\x00\x00\x00\x00\x00\x00\x00\x01\x00\x00\x00\xce\x00\x00\x00\x30\x00\x00\x00CREATE TABLE t (id INT, v INT, PRIMARY KEY (id))";

/// Transaction 2 puts the row (1, 10) into t, and log 1 ends at 336.
pub static ROW_PUT_IN: [u8; 43] = [
    1, 2, 0, 0, 0, 0, 0, 0, 0, 1, 0, 0, 0, 80, 1, 0, 0, 1, 0, 0, 0, // one change
    1, 1, 116, 2, 1, 1, 0, 0, 0, 0, 0, 0, 0, 1, 10, 0, 0, 0, 0, 0, 0, 0,
];

/// Transaction 3 makes (1, NULL) of it, and log 1 ends at 466.
pub static ROW_CHANGED: [u8; 54] = [
    1, 3, 0, 0, 0, 0, 0, 0, 0, 1, 0, 0, 0, 210, 1, 0, 0, 1, 0, 0, 0, // one change
    2, 1, 116, 2, 1, 1, 0, 0, 0, 0, 0, 0, 0, 1, 10, 0, 0, 0, 0, 0, 0, 0, // before
    2, 1, 1, 0, 0, 0, 0, 0, 0, 0, 0,
];

/// Transaction 4 takes it out, and log 1 ends at 596.
pub static ROW_TAKEN_OUT: [u8; 35] = [
    1, 4, 0, 0, 0, 0, 0, 0, 0, 1, 0, 0, 0, 84, 2, 0, 0, 1, 0, 0, 0, // one change
    3, 1, 116, 2, 1, 1, 0, 0, 0, 0, 0, 0, 0, 0,
];

/// The same, carried out by a replica.
pub static TABLE_CARRIED_OUT: &[u8] =
    b"\x12\x01\x00\x00\x00\x00\x00\x00\x00\x01\x00\x00\x00\xce\x00\x00\x00\x30\x00\x00\x00CREATE TABLE t (id INT, v INT, PRIMARY KEY (id))";

pub static ROW_CARRIED_OUT: [u8; 43] = [
    17, 2, 0, 0, 0, 0, 0, 0, 0, 1, 0, 0, 0, 80, 1, 0, 0, 1, 0, 0, 0, // one change
    1, 1, 116, 2, 1, 1, 0, 0, 0, 0, 0, 0, 0, 1, 10, 0, 0, 0, 0, 0, 0, 0,
];

pub static CHANGE_CARRIED_OUT: [u8; 54] = [
    17, 3, 0, 0, 0, 0, 0, 0, 0, 1, 0, 0, 0, 210, 1, 0, 0, 1, 0, 0, 0, // one change
    2, 1, 116, 2, 1, 1, 0, 0, 0, 0, 0, 0, 0, 1, 10, 0, 0, 0, 0, 0, 0, 0, // before
    2, 1, 1, 0, 0, 0, 0, 0, 0, 0, 0,
];

pub static REMOVAL_CARRIED_OUT: [u8; 35] = [
    17, 4, 0, 0, 0, 0, 0, 0, 0, 1, 0, 0, 0, 84, 2, 0, 0, 1, 0, 0, 0, // one change
    3, 1, 116, 2, 1, 1, 0, 0, 0, 0, 0, 0, 0, 0,
];

/// The replica goes on at the first event of log 2.
pub static PLACE_MOVED: [u8; 17] = [19, 4, 0, 0, 0, 0, 0, 0, 0, 2, 0, 0, 0, 4, 0, 0, 0];

/// Two changes with the greatest number of transactions: a row of two texts, of -1 and of the least number goes into `ab`, and
/// one of no values comes out of a table without a name.
pub static VALUES: [u8; 59] = [
    17, 255, 255, 255, 255, 255, 255, 255, 255, 2, 0, 0, 0, 4, 0, 0, 0, 2, 0, 0, 0, // two changes
    1, 2, 97, 98, 4, 2, 2, 0, 0, 0, 104, 105, 2, 0, 0, 0, 0, // two texts
    1, 255, 255, 255, 255, 255, 255, 255, 255, 1, 0, 0, 0, 0, 0, 0, 0, 128, // two numbers
    3, 0, 0,
];

/// A transaction that claims 4294967295 changes, and has one.
pub static CLAIMS_MORE: [u8; 26] = [
    17, 2, 0, 0, 0, 0, 0, 0, 0, 1, 0, 0, 0, 80, 1, 0, 0, 255, 255, 255, 255, 3, 1, 116, 1, 0,
];
