//! What was fetched of logs and is not carried out yet.
ghost use Rattle.std.specs.Prelude.{◌≡◌, ◌<◌, ◌≤◌, ◌+◌, ◌^◌, ◌++◌, [], drop, length, OnErr, OnOk};
ghost use Rattle.log_groups.specs.Views.{group_seen, next_of};
ghost use Rattle.log_groups.specs.log_model.Groups.{group as whole, group_at};
ghost use Rattle.replica_model.specs.Replica.{behind_group, size_of};
ghost use Rattle.log_groups.specs.log_group_laws.Laws.{Lies};
ghost use Rattle.relay_log.specs.Reaching.{ahead_of, IsAhead, past_all, place_seen};

use crate::place::{Place, Walk};
use crate::walking::{behind, walk};
use log_groups::log_group_laws::groups_lie_within;
use log_groups::{Group, Next, next_group};
use std::alloc::Global;
use std::marker::Model;
use val_types::NoMemory;

/// The bytes of logs that were fetched, from the applied place on. Before them may stand some that were passed, so that
/// passing a group moves no bytes. Behind the applied place lies one up to which whole groups were walked over.
#[derive(Drop)]
pub struct Relay {
    bytes: Vec<u8>,
    done: usize,
    place: Place,
    walked: Walk,
}

impl Model for Relay {
    ghost use Rattle.std.specs.Prelude.{◌≤◌, drop, length};
    ghost use Rattle.relay_log.specs.Reaching.{Fetched, IsKept, place_seen};

    ghost Value = { Fetched };

    ghost view = { λ r. record { place = place_seen r.place; bytes = drop r.done r.bytes.items } };

    ghost invariant = { λ r. (r.done ≤ length r.bytes.items) × IsKept (record { place = place_seen r.place; bytes = drop r.done r.bytes.items }) r.walked };
}

/// Moves bytes to the front once those before them are at least as many, and says where they begin then. So each byte is
/// moved at most once for each one that was passed.
fn compact(bytes: &mut Vec<u8>, done: usize) -> usize
    requires { done ≤ length bytes.old.items }
    ensures same { drop result bytes.new.items ≡ drop done bytes.old.items }
    ensures within { result ≤ length bytes.new.items }
{
    let left = bytes.len() - done;
    if done < left {
        return done;
    }
    bytes.copy_within(done.., 0);
    bytes.truncate(left);
    0
}

impl Relay {
    /// Nothing was fetched behind a place up to which all was carried out.
    pub fn at(alloc: Global, place: Place) -> Relay
        ensures { result ≡ record { place = place_seen place; bytes = [] } }
    {
        Relay {
            bytes: Vec::new(alloc),
            done: 0,
            place,
            walked: Walk { place, passed: 0 },
        }
    }

    /// The applied place.
    pub fn place(&self) -> Place
        ensures { place_seen result ≡ self.now.place }
    {
        self.place
    }

    /// The bytes behind the applied place.
    fn rest(&self) -> &[u8]
        ensures bytes { result.now ≡ self.now.bytes }
        ensures count { length self.now.bytes < 2 ^ 64 }
    {
        let (_, rest) = self.bytes.as_slice().split_at(self.done);
        rest
    }

    /// The applied place, where nothing was passed over.
    pub fn here(&self) -> Walk
        ensures ahead { IsAhead self.now result }
        ensures place { place_seen result.place ≡ self.now.place }
        ensures passed { result.passed ≡ 0 }
    {
        Walk {
            place: self.place,
            passed: 0,
        }
    }

    /// What stands behind bytes that were passed over.
    pub fn next(&self, ahead: &Walk) -> Next<'_>
        requires { ahead.now.passed ≤ length self.now.bytes }
        ensures { next_of result ≡ group_at (ahead_of self.now ahead.now) }
    {
        let (_, bytes) = self.rest().split_at(ahead.passed);
        next_group(bytes, u64::from(ahead.place.pos))
    }

    /// Behind a group that stands there.
    pub fn behind(&self, ahead: &Walk, group: &Group<'_>) -> Walk
        requires ahead { IsAhead self.now ahead.now }
        requires stands { group_at (ahead_of self.now ahead.now) ≡ whole (group_seen group.now) }
        ensures ahead { IsAhead self.now result }
        ensures place { place_seen result.place ≡ behind_group (place_seen ahead.now.place) (group_seen group.now) }
        ensures passed { result.passed ≡ ahead.now.passed + size_of (group_seen group.now) }
        ensures lies { Lies ahead.now.place.pos (length (drop ahead.now.passed self.now.bytes)) (group_seen group.now) }
    {
        groups_lie_within();
        let _ = self.rest(); // which says that the bytes can be counted
        behind(ahead, group)
    }

    /// Where the bytes end.
    pub fn want(&self) -> Place
        ensures { place_seen result ≡ past_all self.now.place self.now.bytes }
    {
        let (_, bytes) = self.rest().split_at(self.walked.passed);
        let end = walk(bytes, self.walked.place);
        Place {
            log: end.place.log,
            pos: end.place.pos + (bytes.len() - end.passed) as u32,
        }
    }

    /// Puts a piece of the log behind the others.
    pub fn append(&mut self, piece: &[u8]) -> Result<(), NoMemory>
        requires { (past_all self.old.place self.old.bytes).pos + length piece.now ≤ 4294967295 }
        ensures ok { OnOk result (self.new ≡ record self.old { bytes = self.old.bytes ++ piece.now }) }
        ensures err { OnErr result (self.new ≡ self.old) }
    {
        let (_, bytes) = self.rest().split_at(self.walked.passed);
        let end = walk(bytes, self.walked.place);
        self.walked = Walk {
            place: end.place,
            passed: self.walked.passed + end.passed,
        };
        self.bytes.extend_from_slice(piece)
    }

    /// Moves the applied place behind whole groups.
    pub fn pass(&mut self, to: &Walk)
        requires { IsAhead self.old to.now }
        ensures { self.new ≡ record { place = place_seen to.now.place; bytes = drop to.now.passed self.old.bytes } }
    {
        self.place = to.place;
        self.done = compact(&mut self.bytes, self.done + to.passed);
        self.walked = if self.walked.passed < to.passed {
            Walk {
                place: to.place,
                passed: 0,
            }
        } else {
            Walk {
                place: self.walked.place,
                passed: self.walked.passed - to.passed,
            }
        };
    }
}
