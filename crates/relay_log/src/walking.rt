//! A walk over whole groups, which carries nothing out.
ghost use Rattle.std.specs.Prelude.{◌≡◌, ◌≤◌, ◌<◌, ◌^◌, ◌-◌, ◌+◌, drop, length};
ghost use Rattle.log_groups.specs.Views.{group_seen};
ghost use Rattle.log_groups.specs.log_model.Log.{moved};
ghost use Rattle.replica_model.specs.Replica.{behind_group, size_of};
ghost use Rattle.relay_log.specs.Reaching.{past_all, Reaches, place_seen};

use crate::place::{Place, Walk};
use log_groups::log_group_laws::groups_lie_within;
use log_groups::{Form, Group, Next, next_group};

/// The place behind a group that stands at a place: the end of a log leads to the next one.
fn place_behind(place: Place, group: &Group<'_>) -> Place
    requires { group.now.end < 2 ^ 32 }
    ensures { place_seen result ≡ behind_group (place_seen place) (group_seen group.now) }
{
    match group.form {
        Form::Rotate { next } => Place { log: next, pos: 4 },
        Form::Start | Form::Ddl(_) | Form::Txn { .. } => Place {
            log: place.log,
            pos: group.end as u32,
        },
    }
}

/// A walk gone on behind a group.
pub(crate) fn behind(here: &Walk, group: &Group<'_>) -> Walk
    requires begins { group.now.begin ≤ group.now.end }
    requires ends { group.now.end < 2 ^ 32 }
    requires passed { here.now.passed + (group.now.end - group.now.begin) < 2 ^ 64 }
    ensures place { place_seen result.place ≡ behind_group (place_seen here.now.place) (group_seen group.now) }
    ensures passed { result.passed ≡ here.now.passed + size_of (group_seen group.now) }
{
    Walk {
        place: place_behind(here.place, group),
        passed: here.passed + (group.end - group.begin) as usize,
    }
}

/// Walks over the whole groups at the front of some bytes that stand from a place on.
pub(crate) fn walk(bytes: &[u8], start: Place) -> Walk
    ensures reaches { Reaches (place_seen start) bytes.now result.passed (place_seen result.place) }
    ensures within { result.passed ≤ length bytes.now }
    ensures ends { past_all (place_seen result.place) (drop result.passed bytes.now) ≡ moved (place_seen result.place) (length bytes.now - result.passed) }
{
    groups_lie_within();
    let mut here = Walk {
        place: start,
        passed: 0,
    };
    loop {
        let (_, rest) = bytes.split_at(here.passed);
        match next_group(rest, u64::from(here.place.pos)) {
            Next::Group(group) => here = behind(&here, &group),
            Next::NotWhole => return here,
            Next::Damaged { .. } => return here,
            Next::Foreign { .. } => return here,
        }
    }
}
