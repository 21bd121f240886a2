//! The replica follows its source.
ghost use Rattle.run_laws.specs.Fronts.{FrontsAreRead, NoReplayStops, ReplaysHaveCarried, WholeIsReplayed};
ghost use Rattle.run_laws.specs.Laws.{AllCarriedIsEqual, FollowsBegins, FollowsGoOn, FollowsOnTheWay, FollowsOpened, NoApplyStops, NothingIsDamaged, NothingIsOwed, OthersFollow, WarnedAsShown};
ghost use Rattle.run_laws.specs.Openings.{BeginWithNothing, BothOpen, RunsEndWell};
ghost use Rattle.run_laws.specs.Replays.{LogIsItsEntries, ReplayIsEqual};
ghost use Rattle.run_laws.specs.Restarts.{RestartsKeep, RestartsKeepMarks, RestartsStaySound};

use apply_laws::log_entry_laws::{
    entries_can_log_on, entry_is_read, few_are_cut, groups_have_bounds, relay_is_read,
    start_is_read, start_relay_is_read,
};
use apply_laws::log_model::{entries_have_length, heads_have_length, log_goes_on};
use apply_laws::session_replays::{
    bodies_stay_well, openings_replay, sizes_stay, unwarned_items_follow,
};
use apply_laws::{bases_hold, entries_of_runs_follow, entry_is_carried};
use run_model::log_file_model::{
    end_is_seen, front_is_passed, group_is_first, group_is_passed, magic_is_passed,
};

/// A law: a replica that begins behind its source, owing it some entries, or with nothing as it does, follows it behind each command and
/// behind each step of an APPLY, however FETCH cuts the log, and wherever one of both opens again. No APPLY of it stops where each item that
/// it comes to does the same at every replica, and whatever is logged, one stops at nothing but an item that has no effect there.
pub fn replica_follows()
    ensures begins { FollowsBegins }
    ensures opens { FollowsOpened }
    ensures owes { NothingIsOwed }
    ensures goes_on { FollowsGoOn }
    ensures on_the_way { FollowsOnTheWay }
    ensures stops { NoApplyStops }
    ensures damaged { NothingIsDamaged }
{
    entries_have_length();
    heads_have_length();
    log_goes_on();
    few_are_cut();
    groups_have_bounds();
    start_relay_is_read();
    relay_is_read();
    entries_can_log_on();
    bases_hold();
    entry_is_carried();
    entries_of_runs_follow();
}

/// A law: a RESTART of a source that a replica follows puts out nothing and leaves all that was committed, which can be run and read again
/// as before; its sessions begin anew. No RESTART changes a number of a mark.
pub fn restarts_keep()
    ensures keeps { RestartsKeep }
    ensures sound { RestartsStaySound }
    ensures marks { RestartsKeepMarks }
{
    entries_have_length();
    heads_have_length();
    openings_replay();
}

/// A law: where a replica is behind its source by what stands in the log from its place on, both open, and it follows. A run that began so
/// ends where the next one may: the replica owes what it has not carried out, where each item that it has does the same at every replica.
pub fn runs_open()
    ensures nothing { BeginWithNothing }
    ensures opens { BothOpen }
    ensures ends { RunsEndWell }
{
    entries_have_length();
    heads_have_length();
    log_goes_on();
    few_are_cut();
    groups_have_bounds();
    start_relay_is_read();
    relay_is_read();
    entries_can_log_on();
    bases_hold();
    bodies_stay_well();
    openings_replay();
    sizes_stay();
}

/// A law: a replica that has carried out all that its source committed has its base, where each item does the same at every replica.
pub fn all_carried_is_equal()
    ensures { AllCarriedIsEqual }
{}

/// A law: the log of a source, read from its bytes alone, is its start and then just the groups of the entries.
pub fn log_is_its_entries()
    ensures { LogIsItsEntries }
{
    entries_have_length();
    heads_have_length();
    groups_have_bounds();
    start_is_read();
    entry_is_read();
    magic_is_passed();
    group_is_passed();
    end_is_seen();
}

/// A law: where each item of a log does the same at every replica, one that has nothing and carries out the whole log has the base of
/// its source.
pub fn replay_is_equal()
    ensures { ReplayIsEqual }
{
    log_is_its_entries();
    bases_hold();
    entry_is_carried();
    entries_of_runs_follow();
}

/// A law: a source's log, cut anywhere behind the place of a replica that is behind the source, is read from there on as the groups of the
/// first entries that it owes; where a part of one follows, that is damaged. Where nothing is cut off they are the groups of all.
pub fn fronts_are_read()
    ensures { FrontsAreRead }
{
    entries_have_length();
    heads_have_length();
    log_goes_on();
    few_are_cut();
    groups_have_bounds();
    start_relay_is_read();
    relay_is_read();
    start_is_read();
    entry_is_read();
    entries_can_log_on();
    group_is_first();
    front_is_passed();
}

/// A law: of such a log the replica carries out the groups of the first entries that it owes, and where all that it owes does the same at every
/// replica, no item stops it, so that of a whole log it carries out all and has the source's base.
pub fn replays_carry()
    ensures carried { ReplaysHaveCarried }
    ensures stops { NoReplayStops }
    ensures whole { WholeIsReplayed }
{
    entries_have_length();
    groups_have_bounds();
    bases_hold();
    entry_is_carried();
    entries_of_runs_follow();
    fronts_are_read();
}

/// A law: where no session is under STATEMENT as it says something, each item that is committed does the same at every replica,
/// whatever was said.
pub fn others_follow()
    ensures { OthersFollow }
{
    unwarned_items_follow();
}

/// A law: an item that is logged as a format says is warned exactly where the answer of a statement in that format shows the warning.
pub fn warned_as_shown()
    ensures { WarnedAsShown }
{}
