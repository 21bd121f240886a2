//! What stores have behind entries and records: laws, each a function that does nothing.
ghost use Rattle.durable_runs.specs.Laws.{
  AddedGoesOn,
  HeldGoesOn,
  NothingIsOwed,
  OneLog,
  RecordsLead,
  ReplicasRise,
  ServedGoesOn,
  SourcesLast,
  SourcesStand,
  StoresGoOn,
};

/// What is held behind entries goes on from what is held behind the first of them, and is what applying their records gives.
pub fn held_goes_on()
    ensures goes_on { HeldGoesOn }
    ensures records { RecordsLead }
{}

/// A store with its logs has behind entries what these make of its base and its number, and what they put behind its logs.
pub fn stores_go_on()
    ensures { StoresGoOn }
{}

/// What entries put behind a log goes on; within one log it is their bytes.
pub fn logs_go_on()
    ensures goes_on { AddedGoesOn }
    ensures one { OneLog }
{}

/// What the images of a source's commit stand for, before its record is open and behind that.
pub fn sources_stand()
    ensures { SourcesStand }
{}

/// Each image of each moment of a source's run, from a settled disk on, holds what a prefix of its entries left, with the logs up to
/// their ends.
pub fn sources_last()
    ensures { SourcesLast }
{}

/// A replica's number does not fall, and what it serves goes on.
pub fn replicas_go_on()
    ensures rises { ReplicasRise }
    ensures served { ServedGoesOn }
{}

/// Where neither has anything, the replica is behind its source by nothing.
pub fn nothing_owed()
    ensures { NothingIsOwed }
{}
