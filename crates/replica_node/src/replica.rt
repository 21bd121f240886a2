//! The replica.
ghost use Rattle.std.specs.Prelude.{◌≡◌, ◌≤◌, ◌+◌, [], length, IfOk, OnErr, OnOk};
ghost use Rattle.table_rules.specs.Stores.{IsWhole, definitions_of};
ghost use Rattle.stmt_apply.specs.prog_run.prog_work.Contents.{base_of};
ghost use Rattle.stmt_apply.specs.prog_run.prog_work.catalog_objects.Keys.{objects_of};
ghost use Rattle.log_groups.specs.catalog_rules.Bases.{definitions_in};
ghost use Rattle.relay_log.specs.Reaching.{place_seen};
ghost use Rattle.replica_model.specs.apply_model.binlog_sizes.Sizes.{most_text};
ghost use Rattle.replica_model.specs.Replica.{fetched, want};
ghost use Rattle.replica_model.specs.Selecting.{select_answer};
ghost use Rattle.replica_node.specs.Kept.{replica_of};

use crate::selecting::answer;
use answer_text::Answer;
use port_traits::{Draw, Identity};
use relay_log::{Place, Relay};
use std::alloc::Global;
use std::marker::Model;
use stmt_apply::answer_making::NodeFault;
use stmt_apply::prog_run::Work;
use stmt_apply::prog_run::catalog_objects::Objects;
use stmt_apply::prog_run::exec_state::dml_rows::row_store::Tables;
use val_types::Bytes;

/// A replica in memory, which contracts see as who it is and what it keeps. It is dropped here.
pub struct ReplicaNode {
    pub(crate) alloc: Global,
    pub(crate) identity: Identity,
    pub(crate) work: Work,
    pub(crate) number: u64,
    pub(crate) relay: Relay,
}

impl Model for ReplicaNode {
    ghost use Rattle.std.specs.Prelude.{◌≡◌, []};
    ghost use Rattle.replica_node.specs.Kept.{Kept};

    ghost Value = { Kept };

    ghost use Rattle.sql_tree.specs.contracts.statements.Stmt as stmt;
    ghost use Rattle.std.specs.Coded.{codes};

    ghost coded = { Prim.hlevel (codes, stmt.the_row.coded) };

    ghost view = { λ n. record { identity = n.identity; work = n.work; number = n.number; relay = n.relay } };

    ghost invariant = { λ n. n.work.changes ≡ [] };
}

impl Drop for ReplicaNode {
    fn drop(self) {
        let ReplicaNode {
            alloc: _,
            identity,
            work,
            number: _,
            relay,
        } = self;
        drop(identity);
        drop(work);
        drop(relay);
    }
}

impl ReplicaNode {
    /// A replica on rows where no change is open, which has carried out so many definitions and transactions, up to a place.
    pub fn found(
        alloc: Global,
        identity: Identity,
        work: Work,
        number: u64,
        place: Place,
    ) -> ReplicaNode
        requires { work.changes ≡ [] }
        ensures identity { result.identity ≡ identity }
        ensures replica { replica_of result ≡ record { base = base_of work; counters = work.counters; number = number; place = place_seen place; relay = [] } }
    {
        ReplicaNode {
            alloc,
            identity,
            work,
            number,
            relay: Relay::at(alloc, place),
        }
    }

    /// Who it is.
    pub fn identity(&self) -> &Identity
        ensures { result.now ≡ self.now.identity }
    {
        &self.identity
    }

    /// The tables that are kept in memory, all rows of which are there to stay.
    pub fn tables(&self) -> &Tables
        ensures committed { result.now.committed ≡ (replica_of self.now).base.tables }
        ensures theirs { definitions_of result.now.tables ≡ definitions_in ((replica_of self.now).base.catalog) }
        ensures whole { IsWhole result.now }
    {
        self.work.stored()
    }

    /// The objects of the catalog, in order of creation.
    pub fn objects(&self) -> &Objects
        ensures { objects_of result.now ≡ (replica_of self.now).base.catalog }
    {
        self.work.catalog().objects()
    }

    /// How many definitions and transactions were carried out.
    pub fn number(&self) -> u64
        ensures { result ≡ (replica_of self.now).number }
    {
        self.number
    }

    /// The log and the position from which the next bytes are fetched.
    #[tactic(auto, unfolding(replica_model::specs::Replica::want))]
    pub fn want(&self) -> (u32, u32)
        ensures { record { log = result.0; pos = result.1 } ≡ want (replica_of self.now) }
    {
        let place = self.relay.want();
        (place.log, place.pos)
    }

    /// Takes a piece of the source's log from the place that is wanted on, which ends within 4,294,967,295.
    #[tactic(auto, unfolding(replica_model::specs::Replica::want))]
    pub fn fetch(&mut self, piece: &Bytes) -> Result<(), NodeFault>
        requires { (want (replica_of self.old)).pos + length piece.now ≤ 4294967295 }
        ensures identity { self.new.identity ≡ self.old.identity }
        ensures ok { OnOk result (replica_of self.new ≡ fetched piece.now (replica_of self.old)) }
        ensures err { OnErr result (self.new ≡ self.old) }
    {
        self.relay.append(piece.as_slice())?;
        Ok(())
    }

    /// The answer to a text of at most 1,048,576 bytes whose first word is SELECT: 1064 or 30007 where it is no statement, then
    /// the error of the first of the catalog's checks, 1290 where it would change rows, then its own.
    pub fn select(&mut self, text: &[u8], draw: &Draw) -> Result<Answer, NodeFault>
        requires { length text.now ≤ most_text }
        ensures answer { IfOk result (λ answer. answer ≡ select_answer self.old.identity draw.entry.now (replica_of self.old).counters (replica_of self.old).base text.now) }
        ensures same { self.new ≡ self.old }
    {
        answer(self.alloc, &self.identity, &mut self.work, text, draw)
    }
}
