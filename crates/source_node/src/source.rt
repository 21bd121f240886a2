//! The source.
ghost use Rattle.std.specs.Prelude.{◌≡◌, ◌<◌, ◌≤◌, [], length, replicate, IfOk};
ghost use Rattle.session_model.specs.binlog_sizes.Sizes.{most_text};
ghost use Rattle.session_model.specs.Machine.{Machine, first_state, kept, step, whole};
ghost use Rattle.table_rules.specs.Stores.{IsWhole, definitions_of};
ghost use Rattle.source_node.specs.Standing.{IsStepped, no_session, Stands, state_of, without_waiting};
ghost use Rattle.session_transaction.specs.catalog_objects.Keys.{objects_of};
ghost use Rattle.session_transaction.specs.catalog_rules.Bases.{definitions_in};
ghost use Rattle.session_transaction.specs.prog_work.Contents.{base_of};
ghost use Rattle.session_transaction.specs.session_shared.Logging.{Logs};
ghost use Rattle.session_transaction.specs.session_shared.waiting_entries.Making.{has_place};

use crate::command::run_command;
use answer_text::Answer;
use port_traits::{Draw, Identity};
use session_model::steps_are_kept;
use session_transaction::answer_making::NodeFault;
use session_transaction::prog_work::Work;
use session_transaction::prog_work::catalog_objects::Objects;
use session_transaction::prog_work::exec_state::dml_rows::row_store::Tables;
use session_transaction::session_shared::waiting_entries::{Head, Waiting};
use session_transaction::session_shared::{Command, Desk, Session};
use std::alloc::Global;
use std::marker::Model;
use std::mem;
use val_types::{List, NoMemory};

/// What a source has in memory, which contracts see as what it keeps. It is dropped here.
pub struct SourceNode {
    alloc: Global,
    identity: Identity,
    desk: Desk,
    sessions: Vec<Option<Session>>,
}

impl Model for SourceNode {
    ghost use Rattle.std.specs.Prelude.{◌≡◌, length};
    ghost use Rattle.source_node.specs.Standing.{Kept};

    ghost Value = { Kept };

    ghost use Rattle.sql_tree.specs.contracts.statements.Stmt as stmt;
    ghost use Rattle.std.specs.Coded.{codes};

    ghost coded = { Prim.hlevel (codes, stmt.the_row.coded) };

    ghost view = { λ n. record { identity = n.identity; desk = n.desk; sessions = n.sessions.items } };

    ghost invariant = { λ n. length n.sessions.items ≡ 100 };
}

impl Drop for SourceNode {
    fn drop(self) {
        let SourceNode {
            alloc: _,
            identity,
            desk,
            sessions,
        } = self;
        drop(identity);
        drop(desk);
        drop(sessions);
    }
}

/// A place for each session, none of which has had a command.
fn no_sessions(alloc: Global) -> Result<Vec<Option<Session>>, NoMemory>
    ensures { IfOk result (λ sessions. sessions.items ≡ replicate 100 no_session) }
{
    let mut sessions = Vec::new(alloc);
    for i in 0..100u32 {
        let _ = i;
        sessions.push(None)?;
    }
    Ok(sessions)
}

impl SourceNode {
    /// A source on what a store has: its catalog, rows and counters, how many transactions were committed, and where the next entry
    /// comes. No session has had a command, no change is open, and nothing waits to be written.
    pub fn found(
        alloc: Global,
        identity: Identity,
        work: Work,
        at: Head,
    ) -> Result<SourceNode, NoMemory>
        requires none { work.changes ≡ [] }
        ensures identity { IfOk result (λ node. node.identity ≡ identity) }
        ensures state { IfOk result (λ node. state_of node ≡ first_state (base_of work) work.counters at.number (has_place at)) }
        ensures waiting { IfOk result (λ node. node.desk.log.waiting ≡ []) }
    {
        let sessions = no_sessions(alloc)?;
        Ok(SourceNode {
            alloc,
            identity,
            desk: Desk::found(alloc, work, at),
            sessions,
        })
    }

    /// Who the node is.
    pub fn identity(&self) -> &Identity
        ensures { result.now ≡ self.now.identity }
    {
        &self.identity
    }

    /// The tables that are kept in memory: what is there to stay of them are the rows of the last commit, beside whatever is open.
    pub fn tables(&self) -> &Tables
        ensures committed { result.now.committed ≡ (state_of self.now).shared.base.tables }
        ensures theirs { definitions_of result.now.tables ≡ definitions_in ((state_of self.now).shared.base.catalog) }
        ensures whole { IsWhole result.now }
    {
        self.desk.work.stored()
    }

    /// The objects of the catalog, in order of creation.
    pub fn objects(&self) -> &Objects
        ensures { objects_of result.now ≡ (state_of self.now).shared.base.catalog }
    {
        self.desk.work.catalog().objects()
    }

    /// How many transactions were committed, and where the next entry comes.
    pub fn place(&self) -> Head
        ensures { result ≡ record { number = self.now.desk.committed; log = self.now.desk.log.log; pos = self.now.desk.log.pos } }
    {
        self.desk.place()
    }

    /// Carries out a text in the session of a number, as the machine that keeps of an item what the log has of it.
    #[tactic(auto, unfolding(session_model::specs::Machine::step))]
    fn exec_kept(&mut self, session: u8, text: &[u8], draw: &Draw) -> Result<Answer, NodeFault>
        requires number { session < 100 }
        requires length { length text.now ≤ most_text }
        ensures identity { self.new.identity ≡ self.old.identity }
        ensures answer { IfOk result (λ answer. answer ≡ (step kept (self.old.identity) (state_of self.old) session text.now draw.entry.now).answer) }
        ensures state { IfOk result (λ answer. state_of self.new ≡ (step kept (self.old.identity) (state_of self.old) session text.now draw.entry.now).state) }
        ensures log { IfOk result (λ answer. Logs ((step kept (self.old.identity) (state_of self.old) session text.now draw.entry.now).committed) (self.old.desk) (self.new.desk)) }
    {
        let command = Command {
            identity: &self.identity,
            draw,
            number: session,
        };
        run_command(
            self.alloc,
            &command,
            &mut self.desk,
            &mut self.sessions[session as usize],
            text,
        )
    }

    /// Carries out a text of at most 1,048,576 bytes in the session of a number below 100. For each run of the machine for
    /// which the node stands, it carries out the machine's step: what its entries leave waits to be written. Where memory is
    /// short, nothing is said of the node any more.
    pub fn exec(&mut self, session: u8, text: &[u8], draw: &Draw) -> Result<Answer, NodeFault>
        requires number { session < 100 }
        requires length { length text.now ≤ most_text }
        ensures identity { self.new.identity ≡ self.old.identity }
        ensures stands { (m : Machine) → Stands self.old m → IfOk result (λ answer.
            IsStepped m.state (step whole (self.old.identity) m.state session text.now draw.entry.now) self.new answer) }
    {
        steps_are_kept();
        self.exec_kept(session, text, draw)
    }

    /// Takes out what waits to be written.
    pub fn take_waiting(&mut self) -> List<Waiting>
        ensures taken { result ≡ self.old.desk.log.waiting }
        ensures rest { self.new ≡ without_waiting self.old }
    {
        mem::replace(&mut self.desk.log.waiting, List::new(self.alloc))
    }
}
