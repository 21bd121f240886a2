//! What may stand on a disk at any moment of a run: definitions and laws, and no code.
//!
//! A run pushes a mark behind each transaction that it keeps, with the number that is kept and how many calls the disks had had. A
//! crash at any moment, inside a call too, leaves an image of a disk. What a run promises of it is one relation, `Runs`, for a commit, for
//! a command and for all commands: the image stands for what the store had behind the first of the run's entries, and that is no less
//! than what the marks of the calls that had returned by then name. Each run speaks of its own calls and marks alone; runs one behind
//! the other are a run. Calls that fail are calls like others.
//!
//! It stands on `disk_model` (images at each moment), `store_model` (what an image of a store holds), `session_model` (what entries make
//! of a source) and on the marks of `answer_text`; what writes a store, and the laws of runs over stores, stand on it.
//!
//! - `specs/Marks`: marks as a side reads them, and what they name
//! - `specs/Runs`: the claim on an image, runs, and whole runs, for either side
//! - `specs/Sources`, `specs/Replicas`: what stands for what on a source's disk and on a replica's; what an image promises in the end; runs
//!   behind each of whose steps a replica holds one of some states
//! - `specs/Behind`: a replica's store behind its source's
//! - `marks`, `runs`, `stores`: laws; `worked`: a run by hand
//!
//! # Proved
//! - Later marks and later moments lower nothing that is named, and marks of later calls name nothing yet ([`marks_rise`]).
//! - A run comes of no call, of calls that keep what the store has, of a commit that failed wherever it did, of one that was kept and
//!   its mark, and of marks that the other side pushed while this disk was not called; a run is one of more steps; runs one behind the
//!   other are a run, where the moment between them belongs to the later one ([`runs_compose`]).
//! - A whole run begins on a settled disk and claims in the end that each image of each moment is as it says, and that no mark says more
//!   calls than the disk has had ([`runs_last`]).
//! - What a source's store holds behind entries goes on from what it holds behind the first of them, and is what their records make, one
//!   after the other ([`held_goes_on`]); its logs have what the entries put there ([`stores_go_on`], [`logs_go_on`]), and an image with the entry's record open stands for that
//!   ([`sources_stand`]). So each image of
//!   each moment of a source's run holds the base, the number and the logs of a prefix of its entries ([`sources_last`]).
//! - A replica's number does not fall, and it serves no more than its source had committed as the run began ([`replicas_go_on`]).
//! - What a replica has carried out goes on, with entries and with steps that come later. So each image of each moment of its run has
//!   carried out a prefix of the entries, where its steps do, whatever makes entries do the same at every replica (lemmas of
//!   `proofs/Carried` and `proofs/Carrying`).
//! - A replica's run behind each of whose steps it holds one of some states comes of no call, of one record, of calls that keep what the
//!   store has and of marks that the other side pushed; such runs one behind the other are one, and one of more states too; in the end
//!   each image of each moment holds one of them, no less than the marks until then name, and no more than was served where no state
//!   has more (lemmas of `proofs/States`).
//! - Runs over both disks compose, also where a command calls one of them ([`both_compose`]).
//! - Of a source and a replica that have nothing, nothing is owed ([`nothing_owed`]).
//! - Marks, entries, records, logs and images of a run by hand ([`marks_by_hand`], [`entries_by_hand`], [`logs_by_hand`],
//!   [`images_by_hand`]); a mark that is pushed one call early makes no run, nor does one that says a call more
//!   ([`runs_by_hand`]).
#![tactic(auto)]

mod marks;
mod runs;
mod stores;
mod worked;

pub use marks::marks_rise;
pub use runs::{both_compose, runs_compose, runs_last};
pub use stores::{
    held_goes_on, logs_go_on, nothing_owed, replicas_go_on, sources_last, sources_stand,
    stores_go_on,
};
pub use worked::{entries_by_hand, images_by_hand, logs_by_hand, marks_by_hand, runs_by_hand};
