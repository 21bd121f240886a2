//! Laws of snapshots: each function proves one, and does nothing.
ghost use Rattle.snapshot_laws.specs.Laws.{HeldIsReadAgain, SourcesHavePlaces};

use catalog_laws::catalog_show_create::statement_is_that_of_making;
use catalog_laws::{creations_are_read, tables_have_names};
use store_model::bodies_are_read;
use table_rules::{changes_turn_back, definitions_stay};

/// What a store holds is read again from a snapshot of it, where its objects can be made again and its tables are theirs.
pub fn held_is_read_again()
    ensures { HeldIsReadAgain }
{
    statement_is_that_of_making();
    creations_are_read();
    tables_have_names();
    changes_turn_back();
    definitions_stay();
    bodies_are_read();
}

/// What a source's store holds has numbers and ends within the bounds of a snapshot, where a log has begun.
pub fn sources_have_places()
    ensures { SourcesHavePlaces }
{}
