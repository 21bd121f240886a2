//! Laws of stores: each function proves one, and does nothing.
ghost use Rattle.store_laws.specs.Laws.{ChangesHaveForms, HeldIsMadeAgain, RecordsKeepIt};

use catalog_laws::catalog_show_create::statement_is_that_of_making;
use catalog_laws::{still_made_again, tables_have_names};
use store_model::images_stand;
use table_rules::{changes_turn_back, definitions_stay};

/// The objects that an image of bytes holds can be made again in their order, also behind one record more.
pub fn held_is_made_again()
    ensures records { RecordsKeepIt }
    ensures images { HeldIsMadeAgain }
{
    still_made_again();
    images_stand();
}

/// Changes that can be made to such a base have the form of a record's body.
pub fn changes_have_forms()
    ensures { ChangesHaveForms }
{
    statement_is_that_of_making();
    tables_have_names();
    changes_turn_back();
    definitions_stay();
}
