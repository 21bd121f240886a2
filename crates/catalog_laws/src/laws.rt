//! Laws of catalogs that are made again: each function proves one, and does nothing.
ghost use Rattle.catalog_laws.specs.Making.{BasesStillMadeAgain, CreationsAreRead, NoneAreMade, StillMadeAgain, TablesHaveNames};

use catalog_show_create::{object_is_made_by_its_statement, statement_is_that_of_making};
use sql_text::prints_are_read;
use text_answers::{answers_are_well, texts_are_answered};

/// The objects of a catalog can be made again in their order: where there is none, and after each statement that
/// nothing refuses, so behind each text that makes another base.
pub fn still_made_again()
    ensures none { NoneAreMade }
    ensures more { StillMadeAgain }
    ensures bases { BasesStillMadeAgain }
{
    answers_are_well();
    object_is_made_by_its_statement();
    statement_is_that_of_making();
}

/// The statement that makes an object again is read of its canonical text.
pub fn creations_are_read()
    ensures { CreationsAreRead }
{
    prints_are_read();
    texts_are_answered();
}

/// The name of each table has at most 64 bytes.
pub fn tables_have_names()
    ensures { TablesHaveNames }
{}
