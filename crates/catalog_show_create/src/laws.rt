//! Laws of the definitions.
ghost use Rattle.catalog_show_create.specs.Stated.{IsMadeByItsStatement, StatementIsThatOfMaking};

/// A law: the statement of an object that a CREATE made, which nothing refused, is this CREATE.
pub fn statement_is_that_of_making()
    ensures { StatementIsThatOfMaking }
{}

/// A law: by its statement such an object is made again on any catalog that has room for it, with no other of its kind and name:
/// nothing refuses the statement, and the object stands behind the others.
pub fn object_is_made_by_its_statement()
    ensures { IsMadeByItsStatement }
{}
