//! What holds of the canonical text of every statement that the parser can give, and which those are.
ghost use Rattle.hex.specs.Hex.{IsBytes};
ghost use Rattle.sql_syntax.specs.Texts.{reads};
ghost use Rattle.sql_print.specs.StatementSpelling.{spelling};
ghost use Rattle.sql_tree.specs.Statement.{Statement};
ghost use Rattle.sql_tree.specs.Well.{IsWell};
ghost use Rattle.std.specs.Prelude.{◌≡◌, ℕ, List};

/// The canonical text of a statement is read as that statement. It has at most as many levels as
/// may be, and opens no more constructs than may be open at once.
pub fn prints_are_read()
    ensures { (s : Statement) → IsWell s → reads (spelling s) s }
{}

/// So it is read as no other statement, and two statements have two texts.
pub fn prints_tell_statements_apart()
    ensures only { (s t : Statement) → IsWell s → reads (spelling s) t → t ≡ s }
    ensures apart { (s t : Statement) → IsWell s → IsWell t → spelling s ≡ spelling t → s ≡ t }
{}

/// And a text of bytes is read as one of these statements alone: its names, numbers and texts can be
/// written, no list is empty that may not be, and no column of a primary key is nullable.
pub fn readings_are_well()
    ensures { (text : List ℕ) (s : Statement) → IsBytes text → reads text s → IsWell s }
{}
