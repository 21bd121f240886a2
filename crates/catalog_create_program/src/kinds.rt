//! The kinds of stored programs, which may hold different statements.
ghost use Rattle.std.specs.Prelude.{◌≡◌};
ghost use Rattle.catalog_create_table.specs.catalog_rules.Bodies.{is_of_function, is_of_procedure, writes_new_row};
ghost use Rattle.catalog_create_program.specs.Kinds.{kind_of};

/// A kind of stored program; a trigger may write the row that is to be stored, where it runs before an INSERT or UPDATE.
#[derive(Clone, Copy)]
pub enum Kind {
    Function,
    Procedure,
    Trigger { writes_new: bool },
}

impl Kind {
    /// Whether it may RETURN a value.
    pub(crate) fn returns(self) -> bool
        ensures { result ≡ is_of_function (kind_of self) }
    {
        match self {
            Kind::Function => true,
            Kind::Procedure => false,
            Kind::Trigger { .. } => false,
        }
    }

    /// Whether it may show rows, CALL procedures and set user variables.
    pub(crate) fn is_procedure(self) -> bool
        ensures { result ≡ is_of_procedure (kind_of self) }
    {
        match self {
            Kind::Function => false,
            Kind::Procedure => true,
            Kind::Trigger { .. } => false,
        }
    }

    /// Whether it may set columns of NEW.
    pub(crate) fn writes_new(self) -> bool
        ensures { result ≡ writes_new_row (kind_of self) }
    {
        match self {
            Kind::Function => false,
            Kind::Procedure => false,
            Kind::Trigger { writes_new } => writes_new,
        }
    }
}
