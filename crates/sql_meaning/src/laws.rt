//! Laws of the definitions: what holds of every statement.
ghost use Rattle.sql_meaning.specs.Fuel.{EvaluationsKeep, StatementsKeep};
ghost use Rattle.sql_meaning.specs.Leading.{DosChangeNothing, EvaluationsChangeNothing, EvaluationsEndWell, NoFunctionChanges, SelectsChangeNothing, StatementsEndWell};
ghost use Rattle.sql_meaning.specs.Turns.{BodiesSpendTurns, EvaluationsSpendTurns, StatementsSpendTurns};
ghost use Rattle.sql_meaning.specs.Within.{DosAreWell, StepsAreWell};

/// A law: what a statement does to the tables is made by its changes, one after the other, and an error
/// leaves tables and changes as they were; so it is with the expressions that a session evaluates.
pub fn statements_end_well()
    ensures statements { StatementsEndWell }
    ensures evaluations { EvaluationsEndWell }
{}

/// A law: with more levels of nesting and more turns left, a statement that ends without an error does the
/// same, and uses as many turns; so it is with the expressions that a session evaluates.
pub fn more_fuel_does_the_same()
    ensures statements { StatementsKeep }
    ensures evaluations { EvaluationsKeep }
{}

/// A law: turns of WHILE are spent and never given back, by a statement, by a body of a function or trigger and by the
/// expressions that a session evaluates, whether they are done or end with an error.
pub fn turns_never_rise()
    ensures statements { StatementsSpendTurns }
    ensures bodies { BodiesSpendTurns }
    ensures evaluations { EvaluationsSpendTurns }
{}

/// A law: the steps of a well statement are well and less deep, and DO over the values of a SET, the
/// arguments of a CALL, a DEFAULT, a condition or the value of a RETURN is a statement of a session that is
/// no deeper.
pub fn parts_are_well()
    ensures steps { StepsAreWell }
    ensures dos { DosAreWell }
{}

/// A law: where the functions that a session may call change nothing, as where there is none, a SELECT, a
/// DO and the expressions that the session evaluates leave tables and changes as they were.
pub fn reading_changes_nothing()
    ensures selects { SelectsChangeNothing }
    ensures dos { DosChangeNothing }
    ensures evaluations { EvaluationsChangeNothing }
    ensures functions { NoFunctionChanges }
{}
