//! CALLs by hand.
use crate::carrying::{Ends, Trial, comes_out};
use crate::listing::Told;
use std::test::Fail;

/// A table, and what stands in some trials.
const TABLE: &str = "CREATE TABLE t (id INT, v INT, PRIMARY KEY (id))";

const COUNTS: &str =
    "CREATE PROCEDURE w(n INT) BEGIN DECLARE i INT DEFAULT 0; WHILE i < n DO SET i = i + 1; END WHILE; END";

/// How many turns of WHILE a command has.
const TURNS: u32 = 1_000_000;

/// A CALL that asks nothing and affects nothing.
const NOTHING: Trial<'static> = Trial {
    made: &[],
    name: "p",
    arguments: &[],
    turns: TURNS,
    told: &[],
    asked: &[],
    sets: 0,
    ends: Ends::Affected(0),
    left: TURNS,
};

/// Three turns: the condition is asked four times.
static THREE_TURNS: Trial<'static> = Trial {
    made: &[COUNTS],
    name: "w",
    arguments: &[3],
    told: &[
        Told::Gives(0),
        Told::Gives(1),
        Told::Gives(1),
        Told::Gives(1),
        Told::Gives(2),
        Told::Gives(1),
        Told::Gives(3),
        Told::Gives(0),
    ],
    asked: &[
        "DO 0",
        "DO (`i` < `n`)",
        "DO (`i` + 1)",
        "DO (`i` < `n`)",
        "DO (`i` + 1)",
        "DO (`i` < `n`)",
        "DO (`i` + 1)",
        "DO (`i` < `n`)",
    ],
    left: 999_997,
    ..NOTHING
};

/// With two turns left, the third is refused, and the two are spent.
static TOO_MANY_TURNS: Trial<'static> = Trial {
    made: &[COUNTS],
    name: "w",
    arguments: &[3],
    turns: 2,
    told: &[
        Told::Gives(0),
        Told::Gives(1),
        Told::Gives(1),
        Told::Gives(1),
        Told::Gives(2),
        Told::Gives(1),
    ],
    asked: &[
        "DO 0",
        "DO (`i` < `n`)",
        "DO (`i` + 1)",
        "DO (`i` < `n`)",
        "DO (`i` + 1)",
        "DO (`i` < `n`)",
    ],
    ends: Ends::Refused(30004),
    left: 0,
    ..NOTHING
};

/// Where a local hides a name, its value is run.
static CLOSED: Trial<'static> = Trial {
    made: &[
        TABLE,
        "CREATE PROCEDURE p(v INT) BEGIN INSERT INTO t VALUES (1, 7); UPDATE t SET v = v + 1 WHERE id = 1; END",
    ],
    arguments: &[-5],
    told: &[Told::Did(1), Told::Did(1)],
    asked: &[
        "INSERT INTO `t` VALUES (1, 7)",
        "UPDATE `t` SET `v` = (NAME_CONST('v', -5) + 1) WHERE (`id` = 1)",
    ],
    ends: Ends::Affected(2),
    ..NOTHING
};

/// An error in the third statement: the fourth is not run.
static THIRD_REFUSED: Trial<'static> = Trial {
    made: &[
        TABLE,
        "CREATE PROCEDURE p() BEGIN INSERT INTO t VALUES (1, 1); SELECT 2; INSERT INTO t VALUES (1, 3); DO 4; END",
    ],
    told: &[
        Told::Did(1),
        Told::Shows(2),
        Told::Refuses(1062),
        Told::Did(9),
    ],
    asked: &[
        "INSERT INTO `t` VALUES (1, 1)",
        "SELECT 2",
        "INSERT INTO `t` VALUES (1, 3)",
    ],
    sets: 1,
    ends: Ends::Refused(1062),
    ..NOTHING
};

/// A procedure that calls itself: its argument is evaluated before that is seen.
static RUNNING_ALREADY: Trial<'static> = Trial {
    made: &["CREATE PROCEDURE p(n INT) BEGIN CALL p(n + 1); END"],
    arguments: &[1],
    told: &[Told::Gives(2)],
    asked: &["DO (`n` + 1)"],
    ends: Ends::Refused(1456),
    ..NOTHING
};

/// Another number of arguments than parameters.
static MISCOUNTED: Trial<'static> = Trial {
    made: &[COUNTS],
    name: "w",
    ends: Ends::Refused(1318),
    ..NOTHING
};

/// Seventeen procedures, each of which but the last calls the next.
const CHAIN: &[&str] = &[
    "CREATE PROCEDURE c1() CALL c2()",
    "CREATE PROCEDURE c2() CALL c3()",
    "CREATE PROCEDURE c3() CALL c4()",
    "CREATE PROCEDURE c4() CALL c5()",
    "CREATE PROCEDURE c5() CALL c6()",
    "CREATE PROCEDURE c6() CALL c7()",
    "CREATE PROCEDURE c7() CALL c8()",
    "CREATE PROCEDURE c8() CALL c9()",
    "CREATE PROCEDURE c9() CALL c10()",
    "CREATE PROCEDURE c10() CALL c11()",
    "CREATE PROCEDURE c11() CALL c12()",
    "CREATE PROCEDURE c12() CALL c13()",
    "CREATE PROCEDURE c13() CALL c14()",
    "CREATE PROCEDURE c14() CALL c15()",
    "CREATE PROCEDURE c15() CALL c16()",
    "CREATE PROCEDURE c16() CALL c17()",
    "CREATE PROCEDURE c17() DO 1",
];

/// Sixteen run one inside the other.
static DEEP: Trial<'static> = Trial {
    made: CHAIN,
    name: "c2",
    told: &[Told::Did(0)],
    asked: &["DO 1"],
    ..NOTHING
};

/// The seventeenth does not.
static TOO_DEEP: Trial<'static> = Trial {
    made: CHAIN,
    name: "c1",
    ends: Ends::Refused(30003),
    ..NOTHING
};

const SETS: &str = "CREATE PROCEDURE p() BEGIN DECLARE a INT; SET @x = 1, a = 2147483648; END";

/// Where one value does not fit, nothing is assigned.
static UNFIT: Trial<'static> = Trial {
    made: &[SETS],
    told: &[Told::GivesTwo(1, 2_147_483_648)],
    asked: &["DO 1, 2147483648"],
    ends: Ends::Refused(1264),
    ..NOTHING
};

/// Where all fit, the user variable is assigned.
static FIT: Trial<'static> = Trial {
    made: &[SETS],
    told: &[Told::GivesTwo(1, 5)],
    asked: &["DO 1, 2147483648", "x"],
    ..NOTHING
};

/// A device of the runner fails.
static FAILED: Trial<'static> = Trial {
    made: &["CREATE PROCEDURE p() BEGIN DO 1; DO 2; END"],
    told: &[Told::Fails, Told::Did(0)],
    asked: &["DO 1"],
    ends: Ends::Failed,
    ..NOTHING
};

#[test]
fn loops_spend_turns(rt: HostRuntime) -> Result<(), Fail> {
    assert!(rt; comes_out(rt.alloc(), &THREE_TURNS)?);
    assert!(rt; comes_out(rt.alloc(), &TOO_MANY_TURNS)?);
    Ok(())
}

#[test]
fn statements_are_run_until_an_error(rt: HostRuntime) -> Result<(), Fail> {
    assert!(rt; comes_out(rt.alloc(), &CLOSED)?);
    assert!(rt; comes_out(rt.alloc(), &THIRD_REFUSED)?);
    assert!(rt; comes_out(rt.alloc(), &FAILED)?);
    Ok(())
}

#[test]
fn calls_are_refused(rt: HostRuntime) -> Result<(), Fail> {
    assert!(rt; comes_out(rt.alloc(), &RUNNING_ALREADY)?);
    assert!(rt; comes_out(rt.alloc(), &MISCOUNTED)?);
    Ok(())
}

#[test]
fn sixteen_run_one_inside_the_other(rt: HostRuntime) -> Result<(), Fail> {
    assert!(rt; comes_out(rt.alloc(), &DEEP)?);
    assert!(rt; comes_out(rt.alloc(), &TOO_DEEP)?);
    Ok(())
}

#[test]
fn sets_assign_all_or_nothing(rt: HostRuntime) -> Result<(), Fail> {
    assert!(rt; comes_out(rt.alloc(), &UNFIT)?);
    assert!(rt; comes_out(rt.alloc(), &FIT)?);
    Ok(())
}
