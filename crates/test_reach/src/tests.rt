//! Statements over a small catalog, by hand.

use catalog::Catalog;
use log_entries::{Carried, Vars};
use port_traits::{Draw, Identity};
use session_ctx::{Ctx, SessionVars};
use sql_parse::{ParseRefusal, parse};
use sql_print::print;
use sql_tree::{Routine, Stmt, TriggerDef};
use std::alloc::Global;
use tree_copies::{copy_routine, copy_trigger};
use unsafe_rules::{Reasons, carried, reasons, writes};
use val_types::{Boxed, Bytes, List, NoMemory, Value};

/// What is made, and the statement that makes it again.
static OBJECTS: &[(&str, &str)] = &[
    (
        "CREATE TABLE t (id INT, v INT, PRIMARY KEY (id))",
        "CREATE TABLE `t` (`id` INT NOT NULL, `v` INT NULL, PRIMARY KEY (`id`))",
    ),
    (
        "CREATE TABLE l (w VARCHAR(9) DEFAULT 'a', n BIGINT AUTO_INCREMENT PRIMARY KEY, UNIQUE k (n, w))",
        "CREATE TABLE `l` (`w` VARCHAR(9) NULL DEFAULT 'a', `n` BIGINT NOT NULL AUTO_INCREMENT, PRIMARY KEY (`n`), UNIQUE KEY `k` (`n`, `w`))",
    ),
    (
        "CREATE FUNCTION u() RETURNS VARCHAR(36) RETURN uuid()",
        "CREATE FUNCTION `u`() RETURNS VARCHAR(36) RETURN UUID()",
    ),
    (
        "CREATE FUNCTION f(x INT) RETURNS INT BEGIN DELETE FROM l; RETURN @b + LAST_INSERT_ID() + @a; END",
        "CREATE FUNCTION `f`(`x` INT) RETURNS INT BEGIN DELETE FROM `l`; RETURN ((@`b` + LAST_INSERT_ID()) + @`a`); END",
    ),
    (
        "CREATE TRIGGER g AFTER INSERT ON t FOR EACH ROW INSERT INTO l (w) VALUES (u())",
        "CREATE TRIGGER `g` AFTER INSERT ON `t` FOR EACH ROW INSERT INTO `l` (`w`) VALUES (`u`())",
    ),
];

/// Statements with a letter for each reason, and whether they write.
static STATEMENTS: &[(&str, &str, bool)] = &[
    ("SELECT NOW(), @a, LAST_INSERT_ID()", "", false),
    ("SELECT u(), @@server_id", "fv", false),
    ("SELECT FLOOR(RAND() * 2) FROM t LIMIT 1", "fl", false),
    ("SELECT f(1)", "", true),
    ("INSERT INTO t VALUES (1, 1)", "fp", true),
    ("DELETE FROM t", "", true),
    ("UPDATE t SET v = missing() LIMIT 2", "l", true),
    (
        "INSERT INTO l (w) VALUES ('a') ON DUPLICATE KEY UPDATE w = 'b'",
        "k",
        true,
    ),
    (
        "INSERT IGNORE INTO l (w) SELECT v FROM t ON DUPLICATE KEY UPDATE w = 'b'",
        "skiu",
        true,
    ),
    ("REPLACE INTO t SELECT id, v FROM t", "fpr", true),
];

const DRAW: Draw = Draw {
    now: 1_700_000_000,
    sys: 1_700_000_005,
    seed1: 7,
    seed2: 8,
    uuid: [0; 16],
};

/// What a text is read as. No text here is as long as those that are not read.
fn read(alloc: Global, text: &str) -> Result<Stmt, ParseRefusal> {
    if text.len() > 4_294_967_295 {
        return Err(ParseRefusal::NoMemory);
    }
    parse(alloc, text.as_bytes())
}

/// What the tests ask of a statement. Functions that hold one are over this, since the borrows of one that holds a statement are
/// dear to check.
trait Asked {
    /// Whether a copy of it makes its object.
    fn is_added(&self, alloc: Global, catalog: &mut Catalog) -> bool;

    /// Whether it has the reasons of some letters, and writes or not.
    fn is_explained(&self, catalog: &Catalog, letters: &str, writing: bool) -> bool;

    /// Whether an item of it carries what a call of `f` with @c does.
    fn is_carried(&self, alloc: Global, catalog: &Catalog, x: &Ctx) -> bool;

    /// Whether it is printed as a text.
    fn is_printed(&self, alloc: Global, text: &str) -> bool;
}

/// Whether a function in memory of its own is made.
fn is_function_added(catalog: &mut Catalog, function: Result<Boxed<Routine>, NoMemory>) -> bool {
    match function {
        Ok(function) => catalog.add_function(function).is_ok(),
        Err(_) => false,
    }
}

/// Whether a copy of it is.
fn is_function_copied(alloc: Global, catalog: &mut Catalog, routine: &Routine) -> bool {
    match copy_routine(alloc, routine) {
        Ok(copy) => is_function_added(catalog, Boxed::new(alloc, copy)),
        Err(_) => false,
    }
}

/// The same of a trigger.
fn is_trigger_added(catalog: &mut Catalog, trigger: Result<Boxed<TriggerDef>, NoMemory>) -> bool {
    match trigger {
        Ok(trigger) => catalog.add_trigger(trigger).is_ok(),
        Err(_) => false,
    }
}

fn is_trigger_copied(alloc: Global, catalog: &mut Catalog, trigger: &TriggerDef) -> bool {
    match copy_trigger(alloc, trigger) {
        Ok(copy) => is_trigger_added(catalog, Boxed::new(alloc, copy)),
        Err(_) => false,
    }
}

impl Asked for Stmt {
    fn is_added(&self, alloc: Global, catalog: &mut Catalog) -> bool {
        match self {
            Stmt::CreateTable(t) => catalog.add_table(t).is_ok(),
            Stmt::CreateFunction(routine) => is_function_copied(alloc, catalog, routine.get()),
            Stmt::CreateTrigger(trigger) => is_trigger_copied(alloc, catalog, trigger.get()),
            _ => false,
        }
    }

    fn is_explained(&self, catalog: &Catalog, letters: &str, writing: bool) -> bool {
        are(&reasons(self, catalog.objects()), letters)
            && writes(self, catalog.objects()) == writing
    }

    fn is_carried(&self, alloc: Global, catalog: &Catalog, x: &Ctx) -> bool {
        match carried(alloc, self, catalog.objects(), x, Some(4)) {
            Ok(parts) => are_parts(&parts),
            Err(_) => false,
        }
    }

    fn is_printed(&self, alloc: Global, text: &str) -> bool {
        match print(alloc, self) {
            Ok(out) => out.as_slice() == text.as_bytes(),
            Err(_) => false,
        }
    }
}

fn added<T: Asked + Drop>(
    alloc: Global,
    catalog: &mut Catalog,
    answer: Result<T, ParseRefusal>,
) -> bool {
    match answer {
        Ok(s) => s.is_added(alloc, catalog),
        Err(_) => false,
    }
}

fn explained<T: Asked + Drop>(
    catalog: &Catalog,
    answer: Result<T, ParseRefusal>,
    letters: &str,
    writing: bool,
) -> bool {
    match answer {
        Ok(s) => s.is_explained(catalog, letters, writing),
        Err(_) => false,
    }
}

fn carried_by<T: Asked + Drop>(
    alloc: Global,
    catalog: &Catalog,
    x: &Ctx,
    answer: Result<T, ParseRefusal>,
) -> bool {
    match answer {
        Ok(s) => s.is_carried(alloc, catalog, x),
        Err(_) => false,
    }
}

/// Whether an object's statement is printed as a text, which is empty where there is none.
fn printed_as<T: Asked + Drop>(
    alloc: Global,
    answer: Result<Option<T>, NoMemory>,
    text: &str,
) -> bool {
    match answer {
        Ok(Some(s)) => s.is_printed(alloc, text),
        Ok(None) => text == "",
        Err(_) => false,
    }
}

/// How many of the objects are made, in a catalog.
fn make(alloc: Global, catalog: &mut Catalog) -> u32 {
    let mut count = 0;
    for (text, _) in OBJECTS {
        if count < 99 && added(alloc, catalog, read(alloc, text)) {
            count += 1;
        }
    }
    count
}

/// How many objects have the statement that they should have; behind the last one there is none.
fn stated(alloc: Global, catalog: &Catalog) -> u32 {
    let mut at = 0;
    for (_, text) in OBJECTS {
        if at < 99 && printed_as(alloc, catalog.object(alloc, at), text) {
            at += 1;
        }
    }
    if printed_as(alloc, catalog.object(alloc, at), "") {
        at
    } else {
        0
    }
}

/// Whether a letter stands in a text.
fn has(letters: &str, letter: u8) -> bool {
    letters.as_bytes().contains(&letter)
}

/// Whether reasons are those of some letters.
fn are(r: &Reasons, letters: &str) -> bool {
    r.function == has(letters, b'f')
        && r.variable == has(letters, b'v')
        && r.limit == has(letters, b'l')
        && r.counted_select == has(letters, b's')
        && r.counted_program == has(letters, b'p')
        && r.two_keys == has(letters, b'k')
        && r.ignored_select == has(letters, b'i')
        && r.replaced_select == has(letters, b'r')
        && r.updated_select == has(letters, b'u')
        && r.is_empty() == (letters == "")
}

/// The first statement that is not as it should be.
fn first_wrong(alloc: Global, catalog: &Catalog) -> &'static str {
    for (text, letters, writing) in STATEMENTS {
        if !explained(catalog, read(alloc, text), letters, *writing) {
            return text;
        }
    }
    ""
}

/// Whether the variable at a place has a name and a number, NULL for none.
fn is_variable(vars: &Vars, at: usize, name: &[u8], number: Option<i64>) -> bool {
    match (vars.at(at), number) {
        (Some((own, Value::Int(value))), Some(number)) => {
            own.as_slice() == name && *value == number
        }
        (Some((own, Value::Null)), None) => own.as_slice() == name,
        _ => false,
    }
}

/// Whether parts are those that a call of `f` with @c carries.
fn are_parts(c: &Carried) -> bool {
    c.stamp == 1_700_000_000
        && c.connection == 9
        && c.inc == 1
        && c.off == 1
        && c.last_id == Some(0)
        && c.first == Some(4)
        && c.seeds == None
        && c.vars.len() == 3
        && is_variable(&c.vars, 0, b"a", Some(5))
        && is_variable(&c.vars, 1, b"b", None)
        && is_variable(&c.vars, 2, b"c", None)
}

fn bytes(alloc: Global, of: &[u8]) -> Bytes {
    let mut bytes = List::new(alloc);
    let _ = bytes.extend_from_slice(of);
    bytes
}

fn identity(alloc: Global) -> Identity {
    Identity {
        server_id: 3,
        user: bytes(alloc, b"root@localhost"),
    }
}

/// Whether an item carries so in a session in which @a is 5.
fn carries_in(alloc: Global, catalog: &Catalog, session: &mut SessionVars) -> bool {
    let name = bytes(alloc, b"a");
    let is_set = session
        .context
        .set_user_variable(&name, Value::Int(5))
        .is_ok();
    is_set
        && carried_by(
            alloc,
            catalog,
            &session.context,
            read(alloc, "SELECT f(@c) + @c"),
        )
}

fn carries(alloc: Global, catalog: &Catalog) -> bool {
    match SessionVars::new(alloc, &identity(alloc), 9, &DRAW) {
        Ok(mut session) => carries_in(alloc, catalog, &mut session),
        Err(_) => false,
    }
}

#[test]
fn objects_and_statements(rt: HostRuntime) {
    let alloc = rt.alloc();
    let mut catalog = Catalog::new(alloc);
    assert!(rt; make(alloc, &mut catalog) == 5);
    assert!(rt; stated(alloc, &catalog) == 5);
    assert!(rt; first_wrong(alloc, &catalog) == "");
    assert!(rt; carries(alloc, &catalog));
}
