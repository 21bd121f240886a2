//! The pages that a program shows in place of doing its work.
ghost use Rattle.std.specs.Prelude.{◌≡◌, map, string_bytes};
ghost use Rattle.std.specs.Str.{bytes_eq};
ghost use Rattle.repl_run.specs.Pages.{page_asked, page_of};

use crate::command_line::Known;

/// A page: how the program is called, or which version it is.
#[derive(Clone, Copy, PartialEq, Eq, Debug)]
pub enum Page {
    Help,
    Version,
}

/// How the program is called: the words that every program has.
const WORDS_HELP: &str = "A MySQL 5.7 source and replica for a subset of SQL.

usage: run < SCRIPT      carries out the script on standard input, by a source and a replica that go on with what their disks have
       replay < LOG      carries out the binary log on standard input by the replica, which goes on where its disk stands
       print < LOG       shows the binary log on standard input, a line for each event
       dump source       shows what the source's disk has: the CREATE statement of each object, the rows of each table
       dump replica      shows what the replica's disk has
       gen N             writes a script that makes N changes, from 1 to 100000
";

/// The word that some programs have.
const LOG_HELP: &str =
    "       log < SCRIPT      carries out the script, and writes the source's binary log in place of answers\n";

/// All behind the words.
const REST_OF_HELP: &str = "       --help            shows this page
       --version         shows the version

A script is a list of commands `actor: text //`, each with its `//` at the end of a line:
    s1: CREATE TABLE t (id INT, v INT, PRIMARY KEY (id)) //
    s2: INSERT INTO t VALUES (1, 10) //
    replica: FETCH 1000 //
    replica: APPLY 2 //
    replica: SELECT * FROM t //
Actors are the sessions s1 to s99 of the source, whose texts are statements, and the replica, which fetches so many bytes
of the source's log, applies so many groups of them, and shows its rows. `source: RESTART` and `replica: RESTART` open a node
again on what its disk has. Each command is answered on standard output before the next is carried out, and what it committed or
applied is on its node's disk by then: the folders `source` and `replica` where the program is called. Behind a replay stands how
many groups were carried out, and the place behind them.

Exit status, with a line on standard error but for 0:
    0 done              1 bad words         2 bad script
    3 read fault        4 write fault       5 source disk fault
    6 replica disk fault                    7 source damaged
    8 replica damaged   9 log damaged      10 log foreign
   11 differs          12 out of memory

REPL_SERVER_ID in the environment is the number of the source's server, from 1 to 4294967295 in decimal digits; without it,
or where it is anything else, the number is 1. The replica is server 2.
";

/// Which version the program is.
const VERSION: &str = "cedarchisel 0.5.0 (statements of MySQL 5.7, log version 4)\n";

impl Page {
    /// The text of the page for a program that has these words, part by part.
    pub fn parts(self, known: Known) -> [&'static str; 3] {
        match (self, known) {
            (Page::Help, Known::Plain) => [WORDS_HELP, "", REST_OF_HELP],
            (Page::Help, Known::WithLog) => [WORDS_HELP, LOG_HELP, REST_OF_HELP],
            (Page::Version, _) => [VERSION, "", ""],
        }
    }
}

/// The page that a word asks for.
fn page_of(word: &str) -> Option<Page>
    ensures { result ≡ page_of word.now }
{
    if word == "--help" {
        Some(Page::Help)
    } else if word == "--version" {
        Some(Page::Version)
    } else {
        None
    }
}

/// The page that the words ask for, by the first of them.
pub fn page_asked(words: &[String]) -> Option<Page>
    ensures { result ≡ page_asked (map string_bytes words.now) }
{
    match words {
        [] => None,
        [word, ..] => page_of(word.as_str()),
    }
}
