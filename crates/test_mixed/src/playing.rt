//! Scripts over a source and a replica that is told who it is, and the log that they leave.

use disk_model::MemDisk;
use port_traits::{Draw, Identity, MemEnv, MemSink, MemSource};
use repl_run::{top, write_log};
use run_streams::empty_report;
use std::alloc::Global;
use std::process::Abort;
use val_types::{Bytes, List};

/// Who a node is and what it draws: its server and user, the moment of its first draw, its seeds, and the number of its first identifier.
pub struct Node {
    server_id: u32,
    user: &'static str,
    moment: u32,
    seed1: u64,
    seed2: u64,
    identifier: u32,
}

/// The source.
static SOURCE: Node = Node {
    server_id: 1,
    user: "root@localhost",
    moment: 1_700_000_000,
    seed1: 1,
    seed2: 2,
    identifier: 0,
};

/// A replica near it, and two that are far from it in all.
pub static NEAR: Node = Node {
    server_id: 2,
    user: "rep@localhost",
    moment: 1_600_000_000,
    seed1: 7,
    seed2: 9,
    identifier: 1000,
};

pub static FAR: Node = Node {
    server_id: 77,
    user: "someone.else@far.host",
    moment: 5,
    seed1: 1_073_741_821,
    seed2: 3,
    identifier: 4_000_000_000,
};

pub static LAST: Node = Node {
    server_id: 4_294_967_295,
    user: "x",
    moment: 2_147_483_000,
    seed1: 0,
    seed2: 0,
    identifier: 0,
};

/// How many draws a node has, more than any script here has commands.
const DRAWS: u32 = 40;

/// Bytes with memory of their own. What wants memory is left out, and then a test fails.
fn bytes(alloc: Global, of: &[u8]) -> Bytes {
    let mut bytes = List::new(alloc);
    let _ = bytes.extend_from_slice(of);
    bytes
}

/// Texts, one behind the other.
pub fn joined(alloc: Global, parts: &[&str]) -> Bytes {
    let mut all = List::new(alloc);
    for part in parts {
        let _ = all.extend_from_slice(part.as_bytes());
    }
    all
}

/// Puts a number in decimal at the end, and words behind it.
pub fn put_line(alloc: Global, text: &mut Bytes, number: usize, words: &str) {
    if let Ok(number) = number.to_string(alloc) {
        let _ = text.extend_from_slice(number.as_bytes());
    }
    let _ = text.extend_from_slice(words.as_bytes());
}

/// A number as the sixteen bytes of an identifier, the most significant first.
fn identifier_of(number: u32) -> [u8; 16] {
    let [a, b, c, d] = number.to_be_bytes();
    [0, 0, 0, 0, 0, 0, 0, 0, 0, 0, 0, 0, a, b, c, d]
}

/// The n-th draw of a node: so many seconds behind the first one, with an identifier as much greater.
fn draw(node: &Node, n: u32) -> Draw {
    let now = node.moment.saturating_add(n);
    Draw {
        now,
        sys: now,
        seed1: node.seed1,
        seed2: node.seed2,
        uuid: identifier_of(node.identifier.saturating_add(n)),
    }
}

fn environment(alloc: Global, node: &Node) -> Option<MemEnv> {
    let identity = Identity {
        server_id: node.server_id,
        user: bytes(alloc, node.user.as_bytes()),
    };
    let mut draws = List::new(alloc);
    for n in 0..DRAWS {
        let _ = draws.push(draw(node, n));
    }
    if 0 < draws.len() {
        Some(MemEnv::new(identity, draws))
    } else {
        None
    }
}

/// All that a call of the program works on.
#[derive(Drop)]
struct Stage {
    words: Vec<String>,
    source: MemEnv,
    replica: MemEnv,
    input: MemSource,
    out: MemSink,
}

/// A word as the words of a command line.
fn words_of(alloc: Global, word: &str) -> Vec<String> {
    let mut words = Vec::new(alloc);
    if let Ok(word) = String::from_str(alloc, word) {
        let _ = words.push(word);
    }
    words
}

fn stage_of(alloc: Global, word: &str, input: &[u8], replica: &Node) -> Option<Stage> {
    let source = environment(alloc, &SOURCE)?;
    let replica = environment(alloc, replica)?;
    Some(Stage {
        words: words_of(alloc, word),
        source,
        replica,
        input: MemSource::new(bytes(alloc, input), List::new(alloc)),
        out: MemSink::new(alloc, List::new(alloc)),
    })
}

/// A call of the program, the number of its status. It says nothing of what comes out, so that tests are checked without the clauses
/// of `top`.
fn called(alloc: Global, stage: &mut Stage) -> u8 {
    let status = top(
        alloc,
        stage.words.as_slice(),
        &mut stage.input,
        &mut stage.out,
        &mut MemDisk::new(alloc),
        &mut MemDisk::new(alloc),
        &mut stage.source,
        &mut stage.replica,
        &mut empty_report(alloc),
    );
    status.number()
}

/// The writing of a log, of which nothing is said either.
fn logged(alloc: Global, stage: &mut Stage) -> u8 {
    let status = write_log(
        alloc,
        &mut stage.input,
        &mut stage.out,
        &mut MemDisk::new(alloc),
        &mut MemDisk::new(alloc),
        &mut stage.source,
        &mut stage.replica,
        &mut empty_report(alloc),
    );
    status.number()
}

/// What a word over an input writes with this replica, and whether it ends well.
pub fn written_by(alloc: Global, word: &str, input: &[u8], replica: &Node) -> (Bytes, bool) {
    match stage_of(alloc, word, input, replica) {
        Some(mut stage) => {
            let number = called(alloc, &mut stage);
            (bytes(alloc, stage.out.written().as_slice()), number == 0)
        }
        None => (List::new(alloc), false),
    }
}

/// Whether a word over an input ends well and writes these lines.
pub fn writes(alloc: Global, word: &str, input: &[u8], replica: &Node, lines: &[u8]) -> bool {
    let (written, well) = written_by(alloc, word, input, replica);
    well && written.as_slice() == lines
}

/// The log that a script leaves at the source.
pub fn log_of(alloc: Global, script: &[u8]) -> Bytes {
    match stage_of(alloc, "log", script, &NEAR) {
        Some(mut stage) => {
            let _ = logged(alloc, &mut stage);
            bytes(alloc, stage.out.written().as_slice())
        }
        None => List::new(alloc),
    }
}

/// Whether a script runs to its end with this replica and writes these lines.
pub fn runs(alloc: Global, replica: &Node, script: &[u8], lines: &[u8]) -> bool {
    writes(alloc, "run", script, replica, lines)
}

/// How many scripts behind such a front do so and write their lines behind the front's, from the first on.
pub fn held(
    alloc: Global,
    replica: &Node,
    front: &str,
    made: &str,
    rows: &[(&str, &str)],
) -> usize {
    for (i, (script, lines)) in rows.iter().enumerate() {
        let script = joined(alloc, &[front, *script]);
        let lines = joined(alloc, &[made, *lines]);
        if !runs(alloc, replica, script.as_slice(), lines.as_slice()) {
            return i;
        }
    }
    rows.len()
}

/// Expects of a table that all its cases hold.
pub fn expect_all(rt: &impl Abort, of: &str, held: usize, cases: usize) {
    assert_eq!(rt; held, cases, "{of}");
}
