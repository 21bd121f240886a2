//! How a refusal is told.
use crate::tests::common::expect_all;
use sql_parse::ParseRefusal;
use std::alloc::Global;

static REFUSALS: [(ParseRefusal, &str); 3] = [
    (
        ParseRefusal::Syntax { at: 6 },
        "no statement goes on so at byte 6",
    ),
    (ParseRefusal::Deep, "the statement is too deep"),
    (ParseRefusal::NoMemory, "out of memory"),
];

fn is_told(alloc: Global, refusal: ParseRefusal, line: &str) -> bool {
    match format!(in alloc; "{refusal}") {
        Ok(told) => told.as_str() == line,
        Err(_) => false,
    }
}

/// How many refusals from the first on are told so.
fn count_told(alloc: Global) -> usize {
    for (i, (refusal, line)) in REFUSALS.iter().enumerate() {
        if !is_told(alloc, *refusal, *line) {
            return i;
        }
    }
    REFUSALS.len()
}

#[test]
fn refusals_are_told(rt: HostRuntime) {
    expect_all(&rt, "refusals", count_told(rt.alloc()), 3);
}
