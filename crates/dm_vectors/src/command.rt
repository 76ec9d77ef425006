//! How the program ends. Its command lines are tried by `tests/program`: here their parser would be proved as linked,
//! and compiled, once more.

use crate::claims::holds;
use dm_command::{CallFault, call_ending, ending};
use dm_text::{RunFault, Tally};
use std::alloc::Global;
use std::fmt::Display;

/// A fault as text is this line.
fn is_shown<T: Display>(alloc: Global, fault: &T, line: &str) -> bool {
    match fault.to_string(alloc) {
        Ok(text) => text.as_str() == line,
        Err(_) => false,
    }
}

/// A run that ends so has this status and this line.
fn ends(outcome: Result<Tally, RunFault>, status: u8, line: &str) -> bool {
    let (found, shown) = ending(&outcome);
    found == status && shown == line
}

/// A run that answers and refuses so many has this status, and no line.
fn tally_ends(row: &(u64, u64, u8)) -> bool {
    let (answered, refused, status) = *row;
    ends(Ok(Tally { answered, refused }), status, "")
}

/// A call that ends so has this status and this line.
fn call_ends(fault: CallFault, status: u8, line: &str) -> bool {
    let (found, shown) = call_ending(fault);
    found == status && shown == line
}

static TALLIES: [(u64, u64, u8); 6] = [
    (0, 0, 0),
    (3, 0, 0),
    (0, 1, 1),
    (3, 2, 1),
    (u64::MAX, 0, 0),
    (0, u64::MAX, 1),
];

static RUN_FAULTS: [(RunFault, &str); 3] = [
    (RunFault::Read, "dm_tool: read failed"),
    (RunFault::Write, "dm_tool: write failed"),
    (RunFault::TooMuchInput, "dm_tool: too much input"),
];

static CALL_FAULTS: [(CallFault, u8, &str); 2] = [
    (
        CallFault::Usage,
        2,
        "dm_tool: usage: dm_tool read|check [--border N] | normal [--border N] [--shorter] | write [--shorter] | table",
    ),
    (CallFault::Memory, 3, "dm_tool: no memory"),
];

#[test]
fn runs_end_with_status_and_line(rt: HostRuntime) {
    for row in &TALLIES {
        holds(&rt, tally_ends(row));
    }
    for (fault, line) in &RUN_FAULTS {
        holds(&rt, ends(Err(*fault), 3, line));
        holds(&rt, is_shown(rt.alloc(), fault, line));
    }
}

#[test]
fn calls_end_with_status_and_line(rt: HostRuntime) {
    for (fault, status, line) in &CALL_FAULTS {
        holds(&rt, call_ends(*fault, *status, line));
        holds(&rt, is_shown(rt.alloc(), fault, line));
    }
}
