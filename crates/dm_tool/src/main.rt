//! `dm_tool`: reads, checks, normalises and writes square Data Matrix symbols (ISO/IEC 16022, ECC 200), as texts.
//!
//! The program takes its task from the command line ([`task_of`]), does it over the standard streams, and ends with a
//! status that says what came of it ([`ending`]). Only the command line allocates memory. What is read and written is
//! `dm_text`'s, whose names are given on here.
#![tactic(auto)]

pub use dm_command::{CallFault, call_ending, ending, laws, task_of};
pub use dm_text::{
    Failed, Fed, FromRead, GridFeed, LineFault, LineFed, LineFeed, Profile, RecordFault, RunFault,
    Sink, Source, Tally, Task, ToWrite, message_from, message_text, run, run_streams,
};
use std::io::Write;
use std::process::ExitCode;
use std::{env, io};

/// Gives the words of the program's own command line. One that isn't UTF-8 makes it a line that names no task.
fn words_of_call(rt: &HostRuntime) -> Result<Vec<String>, CallFault> {
    match env::args(rt) {
        Ok(given) => given.collect(rt.alloc()).or(Err(CallFault::Memory)),
        Err(error) if error.kind() == io::ErrorKind::OutOfMemory => Err(CallFault::Memory),
        Err(_) => Err(CallFault::Usage),
    }
}

/// Gives the task of the program's own command line.
fn task_of_call(rt: &HostRuntime) -> Result<Task, CallFault> {
    let texts = words_of_call(rt)?;
    let mut words = Vec::new(rt.alloc());
    for text in texts.as_slice() {
        if words.push(text.as_str()).is_err() {
            return Err(CallFault::Memory);
        }
    }
    task_of(rt.alloc(), words.as_slice())
}

/// Does a task over the standard streams, and gives the exit status and the line for standard error.
fn do_task(rt: &HostRuntime, task: Task) -> (u8, &'static str) {
    let (mut source, mut sink) = (FromRead::new(rt.stdin()), ToWrite::new(rt.stdout()));
    ending(&run_streams(task, &mut source, &mut sink))
}

/// Writes a line to standard error, unless it is empty. If that fails, nobody is left to be told.
fn report(rt: &HostRuntime, line: &str) {
    if !line.is_empty() {
        let _ = rt.stderr().write_all(line.as_bytes());
        let _ = rt.stderr().write_all(b"\n");
    }
}

fn main(rt: HostRuntime) -> ExitCode {
    let (status, line) = match task_of_call(&rt) {
        Ok(task) => do_task(&rt, task),
        Err(fault) => call_ending(fault),
    };
    report(&rt, line);
    ExitCode::from(status)
}
