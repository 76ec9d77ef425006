//! The command line of the program `dm_tool`: which task it names, and how the program ends.
//!
//! [`task_of`] takes the words as clap reads them. [`ending`] and [`call_ending`] give the exit status and the line on
//! standard error. The program itself, `dm_tool`, is a thin `main` above them. Only the command line allocates memory.
#![tactic(auto)]

mod command_line;
mod endings;
mod fault;
pub mod laws;

pub use command_line::task_of;
pub use endings::{call_ending, ending};
pub use fault::CallFault;
