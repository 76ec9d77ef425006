//! Texts of square Data Matrix symbols (ISO/IEC 16022, ECC 200), and the answers to them.
//!
//! A text of grids comes as records of lines of 0 and 1, a text of messages as lines. [`run`] answers each record or
//! line; the feeds [`GridFeed`] and [`LineFeed`] cut texts that come in pieces. What the contracts say is defined in
//! `specs/`: `Runs` and `Answers` for what is written, `Records` and `MessageLines` for what is read. No call allocates
//! memory.
#![tactic(auto)]

mod answer;
mod answering;
mod device;
mod gathering;
mod grid_feed;
pub mod laws;
mod line_feed;
mod message_line;
mod open_line;
mod printed;
mod record;
mod refusal;
mod row_part;
mod rows;
mod running;
mod sink;
mod source;
mod spelling;
mod streams;
mod table;
mod task;
mod text;

pub use device::Failed;
pub use dm_symbol::{Grid, Item, MESSAGE_ROOM, MOST_ITEMS, Message, Profile};
pub use grid_feed::{Fed, GridFeed};
pub use line_feed::{LineFed, LineFeed};
pub use message_line::{LineFault, MOST_TEXT, message_from, message_text};
pub use record::RecordFault;
pub use running::run;
pub use sink::{Sink, ToWrite};
pub use source::{FromRead, Source};
pub use streams::run_streams;
pub use task::{READ_FAILED, RunFault, TOO_MUCH_INPUT, Tally, Task, WRITE_FAILED};
