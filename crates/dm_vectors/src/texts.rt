//! Texts: records, message lines and the feeds that cut them, devices, and what a run over them writes.

mod devices;
mod feeds;
mod memory;
mod running;
mod worked;
