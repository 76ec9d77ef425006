//! Data codewords of Data Matrix ECC 200 (ISO/IEC 16022): what a list of data codewords says, in the encodations ASCII,
//! C40, Text, X12 and Base 256, and in a wider [`Extent`] also in EDIFACT, with macros, heads and marks, why other
//! lists are refused, and the codewords in which a message or a content is written.
//!
//! Reading: [`message_of()`] gives the [`Message`] of [`Item`]s that a list spells in the usual extent, or the
//! [`WordFault`] with which the list is refused; [`message_to()`] reads the message into a target.
//!
//! Writing: [`normal_words_to()`] writes the codewords of a message under a [`Profile`] into a target, or says that
//! they are [`TooLong`]. Under one profile they are ASCII ([`ascii_words()`]), under the other whatever is shorter,
//! ASCII or one segment of Base 256 ([`shorter_words()`]). [`padded()`] gives codewords with pads up to the data
//! codewords of a size; [`add_pads()`] adds them in a target, up to its end.
//!
//! Contents: [`content_to_as()`] reads the [`Content`] that a list says in an extent into a target, which is a [`Head`]
//! or none, items and [`Mark`]s, or gives the [`ContentFault`] with which the list is refused. [`content_words_to()`]
//! writes the codewords of a content, and [`smallest_words_to()`] some of the smallest size of a choice that has any
//! that say it in an extent. [`designations_to()`] tells where the designators of a content stand among its codewords,
//! and [`eci_count()`] how many there may be.
//!
//! Limits: up to [`MOST_DATA`] codewords are read and written. A square has up to [`MOST_GRID_DATA`], for which a
//! [`Message`] or a [`Content`] serves: it has room for [`MESSAGE_ROOM`] items, of which the usual extent takes
//! [`MOST_ITEMS`], and for [`MOST_MARKS`] marks. A [`MessageIn`] and a [`ContentIn`] have any room; for every symbol
//! [`LARGEST_ROOM`] and [`LARGEST_MARKS`] are enough.
//!
//! A *target* is memory that the caller hands in. What the contracts say is defined in `specs/`; [`laws`] has what
//! holds of the definitions. No call allocates memory.
#![tactic(auto)]

mod ascii;
mod base256;
mod c40;
mod codeword;
pub mod content_laws;
mod contents;
mod edifact;
mod extent;
mod fault;
mod held;
mod item;
pub mod laws;
mod limits;
mod macros;
mod message;
mod normal_form;
mod numbers;
mod pad;
mod profile;
mod reading;
mod smallest;

pub use contents::content::{Content, ContentIn};
pub use contents::designation::{designations_to, eci_count, has_eci};
pub use contents::designator::MOST_ASSIGNED;
pub use contents::fault::ContentFault;
pub use contents::head::{Appended, Head};
pub use contents::mark::Mark;
pub use contents::normal_form::content_words_to;
pub use contents::reading::content_to_as;
pub use contents::symbology::symbology_number;
pub use dm_layout::MOST_GRID_DATA;
pub use dm_layout::symbols::MOST_DATA;
pub use extent::Extent;
pub use fault::{TooLong, WordFault};
pub use item::Item;
pub use limits::{LARGEST_MARKS, LARGEST_ROOM, MESSAGE_ROOM, MOST_ITEMS, MOST_MARKS};
pub use message::{Message, MessageIn};
pub use normal_form::{ascii_words, normal_words_to, shorter_words};
pub use pad::{add_pads, padded};
pub use profile::Profile;
pub use reading::{message_of, message_to};
pub use smallest::smallest_words_to;
