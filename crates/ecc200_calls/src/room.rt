//! Rooms for the work with a symbol. All of a room is cleared when it is made; so a call works in the smallest of four
//! that serves.

ghost use Rattle.std.specs.Prelude.{◌≡◌, ◌≤◌};
ghost use Rattle.ecc200_calls.specs.inner.Rooms.{HasRoom};

use dm_layout::symbols::{MOST_CODEWORDS, MOST_ROWS, SymbolSize};
use dm_words::{LARGEST_ROOM, MESSAGE_ROOM, MOST_MARKS};

/// The marks of a content for which the largest room has room: those that any symbol says.
pub(crate) use dm_words::LARGEST_MARKS;

/// The most data codewords of a symbol for which the small room serves. All symbols with at most 1,024 modules have no
/// more, squares up to side 32 and most rectangles, and no others.
pub(crate) const SMALL_DATA: usize = 62;

/// The rows of modules, the codewords and the items of a message for which the small room has room.
pub(crate) const SMALL_ROWS: usize = 32;

pub(crate) const SMALL_WORDS: usize = 98;

pub(crate) const SMALL_ITEMS: usize = 131;

/// The marks of a content for which the small room has room.
pub(crate) const SMALL_MARKS: usize = 31;

/// The most data codewords of a symbol for which the fair room serves: of squares up to side 52 and of all rectangles.
pub(crate) const FAIR_DATA: usize = 204;

/// The same for the fair room.
pub(crate) const FAIR_ROWS: usize = 52;

pub(crate) const FAIR_WORDS: usize = 288;

pub(crate) const FAIR_ITEMS: usize = 415;

pub(crate) const FAIR_MARKS: usize = 102;

/// The most data codewords of a symbol for which the middle room serves: of all symbols but the three largest squares.
pub(crate) const MIDDLE_DATA: usize = 816;

/// The same for the middle room.
pub(crate) const MIDDLE_ROWS: usize = 104;

pub(crate) const MIDDLE_WORDS: usize = 1152;

pub(crate) const MIDDLE_ITEMS: usize = MESSAGE_ROOM;

pub(crate) const MIDDLE_MARKS: usize = MOST_MARKS;

/// The same for the largest room, which serves for every symbol.
pub(crate) const LARGEST_ROWS: usize = MOST_ROWS;

pub(crate) const LARGEST_WORDS: usize = MOST_CODEWORDS;

pub(crate) const LARGEST_ITEMS: usize = LARGEST_ROOM;

/// A room for the work with a symbol: for so many rows of modules, codewords, and items of a message.
#[derive(Clone, Copy)]
pub(crate) enum Room {
    Small,
    Fair,
    Middle,
    Largest,
}

impl Room {
    /// Gives the room for the work with a symbol of this size.
    #[tactic(auto, using(crate::proofs::Rooms::rooms))]
    pub(crate) fn of(size: SymbolSize) -> Room
        ensures small { result ≡ Room.Small → HasRoom SMALL_ROWS SMALL_WORDS SMALL_ITEMS SMALL_MARKS
            size }
        ensures fair { result ≡ Room.Fair
            → HasRoom FAIR_ROWS FAIR_WORDS FAIR_ITEMS FAIR_MARKS size }
        ensures middle { result ≡ Room.Middle
            → HasRoom MIDDLE_ROWS MIDDLE_WORDS MIDDLE_ITEMS MIDDLE_MARKS
            size }
        ensures largest { HasRoom LARGEST_ROWS LARGEST_WORDS LARGEST_ITEMS LARGEST_MARKS
            size }
    {
        // For the proof alone: what `rows` ensures says that the size stands in the table.
        let _rows = size.rows();
        let words = usize::from(size.data_count());
        if words <= SMALL_DATA {
            Room::Small
        } else if words <= FAIR_DATA {
            Room::Fair
        } else if words <= MIDDLE_DATA {
            Room::Middle
        } else {
            Room::Largest
        }
    }

    /// Gives the room for a message of so many items.
    pub(crate) fn of_items(count: usize) -> Room
        requires { count ≤ LARGEST_ITEMS }
        ensures small { result ≡ Room.Small → count ≤ SMALL_ITEMS }
        ensures fair { result ≡ Room.Fair → count ≤ FAIR_ITEMS }
        ensures middle { result ≡ Room.Middle → count ≤ MIDDLE_ITEMS }
    {
        if count <= SMALL_ITEMS {
            Room::Small
        } else if count <= FAIR_ITEMS {
            Room::Fair
        } else if count <= MIDDLE_ITEMS {
            Room::Middle
        } else {
            Room::Largest
        }
    }

    /// Gives the room for a content of so many items and marks.
    pub(crate) fn of_counts(items: usize, marks: usize) -> Room
        requires items { items ≤ LARGEST_ITEMS }
        requires marks { marks ≤ LARGEST_MARKS }
        ensures small { result ≡ Room.Small → (items ≤ SMALL_ITEMS) × (marks ≤ SMALL_MARKS) }
        ensures fair { result ≡ Room.Fair → (items ≤ FAIR_ITEMS) × (marks ≤ FAIR_MARKS) }
        ensures middle { result ≡ Room.Middle → (items ≤ MIDDLE_ITEMS) × (marks ≤ MIDDLE_MARKS) }
    {
        if items <= SMALL_ITEMS && marks <= SMALL_MARKS {
            Room::Small
        } else if items <= FAIR_ITEMS && marks <= FAIR_MARKS {
            Room::Fair
        } else if items <= MIDDLE_ITEMS && marks <= MIDDLE_MARKS {
            Room::Middle
        } else {
            Room::Largest
        }
    }
}

/// Does work in a room, which is called with what it names of the room: the rows, codewords, items, marks.
macro_rules! in_room {
    ($room:expr, $work:ident::<$($size:tt),*>$given:tt) => {
        match $room {
            Room::Small => sized!($work[$($size)*]$given, SMALL_ROWS, SMALL_WORDS, SMALL_ITEMS, SMALL_MARKS),
            Room::Fair => sized!($work[$($size)*]$given, FAIR_ROWS, FAIR_WORDS, FAIR_ITEMS, FAIR_MARKS),
            Room::Middle => sized!($work[$($size)*]$given, MIDDLE_ROWS, MIDDLE_WORDS, MIDDLE_ITEMS, MIDDLE_MARKS),
            Room::Largest => sized!($work[$($size)*]$given, LARGEST_ROWS, LARGEST_WORDS, LARGEST_ITEMS, LARGEST_MARKS),
        }
    };
}

/// Calls work with those of a room's sizes that it names.
macro_rules! sized {
    ($work:ident[ROWS WORDS ITEMS MARKS]$given:tt, $rows:ident, $words:ident, $items:ident, $marks:ident) => {
        $work::<$rows, $words, $items, $marks>$given
    };
    ($work:ident[_ ROWS WORDS ITEMS MARKS]$given:tt, $rows:ident, $words:ident, $items:ident, $marks:ident) => {
        $work::<_, $rows, $words, $items, $marks>$given
    };
    ($work:ident[ROWS WORDS]$given:tt, $rows:ident, $words:ident, $items:ident, $marks:ident) => {
        $work::<$rows, $words>$given
    };
    ($work:ident[_ ITEMS MARKS]$given:tt, $rows:ident, $words:ident, $items:ident, $marks:ident) => {
        $work::<_, $items, $marks>$given
    };
    ($work:ident[_ ITEMS 0]$given:tt, $rows:ident, $words:ident, $items:ident, $marks:ident) => {
        $work::<_, $items, 0>$given
    };
}

pub(crate) use in_room;
pub(crate) use sized;
