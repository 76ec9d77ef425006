//! Contents.

ghost use Rattle.std.specs.Prelude.{◌≡◌, ◌<◌, ◌≤◌, ◌++◌, ◌∷◌, [], length, None, OnOk, OnErr, IfErr, IsOk, ◌↔◌};
ghost use Rattle.dm_words.specs.Heads.{IsHead};
ghost use Rattle.dm_words.specs.Contents.{IsContent, AreMarks, with_mark};

use crate::contents::designator::MOST_ASSIGNED;
use crate::contents::head::Head;
use crate::contents::mark::{Mark, add_mark};
use crate::held::add;
use crate::item::Item;
use crate::limits::{LARGEST_ROOM, MESSAGE_ROOM, MOST_MARKS};
use std::fmt;
use std::marker::Model;

/// A head or none, items, and marks: at most `ROOM` items and `MARKS` marks, in order, each at a place of the items. In
/// contracts it is the `ContentView` (`specs/Contents.antt`). What a symbol of any shape says has at most
/// [`LARGEST_ROOM`] items and [`LARGEST_MARKS`](crate::LARGEST_MARKS) marks.
#[derive(Clone, Drop)]
pub struct ContentIn<const ROOM: usize, const MARKS: usize> {
    pub(crate) head: Option<Head>,
    pub(crate) items: [Item; ROOM],
    pub(crate) held: usize,
    pub(crate) marks: [Mark; MARKS],
    pub(crate) marked: usize,
}

/// A content that has room for what each square says, up to the largest of 104 x 104.
pub type Content = ContentIn<MESSAGE_ROOM, MOST_MARKS>;

impl<const ROOM: usize, const MARKS: usize> Model for ContentIn<ROOM, MARKS> {
    ghost use Rattle.dm_words.specs.Contents.{ContentView};
    ghost use Rattle.dm_words.specs.inner.Held.{held_content, IsHeld};

    ghost Value = { ContentView };

    ghost view = { λ l. held_content l.head l.held l.items l.marked l.marks };

    ghost invariant = { λ l. IsHeld ROOM MARKS l.head l.held l.items l.marked l.marks };
}

impl<const ROOM: usize, const MARKS: usize> ContentIn<ROOM, MARKS> {
    /// Makes the content without a head, items and marks.
    pub fn new() -> Self
        ensures { result ≡ record { head = None; items = []; marks = [] } }
    {
        ContentIn {
            head: None,
            items: [Item::Fnc1; ROOM],
            held: 0,
            marks: [Mark {
                place: 0,
                number: 0,
            }; MARKS],
            marked: 0,
        }
    }

    /// Takes the head, all items and all marks away.
    pub fn clear(&mut self)
        ensures { self.new ≡ record { head = None; items = []; marks = [] } }
    {
        // For the proof alone, which has to be told of items.
        let _items = self.items();
        self.head = None;
        self.held = 0;
        self.marked = 0;
    }

    /// Gives the content this head, or none. [`Appended::is_right()`](crate::Appended::is_right) says whether the
    /// numbers of a head are right.
    pub fn set_head(&mut self, head: Option<Head>)
        requires { IsHead head }
        ensures { self.new ≡ record self.old { head = head } }
    {
        // For the proof alone, which has to be told of items.
        let _items = self.items();
        self.head = head;
    }

    /// Adds an item at the end. Gives the item back exactly where `ROOM` are there, and then changes nothing.
    pub fn push(&mut self, item: Item) -> Result<(), Item>
        ensures room { IsOk result ↔ (length self.old.items < ROOM) }
        ensures added { OnOk result
            (self.new ≡ record self.old { items = self.old.items ++ item ∷ [] }) }
        ensures unchanged { OnErr result (self.new ≡ self.old) }
        ensures given_back { IfErr result (λ i. i ≡ item) }
    {
        if self.held == ROOM {
            return Err(item);
        }
        add(item, &mut self.items[..], &mut self.held);
        Ok(())
    }

    /// Adds a mark of this number, 0 to 999999, behind all items that are there, in a content with room for at most
    /// `LARGEST_ROOM` items. Gives the number back exactly where `MARKS` are there, and then changes nothing.
    pub fn push_mark(&mut self, number: u32) -> Result<(), u32>
        requires most { ROOM ≤ LARGEST_ROOM }
        requires assigned { number ≤ MOST_ASSIGNED }
        ensures room { IsOk result ↔ (length self.old.marks < MARKS) }
        ensures added { OnOk result (self.new ≡ with_mark self.old number) }
        ensures unchanged { OnErr result (self.new ≡ self.old) }
        ensures given_back { IfErr result (λ n. n ≡ number) }
    {
        if self.marked == MARKS {
            return Err(number);
        }
        let items = &self.items[..self.held];
        add_mark(number, items, &mut self.marks[..], &mut self.marked);
        Ok(())
    }

    /// Gives the head, `None` where the content has none.
    pub fn head(&self) -> Option<Head>
        ensures value { result ≡ self.now.head }
        ensures right { IsHead result }
    {
        // For the proof alone, which has to be told of items and of marks.
        let (_items, _marks) = (self.items(), self.marks());
        self.head
    }

    /// Gives the items, in order: at most `ROOM`, with bytes of 0 to 255.
    pub fn items(&self) -> &[Item]
        ensures value { result.now ≡ self.now.items }
        ensures most { length self.now.items ≤ ROOM }
        ensures content { IsContent self.now }
    {
        &self.items[..self.held]
    }

    /// Gives the marks, in order: at most `MARKS`.
    pub fn marks(&self) -> &[Mark]
        ensures value { result.now ≡ self.now.marks }
        ensures most { length self.now.marks ≤ MARKS }
        ensures in_order { AreMarks 0 (length self.now.items) self.now.marks }
    {
        &self.marks[..self.marked]
    }
}

impl<const ROOM: usize, const MARKS: usize> Default for ContentIn<ROOM, MARKS> {
    ghost is_default = { λ l. l ≡ record { head = None; items = []; marks = [] } };

    fn default() -> Self {
        ContentIn::new()
    }
}

impl<const ROOM: usize, const MARKS: usize> fmt::Debug for ContentIn<ROOM, MARKS> {
    fn fmt<W: fmt::Write>(&self, f: &mut fmt::Formatter<W>) -> fmt::Result {
        (self.head, self.items(), self.marks()).fmt(f)
    }
}

impl<const ROOM: usize, const MARKS: usize> PartialEq for ContentIn<ROOM, MARKS> {
    ghost use Rattle.std.specs.Cmp.{partial_equiv_from_equiv};
    ghost use Rattle.dm_words.specs.Equality.{equal_contents, contents_equiv};

    ghost eq = { equal_contents };

    ghost laws = { partial_equiv_from_equiv contents_equiv };

    fn eq(&self, other: &Self) -> bool {
        self.head == other.head && self.items() == other.items() && self.marks() == other.marks()
    }
}

impl<const ROOM: usize, const MARKS: usize> Eq for ContentIn<ROOM, MARKS> {
    ghost use Rattle.dm_words.specs.Equality.{contents_equiv};

    ghost laws = { contents_equiv };
}
