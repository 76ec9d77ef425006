//! Messages.

ghost use Rattle.std.specs.Prelude.{◌≡◌, ◌<◌, ◌≤◌, ◌++◌, ◌∷◌, [], length, OnOk, OnErr, IfErr, IsOk, ◌↔◌};
ghost use Rattle.dm_words.specs.Messages.{IsMessage};

use crate::held::add;
use crate::item::Item;
use crate::limits::MESSAGE_ROOM;
use std::fmt;
use std::marker::Model;

/// A list of at most `ROOM` items. The empty message is a message. In contracts it is the list of its items. A message
/// takes memory for all items for which it has room: two for each data codeword and seven more are enough for what a
/// symbol spells, [`LARGEST_ROOM`](crate::LARGEST_ROOM) for what any symbol does.
#[derive(Clone, Drop)]
pub struct MessageIn<const ROOM: usize> {
    pub(crate) list: [Item; ROOM],
    pub(crate) held: usize,
}

/// A message that has room for what each square spells, up to the largest of 104 x 104.
pub type Message = MessageIn<MESSAGE_ROOM>;

impl<const ROOM: usize> Model for MessageIn<ROOM> {
    ghost use Rattle.std.specs.Prelude.{List, take};
    ghost use Rattle.dm_words.specs.declared.item.Item.{Item};
    ghost use Rattle.dm_words.specs.inner.Held.{AreHeld};

    ghost Value = { List Item };

    ghost view = { λ m. take m.held m.list };

    ghost invariant = { λ m. AreHeld ROOM m.held m.list };
}

impl<const ROOM: usize> MessageIn<ROOM> {
    /// Makes the empty message.
    pub fn new() -> Self
        ensures { result ≡ [] }
    {
        MessageIn {
            list: [Item::Fnc1; ROOM],
            held: 0,
        }
    }

    /// Takes all items away.
    pub fn clear(&mut self)
        ensures { self.new ≡ [] }
    {
        // For the proof alone, which has to be told of items.
        let _items = self.items();
        self.held = 0;
    }

    /// Adds an item at the end. Gives the item back exactly where `ROOM` are there, and then changes nothing.
    pub fn push(&mut self, item: Item) -> Result<(), Item>
        ensures room { IsOk result ↔ (length self.old < ROOM) }
        ensures added { OnOk result (self.new ≡ self.old ++ item ∷ []) }
        ensures unchanged { OnErr result (self.new ≡ self.old) }
        ensures given_back { IfErr result (λ i. i ≡ item) }
    {
        if self.held == ROOM {
            return Err(item);
        }
        add(item, &mut self.list[..], &mut self.held);
        Ok(())
    }

    /// Gives the items, in order: at most `ROOM`, with bytes of 0 to 255.
    pub fn items(&self) -> &[Item]
        ensures value { result.now ≡ self.now }
        ensures most { length self.now ≤ ROOM }
        ensures bytes { IsMessage self.now }
    {
        &self.list[..self.held]
    }
}

impl<const ROOM: usize> Default for MessageIn<ROOM> {
    ghost is_default = { λ m. m ≡ [] };

    fn default() -> Self {
        MessageIn::new()
    }
}

impl<const ROOM: usize> fmt::Debug for MessageIn<ROOM> {
    fn fmt<W: fmt::Write>(&self, f: &mut fmt::Formatter<W>) -> fmt::Result {
        f.debug_list().entries(self.items()).finish()
    }
}

impl<const ROOM: usize> PartialEq for MessageIn<ROOM> {
    ghost use Rattle.std.specs.Cmp.{partial_equiv_from_equiv};
    ghost use Rattle.dm_words.specs.Equality.{equal_items, items_equiv};

    ghost eq = { equal_items };

    ghost laws = { partial_equiv_from_equiv items_equiv };

    fn eq(&self, other: &Self) -> bool {
        self.items() == other.items()
    }
}

impl<const ROOM: usize> Eq for MessageIn<ROOM> {
    ghost use Rattle.dm_words.specs.Equality.{items_equiv};

    ghost laws = { items_equiv };
}
