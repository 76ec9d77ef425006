//! A message line, as it comes.

ghost use Rattle.std.specs.Prelude.{◌≡◌, ◌≤◌, ◌<◌, ◌+◌, ◌∷◌, ◌++◌, [], ℕ, List, IsTrue, ◌↔◌, IfNone, IfSome, drop};
ghost use Rattle.std.specs.Prelude.{length, map, take};
ghost use Rattle.std.specs.List.{AllByRecursion};
ghost use Rattle.dm_text.specs.MessageLines.{IsLine};
ghost use Rattle.dm_text.specs.Texts.{HasNoLf};
ghost use Rattle.dm_text.specs.LineFacts.{AreLineFacts, kept};
ghost use Rattle.dm_text.specs.inner.OpenLines.{IsPlain, meaning_by_value, IsFirstLf};
ghost use Rattle.dm_symbol.specs.declared.Item.{Item as AnItem};

use crate::message_line::LineFault;
use crate::spelling::{Next, Pending};
use crate::text::LF;
use dm_symbol::{Item, MOST_ITEMS, Message};
use std::marker::Model;

/// A line without a fault so far: how many bytes at its start are joined spellings, the items of these unless they
/// are too many, and the bytes after them.
#[derive(Drop)]
struct GoodLine {
    prefix_length: u64,
    items: Option<Message>,
    pending: Pending,
}

/// What is known of an open line.
#[derive(Drop)]
enum State {
    /// A fault stands in the line, at this column.
    Faulty(u64),
    Good(GoodLine),
}

/// A message line whose end has not come yet.
#[derive(Drop)]
pub(crate) struct OpenLine {
    state: State,
}

impl Model for OpenLine {
    ghost use Rattle.dm_text.specs.LineFacts.{LineFacts};
    ghost use Rattle.dm_text.specs.inner.OpenLines.{facts_of};

    ghost Value = { LineFacts };

    ghost view = { λ l. facts_of l.state };
}

impl OpenLine {
    /// Begins with the empty line.
    pub(crate) fn new() -> Self
        ensures { AreLineFacts [] result }
    {
        OpenLine {
            state: State::Good(GoodLine::new()),
        }
    }

    /// Whether the line has no byte.
    pub(crate) fn is_empty(&self) -> bool
        ensures { (line : List ℕ) → AreLineFacts line self.now → (IsTrue result ↔ (line ≡ [])) }
    {
        match &self.state {
            State::Faulty(_) => false,
            State::Good(good) => good.prefix_length == 0 && good.pending.count() == 0,
        }
    }

    /// Takes more bytes of the line.
    pub(crate) fn take(&mut self, bytes: &[u8])
        ensures { (line : List ℕ) → AreLineFacts line self.old
            → AreLineFacts (line ++ bytes.now) self.new }
    {
        for byte in bytes {
            self.push(*byte);
        }
    }

    /// Takes more bytes of the line, up to the first LF, which ends it. Where
    /// there is one, says how many stand before it.
    pub(crate) fn take_to_lf(&mut self, bytes: &[u8]) -> Option<usize>
        ensures none { IfNone result (HasNoLf bytes.now) }
        ensures open { IfNone result
            ((line : List ℕ) → AreLineFacts line self.old
            → AreLineFacts (line ++ bytes.now) self.new) }
        ensures first { IfSome result
            (λ end. IsFirstLf bytes.now (take end bytes.now) (drop (end + 1) bytes.now)) }
        ensures within { IfSome result (λ end. end < length bytes.now) }
        ensures before { IfSome result
            (λ end. (line : List ℕ) → AreLineFacts line self.old
            → AreLineFacts (line ++ take end bytes.now) self.new) }
    {
        let mut at = 0;
        while at < bytes.len() {
            let end = at + self.take_plain(&bytes[at..]);
            if end == bytes.len() {
                return None;
            }
            let byte = bytes[end];
            if byte == LF {
                return Some(end);
            }
            self.push(byte);
            at = end + 1;
        }
        None
    }

    /// Takes the bytes at the start that stand for themselves, if no other spelling is begun, and says how many.
    fn take_plain(&mut self, bytes: &[u8]) -> usize
        ensures within { result ≤ length bytes.now }
        ensures no_lf { HasNoLf (take result bytes.now) }
        ensures grown { (line : List ℕ) → AreLineFacts line self.old
            → AreLineFacts (line ++ take result bytes.now) self.new }
    {
        match &mut self.state {
            State::Faulty(_) => 0,
            State::Good(good) => good.take_plain(bytes),
        }
    }

    /// Takes one more byte of the line.
    pub(crate) fn push(&mut self, byte: u8)
        ensures { (line : List ℕ) → AreLineFacts line self.old
            → AreLineFacts (line ++ byte ∷ []) self.new }
    {
        match &mut self.state {
            State::Faulty(_) => {}
            State::Good(good) => match good.pending.next(byte) {
                Next::Whole(item) => {
                    good.prefix_length = good
                        .prefix_length
                        .saturating_add(good.pending.count() + 1);
                    good.pending = Pending::Nothing;
                    push_item(&mut good.items, item);
                }
                Next::Begun(pending) => good.pending = pending,
                Next::Fault => {
                    let column = good.prefix_length.saturating_add(1);
                    self.state = State::Faulty(column);
                }
            },
        }
    }

    /// Gives what the line means if it ends here: its message, or its fault.
    pub(crate) fn meaning(&self) -> Result<&Message, LineFault>
        ensures { (line : List ℕ) → AreLineFacts line self.now
            → IsLine line (meaning_by_value result) }
    {
        match &self.state {
            State::Faulty(column) => Err(LineFault::BadEscape(*column)),
            State::Good(good) => good.meaning(),
        }
    }

    /// Gives what the line means if it ends here, with the message by value.
    pub(crate) fn close(self) -> Result<Message, LineFault>
        ensures { (line : List ℕ) → AreLineFacts line self → IsLine line result }
    {
        match self.state {
            State::Faulty(column) => Err(LineFault::BadEscape(column)),
            State::Good(good) => good.close(),
        }
    }

    /// Becomes the empty line.
    pub(crate) fn clear(&mut self)
        ensures { AreLineFacts [] self.new }
    {
        match &mut self.state {
            State::Good(good) => good.clear(),
            State::Faulty(_) => self.state = State::Good(GoodLine::new()),
        }
    }
}

impl GoodLine {
    ghost use Rattle.dm_text.specs.LineFacts.{IsGoodLine};
    ghost use Rattle.dm_text.specs.inner.OpenLines.{pending_bytes};

    /// Begins with the empty line.
    fn new() -> Self
        ensures { IsGoodLine [] result.prefix_length result.items (pending_bytes result.pending) }
    {
        GoodLine {
            prefix_length: 0,
            items: Some(Message::new()),
            pending: Pending::Nothing,
        }
    }

    /// Takes the bytes at the start that stand for themselves, if no other spelling is begun, and says how many.
    fn take_plain(&mut self, bytes: &[u8]) -> usize
        ensures within { result ≤ length bytes.now }
        ensures no_lf { HasNoLf (take result bytes.now) }
        ensures grown { (line : List ℕ)
            → IsGoodLine line self.old.prefix_length self.old.items
            (pending_bytes self.old.pending)
            → IsGoodLine (line ++ take result bytes.now) self.new.prefix_length self.new.items
            (pending_bytes self.new.pending) }
    {
        if self.pending.count() > 0 {
            return 0;
        }
        let Some(message) = &mut self.items else {
            return 0;
        };
        let count = push_plain(message, bytes);
        self.prefix_length = self.prefix_length.saturating_add(count as u64);
        count
    }

    /// Gives what the line means if it ends here: its message, or its fault.
    fn meaning(&self) -> Result<&Message, LineFault>
        ensures { (line : List ℕ)
            → IsGoodLine line self.now.prefix_length self.now.items
            (pending_bytes self.now.pending) → IsLine line (meaning_by_value result) }
    {
        if self.pending.count() > 0 {
            return Err(LineFault::BadEscape(self.prefix_length.saturating_add(1)));
        }
        match &self.items {
            Some(message) => Ok(message),
            None => Err(LineFault::TooLong),
        }
    }

    /// Gives what the line means if it ends here, with the message by value.
    fn close(self) -> Result<Message, LineFault>
        ensures { (line : List ℕ)
            → IsGoodLine line self.prefix_length self.items (pending_bytes self.pending)
            → IsLine line result }
    {
        if self.pending.count() > 0 {
            return Err(LineFault::BadEscape(self.prefix_length.saturating_add(1)));
        }
        self.items.ok_or(LineFault::TooLong)
    }

    /// Becomes the empty line.
    fn clear(&mut self)
        ensures { IsGoodLine [] self.new.prefix_length self.new.items
            (pending_bytes self.new.pending) }
    {
        self.prefix_length = 0;
        self.pending = Pending::Nothing;
        match &mut self.items {
            Some(message) => message.clear(),
            None => self.items = Some(Message::new()),
        }
    }
}

/// Adds one more item, unless there are too many then.
fn push_item(items: &mut Option<Message>, item: Item)
    ensures { (all : List AnItem) → items.old ≡ kept all → items.new ≡ kept (all ++ item ∷ []) }
{
    let Some(message) = items else {
        return;
    };
    if message.items().len() < MOST_ITEMS {
        let _room = message.push(item);
    } else {
        *items = None;
    }
}

/// Adds the bytes at the start that stand for themselves, as many as there is room for, and says how many.
fn push_plain(message: &mut Message, bytes: &[u8]) -> usize
    ensures within { result ≤ length bytes.now }
    ensures plain { AllByRecursion IsPlain (take result bytes.now) }
    ensures items { message.new ≡ message.old ++ map AnItem.Byte (take result bytes.now) }
    ensures few { length message.old ≤ MOST_ITEMS → length message.new ≤ MOST_ITEMS }
{
    for (i, byte) in bytes.iter().enumerate() {
        if !is_plain(*byte) || message.items().len() >= MOST_ITEMS {
            return i;
        }
        let _room = message.push(Item::Byte(*byte));
    }
    bytes.len()
}

/// Whether a byte stands for itself.
fn is_plain(byte: u8) -> bool
    ensures { IsTrue result ↔ IsPlain byte }
{
    match byte {
        b'\\' => false,
        b' '..=b'~' => true,
        _ => false,
    }
}
