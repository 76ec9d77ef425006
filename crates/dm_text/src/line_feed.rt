//! Message lines from pieces of a text.

ghost use Rattle.std.specs.Prelude.{◌≡◌, ◌∷◌, [], ℕ, List, IfNone, IfSome, IsSome, IsTrue, ◌↔◌, ◌≢◌, length};
ghost use Rattle.dm_text.specs.MessageLines.{IsLine};
ghost use Rattle.dm_text.specs.LineFacts.{AreLineFacts};
ghost use Rattle.dm_text.specs.LineFeeds.{ClosesLine, LeavesLineOpen};
ghost use Rattle.dm_text.specs.inner.OpenLines.{EndsLine, meaning_by_value};

use crate::message_line::LineFault;
use crate::open_line::OpenLine;
use dm_symbol::Message;
use std::marker::Model;

/// Cuts a text that comes in pieces into message lines. It holds what is known of
/// the line that stands open: its items while they are at most `MOST_ITEMS`, the
/// bytes of a spelling that is begun, and a count; or the column of its fault.
///
/// In contracts it is the `LineFacts` (`specs/LineFacts.antt`) of the open line. The clauses `some_line` say that there
/// is such a line, so that what a clause says of each of them isn't empty.
#[derive(Drop)]
pub struct LineFeed {
    line: OpenLine,
}

impl Model for LineFeed {
    ghost use Rattle.std.specs.Prelude.{ℕ, List};
    ghost use Rattle.dm_text.specs.LineFacts.{LineFacts, AreLineFacts};

    // The facts of the open line.
    ghost Value = { LineFacts };

    ghost view = { λ f. f.line };

    // These are the facts of some line.
    ghost invariant = { λ f. (line : List ℕ) × AreLineFacts line f.line };
}

/// What one call of [`LineFeed::feed`] came to.
#[derive(Clone, Debug, Drop, PartialEq, Eq)]
pub struct LineFed {
    /// How many bytes of the piece were taken.
    pub taken: usize,
    /// The line that they close, if any: its message, or why it is none.
    pub closed: Option<Result<Message, LineFault>>,
}

impl LineFeed {
    /// Begins a feed in which no line stands open.
    pub fn new() -> Self
        ensures { AreLineFacts [] result }
    {
        LineFeed {
            line: OpenLine::new(),
        }
    }

    /// Takes bytes up to and including the first LF, and gives the line that it closes. Where the piece has
    /// no LF, all of it is taken. A line that is no message leaves the feed ready for the next one.
    pub fn feed(&mut self, piece: &[u8]) -> LineFed
        ensures open { IfNone result.closed
            (LeavesLineOpen self.old piece.now result.taken self.new) }
        ensures closed { IfSome result.closed
            (λ line. ClosesLine self.old piece.now result.taken line self.new) }
        ensures some_line { (line : List ℕ) × AreLineFacts line self.old }
    {
        let Some(taken) = self.take_line(piece) else {
            return LineFed {
                taken: piece.len(),
                closed: None,
            };
        };
        LineFed {
            taken,
            closed: Some(self.close()),
        }
    }

    /// Closes the open line, if there is one: where the text ends, its bytes after the last LF are a line, if there
    /// are any. The feed is then as a new one is.
    pub fn finish(&mut self) -> Option<Result<Message, LineFault>>
        ensures none { IfNone result (AreLineFacts [] self.old) }
        ensures line { IfSome result
            (λ closed. (line : List ℕ) → AreLineFacts line self.old → IsLine line closed) }
        ensures some { (line : List ℕ) → AreLineFacts line self.old
            → (IsSome result ↔ (line ≢ [])) }
        ensures empty { AreLineFacts [] self.new }
        ensures some_line { (line : List ℕ) × AreLineFacts line self.old }
    {
        if self.line.is_empty() {
            return None;
        }
        Some(self.close())
    }

    /// Ends the line, and begins the next one.
    fn close(&mut self) -> Result<Message, LineFault>
        ensures line { (line : List ℕ) → AreLineFacts line self.old → IsLine line result }
        ensures empty { AreLineFacts [] self.new }
    {
        std::mem::replace(&mut self.line, OpenLine::new()).close()
    }

    // `take_line`, then `meaning`, then `begin_line` close a line without copying its message. Where the text ends,
    // `is_empty` says whether there is a last line.

    /// Takes the bytes up to and including the first LF, holds the line that it ends, and says how many they are. None
    /// where there is no LF; all of the piece is taken then.
    pub(crate) fn take_line(&mut self, piece: &[u8]) -> Option<usize>
        ensures open { IfNone result
            (LeavesLineOpen self.old piece.now (length piece.now) self.new) }
        ensures ends { IfSome result (λ taken. EndsLine self.old piece.now taken self.new) }
        ensures some_line { (line : List ℕ) × AreLineFacts line self.old }
    {
        let Some(end) = self.line.take_to_lf(piece) else {
            return None;
        };
        Some(end + 1)
    }

    /// Whether the line that is held has no byte.
    pub(crate) fn is_empty(&self) -> bool
        ensures { (line : List ℕ) → AreLineFacts line self.now → (IsTrue result ↔ (line ≡ [])) }
    {
        self.line.is_empty()
    }

    /// Gives what the line that is held means: its message, or its fault.
    pub(crate) fn meaning(&self) -> Result<&Message, LineFault>
        ensures { (line : List ℕ) → AreLineFacts line self.now
            → IsLine line (meaning_by_value result) }
    {
        self.line.meaning()
    }

    /// Begins the next line.
    pub(crate) fn begin_line(&mut self)
        ensures { AreLineFacts [] self.new }
    {
        self.line.clear();
    }
}
