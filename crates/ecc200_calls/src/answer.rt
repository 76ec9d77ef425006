//! What a call gives of a symbol whose modules are given: of what it says, or why it says nothing.

ghost use Rattle.std.specs.Prelude.{◌≡◌, ◌≤◌, ℕ, Err, Ok, Option, IsTrue, length};
ghost use Rattle.dm_layout.specs.symbols.Sizes.{area};
ghost use Rattle.dm_layout.specs.symbols.Symbols.{SymbolView};
ghost use Rattle.dm_layout.specs.symbols.Words.{data_of};
ghost use Rattle.dm_words.specs.Contents.{AreMarks, HasMarkRoom};
ghost use Rattle.dm_words.specs.Heads.{IsHead};
ghost use Rattle.dm_words.specs.Messages.{most_spelled};
ghost use Rattle.dm_symbol.specs.declared.Extent.{Extent};
ghost use Rattle.dm_symbol.specs.ContentReading.{ContentReadResult};
ghost use Rattle.ecc200_calls.specs.inner.Given.{IsOfGiven};
ghost use Rattle.ecc200_calls.specs.inner.Restored.{HasRoomToSay, IsAtLimit, IsRestored, reading_said};
ghost use Rattle.ecc200_calls.specs.inner.Rooms.{HasRoom};

use crate::given::Given;
use crate::restoring::{Restored, has_few_marks, restore_given};
use crate::room::*;
use crate::scan::Sought;
use dm_layout::symbols::{SymbolSize, SymbolWordsIn};
use dm_symbol::{
    ContentIn, ContentReadFault, Extent, Head, Item, LARGEST_MARKS, LARGEST_ROOM, Mark,
};
use dm_words::{content_to_as, symbology_number};

/// What a symbol of a size says, and what is known of its restored codewords.
#[derive(Drop)]
pub(crate) struct Said<'a> {
    pub(crate) size: SymbolSize,
    pub(crate) head: Option<Head>,
    pub(crate) items: &'a [Item],
    pub(crate) marks: &'a [Mark],
    pub(crate) identifier: u8,
    pub(crate) restored: &'a Restored,
}

/// What a call gives of a symbol.
pub(crate) trait Answer {
    /// Where it is written.
    type Out;

    // This is given of a symbol of so many rows and columns that is read in an extent, with these of its modules
    // doubtful and with at most so many border faults, in place of what was there before.
    ghost IsGiven: { Self → Extent → ℕ → ℕ → SymbolView → Option SymbolView → ℕ → Self.Out → Self.Out → Type 0 };

    /// Shows what is given where a symbol says this.
    fn show(&self, said: &Said, out: &mut Self::Out)
        requires head { IsHead said.now.head }
        requires items { length said.now.items.now ≤ LARGEST_ROOM }
        requires marks { length said.now.marks.now ≤ LARGEST_MARKS }
        requires in_order { AreMarks 0 (length said.now.items.now) said.now.marks.now }
        ensures { (extent : Extent) (symbol : SymbolView) (doubtful : Option SymbolView) (limit : ℕ)
            → ContentReadResult extent symbol doubtful limit (Ok (reading_said said.now))
            → IsGiven self.now extent said.now.size.rows said.now.size.columns symbol doubtful limit
            out.old out.new };

    /// Shows why a symbol says nothing.
    fn refuse(&self, why: ContentReadFault, out: &mut Self::Out)
        ensures { (extent : Extent) (rows columns : ℕ) (symbol : SymbolView)
            (doubtful : Option SymbolView) (limit : ℕ)
            → ContentReadResult extent symbol doubtful limit (Err why)
            → IsGiven self.now extent rows columns symbol doubtful limit out.old out.new };
}

/// Shows what is sought of a symbol whose modules are given, in a room that serves for it.
pub(crate) fn answer_known<A: Answer>(
    answer: &A,
    sought: Sought,
    modules: &[u8],
    doubtful: &[u8],
    given: Given,
    out: &mut A::Out,
)
    requires modules { length modules.now ≡ area given.size }
    requires doubtful { IsTrue given.doubt → length doubtful.now ≡ area given.size }
    ensures { IsOfGiven given.size modules.now doubtful.now given.doubt
        (IsAtLimit sought (λ symbol doubtful limit. A.IsGiven answer.now sought.extent
        given.size.rows given.size.columns symbol doubtful limit out.old out.new)) }
{
    in_room!(
        Room::of(given.size),
        answer_given::<_, ROWS, WORDS, ITEMS, MARKS>(answer, sought, modules, doubtful, given, out)
    )
}

/// Does so in a room that serves for the symbol. It stands by itself, so that no other room is left for it on the
/// stack.
#[inline(never)]
fn answer_given<
    A: Answer,
    const ROWS: usize,
    const WORDS: usize,
    const ITEMS: usize,
    const MARKS: usize,
>(answer: &A, sought: Sought, modules: &[u8], doubtful: &[u8], given: Given, out: &mut A::Out)
    requires room { HasRoom ROWS WORDS ITEMS MARKS given.size }
    requires modules { length modules.now ≡ area given.size }
    requires doubtful { IsTrue given.doubt → length doubtful.now ≡ area given.size }
    ensures { IsOfGiven given.size modules.now doubtful.now given.doubt
        (IsAtLimit sought (λ symbol doubtful limit. A.IsGiven answer.now sought.extent
        given.size.rows given.size.columns symbol doubtful limit out.old out.new)) }
{
    let mut words = SymbolWordsIn::<WORDS>::zeros(given.size);
    let mut restored = Restored::new();
    match restore_given::<ROWS, WORDS>(
        sought,
        modules,
        doubtful,
        given,
        &mut words,
        &mut restored,
    ) {
        Ok(()) => answer_restored::<A, WORDS, ITEMS, MARKS>(
            answer,
            sought.extent,
            &words,
            &restored,
            out,
        ),
        Err(why) => answer.refuse(why, out),
    }
}

/// Shows what is given of a symbol with these restored codewords, in room for the marks that they can say.
fn answer_restored<A: Answer, const WORDS: usize, const ITEMS: usize, const MARKS: usize>(
    answer: &A,
    extent: Extent,
    words: &SymbolWordsIn<WORDS>,
    restored: &Restored,
    out: &mut A::Out,
)
    requires { HasRoomToSay ITEMS MARKS words.now.size.data_count }
    ensures { (symbol : SymbolView) (doubtful : Option SymbolView) (limit : ℕ)
        → IsRestored extent symbol doubtful limit words.now restored.now
        → A.IsGiven answer.now extent words.now.size.rows words.now.size.columns symbol doubtful
        limit out.old out.new }
{
    if has_few_marks::<MARKS>(words.data_part()) {
        answer_words::<A, WORDS, ITEMS, SMALL_MARKS>(answer, extent, words, restored, out);
    } else {
        answer_words::<A, WORDS, ITEMS, MARKS>(answer, extent, words, restored, out);
    }
}

/// Does so with room for so many marks. It stands by itself, so that there is room for one content on the stack.
#[tactic(auto, using(crate::proofs::Rooms::data_few, crate::proofs::Rooms::data_count_is))]
#[inline(never)]
fn answer_words<A: Answer, const WORDS: usize, const ITEMS: usize, const MARKS: usize>(
    answer: &A,
    extent: Extent,
    words: &SymbolWordsIn<WORDS>,
    restored: &Restored,
    out: &mut A::Out,
)
    requires items { most_spelled extent words.now.size.data_count ≤ ITEMS }
    requires most { ITEMS ≤ LARGEST_ROOM }
    requires marks { HasMarkRoom MARKS (data_of words.now) }
    requires few_marks { MARKS ≤ LARGEST_MARKS }
    ensures { (symbol : SymbolView) (doubtful : Option SymbolView) (limit : ℕ)
        → IsRestored extent symbol doubtful limit words.now restored.now
        → A.IsGiven answer.now extent words.now.size.rows words.now.size.columns symbol doubtful
        limit out.old out.new }
{
    let list = words.data_part();
    let mut content = ContentIn::<ITEMS, MARKS>::new();
    match content_to_as(extent, list, &mut content) {
        Ok(()) => {
            let identifier = symbology_number(list, &content);
            let said = Said {
                size: words.size(),
                head: content.head(),
                items: content.items(),
                marks: content.marks(),
                identifier,
                restored,
            };
            answer.show(&said, out);
        }
        Err(why) => answer.refuse(ContentReadFault::Words(why), out),
    }
}
