//! The table of sizes as text.

ghost use Rattle.std.specs.Prelude.{◌≡◌, ◌≤◌, ◌+◌, ◌∷◌, ◌++◌, [], length};
ghost use Rattle.dm_text.specs.Answers.{numbers_of, spaced_text, table_text};
ghost use Rattle.dm_text.specs.Texts.{lf};

use crate::printed::{MOST_ANSWER, push_spaced};
use crate::text::Text;
use dm_symbol::{Size, table};

/// Gives a line for each size, by rising side.
pub(crate) fn table_text() -> Text<MOST_ANSWER>
    ensures { result.items ≡ table_text }
{
    let mut text: Text<MOST_ANSWER> = Text::new();
    for size in table() {
        push_size(&mut text, size);
    }
    text
}

/// Appends the line of a size.
fn push_size(text: &mut Text<MOST_ANSWER>, size: Size)
    requires { length text.old.items + 64 ≤ MOST_ANSWER }
    ensures text { text.new.items ≡ text.old.items ++ (spaced_text (numbers_of size) ++ lf ∷ []) }
    ensures length { length text.new.items ≤ length text.old.items + 49 }
{
    let numbers = [
        size.side(),
        size.regions(),
        size.region_side(),
        size.mapping(),
        size.data_count(),
        size.check_count(),
        size.blocks(),
        size.limit(),
    ];
    push_spaced(text, &numbers);
    text.push_all(b"\n");
}
