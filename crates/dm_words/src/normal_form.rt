//! The normal form of a message under a profile: its data codewords, without pads.

ghost use Rattle.std.specs.Prelude.{◌≡◌, ◌<◌, ◌≤◌, ◌↔◌, length, take, map, false, not, ◌&&◌, if◌then◌else◌, nat_lt};
ghost use Rattle.std.specs.Prelude.{IfOk, OnErr, IsErr, IsTrue};
ghost use Rattle.dm_words.specs.Ascii.{ascii};
ghost use Rattle.dm_words.specs.NormalForm.{shorter, normal_form, one_segment, has_fnc1};
ghost use Rattle.dm_words.specs.Results.{IsNormalFormResult};
ghost use Rattle.dm_words.specs.Outcomes.{outcome};
ghost use Rattle.dm_words.specs.ContentExtents.{as_content};
ghost use Rattle.dm_words.specs.Messages.{byte_of, IsMessage};
ghost use Rattle.dm_words.specs.Plain.{IsPlainWithPads};

use crate::ascii::{AsciiForm, ascii_form, surely_fits, write_ascii};
use crate::base256::{segment_length, write_segment};
use crate::fault::TooLong;
use crate::held::list_of;
use crate::item::Item;
use crate::limits::LARGEST_ROOM;
use crate::message::Message;
use crate::profile::Profile;
use arrayvec::ArrayVec;
use dm_layout::MOST_GRID_DATA;
use dm_layout::symbols::MOST_DATA;

/// Gives the ASCII codewords of a message, without pads: from the left, two digits in one codeword wherever two come
/// first. `TooLong` exactly where they are more than `MOST_GRID_DATA`. ISO/IEC 16022, ASCII encodation.
pub fn ascii_words(message: &Message) -> Result<ArrayVec<u8, MOST_GRID_DATA>, TooLong>
    ensures { IsNormalFormResult Profile.Ascii message.now result }
{
    words_of(Profile::Ascii, message)
}

/// Gives the shorter codewords of a message, without pads: one segment of Base 256 from the first codeword on, if the
/// message has no FNC1 and this takes fewer codewords than ASCII; else those of [`ascii_words()`]. The length of the
/// segment is always written out. `TooLong` exactly where they are more than `MOST_GRID_DATA`. ISO/IEC 16022, Base 256
/// encodation.
pub fn shorter_words(message: &Message) -> Result<ArrayVec<u8, MOST_GRID_DATA>, TooLong>
    ensures { IsNormalFormResult Profile.Shorter message.now result }
{
    words_of(Profile::Shorter, message)
}

/// Gives the codewords of a message under a profile.
fn words_of(profile: Profile, message: &Message) -> Result<ArrayVec<u8, MOST_GRID_DATA>, TooLong>
    ensures { IsNormalFormResult profile message.now result }
{
    let mut words = [0; MOST_GRID_DATA];
    match normal_words_to(profile, message.items(), &mut words) {
        Ok(count) => Ok(list_of(&words[..count])),
        Err(TooLong) => Err(TooLong),
    }
}

/// Writes the codewords of a message of at most [`LARGEST_ROOM`] items under a profile, those of [`ascii_words()`] or
/// of [`shorter_words()`], to the beginning of a target with room for at least 3 codewords, as each symbol has, and
/// gives their number. `TooLong` exactly where there is no room for them; then the target is as it was. Under
/// [`Profile::Shorter`] this does the same work as under [`Profile::Ascii`], except that it may write a segment too, or
/// instead of ASCII.
pub fn normal_words_to(profile: Profile, items: &[Item], words: &mut [u8]) -> Result<usize, TooLong>
    requires few { length items.now ≤ LARGEST_ROOM }
    requires least { 3 ≤ length words.old }
    requires most { length words.old ≤ MOST_DATA }
    ensures form { IfOk result (λ count. take count words.new ≡ normal_form profile items.now) }
    ensures fits { IfOk result (λ count. count ≤ length words.new) }
    ensures too_long { IsErr result ↔ (length words.old < length (normal_form profile items.now)) }
    ensures same { OnErr result (words.new ≡ words.old) }
    ensures plain { IfOk result (λ count. IsMessage items.now
        → IsPlainWithPads (take count words.new) (as_content items.now)) }
{
    if !surely_fits(items, words.len()) {
        return write_counted(profile, items, words);
    }
    let form = form_of(profile, items, write_ascii(items, words));
    if form.is_segment {
        write_segment(items, words);
    }
    Ok(form.length)
}

/// Does the same as [`normal_words_to()`], but counts the codewords before it writes any.
fn write_counted(profile: Profile, items: &[Item], words: &mut [u8]) -> Result<usize, TooLong>
    requires few { length items.now ≤ LARGEST_ROOM }
    requires least { 3 ≤ length words.old }
    requires most { length words.old ≤ MOST_DATA }
    ensures form { IfOk result (λ count. take count words.new ≡ normal_form profile items.now) }
    ensures fits { IfOk result (λ count. count ≤ length words.new) }
    ensures too_long { IsErr result ↔ (length words.old < length (normal_form profile items.now)) }
    ensures same { OnErr result (words.new ≡ words.old) }
    ensures plain { IfOk result (λ count. IsMessage items.now
        → IsPlainWithPads (take count words.new) (as_content items.now)) }
{
    let form = form_of(profile, items, ascii_form(items));
    if form.length > words.len() {
        return Err(TooLong);
    }
    if form.is_segment {
        write_segment(items, words);
    } else {
        let _same = write_ascii(items, words);
    }
    Ok(form.length)
}

/// What is known of a normal form before it is written.
#[derive(Clone, Copy)]
struct Form {
    /// Whether it is one segment of Base 256, and not ASCII.
    is_segment: bool,
    /// How many codewords it has.
    length: usize,
}

/// Gives what is known of the normal form of these items under a profile, from what is known of their ASCII form.
fn form_of(profile: Profile, items: &[Item], known: AsciiForm) -> Form
    requires few { length items.now ≤ LARGEST_ROOM }
    requires length { known.length ≡ length (ascii items.now) }
    requires has_fnc1 { known.has_fnc1 ≡ has_fnc1 items.now }
    ensures form { normal_form profile items.now
        ≡ (if result.is_segment then one_segment (map byte_of items.now) else ascii items.now) }
    ensures length { result.length ≡ length (normal_form profile items.now) }
    ensures no_longer { result.length ≤ known.length }
{
    let segment = segment_length(items.len());
    let is_segment = takes_segment(profile, known, segment);
    let length = if is_segment { segment } else { known.length };
    Form { is_segment, length }
}

/// Whether a profile takes the segment, which has `segment` codewords, instead of ASCII.
fn takes_segment(profile: Profile, ascii: AsciiForm, segment: usize) -> bool
    ensures fewer { IsTrue result → segment < ascii.length }
    ensures ascii { profile ≡ Profile.Ascii → result ≡ false }
    ensures shorter { profile ≡ Profile.Shorter
        → result ≡ (not ascii.has_fnc1 && nat_lt segment ascii.length) }
{
    // The profile comes last, so that both profiles take the same steps up to the choice.
    segment < ascii.length
        && !ascii.has_fnc1
        && match profile {
            Profile::Ascii => false,
            Profile::Shorter => true,
        }
}
