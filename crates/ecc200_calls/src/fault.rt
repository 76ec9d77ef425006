//! Faults as numbers.

ghost use Rattle.std.specs.Prelude.{◌≡◌};
ghost use Rattle.ecc200_calls.specs.Faults.{fault, read_content_fault};

use dm_symbol::{ContentFault, ContentReadFault, WordFault};

/// Why there is no result: a code of the header, and what the header says beside it. All three are 0 if there is a
/// result.
#[repr(C)]
#[derive(Clone, Copy)]
pub struct Fault {
    pub code: u16,
    pub value: u16,
    pub place: u16,
}

impl Fault {
    /// Makes a fault of its three numbers.
    fn of(code: u16, value: u16, place: u16) -> Fault
        ensures { result ≡ fault code value place }
    {
        Fault { code, value, place }
    }

    /// Says that there is no fault.
    pub(crate) fn none() -> Fault
        ensures { result ≡ fault 0 0 0 }
    {
        Fault::of(0, 0, 0)
    }

    /// Says that there are not as many modules as the rows times the columns.
    pub(crate) fn shape() -> Fault
        ensures { result ≡ fault 3 0 0 }
    {
        Fault::of(3, 0, 0)
    }

    /// Says that no size has these rows and columns.
    pub(crate) fn no_such_size(rows: u16, columns: u16) -> Fault
        ensures { result ≡ fault 4 rows columns }
    {
        Fault::of(4, rows, columns)
    }

    /// Says that a message fits no size that may be taken.
    pub(crate) fn too_long() -> Fault
        ensures { result ≡ fault 14 0 0 }
    {
        Fault::of(14, 0, 0)
    }

    /// Says that this number, at this place, stands for no item.
    pub(crate) fn foreign(number: u16, place: u16) -> Fault
        ensures { result ≡ fault 15 number place }
    {
        Fault::of(15, number, place)
    }

    /// Says that this number stands for no profile.
    pub(crate) fn no_such_profile(number: u16) -> Fault
        ensures { result ≡ fault 16 number 0 }
    {
        Fault::of(16, number, 0)
    }

    /// Says that this number stands for no extent.
    pub(crate) fn no_such_extent(number: u16) -> Fault
        ensures { result ≡ fault 17 number 0 }
    {
        Fault::of(17, number, 0)
    }

    /// Says that this number stands for no border limit.
    pub(crate) fn no_such_limit(number: u16) -> Fault
        ensures { result ≡ fault 24 number 0 }
    {
        Fault::of(24, number, 0)
    }

    /// Says that this number stands for no choice of sizes.
    pub(crate) fn no_such_choice(number: u16) -> Fault
        ensures { result ≡ fault 18 number 0 }
    {
        Fault::of(18, number, 0)
    }

    /// Says that the mark with this index is wrong.
    pub(crate) fn wrong_mark(place: u16) -> Fault
        ensures { result ≡ fault 22 0 place }
    {
        Fault::of(22, 0, place)
    }

    /// Says that the numbers of a head are those of none.
    pub(crate) fn no_such_head() -> Fault
        ensures { result ≡ fault 23 0 0 }
    {
        Fault::of(23, 0, 0)
    }

    /// Says that doubtful modules are given, but not as many as there are modules.
    pub(crate) fn wrong_doubt() -> Fault
        ensures { result ≡ fault 19 0 0 }
    {
        Fault::of(19, 0, 0)
    }
}

/// Gives the fault of data codewords that spell no message.
fn word_fault(why: WordFault) -> Fault
    ensures { result ≡ read_content_fault (ContentReadFault.Words (ContentFault.Word why)) }
{
    match why {
        WordFault::Reserved(place) => Fault::of(7, 0, place),
        WordFault::LeftOut(word, place) => Fault::of(8, u16::from(word), place),
        WordFault::UpperShift(place) => Fault::of(9, 0, place),
        WordFault::Triplet(place) => Fault::of(10, 0, place),
        WordFault::Value(place) => Fault::of(11, 0, place),
        WordFault::Length(place) => Fault::of(12, 0, place),
        WordFault::Unfinished(place) => Fault::of(13, 0, place),
    }
}

/// Gives the fault of a symbol that is not read as a content.
pub(crate) fn read_content_fault(why: ContentReadFault) -> Fault
    ensures { result ≡ read_content_fault why }
{
    match why {
        ContentReadFault::Border(count) => Fault::of(5, count, 0),
        ContentReadFault::Block(block) => Fault::of(6, 0, u16::from(block)),
        ContentReadFault::Words(ContentFault::Word(why)) => word_fault(why),
        ContentReadFault::Words(ContentFault::Designator(place)) => Fault::of(20, 0, place),
        ContentReadFault::Words(ContentFault::Append(place)) => Fault::of(21, 0, place),
    }
}
