//! Where items are written: for which extent, and before what.

ghost use Rattle.std.specs.Prelude.{◌≡◌};
ghost use Rattle.dm_words.specs.inner.Costs.{at_end};

use crate::extent::Extent;

/// Where items are written.
#[derive(Clone, Copy)]
pub struct Setting {
    /// The extent that is to read them.
    pub extent: Extent,
    /// How many codewords follow in ASCII, such as a mark begins; 0 at the end of the message.
    pub behind: u16,
}

impl Setting {
    /// Gives the setting of items that no others follow.
    pub(crate) fn at_end(extent: Extent) -> Self
        ensures { result ≡ at_end extent }
    {
        Setting { extent, behind: 0 }
    }
}
