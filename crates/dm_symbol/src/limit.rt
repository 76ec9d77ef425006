//! The usual border limit.

ghost use Rattle.std.specs.Prelude.{◌≡◌};
ghost use Rattle.dm_symbol.specs.Reading.{usual_limit};

/// Gives the number of wrong border modules that are usually accepted in a symbol of this side: a quarter of the side,
/// rounded down.
pub fn usual_limit(side: u16) -> u16
    ensures { result ≡ usual_limit side }
{
    side / 4
}
