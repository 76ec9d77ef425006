//! Numbers of 256 bits.

ghost use Rattle.std.specs.Prelude.{◌≡◌, ℕ, ◌+◌, ◌*◌, ◌/◌, ◌%◌, ◌^◌, ◌<◌, length, get_or, bit_or, bit_and};
ghost use Rattle.dm_layout.specs.symbols.inner.Pairs.{pair, number_of};
ghost use Rattle.dm_layout.specs.symbols.inner.Slots.{in_bytes};

/// A number of 256 bits, as two of 128.
#[derive(Clone, Copy)]
pub(crate) struct Pair {
    pub(crate) low: u128,
    pub(crate) high: u128,
}

impl Pair {
    /// Gives the number moved to the left by so many bits, without those from bit 256 on.
    #[inline(always)]
    pub(crate) fn left(&self, count: u16) -> Pair
        requires { count < 256 }
        ensures { number_of result ≡ number_of self.now * 2 ^ count % 2 ^ 256 }
    {
        let Pair { low, high } = *self;
        if count < 128 {
            Pair {
                low: low << count,
                high: high << count | low >> 1 >> (127 - count),
            }
        } else {
            Pair {
                low: 0,
                high: low << (count - 128),
            }
        }
    }

    /// Gives the number moved to the right by so many bits.
    #[inline(always)]
    pub(crate) fn right(&self, count: u16) -> Pair
        requires { count < 256 }
        ensures { number_of result ≡ number_of self.now / 2 ^ count }
    {
        let Pair { low, high } = *self;
        if count < 128 {
            Pair {
                low: low >> count | high << 1 << (127 - count),
                high: high >> count,
            }
        } else {
            Pair {
                low: high >> (count - 128),
                high: 0,
            }
        }
    }

    /// Gives the bits that one of two numbers has.
    #[inline(always)]
    pub(crate) fn or(&self, other: &Pair) -> Pair
        ensures { number_of result ≡ bit_or (number_of self.now) (number_of other.now) }
    {
        Pair {
            low: self.low | other.low,
            high: self.high | other.high,
        }
    }

    /// Gives the bits that the number has in common with a mask, which serves both its halves.
    #[inline(always)]
    pub(crate) fn masked(&self, mask: u128) -> Pair
        ensures { number_of result ≡ bit_and (number_of self.now) (pair mask mask) }
    {
        Pair {
            low: self.low & mask,
            high: self.high & mask,
        }
    }

    /// Gives the bytes of the number, the lowest first.
    #[inline(always)]
    pub(crate) fn to_bytes(&self) -> [u8; 32]
        ensures count { length result ≡ 32 }
        ensures bytes { (i : ℕ) → get_or result i 0 < 256 }
        ensures number { in_bytes result ≡ number_of self.now }
    {
        let Pair { low, high } = *self;
        let mut bytes = [0; 32];
        bytes[..16].copy_from_slice(&low.to_le_bytes());
        bytes[16..].copy_from_slice(&high.to_le_bytes());
        bytes
    }

    /// Gives the number of these bytes, of which the first is the lowest.
    #[inline(always)]
    pub(crate) fn from_bytes(bytes: &[u8; 32]) -> Pair
        ensures { number_of result ≡ in_bytes bytes.now }
    {
        let mut low = [0; 16];
        let mut high = [0; 16];
        low.copy_from_slice(&bytes[..16]);
        high.copy_from_slice(&bytes[16..]);
        Pair {
            low: u128::from_le_bytes(low),
            high: u128::from_le_bytes(high),
        }
    }
}
