//! The field of 256 elements: a byte is a polynomial over bits, modulo x^8 + x^5 + x^3 + x^2 + 1.

ghost use Rattle.std.specs.Prelude.{◌≡◌, ◌<◌, ℕ};
ghost use Rattle.gf301.specs.Field.{◌⊕◌, ◌⊗◌, power};

use crate::product_rows::{HIGH, LOW};

/// The powers of 2: at each place e below 255 stands 2 to the power e. The element 2 generates all elements but 0.
pub(crate) static POWERS: [u8; 255] = [
    1, 2, 4, 8, 16, 32, 64, 128, 45, 90, 180, 69, 138, 57, 114, 228, 229, 231, 227, 235, 251, 219,
    155, 27, 54, 108, 216, 157, 23, 46, 92, 184, 93, 186, 89, 178, 73, 146, 9, 18, 36, 72, 144, 13,
    26, 52, 104, 208, 141, 55, 110, 220, 149, 7, 14, 28, 56, 112, 224, 237, 247, 195, 171, 123,
    246, 193, 175, 115, 230, 225, 239, 243, 203, 187, 91, 182, 65, 130, 41, 82, 164, 101, 202, 185,
    95, 190, 81, 162, 105, 210, 137, 63, 126, 252, 213, 135, 35, 70, 140, 53, 106, 212, 133, 39,
    78, 156, 21, 42, 84, 168, 125, 250, 217, 159, 19, 38, 76, 152, 29, 58, 116, 232, 253, 215, 131,
    43, 86, 172, 117, 234, 249, 223, 147, 11, 22, 44, 88, 176, 77, 154, 25, 50, 100, 200, 189, 87,
    174, 113, 226, 233, 255, 211, 139, 59, 118, 236, 245, 199, 163, 107, 214, 129, 47, 94, 188, 85,
    170, 121, 242, 201, 191, 83, 166, 97, 194, 169, 127, 254, 209, 143, 51, 102, 204, 181, 71, 142,
    49, 98, 196, 165, 103, 206, 177, 79, 158, 17, 34, 68, 136, 61, 122, 244, 197, 167, 99, 198,
    161, 111, 222, 145, 15, 30, 60, 120, 240, 205, 183, 67, 134, 33, 66, 132, 37, 74, 148, 5, 10,
    20, 40, 80, 160, 109, 218, 153, 31, 62, 124, 248, 221, 151, 3, 6, 12, 24, 48, 96, 192, 173,
    119, 238, 241, 207, 179, 75, 150,
];

/// The logarithms: at each element stands the e below 255 with 2 to the power e equal to it. 0 has none, and its place
/// is not read.
static LOGS: [u8; 256] = [
    0, 0, 1, 240, 2, 225, 241, 53, 3, 38, 226, 133, 242, 43, 54, 210, 4, 195, 39, 114, 227, 106,
    134, 28, 243, 140, 44, 23, 55, 118, 211, 234, 5, 219, 196, 96, 40, 222, 115, 103, 228, 78, 107,
    125, 135, 8, 29, 162, 244, 186, 141, 180, 45, 99, 24, 49, 56, 13, 119, 153, 212, 199, 235, 91,
    6, 76, 220, 217, 197, 11, 97, 184, 41, 36, 223, 253, 116, 138, 104, 193, 229, 86, 79, 171, 108,
    165, 126, 145, 136, 34, 9, 74, 30, 32, 163, 84, 245, 173, 187, 204, 142, 81, 181, 190, 46, 88,
    100, 159, 25, 231, 50, 207, 57, 147, 14, 67, 120, 128, 154, 248, 213, 167, 200, 63, 236, 110,
    92, 176, 7, 161, 77, 124, 221, 102, 218, 95, 198, 90, 12, 152, 98, 48, 185, 179, 42, 209, 37,
    132, 224, 52, 254, 239, 117, 233, 139, 22, 105, 27, 194, 113, 230, 206, 87, 158, 80, 189, 172,
    203, 109, 175, 166, 62, 127, 247, 146, 66, 137, 192, 35, 252, 10, 183, 75, 216, 31, 83, 33, 73,
    164, 144, 85, 170, 246, 65, 174, 61, 188, 202, 205, 157, 143, 169, 82, 72, 182, 215, 191, 251,
    47, 178, 89, 151, 101, 94, 160, 123, 26, 112, 232, 21, 51, 238, 208, 131, 58, 69, 148, 18, 15,
    16, 68, 17, 121, 149, 129, 19, 155, 59, 249, 70, 214, 250, 168, 71, 201, 156, 64, 60, 237, 130,
    111, 20, 93, 122, 177, 150,
];

/// An element of the field, which is a byte; each byte is one.
#[derive(Clone, Copy, Debug, PartialEq, Eq)]
pub struct Gf(pub u8);

impl Gf {
    /// Adds two elements by exclusive or. Their difference is the same.
    pub fn add(self, other: Gf) -> Gf
        ensures { result.0 ≡ self.0 ⊕ other.0 }
    {
        Gf(self.0 ^ other.0)
    }

    /// Multiplies two elements, without carries and modulo 301. The product is looked up as the sum of this element's
    /// products with the low and the high four bits of the other one.
    pub fn mul(self, other: Gf) -> Gf
        ensures { result.0 ≡ self.0 ⊗ other.0 }
    {
        let row = 16 * usize::from(self.0);
        let low = LOW[row + usize::from(other.0 % 16)];
        let high = HIGH[row + usize::from(other.0 / 16)];
        Gf(low ^ high)
    }

    /// Gives the element whose product with this one is 1. 0 has none.
    pub fn inverse(self) -> Gf
        requires { 0 < self.0 }
        ensures product { self.0 ⊗ result.0 ≡ 1 }
        ensures only { (b : ℕ) → b < 256 → self.0 ⊗ b ≡ 1 → b ≡ result.0 }
    {
        Gf::power_of_two(255 - u16::from(self.log()))
    }

    /// Gives 2 to the power e, for every e. The powers repeat after 255 of them.
    pub fn power_of_two(e: u16) -> Gf
        ensures { result.0 ≡ power e }
    {
        Gf(POWERS[usize::from(e % 255)])
    }

    /// Gives the logarithm to base 2: the one e of 0 to 254 with 2 to the power e equal to this element. 0 has none.
    pub fn log(self) -> u8
        requires { 0 < self.0 }
        ensures below { result < 255 }
        ensures power { power result ≡ self.0 }
        ensures only { (e : ℕ) → e < 255 → power e ≡ self.0 → e ≡ result }
    {
        LOGS[usize::from(self.0)]
    }
}
