// Bits and bytes in code: a bit of a byte, a number in four bytes. The bodies of the last two are the library's; the
// contracts say them in the words of specs/. Every function is total.
#![tactic(auto, unfolding(crate::specs::Bytes::number))]

ghost use Rattle.std.specs.Prelude.{◌≡◌, []};
ghost use Rattle.bits.specs.Bits.{bit_value};
ghost use Rattle.bits.specs.Bytes.{four, number};

// What a bit of this weight counts in a byte.
pub fn bit_value(b: bool, weight: u8) -> u8
    ensures { result ≡ bit_value b weight }
{
    if b { weight } else { 0 }
}

// A number from its four bytes, high byte first.
pub fn number_from(p: u8, q: u8, r: u8, s: u8) -> u32
    ensures { result ≡ number p q r s }
{
    u32::from_be_bytes([p, q, r, s])
}

// A number's four bytes, high byte first.
pub fn four_bytes(n: u32) -> [u8; 4]
    ensures { result ≡ four n [] }
{
    n.to_be_bytes()
}
