// Bits of codes. A code is an unsigned 64-bit number that stands for a set of numbers below 64: bit
// s is set where s is of the set.
// Stays a plain number: rows that the caller lends keep codes.
#![tactic(auto)]

ghost use Rattle.std.specs.Prelude.{◌≡◌};
ghost use Rattle.codes.specs.Codes.{bit_of, only_bit};

// Whether the code has the bit. No code has a bit of 64 or more.
pub fn has(code: u64, bit: u8) -> bool
    ensures { result ≡ bit_of code bit }
{
    bit < 64 && code >> bit & 1 == 1
}

// The code with this bit alone, or 0 if no code has it.
pub fn only(bit: u8) -> u64
    ensures { result ≡ only_bit bit }
{
    if bit < 64 { 1 << bit } else { 0 }
}
