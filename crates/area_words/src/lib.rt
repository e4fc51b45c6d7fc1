// The 16-bit words of a lent area as places and as bytes, and both as words.
#![tactic(auto)]

ghost use Rattle.std.specs.Prelude.{◌≡◌, ◌%◌, ◌<◌, get_or, set};
ghost use Rattle.limits.specs.Limits.{word_bound};

use limits::WORD_BOUND;

// A number of 16 bits as a place.
pub fn wide(n: u16) -> usize
    ensures value { result ≡ n }
    ensures upper_bound { result < word_bound }
{
    n as usize
}

// The 16 low bits of a place.
pub fn narrow(n: usize) -> u16
    ensures { result ≡ n % word_bound }
{
    (n % WORD_BOUND) as u16
}

// A byte as a number of 16 bits.
pub fn word_of(b: u8) -> u16
    ensures { result ≡ b }
{
    b as u16
}

// The 8 low bits of a number of 16.
pub fn byte_of(n: u16) -> u8
    ensures { result ≡ n % 256 }
{
    (n % 256) as u8
}
