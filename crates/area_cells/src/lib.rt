// Element access over lent areas, total: reading past the end gives what the caller names, storing past the
// end changes nothing, and callers owe no index. Bytes and 32-bit numbers as places, and places as both.
#![tactic(auto)]

ghost use Rattle.std.specs.Prelude.{◌≡◌, cond, suc, ◌<◌, ◌%◌, ltb, length, get_or, set};
ghost use Rattle.limits.specs.Limits.{budget_bound};

use limits::NUMBER_BOUND;

// Element i, or `none` past the end.
pub fn item_at<T: Copy>(items: &[T], i: usize, none: T) -> T
    ensures { result ≡ get_or items.now i none }
{
    items.get(i).copied().unwrap_or(none)
}

// Stores element i, past the end nothing.
pub fn store<T: Copy>(items: &mut [T], i: usize, v: T)
    ensures { items.new ≡ set items.old i v }
{
    if i < items.len() {
        items[i] = v;
    }
}

// Stores a byte and gives the place behind it; past the end it gives the place itself.
pub fn put_byte(bytes: &mut [u8], at: usize, b: u8) -> usize
    ensures bytes_after { bytes.new ≡ set bytes.old at b }
    ensures value { result ≡ cond (ltb at (length bytes.old)) (suc at) at }
{
    if at < bytes.len() {
        bytes[at] = b;
        return at + 1;
    }
    at
}

// A byte as a place.
pub fn wide_byte(b: u8) -> usize
    ensures value { result ≡ b }
    ensures upper_bound { result < 256 }
{
    b as usize
}

// The 8 low bits of a place.
pub fn narrow_byte(n: usize) -> u8
    ensures { result ≡ n % 256 }
{
    (n % 256) as u8
}

// A number of 32 bits as a place.
pub fn wide_number(n: u32) -> usize
    ensures value { result ≡ n }
    ensures upper_bound { result < budget_bound }
{
    n as usize
}

// The 32 low bits of a place.
pub fn narrow_number(n: usize) -> u32
    ensures { result ≡ n % budget_bound }
{
    (n % NUMBER_BOUND) as u32
}
