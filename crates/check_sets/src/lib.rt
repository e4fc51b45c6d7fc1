// Sets of at most 128 clauses, one bit each: a set for each of 128 cells, and one that gathers. Each set has two words, in the two
// halves of the area.
#![tactic(auto)]

ghost use Rattle.std.specs.Prelude.{◌≡◌, true, false, ℕ, ◌<◌};
ghost use Rattle.check_sets.specs.Sets.{gatherer, half, members, word_of, Emptied, United, Joined, Low, Full};

// The set that gathers, the sets of a half, and the words of the area.
pub const GATHERER: usize = 128;

const HALF: usize = GATHERER + 1;

pub const AREA: usize = 2 * HALF;

// The bits of a word.
const BITS: usize = 64;

// The gathering set becomes empty.
pub fn empty(s: &mut [u64; AREA])
    ensures { Emptied s.old s.new }
{
    s[GATHERER] = 0;
    s[HALF + GATHERER] = 0;
}

// The gathering set takes in all of set c.
pub fn unite(s: &mut [u64; AREA], c: usize)
    requires { c < gatherer }
    ensures { United s.old s.new c }
{
    s[GATHERER] |= s[c];
    s[HALF + GATHERER] |= s[HALF + c];
}

// The word of clause i.
fn word(c: usize, i: usize) -> usize
    requires { c < half }
    ensures { result ≡ word_of c i }
{
    if i < BITS { c } else { HALF + c }
}

// Clause i joins set c.
pub fn join(s: &mut [u64; AREA], c: usize, i: usize)
    requires { (c < gatherer) × (i < members) }
    ensures { Joined s.old s.new c i }
{
    s[word(c, i)] |= 1 << (i % BITS);
}

// Whether the k low bits of a word are all set.
fn low(w: u64, k: usize) -> bool
    requires { k < 64 }
    ensures { Low w k result }
{
    let p = 1u64 << k;
    w % p == p - 1
}

// Whether all bits of a word are set.
fn ones(w: u64) -> bool
    ensures { Low w 64 result }
{
    w == u64::MAX
}

// Whether the gathering set has every clause below i.
pub fn is_full(s: &[u64; AREA], i: usize) -> bool
    requires { i < members }
    ensures { Full s.now i result }
{
    if i < BITS {
        low(s[GATHERER], i)
    } else {
        ones(s[GATHERER]) && low(s[HALF + GATHERER], i - BITS)
    }
}
