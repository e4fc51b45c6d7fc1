// Closed values as numbers: how many a T line has, the number of one that stands in an area, and the
// letters of the one with a number.
#![tactic(auto)]

ghost use Rattle.std.specs.Prelude.{◌≡◌, suc, ◌+◌, ◌*◌, ◌≤◌, ◌<◌, min, length};
ghost use Rattle.limits.specs.Limits.{max_values, max_types};
ghost use Rattle.table_trees.specs.Unfolding.{type_of};
ghost use Rattle.number_values.specs.Numbers.{SumCapped, ProductCapped, Counts, Counted, Ranks, Unranks};

use area_cells::item_at;
use codes::{
    FIRST, KIND, LETTER_LEFT, LETTER_PAIR, LETTER_RIGHT, LETTER_UNIT, LIST, PRODUCT, SECOND, SUM,
};
use limits::{MAX_TYPES, MAX_VALUES};
use table_trees::{cell, smaller};

// A value's number, and the place behind its letters.
#[derive(Clone, Copy)]
pub struct Ranked {
    pub number: usize,
    pub end: usize,
}

// Stands for all numbers above the most values that are numbered.
const MANY: usize = MAX_VALUES + 1;

// A list has more.
const OF_LIST: usize = MANY;

// The counts of as many T lines are kept at most.
pub const COUNTS: usize = MAX_TYPES;

// How many counts are kept, where those of n T lines are asked for.
pub fn known(n: usize) -> usize
    ensures { result ≤ max_types }
{
    n.min(COUNTS)
}

// a times b plus c, where each is below 2^32.
fn times_plus(a: usize, b: usize, c: usize) -> usize
    ensures { result ≡ min a max_values * min b max_values + min c max_values }
{
    a.min(MAX_VALUES) * b.min(MAX_VALUES) + c.min(MAX_VALUES)
}

// How many values there are of one type or the other, capped like these.
fn both(a: usize, b: usize) -> usize
    requires { (a ≤ suc max_values) × (b ≤ suc max_values) }
    ensures { SumCapped a b result }
{
    (a + b).min(MANY)
}

// How many pairs there are of as many values, capped like these.
fn pairs(a: usize, b: usize) -> usize
    requires { b ≤ suc max_values }
    ensures { ProductCapped a b result }
{
    if MAX_VALUES < a {
        return MANY;
    }
    (a * b).min(MANY)
}

// How many closed values T line i has; 4,294,967,296 stands for all above, and for those of a list. The counts of
// the first T lines are known, as many as are lent.
pub fn count_values(t: &[u16], counts: &[usize], i: usize) -> usize
    requires { Counted t.now counts.now }
    ensures { Counts (type_of t.now i) result }
{
    if let Some(&n) = counts.get(i) {
        return n;
    }
    let kind = cell(t, i, KIND);
    if kind == SUM {
        let a = count_values(t, counts, smaller(cell(t, i, FIRST), i));
        let b = count_values(t, counts, smaller(cell(t, i, SECOND), i));
        return both(a, b);
    }
    if kind == PRODUCT {
        let a = count_values(t, counts, smaller(cell(t, i, FIRST), i));
        let b = count_values(t, counts, smaller(cell(t, i, SECOND), i));
        return pairs(a, b);
    }
    if kind == LIST {
        return OF_LIST;
    }
    1
}

// The counts of the first T lines, each from those of the lines that it names.
pub fn find_counts(t: &[u16], counts: &mut [usize])
    ensures { (length counts.new ≡ length counts.old) × Counted t.now counts.new }
{
    for i in 0..counts.len() {
        counts[i] = count_values(t, &counts[..i], i);
    }
}

// The place behind a letter; no `min`, since the place and one may not fit.
fn behind(s: &[u8], at: usize) -> usize
    ensures { at < length s.now → result ≡ at + 1 }
{
    if at < s.len() { at + 1 } else { at }
}

// The number of the closed value of T line i that begins at a place, and where it ends. The type has at
// most 4,294,967,295 values; the counts are those of the first T lines.
pub fn rank_at(t: &[u16], counts: &[usize], i: usize, s: &[u8], at: usize) -> Ranked
    requires { Counted t.now counts.now }
    ensures { Ranks (type_of t.now i) s.now at result.number result.end }
{
    let kind = cell(t, i, KIND);
    let next = behind(s, at);
    if kind == SUM {
        let left = smaller(cell(t, i, FIRST), i);
        if item_at(s, at, 0) == LETTER_LEFT {
            return rank_at(t, counts, left, s, next);
        }
        let right = smaller(cell(t, i, SECOND), i);
        let r = rank_at(t, counts, right, s, next);
        return Ranked {
            number: times_plus(1, count_values(t, counts, left), r.number),
            end: r.end,
        };
    }
    if kind == PRODUCT {
        let left = smaller(cell(t, i, FIRST), i);
        let right = smaller(cell(t, i, SECOND), i);
        let r = rank_at(t, counts, left, s, next);
        let u = rank_at(t, counts, right, s, r.end);
        return Ranked {
            number: times_plus(r.number, count_values(t, counts, right), u.number),
            end: u.end,
        };
    }
    Ranked {
        number: 0,
        end: next,
    }
}

// Writes the letters of the value of T line i with number n from a place on, and gives the place behind
// them. The type has at most 4,294,967,295 values, n is below their count, and there is room.
pub fn unrank_at(
    t: &[u16],
    counts: &[usize],
    i: usize,
    n: usize,
    out: &mut [u8],
    at: usize,
) -> usize
    requires { Counted t.now counts.now }
    ensures { Unranks (type_of t.now i) n out.old out.new at result }
{
    if out.len() <= at {
        return at;
    }
    let kind = cell(t, i, KIND);
    if kind == SUM {
        let left = smaller(cell(t, i, FIRST), i);
        let c = count_values(t, counts, left);
        if n < c {
            out[at] = LETTER_LEFT;
            return unrank_at(t, counts, left, n, out, at + 1);
        }
        out[at] = LETTER_RIGHT;
        return unrank_at(
            t,
            counts,
            smaller(cell(t, i, SECOND), i),
            n - c,
            out,
            at + 1,
        );
    }
    if kind == PRODUCT {
        let right = smaller(cell(t, i, SECOND), i);
        let c = count_values(t, counts, right);
        out[at] = LETTER_PAIR;
        let middle = unrank_at(t, counts, smaller(cell(t, i, FIRST), i), n / c, out, at + 1);
        return unrank_at(t, counts, right, n % c, out, middle);
    }
    out[at] = LETTER_UNIT;
    at + 1
}
