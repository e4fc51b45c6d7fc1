// The least value of a type that no pattern of a side matches, letter by letter.
#![tactic(auto)]

ghost use Rattle.std.specs.Prelude.{◌≡◌, ◌≤◌, ◌<◌, length};
ghost use Rattle.limits.specs.Limits.{max_nodes, lengths, result_length};
ghost use Rattle.table_trees.specs.Unfolding.{type_of};
ghost use Rattle.table_walks.specs.InTable.{patterns_at};
ghost use Rattle.fault_gaps.specs.Gaps.{minus_of, Takes, RowTaken, GapsCounted, Leaves, first_letter, Picks, Writes, FirstCount, FirstLack, GapValue};

use area_words::wide;
use codes::{
    KIND, LETTER_ELEMENT, LETTER_EMPTY, LETTER_LEFT, LETTER_PAIR, LETTER_RIGHT, LETTER_UNIT, LIST,
    PRODUCT, SUM,
};
use fault_stacks::{count_row, count_types, step_types, walk_row, walk_types};
use fault_tallies::{MODULUS, OTHER_MODULUS};
use limits::{LENGTHS, MAX_NODES};
use table_trees::cell;

// The difference of two counts.
fn minus(m: u64, x: u64, y: u64) -> u64
    ensures { result ≡ minus_of m x y }
{
    if y <= x {
        x - y
    } else {
        m.saturating_sub(y - x)
    }
}

// Counts less others.
pub fn take_away(m: u64, k: &mut [u64; LENGTHS], o: &[u64; LENGTHS])
    ensures { Takes m k.old o.now k.new }
{
    for (i, x) in k.iter_mut().enumerate() {
        *x = minus(m, *x, o[i]);
    }
}

// Counts less those that P line p matches, after some letters of a value of T line i.
pub fn take_row(
    m: u64,
    t: &[u16],
    base: usize,
    p: usize,
    i: usize,
    w: &[u8],
    k: &mut [u64; LENGTHS],
)
    requires { length w.now ≤ max_nodes }
    ensures { RowTaken m t.now base p i w.now k.old k.new }
{
    let mut ps = [0usize; LENGTHS];
    let mut ts = [0usize; LENGTHS];
    let Some(top) = walk_row(t, base, p, i, w, &mut ps, &mut ts) else {
        return;
    };
    let mut o = [0u64; LENGTHS];
    count_row(m, t, base, &ps, &ts, top, &mut o);
    take_away(m, k, &o);
}

// The ways to go on after some letters of a value of T line i that no pattern in field f of the rows matches.
pub fn count_gaps(
    m: u64,
    t: &[u16],
    base: usize,
    f: usize,
    rows: &[u16],
    i: usize,
    w: &[u8],
    k: &mut [u64; LENGTHS],
)
    requires { length w.now ≤ max_nodes }
    ensures { GapsCounted m t.now base f rows.now i w.now k.new }
{
    let mut ts = [0usize; LENGTHS];
    let top = walk_types(t, i, w, &mut ts);
    count_types(m, t, &ts, top, k);
    for x in (0..rows.len()).rev() {
        let p = cell(t, wide(rows[x]), f);
        take_row(m, t, base, p, i, w, k);
    }
}

// Counts of values with fewer letters are below the modulus.
const SHORT: usize = 64;

// Whether some value of T line i that begins with the letters w and has n more is matched by no pattern in field f of the rows.
fn has_gap(t: &[u16], base: usize, f: usize, rows: &[u16], i: usize, n: usize, w: &[u8]) -> bool
    requires { (length w.now ≤ max_nodes) × (n < lengths) }
    ensures { Leaves (type_of t.now i) (patterns_at t.now base f rows.now)
        w.now n result }
{
    let mut k = [0u64; LENGTHS];
    count_gaps(MODULUS, t, base, f, rows, i, w, &mut k);
    if k[n] == 0 {
        if n < SHORT {
            return false;
        }
        count_gaps(OTHER_MODULUS, t, base, f, rows, i, w, &mut k);
        if k[n] == 0 {
            return false;
        }
    }
    true
}

// The first letter in byte order that a value of T line j can begin with.
fn first_letter(t: &[u16], j: usize) -> u8
    ensures { result ≡ first_letter (type_of t.now j) }
{
    let kind = cell(t, j, KIND);
    if kind == SUM {
        return LETTER_LEFT;
    }
    if kind == PRODUCT {
        return LETTER_PAIR;
    }
    if kind == LIST {
        return LETTER_ELEMENT;
    }
    LETTER_UNIT
}

// The letter that a gap goes on with, n letters before its end, the next value being of T line j. The last letter of w is the first
// one that such a value can begin with, in its place.
pub fn letter(
    t: &[u16],
    base: usize,
    f: usize,
    rows: &[u16],
    i: usize,
    j: usize,
    n: usize,
    w: &[u8],
) -> u8
    requires { (length w.now ≤ max_nodes) × (n < lengths) }
    ensures { Picks (type_of t.now i) (patterns_at t.now base f rows.now)
        w.now (type_of t.now j) n result }
{
    let kind = cell(t, j, KIND);
    if kind == SUM {
        if has_gap(t, base, f, rows, i, n, w) {
            return LETTER_LEFT;
        }
        return LETTER_RIGHT;
    }
    if kind == PRODUCT {
        return LETTER_PAIR;
    }
    if kind == LIST {
        if has_gap(t, base, f, rows, i, n, w) {
            return LETTER_ELEMENT;
        }
        return LETTER_EMPTY;
    }
    LETTER_UNIT
}

// Writes the letters of the first gap, which has n.
pub fn write_gap(t: &[u16], base: usize, f: usize, rows: &[u16], i: usize, n: usize, out: &mut [u8])
    requires { (n ≤ max_nodes) × (n ≤ length out.old) }
    ensures { Writes (type_of t.now i) (patterns_at t.now base f rows.now)
        out.old out.new n }
{
    let mut ts = [0usize; LENGTHS];
    ts[MAX_NODES] = i;
    let mut top: usize = MAX_NODES;
    for m in 0..n {
        if MAX_NODES < top {
            return;
        }
        let j = ts[top];
        out[m] = first_letter(t, j);
        let next = m + 1;
        let c = letter(t, base, f, rows, i, j, n - m - 1, &out[0..next]);
        out[m] = c;
        top = step_types(t, &mut ts, top, c);
    }
}

// The place of the first count that is not 0; 128 where all are, so that the lesser of two places is that of both.
pub fn first_count(k: &[u64; LENGTHS]) -> usize
    ensures { FirstCount k.now result }
{
    for (n, x) in k.iter().enumerate() {
        if *x != 0 {
            return n;
        }
    }
    LENGTHS
}

// The fewest letters more with which a value of T line i that begins with w is matched by no pattern in field f of the rows; 128 where
// no such value of at most 127 is left.
fn gap_length(t: &[u16], base: usize, f: usize, rows: &[u16], i: usize, w: &[u8]) -> usize
    requires { length w.now ≤ max_nodes }
    ensures { FirstLack (type_of t.now i) (patterns_at t.now base f rows.now) w.now result }
{
    let mut k = [0u64; LENGTHS];
    count_gaps(MODULUS, t, base, f, rows, i, w, &mut k);
    let n = first_count(&k);
    if n <= SHORT {
        return n;
    }
    let mut o = [0u64; LENGTHS];
    count_gaps(OTHER_MODULUS, t, base, f, rows, i, w, &mut o);
    let p = first_count(&o);
    if p < n {
        return p;
    }
    n
}

// Writes the letters of the least value of T line i that no pattern in field f of the rows matches, and gives their number; 0 where no
// value of at most 127 letters is left.
pub fn gap_value(t: &[u16], base: usize, f: usize, rows: &[u16], i: usize, out: &mut [u8]) -> usize
    requires { result_length ≤ length out.old }
    ensures { GapValue (type_of t.now i) (patterns_at t.now base f rows.now)
        out.old out.new result }
{
    let n = gap_length(t, base, f, rows, i, &out[0..0]);
    if n < LENGTHS {
        write_gap(t, base, f, rows, i, n, out);
        return n;
    }
    0
}
