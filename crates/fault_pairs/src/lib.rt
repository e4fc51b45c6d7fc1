// The least value that two patterns of a side match.
#![tactic(auto)]

ghost use Rattle.std.specs.Prelude.{◌≡◌, ◌≤◌, length};
ghost use Rattle.limits.specs.Limits.{table_length, result_length};
ghost use Rattle.law_witnesses.specs.Showing.{sooner};
ghost use Rattle.table_trees.specs.Unfolding.{type_of};
ghost use Rattle.table_walks.specs.InTable.{patterns_at};
ghost use Rattle.fault_pairs.specs.Pairs.{FrontCopied, PairAdded, RowAdded, PairsKept, OverlapValue};

use area_words::wide;
use check_overlap::compare;
use fault_meets::write_common;
use limits::{LENGTHS, RESULT_LENGTH};
use table_trees::cell;

// Whether letters come before others: fewer, or as many and earlier bytes.
pub fn is_sooner(x: &[u8], y: &[u8]) -> bool
    ensures { result ≡ sooner x.now y.now }
{
    if x.len() < y.len() {
        return true;
    }
    if y.len() < x.len() {
        return false;
    }
    for i in 0..x.len() {
        if x[i] < y[i] {
            return true;
        }
        if y[i] < x[i] {
            return false;
        }
    }
    false
}

// Copies the first n bytes.
fn copy_front(from: &[u8], n: usize, out: &mut [u8])
    requires { (n ≤ length from.now) × (n ≤ length out.old) }
    ensures { FrontCopied from.now n out.old out.new }
{
    for i in 0..n {
        out[i] = from[i];
    }
}

// Keeps in an area the letters of the sooner of two: the value kept there, if any, and the least that P
// lines p and q both match, if it has at most 127 letters.
pub fn with_pair(
    t: &[u16],
    base: usize,
    p: usize,
    q: usize,
    i: usize,
    best: usize,
    out: &mut [u8],
) -> usize
    requires { (table_length ≤ length t.now) × (result_length ≤ length out.old) × (best ≤ result_length) }
    ensures { (result ≤ result_length) × PairAdded t.now base p q i out.old out.new best result }
{
    let c = compare(t, base, p, q);
    if c.clash {
        return best;
    }
    let mut common = [0u8; LENGTHS];
    let n = write_common(t, base, p, q, i, &mut common, 0);
    if RESULT_LENGTH < n {
        return best;
    }
    if best == 0 {
        copy_front(&common, n, out);
        return n;
    }
    if is_sooner(&out[0..best], &common[0..n]) {
        return best;
    }
    copy_front(&common, n, out);
    n
}

// The same for P line p with each pattern in field f of the rows.
pub fn add_row(
    t: &[u16],
    base: usize,
    p: usize,
    f: usize,
    rows: &[u16],
    i: usize,
    best: usize,
    out: &mut [u8],
) -> usize
    requires { (table_length ≤ length t.now) × (result_length ≤ length out.old) × (best ≤ result_length) }
    ensures { (result ≤ result_length)
        × RowAdded t.now base p f rows.now i out.old out.new best result }
{
    let mut b = best;
    for y in (0..rows.len()).rev() {
        let q = cell(t, wide(rows[y]), f);
        b = with_pair(t, base, p, q, i, b, out);
    }
    b
}

// Keeps the letters of the least value of T line i that two of the patterns in field f of the rows match,
// and gives their number; 0 where there is none. What lies behind them may have changed.
pub fn overlap_value(
    t: &[u16],
    base: usize,
    f: usize,
    rows: &[u16],
    i: usize,
    out: &mut [u8],
) -> usize
    requires { (table_length ≤ length t.now) × (result_length ≤ length out.old) }
    ensures { (result ≤ result_length) × PairsKept t.now base f rows.now i out.new result }
{
    let mut best: usize = 0;
    for x in (0..rows.len()).rev() {
        let p = cell(t, wide(rows[x]), f);
        best = add_row(t, base, p, f, &rows[x + 1..], i, best, out);
    }
    best
}

// Writes the same letters, with the bytes past them left as they were.
pub fn show_overlap(
    t: &[u16],
    base: usize,
    f: usize,
    rows: &[u16],
    i: usize,
    out: &mut [u8],
) -> usize
    requires { (table_length ≤ length t.now) × (result_length ≤ length out.old) }
    ensures { OverlapValue (type_of t.now i) (patterns_at t.now base f rows.now)
        out.old out.new result }
{
    let mut kept = [0u8; RESULT_LENGTH];
    let n = overlap_value(t, base, f, rows, i, &mut kept);
    copy_front(&kept, n, out);
    n
}
