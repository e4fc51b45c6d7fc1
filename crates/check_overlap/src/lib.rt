// Two patterns of the table compared node with node, in prefix order, up to the first clash. The walk keeps
// one number: 2 for each node pair, and 1 for a clash, which ends it.
#![tactic(auto)]

ghost use Rattle.std.specs.Prelude.{◌≡◌, ◌+◌, ◌%◌, ◌^◌, ◌<◌, ◌≤◌, true, false, ◌⊎◌, length};
ghost use Rattle.limits.specs.Fields.{kind_field};
ghost use Rattle.limits.specs.Limits.{table_length, max_lines, row_width};
ghost use Rattle.table_trees.specs.Unfolding.{cell_of, pattern_of};
ghost use Rattle.check_overlap.specs.Comparison.{compare as compared};
ghost use Rattle.check_overlap.specs.Walking.{counted, opening, part_of, Meets, Within};

use codes::{ELEMENT, EMPTY, LEFT, PAIR, RIGHT};
use std::num::wrapping_add_usize;
use table_trees::{ROWS, field};

// Whether two patterns clash, and how many node pairs were compared.
#[derive(Clone, Copy)]
pub struct Compared {
    pub clash: bool,
    pub pairs: usize,
}

// How nodes of two kinds meet: 0 where nothing below them is compared, 1 where they clash, else the field
// that names their last parts: 2 of two lefts or two rights, 3 of two pairs or two elements. A number, and no enum, since it is that
// field and, on the count, the node pair and its clash.
fn meet(k: usize, j: usize) -> usize
    ensures { Meets k j result }
{
    match k {
        PAIR => { if j == PAIR { 3 } else { 0 } }
        LEFT | RIGHT => {
            if k == j {
                return 2;
            }
            match j {
                LEFT | RIGHT => 1,
                _ => 0,
            }
        }
        EMPTY => {
            if j == ELEMENT {
                return 1;
            }
            0
        }
        ELEMENT => {
            if j == ELEMENT {
                return 3;
            }
            if j == EMPTY {
                return 1;
            }
            0
        }
        _ => 0,
    }
}

// How P lines p and q meet.
fn meeting(t: &[u16], base: usize, p: usize, q: usize) -> usize
    requires { Within t.now base p q }
    ensures { Meets (cell_of t.now (base + p) kind_field) (cell_of t.now (base + q) kind_field) result }
{
    meet(field(t, base + p, 1), field(t, base + q, 1))
}

// The count n, with the nodes of P lines p and q that meet so and, where they have two parts, the first ones.
#[cycle(compare_below_compare_first)]
fn compare_first(t: &[u16], base: usize, p: usize, q: usize, m: usize, n: usize) -> usize
    requires { Within t.now base p q × (n % 2 ≡ 0) }
    ensures { result ≡ counted n (opening m (part_of t.now base p 2) (part_of t.now base q 2)) }
{
    let next = wrapping_add_usize(n, 2);
    if m != 3 {
        return next;
    }
    let a = field(t, base + p, 2);
    let b = field(t, base + q, 2);
    if p <= a || q <= b {
        return wrapping_add_usize(next, 2);
    }
    let k = meeting(t, base, a, b);
    if k < 2 {
        return wrapping_add_usize(next, 2 + k);
    }
    compare_below(t, base, a, b, k, next)
}

// The count, with P lines i and j that meet so and have parts.
#[cycle(compare_below_compare_first)]
fn compare_below(t: &[u16], base: usize, i: usize, j: usize, k: usize, count: usize) -> usize
    requires { Within t.now base i j × (count % 2 ≡ 0) × Meets (cell_of t.now (base + i) kind_field) (cell_of t.now (base + j) kind_field) k }
    ensures { result ≡ counted count (compared (pattern_of t.now base i) (pattern_of t.now base j)) }
{
    let mut p = i;
    let mut q = j;
    let mut m = k;
    let mut n = count;
    while 2 <= m {
        n = compare_first(t, base, p, q, m, n);
        if n % 2 == 1 {
            return n;
        }
        let a = field(t, base + p, m);
        let b = field(t, base + q, m);
        if p <= a || q <= b {
            return wrapping_add_usize(n, 2);
        }
        p = a;
        q = b;
        m = meeting(t, base, p, q);
    }
    wrapping_add_usize(n, 2 + m)
}

// Whether a P line is a row of the table.
fn is_row(base: usize, p: usize) -> bool
    ensures { (result ≡ true → base + p < max_lines) × (result ≡ false → max_lines ≤ base + p) }
{
    base < ROWS && p < ROWS - base
}

// The count of P lines p and q of a whole table. A line that is no row of it stands for a unit.
fn compare_lines(t: &[u16], base: usize, p: usize, q: usize) -> usize
    requires { table_length ≤ length t.now }
    ensures { result ≡ counted 0 (compared (pattern_of t.now base p) (pattern_of t.now base q)) }
{
    if is_row(base, p) {
        if is_row(base, q) {
            let m = meeting(t, base, p, q);
            if m < 2 {
                return 2 + m;
            }
            return compare_below(t, base, p, q, m, 0);
        }
    }
    2
}

// Compares P lines p and q of a whole table. Node pairs are counted modulo 2 to the power of 63; P lines of
// a file have at most 127 nodes.
pub fn compare(t: &[u16], base: usize, p: usize, q: usize) -> Compared
    requires { table_length ≤ length t.now }
    ensures { (result.clash ≡ (compared (pattern_of t.now base p) (pattern_of t.now base q)
        ).clash)
        × (result.pairs ≡ (compared (pattern_of t.now base p) (pattern_of t.now base q)
        ).pairs % 2 ^ 63) }
{
    let n = compare_lines(t, base, p, q);
    Compared {
        clash: n % 2 == 1,
        pairs: n / 2,
    }
}
