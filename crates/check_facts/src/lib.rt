// What is found once of each T and P line: how many places a type has at which a left or a right may stand, and how
// many left, right, empty and element nodes a pattern has. The facts of the T lines come first, those of the P lines follow.
#![tactic(auto)]

ghost use Rattle.std.specs.Prelude.{◌≡◌, cond, ◌+◌, ◌≤◌, ◌<◌, suc, min, max, ltb, length, get_or};
ghost use Rattle.limits.specs.Limits.{many_tags};
ghost use Rattle.calculus.specs.Trees.{tags};
ghost use Rattle.table_trees.specs.Unfolding.{type_of, pattern_of};
ghost use Rattle.check_facts.specs.Facts.{width, many_places, Widths, Tagged, Facts};

use area_words::wide;
use codes::{ELEMENT, EMPTY, FIRST, KIND, LEFT, PAIR, PRODUCT, RIGHT, SECOND, SUM};
use limits::{MAX_PATTERNS, MAX_TYPES};
use table_sizes::together;
use table_trees::{cell, pattern_cell};

// The most lines that facts are found of.
pub const FACTS: usize = MAX_TYPES + MAX_PATTERNS;

// The most places that are told apart, and what stands for more.
pub const PLACES: usize = 64;

const MANY_PLACES: usize = PLACES + 1;

// A byte as a number.
pub fn number(b: u8) -> usize
    ensures { (result ≡ b) × (result < 256) }
{
    usize::from(b)
}

// A small number as a byte.
pub fn byte(n: usize) -> u8
    ensures { n < 256 → result ≡ n }
{
    (n % 256) as u8
}

// The fact of line a, which line i names, where the facts of such lines begin at place `from`; none of a line that is not smaller.
fn told(f: &[u8], from: usize, a: usize, i: usize) -> usize
    requires { from + i ≤ length f.now }
    ensures { result ≡ cond (ltb a i) (get_or f.now (from + a) 0) 0 }
{
    if a < i { number(f[from + a]) } else { 0 }
}

// The places of a sum, and of a product, from those of its parts.
fn of_sum(m: usize, n: usize) -> usize
    ensures { result ≡ min many_places (suc (max m n)) }
{
    m.max(n).saturating_add(1).min(MANY_PLACES)
}

fn of_product(m: usize, n: usize) -> usize
    ensures { result ≡ min many_places (m + n) }
{
    m.saturating_add(n).min(MANY_PLACES)
}

// The places of T line i; a list has none.
fn width_of(t: &[u16], f: &[u8], i: usize) -> usize
    requires { (i ≤ length f.now) × Widths t.now f.now i }
    ensures { result ≡ min many_places (width (type_of t.now i)) }
{
    match cell(t, i, KIND) {
        SUM => {
            let m = told(f, 0, cell(t, i, FIRST), i);
            let n = told(f, 0, cell(t, i, SECOND), i);
            of_sum(m, n)
        }
        PRODUCT => {
            let m = told(f, 0, cell(t, i, FIRST), i);
            let n = told(f, 0, cell(t, i, SECOND), i);
            of_product(m, n)
        }
        _ => 0,
    }
}

// The left, right, empty and element nodes of P line j.
fn tags_of(t: &[u16], f: &[u8], base: usize, j: usize) -> usize
    requires { (base + j ≤ length f.now) × Tagged t.now base f.now j }
    ensures { result ≡ min many_tags (tags (pattern_of t.now base j)) }
{
    match pattern_cell(t, base, j, KIND) {
        LEFT | RIGHT => together(1, told(f, base, pattern_cell(t, base, j, FIRST), j)),
        PAIR => {
            let m = told(f, base, pattern_cell(t, base, j, FIRST), j);
            let n = told(f, base, pattern_cell(t, base, j, SECOND), j);
            together(m, n)
        }
        EMPTY => 1,
        ELEMENT => {
            let m = told(f, base, pattern_cell(t, base, j, FIRST), j);
            let n = told(f, base, pattern_cell(t, base, j, SECOND), j);
            together(m, together(1, n))
        }
        _ => 0,
    }
}

// The facts of the first n lines, which are T lines.
fn find_widths(t: &[u16], f: &mut [u8], n: usize)
    requires { n ≤ length f.old }
    ensures { (length f.new ≡ length f.old) × Widths t.now f.new n }
{
    for i in 0..n {
        f[i] = byte(width_of(t, f, i));
    }
}

// The facts of the n lines from place `base` on, which are P lines; those before them stay.
fn find_tags(t: &[u16], f: &mut [u8], base: usize, n: usize)
    requires { (base + n ≤ length f.old) × Widths t.now f.old base }
    ensures { (length f.new ≡ length f.old)
        × Widths t.now f.new base
        × Tagged t.now base f.new n }
{
    for j in 0..n {
        f[base + j] = byte(tags_of(t, f, base, j));
    }
}

// The facts of a table's T lines and P lines, as many as there is a place for.
pub fn find_facts(t: &[u16], f: &mut [u8], base: usize)
    ensures { (length f.new ≡ length f.old) × Facts t.now base f.new }
{
    let most = f.len();
    if base <= most {
        find_widths(t, f, base);
        find_tags(t, f, base, most - base);
    } else {
        find_widths(t, f, most);
    }
}
