// The type of each P line that holds only units and pairs, found once. T lines of such types are marked by one more than the first line
// with an equal tree, P lines by the mark of their type; 0 marks any other line. A mark stays the word that is stored, and no Option, since
// marks are compared and stored as they are read.
#![tactic(auto)]

ghost use Rattle.std.specs.Prelude.{◌≡◌, cond, true, List, ℕ, ◌+◌, ◌≤◌, ◌<◌, suc, ltb, length, get_or};
ghost use Rattle.limits.specs.Limits.{max_lines};
ghost use Rattle.calculus.specs.Trees.{tunit};
ghost use Rattle.table_trees.specs.Unfolding.{type_of, pattern_of};
ghost use Rattle.check_bare.specs.Bare.{Bare, Stands, Suits, Types, Patterns, Bares, Multiplies};

use area_cells::{item_at, store};
use area_words::{narrow, wide};
use codes::{FIRST, KIND, PAIR, PRODUCT, SECOND, TYPE_UNIT, UNIT};
use table_trees::{cell, pattern_cell};

// A hint is one more than the number of a T line that may be the product searched for, 0 is none. As many are tried as this, from one of
// 1,024 places on; each is tested, so that nothing rests on them but the time of the search.
const TRIES: usize = 8;

const HINTS: usize = 1024 + TRIES;

// The mark of line a, which line i names, where the marks of such lines begin at place `from`; 0 of a line that is not smaller.
fn mark_of(g: &[u16], from: usize, a: usize, i: usize) -> usize
    requires { from + i ≤ length g.now }
    ensures { result ≡ cond (ltb a i) (get_or g.now (from + a) 0) 0 }
{
    if a < i { wide(g[from + a]) } else { 0 }
}

// Whether T line i is the product of two lines with these marks.
fn is_product(t: &[u16], g: &[u16], i: usize, x: usize, y: usize) -> bool
    requires { (i ≤ length g.now) × Types t.now g.now i }
    ensures { result ≡ true → Multiplies t.now (type_of t.now i) x y }
{
    cell(t, i, KIND) == PRODUCT
        && mark_of(g, 0, cell(t, i, FIRST), i) == x
        && mark_of(g, 0, cell(t, i, SECOND), i) == y
}

// The mark of T line c - 1 where it is the product of two marked lines and among the first n, else 0.
fn product_at(t: &[u16], g: &[u16], n: usize, c: usize, x: usize, y: usize) -> usize
    requires { (n ≤ length g.now) × Types t.now g.now n }
    ensures { ((c : ℕ) → result ≡ suc c → Multiplies t.now (type_of t.now c) x y) × (result < 65536) }
{
    if 0 < c {
        if c <= n {
            let i = c - 1;
            if is_product(t, g, i, x, y) {
                return wide(g[i]);
            }
        }
    }
    0
}

// The first place of the hints for a product of two marked lines.
fn hint_of(x: usize, y: usize) -> usize
    ensures { result < 1024 }
{
    (x % 256) * 3 + y % 256
}

// The mark of a product of two marked lines among the first n T lines, 0 where the hints h lead to none.
fn product_mark(t: &[u16], g: &[u16], h: &[u16], n: usize, x: usize, y: usize) -> usize
    requires { (n ≤ length g.now) × Types t.now g.now n }
    ensures { ((c : ℕ) → result ≡ suc c → Multiplies t.now (type_of t.now c) x y) × (result < 65536) }
{
    let from = hint_of(x, y);
    for k in 0..TRIES {
        let c = wide(item_at(h, from + k, 0));
        if c == 0 {
            return 0;
        }
        let m = product_at(t, g, n, c, x, y);
        if 0 < m {
            return m;
        }
    }
    0
}

// A hint to T line i, the product of two marked lines, in the first free place.
fn hint(h: &mut [u16], x: usize, y: usize, i: usize)
    requires { i < max_lines }
    ensures { length h.new ≡ length h.old }
{
    let from = hint_of(x, y);
    for k in 0..TRIES {
        if wide(item_at(h, from + k, 0)) == 0 {
            store(h, from + k, narrow(i + 1));
            return;
        }
    }
}

// A hint to T line i where it is a product and marked by itself.
fn hint_line(t: &[u16], g: &[u16], h: &mut [u16], i: usize)
    requires { (i < length g.now) × (i < max_lines) }
    ensures { length h.new ≡ length h.old }
{
    if cell(t, i, KIND) == PRODUCT {
        if wide(g[i]) == i + 1 {
            let x = mark_of(g, 0, cell(t, i, FIRST), i);
            let y = mark_of(g, 0, cell(t, i, SECOND), i);
            hint(h, x, y, i);
        }
    }
}

// The mark of a unit among the first n T lines, 0 where there is none.
fn unit_mark(t: &[u16], g: &[u16], n: usize) -> usize
    requires { (n ≤ length g.now) × Types t.now g.now n }
    ensures { Stands t.now result tunit × (result < 65536) }
{
    for i in 0..n {
        if cell(t, i, KIND) == TYPE_UNIT {
            return wide(g[i]);
        }
    }
    0
}

// A mark, or where it is 0 that of line i itself.
fn or_own(r: usize, i: usize) -> usize
    requires { (r < 65536) × (i < max_lines) }
    ensures { (result ≡ cond (ltb 0 r) r (suc i)) × (result < 65536) }
{
    if 0 < r { r } else { i + 1 }
}

// The mark of T line i.
fn type_mark(t: &[u16], g: &[u16], h: &[u16], i: usize) -> usize
    requires { (i ≤ length g.now) × Types t.now g.now i × (i < max_lines) }
    ensures { Stands t.now result (type_of t.now i) × (result < 65536) }
{
    let kind = cell(t, i, KIND);
    if kind == TYPE_UNIT {
        return or_own(unit_mark(t, g, i), i);
    }
    if kind == PRODUCT {
        let x = mark_of(g, 0, cell(t, i, FIRST), i);
        let y = mark_of(g, 0, cell(t, i, SECOND), i);
        if 0 < x {
            if 0 < y {
                return or_own(product_mark(t, g, h, i, x, y), i);
            }
        }
    }
    0
}

// The mark of P line j.
fn pattern_mark(t: &[u16], g: &[u16], h: &[u16], base: usize, j: usize) -> usize
    requires { (base + j ≤ length g.now) × Types t.now g.now base × Patterns t.now base g.now j }
    ensures { Suits t.now result (pattern_of t.now base j) × (result < 65536) }
{
    let kind = pattern_cell(t, base, j, KIND);
    if kind == UNIT {
        return unit_mark(t, g, base);
    }
    if kind == PAIR {
        let x = mark_of(g, base, pattern_cell(t, base, j, FIRST), j);
        let y = mark_of(g, base, pattern_cell(t, base, j, SECOND), j);
        if 0 < x {
            if 0 < y {
                return product_mark(t, g, h, base, x, y);
            }
        }
    }
    0
}

// The marks of the first n lines, which are T lines.
fn mark_types(t: &[u16], g: &mut [u16], h: &mut [u16], n: usize)
    requires { (n ≤ length g.old) × (n ≤ max_lines) }
    ensures { (length g.new ≡ length g.old) × Types t.now g.new n }
{
    for i in 0..n {
        g[i] = narrow(type_mark(t, g, h, i));
        hint_line(t, g, h, i);
    }
}

// The marks of the n lines from place `base` on, which are P lines; those before them stay.
fn mark_patterns(t: &[u16], g: &mut [u16], h: &[u16], base: usize, n: usize)
    requires { (base + n ≤ length g.old) × Types t.now g.old base }
    ensures { (length g.new ≡ length g.old)
        × Types t.now g.new base
        × Patterns t.now base g.new n }
{
    for j in 0..n {
        g[base + j] = narrow(pattern_mark(t, g, h, base, j));
    }
}

// The marks of a table's T lines and P lines, as many as there is a place for.
pub fn find_bares(t: &[u16], g: &mut [u16], base: usize)
    requires { length g.old ≤ max_lines }
    ensures { (length g.new ≡ length g.old) × Bares t.now base g.new }
{
    let mut h = [0u16; HINTS];
    let most = g.len();
    if base <= most {
        mark_types(t, g, &mut h, base);
        mark_patterns(t, g, &h, base, most - base);
    } else {
        mark_types(t, g, &mut h, most);
    }
}

// Whether P line p is marked by the type of T line a: it then fits that type and has no variables.
pub fn is_bare(g: &[u16], base: usize, p: usize, a: usize) -> bool
    ensures { result ≡ true → (t : List ℕ) → Bares t base g.now → Bare (pattern_of t base p) (type_of t a) }
{
    if base <= g.len() && a < base && p < g.len() - base {
        let m = wide(g[base + p]);
        return 0 < m && m == wide(g[a]);
    }
    false
}
