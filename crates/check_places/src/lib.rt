// The clauses of a side by the places of their lefts and rights: two patterns of a type clash exactly when one has a left and the other
// a right at the same place. Empty lists and elements stand at no place: where a pattern holds one, places do not tell. For each place
// two sets hold the clauses with a left there and those with a right; each clause that joins them gathers those that it clashes with.
#![tactic(auto)]

ghost use Rattle.std.specs.Prelude.{◌≡◌, true, false, [], ◌∷◌, ◌+◌, ◌<◌, ◌≤◌, length, get_or};
ghost use Rattle.limits.specs.Limits.{table_length, max_lines, row_width};
ghost use Rattle.calculus.specs.Trees.{left, right};
ghost use Rattle.table_trees.specs.Unfolding.{cell_of, type_of, pattern_of};
ghost use Rattle.check_facts.specs.Facts.{Facts, places, width};
ghost use Rattle.check_sets.specs.Sets.{area, members};
ghost use Rattle.check_places.specs.Walking.{Marked, Ready, Told, Seen, Ordered, Started, Separated};

use area_words::wide;
use check_facts::{PLACES, number};
use check_sets::{AREA, empty, is_full, join, unite};
use codes::{FIRST, KIND, LEFT, PAIR, PRODUCT, RIGHT, SECOND, SUM};
use table_parts::parts_of;
use table_trees::{cell, field};

// Clause i has a left, or a right, at place n.
fn mark(s: &mut [u64; AREA], n: usize, kind: usize, i: usize)
    requires { (n < places) × (i < members) }
    ensures { Marked s.old s.new n kind i }
{
    if kind == LEFT {
        unite(s, 2 * n + 1);
        join(s, 2 * n, i);
        return;
    }
    unite(s, 2 * n);
    join(s, 2 * n + 1, i);
}

// P line p of clause i at the places of T line a from n on; false where a left, a right, an empty list or an
// element stands at no place of it.
fn walk(
    t: &[u16],
    f: &[u8],
    base: usize,
    p: usize,
    a: usize,
    n: usize,
    i: usize,
    s: &mut [u64; AREA],
) -> bool
    requires { Ready t.now f.now base p a n i s.old }
    ensures { Told t.now base p a n i s.old s.new result }
{
    if number(f[base + p]) == 0 {
        return true;
    }
    let kind = field(t, base + p, KIND);
    let over = field(t, a, KIND);
    if kind == PAIR && over == PRODUCT {
        let Some(one) = parts_of(t, base, p, a, FIRST, FIRST) else {
            return false;
        };
        let Some(two) = parts_of(t, base, p, a, SECOND, SECOND) else {
            return false;
        };
        return walk(t, f, base, one.p, one.a, n, i, s)
            && walk(t, f, base, two.p, two.a, n + number(f[one.a]), i, s);
    }
    if over == SUM && matches!(kind, LEFT | RIGHT) {
        let Some(only) = parts_of(t, base, p, a, FIRST, kind) else {
            return false;
        };
        mark(s, n, kind, i);
        return walk(t, f, base, only.p, only.a, n + 1, i, s);
    }
    false
}

// Whether P line p of clause i clashes with all clauses below i; not known where its lefts and rights do not all stand at places of
// T line a, or it holds an empty list or an element.
fn placed(
    t: &[u16],
    f: &[u8],
    base: usize,
    p: usize,
    a: usize,
    i: usize,
    s: &mut [u64; AREA],
) -> Option<bool>
    requires { Ordered t.now f.now base a i s.old }
    ensures { Seen t.now base p a i s.old s.new result }
{
    if f.len() - base <= p {
        return None;
    }
    empty(s);
    if walk(t, f, base, p, a, 0, i, s) {
        Some(is_full(s, i))
    } else {
        None
    }
}

// Whether the patterns in field k of the clause rows clash, two by two, where that is known.
fn placed_all(
    t: &[u16],
    f: &[u8],
    base: usize,
    k: usize,
    rows: &[u16],
    a: usize,
    s: &mut [u64; AREA],
) -> Option<bool>
    requires { Started t.now f.now base a s.old × (length rows.now ≤ members) }
    ensures { Separated t.now base k rows.now result }
{
    for (i, row) in rows.iter().enumerate() {
        let p = cell(t, wide(*row), k);
        if !placed(t, f, base, p, a, i, s)? {
            return Some(false);
        }
    }
    Some(true)
}

// The same, of the patterns of a side of the type of T line a.
pub fn separate(t: &[u16], f: &[u8], base: usize, k: usize, rows: &[u16], a: usize) -> Option<bool>
    requires { (table_length ≤ length t.now) × Facts t.now base f.now × (length f.now ≤ max_lines) × (length rows.now ≤ members) }
    ensures { Separated t.now base k rows.now result }
{
    if f.len() < base {
        return None;
    }
    if base <= a {
        return None;
    }
    if PLACES < number(f[a]) {
        return None;
    }
    let mut s = [0; AREA];
    placed_all(t, f, base, k, rows, a, &mut s)
}
