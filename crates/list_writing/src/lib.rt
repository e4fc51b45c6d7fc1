// The rows of an imported file: those of its types and of its closed values, parts before wholes, each once, and the clauses that name them.
#![tactic(auto)]

ghost use Rattle.std.specs.Prelude.{◌≤◌, ◌<◌};
ghost use Rattle.limits.specs.Limits.{max_lines, max_clauses};
ghost use Rattle.calculus.specs.Trees.{tsum, tprod};
ghost use Rattle.table_trees.specs.Unfolding.{type_of};
ghost use Rattle.number_values.specs.Numbers.{Counted};
ghost use Rattle.list_writing.specs.Writing.{TypeDone, ValueDone, ClauseDone, PairsDone};

use area_cells::item_at;
use area_words::wide;
use codes::{FIRST, KIND, LEFT, LIST, PAIR, PRODUCT, RIGHT, SECOND, SUM, TYPE_UNIT, UNIT};
use list_entries::{Entry, enter_entry, store_entry};
use number_values::count_values;
use table_trees::{cell, smaller};

// Writes the rows of T line i behind the rows that stand up to row `to`.
pub fn write_type(t: &[u16], i: usize, s: &mut [u16], to: usize) -> Entry
    ensures { TypeDone (type_of t.now i) s.old s.new to result.number result.end }
{
    let kind = cell(t, i, KIND);
    if kind == SUM {
        let a = write_type(t, smaller(cell(t, i, FIRST), i), s, to);
        let b = write_type(t, smaller(cell(t, i, SECOND), i), s, a.end);
        return enter_entry(s, b.end, SUM, a.number, b.number);
    }
    if kind == PRODUCT {
        let a = write_type(t, smaller(cell(t, i, FIRST), i), s, to);
        let b = write_type(t, smaller(cell(t, i, SECOND), i), s, a.end);
        return enter_entry(s, b.end, PRODUCT, a.number, b.number);
    }
    if kind == LIST {
        let a = write_type(t, smaller(cell(t, i, FIRST), i), s, to);
        return enter_entry(s, a.end, LIST, a.number, 0);
    }
    enter_entry(s, to, TYPE_UNIT, 0, 0)
}

// Writes the rows of the value of T line i with number n behind the rows that stand up to row `to`.
#[cycle(write_pair_write_tag_write_value)]
pub fn write_value(
    t: &[u16],
    counts: &[usize],
    i: usize,
    n: usize,
    s: &mut [u16],
    to: usize,
) -> Entry
    requires { Counted t.now counts.now }
    ensures { ValueDone (type_of t.now i) n s.old s.new to result.number result.end }
{
    let left = smaller(cell(t, i, FIRST), i);
    let right = smaller(cell(t, i, SECOND), i);
    match cell(t, i, KIND) {
        SUM => write_tag(t, counts, left, right, n, s, to),
        PRODUCT => write_pair(t, counts, left, right, n, s, to),
        _ => enter_entry(s, to, UNIT, 0, 0),
    }
}

// The same for a left or a right, whose types are T lines `left` and `right`.
#[cycle(write_pair_write_tag_write_value)]
fn write_tag(
    t: &[u16],
    counts: &[usize],
    left: usize,
    right: usize,
    n: usize,
    s: &mut [u16],
    to: usize,
) -> Entry
    requires { Counted t.now counts.now }
    ensures { ValueDone (tsum (type_of t.now left) (type_of t.now right)) n s.old
        s.new to result.number result.end }
{
    let c = count_values(t, counts, left);
    if n < c {
        let v = write_value(t, counts, left, n, s, to);
        return enter_entry(s, v.end, LEFT, v.number, 0);
    }
    let w = write_value(t, counts, right, n - c, s, to);
    enter_entry(s, w.end, RIGHT, w.number, 0)
}

// The same for a pair.
#[cycle(write_pair_write_tag_write_value)]
fn write_pair(
    t: &[u16],
    counts: &[usize],
    left: usize,
    right: usize,
    n: usize,
    s: &mut [u16],
    to: usize,
) -> Entry
    requires { Counted t.now counts.now }
    ensures { ValueDone (tprod (type_of t.now left) (type_of t.now right)) n
        s.old s.new to result.number result.end }
{
    let c = count_values(t, counts, right);
    let v = write_value(t, counts, left, n / c, s, to);
    let w = write_value(t, counts, right, n % c, s, v.end);
    enter_entry(s, w.end, PAIR, v.number, w.number)
}

// Writes the P rows of pair k, left before right, behind those up to row `to`, and its C row; n is the number of its right value. Gives the
// end of the P rows.
fn write_clause(
    t: &[u16],
    counts: &[usize],
    i: usize,
    j: usize,
    k: usize,
    n: usize,
    s: &mut [u16],
    to: usize,
    q: &mut [u16],
) -> usize
    requires { Counted t.now counts.now × (k < max_lines) }
    ensures { ClauseDone (type_of t.now i) (type_of t.now j) k n s.old
        s.new to q.old q.new result }
{
    let v = write_value(t, counts, i, k, s, to);
    let w = write_value(t, counts, j, n, s, v.end);
    store_entry(q, k, v.number, w.number, 0);
    w.end
}

// Writes the P and C rows of n pairs: pair k is of the values of T lines i and j with numbers k and tos[k]. Gives the end of the P rows.
pub fn write_pairs(
    t: &[u16],
    counts: &[usize],
    i: usize,
    j: usize,
    tos: &[u16],
    n: usize,
    s: &mut [u16],
    q: &mut [u16],
) -> usize
    requires { Counted t.now counts.now × (n ≤ max_clauses) }
    ensures { PairsDone (type_of t.now i) (type_of t.now j) tos.now n
        s.old s.new q.old q.new result }
{
    let mut end: usize = 0;
    for k in 0..n {
        end = write_clause(t, counts, i, j, k, wide(item_at(tos, k, 0)), s, end, q);
    }
    end
}
