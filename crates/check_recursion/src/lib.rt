// Refusal 23, of the calls that an iso makes to itself: the rule for its clauses, as written or as turned, over
// the rows of the table.
#![tactic(auto)]

ghost use Rattle.std.specs.Prelude.{◌≡◌, cond, ◌&&◌, suc, ◌-◌, ◌<◌, length, drop};
ghost use Rattle.std.proofs.Math.Option.{none as nothing};
ghost use Rattle.limits.specs.Fields.{clause_left, clause_right};
ghost use Rattle.calculus.specs.Tools.{all};
ghost use Rattle.format.specs.Code.{refusal_view};
ghost use Rattle.calculus.specs.Trees.{vars};
ghost use Rattle.calculus.specs.Clauses.{is_list, zoned, is_var, on_tail, elem, no_calls, tail_calls, tail_rule, shown_rule, shown, clause_rule, recursion_fault, at};
ghost use Rattle.table_trees.specs.Unfolding.{type_of, pattern_of};
ghost use Rattle.table_walks.specs.InTable.{lets_in, clause_in, next_row, clauses_in, iso_in};
ghost use Rattle.check_recursion.specs.Turned.{lets_toward, clause_toward, kept_of};

use area_cells::item_at;
use area_words::wide;
use codes::{
    CLAUSE_LEFT, CLAUSE_RIGHT, ELEMENT, EMPTY, FIRST, ISO_FROM, ISO_TO, KIND, LEFT, LET_ISO, LET_P,
    LET_Q, LIST, PAIR, PRODUCT, RIGHT, SECOND, VARIABLE,
};
use format::{Answer, Kind, Refusal};
use table_parts::{pattern_part, type_part};
use table_trees::{cell, pattern_cell};

// Whether T line a is a list.
fn is_list(t: &[u16], a: usize) -> bool
    ensures { result ≡ is_list (type_of t.now a) }
{
    cell(t, a, KIND) == LIST
}

// Whether T line a is a list, or a product whose first part is one.
pub fn is_zoned(t: &[u16], a: usize) -> bool
    ensures { result ≡ zoned (type_of t.now a) }
{
    match cell(t, a, KIND) {
        LIST => true,
        PRODUCT => is_list(t, type_part(t, a, FIRST)),
        _ => false,
    }
}

// Whether P line q is variable n.
fn is_var(t: &[u16], base: usize, q: usize, n: usize) -> bool
    ensures { result ≡ is_var n (pattern_of t.now base q) }
{
    pattern_cell(t, base, q, KIND) == VARIABLE && n == pattern_cell(t, base, q, FIRST)
}

// Whether P line q is variable n, alone or as the first part of a pair.
fn on_tail(t: &[u16], base: usize, q: usize, n: usize) -> bool
    ensures { result ≡ on_tail n (pattern_of t.now base q) }
{
    match pattern_cell(t, base, q, KIND) {
        VARIABLE => n == pattern_cell(t, base, q, FIRST),
        PAIR => is_var(t, base, pattern_part(t, base, q, FIRST), n),
        _ => false,
    }
}

// Whether P line q holds variable n.
fn holds(t: &[u16], base: usize, q: usize, n: usize) -> bool
    ensures { result ≡ elem n (vars (pattern_of t.now base q)) }
{
    match pattern_cell(t, base, q, KIND) {
        VARIABLE => n == pattern_cell(t, base, q, FIRST),
        LEFT | RIGHT => holds(t, base, pattern_part(t, base, q, FIRST), n),
        PAIR | ELEMENT => {
            holds(t, base, pattern_part(t, base, q, FIRST), n)
                || holds(t, base, pattern_part(t, base, q, SECOND), n)
        }
        _ => false,
    }
}

// Whether no L row from `from` up to `to` names iso i.
pub fn no_calls(t: &[u16], base: usize, i: usize, from: usize, to: usize) -> bool
    ensures { result ≡ no_calls i (lets_in t.now base from (to - from)) }
{
    for n in from..to {
        if cell(t, n, LET_ISO) == i {
            return false;
        }
    }
    true
}

// Whether a call of iso i on P line q is on the tail that variable v holds, and no L row from `from` up to `to`
// makes another.
fn only_call(t: &[u16], base: usize, i: usize, v: usize, q: usize, from: usize, to: usize) -> bool
    ensures { result ≡ (on_tail v (pattern_of t.now base q) && no_calls i (lets_in t.now base from (to - from))) }
{
    on_tail(t, base, q, v) && no_calls(t, base, i, from, to)
}

// Whether the L rows from `from` up to `to` name iso i at most once, on the tail that variable v holds until
// one of them uses it. In the turned file the last row comes first, and p and q are exchanged.
fn tail_calls(
    t: &[u16],
    base: usize,
    i: usize,
    v: usize,
    back: bool,
    from: usize,
    to: usize,
) -> bool
    ensures { result ≡ tail_calls i v (lets_toward back t.now base from (to - from)) }
{
    let mut first = from;
    let mut end = to;
    while first < end {
        let (n, used) = if back {
            end -= 1;
            (end, LET_P)
        } else {
            first += 1;
            (first - 1, LET_Q)
        };
        let q = cell(t, n, used);
        if cell(t, n, LET_ISO) == i {
            return only_call(t, base, i, v, q, first, end);
        }
        if holds(t, base, q, v) {
            return no_calls(t, base, i, first, end);
        }
    }
    true
}

// The rule for L rows under an element whose tail is P line q.
fn tail_rule(t: &[u16], base: usize, i: usize, q: usize, back: bool, from: usize, to: usize) -> bool
    ensures { result ≡ tail_rule i (pattern_of t.now base q)
        (lets_toward back t.now base from (to - from)) }
{
    if pattern_cell(t, base, q, KIND) == VARIABLE {
        let v = pattern_cell(t, base, q, FIRST);
        return tail_calls(t, base, i, v, back, from, to);
    }
    no_calls(t, base, i, from, to)
}

// The rule for L rows under a pattern that shows P line p.
pub fn shown_rule(
    t: &[u16],
    base: usize,
    i: usize,
    p: usize,
    back: bool,
    from: usize,
    to: usize,
) -> bool
    ensures { result ≡ shown_rule i (pattern_of t.now base p)
        (lets_toward back t.now base from (to - from)) }
{
    match pattern_cell(t, base, p, KIND) {
        EMPTY => no_calls(t, base, i, from, to),
        ELEMENT => tail_rule(t, base, i, pattern_part(t, base, p, SECOND), back, from, to),
        _ => false, // shows neither
    }
}

// What a left pattern shows where a list stands: of a pair the first part.
pub fn shown_line(t: &[u16], base: usize, p: usize) -> usize
    ensures { pattern_of t.now base result ≡ shown (pattern_of t.now base p) }
{
    if pattern_cell(t, base, p, KIND) == PAIR {
        return pattern_part(t, base, p, FIRST);
    }
    p
}

// The field of a C row that holds the left pattern, as written or as turned.
fn left_field(back: bool) -> usize
    ensures { result ≡ cond back clause_right clause_left }
{
    if back { CLAUSE_RIGHT } else { CLAUSE_LEFT }
}

// Whether the clause with its C row at `row` and its L rows up to `end` keeps the rule, as written or as turned.
pub fn clause_rule(t: &[u16], base: usize, i: usize, back: bool, row: usize, end: usize) -> bool
    requires { row < 65536 }
    ensures { result ≡ clause_rule i (clause_toward back (clause_in t.now base row end)) }
{
    let p = cell(t, row, left_field(back));
    let s = shown_line(t, base, p);
    shown_rule(t, base, i, s, back, row + 1, end)
}

// The row behind the L rows of the clause at place k: that of the next C row, or `last`.
fn next_row(rows: &[u16], k: usize, last: usize) -> usize
    requires { k < length rows.now }
    ensures { result ≡ next_row (drop (suc k) rows.now) last }
{
    rows.get(k + 1).map_or(last, |row| wide(*row))
}

// Whether no clause of these rows calls iso i.
fn is_quiet(t: &[u16], base: usize, i: usize, rows: &[u16], last: usize) -> bool
    ensures { result ≡ all (λ c. no_calls i c.lets) (clauses_in t.now base rows.now last) }
{
    for (k, row) in rows.iter().enumerate() {
        if !no_calls(t, base, i, wide(*row) + 1, next_row(rows, k, last)) {
            return false;
        }
    }
    true
}

// How many clauses of these rows, from the first on, keep the rule.
fn kept(t: &[u16], base: usize, i: usize, back: bool, rows: &[u16], last: usize) -> usize
    ensures { result ≡ kept_of (λ c. clause_rule i (clause_toward back c))
        (clauses_in t.now base rows.now last) }
{
    for (k, row) in rows.iter().enumerate() {
        if !clause_rule(t, base, i, back, wide(*row), next_row(rows, k, last)) {
            return k;
        }
    }
    rows.len()
}

// Whether an iso from T line a with these clauses keeps the rule, as written or as turned.
fn is_structural(
    t: &[u16],
    base: usize,
    i: usize,
    back: bool,
    a: usize,
    rows: &[u16],
    last: usize,
) -> bool
    ensures { result ≡ (zoned (type_of t.now a) && all (λ c. clause_rule i (clause_toward back c))
        (clauses_in t.now base rows.now last)) }
{
    is_zoned(t, a) && kept(t, base, i, back, rows, last) == rows.len()
}

fn passed() -> Answer
    ensures { at result.place (refusal_view result.refusal) ≡ nothing }
{
    Answer {
        place: 0,
        refusal: None,
    }
}

// Refusal 23 of iso i, its I row at `row`, its C rows these, its last L rows up to `last`.
pub fn recursion_fault(
    t: &[u16],
    base: usize,
    i: usize,
    row: usize,
    rows: &[u16],
    last: usize,
) -> Answer
    requires { row < 65536 }
    ensures { at result.place (refusal_view result.refusal) ≡ recursion_fault i
        (iso_in t.now base row rows.now last) }
{
    if is_quiet(t, base, i, rows, last) {
        return passed();
    }
    if is_structural(t, base, i, false, cell(t, row, ISO_FROM), rows, last) {
        return passed();
    }
    if is_structural(t, base, i, true, cell(t, row, ISO_TO), rows, last) {
        return passed();
    }
    if is_zoned(t, cell(t, row, ISO_FROM)) {
        let k = kept(t, base, i, false, rows, last);
        if k < rows.len() {
            return Answer {
                place: wide(item_at(rows, k, 0)) + 1,
                refusal: Some(Refusal::Recursion(Kind::Clause)),
            };
        }
        return passed();
    }
    Answer {
        place: row + 1,
        refusal: Some(Refusal::Recursion(Kind::Iso)),
    }
}
