// All isos of a table. The rows are walked from the last to the first, so that L rows are known before
// their C row and C rows before their I row; an earlier refusal replaces a later one.
#![tactic(auto)]

ghost use Rattle.std.specs.Prelude.{◌≡◌, true, List, ◌+◌, ◌≤◌, ◌<◌, length, set};
ghost use Rattle.std.proofs.Math.Option.{none as nothing};
ghost use Rattle.check_facts.specs.Facts.{Facts, facts_length};
ghost use Rattle.check_bare.specs.Bare.{Bares};
ghost use Rattle.check_known.specs.Known.{Known};
ghost use Rattle.limits.specs.Limits.{table_length, max_isos, max_clauses, max_lines};
ghost use Rattle.format.specs.Lines.{Row as RowOf, letter};
ghost use Rattle.calculus.specs.Tools.{or_else};
ghost use Rattle.calculus.specs.Refusals.{iso_line, clause_line};
ghost use Rattle.format.specs.Code.{refusal_view};
ghost use Rattle.format.specs.Unfold.{isos_of};
ghost use Rattle.calculus.specs.Clauses.{at, fault};
ghost use Rattle.table_walks.specs.InTable.{whole_fault};
ghost use Rattle.table_walks.specs.Walk.{FileIn};
ghost use Rattle.check_isos.specs.Answers.{as_fault, OwnFault};
ghost use Rattle.check_isos.specs.Walked.{LineCollected, LinesCollected, KindWalked, ClauseWalked, RowWalked, AllWalked};

use area_cells::item_at;
use area_words::{narrow, wide};
use check_bare::find_bares;
use check_clauses::clause_fault;
use check_coverage::side_fault;
use check_facts::{FACTS, find_facts};
use check_known::{KNOWN, any_large, find_known};
use check_recursion::recursion_fault;
use codes::{CLAUSE_LINE, ISO_FROM, ISO_LINE, ISO_TO, ROW_LETTER};
use format::{Answer, Refusal, is_refused};
use limits::{MAX_CLAUSES, MAX_ISOS, MAX_LINES};
use table_trees::cell;

// The rows of the I lines.
#[derive(Clone, Copy)]
pub struct Starts {
    pub rows: [u16; MAX_ISOS],
    pub count: usize,
}

// One I line more, where there is room for it.
fn with_start(mut s: Starts, n: usize) -> Starts
    ensures { s.count < max_isos → n < 65536 → (result.rows ≡ set s.rows s.count n) × (result.count ≡ s.count + 1) }
{
    if s.count < MAX_ISOS {
        s.rows[s.count] = narrow(n);
        s.count += 1;
    }
    s
}

// The I lines with row n, if it is one.
fn with_line(t: &[u16], s: Starts, n: usize) -> Starts
    ensures { LineCollected t.now n s result }
{
    if cell(t, n, ROW_LETTER) == ISO_LINE {
        return with_start(s, n);
    }
    s
}

// The rows of the I lines among the rows from `from` up to `to`.
fn iso_rows(t: &[u16], from: usize, to: usize) -> Starts
    ensures { LinesCollected t.now from to result }
{
    let mut s = Starts {
        rows: [0u16; MAX_ISOS],
        count: 0,
    };
    for n in from..to {
        s = with_line(t, s, n);
    }
    s
}

// What the rows from some place on have come to: the rows of the C lines of an iso above, from place
// `first` of `clauses` on; the row where the L lines of the next C line above end, and the row where
// the iso ends; how many I lines stand above; the first refusal of those clauses; the first refusal of
// the isos further down.
#[derive(Clone, Copy)]
pub struct Walk {
    pub clauses: [u16; MAX_CLAUSES],
    pub first: usize,
    pub below: usize,
    pub last: usize,
    pub iso: usize,
    pub pending: Answer,
    pub found: Answer,
}

fn none() -> Answer
    ensures { (as_fault result ≡ nothing) × (result.place ≡ 0) }
{
    Answer {
        place: 0,
        refusal: None,
    }
}

// A refusal and its line, or none at line 0.
fn told(a: Answer) -> Answer
    ensures { (as_fault result ≡ as_fault a) × (refusal_view result.refusal ≡ nothing → result.place ≡ 0) }
{
    let f = a.refusal;
    if is_refused(f) {
        return a;
    }
    none()
}

// The refusal of an earlier row, or else what was found further down.
fn sooner(f: Option<Refusal>, place: usize, later: Answer) -> Answer
    ensures { as_fault result ≡ or_else (at place (refusal_view f)) (as_fault later) }
{
    if is_refused(f) {
        return Answer {
            place: place,
            refusal: f,
        };
    }
    later
}

// The refusal of the clause with its C row at n and its L rows up to `below`, in the iso of place `own`.
fn own_fault(
    t: &[u16],
    f: &[u8],
    g: &[u16],
    k: &[u8],
    base: usize,
    starts: &[u16],
    own: usize,
    n: usize,
    below: usize,
) -> Option<Refusal>
    requires { Facts t.now base f.now × Bares t.now base g.now × Known t.now base k.now }
    ensures { OwnFault t.now base starts.now own n below (refusal_view result) }
{
    let head = wide(item_at(starts, own, 0));
    let a = cell(t, head, ISO_FROM);
    let b = cell(t, head, ISO_TO);
    clause_fault(t, f, g, k, base, starts, a, b, n, below)
}

// Whether an I line stands above row n of the table, and place `first` is one of the clauses' or their end.
fn is_inside(i: usize, first: usize, n: usize) -> bool
    ensures { (result ≡ true → (0 < i) × (first ≤ max_clauses) × (n < max_lines)) × (0 < i → first ≤ max_clauses → n < max_lines → result ≡ true) }
{
    0 < i && first <= MAX_CLAUSES && n < MAX_LINES
}

// The walk with the C row n.
fn with_clause(
    t: &[u16],
    f: &[u8],
    g: &[u16],
    k: &[u8],
    base: usize,
    starts: &[u16],
    w: Walk,
    n: usize,
) -> Walk
    requires { Facts t.now base f.now × Bares t.now base g.now × Known t.now base k.now }
    ensures { ClauseWalked clause_line t.now base starts.now n w result }
{
    let i = w.iso;
    let first = w.first;
    // One test in another: with both in one the proof of the way past them has not closed.
    if is_inside(i, first, n) {
        if 0 < first {
            let fault = own_fault(t, f, g, k, base, starts, i - 1, n, w.below);
            let slot = first - 1;
            let mut clauses = w.clauses;
            clauses[slot] = narrow(n);
            return Walk {
                clauses: clauses,
                first: slot,
                below: n,
                pending: sooner(fault, n + 1, w.pending),
                ..w
            };
        }
    }
    w
}

// The first refusal from an I row n on, that of iso i: at a clause of it, or else in its calls of
// itself, or else on its sides, or else what was found further down.
fn iso_found(
    t: &[u16],
    f: &[u8],
    base: usize,
    i: usize,
    n: usize,
    rows: &[u16],
    last: usize,
    pending: Answer,
    found: Answer,
) -> Answer
    requires { (table_length ≤ length t.now) × (length rows.now ≤ max_clauses) × (n < max_lines)
        × Facts t.now base f.now × (length f.now ≤ max_lines) }
    ensures { as_fault result ≡ or_else (or_else (as_fault pending) (whole_fault t.now base i n rows.now last)) (as_fault found) }
{
    let early = pending.refusal;
    if is_refused(early) {
        return pending;
    }
    let own = recursion_fault(t, base, i, n, rows, last);
    let broken = own.refusal;
    if is_refused(broken) {
        return own;
    }
    sooner(side_fault(t, f, base, rows, n), n + 1, found)
}

// The walk with the I row n.
fn with_iso(t: &[u16], f: &[u8], base: usize, w: Walk, n: usize) -> Walk
    requires { (table_length ≤ length t.now) × Facts t.now base f.now × (length f.now ≤ max_lines) }
    ensures { KindWalked iso_line t.now base n w result }
{
    let i = w.iso;
    let first = w.first;
    if is_inside(i, first, n) {
        let clear = none();
        let above = i - 1;
        let last = w.last;
        return Walk {
            first: MAX_CLAUSES,
            below: n,
            last: n,
            iso: above,
            pending: clear,
            found: iso_found(
                t,
                f,
                base,
                above,
                n,
                &w.clauses[first..MAX_CLAUSES],
                last,
                w.pending,
                w.found,
            ),
            ..w
        };
    }
    w
}

// The walk with row n. An L row leaves it as it is.
fn with_row(
    t: &[u16],
    f: &[u8],
    g: &[u16],
    k: &[u8],
    base: usize,
    starts: &[u16],
    w: Walk,
    n: usize,
) -> Walk
    requires { (table_length ≤ length t.now) × Facts t.now base f.now × (length f.now ≤ max_lines) × Bares t.now base g.now × Known t.now base k.now }
    ensures { RowWalked t.now base starts.now n w result }
{
    match cell(t, n, ROW_LETTER) {
        CLAUSE_LINE => with_clause(t, f, g, k, base, starts, w, n),
        ISO_LINE => with_iso(t, f, base, w, n),
        _ => w,
    }
}

// The first refusal of the isos of a table of `lines` rows, of which `types` are T lines and then
// `patterns` P lines. Of a table that holds no file's rows nothing is said but that no refusal has no line.
pub fn isos_fault(t: &[u16], types: usize, patterns: usize, lines: usize) -> Answer
    requires { table_length ≤ length t.now }
    ensures { ((rs : List RowOf) → FileIn t.now types patterns lines rs → as_fault result ≡ fault (isos_of rs))
        × (refusal_view result.refusal ≡ nothing → result.place ≡ 0) }
{
    if MAX_LINES < types {
        return none();
    }
    if MAX_LINES < patterns {
        return none();
    }
    let stop = types + patterns;
    let s = iso_rows(t, stop, lines);
    let rows = s.rows;
    let count = s.count;
    if MAX_ISOS < count {
        return none();
    }
    told(walk_lines(t, types, &rows[0..count], stop, lines, count))
}

// The first refusal that the walk from the last row up to row `stop` finds.
fn walk_up(
    t: &[u16],
    f: &[u8],
    g: &[u16],
    k: &[u8],
    base: usize,
    starts: &[u16],
    stop: usize,
    lines: usize,
    isos: usize,
) -> Answer
    requires { (table_length ≤ length t.now) × Facts t.now base f.now × (length f.now ≤ max_lines) × Bares t.now base g.now × Known t.now base k.now }
    ensures { AllWalked t.now base starts.now stop lines isos result }
{
    let clean = none();
    let mut w = Walk {
        clauses: [0u16; MAX_CLAUSES],
        first: MAX_CLAUSES,
        below: lines,
        last: lines,
        iso: isos,
        pending: clean,
        found: clean,
    };
    for n in (stop..lines).rev() {
        w = with_row(t, f, g, k, base, starts, w, n);
    }
    w.found
}

// The same, once the fits of large P lines are found.
fn walk_known(
    t: &[u16],
    f: &[u8],
    g: &[u16],
    base: usize,
    starts: &[u16],
    stop: usize,
    lines: usize,
    isos: usize,
) -> Answer
    requires { (table_length ≤ length t.now) × Facts t.now base f.now × (length f.now ≤ max_lines) × Bares t.now base g.now }
    ensures { AllWalked t.now base starts.now stop lines isos result }
{
    let mut k = [0u8; KNOWN];
    find_known(t, g, &mut k, base, starts, stop, lines);
    walk_up(t, f, g, &k, base, starts, stop, lines, isos)
}

// The same with no fits found, where no P line is large.
fn walk_small(
    t: &[u16],
    f: &[u8],
    g: &[u16],
    base: usize,
    starts: &[u16],
    stop: usize,
    lines: usize,
    isos: usize,
) -> Answer
    requires { (table_length ≤ length t.now) × Facts t.now base f.now × (length f.now ≤ max_lines) × Bares t.now base g.now }
    ensures { AllWalked t.now base starts.now stop lines isos result }
{
    let k = [0u8; 1];
    walk_up(t, f, g, &k, base, starts, stop, lines, isos)
}

// The same, once what the T and P lines tell is found.
fn walk_with(
    t: &[u16],
    f: &mut [u8],
    g: &mut [u16],
    base: usize,
    starts: &[u16],
    stop: usize,
    lines: usize,
    isos: usize,
) -> Answer
    requires { (table_length ≤ length t.now) × (length f.old ≤ max_lines) × (length g.old ≤ max_lines) }
    ensures { AllWalked t.now base starts.now stop lines isos result }
{
    find_facts(t, f, base);
    find_bares(t, g, base);
    if any_large(t, g, base, stop) {
        return walk_known(t, f, g, base, starts, stop, lines, isos);
    }
    walk_small(t, f, g, base, starts, stop, lines, isos)
}

// As many lines as facts have a place for, or none.
fn known(stop: usize) -> usize
    ensures { result ≤ facts_length }
{
    if stop <= FACTS { stop } else { 0 }
}

fn walk_lines(
    t: &[u16],
    base: usize,
    starts: &[u16],
    stop: usize,
    lines: usize,
    isos: usize,
) -> Answer
    requires { table_length ≤ length t.now }
    ensures { AllWalked t.now base starts.now stop lines isos result }
{
    let mut f = [0u8; FACTS];
    let mut g = [0u16; FACTS];
    let most = known(stop);
    walk_with(
        t,
        &mut f[0..most],
        &mut g[0..most],
        base,
        starts,
        stop,
        lines,
        isos,
    )
}
