// The value that shows the fault of a side, on a table that still holds the file's lines: the rows of the
// refused iso's clauses, and the search that the refusal asks for.
#![tactic(auto)]

ghost use Rattle.std.specs.Prelude.{◌≤◌, length};
ghost use Rattle.limits.specs.Limits.{table_length, result_length};
ghost use Rattle.fault_values.specs.Faults.{ClauseCollected, RowCollected, RowsCollected, IsoShown, FaultShown};

use area_words::narrow;
use codes::{CLAUSE_LEFT, CLAUSE_LINE, CLAUSE_RIGHT, ISO_FROM, ISO_LINE, ISO_TO, ROW_LETTER};
use fault_gaps::gap_value;
use fault_pairs::show_overlap;
use limits::MAX_CLAUSES;
use table_trees::cell;

// The rows of the C lines of an iso, from place `first` of `rows` on.
#[derive(Clone, Copy)]
pub struct Clauses {
    pub rows: [u16; MAX_CLAUSES],
    pub first: usize,
}

// One C row more, before the others, where there is room for it.
fn with_clause(c: Clauses, n: usize) -> Clauses
    ensures { ClauseCollected n c result }
{
    let first = c.first;
    if first == 0 || MAX_CLAUSES < first {
        return c;
    }
    let slot = first - 1;
    let mut r = c;
    r.rows[slot] = narrow(n);
    r.first = slot;
    r
}

// The rows with row n: a C row is one of them, and at an I row another iso's begin.
fn with_row(t: &[u16], c: Clauses, n: usize) -> Clauses
    ensures { RowCollected t.now n c result }
{
    match cell(t, n, ROW_LETTER) {
        CLAUSE_LINE => with_clause(c, n),
        ISO_LINE => Clauses {
            first: MAX_CLAUSES,
            ..c
        },
        _ => c,
    }
}

// The rows of the C lines from row `from` on that belong to an iso above.
fn clauses_from(t: &[u16], from: usize, lines: usize) -> Clauses
    ensures { RowsCollected t.now from lines result }
{
    let mut c = Clauses {
        rows: [0u16; MAX_CLAUSES],
        first: MAX_CLAUSES,
    };
    for n in (from..lines).rev() {
        c = with_row(t, c, n);
    }
    c
}

// Writes what shows refusal 11, 12, 13 or 14 of the iso with its I row at `head` and these C rows.
fn show_side(t: &[u16], base: usize, number: u8, head: usize, rows: &[u16], out: &mut [u8]) -> usize
    requires { (table_length ≤ length t.now) × (result_length ≤ length out.old) }
    ensures { IsoShown t.now base number head rows.now out.old out.new result }
{
    let from = cell(t, head, ISO_FROM);
    let to = cell(t, head, ISO_TO);
    match number {
        11 => show_overlap(t, base, CLAUSE_LEFT, rows, from, out),
        12 => show_overlap(t, base, CLAUSE_RIGHT, rows, to, out),
        13 => gap_value(t, base, CLAUSE_LEFT, rows, from, out),
        _ => gap_value(t, base, CLAUSE_RIGHT, rows, to, out),
    }
}

// Writes the letters of the value that shows a refusal with this number at this line, and gives how many
// there are; with a number other than 11 to 14 none.
pub fn show_fault(
    t: &[u16],
    base: usize,
    lines: usize,
    number: u8,
    place: usize,
    out: &mut [u8],
) -> usize
    requires { (table_length ≤ length t.now) × (result_length ≤ length out.old) }
    ensures { FaultShown t.now base lines number place out.old out.new result }
{
    if number < 11 || 14 < number {
        return 0;
    }
    let c = clauses_from(t, place, lines);
    if place == 0 || MAX_CLAUSES < c.first {
        return 0;
    }
    show_side(
        t,
        base,
        number,
        place - 1,
        &c.rows[c.first..MAX_CLAUSES],
        out,
    )
}
