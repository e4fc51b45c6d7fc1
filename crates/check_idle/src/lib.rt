// Idle lines: T and P lines that no I, C or L line reaches. The rows are walked once, from the last to the
// first, with a mark for each line that a row further down names: lines name only earlier ones, so that a
// row's mark is known when the walk comes to it. An earlier idle line replaces a later one.
#![tactic(auto)]

ghost use Rattle.std.specs.Prelude.{◌≡◌, false, List, ℕ, ◌+◌, ◌≤◌, ◌<◌, set};
ghost use Rattle.std.proofs.Math.Option.{none as nothing};
ghost use Rattle.limits.specs.Fields.{kind_field, first_field, second_field};
ghost use Rattle.limits.specs.Limits.{max_lines};
ghost use Rattle.calculus.specs.Refusals.{Kind as KindOf};
ghost use Rattle.calculus.specs.Clauses.{at};
ghost use Rattle.format.specs.Lines.{Row as RowOf, letter as letter_of};
ghost use Rattle.format.specs.Kinds.{type_kind, pattern_kind};
ghost use Rattle.format.specs.Idle.{type_reach, pattern_reach, is_root, idle_fault};
ghost use Rattle.format.specs.Code.{kind_view, refusal_view};
ghost use Rattle.table_trees.specs.Unfolding.{cell_of};
ghost use Rattle.table_walks.specs.Walk.{FileIn};
ghost use Rattle.check_idle.specs.Marks.{mark_all, idle_at, RowMarked, RowWalked, AllWalked};

use area_cells::{item_at, store};
use codes::{
    CLAUSE_LEFT, CLAUSE_LINE, CLAUSE_RIGHT, ELEMENT, FIRST, ISO_FROM, ISO_LINE, ISO_TO, KIND, LEFT,
    LET_P, LET_Q, LIST, PAIR, PATTERN_LINE, PRODUCT, RIGHT, ROW_LETTER, SECOND, SUM, TYPE_LINE,
};
use format::{Answer, Kind, Refusal};
use limits::MAX_LINES;
use table_trees::cell;

// Marks the line that number k of row n names: a T line where `first` is 0, and else a P line, those from row
// `first` on.
fn mark_line(t: &[u16], first: usize, n: usize, k: usize, marks: &mut [u8])
    requires { first ≤ max_lines }
    ensures { marks.new ≡ set marks.old (first + cell_of t.now n k) 1 }
{
    store(marks, first + cell(t, n, k), 1);
}

// The same for two numbers of a row.
fn mark_both(t: &[u16], first: usize, n: usize, i: usize, j: usize, marks: &mut [u8])
    requires { first ≤ max_lines }
    ensures { marks.new ≡ set (set marks.old (first + cell_of t.now n i) 1) (first + cell_of t.now n j) 1 }
{
    mark_line(t, first, n, i, marks);
    mark_line(t, first, n, j, marks);
}

// Marks the lines that T row n names.
fn name_types(t: &[u16], n: usize, marks: &mut [u8])
    ensures { marks.new
        ≡ mark_all (type_reach (type_kind (cell_of t.now n kind_field)) (cell_of t.now n first_field) (cell_of t.now n second_field)) marks.old }
{
    match cell(t, n, KIND) {
        SUM | PRODUCT => mark_both(t, 0, n, FIRST, SECOND, marks),
        LIST => mark_line(t, 0, n, FIRST, marks),
        _ => {}
    }
}

// Marks the lines that P row n names.
fn name_patterns(t: &[u16], base: usize, n: usize, marks: &mut [u8])
    requires { base ≤ max_lines }
    ensures { marks.new
        ≡ mark_all (pattern_reach base (pattern_kind (cell_of t.now n kind_field)) (cell_of t.now n first_field) (cell_of t.now n second_field)) marks.old }
{
    match cell(t, n, KIND) {
        LEFT | RIGHT => mark_line(t, base, n, FIRST, marks),
        PAIR | ELEMENT => mark_both(t, base, n, FIRST, SECOND, marks),
        _ => {}
    }
}

// Marks the lines that row n names.
fn name_row(t: &[u16], base: usize, n: usize, marks: &mut [u8])
    requires { base ≤ max_lines }
    ensures { RowMarked t.now base n marks.old marks.new }
{
    match cell(t, n, ROW_LETTER) {
        TYPE_LINE => name_types(t, n, marks),
        PATTERN_LINE => name_patterns(t, base, n, marks),
        ISO_LINE => mark_both(t, 0, n, ISO_FROM, ISO_TO, marks),
        CLAUSE_LINE => mark_both(t, base, n, CLAUSE_LEFT, CLAUSE_RIGHT, marks),
        _ => mark_both(t, base, n, LET_P, LET_Q, marks),
    }
}

// Whether a letter is that of an I, C or L line.
fn is_root(letter: usize) -> bool
    ensures { (k : KindOf) → letter ≡ letter_of k → result ≡ is_root k }
{
    !matches!(letter, TYPE_LINE | PATTERN_LINE)
}

fn none() -> Answer
    ensures { (at result.place (refusal_view result.refusal) ≡ nothing) × (result.place ≡ 0) }
{
    Answer {
        place: 0,
        refusal: None,
    }
}

// Row n of this letter is idle.
fn idle(letter: usize, n: usize) -> Answer
    requires { n < max_lines }
    ensures { (k : KindOf) → letter ≡ letter_of k → is_root k ≡ false → at result.place (refusal_view result.refusal) ≡ idle_at k n }
{
    if letter == TYPE_LINE {
        return Answer {
            place: n + 1,
            refusal: Some(Refusal::Idle(Kind::Type)),
        };
    }
    Answer {
        place: n + 1,
        refusal: Some(Refusal::Idle(Kind::Pattern)),
    }
}

// The walk with row n: its names are marked where it is reached, and else it is the first idle line.
fn with_row(t: &[u16], base: usize, n: usize, marks: &mut [u8], found: Answer) -> Answer
    requires { (base ≤ max_lines) × (n < max_lines) }
    ensures { RowWalked t.now base n marks.old marks.new found result }
{
    let letter = cell(t, n, ROW_LETTER);
    if is_root(letter) || item_at(marks, n, 0) == 1 {
        name_row(t, base, n, marks);
        return found;
    }
    idle(letter, n)
}

// The walk from the last row to the first, with no line marked at its start.
fn walk_up(t: &[u16], base: usize, lines: usize, marks: &mut [u8]) -> Answer
    requires { (base ≤ max_lines) × (lines ≤ max_lines) }
    ensures { AllWalked t.now base lines marks.old result }
{
    let mut found = none();
    for n in (0..lines).rev() {
        found = with_row(t, base, n, marks, found);
    }
    found
}

// The first idle line of a table of `lines` rows, of which `types` are T lines. Of a table that holds no
// file's rows nothing is said.
pub fn idle_fault(t: &[u16], types: usize, lines: usize) -> Answer
    ensures { (rs : List RowOf) (patterns : ℕ) → FileIn t.now types patterns lines rs → at result.place (refusal_view result.refusal) ≡ idle_fault rs }
{
    if MAX_LINES < types {
        return none();
    }
    if MAX_LINES < lines {
        return none();
    }
    let mut marks = [0u8; MAX_LINES];
    walk_up(t, types, lines, &mut marks)
}
