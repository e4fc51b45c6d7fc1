// Check: the file's bytes, a table area and a work area in; a number and a line out.
#![tactic(auto)]

ghost use Rattle.std.specs.Prelude.{◌≡◌, List, ◌≤◌, length};
ghost use Rattle.std.proofs.Math.Option.{none};
ghost use Rattle.limits.specs.Limits.{table_length, max_lines};
ghost use Rattle.format.specs.Lines.{Row as RowOf, lines};
ghost use Rattle.format.specs.Judge.{start, rows, read_from};
ghost use Rattle.format.specs.Code.{refusal_view};
ghost use Rattle.model.specs.Services.{file_tests, short, unless, verdict};
ghost use Rattle.calculus.specs.Tools.{stages};
ghost use Rattle.table_walks.specs.Walk.{FileIn};
ghost use Rattle.check_isos.specs.Answers.{as_fault};
ghost use Rattle.checker.specs.CheckSays.{CheckSays, Outcome, Loaded, Entered, Settled, Accepted, Filed, Early, counts_of, no_counts, counts_read, counts_by};

use area_parts::clear;
use check_idle::idle_fault;
use check_isos::isos_fault;
use format::{Answer, Refusal, is_refused};
use limits::{MAX_BYTES, MAX_LINES, TABLE_LENGTH, WORK_LENGTH};
use read_lines::read::read_file;
use read_split::count_lines;

// An answer, and how many T, P and I lines the table holds, and how many lines; 0 of each where it holds none.
#[derive(Clone, Copy)]
pub struct Checked {
    pub answer: Answer,
    pub types: usize,
    pub patterns: usize,
    pub isos: usize,
    pub lines: usize,
}

// A refusal, and no lines.
fn refused(place: usize, f: Option<Refusal>) -> Checked
    ensures { (result.answer.place ≡ place) × (result.answer.refusal ≡ f) × (counts_of result ≡ no_counts) }
{
    Checked {
        answer: Answer {
            place: place,
            refusal: f,
        },
        types: 0,
        patterns: 0,
        isos: 0,
        lines: 0,
    }
}

// The first refusal of the rows of a file, behind the reading: an idle line, and only then its isos.
fn lines_fault(t: &[u16], types: usize, patterns: usize, lines: usize) -> Answer
    requires { table_length ≤ length t.now }
    ensures { ((rs : List RowOf) → FileIn t.now types patterns lines rs → as_fault result ≡ stages file_tests rs)
        × (refusal_view result.refusal ≡ none → result.place ≡ 0) }
{
    let a = idle_fault(t, types, lines);
    if is_refused(a.refusal) {
        return a;
    }
    isos_fault(t, types, patterns, lines)
}

// A file of at most 4,096 lines, read into a table of at least 20,480 numbers, and its isos.
fn judged(file: &[u8], table: &mut [u16]) -> Checked
    requires { (table_length ≤ length table.old) × (length (lines file.now) ≤ max_lines) }
    ensures { Outcome file.now table.old table.new result.answer
        × ((rs : List RowOf) → read_from start 1 (lines file.now) ≡ rows rs
        → Loaded file.now table.new result)
        × (counts_of result ≡ counts_read (read_from start 1 (lines file.now))) }
{
    let r = read_file(file, table);
    let f = r.refusal;
    if is_refused(f) {
        return refused(r.place, f);
    }
    let seen = r.seen;
    let a = lines_fault(table, seen.types, seen.patterns, r.lines);
    Checked {
        answer: a,
        types: seen.types,
        patterns: seen.patterns,
        isos: seen.isos,
        lines: r.lines,
    }
}

// A file of at most 4,096 lines, read into a table that is cleared first, and its isos. The rows of a file
// whose lines pass are then in the table, also where an iso is refused; of another those before its first
// refused line, and nothing is counted.
pub fn entered(file: &[u8], table: &mut [u16]) -> Checked
    requires { (table_length ≤ length table.old) × (length (lines file.now) ≤ max_lines) }
    ensures { Entered file.now table.old table.new result }
{
    clear(table, TABLE_LENGTH, 0);
    judged(file, table)
}

// What Check says of such a table and leaves in it: zeros, and nothing counted, where the file is refused.
pub fn settled(table: &mut [u16], c: Checked) -> Checked
    ensures { Settled table.old table.new c result }
{
    let f = c.answer.refusal;
    if is_refused(f) {
        clear(table, TABLE_LENGTH, 0);
        return refused(c.answer.place, f);
    }
    c
}

// A file of at most 4,096 lines, its rows in a table that was cleared, or zeros where it is refused.
fn filed(file: &[u8], table: &mut [u16]) -> Checked
    requires { (table_length ≤ length table.old) × (length (lines file.now) ≤ max_lines) }
    ensures { Filed file.now table.old table.new result }
{
    let c = entered(file, table);
    settled(table, c)
}

// Refusal 1 or 2 of a file and two areas of these lengths, or nothing.
pub fn early(file: &[u8], table: usize, work: usize) -> Option<Refusal>
    ensures { Early file.now table work result }
{
    if table < TABLE_LENGTH {
        return Some(Refusal::ShortArea);
    }
    if work < WORK_LENGTH {
        return Some(Refusal::ShortArea);
    }
    if MAX_BYTES < file.len() {
        return Some(Refusal::TooLong);
    }
    if MAX_LINES < count_lines(file) {
        return Some(Refusal::TooLong);
    }
    None
}

// Check, for the services that go on from an accepted file: its rows are then in the table.
pub fn check_file(file: &[u8], table: &mut [u16], work: &mut [u8]) -> Checked
    ensures { CheckSays file.now table.old work.old table.new
        work.new result.answer
        × (refusal_view result.answer.refusal ≡ none → Accepted file.now table.new result)
        × (counts_of result ≡ counts_by (unless (short table.old work.old) (verdict file.now))) }
{
    let f = early(file, table.len(), work.len());
    if is_refused(f) {
        return refused(0, f);
    }
    clear(work, WORK_LENGTH, 0);
    filed(file, table)
}

// Checks a file. The table needs 20,480 numbers, the work area 65,536 bytes; refusals 1 and 2 change
// nothing, any other answer clears the work area's front and leaves the file's rows, or zeros, in the
// table's.
pub fn check(file: &[u8], table: &mut [u16], work: &mut [u8]) -> Answer
    ensures { CheckSays file.now table.old work.old table.new work.new result }
{
    let c = check_file(file, table, work);
    c.answer
}
