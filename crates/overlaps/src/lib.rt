// The overlap of two P lines: whether they clash, and how many node pairs were compared, on a checked
// table and as a service.
#![tactic(auto)]

ghost use Rattle.std.specs.Prelude.{◌≡◌, false, List, ℕ, ◌≤◌, length};
ghost use Rattle.limits.specs.Limits.{table_length};
ghost use Rattle.format.specs.Lines.{Row as RowOf};
ghost use Rattle.model.specs.Services.{accepted};
ghost use Rattle.table_walks.specs.Walk.{FileIn};
ghost use Rattle.check_overlap.specs.Overlap.{overlap_on};
ghost use Rattle.overlaps.specs.OverlapSays.{OverlapAs, OverlapSays};

use area_cells::narrow_number;
use check_overlap::compare;
use checker::check_file;
use format::{Answer, Refusal, is_refused};

// A refusal and its line, or none; whether the patterns clash, and how many node pairs were compared.
#[derive(Clone, Copy)]
pub struct Overlapped {
    pub answer: Answer,
    pub clash: bool,
    pub pairs: u32,
}

fn not_compared(a: Answer) -> Overlapped
    ensures { (result.answer ≡ a) × (result.clash ≡ false) × (result.pairs ≡ 0) }
{
    Overlapped {
        answer: a,
        clash: false,
        pairs: 0,
    }
}

// P lines i and j of a table that holds a checked file with so many T and P lines.
pub fn overlap_checked(t: &[u16], types: usize, patterns: usize, i: usize, j: usize) -> Overlapped
    requires { table_length ≤ length t.now }
    ensures { (lines : ℕ) (rs : List RowOf) → FileIn t.now types patterns lines rs
        → OverlapAs (overlap_on (accepted rs) i j) result }
{
    let absent = Answer {
        place: 0,
        refusal: Some(Refusal::NoIso),
    };
    if patterns <= i || patterns <= j {
        return not_compared(absent);
    }
    let c = compare(t, types, i, j);
    Overlapped {
        answer: Answer {
            place: 0,
            refusal: None,
        },
        clash: c.clash,
        pairs: narrow_number(c.pairs),
    }
}

// Checks a file and compares its P lines i and j.
pub fn overlap(file: &[u8], table: &mut [u16], work: &mut [u8], i: usize, j: usize) -> Overlapped
    ensures { OverlapSays file.now table.old work.old i j table.new
        work.new result }
{
    let c = check_file(file, table, work);
    let a = c.answer;
    let f = a.refusal;
    if is_refused(f) {
        return not_compared(a);
    }
    overlap_checked(table, c.types, c.patterns, i, j)
}
