// A script of visits, line by line: `S,unit,iso,direction`.
#![tactic(auto)]

ghost use Rattle.std.specs.Prelude.{◌≡◌, drop};
ghost use Rattle.law_units.specs.Units.{planned_in, planned_of};
ghost use Rattle.unit_script.specs.Views.{as_planned, behind_letter, LineTold, ScriptTold};

use area_cells::item_at;
use area_parts::front;
use codes::LETTER_S;
use format::{Refusal, is_refused};
use limits::MAX_FIELD;
use read_fields::Cursor;

// A planned visit.
#[derive(Clone, Copy)]
pub struct Planned {
    pub unit: usize,
    pub iso: usize,
    pub back: bool,
}

// The three numbers of a visit, from behind its letter on, and nothing behind them.
fn after_letter(c: Cursor, s: &[u8]) -> Option<Planned>
    ensures { as_planned result ≡ behind_letter (drop c.at s.now) }
{
    let (unit, d) = c.field(s, MAX_FIELD)?;
    let (iso, e) = d.field(s, MAX_FIELD)?;
    let (direction, f) = e.field(s, 1)?;
    f.end(s)?;
    Some(Planned {
        unit,
        iso,
        back: direction == 1,
    })
}

// The visit in a text.
fn planned_in(s: &[u8]) -> Option<Planned>
    ensures { as_planned result ≡ planned_in s.now }
{
    let start = Cursor { at: 0 };
    after_letter(start.skip(s, LETTER_S)?, s)
}

// The visit in a line.
pub fn planned_of(line: &[u8]) -> Option<Planned>
    ensures { as_planned result ≡ planned_of line.now }
{
    let c = Cursor::before_ending(line)?;
    planned_in(front(line, c.at))
}

// The refusal of a line, where it plans no visit to one of so many units by one of so many isos, or one by an
// iso that has to do with lists: those have a mark.
fn line_fault(line: &[u8], units: usize, isos: usize, marks: &[u8]) -> Option<Refusal>
    ensures { LineTold units isos marks.now line.now result }
{
    let Some(p) = planned_of(line) else {
        return Some(Refusal::BadScript);
    };
    if units <= p.unit {
        return Some(Refusal::BadScript);
    }
    if isos <= p.iso {
        return Some(Refusal::BadScript);
    }
    if item_at(marks, p.iso, 0) == 0 {
        return None;
    }
    Some(Refusal::TooMany)
}

// The refusal of the first line of a script that has one.
pub fn script_fault(script: &[u8], units: usize, isos: usize, marks: &[u8]) -> Option<Refusal>
    ensures { ScriptTold units isos marks.now script.now result }
{
    let mut at: usize = 0;
    while at < script.len() {
        let end = Cursor { at: at }.line_end(script).at;
        let f = line_fault(&script[at..end], units, isos, marks);
        if is_refused(f) {
            return f;
        }
        at = end;
    }
    None
}
