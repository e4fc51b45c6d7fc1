// Units tried out: a file is checked once, and the visits of a script are played on the units that the caller
// lends, one line after the other; the record that is lent counts what came of each.
#![tactic(auto)]

ghost use Rattle.std.specs.Prelude.{◌≡◌, false, cond, not, ◌||◌, ltb};
ghost use Rattle.limits.specs.Limits.{max_lines, max_units};
ghost use Rattle.calculus.specs.Tools.{is_some};
ghost use Rattle.format.specs.Code.{refusal_view};
ghost use Rattle.model.specs.Services.{short};
ghost use Rattle.law_units.specs.Units.{unequal};
ghost use Rattle.planner.specs.PlaySays.{VisitsSay, PlaySays};

use checker::check_file;
use format::{Answer, Refusal, is_refused};
use limits::{MAX_LINES, MAX_UNITS, TABLE_LENGTH, WORK_LENGTH};
use read_split::count_lines;
use unit_plays::play_accepted;
use unit_tally::{Tally, count_visits};

// An answer, how many visits are marked in the work area, and whether the script was played: a count and a flag,
// as `SaidOf` says of each and `count_visits` takes each.
#[derive(Clone, Copy)]
pub struct Visits {
    pub answer: Answer,
    pub count: usize,
    pub played: bool,
}

// A refusal: nothing is played.
fn refused(place: usize, f: Option<Refusal>) -> Visits
    ensures { (result.answer.place ≡ place) × (result.answer.refusal ≡ f) × (result.count ≡ 0) × (result.played ≡ false) }
{
    Visits {
        answer: Answer {
            place: place,
            refusal: f,
        },
        count: 0,
        played: false,
    }
}

// What is answered of an accepted file: a refusal, or n visits that were played.
fn settled(g: Option<Refusal>, n: usize) -> Visits
    ensures { (result.answer.place ≡ 0) × (result.answer.refusal ≡ g) × (result.count ≡ cond (is_some (refusal_view g)) 0 n)
        × (result.played ≡ not (is_some (refusal_view g))) }
{
    if is_refused(g) {
        return refused(0, g);
    }
    Visits {
        answer: Answer {
            place: 0,
            refusal: g,
        },
        count: n,
        played: true,
    }
}

// Whether a lent area is too short, or the areas of the units differ in length.
fn is_short(table: &[u16], work: &[u8], lines: &[u32], settings: &[u32]) -> bool
    ensures { result ≡ (short table.now work.now
        || unequal (record { types = lines.now; settings = settings.now })) }
{
    table.len() < TABLE_LENGTH || work.len() < WORK_LENGTH || lines.len() != settings.len()
}

// Whether there are too many units, or too many lines in a script.
fn is_long(units: usize, lines: usize) -> bool
    ensures { result ≡ (ltb max_units units || ltb max_lines lines) }
{
    MAX_UNITS < units || MAX_LINES < lines
}

// Checks a file, tests the units and the script, and plays; the marks of the visits are left in the work area.
fn play_marked(
    file: &[u8],
    table: &mut [u16],
    work: &mut [u8],
    lines: &mut [u32],
    settings: &mut [u32],
    script: &[u8],
    budget: u32,
) -> Visits
    ensures { VisitsSay file.now table.old work.old lines.old settings.old
        script.now budget table.new work.new lines.new settings.new result }
{
    if is_short(table, work, lines, settings) {
        return refused(0, Some(Refusal::ShortArea));
    }
    let n = count_lines(script);
    if is_long(lines.len(), n) {
        return refused(0, Some(Refusal::TooLong));
    }
    let c = check_file(file, table, work);
    let a = c.answer;
    let f = a.refusal;
    if is_refused(f) {
        return refused(a.place, f);
    }
    let g = play_accepted(table, c, script, budget, work, lines, settings);
    settled(g, n)
}

// Checks a file, tests the units and the script, and plays the script's visits, under one budget a visit. The
// table needs 20,480 numbers, the work area 65,536 bytes, and the two areas of the units one length. The
// record counts the visits done, skipped and spent, from 0; a refusal leaves units and record as they were.
pub fn play(
    file: &[u8],
    table: &mut [u16],
    work: &mut [u8],
    lines: &mut [u32],
    settings: &mut [u32],
    script: &[u8],
    budget: u32,
    tally: &mut Tally,
) -> Answer
    ensures { PlaySays file.now table.old work.old lines.old settings.old
        script.now budget tally.old table.new work.new lines.new
        settings.new tally.new result }
{
    let p = play_marked(file, table, work, lines, settings, script, budget);
    count_visits(work, p.count, p.played, tally);
    p.answer
}
