// The visits of a script, played on an accepted file's table: the tests of units and script, then line after line.
#![tactic(auto)]

ghost use Rattle.std.specs.Prelude.{◌≤◌, length};
ghost use Rattle.limits.specs.Limits.{work_length};
ghost use Rattle.number_values.specs.Numbers.{Counted};
ghost use Rattle.unit_plays.specs.Playing.{LinePlayed, LinesPlayed, AllPlayed, ScriptTested, Tested, PlayedInto};

use area_parts::clear;
use checker::Checked;
use format::{Refusal, is_refused};
use limits::{INDEX_LENGTH, MAX_ISOS, RUN_ROOM, WORK_LENGTH};
use number_values::{COUNTS, find_counts, known};
use read_fields::Cursor;
use run_coding::AREA_LENGTH;
use run_lists::mark_lists;
use runner::run::prepare;
use unit_script::{planned_of, script_fault};
use unit_settings::units_fault;
use unit_visits::play_visit;

// Plays line k of a script.
fn play_line(
    t: &[u16],
    counts: &[usize],
    types: usize,
    index: &[u16],
    isos: usize,
    line: &[u8],
    k: usize,
    budget: u32,
    work: &mut [u8],
    lines: &mut [u32],
    settings: &mut [u32],
)
    requires { Counted t.now counts.now }
    ensures { LinePlayed t.now types index.now isos line.now k budget work.old
        lines.old settings.old work.new lines.new settings.new }
{
    if let Some(p) = planned_of(line) {
        play_visit(
            t, counts, types, index, isos, p, k, budget, work, lines, settings,
        );
    }
}

// Plays the lines of a script, one after the other.
fn play_lines(
    t: &[u16],
    counts: &[usize],
    types: usize,
    index: &[u16],
    isos: usize,
    script: &[u8],
    budget: u32,
    work: &mut [u8],
    lines: &mut [u32],
    settings: &mut [u32],
)
    requires { Counted t.now counts.now }
    ensures { LinesPlayed t.now types index.now isos script.now budget work.old
        lines.old settings.old work.new lines.new settings.new }
{
    let mut at: usize = 0;
    let mut k: usize = 0;
    while at < script.len() {
        let end = Cursor { at: at }.line_end(script).at;
        play_line(
            t,
            counts,
            types,
            index,
            isos,
            &script[at..end],
            k,
            budget,
            work,
            lines,
            settings,
        );
        k += 1;
        at = end;
    }
}

// Indexes the isos of an accepted file and plays the lines, in the first `room` bytes of the work area.
fn play_all(
    table: &[u16],
    counts: &[usize],
    c: Checked,
    script: &[u8],
    budget: u32,
    work: &mut [u8],
    room: usize,
    lines: &mut [u32],
    settings: &mut [u32],
)
    requires { Counted table.now counts.now × (room ≤ length work.old) }
    ensures { AllPlayed table.now c script.now budget room work.old lines.old
        settings.old work.new lines.new settings.new }
{
    let mut index = [0u16; AREA_LENGTH];
    prepare(table, c, &mut index);
    play_lines(
        table,
        counts,
        c.types,
        &index,
        c.isos,
        script,
        budget,
        &mut work[0..room],
        lines,
        settings,
    );
}

// The refusal of a script, line by line, for so many units of an accepted file.
fn script_tested(table: &[u16], c: Checked, script: &[u8], units: usize) -> Option<Refusal>
    ensures { ScriptTested table.now c script.now units result }
{
    let mut index = [0u16; INDEX_LENGTH];
    prepare(table, c, &mut index);
    let mut marks = [0u8; MAX_ISOS];
    mark_lists(table, &index, c.isos, &mut marks);
    script_fault(script, units, c.isos, &marks)
}

// The refusal of an accepted file's units, in order, and then of the script.
fn tested(
    table: &[u16],
    counts: &[usize],
    c: Checked,
    script: &[u8],
    lines: &[u32],
    settings: &[u32],
) -> Option<Refusal>
    requires { Counted table.now counts.now }
    ensures { Tested table.now c script.now lines.now settings.now result }
{
    let f = units_fault(table, counts, c.types, lines, settings);
    if is_refused(f) {
        return f;
    }
    script_tested(table, c, script, lines.len())
}

// Finds the counts of T lines, as many as there is a place for; tests the units and the script on an accepted
// file, and plays. The marks of the visits are left behind the frames of a run, which are cleared.
fn play_counted(
    table: &[u16],
    counts: &mut [usize],
    c: Checked,
    script: &[u8],
    budget: u32,
    work: &mut [u8],
    lines: &mut [u32],
    settings: &mut [u32],
) -> Option<Refusal>
    requires { work_length ≤ length work.old }
    ensures { PlayedInto table.now c script.now budget work.old lines.old
        settings.old work.new lines.new settings.new result }
{
    find_counts(table, counts);
    let f = tested(table, counts, c, script, lines, settings);
    if is_refused(f) {
        return f;
    }
    play_all(
        table,
        counts,
        c,
        script,
        budget,
        work,
        WORK_LENGTH,
        lines,
        settings,
    );
    clear(work, RUN_ROOM, 0);
    None
}

// The same with counts of its own, found once for all units and visits.
pub fn play_accepted(
    table: &[u16],
    c: Checked,
    script: &[u8],
    budget: u32,
    work: &mut [u8],
    lines: &mut [u32],
    settings: &mut [u32],
) -> Option<Refusal>
    requires { work_length ≤ length work.old }
    ensures { PlayedInto table.now c script.now budget work.old lines.old
        settings.old work.new lines.new settings.new result }
{
    let mut counts = [0usize; COUNTS];
    let most = known(c.types);
    play_counted(
        table,
        &mut counts[0..most],
        c,
        script,
        budget,
        work,
        lines,
        settings,
    )
}
