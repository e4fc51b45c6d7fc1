// The interface for callers in C and in Rust: Check, Turn, Run, a whole sheet, settings as numbers, the
// overlap of two P lines, steps known beforehand, pair lists in and out, a setting that shows the fault and
// units tried out, under document 01's numbers. Each slice passes as a pointer and a length, each answer as a struct;
// `include/rulefile.h` declares them.
#![tactic(auto)]

ghost use Rattle.std.specs.Prelude.{◌≡◌};
ghost use Rattle.format.specs.Code.{number_of};
ghost use Rattle.rulefile.specs.Given.{CheckGiven, TurnGiven, RunGiven, SheetGiven, NumberGiven, SettingGiven, OverlapGiven, BoundsGiven, ExportGiven, ImportGiven, WitnessGiven, PlayGiven};

use bounds::bounds;
use checker::check;
use exports::export;
use format::{Answer, number_of};
use imports::import;
use overlaps::overlap;
use planner::play;
use runner::run::run;
use settings::{to_number, to_setting};
use sheets::sheet;
use turner::turn;
use unit_tally::Tally;
use witness::witness;

// Check's number and line.
#[repr(C)]
#[derive(Clone, Copy)]
pub struct CheckAnswer {
    pub number: u32,
    pub line: usize,
}

// Turn's number and line, and the number of bytes written.
#[repr(C)]
#[derive(Clone, Copy)]
pub struct TurnAnswer {
    pub number: u32,
    pub line: usize,
    pub length: usize,
}

// Run's number, the number of applications, and the number of letters written.
#[repr(C)]
#[derive(Clone, Copy)]
pub struct RunAnswer {
    pub number: u32,
    pub count: u32,
    pub length: usize,
}

// A sheet's number and line, and the number of queries answered.
#[repr(C)]
#[derive(Clone, Copy)]
pub struct SheetAnswer {
    pub number: u32,
    pub line: usize,
    pub queries: usize,
}

// The number of a call for a setting's number, and that number.
#[repr(C)]
#[derive(Clone, Copy)]
pub struct NumberAnswer {
    pub number: u32,
    pub setting: u32,
}

// The number of a call for a setting's letters, and how many were written.
#[repr(C)]
#[derive(Clone, Copy)]
pub struct SettingAnswer {
    pub number: u32,
    pub length: usize,
}

// The number and line of a call for two P lines, whether they clash, and the node pairs compared.
#[repr(C)]
#[derive(Clone, Copy)]
pub struct OverlapAnswer {
    pub number: u32,
    pub line: usize,
    pub clash: bool,
    pub pairs: u32,
}

// The number of a call for the bounds of an iso, the bounds, and for each whether what was reckoned is above
// 4,294,967,295.
#[repr(C)]
#[derive(Clone, Copy)]
pub struct BoundsAnswer {
    pub number: u32,
    pub least: u32,
    pub greatest: u32,
    pub least_over: bool,
    pub greatest_over: bool,
}

// The number and line of a call for a pair list, in or out, and the number of bytes written.
#[repr(C)]
#[derive(Clone, Copy)]
pub struct TradeAnswer {
    pub number: u32,
    pub line: usize,
    pub length: usize,
}

// The number and line of a call for the value that shows the fault, and how many letters were written.
#[repr(C)]
#[derive(Clone, Copy)]
pub struct WitnessAnswer {
    pub number: u32,
    pub line: usize,
    pub length: usize,
}

// Checks a file.
#[unsafe(no_mangle)]
pub extern "C" fn rulefile_check(file: &[u8], table: &mut [u16], work: &mut [u8]) -> CheckAnswer
    ensures { CheckGiven file.now table.old work.old table.new work.new result }
{
    let a = check(file, table, work);
    let refusal = a.refusal;
    CheckAnswer {
        number: number_of(refusal) as u32,
        line: a.place,
    }
}

// Checks a file and writes it turned.
#[unsafe(no_mangle)]
pub extern "C" fn rulefile_turn(
    file: &[u8],
    table: &mut [u16],
    work: &mut [u8],
    output: &mut [u8],
) -> TurnAnswer
    ensures { TurnGiven file.now table.old work.old output.old
        table.new work.new output.new result }
{
    let turned = turn(file, table, work, output);
    let answer = turned.answer;
    let f = answer.refusal;
    TurnAnswer {
        number: number_of(f) as u32,
        line: answer.place,
        length: turned.length,
    }
}

// Checks a file and runs its iso number `iso` on a value, forward or back, under a budget.
#[unsafe(no_mangle)]
pub extern "C" fn rulefile_run(
    file: &[u8],
    table: &mut [u16],
    work: &mut [u8],
    iso: u32,
    back: bool,
    budget: u32,
    value: &[u8],
    res: &mut [u8],
) -> RunAnswer
    ensures { RunGiven file.now table.old work.old iso back budget
        value.now res.old table.new work.new
        res.new result }
{
    let ran = run(file, table, work, iso as usize, back, budget, value, res);
    let f = ran.refusal;
    RunAnswer {
        number: number_of(f) as u32,
        count: ran.count,
        length: ran.length,
    }
}

// Checks a file once and answers a list of query lines.
#[unsafe(no_mangle)]
pub extern "C" fn rulefile_sheet(
    file: &[u8],
    table: &mut [u16],
    work: &mut [u8],
    queries: &[u8],
    numbers: &mut [u32],
    letters: &mut [u8],
) -> SheetAnswer
    ensures { SheetGiven file.now table.old work.old queries.now
        numbers.old letters.old table.new work.new
        numbers.new letters.new result }
{
    let done = sheet(file, table, work, queries, numbers, letters);
    let verdict = done.answer;
    let f = verdict.refusal;
    SheetAnswer {
        number: number_of(f) as u32,
        line: verdict.place,
        queries: done.queries,
    }
}

// Checks a file and gives the number of a value of its T line `line`.
#[unsafe(no_mangle)]
pub extern "C" fn rulefile_number_of(
    file: &[u8],
    table: &mut [u16],
    work: &mut [u8],
    line: u32,
    value: &[u8],
) -> NumberAnswer
    ensures { NumberGiven file.now table.old work.old line value.now
        table.new work.new result }
{
    let told = to_number(file, table, work, line as usize, value);
    let f = told.refusal;
    NumberAnswer {
        number: number_of(f) as u32,
        setting: told.setting,
    }
}

// Checks a file and writes the letters of the value of its T line `line` with a number.
#[unsafe(no_mangle)]
pub extern "C" fn rulefile_setting_of(
    file: &[u8],
    table: &mut [u16],
    work: &mut [u8],
    line: u32,
    setting: u32,
    res: &mut [u8],
) -> SettingAnswer
    ensures { SettingGiven file.now table.old work.old line setting
        res.old table.new work.new res.new result }
{
    let told = to_setting(file, table, work, line as usize, setting, res);
    let f = told.refusal;
    SettingAnswer {
        number: number_of(f) as u32,
        length: told.length,
    }
}

// Checks a file and compares its P lines `left` and `right` node with node, up to the first clash.
#[unsafe(no_mangle)]
pub extern "C" fn rulefile_overlap(
    file: &[u8],
    table: &mut [u16],
    work: &mut [u8],
    left: u32,
    right: u32,
) -> OverlapAnswer
    ensures { OverlapGiven file.now table.old work.old left right
        table.new work.new result }
{
    let told = overlap(file, table, work, left as usize, right as usize);
    let judged = told.answer;
    let f = judged.refusal;
    OverlapAnswer {
        number: number_of(f) as u32,
        line: judged.place,
        clash: told.clash,
        pairs: told.pairs,
    }
}

// Checks a file and bounds the count of any run of its iso number `iso`, without a run.
#[unsafe(no_mangle)]
pub extern "C" fn rulefile_bounds(
    file: &[u8],
    table: &mut [u16],
    work: &mut [u8],
    iso: u32,
) -> BoundsAnswer
    ensures { BoundsGiven file.now table.old work.old iso table.new
        work.new result }
{
    let told = bounds(file, table, work, iso as usize);
    let f = told.refusal;
    BoundsAnswer {
        number: number_of(f) as u32,
        least: told.least,
        greatest: told.greatest,
        least_over: told.least_over,
        greatest_over: told.greatest_over,
    }
}

// Checks a file and lists its iso number `iso` as lines `from,to` of setting numbers, with one budget for each.
#[unsafe(no_mangle)]
pub extern "C" fn rulefile_export(
    file: &[u8],
    table: &mut [u16],
    work: &mut [u8],
    iso: u32,
    budget: u32,
    output: &mut [u8],
) -> TradeAnswer
    ensures { ExportGiven file.now table.old work.old iso budget
        output.old table.new work.new output.new result }
{
    let listed = export(file, table, work, iso as usize, budget, output);
    let call = listed.answer;
    let f = call.refusal;
    TradeAnswer {
        number: number_of(f) as u32,
        line: call.place,
        length: listed.length,
    }
}

// Checks a file and writes the file of a list of pairs between its T lines `from` and `to`.
#[unsafe(no_mangle)]
pub extern "C" fn rulefile_import(
    file: &[u8],
    table: &mut [u16],
    work: &mut [u8],
    from: u32,
    to: u32,
    list: &[u8],
    output: &mut [u8],
) -> TradeAnswer
    ensures { ImportGiven file.now table.old work.old from to
        list.now output.old table.new work.new
        output.new result }
{
    let written = import(file, table, work, from as usize, to as usize, list, output);
    let outcome = written.answer;
    let f = outcome.refusal;
    TradeAnswer {
        number: number_of(f) as u32,
        line: outcome.place,
        length: written.length,
    }
}

// Checks a file, and with refusals 11 to 14 writes the letters of the least value that shows the fault.
#[unsafe(no_mangle)]
pub extern "C" fn rulefile_witness(
    file: &[u8],
    table: &mut [u16],
    work: &mut [u8],
    res: &mut [u8],
) -> WitnessAnswer
    ensures { WitnessGiven file.now table.old work.old res.old
        table.new work.new res.new result }
{
    let shown = witness(file, table, work, res);
    let judged = shown.answer;
    let f = judged.refusal;
    WitnessAnswer {
        number: number_of(f) as u32,
        line: judged.place,
        length: shown.length,
    }
}

// The number and line of a play.
#[repr(C)]
#[derive(Clone, Copy)]
pub struct PlayAnswer {
    pub number: u32,
    pub line: usize,
}

// An answer, under document 01's numbers.
fn told(given: Answer) -> PlayAnswer
    ensures { (result.number ≡ number_of given.refusal) × (result.line ≡ given.place) }
{
    let f = given.refusal;
    PlayAnswer {
        number: number_of(f) as u32,
        line: given.place,
    }
}

// Checks a file and plays a script of visits on units that each hold a T line and a setting number; the record
// counts the visits done, skipped and spent.
#[unsafe(no_mangle)]
pub extern "C" fn rulefile_play(
    file: &[u8],
    table: &mut [u16],
    work: &mut [u8],
    types: &mut [u32],
    settings: &mut [u32],
    script: &[u8],
    budget: u32,
    tally: &mut Tally,
) -> PlayAnswer
    ensures { PlayGiven file.now table.old work.old types.old
        settings.old script.now budget tally.old table.new
        work.new types.new settings.new tally.new result }
{
    let a = play(file, table, work, types, settings, script, budget, tally);
    told(a)
}
