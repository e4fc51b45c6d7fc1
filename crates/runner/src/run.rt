// The run on a checked table, and the service.

ghost use Rattle.std.specs.Prelude.{◌≡◌, cond, ◌-◌, ◌≤◌, ltb, length, drop};
ghost use Rattle.std.proofs.Math.Seq.{paste};
ghost use Rattle.limits.specs.Limits.{max_letters};
ghost use Rattle.run_index.specs.Index.{index_length};
ghost use Rattle.runner.specs.RunSays.{OnChecked, OnAccepted, Prepares, answer_for, RanInto, RanWithin, RunSays};

use area_cells::{item_at, store};
use area_parts::{clear, front, tail};
use checker::{Checked, check_file};
use codes::{ISO_FROM, ISO_TO};
use format::{Refusal, is_refused};
use limits::{INDEX_LENGTH, MAX_DEPTH, MAX_LETTERS, MAX_LINES, RESULT_LENGTH, WORK_LENGTH};
use run_coding::{AREA_LENGTH, code_patterns};
use run_direction::{place, side};
use run_index::index_isos;
use run_reduction::{Stop, apply};
use run_values::is_value;
use table_trees::cell;

// A refusal or none, the number of applications, and the number of letters in the result area.
#[derive(Clone, Copy)]
pub struct Ran {
    pub refusal: Option<Refusal>,
    pub count: u32,
    pub length: usize,
}

fn refused(f: Option<Refusal>) -> Ran
    ensures { (result.refusal ≡ f) × (result.count ≡ 0) × (result.length ≡ 0) }
{
    Ran {
        refusal: f,
        count: 0,
        length: 0,
    }
}

// Copies the first n bytes of an area to the front of another.
fn copy_front(from: &[u8], n: usize, to: &mut [u8])
    ensures { n ≤ length from.now → n ≤ length to.old
        → to.new ≡ paste to.old 0 from.now n }
{
    for i in 0..n {
        store(to, i, item_at(from, i, 0));
    }
}

// How many letters of a value are copied: none where it is too large.
fn copied(n: usize) -> usize
    ensures { result ≡ cond (ltb max_letters n) 0 n }
{
    if MAX_LETTERS < n {
        return 0;
    }
    n
}

// Indexes an accepted file, whose rows a check has left in the table, and writes its patterns flat behind
// the index, as far as there is room.
pub fn prepare(table: &[u16], c: Checked, index: &mut [u16])
    ensures { Prepares table.now c index.old index.new }
{
    let types = c.types;
    let patterns = c.patterns;
    if MAX_LINES < types {
        return;
    }
    if MAX_LINES < patterns {
        return;
    }
    if index.len() < INDEX_LENGTH {
        return;
    }
    let start = INDEX_LENGTH;
    code_patterns(table, types, patterns, &mut index[start..]);
    index_isos(table, types + patterns, c.lines, c.isos, index);
}

// The numbers behind an index's.
pub fn code_part(index: &[u16]) -> &[u16]
    ensures { result.now ≡ drop index_length index.now }
{
    let n = index.len();
    if n < INDEX_LENGTH {
        return &index[n..];
    }
    let start = INDEX_LENGTH;
    &index[start..]
}

// Runs iso i of a table that holds a checked file, whose isos the index finds. The work area needs
// 51,200 bytes, 1,280 for each of 40 calls nested; what these then hold is left open, all behind them is as
// it was.
pub fn run_checked(
    t: &[u16],
    base: usize,
    index: &[u16],
    isos: usize,
    i: usize,
    back: bool,
    budget: u32,
    value: &[u8],
    work: &mut [u8],
    res: &mut [u8],
) -> Ran
    ensures { OnChecked t.now base index.now isos work.old
        (λ rs. RanWithin (answer_for rs i back budget value.now)
        work.old work.new res.old res.new result) }
{
    if isos <= i {
        return refused(Some(Refusal::NoIso));
    }
    let row = place(index, place(index, i));
    if !is_value(t, cell(t, row, side(back, ISO_FROM, ISO_TO)), value) {
        return refused(Some(Refusal::NoValue));
    }
    let size = value.len();
    copy_front(value, copied(size), work);
    let code = code_part(index);
    match apply(
        t, base, index, code, back, i, MAX_DEPTH, work, 0, size, 0, size, budget,
    ) {
        Ok(g) => {
            let letters = tail(front(work, g.end), g.at);
            let n = letters.len();
            copy_front(letters, n, res);
            Ran {
                refusal: None,
                count: budget.saturating_sub(g.left),
                length: n,
            }
        }
        Err(Stop::Spent) => refused(Some(Refusal::Spent)),
        Err(Stop::Large) => refused(Some(Refusal::TooLarge)),
    }
}

// Indexes the isos of an accepted file and runs one of them, in the first `room` bytes of the work area.
fn run_accepted(
    table: &[u16],
    c: Checked,
    i: usize,
    back: bool,
    budget: u32,
    value: &[u8],
    work: &mut [u8],
    room: usize,
    res: &mut [u8],
) -> Ran
    requires { room ≤ length work.old }
    ensures work_unchanged { drop room work.new ≡ drop room work.old }
    ensures on_accepted { OnAccepted table.now c room
        (λ rs. RanInto (answer_for rs i back budget value.now)
        res.old res.new result) }
{
    let mut index = [0u16; AREA_LENGTH];
    prepare(table, c, &mut index);
    run_checked(
        table,
        c.types,
        &index,
        c.isos,
        i,
        back,
        budget,
        value,
        &mut work[0..room],
        res,
    )
}

// Checks a file and runs its iso i on a value. The result area needs 127 bytes; a refusal leaves it
// untouched.
pub fn run(
    file: &[u8],
    table: &mut [u16],
    work: &mut [u8],
    i: usize,
    back: bool,
    budget: u32,
    value: &[u8],
    res: &mut [u8],
) -> Ran
    ensures { RunSays file.now table.old work.old i back budget
        value.now res.old table.new work.new
        res.new result }
{
    if res.len() < RESULT_LENGTH {
        return refused(Some(Refusal::ShortArea));
    }
    let c = check_file(file, table, work);
    let a = c.answer;
    let f = a.refusal;
    if is_refused(f) {
        return refused(f);
    }
    let r = run_accepted(table, c, i, back, budget, value, work, WORK_LENGTH, res);
    clear(work, WORK_LENGTH, 0);
    r
}
