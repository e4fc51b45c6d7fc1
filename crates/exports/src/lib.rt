// An iso as a list of pairs: a line `from,to` of setting numbers for each value of its from-type.
#![tactic(auto)]

ghost use Rattle.std.specs.Prelude.{◌≡◌, ◌≤◌, ◌<◌, length, take, drop};
ghost use Rattle.std.proofs.Math.Option.{some};
ghost use Rattle.limits.specs.Limits.{numeral_bound};
ghost use Rattle.calculus.specs.Refusals.{too_many};
ghost use Rattle.format.specs.Code.{refusal_view};
ghost use Rattle.law_pairlists.specs.PairLists.{pair_line, pair_lines};
ghost use Rattle.area_cells.specs.Areas.{Writes};
ghost use Rattle.runner.specs.RunSays.{OnChecked, OnAccepted};
ghost use Rattle.exports.specs.ExportSays.{ListedInto, ExportSays};

use area_cells::{item_at, put_byte};
use area_parts::clear;
use area_words::wide;
use checker::{Checked, check_file};
use codes::{ISO_FROM, LINE_FEED};
use format::{Answer, Refusal, is_refused};
use limits::{EXPORT_LENGTH, MAX_PAIRS, WORK_LENGTH};
use list_targets::{find_tos, iso_cell};
use number_values::{COUNTS, count_values, find_counts, known};
use print_text::{put_field, put_number};
use run_coding::SHORT_AREA_LENGTH;
use run_lists::is_free;
use runner::run::prepare;

// A refusal or none, and the number of bytes in the output area.
#[derive(Clone, Copy)]
pub struct Listed {
    pub refusal: Option<Refusal>,
    pub length: usize,
}

// The answer to the call, and the number of bytes in the output area.
#[derive(Clone, Copy)]
pub struct Exported {
    pub answer: Answer,
    pub length: usize,
}

fn not_listed(f: Option<Refusal>) -> Listed
    ensures { (result.refusal ≡ f) × (result.length ≡ 0) }
{
    Listed {
        refusal: f,
        length: 0,
    }
}

// An iso that has to do with lists, or a from-type with too many values, and no bytes.
fn too_many() -> Listed
    ensures { (refusal_view result.refusal ≡ some too_many) × (result.length ≡ 0) }
{
    Listed {
        refusal: Some(Refusal::TooMany),
        length: 0,
    }
}

// The line of a pair.
fn put_pair(out: &mut [u8], at: usize, k: usize, to: usize) -> usize
    ensures { k < numeral_bound → to < numeral_bound → Writes out.old out.new at result (pair_line k to) }
{
    let x = put_number(out, at, k);
    let y = put_field(out, x, to);
    put_byte(out, y, LINE_FEED)
}

// The lines of the first n pairs, of which the tos are given.
fn put_pairs(out: &mut [u8], tos: &[u16], n: usize) -> usize
    ensures { n ≤ length tos.now → n < numeral_bound
        → Writes out.old out.new 0 result (pair_lines 0 (take n tos.now)) }
{
    let mut at: usize = 0;
    for k in 0..n {
        at = put_pair(out, at, k, wide(item_at(tos, k, 0)));
    }
    at
}

// Lists iso i of a table that holds a checked file, whose isos the index finds, with one budget for each
// pair. The output area needs 40,960 bytes; a refusal leaves it untouched. Counts is where those of the T
// lines are kept.
fn export_checked(
    t: &[u16],
    counts: &mut [usize],
    base: usize,
    index: &[u16],
    isos: usize,
    i: usize,
    budget: u32,
    work: &mut [u8],
    output: &mut [u8],
) -> Listed
    ensures { OnChecked t.now base index.now isos work.old
        (λ rs. ListedInto rs i budget output.old output.new result) }
{
    if isos <= i {
        return not_listed(Some(Refusal::NoIso));
    }
    if !is_free(t, index, isos, i) {
        return too_many();
    }
    find_counts(t, counts);
    let n = count_values(t, counts, iso_cell(t, index, i, ISO_FROM));
    if MAX_PAIRS < n {
        return too_many();
    }
    let mut tos = [0u16; MAX_PAIRS];
    if !find_tos(t, counts, base, index, isos, i, n, budget, work, &mut tos) {
        return not_listed(Some(Refusal::Spent));
    }
    let length = put_pairs(output, &tos, n);
    Listed {
        refusal: None,
        length: length,
    }
}

// Indexes the isos of an accepted file and lists one of them, in the first `room` bytes of the work area.
fn export_accepted(
    table: &[u16],
    c: Checked,
    i: usize,
    budget: u32,
    work: &mut [u8],
    room: usize,
    output: &mut [u8],
) -> Listed
    requires { room ≤ length work.old }
    ensures work_unchanged { drop room work.new ≡ drop room work.old }
    ensures on_accepted { OnAccepted table.now c room
        (λ rs. ListedInto rs i budget output.old output.new result) }
{
    let mut index = [0u16; SHORT_AREA_LENGTH];
    prepare(table, c, &mut index);
    let mut counts = [0usize; COUNTS];
    let most = known(c.types);
    export_checked(
        table,
        &mut counts[0..most],
        c.types,
        &index,
        c.isos,
        i,
        budget,
        &mut work[0..room],
        output,
    )
}

// Checks a file and lists its iso i. The output area needs 40,960 bytes; a refusal leaves it untouched.
pub fn export(
    file: &[u8],
    table: &mut [u16],
    work: &mut [u8],
    i: usize,
    budget: u32,
    output: &mut [u8],
) -> Exported
    ensures { ExportSays file.now table.old work.old i budget
        output.old table.new work.new output.new result }
{
    if output.len() < EXPORT_LENGTH {
        return Exported {
            answer: Answer {
                place: 0,
                refusal: Some(Refusal::ShortArea),
            },
            length: 0,
        };
    }
    let c = check_file(file, table, work);
    let a = c.answer;
    let f = a.refusal;
    if is_refused(f) {
        return Exported {
            answer: a,
            length: 0,
        };
    }
    let l = export_accepted(table, c, i, budget, work, WORK_LENGTH, output);
    clear(work, WORK_LENGTH, 0);
    let g = l.refusal;
    Exported {
        answer: Answer {
            place: 0,
            refusal: g,
        },
        length: l.length,
    }
}
