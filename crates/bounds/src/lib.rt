// Steps known beforehand: a lower and an upper bound on the count of any run of an iso, without a run.
#![tactic(auto)]

ghost use Rattle.std.specs.Prelude.{◌≡◌, false, List, ℕ};
ghost use Rattle.format.specs.Lines.{Row as RowOf};
ghost use Rattle.law_costs.specs.Bounds.{bounds_rows};
ghost use Rattle.runner.specs.RunSays.{Prepared};
ghost use Rattle.checker.specs.CheckSays.{Accepted};
ghost use Rattle.bounds.specs.BoundsSays.{ToldOf, BoundsSays};

use area_cells::item_at;
use bound_counts::reckon;
use checker::{Checked, check_file};
use format::{Refusal, is_refused};
use limits::{INDEX_LENGTH, MAX_COUNT, MAX_ISOS};
use run_lists::is_free;
use runner::run::prepare;

// A refusal or none, the two bounds, and for each whether the number reckoned is above 4,294,967,295.
#[derive(Clone, Copy)]
pub struct Bounded {
    pub refusal: Option<Refusal>,
    pub least: u32,
    pub greatest: u32,
    pub least_over: bool,
    pub greatest_over: bool,
}

fn refused(f: Option<Refusal>) -> Bounded
    ensures { (result.refusal ≡ f) × (result.least ≡ 0) × (result.greatest ≡ 0) × (result.least_over ≡ false) × (result.greatest_over ≡ false) }
{
    Bounded {
        refusal: f,
        least: 0,
        greatest: 0,
        least_over: false,
        greatest_over: false,
    }
}

// The bounds of iso i of a table that holds a checked file, whose isos the index finds.
pub fn bounds_checked(t: &[u16], index: &[u16], isos: usize, i: usize) -> Bounded
    ensures { (base : ℕ) (rs : List RowOf) → Prepared t.now base index.now isos rs
        → ToldOf (bounds_rows i rs) result }
{
    if isos <= i {
        return refused(Some(Refusal::NoIso));
    }
    if !is_free(t, index, isos, i) {
        return refused(Some(Refusal::TooMany));
    }
    let mut least = [0u64; MAX_ISOS];
    let mut greatest = [0u64; MAX_ISOS];
    reckon(t, index, isos, &mut least, &mut greatest);
    let l = item_at(&least, i, 0);
    let g = item_at(&greatest, i, 0);
    Bounded {
        refusal: None,
        least: l.min(MAX_COUNT) as u32,
        greatest: g.min(MAX_COUNT) as u32,
        least_over: MAX_COUNT < l,
        greatest_over: MAX_COUNT < g,
    }
}

// Indexes the isos of an accepted file and tells the bounds of one.
fn bounds_accepted(table: &[u16], c: Checked, i: usize) -> Bounded
    ensures { (s : List ℕ) (a : Accepted s table.now c) → ToldOf (bounds_rows i a.file) result }
{
    let mut index = [0u16; INDEX_LENGTH];
    prepare(table, c, &mut index);
    bounds_checked(table, &index, c.isos, i)
}

// Checks a file and tells the bounds of its iso i.
pub fn bounds(file: &[u8], table: &mut [u16], work: &mut [u8], i: usize) -> Bounded
    ensures { BoundsSays file.now table.old work.old i table.new work.new result }
{
    let c = check_file(file, table, work);
    let a = c.answer;
    let f = a.refusal;
    if is_refused(f) {
        return refused(f);
    }
    bounds_accepted(table, c, i)
}
