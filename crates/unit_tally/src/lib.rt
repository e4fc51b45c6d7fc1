// One record of visits done, skipped and spent, lent and changed in place; and the marks that a play leaves
// in the work area for each visit, behind the room of a run, until they are counted.
#![tactic(auto)]

ghost use Rattle.std.specs.Prelude.{◌≡◌, get_or, set};
ghost use Rattle.unit_tally.specs.Count.{added_of, begun_of, place_of, mark_of, visit_of, tallied, emptied};

use area_cells::{item_at, put_byte};
use limits::{MAX_LINES, RUN_ROOM};

// The record that is lent.
#[repr(C)]
#[derive(Clone, Copy)]
pub struct Tally {
    pub done: u32,
    pub skipped: u32,
    pub spent: u32,
}

// What came of a visit.
#[derive(Clone, Copy)]
pub enum Visit {
    Done,
    Skipped,
    Spent,
}

// The record with one visit more.
fn added(t: Tally, v: Visit) -> Tally
    ensures { result ≡ added_of t v }
{
    match v {
        Visit::Done => Tally {
            done: t.done.saturating_add(1),
            ..t
        },
        Visit::Skipped => Tally {
            skipped: t.skipped.saturating_add(1),
            ..t
        },
        Visit::Spent => Tally {
            spent: t.spent.saturating_add(1),
            ..t
        },
    }
}

// The record that a play counts on: from 0 where it is played, else as it is.
fn begun(t: Tally, played: bool) -> Tally
    ensures { result ≡ begun_of t played }
{
    if played {
        Tally {
            done: 0,
            skipped: 0,
            spent: 0,
        }
    } else {
        t
    }
}

// Adds one visit to the record that is lent.
pub fn add_visit(t: &mut Tally, v: Visit)
    ensures { t.new ≡ added_of t.old v }
{
    *t = added(*t, v);
}

// Begins a play on the record that is lent.
pub fn begin(t: &mut Tally, played: bool)
    ensures { t.new ≡ begun_of t.old played }
{
    *t = begun(*t, played);
}

// The place of visit k's mark in the work area.
fn mark_place(k: usize) -> usize
    ensures { result ≡ place_of k }
{
    RUN_ROOM + k.min(MAX_LINES)
}

// The byte that marks a visit; two functions and no From impls, which would hold the same tables behind a `from_gives`.
fn mark_of(v: Visit) -> u8
    ensures { result ≡ mark_of v }
{
    match v {
        Visit::Done => 0,
        Visit::Skipped => 1,
        Visit::Spent => 2,
    }
}

// The visit that a byte marks.
fn visit_of(mark: u8) -> Visit
    ensures { result ≡ visit_of mark }
{
    match mark {
        0 => Visit::Done,
        1 => Visit::Skipped,
        _ => Visit::Spent,
    }
}

// Marks visit k.
pub fn put_mark(work: &mut [u8], k: usize, v: Visit)
    ensures { work.new ≡ set work.old (place_of k) (mark_of v) }
{
    let at = mark_place(k);
    put_byte(work, at, mark_of(v));
}

// The visit that mark k stands for; the mark is taken away.
fn take_mark(work: &mut [u8], k: usize) -> Visit
    ensures { (result ≡ visit_of (get_or work.old (place_of k) 0))
        × (work.new ≡ set work.old (place_of k) 0) }
{
    let at = mark_place(k);
    let mark = item_at(work, at, 0);
    put_byte(work, at, 0);
    visit_of(mark)
}

// Takes the marks of n visits and adds each to the record that is lent, from 0 where there was a play.
pub fn count_visits(work: &mut [u8], n: usize, played: bool, tally: &mut Tally)
    ensures { (work.new ≡ emptied n 0 work.old)
        × (tally.new ≡ tallied n 0 work.old (begun_of tally.old played)) }
{
    begin(tally, played);
    for i in 0..n {
        let v = take_mark(work, i);
        add_visit(tally, v);
    }
}
