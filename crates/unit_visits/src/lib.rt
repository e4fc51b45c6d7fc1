// A visit to a unit on a checked table: the unit's setting is sent through an iso, there or back.
#![tactic(auto)]

ghost use Rattle.std.specs.Prelude.{◌≡◌};
ghost use Rattle.number_values.specs.Numbers.{Counted};
ghost use Rattle.unit_visits.specs.Visiting.{OnUnit, OnWay, Sends, Visits, OneVisited};

use area_cells::{narrow_number, store};
use check_shapes::same_type;
use codes::{ISO_FROM, ISO_TO};
use limits::MAX_DEPTH;
use number_values::{rank_at, unrank_at};
use run_direction::{place, side};
use run_reduction::apply;
use runner::run::code_part;
use table_trees::cell;
use unit_script::Planned;
use unit_settings::number_at;
use unit_tally::{Visit, put_mark};

// What comes of a visit: the T line and the number that the unit then holds, or nothing, skipped or spent: three answers,
// none of which is a failure.
#[derive(Clone, Copy)]
pub enum Visited {
    Done(u32, u32),
    Skipped,
    Spent,
}

// Sends number n of T line i through an iso that begins at its type; `to` is the T line at the other end. The
// letters are written and read where the run has them. Values that are numbered are never too large.
fn send(
    t: &[u16],
    counts: &[usize],
    types: usize,
    index: &[u16],
    p: Planned,
    i: usize,
    n: usize,
    to: usize,
    budget: u32,
    work: &mut [u8],
) -> Visited
    requires { Counted t.now counts.now }
    ensures { OnWay t.now types index.now p i n to work.old
        (λ rs. Sends rs budget p i n to work.old work.new result) }
{
    let size = unrank_at(t, counts, i, n, work, 0);
    let code = code_part(index);
    match apply(
        t, types, index, code, p.back, p.iso, MAX_DEPTH, work, 0, size, 0, size, budget,
    ) {
        Ok(g) => {
            let r = rank_at(t, counts, to, work, g.at);
            Visited::Done(narrow_number(to), narrow_number(r.number))
        }
        Err(_) => Visited::Spent,
    }
}

// Visits a unit that holds number n of T line i. The work area needs 51,200 bytes; what these then hold is
// left open, all behind them is as it was.
fn visit(
    t: &[u16],
    counts: &[usize],
    types: usize,
    index: &[u16],
    isos: usize,
    p: Planned,
    i: usize,
    n: usize,
    budget: u32,
    work: &mut [u8],
) -> Visited
    requires { Counted t.now counts.now }
    ensures { OnUnit t.now types index.now isos p i n work.old
        (λ rs. Visits rs budget p i n work.old work.new result) }
{
    let row = place(index, place(index, p.iso));
    let back = p.back;
    if !same_type(t, i, cell(t, row, side(back, ISO_FROM, ISO_TO))) {
        return Visited::Skipped;
    }
    let to = cell(t, row, side(back, ISO_TO, ISO_FROM));
    send(t, counts, types, index, p, i, n, to, budget, work)
}

// Plays visit k of a script, marks what came of it, and stores what its unit then holds.
pub fn play_visit(
    t: &[u16],
    counts: &[usize],
    types: usize,
    index: &[u16],
    isos: usize,
    p: Planned,
    k: usize,
    budget: u32,
    work: &mut [u8],
    lines: &mut [u32],
    settings: &mut [u32],
)
    requires { Counted t.now counts.now }
    ensures { OneVisited t.now types index.now isos p k budget work.old lines.old
        settings.old work.new lines.new settings.new }
{
    let unit = p.unit;
    let i = number_at(lines, unit);
    let n = number_at(settings, unit);
    match visit(t, counts, types, index, isos, p, i, n, budget, work) {
        Visited::Done(to, m) => {
            store(lines, unit, to);
            store(settings, unit, m);
            put_mark(work, k, Visit::Done);
        }
        Visited::Skipped => put_mark(work, k, Visit::Skipped),
        Visited::Spent => put_mark(work, k, Visit::Spent),
    }
}
