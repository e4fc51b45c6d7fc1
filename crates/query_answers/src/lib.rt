// A query's line, answered on a checked table.
#![tactic(auto)]

ghost use Rattle.std.proofs.Math.Seq.{slice};
ghost use Rattle.model.specs.Services.{accepted, answer_of_run};
ghost use Rattle.model.specs.Desk.{query_of, answer_to};
ghost use Rattle.runner.specs.RunSays.{OnChecked, answer_for, RanWithin};

use area_parts::{front, tail};
use format::Refusal;
use query_lines::{Query, query_of};
use runner::run::{Ran, run_checked};

// Runs a query whose letters stand in its line.
fn run_query(
    t: &[u16],
    base: usize,
    index: &[u16],
    isos: usize,
    q: Query,
    line: &[u8],
    work: &mut [u8],
    res: &mut [u8],
) -> Ran
    ensures { OnChecked t.now base index.now isos work.old (λ rs. RanWithin
        (answer_for rs q.iso q.back q.budget (slice q.from q.to line.now))
        work.old work.new res.old res.new result) }
{
    let value = tail(front(line, q.to), q.from);
    run_checked(
        t, base, index, isos, q.iso, q.back, q.budget, value, work, res,
    )
}

// Answers a query's line on a table that holds a checked file, whose isos the index finds. The work area
// needs 51,200 bytes and the result area 127; what these bytes of the work area then hold is left open, all
// behind them is as it was.
pub fn answer_line(
    t: &[u16],
    base: usize,
    index: &[u16],
    isos: usize,
    line: &[u8],
    work: &mut [u8],
    res: &mut [u8],
) -> Ran
    ensures { OnChecked t.now base index.now isos work.old
        (λ rs. RanWithin (answer_of_run (answer_to (accepted rs) (query_of line.now)))
        work.old work.new res.old res.new result) }
{
    match query_of(line) {
        Some(q) => run_query(t, base, index, isos, q, line, work, res),
        None => Ran {
            refusal: Some(Refusal::BadLine),
            count: 0,
            length: 0,
        },
    }
}
