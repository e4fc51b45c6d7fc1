// The desk program as a function on slices: bytes of standard input go in as they come, and the
// answers come out in an output area. The state is a value; the areas are lent at each call.
#![tactic(auto)]

ghost use Rattle.std.specs.Prelude.{◌≡◌, ◌&&◌, false, List, [], ◌∷◌, ◌++◌, ℕ, ◌+◌, ◌≤◌, ◌<◌, eqb, ltb, leb, length};
ghost use Rattle.limits.specs.Limits.{letter_q, numeral_bound};
ghost use Rattle.format.specs.Lines.{Row as RowOf};
ghost use Rattle.model.specs.Desk.{file_line};
ghost use Rattle.format.specs.Code.{refusal_view, number_of};
ghost use Rattle.calculus.specs.Tools.{is_some};
ghost use Rattle.area_cells.specs.Areas.{Prints};
ghost use Rattle.query_lines.specs.Stream.{State, collecting, asking, settled as is_settled};
ghost use Rattle.desk.specs.declared.Phase.TheVariants.{Queries};
ghost use Rattle.desk.specs.DeskSays.{answer_room, Holds, DeskAt, Took, SettleSays, BeginSays, FileByteSays, ByteSays, AnswerWithSays, ran_line, AnswerSays, FeedSays, FinishSays};

use area_cells::put_byte;
use area_parts::front;
use checker::{Checked, check_file};
use codes::{LETTER_Q, LINE_FEED};
use format::{is_refused, number_of};
use limits::{MAX_BYTES, QUERY_LENGTH, RESULT_LENGTH, WORK_LENGTH};
use query_answers::answer_line;
use query_lines::{put_answer, put_verdict};
use runner::run::{Ran, prepare};

// The bytes of a file that are kept, and those of a query's line: one more than may be.
pub const FILE_ROOM: usize = MAX_BYTES + 1;

pub const LINE_ROOM: usize = QUERY_LENGTH + 1;

// The bytes that no answer's line exceeds.
const ANSWER_ROOM: usize = 160;

// What the next byte belongs to: the file, a query, or nothing, where the file is refused.
#[derive(Clone, Copy)]
pub enum Phase {
    File,
    Queries,
    Stopped,
}

// The state between two bytes: whether a line of the file begins, how many bytes of the file or of the
// query's line are kept, and of an accepted file how many T and I lines the table holds.
#[derive(Clone, Copy)]
pub struct Desk {
    pub phase: Phase,
    pub fresh: bool,
    pub held: usize,
    pub types: usize,
    pub isos: usize,
}

// The state behind some bytes, how many bytes they are, and how many bytes of answers they gave.
#[derive(Clone, Copy)]
pub struct Fed {
    pub desk: Desk,
    pub taken: usize,
    pub written: usize,
}

// The state behind a byte, and the place behind what is printed.
#[derive(Clone, Copy)]
struct Next {
    pub desk: Desk,
    pub end: usize,
}

// A state without a table.
fn state(phase: Phase, fresh: bool, held: usize) -> Desk
    ensures { result ≡ record { phase = phase; fresh = fresh; held = held; types = 0; isos = 0 } }
{
    Desk {
        phase: phase,
        fresh: fresh,
        held: held,
        types: 0,
        isos: 0,
    }
}

// A state over the table of an accepted file.
fn ready(types: usize, isos: usize, held: usize) -> Desk
    ensures { result ≡ record { phase = Queries; fresh = false; held = held; types = types; isos = isos } }
{
    Desk {
        phase: Phase::Queries,
        fresh: false,
        held: held,
        types: types,
        isos: isos,
    }
}

// Before the first byte.
pub fn opened() -> Desk
    ensures { (file line table index : List ℕ) → DeskAt result file line table index (collecting []) }
{
    state(Phase::File, true, 0)
}

// Whether a chunk of so many bytes goes on behind `taken`, and an output area of n bytes has room for
// an answer behind place `at`.
fn goes_on(taken: usize, bytes: usize, at: usize, n: usize) -> bool
    ensures { result ≡ (ltb taken bytes && leb (at + answer_room) n) }
{
    taken < bytes && n >= ANSWER_ROOM && at <= n - ANSWER_ROOM
}

// One byte more of a file or of a line, as far as it is kept.
fn hold(area: &mut [u8], held: usize, b: u8, most: usize) -> usize
    ensures { (bs : List ℕ) → Holds most held area.old bs → most ≤ length area.old
        → Holds most result area.new (bs ++ (b ∷ [])) }
{
    if held < most {
        return put_byte(area, held, b);
    }
    held
}

// Whether a byte begins the first Q line.
fn begins(fresh: bool, b: u8) -> bool
    ensures { result ≡ (fresh && eqb b letter_q) }
{
    fresh && b == LETTER_Q
}

// Whether a checked file is refused.
fn is_down(c: Checked) -> bool
    ensures { result ≡ is_some (refusal_view c.answer.refusal) }
{
    let a = c.answer;
    let f = a.refusal;
    is_refused(f)
}

// Prints the answer to a checked file.
fn put_checked(out: &mut [u8], at: usize, c: Checked) -> usize
    ensures { c.answer.place < numeral_bound → Prints out.old out.new at result
        (file_line (record { number = number_of c.answer.refusal; line = c.answer.place })) }
{
    let a = c.answer;
    let f = a.refusal;
    let n = number_of(f);
    put_verdict(out, at, n, a.place)
}

// Behind the answer to a file at its first Q line: a refused file is the end, and an accepted one is made
// ready for queries.
fn settle(c: Checked, line: &mut [u8], table: &[u16], index: &mut [u16], end: usize) -> Next
    ensures { SettleSays c line.old table.now index.old line.new
        index.new end result }
{
    if is_down(c) {
        return Next {
            desk: state(Phase::Stopped, false, 0),
            end: end,
        };
    }
    prepare(table, c, index);
    let held = put_byte(line, 0, LETTER_Q);
    Next {
        desk: ready(c.types, c.isos, held),
        end: end,
    }
}

// The first Q line begins: the file, the first bytes of its area, is checked and answered.
fn begin(
    file: &[u8],
    held: usize,
    line: &mut [u8],
    table: &mut [u16],
    work: &mut [u8],
    index: &mut [u16],
    out: &mut [u8],
    at: usize,
) -> Next
    ensures { BeginSays file.now held line.old table.old work.old
        index.old out.old line.new table.new index.new
        out.new at result }
{
    let c = check_file(front(file, held), table, work);
    let end = put_checked(out, at, c);
    settle(c, line, table, index, end)
}

// One byte more of the file.
fn file_byte(held: usize, b: u8, file: &mut [u8], at: usize) -> Next
    ensures { FileByteSays held b file.old file.new at result }
{
    let more = hold(file, held, b, FILE_ROOM);
    Next {
        desk: state(Phase::File, b == LINE_FEED, more),
        end: at,
    }
}

// Answers a query's line with the first `room` bytes of a work area.
fn answer_with(
    types: usize,
    isos: usize,
    line: &[u8],
    table: &[u16],
    index: &[u16],
    work: &mut [u8],
    room: usize,
    res: &mut [u8],
) -> Ran
    requires { room ≤ length work.old }
    ensures { AnswerWithSays types isos line.now table.now index.now room
        res.old res.new result }
{
    answer_line(table, types, index, isos, line, &mut work[0..room], res)
}

// Prints what a run gave, whose letters stand in a result area.
fn put_ran(out: &mut [u8], at: usize, r: Ran, res: &[u8]) -> usize
    ensures { Prints out.old out.new at result (ran_line r res.now) }
{
    let f = r.refusal;
    let n = number_of(f);
    put_answer(out, at, n, r.count, front(res, r.length))
}

// Prints the answer to a query's line. The run wants a work area of 65,536 bytes; where it is shorter,
// nothing is done.
fn answer(
    d: Desk,
    line: &[u8],
    table: &[u16],
    index: &[u16],
    work: &mut [u8],
    out: &mut [u8],
    at: usize,
) -> usize
    ensures { AnswerSays d line.now table.now index.now work.old
        out.old out.new at result }
{
    if work.len() < WORK_LENGTH {
        return at;
    }
    let mut result = [0u8; RESULT_LENGTH];
    let r = answer_with(
        d.types,
        d.isos,
        line,
        table,
        index,
        work,
        WORK_LENGTH,
        &mut result,
    );
    put_ran(out, at, r, &result)
}

// A byte behind bytes of a query's line.
fn query_byte(
    d: Desk,
    b: u8,
    line: &mut [u8],
    table: &[u16],
    work: &mut [u8],
    index: &[u16],
    out: &mut [u8],
    at: usize,
) -> Next
    ensures { (file : List ℕ) (rs : List RowOf) (l : List ℕ) → ByteSays (asking rs l) d b file
        line.old table.now work.old index.now out.old
        file line.new table.now index.now out.new at result }
{
    let held = hold(line, d.held, b, LINE_ROOM);
    if b == LINE_FEED {
        let end = answer(d, front(line, held), table, index, work, out, at);
        return Next {
            desk: ready(d.types, d.isos, 0),
            end: end,
        };
    }
    Next {
        desk: ready(d.types, d.isos, held),
        end: at,
    }
}

// A byte.
fn feed_byte(
    d: Desk,
    b: u8,
    file: &mut [u8],
    line: &mut [u8],
    table: &mut [u16],
    work: &mut [u8],
    index: &mut [u16],
    out: &mut [u8],
    at: usize,
) -> Next
    ensures { (s : State) → ByteSays s d b file.old line.old table.old
        work.old index.old out.old file.new line.new
        table.new index.new out.new at result }
{
    let phase = d.phase;
    let held = d.held;
    match phase {
        Phase::File => {
            if begins(d.fresh, b) {
                return begin(file, held, line, table, work, index, out, at);
            }
            file_byte(held, b, file, at)
        }
        Phase::Queries => query_byte(d, b, line, table, work, index, out, at),
        Phase::Stopped => Next { desk: d, end: at },
    }
}

// Takes bytes of a chunk one after the other and prints what they give from the output area's start
// on, up to the chunk's end or to where the output area lacks room for an answer. Of the state behind
// them it is said where the file's area has 65,537 bytes, the line's 201, the table 20,480 numbers, the
// work area 65,536 bytes and the index 1,090 numbers; what the work area then holds is left open.
pub fn feed(
    d: Desk,
    chunk: &[u8],
    file: &mut [u8],
    line: &mut [u8],
    table: &mut [u16],
    work: &mut [u8],
    index: &mut [u16],
    out: &mut [u8],
) -> Fed
    ensures took { Took d chunk.now file.old line.old table.old
        work.old index.old out.old file.new line.new
        table.new work.new index.new out.new result }
    ensures feed_says { FeedSays d chunk.now file.old line.old table.old
        work.old index.old out.old file.new line.new
        table.new index.new out.new result }
{
    let mut desk = d;
    let mut taken: usize = 0;
    let mut written: usize = 0;
    let bytes = chunk.len();
    let room = out.len();
    // No `for`: it also ends where the area lacks room, and gives how many bytes it took.
    while goes_on(taken, bytes, written, room) {
        let b = chunk[taken];
        let n = feed_byte(desk, b, file, line, table, work, index, out, written);
        desk = n.desk;
        written = n.end;
        taken += 1;
    }
    Fed {
        desk: desk,
        taken: taken,
        written: written,
    }
}

// Whether the rest of the input can change nothing more of what is printed: the file has more than 65,536
// bytes, or is refused and answered.
pub fn settled(d: Desk) -> bool
    ensures { (file line table index : List ℕ) (s : State) → DeskAt d file line table index s → result ≡ is_settled s }
{
    let phase = d.phase;
    match phase {
        Phase::File => d.held > MAX_BYTES,
        Phase::Queries => false,
        Phase::Stopped => true,
    }
}

// Prints what the end of the input gives, from the output area's start on, as far as it fits, and says
// how many bytes that is; 160 are enough. The other areas need what `feed` says; what table and work area
// then hold is left open.
pub fn finished(
    d: Desk,
    file: &[u8],
    line: &[u8],
    table: &mut [u16],
    work: &mut [u8],
    index: &[u16],
    out: &mut [u8],
) -> usize
    ensures { FinishSays d file.now line.now table.old work.old
        index.now out.old out.new result }
{
    let phase = d.phase;
    let held = d.held;
    match phase {
        Phase::File => {
            let c = check_file(front(file, held), table, work);
            put_checked(out, 0, c)
        }
        Phase::Queries => {
            if held == 0 {
                return 0;
            }
            answer(d, front(line, held), table, index, work, out, 0)
        }
        Phase::Stopped => 0,
    }
}
