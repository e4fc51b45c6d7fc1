// A whole sheet in one call: a file is checked once, and each line of a list of queries answered.
#![tactic(auto)]

ghost use Rattle.std.specs.Prelude.{◌≡◌, ◌||◌, [], ◌∷◌, ◌+◌, ◌*◌, ◌%◌, ◌≤◌, length, drop};
ghost use Rattle.std.proofs.lemmas.List.Edits.{sets};
ghost use Rattle.limits.specs.Limits.{result_length, budget_bound};
ghost use Rattle.format.specs.Lines.{lines};
ghost use Rattle.model.specs.Services.{short, accepted, answer_of_run};
ghost use Rattle.model.specs.Desk.{query_of, answer_to};
ghost use Rattle.model.specs.Sheet.{narrow_sheet};
ghost use Rattle.format.specs.Code.{number_of};
ghost use Rattle.runner.specs.RunSays.{OnChecked, OnAccepted};
ghost use Rattle.sheets.specs.Answering.{SheetRoom, OneAnswered, AllAnswered};
ghost use Rattle.sheets.specs.SheetSays.{SheetSays};

use area_cells::{narrow_number, store};
use area_parts::clear;
use checker::{Checked, check_file};
use format::{Answer, Refusal, is_refused, number_of};
use limits::{MAX_QUERIES, RESULT_LENGTH, TABLE_LENGTH, WORK_LENGTH};
use query_answers::answer_line;
use read_fields::Cursor;
use read_split::count_lines;
use run_coding::AREA_LENGTH;
use runner::run::{Ran, prepare};

// The answer to the file, and how many queries were answered.
#[derive(Clone, Copy)]
pub struct Answered {
    pub answer: Answer,
    pub queries: usize,
}

// A refusal of the whole call, at no line.
fn refused(f: Option<Refusal>) -> Answered
    ensures { (result.answer.refusal ≡ f) × (result.answer.place ≡ 0) × (result.queries ≡ 0) }
{
    Answered {
        answer: Answer {
            place: 0,
            refusal: f,
        },
        queries: 0,
    }
}

// Whether a lent area is too short for a file or for n queries.
fn is_short(table: &[u16], work: &[u8], numbers: &[u32], letters: &[u8], n: usize) -> bool
    ensures { result ≡ (short table.now work.now || narrow_sheet n numbers.now letters.now) }
{
    table.len() < TABLE_LENGTH
        || work.len() < WORK_LENGTH
        || numbers.len() / 3 < n
        || letters.len() / RESULT_LENGTH < n
}

// Stores a run's number, count and length from place `at` on.
fn put_three(numbers: &mut [u32], at: usize, r: Ran)
    requires { at + 3 ≤ length numbers.old }
    ensures { numbers.new ≡ sets numbers.old at
        (number_of r.refusal ∷ (r.count ∷ (r.length % budget_bound ∷ []))) }
{
    let f = r.refusal;
    let n = number_of(f);
    store(numbers, at, u32::from(n));
    store(numbers, at + 1, r.count);
    store(numbers, at + 2, narrow_number(r.length));
}

// Answers query k, whose line is given, into its three numbers and its 127 bytes.
fn answer_one(
    t: &[u16],
    base: usize,
    index: &[u16],
    isos: usize,
    line: &[u8],
    k: usize,
    work: &mut [u8],
    numbers: &mut [u32],
    letters: &mut [u8],
)
    requires { (k * 3 + 3 ≤ length numbers.old) × (k * result_length + result_length ≤ length letters.old) }
    ensures { OnChecked t.now base index.now isos work.old
        (λ rs. OneAnswered (answer_of_run (answer_to (accepted rs) (query_of line.now))) k
        numbers.old letters.old numbers.new letters.new) }
{
    let from = k * RESULT_LENGTH;
    let end = from + RESULT_LENGTH;
    let r = answer_line(t, base, index, isos, line, work, &mut letters[from..end]);
    put_three(numbers, k * 3, r);
}

// Answers the queries on a checked table, one line after the other.
fn answer_lines(
    t: &[u16],
    base: usize,
    index: &[u16],
    isos: usize,
    queries: &[u8],
    work: &mut [u8],
    numbers: &mut [u32],
    letters: &mut [u8],
)
    requires { SheetRoom (length (lines queries.now)) numbers.old letters.old }
    ensures { OnChecked t.now base index.now isos work.old
        (λ rs. AllAnswered rs queries.now
        numbers.old letters.old numbers.new letters.new) }
{
    let mut at: usize = 0;
    let mut k: usize = 0;
    while at < queries.len() {
        let end = Cursor { at: at }.line_end(queries).at;
        answer_one(
            t,
            base,
            index,
            isos,
            &queries[at..end],
            k,
            work,
            numbers,
            letters,
        );
        k += 1;
        at = end;
    }
}

// Indexes the isos of an accepted file and answers the queries, in the first `room` bytes of the work area.
fn answer_all(
    table: &[u16],
    c: Checked,
    queries: &[u8],
    work: &mut [u8],
    room: usize,
    numbers: &mut [u32],
    letters: &mut [u8],
)
    requires { (room ≤ length work.old) × SheetRoom (length (lines queries.now)) numbers.old letters.old }
    ensures work_unchanged { drop room work.new ≡ drop room work.old }
    ensures on_accepted { OnAccepted table.now c room (λ rs. AllAnswered rs queries.now
        numbers.old letters.old numbers.new letters.new) }
{
    let mut index = [0u16; AREA_LENGTH];
    prepare(table, c, &mut index);
    answer_lines(
        table,
        c.types,
        &index,
        c.isos,
        queries,
        &mut work[0..room],
        numbers,
        letters,
    );
}

// Checks a file and answers up to 600 queries, one a line. The table needs 20,480 numbers, the work area
// 65,536 bytes, the numbers three elements for each query and the letters 127 bytes; a refusal of the
// call leaves numbers and letters untouched.
pub fn sheet(
    file: &[u8],
    table: &mut [u16],
    work: &mut [u8],
    queries: &[u8],
    numbers: &mut [u32],
    letters: &mut [u8],
) -> Answered
    ensures { SheetSays file.now table.old work.old queries.now
        numbers.old letters.old table.new work.new
        numbers.new letters.new result }
{
    let n = count_lines(queries);
    if is_short(table, work, numbers, letters, n) {
        return refused(Some(Refusal::ShortArea));
    }
    if MAX_QUERIES < n {
        return refused(Some(Refusal::TooLong));
    }
    let c = check_file(file, table, work);
    let a = c.answer;
    let f = a.refusal;
    if is_refused(f) {
        return Answered {
            answer: a,
            queries: 0,
        };
    }
    answer_all(table, c, queries, work, WORK_LENGTH, numbers, letters);
    clear(work, WORK_LENGTH, 0);
    Answered {
        answer: a,
        queries: n,
    }
}
