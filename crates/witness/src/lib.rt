// A setting that shows the fault: Check, and with refusals 11 to 14 the value that shows what is wrong with
// the side refused. The search reads the table before it is cleared.
#![tactic(auto)]

ghost use Rattle.std.specs.Prelude.{◌≡◌, ◌≤◌, length};
ghost use Rattle.limits.specs.Limits.{table_length, max_lines, result_length};
ghost use Rattle.format.specs.Lines.{lines};
ghost use Rattle.witness.specs.WitnessSays.{WitnessSays, Measures, Searched};

use area_parts::clear;
use checker::{early, entered, settled};
use fault_values::show_fault;
use format::{Answer, Refusal, is_refused, number_of};
use limits::{RESULT_LENGTH, WORK_LENGTH};

// A refusal and its line, or none, and the number of letters in the result area.
#[derive(Clone, Copy)]
pub struct Witnessed {
    pub answer: Answer,
    pub length: usize,
}

// A refusal without a line, and no letters.
fn refused(f: Option<Refusal>) -> Witnessed
    ensures { (result.answer.refusal ≡ f) × (result.answer.place ≡ 0) × (result.length ≡ 0) }
{
    Witnessed {
        answer: Answer {
            place: 0,
            refusal: f,
        },
        length: 0,
    }
}

// Check's answer with the letters that show it, or 24 where a side is refused and none do: every value that shows the fault has over
// 127 letters.
fn measured(answer: Answer, number: u8, n: usize) -> Witnessed
    ensures { Measures answer number n result }
{
    if n == 0 && 10 < number && number < 15 {
        return refused(Some(Refusal::TooLarge));
    }
    Witnessed {
        answer: answer,
        length: n,
    }
}

// Checks a file of at most 4,096 lines and shows its fault.
fn searched(file: &[u8], table: &mut [u16], res: &mut [u8]) -> Witnessed
    requires { (table_length ≤ length table.old) × (length (lines file.now) ≤ max_lines) × (result_length ≤ length res.old) }
    ensures { Searched file.now table.old res.old table.new res.new result }
{
    let c = entered(file, table);
    let a = c.answer;
    let f = a.refusal;
    let number = number_of(f);
    let n = show_fault(table, c.types, c.lines, number, a.place, res);
    let d = settled(table, c);
    measured(d.answer, number, n)
}

// Checks a file, and with refusals 11 to 14 writes the letters of the least value that shows the fault, or refuses with 24 where it
// has over 127. The result area needs 127 bytes; with any other answer it is left untouched.
pub fn witness(file: &[u8], table: &mut [u16], work: &mut [u8], res: &mut [u8]) -> Witnessed
    ensures { WitnessSays file.now table.old work.old res.old
        table.new work.new res.new result }
{
    if res.len() < RESULT_LENGTH {
        return refused(Some(Refusal::ShortArea));
    }
    let f = early(file, table.len(), work.len());
    if is_refused(f) {
        return refused(f);
    }
    clear(work, WORK_LENGTH, 0);
    searched(file, table, res)
}
