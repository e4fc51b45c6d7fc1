// A list of pairs as a file with one iso: each line `from,to` is a clause of two closed values.
#![tactic(auto)]

ghost use Rattle.std.specs.Prelude.{◌≡◌};
ghost use Rattle.format.specs.Code.{refusal_view};
ghost use Rattle.table_trees.specs.Unfolding.{type_of};
ghost use Rattle.number_values.specs.Numbers.{Counted};
ghost use Rattle.imports.specs.ImportSays.{types_fault, ListFiled, ListImported, ImportSays};

use checker::check_file;
use format::{Answer, Kind, Refusal, is_refused};
use limits::{IMPORT_LENGTH, MAX_CLAUSES, MAX_PAIRS};
use list_file::{Filed, write_file};
use list_lines::read_list;
use number_values::{COUNTS, count_values, find_counts, known};
use read_split::count_lines;

// The answer to the call, and the number of bytes in the output area.
#[derive(Clone, Copy)]
pub struct Imported {
    pub answer: Answer,
    pub length: usize,
}

fn not_filed(f: Option<Refusal>) -> Filed
    ensures { (result.refusal ≡ f) × (result.length ≡ 0) }
{
    Filed {
        refusal: f,
        length: 0,
    }
}

// Refusal 15 or 18 of T lines i and j of a table that holds so many, or nothing.
fn types_fault(t: &[u16], counts: &[usize], types: usize, i: usize, j: usize) -> Option<Refusal>
    requires { Counted t.now counts.now }
    ensures { refusal_view result ≡ types_fault types i j (type_of t.now i) (type_of t.now j) }
{
    if types <= i {
        return Some(Refusal::NoIso);
    }
    if types <= j {
        return Some(Refusal::NoIso);
    }
    if MAX_PAIRS < count_values(t, counts, i) {
        return Some(Refusal::TooMany);
    }
    if MAX_PAIRS < count_values(t, counts, j) {
        return Some(Refusal::TooMany);
    }
    None
}

// Writes the file of a list whose types are T lines i and j, each of at most 4,096 values.
fn import_list(
    t: &[u16],
    counts: &[usize],
    i: usize,
    j: usize,
    list: &[u8],
    out: &mut [u8],
) -> Filed
    requires { Counted t.now counts.now }
    ensures { ListFiled (type_of t.now i) (type_of t.now j) list.now
        out.old out.new result }
{
    let n = count_lines(list);
    if MAX_CLAUSES < n {
        return not_filed(Some(Refusal::Ceiling(Kind::Clause)));
    }
    let mut tos = [0u16; MAX_CLAUSES];
    let from = count_values(t, counts, i);
    let to = count_values(t, counts, j);
    if !read_list(list, n, from, to, &mut tos) {
        return not_filed(Some(Refusal::BadList));
    }
    write_file(t, counts, i, j, &tos, n, out)
}

// Imports a list between T lines i and j of a table that holds a checked file with so many T lines. The output area needs 65,536 bytes; a
// refusal leaves it untouched. Counts is where those of the T lines are kept.
pub fn import_checked(
    t: &[u16],
    counts: &mut [usize],
    types: usize,
    i: usize,
    j: usize,
    list: &[u8],
    out: &mut [u8],
) -> Filed
    ensures { ListImported t.now types i j list.now out.old out.new result }
{
    find_counts(t, counts);
    let f = types_fault(t, counts, types, i, j);
    if is_refused(f) {
        return not_filed(f);
    }
    import_list(t, counts, i, j, list, out)
}

// Checks a file and writes the file of a list of pairs between its T lines i and j. The output area needs 65,536 bytes; a refusal leaves
// it untouched.
pub fn import(
    file: &[u8],
    table: &mut [u16],
    work: &mut [u8],
    i: usize,
    j: usize,
    list: &[u8],
    output: &mut [u8],
) -> Imported
    ensures { ImportSays file.now table.old work.old i j list.now
        output.old table.new work.new output.new result }
{
    if output.len() < IMPORT_LENGTH {
        return Imported {
            answer: Answer {
                place: 0,
                refusal: Some(Refusal::ShortArea),
            },
            length: 0,
        };
    }
    let c = check_file(file, table, work);
    let a = c.answer;
    let f = a.refusal;
    if is_refused(f) {
        return Imported {
            answer: a,
            length: 0,
        };
    }
    let mut counts = [0usize; COUNTS];
    let most = known(c.types);
    let made = import_checked(table, &mut counts[0..most], c.types, i, j, list, output);
    let g = made.refusal;
    Imported {
        answer: Answer {
            place: 0,
            refusal: g,
        },
        length: made.length,
    }
}
