// Settings as numbers: the letters of a closed value of a T line to its number, and back, on a checked
// table and as services.
#![tactic(auto)]

ghost use Rattle.std.specs.Prelude.{◌≡◌, List, ℕ, ◌≤◌, length};
ghost use Rattle.limits.specs.Limits.{result_length};
ghost use Rattle.format.specs.Lines.{Row as RowOf};
ghost use Rattle.model.specs.Services.{accepted};
ghost use Rattle.law_ranking.specs.Numbering.{number_on, setting_on};
ghost use Rattle.format.specs.Code.{refusal_view};
ghost use Rattle.table_trees.specs.Unfolding.{type_of};
ghost use Rattle.table_walks.specs.Walk.{FileIn};
ghost use Rattle.number_values.specs.Numbers.{Counted};
ghost use Rattle.settings.specs.SettingSays.{type_fault, FaultOf, NumberedAs, LetteredAs, NumberSays, SettingSays};

use checker::check_file;
use format::{Refusal, is_refused};
use limits::{MAX_VALUES, RESULT_LENGTH};
use number_values::{COUNTS, count_values, find_counts, known, rank_at, unrank_at};
use run_values::is_value;

// A refusal or none, and a setting's number.
#[derive(Clone, Copy)]
pub struct Numbered {
    pub refusal: Option<Refusal>,
    pub setting: u32,
}

// A refusal or none, and the number of letters in the result area.
#[derive(Clone, Copy)]
pub struct Lettered {
    pub refusal: Option<Refusal>,
    pub length: usize,
}

fn not_numbered(f: Option<Refusal>) -> Numbered
    ensures { (result.refusal ≡ f) × (result.setting ≡ 0) }
{
    Numbered {
        refusal: f,
        setting: 0,
    }
}

fn not_lettered(f: Option<Refusal>) -> Lettered
    ensures { (result.refusal ≡ f) × (result.length ≡ 0) }
{
    Lettered {
        refusal: f,
        length: 0,
    }
}

// Refusal 15 or 18 of T line i of a table that holds so many, or nothing.
fn type_fault(t: &[u16], counts: &[usize], types: usize, i: usize) -> Option<Refusal>
    requires { Counted t.now counts.now }
    ensures { refusal_view result ≡ type_fault types i (type_of t.now i) }
{
    if types <= i {
        return Some(Refusal::NoIso);
    }
    if MAX_VALUES < count_values(t, counts, i) {
        return Some(Refusal::TooMany);
    }
    None
}

// Refusal 15, 18 or 19 of T line i and number n of a table that holds a checked file with so many T lines, or
// nothing.
pub fn setting_fault(
    t: &[u16],
    counts: &[usize],
    types: usize,
    i: usize,
    n: usize,
) -> Option<Refusal>
    requires { Counted t.now counts.now }
    ensures { FaultOf t.now types i n result }
{
    let f = type_fault(t, counts, types, i);
    if is_refused(f) {
        return f;
    }
    if count_values(t, counts, i) <= n {
        return Some(Refusal::TooHigh);
    }
    None
}

// The number of a value of T line i of such a table; counts is where those of the T lines before it are kept.
fn number_checked(t: &[u16], counts: &mut [usize], types: usize, i: usize, value: &[u8]) -> Numbered
    ensures { (patterns lines : ℕ) (rs : List RowOf) → FileIn t.now types patterns lines rs
        → NumberedAs (number_on (accepted rs) i value.now) result }
{
    find_counts(t, counts);
    let f = type_fault(t, counts, types, i);
    if is_refused(f) {
        return not_numbered(f);
    }
    if !is_value(t, i, value) {
        return not_numbered(Some(Refusal::NoValue));
    }
    let r = rank_at(t, counts, i, value, 0);
    Numbered {
        refusal: None,
        setting: r.number as u32,
    }
}

// Writes the letters of the value of T line i with number n, on such a table. The result area needs 127
// bytes; a refusal leaves it untouched.
fn setting_checked(
    t: &[u16],
    counts: &mut [usize],
    types: usize,
    i: usize,
    n: usize,
    res: &mut [u8],
) -> Lettered
    ensures { (patterns lines : ℕ) (rs : List RowOf) → FileIn t.now types patterns lines rs
        → result_length ≤ length res.old
        → LetteredAs (setting_on (accepted rs) i n) res.old res.new result }
{
    find_counts(t, counts);
    let f = setting_fault(t, counts, types, i, n);
    if is_refused(f) {
        return not_lettered(f);
    }
    let end = unrank_at(t, counts, i, n, res, 0);
    Lettered {
        refusal: None,
        length: end,
    }
}

// Checks a file and gives the number of a value of its T line i.
pub fn to_number(
    file: &[u8],
    table: &mut [u16],
    work: &mut [u8],
    i: usize,
    value: &[u8],
) -> Numbered
    ensures { NumberSays file.now table.old work.old i value.now
        table.new work.new result }
{
    let c = check_file(file, table, work);
    let a = c.answer;
    let f = a.refusal;
    if is_refused(f) {
        return not_numbered(f);
    }
    let mut counts = [0usize; COUNTS];
    let most = known(i);
    number_checked(table, &mut counts[0..most], c.types, i, value)
}

// Checks a file and writes the letters of the value of its T line i with a number. The result area needs
// 127 bytes; a refusal leaves it untouched.
pub fn to_setting(
    file: &[u8],
    table: &mut [u16],
    work: &mut [u8],
    i: usize,
    setting: u32,
    res: &mut [u8],
) -> Lettered
    ensures { SettingSays file.now table.old work.old i setting
        res.old table.new work.new res.new result }
{
    if res.len() < RESULT_LENGTH {
        return not_lettered(Some(Refusal::ShortArea));
    }
    let c = check_file(file, table, work);
    let a = c.answer;
    let f = a.refusal;
    if is_refused(f) {
        return not_lettered(f);
    }
    let mut counts = [0usize; COUNTS];
    let most = known(i);
    setting_checked(
        table,
        &mut counts[0..most],
        c.types,
        i,
        setting as usize,
        res,
    )
}
