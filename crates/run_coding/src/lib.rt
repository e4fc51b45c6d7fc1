// Flat patterns for the P lines of a table, written once: number 0 says for how many lines, number
// 1 + j is 0 where none stands for line j, 1 + n where it is variable n, and else the place of its flat
// pattern.
#![tactic(auto)]

ghost use Rattle.std.specs.Prelude.{◌≡◌, cond, ℕ, suc, ◌+◌, ◌≤◌, ◌<◌, ltb, length, take, List};
ghost use Rattle.limits.specs.Limits.{variables, max_patterns, word_bound};
ghost use Rattle.calculus.specs.Trees.{pvar};
ghost use Rattle.area_cells.specs.Areas.{Writes};
ghost use Rattle.table_trees.specs.Unfolding.{cell_of, smaller_of, pattern_of};
ghost use Rattle.run_values.specs.Texts.{letter_for, Below, built};
ghost use Rattle.run_coding.specs.Coded.{entry_of, listed, Coded, NumberPut, Flattened, Stopped, LineCoded, MatchSays};

use area_cells::{item_at, store};
use area_words::{narrow, wide, word_of};
use codes::{ELEMENT, FIRST, KIND, LEFT, PAIR, RIGHT, SECOND, SIZE, VARIABLE};
use limits::{INDEX_LENGTH, MAX_PATTERNS, VARIABLES, WORD_BOUND};
use run_flat::{STOP, build_flat, match_flat};
use run_patterns::{build_at, build_var, letter, match_at, put_range};
use table_parts::pattern_part;
use table_trees::pattern_cell;

// The place behind the lines' numbers.
pub const LISTED: usize = MAX_PATTERNS + 1;

// The numbers of an area for the index and, behind it, flat patterns: enough for most files; where it is
// not, lines without a flat pattern are matched and built by their rows. A shorter one is for callers that
// keep much else.
pub const AREA_LENGTH: usize = INDEX_LENGTH + LISTED + 2400;

pub const SHORT_AREA_LENGTH: usize = INDEX_LENGTH + LISTED + 1200;

// A number of 16 bits names no place above this.
const LAST_PLACE: usize = WORD_BOUND - 1;

// Stores a number, where there is room; gives the place behind it.
fn put_number(code: &mut [u16], at: usize, v: u16) -> Option<usize>
    ensures { NumberPut code.old code.new at v result }
{
    if code.len() <= at || LAST_PLACE <= at {
        return None;
    }
    code[at] = v;
    Some(at + 1)
}

// Writes variable n.
fn put_variable(code: &mut [u16], at: usize, n: usize) -> Option<usize>
    ensures { Flattened (pvar n) code.old code.new at result }
{
    if VARIABLES <= n {
        return None;
    }
    put_number(code, at, narrow(n))
}

// Writes P line j in prefix order, where there is room; gives where it ends. A line's last part is written by the same
// loop: a call for it would be one more for each node.
fn flatten(t: &[u16], base: usize, j: usize, code: &mut [u16], at: usize) -> Option<usize>
    ensures { Flattened (pattern_of t.now base j) code.old code.new at result }
{
    let mut line = j;
    let mut end = at;
    loop {
        let kind = pattern_cell(t, base, line, KIND);
        if kind == VARIABLE {
            return put_variable(code, end, pattern_cell(t, base, line, FIRST));
        }
        end = put_number(code, end, word_of(letter(kind)))?;
        line = match kind {
            PAIR | ELEMENT => {
                end = flatten(t, base, pattern_part(t, base, line, FIRST), code, end)?;
                pattern_part(t, base, line, SECOND)
            }
            LEFT | RIGHT => pattern_part(t, base, line, FIRST),
            _ => return Some(end),
        };
    }
}

// The same with the number behind a pattern's last one. A row has the number of its line's nodes: one for
// which there is no room is not walked.
fn flatten_stopped(t: &[u16], base: usize, j: usize, code: &mut [u16], at: usize) -> Option<usize>
    ensures { Stopped (pattern_of t.now base j) code.old code.new at result }
{
    if code.len().saturating_sub(at) <= pattern_cell(t, base, j, SIZE) {
        return None;
    }
    let end = flatten(t, base, j, code, at)?;
    put_number(code, end, STOP)
}

// The number for a line that is variable n.
fn variable_number(n: usize) -> u16
    ensures { result ≡ cond (ltb n variables) (suc n) 0 }
{
    if n < VARIABLES {
        return narrow(n + 1);
    }
    0
}

// Writes the number for P line j, and its flat pattern from a place on; gives the place behind it.
fn code_line(t: &[u16], base: usize, j: usize, code: &mut [u16], at: usize) -> usize
    requires { (j < max_patterns) × (listed ≤ at) × (listed ≤ length code.old) }
    ensures { LineCoded (pattern_of t.now base j) j code.old code.new at result }
{
    if pattern_cell(t, base, j, KIND) == VARIABLE {
        let n = pattern_cell(t, base, j, FIRST);
        store(code, j + 1, variable_number(n));
        return at;
    }
    let Some(next) = flatten_stopped(t, base, j, code, at) else {
        store(code, j + 1, 0);
        return at;
    };
    store(code, j + 1, narrow(at));
    next
}

// Writes the P lines of a table flat, from the last on, as far as there is room: lines name earlier ones, so
// that the sides of clauses stand last.
pub fn code_patterns(t: &[u16], base: usize, patterns: usize, code: &mut [u16])
    ensures { Coded t.now base code.new }
{
    store(code, 0, 0);
    if code.len() < LISTED || MAX_PATTERNS < patterns {
        return;
    }
    let mut at: usize = LISTED;
    for j in (0..patterns).rev() {
        at = code_line(t, base, j, code, at);
    }
    store(code, 0, narrow(patterns));
}

// The number for P line j, as the area has it: 0 where none is stored.
pub fn entry(code: &[u16], j: usize) -> usize
    ensures { (result ≡ entry_of code.now j) × (result < word_bound) }
{
    if j < wide(item_at(code, 0, 0)) {
        return wide(item_at(code, j + 1, 0));
    }
    0
}

// The variable that P line j is; 32 or more where it is none.
pub fn variable(code: &[u16], j: usize) -> usize
    ensures by_index { (t : List ℕ) (base : ℕ) → Coded t base code.now → result < variables → pattern_of t base j ≡ pvar result }
    ensures upper_bound { result < word_bound }
{
    let d = entry(code, j);
    if 0 < d {
        return d - 1;
    }
    VARIABLES
}

// Matches P line j with the value from a place up to `end`: whether it is of its shape, and the ranges of
// the line's variables.
fn match_other(
    t: &[u16],
    base: usize,
    code: &[u16],
    j: usize,
    s: &[u8],
    at: usize,
    end: usize,
    vars: &mut [u16],
) -> bool
    ensures { MatchSays t.now base code.now j s.now at end
        vars.old vars.new result }
{
    let d = entry(code, j);
    if VARIABLES < d {
        return match_flat(code, d, s, at, end, vars);
    }
    match_at(t, base, j, s, at, Some(end), vars).is_some()
}

// The same, with a variable told before. `match_again` is its twin for speed: a function that one place
// alone calls is put in line there, and one that two call is not.
pub fn match_line(
    t: &[u16],
    base: usize,
    code: &[u16],
    j: usize,
    s: &[u8],
    at: usize,
    end: usize,
    vars: &mut [u16],
) -> bool
    ensures { MatchSays t.now base code.now j s.now at end
        vars.old vars.new result }
{
    let n = variable(code, j);
    if n < VARIABLES {
        put_range(vars, n, at, end);
        return true;
    }
    match_other(t, base, code, j, s, at, end, vars)
}

// The same once more.
pub fn match_again(
    t: &[u16],
    base: usize,
    code: &[u16],
    j: usize,
    s: &[u8],
    at: usize,
    end: usize,
    vars: &mut [u16],
) -> bool
    ensures { MatchSays t.now base code.now j s.now at end
        vars.old vars.new result }
{
    let n = variable(code, j);
    if n < VARIABLES {
        put_range(vars, n, at, end);
        return true;
    }
    match_other(t, base, code, j, s, at, end, vars)
}

// Writes P line j with its variables' values put in; gives where it ends.
fn build_other(
    t: &[u16],
    base: usize,
    code: &[u16],
    j: usize,
    vars: &[u16],
    work: &mut [u8],
    at: usize,
) -> usize
    ensures { Coded t.now base code.now
        → (top : ℕ) → Below vars.now top → top ≤ at
        → Writes work.old work.new at result
        (built (pattern_of t.now base j) (take top work.old) vars.now) }
{
    let d = entry(code, j);
    if VARIABLES < d {
        return build_flat(code, d, vars, work, at);
    }
    build_at(t, base, j, vars, work, at)
}

// The same, with a variable told before, and again once for each place that calls it, to be put in line.
pub fn build_line(
    t: &[u16],
    base: usize,
    code: &[u16],
    j: usize,
    vars: &[u16],
    work: &mut [u8],
    at: usize,
) -> usize
    ensures { Coded t.now base code.now
        → (top : ℕ) → Below vars.now top → top ≤ at
        → Writes work.old work.new at result
        (built (pattern_of t.now base j) (take top work.old) vars.now) }
{
    let n = variable(code, j);
    if n < VARIABLES {
        return build_var(n, vars, work, at);
    }
    build_other(t, base, code, j, vars, work, at)
}

// The same once more, for another place that calls it.
pub fn build_again(
    t: &[u16],
    base: usize,
    code: &[u16],
    j: usize,
    vars: &[u16],
    work: &mut [u8],
    at: usize,
) -> usize
    ensures { Coded t.now base code.now
        → (top : ℕ) → Below vars.now top → top ≤ at
        → Writes work.old work.new at result
        (built (pattern_of t.now base j) (take top work.old) vars.now) }
{
    let n = variable(code, j);
    if n < VARIABLES {
        return build_var(n, vars, work, at);
    }
    build_other(t, base, code, j, vars, work, at)
}
