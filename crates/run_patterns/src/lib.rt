// Patterns against closed values as letters in an area: matching one with a value, and building a
// value from one. A variable's value is a range of the area: number n's begins at `vars[n]` and ends
// before `vars[32 + n]`.
#![tactic(auto)]

ghost use Rattle.std.specs.Prelude.{◌≡◌, cond, ◌&&◌, ℕ, ◌+◌, ◌-◌, ◌≤◌, ◌<◌, eqb, ltb, length, get_or, take};
ghost use Rattle.limits.specs.Limits.{field_bound};
ghost use Rattle.calculus.specs.Trees.{unit_leaf, empty_leaf, pair_node, element_node, pvar, Val};
ghost use Rattle.calculus.specs.Letters.{letters, leaf_letter, node_letter};
ghost use Rattle.area_cells.specs.Areas.{Writes};
ghost use Rattle.table_trees.specs.Unfolding.{cell_of, smaller_of, pattern_of};
ghost use Rattle.run_values.specs.Texts.{At, Ends, letter_for, alike, matched, put_range, ranges, range_of, built, Below};

use area_cells::{item_at, put_byte, store};
use area_words::{narrow, wide};
use codes::{
    ELEMENT, EMPTY, FIRST, KIND, LEFT, LETTER_ELEMENT, LETTER_EMPTY, LETTER_LEFT, LETTER_PAIR,
    LETTER_RIGHT, LETTER_UNIT, PAIR, RIGHT, SECOND, VARIABLE,
};
use limits::VARIABLES;
use run_values::copy_range;
use table_parts::pattern_part;
use table_trees::pattern_cell;

// How many values are left to be read, once a letter is read, where `left` were before.
fn left_after(b: u8, left: usize) -> usize
    requires { (0 < left) × (left < 18446744073709551615) }
    ensures { result ≡ cond (eqb b (leaf_letter unit_leaf)) (left - 1) (cond (eqb b (leaf_letter empty_leaf)) (left - 1)
        (cond (eqb b (node_letter pair_node)) (left + 1) (cond (eqb b (node_letter element_node)) (left + 1) left))) }
{
    match b {
        LETTER_EMPTY | LETTER_UNIT => left - 1,
        LETTER_ELEMENT | LETTER_PAIR => left + 1,
        _ => left,
    }
}

// Where the value ends that begins at a place.
pub fn value_end(s: &[u8], at: usize) -> usize
    ensures { (v : Val) → At s.now at v → result ≡ at + length (letters v) }
{
    let mut left: usize = 1;
    for i in at..s.len() {
        left = left_after(s[i], left);
        if left == 0 {
            return i + 1;
        }
    }
    at.max(s.len())
}

// Variable n stands for the letters from a place up to another.
pub fn put_range(vars: &mut [u16], n: usize, from: usize, to: usize)
    ensures { vars.new ≡ put_range vars.old n from to }
{
    if n < VARIABLES {
        store(vars, n, narrow(from));
        store(vars, VARIABLES + n, narrow(to));
    }
}

// Where the value at a place ends: `end` if that is told.
fn known_end(s: &[u8], at: usize, end: Option<usize>) -> usize
    ensures { (v : Val) → At s.now at v → Ends end at v → result ≡ at + length (letters v) }
{
    end.unwrap_or_else(|| value_end(s, at))
}

// Matches variable n with the value that begins at a place.
fn match_var(s: &[u8], at: usize, end: Option<usize>, n: usize, vars: &mut [u16]) -> Option<usize>
    ensures value { (v : Val) → At s.now at v → Ends end at v → result ≡ matched (alike (pvar n) v) (at + length (letters v)) }
    ensures vars_after { (v : Val) → At s.now at v → Ends end at v
        → vars.new ≡ ranges (pvar n) v at vars.old }
{
    let stop = known_end(s, at, end);
    put_range(vars, n, at, stop);
    Some(stop)
}

// The letter of a P line's kind; a number that is no kind has a unit's.
pub fn letter(kind: usize) -> u8
    ensures { result ≡ letter_for kind }
{
    match kind {
        PAIR => LETTER_PAIR,
        LEFT => LETTER_LEFT,
        RIGHT => LETTER_RIGHT,
        EMPTY => LETTER_EMPTY,
        ELEMENT => LETTER_ELEMENT,
        _ => LETTER_UNIT,
    }
}

// The place behind a letter, if it stands at a place.
fn letter_end(s: &[u8], at: usize, b: u8) -> Option<usize>
    ensures { result ≡ matched (ltb at (length s.now) && eqb (get_or s.now at 0) b) (at + 1) }
{
    if at < s.len() && s[at] == b {
        Some(at + 1)
    } else {
        None
    }
}

// Matches P line j with the value that begins at a place and ends before `end`, where that is known:
// where the value ends, and the ranges of the pattern's variables.
pub fn match_at(
    t: &[u16],
    base: usize,
    j: usize,
    s: &[u8],
    at: usize,
    end: Option<usize>,
    vars: &mut [u16],
) -> Option<usize>
    ensures value { (v : Val) → At s.now at v → Ends end at v
        → result ≡ matched (alike (pattern_of t.now base j) v) (at + length (letters v)) }
    ensures vars_after { (v : Val) → At s.now at v → Ends end at v
        → vars.new ≡ ranges (pattern_of t.now base j) v at vars.old }
{
    let kind = pattern_cell(t, base, j, KIND);
    if kind == VARIABLE {
        return match_var(s, at, end, pattern_cell(t, base, j, FIRST), vars);
    }
    let next = letter_end(s, at, letter(kind))?;
    match kind {
        PAIR | ELEMENT => {
            let m = match_at(
                t,
                base,
                pattern_part(t, base, j, FIRST),
                s,
                next,
                None,
                vars,
            )?;
            match_at(t, base, pattern_part(t, base, j, SECOND), s, m, end, vars)
        }
        LEFT | RIGHT => match_at(t, base, pattern_part(t, base, j, FIRST), s, next, end, vars),
        _ => Some(next),
    }
}

// Writes the letters that variable n stands for; gives where they end.
pub fn build_var(n: usize, vars: &[u16], work: &mut [u8], at: usize) -> usize
    requires { n < field_bound }
    ensures { (top : ℕ) → Below vars.now top → top ≤ at
        → Writes work.old work.new at result
        (range_of (take top work.old) vars.now n) }
{
    let from = wide(item_at(vars, n, 0));
    copy_range(work, from, wide(item_at(vars, VARIABLES + n, 0)), at)
}

// Writes P line j with its variables' values put in; gives where it ends.
pub fn build_at(t: &[u16], base: usize, j: usize, vars: &[u16], work: &mut [u8], at: usize) -> usize
    ensures { (top : ℕ) → Below vars.now top → top ≤ at
        → Writes work.old work.new at result
        (built (pattern_of t.now base j) (take top work.old) vars.now) }
{
    let kind = pattern_cell(t, base, j, KIND);
    if kind == VARIABLE {
        return build_var(pattern_cell(t, base, j, FIRST), vars, work, at);
    }
    let next = put_byte(work, at, letter(kind));
    match kind {
        PAIR | ELEMENT => {
            let middle = build_at(t, base, pattern_part(t, base, j, FIRST), vars, work, next);
            build_at(
                t,
                base,
                pattern_part(t, base, j, SECOND),
                vars,
                work,
                middle,
            )
        }
        LEFT | RIGHT => build_at(t, base, pattern_part(t, base, j, FIRST), vars, work, next),
        _ => next,
    }
}
