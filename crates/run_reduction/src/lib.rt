// The reduction over a checked table. Letters made on the way live in the work area, each
// application's behind those of the one that called it; its result takes the place of its argument.
#![tactic(auto)]

ghost use Rattle.std.specs.Prelude.{◌≡◌, cond, ◌||◌, ℕ, suc, ◌+◌, ◌-◌, ◌≤◌, ◌<◌, min, ◌⊎◌, List, eqb, ltb, get_or, length};
ghost use Rattle.limits.specs.Limits.{variables, word_bound, max_letters};
ghost use Rattle.calculus.specs.Trees.{Pat};
ghost use Rattle.table_trees.specs.Unfolding.{cell_of, smaller_of, pattern_of};
ghost use Rattle.run_values.specs.Texts.{Below, built};
ghost use Rattle.run_flat.specs.Flat.{Stands};
ghost use Rattle.run_coding.specs.Coded.{Coded};
ghost use Rattle.run_index.specs.Index.{place_at};
ghost use Rattle.run_reduction.specs.Frames.{rest_of, remaining, too_large, SettleSays, GiveSays, ArgueSays, ChoiceSays, StepSays, LetsSay, ApplySays};

use area_cells::item_at;
use area_words::wide;
use codes::{
    CLAUSE_LEFT, CLAUSE_RIGHT, ELEMENT, FIRST, KIND, LEFT, LET_ISO, LET_P, LET_Q, PAIR, RIGHT,
    SECOND, VARIABLE,
};
use limits::{MAX_LETTERS, VARIABLES};
use run_coding::{build_again, build_line, entry, match_again, match_line, variable};
use run_direction::{place, side};
use run_flat::STOP;
use run_values::copy_range;
use table_parts::pattern_part;
use table_trees::{cell, pattern_cell};

// Where a result begins and ends, and what is left of the budget.
#[derive(Clone, Copy)]
pub struct Given {
    pub at: usize,
    pub end: usize,
    pub left: u32,
}

// Where the letters that let steps leave end, and what is left of the budget.
#[derive(Clone, Copy)]
pub struct Reduced {
    pub top: usize,
    pub left: u32,
}

// What a reduction meets that gives nothing: a spent budget, or what is too large.
#[derive(Clone, Copy)]
pub enum Stop {
    Spent,
    Large,
}

// Where an argument begins and ends, and where the area is free behind it. One of over 127 letters stands
// nowhere: then the ends tell no more than that.
#[derive(Clone, Copy)]
pub struct Place {
    pub at: usize,
    pub end: usize,
    pub free: usize,
}

// Numbers of a flat pattern below this are variables; letters stand above.
const LETTERS_FROM: u16 = VARIABLES as u16;

// The first number of letters that is too large: measuring goes no further.
const TOO_MANY: usize = MAX_LETTERS + 1;

// Number m + 1 of the index.
fn next_place(index: &[u16], m: usize) -> usize
    ensures { (result ≡ place_at index.now (m + 1)) × (result < word_bound) }
{
    if m < index.len() {
        return place(index, m + 1);
    }
    0
}

// The line that a row names for the way forward in one field, for the way back in another.
fn line(t: &[u16], row: usize, back: bool, forth: usize, other: usize) -> usize
    ensures { result ≡ cell_of t.now row (cond back other forth) }
{
    cell(t, row, side(back, forth, other))
}

// The row of let step k, where n L rows stand from row `from` on: on the way back from the last.
fn let_row(back: bool, from: usize, n: usize, k: usize) -> usize
    requires { (from ≤ word_bound) × (n < word_bound) × (k < n) }
    ensures { result ≡ from + cond back (n - suc k) k }
{
    if back { from + (n - (k + 1)) } else { from + k }
}

// The first clause from place `from` up to place `stop` of the index whose pattern matches, and its
// variables; `stop` where there is none.
fn choose(
    t: &[u16],
    base: usize,
    index: &[u16],
    code: &[u16],
    back: bool,
    from: usize,
    stop: usize,
    work: &[u8],
    at: usize,
    end: usize,
    vars: &mut [u16],
) -> usize
    ensures { Coded t.now base code.now → ChoiceSays t.now base index.now back from stop work.now at end
        vars.old vars.new result }
{
    let field = side(back, CLAUSE_LEFT, CLAUSE_RIGHT);
    for m in from..stop {
        let j = cell(t, place(index, m), field);
        if match_line(t, base, code, j, work, at, end, vars) {
            return m;
        }
    }
    stop
}

// Where variable n's letters begin.
fn range_from(vars: &[u16], n: usize) -> usize
    ensures { result ≡ get_or vars.now n 0 }
{
    wide(item_at(vars, n, 0))
}

// Where they end.
fn range_to(vars: &[u16], n: usize) -> usize
    requires { n < word_bound }
    ensures { result ≡ get_or vars.now (variables + n) 0 }
{
    wide(item_at(vars, VARIABLES + n, 0))
}

// How many letters variable n has, up to the first that is too large.
fn range_length(vars: &[u16], n: usize) -> usize
    requires { n < word_bound }
    ensures { result ≡ min (get_or vars.now (variables + n) 0 - get_or vars.now n 0) (suc max_letters) }
{
    range_to(vars, n)
        .saturating_sub(range_from(vars, n))
        .min(TOO_MANY)
}

// How many letters the pattern that stands flat from place p on has with its variables' values put in.
fn flat_length(code: &[u16], p: usize, vars: &[u16]) -> usize
    ensures { (q : Pat) (s : List ℕ) → Stands code.now p q → Below vars.now (length s)
        → result ≡ min (length (built q s vars.now)) (suc max_letters) }
{
    let mut n: usize = 0;
    for k in p..code.len() {
        let o = code[k];
        if o == STOP {
            return n;
        }
        let more = if o < LETTERS_FROM {
            range_length(vars, wide(o))
        } else {
            1
        };
        n = (n + more).min(TOO_MANY);
    }
    n
}

// The same for P line j by its rows.
fn line_length(t: &[u16], base: usize, j: usize, vars: &[u16]) -> usize
    ensures upper_bound { result ≤ suc max_letters }
    ensures by_index { (s : List ℕ) → Below vars.now (length s)
        → result ≡ min (length (built (pattern_of t.now base j) s vars.now)) (suc max_letters) }
{
    match pattern_cell(t, base, j, KIND) {
        VARIABLE => range_length(vars, pattern_cell(t, base, j, FIRST)),
        PAIR | ELEMENT => {
            let a = line_length(t, base, pattern_part(t, base, j, FIRST), vars);
            let b = line_length(t, base, pattern_part(t, base, j, SECOND), vars);
            (1 + a + b).min(TOO_MANY)
        }
        LEFT | RIGHT => {
            let a = line_length(t, base, pattern_part(t, base, j, FIRST), vars);
            (1 + a).min(TOO_MANY)
        }
        _ => 1,
    }
}

// How many letters P line j, which is no variable, has with its variables' values put in, up to the first
// that is too large: by its flat pattern, where there is one.
fn other_length(t: &[u16], base: usize, code: &[u16], j: usize, vars: &[u16]) -> usize
    ensures { Coded t.now base code.now → (s : List ℕ) → Below vars.now (length s)
        → result ≡ min (length (built (pattern_of t.now base j) s vars.now)) (suc max_letters) }
{
    let d = entry(code, j);
    if VARIABLES < d {
        return flat_length(code, d, vars);
    }
    line_length(t, base, j, vars)
}

// The same for any P line.
fn built_length(t: &[u16], base: usize, code: &[u16], j: usize, vars: &[u16]) -> usize
    ensures { Coded t.now base code.now → (s : List ℕ) → Below vars.now (length s)
        → result ≡ min (length (built (pattern_of t.now base j) s vars.now)) (suc max_letters) }
{
    let n = variable(code, j);
    if n < VARIABLES {
        return range_length(vars, n);
    }
    other_length(t, base, code, j, vars)
}

// The result of a clause that is not too large: a variable's letters where they stand, if that is before
// `dest`, or copied to `dest`; or else built at `top` and copied.
fn settle(
    t: &[u16],
    base: usize,
    code: &[u16],
    j: usize,
    vars: &[u16],
    work: &mut [u8],
    top: usize,
    dest: usize,
    left: u32,
) -> Result<Given, Stop>
    ensures result_bound { rest_of result ≤ left }
    ensures settle_says { Coded t.now base code.now → SettleSays (pattern_of t.now base j)
        vars.now work.old work.new top dest left result }
{
    let n = variable(code, j);
    if n < VARIABLES {
        let from = range_from(vars, n);
        let to = range_to(vars, n);
        if to <= dest {
            return Ok(Given {
                at: from,
                end: to,
                left,
            });
        }
        if dest <= from {
            let end = copy_range(work, from, to, dest);
            return Ok(Given {
                at: dest,
                end,
                left,
            });
        }
    }
    let last = build_again(t, base, code, j, vars, work, top);
    if top == dest {
        return Ok(Given {
            at: dest,
            end: last,
            left,
        });
    }
    let end = copy_range(work, top, last, dest);
    Ok(Given {
        at: dest,
        end,
        left,
    })
}

// The result of a clause, measured before it is built or copied.
fn give(
    t: &[u16],
    base: usize,
    code: &[u16],
    j: usize,
    vars: &[u16],
    work: &mut [u8],
    top: usize,
    dest: usize,
    left: u32,
) -> Result<Given, Stop>
    ensures result_bound { rest_of result ≤ left }
    ensures give_says { Coded t.now base code.now → GiveSays (pattern_of t.now base j)
        vars.now work.old work.new top dest left result }
{
    if MAX_LETTERS < built_length(t, base, code, j, vars) {
        Err(Stop::Large)
    } else {
        settle(t, base, code, j, vars, work, top, dest, left)
    }
}

// The argument of a let step: a variable's letters where they stand, or q built at `top`, unless it is
// too large.
fn argument(
    t: &[u16],
    base: usize,
    code: &[u16],
    j: usize,
    vars: &[u16],
    work: &mut [u8],
    top: usize,
) -> Place
    ensures { Coded t.now base code.now → ArgueSays (pattern_of t.now base j)
        vars.now work.old work.new top result }
{
    let n = variable(code, j);
    if n < VARIABLES {
        let from = range_from(vars, n);
        let to = range_to(vars, n);
        return Place {
            at: from,
            end: to,
            free: top,
        };
    }
    let size = other_length(t, base, code, j, vars);
    if MAX_LETTERS < size {
        return Place {
            at: 0,
            end: size,
            free: top,
        };
    }
    let end = build_line(t, base, code, j, vars, work, top);
    Place {
        at: top,
        end: end,
        free: end,
    }
}

// Whether an application with so much depth left, or its argument from `at` up to `end`, is too large.
fn too_large(depth: usize, at: usize, end: usize) -> bool
    ensures { result ≡ too_large depth at end }
{
    depth == 0 || MAX_LETTERS < end.saturating_sub(at)
}

// One let step: builds q at `top`, applies the iso to it with so much depth left, and matches what comes
// out with p.
#[cycle(apply_let_step_run_lets)]
fn let_step(
    t: &[u16],
    base: usize,
    index: &[u16],
    code: &[u16],
    back: bool,
    depth: usize,
    row: usize,
    work: &mut [u8],
    top: usize,
    vars: &mut [u16],
    left: u32,
) -> Result<Reduced, Stop>
    ensures result_bound { remaining result ≤ left }
    ensures step_says { Coded t.now base code.now → StepSays t.now base index.now back depth row work.old
        work.new top vars.old vars.new left result }
{
    let q = line(t, row, back, LET_Q, LET_P);
    let a = argument(t, base, code, q, vars, work, top);
    let g = apply(
        t,
        base,
        index,
        code,
        back,
        cell(t, row, LET_ISO),
        depth,
        work,
        a.at,
        a.end,
        top,
        a.free,
        left,
    )?;
    let p = line(t, row, back, LET_P, LET_Q);
    match_again(t, base, code, p, work, g.at, g.end, vars);
    Ok(Reduced {
        top: top.max(g.end),
        left: g.left,
    })
}

// The let steps of a clause, whose L rows stand from row `from` up to row `to`.
#[cycle(apply_let_step_run_lets)]
fn run_lets(
    t: &[u16],
    base: usize,
    index: &[u16],
    code: &[u16],
    back: bool,
    depth: usize,
    from: usize,
    to: usize,
    work: &mut [u8],
    end: usize,
    vars: &mut [u16],
    budget: u32,
) -> Result<Reduced, Stop>
    requires { (from ≤ word_bound) × (to < word_bound) }
    ensures result_bound { remaining result ≤ budget }
    ensures lets_say { Coded t.now base code.now → LetsSay t.now base index.now back depth from to work.old
        work.new end vars.old vars.new budget result }
{
    let n = to.saturating_sub(from);
    let mut r = Reduced {
        top: end,
        left: budget,
    };
    for k in 0..n {
        r = let_step(
            t,
            base,
            index,
            code,
            back,
            depth,
            let_row(back, from, n, k),
            work,
            r.top,
            vars,
            r.left,
        )?;
    }
    Ok(r)
}

// Applies iso i to the value from `at` up to `end`, which lies before `free`, with calls nested at most
// `depth` deep: counts it against the budget, measures its argument and the depth, then its result. That
// stands before `dest` or begins there; the area before `dest` and behind `depth` frames from there on is
// left alone.
#[cycle(apply_let_step_run_lets)]
pub fn apply(
    t: &[u16],
    base: usize,
    index: &[u16],
    code: &[u16],
    back: bool,
    i: usize,
    depth: usize,
    work: &mut [u8],
    at: usize,
    end: usize,
    dest: usize,
    free: usize,
    left: u32,
) -> Result<Given, Stop>
    ensures result_bound { rest_of result ≤ left }
    ensures apply_says { Coded t.now base code.now → ApplySays t.now base
        index.now back i depth work.old work.new at end dest free left result }
{
    if left == 0 {
        return Err(Stop::Spent);
    }
    if too_large(depth, at, end) {
        return Err(Stop::Large);
    }
    let mut v = [0u16; 2 * VARIABLES];
    let low = place(index, i) + 1;
    let stop = next_place(index, i);
    let m = choose(t, base, index, code, back, low, stop, work, at, end, &mut v);
    if stop <= m {
        return Err(Stop::Spent);
    }
    let row = place(index, m);
    let below = next_place(index, m);
    let r = run_lets(
        t,
        base,
        index,
        code,
        back,
        depth - 1,
        row + 1,
        below,
        work,
        free,
        &mut v,
        left - 1,
    )?;
    let p = line(t, row, back, CLAUSE_RIGHT, CLAUSE_LEFT);
    give(t, base, code, p, &v, work, r.top, dest, r.left)
}
