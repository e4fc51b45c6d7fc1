// Refusals 8 to 10 of a clause: its C row, and its L rows up to `end`. `starts` holds the rows of the I
// lines. A C row past the table's 4096 rows has no refusal.
#![tactic(auto)]

ghost use Rattle.std.specs.Prelude.{◌≡◌, List, ℕ, ◌-◌, ◌<◌, replicate};
ghost use Rattle.std.proofs.Math.Option.{none};
ghost use Rattle.std.proofs.Math.ListN.{get_elem?};
ghost use Rattle.limits.specs.Limits.{max_lines, variables};
ghost use Rattle.format.specs.Code.{refusal_view};
ghost use Rattle.calculus.specs.Clauses.{let_events, plain};
ghost use Rattle.check_facts.specs.Facts.{Facts};
ghost use Rattle.check_bare.specs.Bare.{Bares};
ghost use Rattle.check_known.specs.Known.{Known};
ghost use Rattle.table_trees.specs.Unfolding.{cell_of, type_of, pattern_of};
ghost use Rattle.check_variables.specs.Marks.{mark_events};
ghost use Rattle.check_typing.specs.Fitting.{env_view};
ghost use Rattle.check_typing.specs.Rules.{marked, shaped, fit_let, fitted_lets, fitted};
ghost use Rattle.table_walks.specs.InTable.{let_at, lets_in, clause_in, sigs_in};
ghost use Rattle.check_clauses.specs.ClauseTold.{ClauseTold};

use area_words::wide;
use check_facts::number;
use check_known::fit_known;
use check_shapes::is_plain;
use check_typing::{Env, all_used, no_types};
use check_variables::{Marks, mark, settled};
use codes::{CLAUSE_LEFT, CLAUSE_RIGHT, ISO_FROM, ISO_TO, LET_ISO, LET_P, LET_Q};
use format::{Kind, Refusal};
use limits::{MAX_LINES, VARIABLES};
use table_trees::cell;

// No variable is bound yet.
fn no_marks() -> Marks
    ensures { result.state ≡ replicate variables 0 }
{
    Marks {
        state: [0u8; VARIABLES],
    }
}

// The marks after the L rows from `from` up to `to`: each uses the variables of q, then binds those of p.
fn mark_lets(t: &[u16], base: usize, from: usize, to: usize, m: Marks) -> Marks
    ensures { result.state ≡ mark_events (let_events (lets_in t.now base from (to - from))) m.state }
{
    let mut now = m;
    for n in from..to {
        let used = mark(t, base, cell(t, n, LET_Q), false, now);
        now = mark(t, base, cell(t, n, LET_P), true, used);
    }
    now
}

// The variables rule.
fn variables_kept(t: &[u16], base: usize, row: usize, end: usize) -> bool
    ensures { row < max_lines → result ≡ marked (clause_in t.now base row end) }
{
    if row < MAX_LINES {
        let bound = mark(t, base, cell(t, row, CLAUSE_LEFT), true, no_marks());
        let stepped = mark_lets(t, base, row + 1, end, bound);
        return settled(mark(t, base, cell(t, row, CLAUSE_RIGHT), false, stepped));
    }
    true
}

// Whether P line p holds only unit, variables and pairs: by its fact, or walked where there is none.
fn plainly(t: &[u16], f: &[u8], base: usize, p: usize) -> bool
    requires { Facts t.now base f.now }
    ensures { result ≡ plain (pattern_of t.now base p) }
{
    if base <= f.len() && p < f.len() - base {
        return number(f[base + p]) == 0;
    }
    is_plain(t, base, p)
}

// Whether the L rows from `from` up to `to` hold only unit, variables and pairs.
fn shapes_kept(t: &[u16], f: &[u8], base: usize, from: usize, to: usize) -> bool
    requires { Facts t.now base f.now }
    ensures { result ≡ shaped (lets_in t.now base from (to - from)) }
{
    for n in from..to {
        if !plainly(t, f, base, cell(t, n, LET_P)) || !plainly(t, f, base, cell(t, n, LET_Q)) {
            return false;
        }
    }
    true
}

// No types fit any more.
fn misfit(e: Env) -> Env
    ensures { (t : List ℕ) → env_view t result ≡ none }
{
    Env { fits: false, ..e }
}

// The types after the L row n: q fits the from-type of its iso, p the to-type.
fn fit_let(t: &[u16], g: &[u16], k: &[u8], base: usize, starts: &[u16], n: usize, e: Env) -> Env
    requires { Bares t.now base g.now × Known t.now base k.now }
    ensures { env_view t.now result ≡ fit_let
        (get_elem? (sigs_in t.now starts.now) (cell_of t.now n 2))
        (let_at t.now base n) (env_view t.now e) }
{
    let i = cell(t, n, LET_ISO);
    if i < starts.len() {
        let head = wide(starts[i]);
        let used = fit_known(
            t,
            g,
            k,
            base,
            cell(t, n, LET_Q),
            cell(t, head, ISO_FROM),
            false,
            e,
        );
        return fit_known(
            t,
            g,
            k,
            base,
            cell(t, n, LET_P),
            cell(t, head, ISO_TO),
            true,
            used,
        );
    }
    misfit(e)
}

// The types after the L rows from `from` up to `to`.
fn fit_lets(
    t: &[u16],
    g: &[u16],
    k: &[u8],
    base: usize,
    starts: &[u16],
    from: usize,
    to: usize,
    e: Env,
) -> Env
    requires { Bares t.now base g.now × Known t.now base k.now }
    ensures { env_view t.now result ≡ fitted_lets (sigs_in t.now starts.now)
        (lets_in t.now base from (to - from)) (env_view t.now e) }
{
    let mut env = e;
    for n in from..to {
        env = fit_let(t, g, k, base, starts, n, env);
    }
    env
}

// Whether some types of the variables fit the clause of an iso from T line a to T line b.
fn types_fit(
    t: &[u16],
    g: &[u16],
    k: &[u8],
    base: usize,
    starts: &[u16],
    a: usize,
    b: usize,
    row: usize,
    end: usize,
) -> bool
    requires { Bares t.now base g.now × Known t.now base k.now }
    ensures { row < max_lines
        → result ≡ fitted (sigs_in t.now starts.now) (type_of t.now a)
        (type_of t.now b) (clause_in t.now base row end) }
{
    if row < MAX_LINES {
        let bound = fit_known(
            t,
            g,
            k,
            base,
            cell(t, row, CLAUSE_LEFT),
            a,
            true,
            no_types(),
        );
        let stepped = fit_lets(t, g, k, base, starts, row + 1, end, bound);
        let done = fit_known(t, g, k, base, cell(t, row, CLAUSE_RIGHT), b, false, stepped);
        return all_used(done);
    }
    false
}

// The lowest of 8 to 10, or nothing: that of the model where no variable is above 31, and else that of the
// code's tests. A clause that types keeps the variables rule.
pub fn clause_fault(
    t: &[u16],
    f: &[u8],
    g: &[u16],
    k: &[u8],
    base: usize,
    starts: &[u16],
    a: usize,
    b: usize,
    row: usize,
    end: usize,
) -> Option<Refusal>
    requires { Facts t.now base f.now × Bares t.now base g.now × Known t.now base k.now }
    ensures { ClauseTold t.now base starts.now a b row end (refusal_view result) }
{
    if MAX_LINES <= row {
        return None;
    }
    if shapes_kept(t, f, base, row + 1, end) {
        if types_fit(t, g, k, base, starts, a, b, row, end) {
            return None;
        }
        if variables_kept(t, base, row, end) {
            return Some(Refusal::BadType(Kind::Clause));
        }
        return Some(Refusal::Variable(Kind::Clause));
    }
    if variables_kept(t, base, row, end) {
        return Some(Refusal::LetShape(Kind::Clause));
    }
    Some(Refusal::Variable(Kind::Clause))
}
