// The fit of a pattern of the table to a type, and the types that its variables take.
#![tactic(auto)]

ghost use Rattle.std.specs.Prelude.{◌≡◌, true, cond, ◌&&◌, List, ℕ, ◌+◌, ◌<◌, ◌≤◌, length};
ghost use Rattle.limits.specs.Limits.{max_lines, variables};
ghost use Rattle.calculus.specs.Trees.{pvar, same_type};
ghost use Rattle.check_variables.specs.Marks.{settled_all};
ghost use Rattle.check_bare.specs.Bare.{Bare, Bares};
ghost use Rattle.table_trees.specs.Unfolding.{cell_of, type_of, pattern_of};
ghost use Rattle.check_typing.specs.Fitting.{env_view, EntryOf, fit_all, fresh_env, Parted, Element, list_part, Ready, Stepped, Reached, Fitted};

use area_words::wide;
use check_bare::is_bare;
use check_shapes::{names_nothing, same_type};
use codes::{ELEMENT, EMPTY, FIRST, KIND, LEFT, LIST, PAIR, PRODUCT, RIGHT, SECOND, SUM, VARIABLE};
use limits::{MAX_LINES, TABLE_LENGTH, VARIABLES};
use table_parts::{Lines, parts_of, pattern_part, type_part};
use table_trees::{cell, field, pattern_cell};

// The type of each live variable, as one more than its T line, 0 for none; and whether all fitted so far.
#[derive(Clone, Copy)]
pub struct Env {
    pub fits: bool,
    pub line: [u16; VARIABLES],
}

pub fn no_types() -> Env
    ensures { result ≡ fresh_env }
{
    Env {
        fits: true,
        line: [0u16; VARIABLES],
    }
}

// A T line as an entry: lines past the table's rows all unfold to a unit.
fn entry_of(a: usize) -> u16
    ensures { EntryOf a result }
{
    if a < MAX_LINES {
        return (a + 1) as u16;
    }
    4097
}

// Whether T lines b and a unfold to the same tree.
fn same_line(t: &[u16], b: usize, a: usize) -> bool
    ensures { result ≡ same_type (type_of t.now b) (type_of t.now a) }
{
    b == a || same_type(t, b, a)
}

// Variable n is bound to the type of T line a, and must not be live; or it is used with that type, and is live no more.
fn assign(t: &[u16], n: usize, a: usize, binds: bool, line: &mut [u16; VARIABLES]) -> bool
    requires { length line.old ≡ variables }
    ensures { Fitted t.now binds (pvar n) (type_of t.now a) line.old result line.new }
{
    if VARIABLES <= n {
        return false;
    }
    let known = wide(line[n]);
    if binds {
        if known == 0 {
            line[n] = entry_of(a);
            return true;
        }
        return false;
    }
    if known == 0 {
        return false;
    }
    if same_line(t, known - 1, a) {
        line[n] = 0;
        return true;
    }
    false
}

// Whether P line p is marked by the type of T line a, where both have a mark.
fn is_marked(g: &[u16], base: usize, p: usize, a: usize) -> bool
    requires { (base + p < length g.now) × (a < base) }
    ensures { result ≡ true → (t : List ℕ) → Bares t base g.now → Bare (pattern_of t base p) (type_of t a) }
{
    let m = wide(g[base + p]);
    0 < m && m == wide(g[a])
}

// Of a pair and a product the part that alone matters: the one beside a part of units and pairs.
fn beside(t: &[u16], g: &[u16], base: usize, p: usize, a: usize) -> Option<Lines>
    requires { Ready t.now g.now base p a × (cell_of t.now (base + p) 1 ≡ 4) × (cell_of t.now a 1 ≡ 2) }
    ensures { Stepped t.now base p a result }
{
    let one = parts_of(t, base, p, a, FIRST, FIRST)?;
    let two = parts_of(t, base, p, a, SECOND, SECOND)?;
    if is_marked(g, base, two.p, two.a) {
        return Some(one);
    }
    if is_marked(g, base, one.p, one.a) {
        return Some(two);
    }
    None
}

// The parts of P line p and T line a that alone matter, where there are such.
fn step(t: &[u16], g: &[u16], base: usize, p: usize, a: usize) -> Option<Lines>
    requires { Ready t.now g.now base p a }
    ensures { Stepped t.now base p a result }
{
    let kind = field(t, base + p, KIND);
    let over = field(t, a, KIND);
    if kind == PAIR && over == PRODUCT {
        return beside(t, g, base, p, a);
    }
    match kind {
        LEFT | RIGHT if over == SUM => parts_of(t, base, p, a, FIRST, kind),
        _ => None,
    }
}

// P line i and T line b, or lines below them that fit each other as these do, down to where no part alone matters.
fn descend(t: &[u16], g: &[u16], base: usize, i: usize, b: usize) -> Lines
    requires { Ready t.now g.now base i b }
    ensures { Reached t.now base i b result.p result.a }
{
    let mut at = Lines { p: i, a: b };
    while let Some(next) = step(t, g, base, at.p, at.a) {
        at = next;
    }
    at
}

// Whether P line p and T line a have marks, and rows of the table.
fn has_marks(g: &[u16], base: usize, p: usize, a: usize) -> bool
    ensures { result ≡ true → (length g.now ≤ max_lines) × (base + p < length g.now) × (a < base) }
{
    g.len() <= MAX_LINES && a < base && base <= g.len() && p < g.len() - base
}

// The same for any lines of any table.
fn reach(t: &[u16], g: &[u16], base: usize, p: usize, a: usize) -> Lines
    requires { Bares t.now base g.now }
    ensures { Reached t.now base p a result.p result.a }
{
    if TABLE_LENGTH <= t.len() && has_marks(g, base, p, a) {
        return descend(t, g, base, p, a);
    }
    Lines { p: p, a: a }
}

// Whether P line i, bound or used, fits T line b; `line` has the types of the live variables, as an `Env` has them.
#[cycle(fit_element_fit_lines_fit_parts)]
fn fit_lines(
    t: &[u16],
    g: &[u16],
    base: usize,
    i: usize,
    b: usize,
    binds: bool,
    line: &mut [u16; VARIABLES],
) -> bool
    requires { Bares t.now base g.now × (length line.old ≡ variables) }
    ensures { Fitted t.now binds (pattern_of t.now base i) (type_of t.now b)
        line.old result line.new }
{
    let at = reach(t, g, base, i, b);
    let p = at.p;
    let a = at.a;
    if is_bare(g, base, p, a) {
        return true;
    }
    let kp = pattern_cell(t, base, p, KIND);
    let ka = cell(t, a, KIND);
    match kp {
        VARIABLE => assign(t, pattern_cell(t, base, p, FIRST), a, binds, line),
        LEFT | RIGHT | PAIR => fit_parts(t, g, base, p, a, kp, ka, binds, line),
        EMPTY => ka == LIST,
        ELEMENT => fit_element(t, g, base, p, a, ka, binds, line),
        _ => names_nothing(ka),
    }
}

// The same for a P line of kind kp, left, right or pair, and a T line of kind ka. The second part of a pair is used first.
#[cycle(fit_element_fit_lines_fit_parts)]
fn fit_parts(
    t: &[u16],
    g: &[u16],
    base: usize,
    p: usize,
    a: usize,
    kp: usize,
    ka: usize,
    binds: bool,
    line: &mut [u16; VARIABLES],
) -> bool
    requires { Parted t.now base p a kp ka × Bares t.now base g.now × (length line.old ≡ variables) }
    ensures { Fitted t.now binds (pattern_of t.now base p) (type_of t.now a)
        line.old result line.new }
{
    if kp != PAIR {
        if ka == SUM {
            let only = pattern_part(t, base, p, FIRST);
            let part = type_part(t, a, kp);
            return fit_lines(t, g, base, only, part, binds, line);
        }
        return false;
    }
    if ka != PRODUCT {
        return false;
    }
    let k = sooner(binds);
    let first = pattern_part(t, base, p, k);
    let b = type_part(t, a, k);
    if fit_lines(t, g, base, first, b, binds, line) {
        let l = later(binds);
        let second = pattern_part(t, base, p, l);
        let c = type_part(t, a, l);
        return fit_lines(t, g, base, second, c, binds, line);
    }
    false
}

// The same for an element and a T line of kind ka. The list behind it fits the same T line, and is used first.
#[cycle(fit_element_fit_lines_fit_parts)]
fn fit_element(
    t: &[u16],
    g: &[u16],
    base: usize,
    p: usize,
    a: usize,
    ka: usize,
    binds: bool,
    line: &mut [u16; VARIABLES],
) -> bool
    requires { Element t.now base p a ka × Bares t.now base g.now × (length line.old ≡ variables) }
    ensures { Fitted t.now binds (pattern_of t.now base p) (type_of t.now a)
        line.old result line.new }
{
    if ka != LIST {
        return false;
    }
    let k = sooner(binds);
    let first = pattern_part(t, base, p, k);
    let b = list_part(t, a, k);
    if fit_lines(t, g, base, first, b, binds, line) {
        let l = later(binds);
        let second = pattern_part(t, base, p, l);
        let c = list_part(t, a, l);
        return fit_lines(t, g, base, second, c, binds, line);
    }
    false
}

// The T line that part k of an element fits on T line a, a list: the element's, or that of the list itself.
fn list_part(t: &[u16], a: usize, k: usize) -> usize
    ensures { result ≡ list_part t.now a k }
{
    if k == FIRST {
        type_part(t, a, FIRST)
    } else {
        a
    }
}

// The field of the part that comes first, and of the one that comes second.
pub fn sooner(binds: bool) -> usize
    ensures { result ≡ cond binds 2 3 }
{
    if binds { FIRST } else { SECOND }
}

pub fn later(binds: bool) -> usize
    ensures { result ≡ cond binds 3 2 }
{
    if binds { SECOND } else { FIRST }
}

// The types of the live variables once P line p, bound or used, fits T line a. A line of units and pairs is told by its mark.
pub fn fit(t: &[u16], g: &[u16], base: usize, p: usize, a: usize, binds: bool, e: Env) -> Env
    requires { Bares t.now base g.now }
    ensures { env_view t.now result ≡ fit_all binds (pattern_of t.now base p)
        (type_of t.now a) (env_view t.now e) }
{
    if is_bare(g, base, p, a) {
        return e;
    }
    if e.fits {
        let mut line = e.line;
        let fits = fit_lines(t, g, base, p, a, binds, &mut line);
        return Env {
            fits: fits,
            line: line,
        };
    }
    e
}

// Whether all fitted, and no variable is live.
pub fn all_used(e: Env) -> bool
    ensures { result ≡ (e.fits && settled_all e.line) }
{
    if e.fits {
        for entry in &e.line {
            if *entry != 0 {
                return false;
            }
        }
        return true;
    }
    false
}
