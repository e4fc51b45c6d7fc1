// The fit of a P line to a T line, found once with no variable live and kept: it then tells the fit wherever variables are live. A slot
// has an entry for each of the 32 variables, the T line, how the fit went, and the P line in two bytes.
#![tactic(auto)]

ghost use Rattle.std.specs.Prelude.{◌≡◌, true, false, List, ℕ, ◌+◌, ◌-◌, ◌≤◌, ◌<◌, length, get_or};
ghost use Rattle.std.proofs.Math.Option.{Option, none as nothing, some};
ghost use Rattle.limits.specs.Limits.{variables};
ghost use Rattle.calculus.specs.Trees.{Ty};
ghost use Rattle.calculus.specs.Slots.{Slots};
ghost use Rattle.check_bare.specs.Bare.{Bares};
ghost use Rattle.table_trees.specs.Unfolding.{cell_of, type_of, pattern_of};
ghost use Rattle.check_typing.specs.Fitting.{env_view, fit_all};
ghost use Rattle.check_known.specs.Known.{meeting, MetEntry, NextEntry, Skipped, Entries, line_at, own_at, Known, Slot, Place, Full, Went, Entered, Stored, large_row, any_large, head_at};

use area_cells::item_at;
use area_words::wide;
use check_bare::is_bare;
use check_facts::{byte, number};
use check_shapes::same_type;
use check_typing::{Env, fit, later, no_types, sooner};
use codes::{
    CLAUSE_LEFT, CLAUSE_LINE, CLAUSE_RIGHT, FIRST, ISO_FROM, ISO_LINE, ISO_TO, KIND, LET_ISO,
    LET_P, LET_Q, PAIR, PRODUCT, ROW_LETTER, SECOND, SIZE,
};
use limits::VARIABLES;
use table_parts::{pattern_part, type_part};
use table_trees::{cell, pattern_cell};

// What stands behind the entries of a slot.
const OWN: usize = 32;

const HOW: usize = 33;

const LOW: usize = 34;

const HIGH: usize = 35;

const WIDTH: usize = 36;

const SLOTS: usize = 1024;

// The bytes of all slots.
pub const KNOWN: usize = WIDTH * SLOTS;

// As many slots are tried, from the first one of a P line and a T line on.
const TRIES: usize = 4;

// As far below a line that is not kept its parts are kept and looked up.
const DEPTH: usize = 3;

// How a fit went.
const CLOSED: usize = 1;

const TYPES: usize = 2;

const FAILS: usize = 3;

const NO_ROOM: usize = 4;

// A P line of fewer nodes is walked as soon as looked up.
const LARGE: usize = 16;

// What no entry is.
const MISFIT: usize = 65536;

// ---- slots

// Whether the slot at place `at` is that of P line p on T line a.
fn is_slot_of(k: &[u8], at: usize, p: usize, a: usize) -> bool
    requires { at + 35 < length k.now }
    ensures { result ≡ true → (line_at k.now at ≡ p) × (own_at k.now at ≡ a) }
{
    number(k[at + OWN]) == a && number(k[at + LOW]) + number(k[at + HIGH]) * 256 == p
}

// The first place among some slots at which P line p is kept on T line a or nothing is; the end where there is none.
fn slot_of(k: &[u8], p: usize, a: usize) -> usize
    ensures { result < length k.now → Place k.now p a result }
{
    let first = (p % SLOTS) * 633 + (a % SLOTS) * 67;
    for i in 0..TRIES {
        let at = ((first + i) % SLOTS) * WIDTH;
        if k.len() < at + WIDTH {
            return k.len();
        }
        if number(k[at + HOW]) == 0 {
            return at;
        }
        if is_slot_of(k, at, p, a) {
            return at;
        }
    }
    k.len()
}

// ---- a kept fit met

// An entry and what a kept fit has for its variable, as the entry that is left; MISFIT where they do not meet.
fn meet_entry(t: &[u16], known: usize, x: usize, binds: bool) -> usize
    requires { (0 < x) × (x < 256) }
    ensures { MetEntry t.now binds known x result × (result ≤ 65536) }
{
    if binds {
        if known == 0 {
            return x;
        }
        return MISFIT;
    }
    if known == 0 {
        return MISFIT;
    }
    if known == x {
        return 0;
    }
    if same_type(t, known - 1, x - 1) {
        return 0;
    }
    MISFIT
}

// Whether four entries from place `at` on are empty.
fn four_empty(k: &[u8], at: usize) -> bool
    requires { at + 3 < length k.now }
    ensures { result ≡ true → (j : ℕ) → j < 4 → get_or k.now (at + j) 0 ≡ 0 }
{
    let first = number(k[at]) + number(k[at + 1]);
    let last = number(k[at + 2]) + number(k[at + 3]);
    first + last == 0
}

// The number of a variable from `from` on, before which the entries from place `at` on have no types.
fn skip_empty(k: &[u8], at: usize, from: usize) -> usize
    requires { at + 35 < length k.now }
    ensures { Skipped k.now at from result }
{
    let mut i = from;
    while i < VARIABLES - 3 {
        if four_empty(k, at + i) {
            i += 4;
        } else {
            return i;
        }
    }
    i
}

// The number of the first variable from `from` on that the entries from place `at` on have a type for, at least 32 where there is none.
fn next_entry(k: &[u8], at: usize, from: usize) -> usize
    requires { at + 35 < length k.now }
    ensures { NextEntry k.now at from result }
{
    if from < VARIABLES && 0 < number(k[at + from]) {
        return from;
    }
    let mut i = skip_empty(k, at, from);
    while i < VARIABLES {
        if 0 < number(k[at + i]) {
            return i;
        }
        i += 1;
    }
    i
}

// No types fit any more.
fn misfit(e: Env) -> Env
    ensures { result.fits ≡ false }
{
    Env { fits: false, ..e }
}

// The types of the live variables once a pattern with the entries from place `at` on is bound or used.
fn meet_types(t: &[u16], k: &[u8], at: usize, binds: bool, e: Env) -> Env
    requires { (at + 35 < length k.now) × (e.fits ≡ true) }
    ensures { (w : Slots Ty) → Entries t.now k.now at w
        → env_view t.now result ≡ meeting binds (env_view t.now e) (some w) }
{
    let mut line = e.line;
    let mut i = next_entry(k, at, 0);
    while i < VARIABLES {
        let m = meet_entry(t, wide(line[i]), number(k[at + i]), binds);
        if m == MISFIT {
            return misfit(e);
        }
        line[i] = m as u16;
        i = next_entry(k, at, i + 1);
    }
    Env {
        fits: true,
        line: line,
    }
}

// The same, where all has fitted so far.
fn meet_kept(t: &[u16], k: &[u8], at: usize, binds: bool, e: Env) -> Env
    requires { at + 35 < length k.now }
    ensures { (w : Slots Ty) → Entries t.now k.now at w
        → env_view t.now result ≡ meeting binds (env_view t.now e) (some w) }
{
    if e.fits {
        return meet_types(t, k, at, binds, e);
    }
    e
}

// The same by a kept fit of P line p to T line a: closed, with types, or failed.
fn fit_kept(
    t: &[u16],
    k: &[u8],
    base: usize,
    p: usize,
    a: usize,
    at: usize,
    binds: bool,
    e: Env,
) -> Env
    requires { Known t.now base k.now × Full k.now p a at }
    ensures { env_view t.now result ≡ fit_all binds (pattern_of t.now base p)
        (type_of t.now a) (env_view t.now e) }
{
    let how = number(k[at + HOW]);
    if how == CLOSED {
        return e;
    }
    if how == TYPES {
        return meet_kept(t, k, at, binds, e);
    }
    misfit(e)
}

// ---- which fits are looked up

// Whether P line p has a mark: it holds only units and pairs, and its mark tells its fit.
fn has_mark(g: &[u16], base: usize, p: usize) -> bool {
    base <= g.len() && p < g.len() - base && 0 < g[base + p]
}

// Whether P line p is large and without a mark, and both lines have numbers that a slot has room for.
fn is_large(t: &[u16], g: &[u16], base: usize, p: usize, a: usize) -> bool
    ensures { result ≡ true → (p < 65536) × (a < 256) }
{
    LARGE <= pattern_cell(t, base, p, SIZE) && !has_mark(g, base, p) && p < 65536 && a < 256
}

// Whether the parts of P line p and T line a, a pair and a product, are looked up: both lines are large, and parts are left to go down to.
fn is_parted(t: &[u16], g: &[u16], base: usize, p: usize, a: usize, depth: usize) -> bool
    ensures { result ≡ true → (cell_of t.now (base + p) 1 ≡ 4) × (cell_of t.now a 1 ≡ 2) × (0 < depth) }
{
    0 < depth
        && is_large(t, g, base, p, a)
        && pattern_cell(t, base, p, KIND) == PAIR
        && cell(t, a, KIND) == PRODUCT
}

// The place at which the fit of P line p to T line a is kept; the end where it is not.
fn kept_at(t: &[u16], g: &[u16], k: &[u8], base: usize, p: usize, a: usize) -> usize
    ensures { result < length k.now → Full k.now p a result }
{
    if is_large(t, g, base, p, a) {
        let at = slot_of(k, p, a);
        if at < k.len() {
            let how = number(k[at + HOW]);
            if 0 < how && how < NO_ROOM {
                return at;
            }
        }
    }
    k.len()
}

// What `fit` gives: by the fit that is kept, or part by part where none is.
#[cycle(fit_apart_fit_deep)]
fn fit_deep(
    t: &[u16],
    g: &[u16],
    k: &[u8],
    base: usize,
    p: usize,
    a: usize,
    binds: bool,
    depth: usize,
    e: Env,
) -> Env
    requires { Bares t.now base g.now × Known t.now base k.now }
    ensures { env_view t.now result ≡ fit_all binds (pattern_of t.now base p)
        (type_of t.now a) (env_view t.now e) }
{
    let at = kept_at(t, g, k, base, p, a);
    if at < k.len() {
        return fit_kept(t, k, base, p, a, at, binds, e);
    }
    fit_apart(t, g, k, base, p, a, binds, depth, e)
}

// The same by the fits of the parts, down to some depth; walked below it, and where there are none.
#[cycle(fit_apart_fit_deep)]
fn fit_apart(
    t: &[u16],
    g: &[u16],
    k: &[u8],
    base: usize,
    p: usize,
    a: usize,
    binds: bool,
    depth: usize,
    e: Env,
) -> Env
    requires { Bares t.now base g.now × Known t.now base k.now }
    ensures { env_view t.now result ≡ fit_all binds (pattern_of t.now base p)
        (type_of t.now a) (env_view t.now e) }
{
    if is_parted(t, g, base, p, a, depth) {
        let i = sooner(binds);
        let q = pattern_part(t, base, p, i);
        let b = type_part(t, a, i);
        let one = fit_deep(t, g, k, base, q, b, binds, depth - 1, e);
        let j = later(binds);
        let s = pattern_part(t, base, p, j);
        let c = type_part(t, a, j);
        return fit_deep(t, g, k, base, s, c, binds, depth - 1, one);
    }
    fit(t, g, base, p, a, binds, e)
}

// The same from the line itself on, which is mostly kept.
pub fn fit_known(
    t: &[u16],
    g: &[u16],
    k: &[u8],
    base: usize,
    p: usize,
    a: usize,
    binds: bool,
    e: Env,
) -> Env
    requires { Bares t.now base g.now × Known t.now base k.now }
    ensures { env_view t.now result ≡ fit_all binds (pattern_of t.now base p)
        (type_of t.now a) (env_view t.now e) }
{
    if pattern_cell(t, base, p, SIZE) < LARGE {
        return fit(t, g, base, p, a, binds, e);
    }
    if is_bare(g, base, p, a) {
        return e;
    }
    let at = slot_of(k, p, a);
    if at < k.len() {
        let how = number(k[at + HOW]);
        if how == TYPES {
            return meet_kept(t, k, at, binds, e);
        }
        if how == CLOSED {
            return e;
        }
        if how == FAILS {
            return misfit(e);
        }
    }
    fit_apart(t, g, k, base, p, a, binds, DEPTH, e)
}

// ---- a fit kept

// The greatest entry.
fn greatest(e: Env) -> usize
    ensures { (i : ℕ) → i < variables → get_or e.line i 0 ≤ result }
{
    let mut most: usize = 0;
    for entry in &e.line {
        most = most.max(wide(*entry));
    }
    most
}

// How a fit went.
fn how_of(e: Env) -> usize
    ensures { Went e result }
{
    if e.fits {
        let most = greatest(e);
        if most == 0 {
            return CLOSED;
        }
        if most < 256 {
            return TYPES;
        }
        return NO_ROOM;
    }
    FAILS
}

// The entries stored from place `at` on.
fn enter(k: &mut [u8], at: usize, e: Env)
    requires { at + 35 < length k.old }
    ensures { Entered k.new k.old at e.line }
{
    let line = e.line;
    for i in 0..VARIABLES {
        k[at + i] = byte(wide(line[i]));
    }
}

// The fit of P line p to T line a stored in the slot at place `at`.
fn store(k: &mut [u8], at: usize, p: usize, a: usize, how: usize, e: Env)
    requires { (at + 35 < length k.old) × (p < 65536) × (a < 256) × (how < 256) }
    ensures { Stored k.new k.old at e.line p a how }
{
    enter(k, at, e);
    k[at + OWN] = byte(a);
    k[at + HOW] = byte(how);
    k[at + LOW] = byte(p % 256);
    k[at + HIGH] = byte(p / 256);
}

// The fit of P line p to T line a found and kept in the slot at place `at`.
fn keep_fit(t: &[u16], g: &[u16], k: &mut [u8], base: usize, p: usize, a: usize, at: usize)
    requires { Bares t.now base g.now × Known t.now base k.old × Slot k.old at × (p < 65536) × (a < 256) }
    ensures { (length k.new ≡ length k.old) × Known t.now base k.new }
{
    let e = fit_known(t, g, k, base, p, a, true, no_types());
    let how = how_of(e);
    if how < NO_ROOM {
        store(k, at, p, a, how, e);
    }
}

// Whether nothing is kept at a place.
fn is_free(k: &[u8], at: usize) -> bool
    requires { at < length k.now → at + 35 < length k.now }
    ensures { result ≡ true → at < length k.now }
{
    at < k.len() && number(k[at + HOW]) == 0
}

// The fit of P line p to T line a kept, and before it those of its parts down to some depth: of large lines, where the fit is not kept yet
// and a slot is free for it.
fn keep_deep(t: &[u16], g: &[u16], k: &mut [u8], base: usize, p: usize, a: usize, depth: usize)
    requires { Bares t.now base g.now × Known t.now base k.old }
    ensures { (length k.new ≡ length k.old) × Known t.now base k.new }
{
    if is_large(t, g, base, p, a) {
        let at = slot_of(k, p, a);
        if is_free(k, at) {
            if is_parted(t, g, base, p, a, depth) {
                keep_deep(
                    t,
                    g,
                    k,
                    base,
                    pattern_part(t, base, p, FIRST),
                    type_part(t, a, FIRST),
                    depth - 1,
                );
                keep_deep(
                    t,
                    g,
                    k,
                    base,
                    pattern_part(t, base, p, SECOND),
                    type_part(t, a, SECOND),
                    depth - 1,
                );
            }
            keep_fit(t, g, k, base, p, a, at);
        }
    }
}

// The same from the line itself on, which is mostly kept.
fn keep_line(t: &[u16], g: &[u16], k: &mut [u8], base: usize, p: usize, a: usize)
    requires { Bares t.now base g.now × Known t.now base k.old }
    ensures { (length k.new ≡ length k.old) × Known t.now base k.new }
{
    if is_large(t, g, base, p, a) {
        let at = slot_of(k, p, a);
        if is_free(k, at) {
            keep_deep(t, g, k, base, p, a, DEPTH);
        }
    }
}

// The fits of P lines p and q to the from-type and the to-type of the iso with I row `head`.
fn keep_sides(t: &[u16], g: &[u16], k: &mut [u8], base: usize, p: usize, q: usize, head: usize)
    requires { Bares t.now base g.now × Known t.now base k.old }
    ensures { (length k.new ≡ length k.old) × Known t.now base k.new }
{
    keep_line(t, g, k, base, p, cell(t, head, ISO_FROM));
    keep_line(t, g, k, base, q, cell(t, head, ISO_TO));
}

// The fits of the L row n, by the types of its iso.
fn keep_let(t: &[u16], g: &[u16], k: &mut [u8], base: usize, starts: &[u16], n: usize)
    requires { Bares t.now base g.now × Known t.now base k.old }
    ensures { (length k.new ≡ length k.old) × Known t.now base k.new }
{
    let i = cell(t, n, LET_ISO);
    if i < starts.len() {
        keep_sides(
            t,
            g,
            k,
            base,
            cell(t, n, LET_Q),
            cell(t, n, LET_P),
            wide(starts[i]),
        );
    }
}

// The fits of the C or L row n, in the iso with I row `head`.
fn keep_row(t: &[u16], g: &[u16], k: &mut [u8], base: usize, starts: &[u16], n: usize, head: usize)
    requires { Bares t.now base g.now × Known t.now base k.old }
    ensures { (length k.new ≡ length k.old) × Known t.now base k.new }
{
    if cell(t, n, ROW_LETTER) == CLAUSE_LINE {
        keep_sides(
            t,
            g,
            k,
            base,
            cell(t, n, CLAUSE_LEFT),
            cell(t, n, CLAUSE_RIGHT),
            head,
        );
        return;
    }
    keep_let(t, g, k, base, starts, n);
}

// The I row at or above row n.
fn head_at(t: &[u16], n: usize, head: usize) -> usize
    ensures { result ≡ head_at t.now n head }
{
    if cell(t, n, ROW_LETTER) == ISO_LINE {
        n
    } else {
        head
    }
}

// The fits of the rows from `stop` up to `lines`, C and L rows under their I rows.
pub fn find_known(
    t: &[u16],
    g: &[u16],
    k: &mut [u8],
    base: usize,
    starts: &[u16],
    stop: usize,
    lines: usize,
)
    requires { Bares t.now base g.now × Known t.now base k.old }
    ensures { (length k.new ≡ length k.old) × Known t.now base k.new }
{
    let mut head = stop;
    for n in stop..lines {
        head = head_at(t, n, head);
        keep_row(t, g, k, base, starts, n, head);
    }
}

// Whether row n, a P line, is large and without a mark.
fn is_large_row(t: &[u16], g: &[u16], n: usize) -> bool
    ensures { result ≡ large_row t.now g.now n }
{
    LARGE <= cell(t, n, SIZE) && item_at(g, n, 0) == 0
}

// Whether one of the rows from `from` up to `to`, which are P lines, is large and without a mark.
pub fn any_large(t: &[u16], g: &[u16], from: usize, to: usize) -> bool
    ensures { result ≡ any_large t.now g.now from (to - from) }
{
    for n in from..to {
        if is_large_row(t, g, n) {
            return true;
        }
    }
    false
}
