// Refusals 4 to 7 of a row, by the rows above it.
#![tactic(auto)]

ghost use Rattle.std.specs.Prelude.{◌≡◌, ◌&&◌, suc, ltb, eqb};
ghost use Rattle.std.proofs.Math.Option.{Option};
ghost use Rattle.limits.specs.Limits.{variables};
ghost use Rattle.calculus.specs.Refusals.{Kind as KindOf};
ghost use Rattle.format.specs.Judge.{Seen as SeenOf, stage as stage_of, in_order, type_fields, pattern_fields, fields_fit, type_names, pattern_names, named, judge as judge_of};
ghost use Rattle.format.specs.Code.{kind_view, row_view, refusal_view};
ghost use Rattle.read_seen.specs.Told.{Counts, Weighed};

use codes::{ELEMENT, EMPTY, LEFT, LIST, PAIR, PRODUCT, RIGHT, SUM, TYPE_UNIT, UNIT, VARIABLE};
use format::{Kind, Refusal, Row};
use limits::VARIABLES;
use read_ceilings::within_ceilings;
use read_seen::Seen;

// All T lines, then all P lines, then the isos: I, its C lines, under each its L lines.
fn in_order(stage: usize, k: Kind) -> bool
    ensures { (a : Option KindOf) → stage ≡ stage_of a → result ≡ in_order a (kind_view k) }
{
    match k {
        Kind::Type => stage == 0,
        Kind::Pattern => stage <= 1,
        Kind::Iso => true,
        Kind::Clause => 2 <= stage,
        Kind::Let => 3 <= stage,
    }
}

// Whether two fields are idle.
fn idle(a: usize, b: usize) -> bool
    ensures { result ≡ (eqb a 0 && eqb b 0) }
{
    a == 0 && b == 0
}

// Whether the fields of a variable are a number below 32 and an idle one.
fn variable_fields(a: usize, b: usize) -> bool
    ensures { result ≡ (ltb a variables && eqb b 0) }
{
    a < VARIABLES && b == 0
}

fn type_fields(kind: usize, a: usize, b: usize) -> bool
    ensures { result ≡ type_fields kind a b }
{
    match kind {
        TYPE_UNIT => idle(a, b),
        SUM | PRODUCT => true,
        LIST => b == 0,
        _ => false,
    }
}

fn pattern_fields(kind: usize, a: usize, b: usize) -> bool
    ensures { result ≡ pattern_fields kind a b }
{
    match kind {
        UNIT | EMPTY => idle(a, b),
        VARIABLE => variable_fields(a, b),
        LEFT | RIGHT => b == 0,
        PAIR | ELEMENT => true,
        _ => false,
    }
}

// A listed kind, idle fields 0, a variable below 32.
fn fields_fit(r: Row) -> bool
    ensures { result ≡ fields_fit (kind_view r.kind) (row_view r) }
{
    let k = r.kind;
    match k {
        Kind::Type => type_fields(r.x, r.y, r.z),
        Kind::Pattern => pattern_fields(r.x, r.y, r.z),
        Kind::Iso | Kind::Clause | Kind::Let => true,
    }
}

// Whether two names stand below a count.
fn both_below(a: usize, b: usize, n: usize) -> bool
    ensures { result ≡ (ltb a n && ltb b n) }
{
    a < n && b < n
}

fn type_names(n: usize, kind: usize, a: usize, b: usize) -> bool
    ensures { result ≡ type_names n kind a b }
{
    match kind {
        SUM | PRODUCT => both_below(a, b, n),
        LIST => a < n,
        _ => true,
    }
}

fn pattern_names(n: usize, kind: usize, a: usize, b: usize) -> bool
    ensures { result ≡ pattern_names n kind a b }
{
    match kind {
        LEFT | RIGHT => a < n,
        PAIR | ELEMENT => both_below(a, b, n),
        _ => true,
    }
}

// An L line names patterns above, and an iso before its own or its own, which is the last of `isos`.
fn let_names(patterns: usize, isos: usize, p: usize, i: usize, q: usize) -> bool
    ensures { result ≡ (ltb p patterns && ltb q patterns && ltb i isos) }
{
    both_below(p, q, patterns) && i < isos
}

// Whether each named line stands earlier in the file.
fn names_stand(c: Seen, r: Row) -> bool
    ensures { (s : SeenOf) → Counts c s → result ≡ named s (kind_view r.kind) (row_view r) }
{
    let k = r.kind;
    match k {
        Kind::Type => type_names(c.types, r.x, r.y, r.z),
        Kind::Pattern => pattern_names(c.patterns, r.x, r.y, r.z),
        Kind::Iso => both_below(r.x, r.y, c.types),
        Kind::Clause => both_below(r.x, r.y, c.patterns),
        Kind::Let => let_names(c.patterns, c.isos, r.x, r.y, r.z),
    }
}

// The lowest of 4 to 7, or nothing.
pub fn judge(c: Seen, t: &[u16], g: &[u8], r: Row) -> Option<Refusal>
    ensures { (s : SeenOf) → Weighed t.now g.now c s → refusal_view result ≡ judge_of s (row_view r) }
{
    let k = r.kind;
    if !in_order(c.stage, k) {
        return Some(Refusal::Misplaced(k));
    }
    if !fields_fit(r) {
        return Some(Refusal::BadField(k));
    }
    if !names_stand(c, r) {
        return Some(Refusal::BadName(k));
    }
    if !within_ceilings(c, t, g, r) {
        return Some(Refusal::Ceiling(k));
    }
    None
}
