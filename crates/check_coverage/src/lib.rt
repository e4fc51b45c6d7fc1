// Refusals 11 to 14 of an iso, over the rows of its clauses. Field 1 of a C row is its left pattern,
// field 2 its right one.
#![tactic(auto)]

ghost use Rattle.std.specs.Prelude.{◌≡◌, ◌≤◌, min, map, length, drop};
ghost use Rattle.limits.specs.Fields.{clause_left, clause_right};
ghost use Rattle.limits.specs.Limits.{table_length, max_clauses, max_lines, many_tags};
ghost use Rattle.calculus.specs.Trees.{tags};
ghost use Rattle.check_facts.specs.Facts.{Facts};
ghost use Rattle.calculus.specs.Tools.{all, total};
ghost use Rattle.format.specs.Code.{refusal_view};
ghost use Rattle.calculus.specs.Clauses.{clash as clashes, apart as are_apart, weight as weight_of};
ghost use Rattle.table_trees.specs.Unfolding.{pattern_of};
ghost use Rattle.table_walks.specs.InTable.{patterns_at, weight_at, sides_fault};

use area_words::wide;
use check_facts::number;
use check_overlap::compare;
use check_places::separate;
use format::{Kind, Refusal, Side};
use limits::MAX_TAGS;
use table_sizes::pattern_tags;
use table_trees::cell;

// Whether P line p clashes with field k of each of these clause rows.
fn clashes_with(t: &[u16], base: usize, p: usize, k: usize, rows: &[u16]) -> bool
    requires { table_length ≤ length t.now }
    ensures { result ≡ all (clashes (pattern_of t.now base p)) (patterns_at t.now base k rows.now) }
{
    for row in rows {
        let c = compare(t, base, p, cell(t, wide(*row), k));
        if !c.clash {
            return false;
        }
    }
    true
}

// Whether the patterns in field k of the clause rows are orthogonal, two by two, each compared with each.
fn apart(t: &[u16], base: usize, k: usize, rows: &[u16]) -> bool
    requires { table_length ≤ length t.now }
    ensures { result ≡ are_apart (patterns_at t.now base k rows.now) }
{
    for (i, row) in rows.iter().enumerate() {
        if !clashes_with(t, base, cell(t, wide(*row), k), k, &rows[i + 1..]) {
            return false;
        }
    }
    true
}

// So many clauses are compared two by two.
const FEW: usize = 3;

// The same, by the places of the type that field k of the I row n names, where those tell.
fn orthogonal(t: &[u16], f: &[u8], base: usize, k: usize, rows: &[u16], n: usize) -> bool
    requires { (table_length ≤ length t.now) × (length rows.now ≤ max_clauses) × Facts t.now base f.now × (length f.now ≤ max_lines) }
    ensures { result ≡ are_apart (patterns_at t.now base k rows.now) }
{
    if FEW < rows.len() {
        if let Some(known) = separate(t, f, base, k, rows, cell(t, n, k)) {
            return known;
        }
    }
    apart(t, base, k, rows)
}

// The left, right, empty and element nodes of P line p, 41 for more than 40: a fact, or counted where there is none.
fn tags_at(t: &[u16], f: &[u8], base: usize, p: usize) -> usize
    requires { Facts t.now base f.now }
    ensures { result ≡ min many_tags (tags (pattern_of t.now base p)) }
{
    if base <= f.len() && p < f.len() - base {
        return number(f[base + p]);
    }
    pattern_tags(t, base, p)
}

// What a pattern with k left, right, empty and element nodes weighs: 2 to the power of 40 - k.
fn weight(k: usize) -> u64
    ensures { result ≡ weight_at k }
{
    1 << MAX_TAGS.saturating_sub(k)
}

// What the patterns of a side weigh together where they leave no gap.
const FULL: u64 = 1 << MAX_TAGS;

// What the patterns in field k of at most as many clause rows as an iso has weigh together.
pub fn weigh(t: &[u16], f: &[u8], base: usize, k: usize, rows: &[u16]) -> u64
    requires { (length rows.now ≤ max_clauses) × Facts t.now base f.now }
    ensures { result ≡ total (map weight_of (patterns_at t.now base k rows.now)) }
{
    let mut sum: u64 = 0;
    for i in (0..rows.len()).rev() {
        let p = cell(t, wide(rows[i]), k);
        sum += weight(tags_at(t, f, base, p));
    }
    sum
}

// The lowest of 11 to 14, or nothing, of the iso whose I row is n.
pub fn side_fault(t: &[u16], f: &[u8], base: usize, rows: &[u16], n: usize) -> Option<Refusal>
    requires { (table_length ≤ length t.now) × (length rows.now ≤ max_clauses) × Facts t.now base f.now × (length f.now ≤ max_lines) }
    ensures { refusal_view result ≡ sides_fault (patterns_at t.now base clause_left rows.now)
        (patterns_at t.now base clause_right rows.now) }
{
    if orthogonal(t, f, base, 1, rows, n) {
        if orthogonal(t, f, base, 2, rows, n) {
            if weigh(t, f, base, 1, rows) == FULL {
                if weigh(t, f, base, 2, rows) == FULL {
                    return None;
                }
                return Some(Refusal::Gap(Kind::Iso, Side::Right));
            }
            return Some(Refusal::Gap(Kind::Iso, Side::Left));
        }
        return Some(Refusal::Overlap(Kind::Iso, Side::Right));
    }
    Some(Refusal::Overlap(Kind::Iso, Side::Left))
}
