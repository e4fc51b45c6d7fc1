// The least and the greatest count of any run of each iso of a checked table whose isos an index finds: the
// isos in order, each from the numbers of the earlier ones. A number is held up to 4,294,967,296, which
// stands for all above 4,294,967,295.
#![tactic(auto)]

ghost use Rattle.std.specs.Prelude.{◌≡◌, map, ◌+◌, ◌-◌, ◌≤◌, ◌<◌, min, max, get_or, set};
ghost use Rattle.limits.specs.Limits.{word_bound};
ghost use Rattle.calculus.specs.Tools.{total};
ghost use Rattle.law_costs.specs.Costs.{least_of, greatest_of, let_cost, clause_cost};
ghost use Rattle.table_walks.specs.InTable.{lets_in};
ghost use Rattle.run_index.specs.Index.{clauses_at, clause_at};
ghost use Rattle.bound_counts.specs.Held.{cap, pick_of, pick_two, ReckonedFrom, AllReckoned};

use area_cells::{item_at, store};
use codes::LET_ISO;
use limits::MAX_COUNT;
use run_direction::place;
use table_trees::cell;

// Stands for all numbers above those that are told.
const CAP: u64 = MAX_COUNT + 1;

// The sum of two numbers, each held as 4,294,967,296 where it is above, and held so itself.
fn plus(a: u64, b: u64) -> u64
    ensures { result ≡ min (min a cap + min b cap) cap }
{
    (a.min(CAP) + b.min(CAP)).min(CAP)
}

// The sum over the L rows from a row up to another, given the numbers of the isos.
fn let_sum(t: &[u16], known: &[u64], row: usize, end: usize) -> u64
    ensures { ReckonedFrom known.now
        (λ base ks. total (map (let_cost ks) (lets_in t.now base row (end - row)))) result }
{
    let mut sum: u64 = 0;
    for n in (row..end).rev() {
        sum = plus(item_at(known, cell(t, n, LET_ISO), 0), sum);
    }
    sum
}

// What the clause at place m of the index needs.
fn clause_cost(t: &[u16], known: &[u64], index: &[u16], m: usize) -> u64
    requires { m < word_bound }
    ensures { ReckonedFrom known.now
        (λ base ks. clause_cost ks (clause_at t.now base index.now m)) result }
{
    let row = place(index, m);
    let end = place(index, m + 1);
    plus(1, let_sum(t, known, row + 1, end))
}

// The lesser of two numbers or, where the most is asked for, the greater. A flag and no closure: `pick_of` in the
// clause of `best_cost` takes the flag, and a closure would need a clause of its own beside it.
fn better(most: bool, a: u64, b: u64) -> u64
    ensures { result ≡ pick_two most a b }
{
    if most { a.max(b) } else { a.min(b) }
}

// The least or the greatest over the clauses from place m of the index up to another.
fn best_cost(t: &[u16], known: &[u64], index: &[u16], m: usize, end: usize, most: bool) -> u64
    requires { end ≤ word_bound }
    ensures { ReckonedFrom known.now
        (λ base ks. pick_of most (map (clause_cost ks) (clauses_at t.now base index.now m (end - m)))) result }
{
    if end <= m {
        return 0;
    }
    let mut best = clause_cost(t, known, index, end - 1);
    for n in (m..end - 1).rev() {
        best = better(most, clause_cost(t, known, index, n), best);
    }
    best
}

// Reckons both numbers of each iso in order, into areas of zeros.
pub fn reckon(t: &[u16], index: &[u16], isos: usize, least: &mut [u64], greatest: &mut [u64])
    ensures all_reckoned { AllReckoned least_of t.now index.now isos least.old least.new }
    ensures all_reckoned_2 { AllReckoned greatest_of t.now index.now isos greatest.old greatest.new }
{
    for i in 0..isos {
        let m = place(index, i);
        let end = place(index, i + 1);
        let low = best_cost(t, least, index, m + 1, end, false);
        store(least, i, low);
        let high = best_cost(t, greatest, index, m + 1, end, true);
        store(greatest, i, high);
    }
}
