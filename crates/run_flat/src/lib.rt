// Patterns that stand flat, in prefix order, among numbers: matching one with a value, and building a
// value from one, each in one loop. A variable's value is a range of the area: number n's begins at
// `vars[n]` and ends before `vars[32 + n]`.
#![tactic(auto)]

ghost use Rattle.std.specs.Prelude.{◌≡◌, cond, ℕ, ◌+◌, ◌-◌, ◌≤◌, ◌<◌, eqb, length, get_or, take};
ghost use Rattle.std.proofs.lemmas.List.Edits.{sets};
ghost use Rattle.limits.specs.Limits.{field_bound};
ghost use Rattle.calculus.specs.Trees.{unit_leaf, pair_node, Pat, Val};
ghost use Rattle.calculus.specs.Letters.{letters, leaf_letter, node_letter};
ghost use Rattle.area_cells.specs.Areas.{Writes};
ghost use Rattle.run_values.specs.Texts.{At, alike, put_range, ranges, range_of, built, Below};
ghost use Rattle.run_flat.specs.Flat.{stop, Stands};

use area_cells::{item_at, put_byte};
use area_words::{byte_of, wide, word_of};
use limits::VARIABLES;
use run_patterns::{build_var, put_range, value_end};

// Numbers below this are variables; letters stand above.
const LETTERS_FROM: u16 = VARIABLES as u16;

// The number behind a pattern's last one.
pub const STOP: u16 = 128;

// Where the value at a place ends: `end`, if the pattern ends with number k.
fn flat_end(code: &[u16], k: usize, s: &[u8], at: usize, end: usize) -> usize
    ensures { (v : Val) → At s.now at v → (get_or code.now k 0 ≡ stop → end ≡ at + length (letters v))
        → result ≡ at + length (letters v) }
{
    if item_at(code, k, 0) == STOP {
        return end;
    }
    value_end(s, at)
}

// Matches the pattern that stands flat from place p on with the value from a place up to `end`: whether
// it is of its shape, and the ranges of the pattern's variables.
pub fn match_flat(
    code: &[u16],
    p: usize,
    s: &[u8],
    from: usize,
    end: usize,
    vars: &mut [u16],
) -> bool
    ensures { (q : Pat) (v : Val) → Stands code.now p q → At s.now from v
        → end ≡ from + length (letters v)
        → (result ≡ alike q v) × (vars.new ≡ ranges q v from vars.old) }
{
    let mut at = from;
    // By index: the number behind a variable is looked at too, and p may lie past the end.
    for k in p..code.len() {
        let o = code[k];
        if o < LETTERS_FROM {
            let to = flat_end(code, k + 1, s, at, end);
            put_range(vars, wide(o), at, to);
            at = to;
            continue;
        }
        if o == STOP {
            return true;
        }
        if s.len() <= at || word_of(s[at]) != o {
            return false;
        }
        at += 1;
    }
    true
}

// Writes the pattern that stands flat from place p on with its variables' values put in; gives where it
// ends.
pub fn build_flat(code: &[u16], p: usize, vars: &[u16], work: &mut [u8], from: usize) -> usize
    ensures { (q : Pat) (top : ℕ) → Stands code.now p q → Below vars.now top → top ≤ from
        → from + length (built q (take top work.old) vars.now) ≤ length work.old
        → (work.new ≡ sets work.old from (built q (take top work.old) vars.now))
        × (result ≡ from + length (built q (take top work.old) vars.now)) }
{
    let mut at = from;
    for k in p..code.len() {
        let o = code[k];
        if o < LETTERS_FROM {
            at = build_var(wide(o), vars, work, at);
            continue;
        }
        if o == STOP {
            return at;
        }
        at = put_byte(work, at, byte_of(o));
    }
    at
}
