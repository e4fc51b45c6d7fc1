// A list of pairs, line by line: froms 0, 1, 2 and so on, and tos that are told apart and below a count.
#![tactic(auto)]

ghost use Rattle.std.specs.Prelude.{◌≡◌, cond, ◌≤◌, length, take};
ghost use Rattle.std.proofs.Math.Option.{none, some};
ghost use Rattle.limits.specs.Limits.{field_bound};
ghost use Rattle.calculus.specs.Trees.{Ty};
ghost use Rattle.format.specs.Lines.{lines};
ghost use Rattle.law_ranking.specs.Numbering.{count};
ghost use Rattle.law_pairlists.specs.PairLists.{to_in, to_of, list_of};
ghost use Rattle.list_lines.specs.Views.{as_to, stands, taking};

use area_cells::{item_at, store};
use area_parts::front;
use area_words::{narrow, wide};
use limits::MAX_BUDGET;
use read_fields::Cursor;

// The to of a text whose from is k.
fn to_in(s: &[u8], k: usize) -> Option<usize>
    ensures { as_to result ≡ to_in k s.now }
{
    let start = Cursor { at: 0 };
    let (from, c) = start.number(s, MAX_BUDGET)?;
    if from != k {
        return None;
    }
    let (to, d) = c.field(s, MAX_BUDGET)?;
    d.end(s)?;
    Some(to)
}

// The to of a line whose from is k.
fn to_of(line: &[u8], k: usize) -> Option<usize>
    ensures { as_to result ≡ to_of k line.now }
{
    let c = Cursor::before_ending(line)?;
    to_in(front(line, c.at), k)
}

// Whether a number stands among the first n words.
fn is_among(words: &[u16], n: usize, x: usize) -> bool
    ensures { n ≤ length words.now → result ≡ stands x (take n words.now) }
{
    for i in 0..n {
        if wide(item_at(words, i, 0)) == x {
            return true;
        }
    }
    false
}

// Reads the tos of a list's lines: whether each is below `most`, and none is repeated.
fn read_tos(list: &[u8], most: usize, tos: &mut [u16]) -> bool
    ensures { length (lines list.now) ≤ length tos.old → most ≤ field_bound
        → taking most (lines list.now) ≡ cond result
        (some (take (length (lines list.now)) tos.new)) none }
{
    let mut at: usize = 0;
    let mut k: usize = 0;
    while at < list.len() {
        let end = Cursor { at: at }.line_end(list).at;
        let Some(to) = to_of(&list[at..end], k) else {
            return false;
        };
        if most <= to {
            return false;
        }
        if is_among(tos, k, to) {
            return false;
        }
        store(tos, k, narrow(to));
        k += 1;
        at = end;
    }
    true
}

// Reads a list of n lines: whether it pairs as many values of one type with as many of another, each once.
pub fn read_list(list: &[u8], n: usize, froms: usize, most: usize, tos: &mut [u16]) -> bool
    ensures { (a b : Ty) → froms ≡ count a → most ≡ count b → n ≡ length (lines list.now)
        → n ≤ length tos.old → most ≤ field_bound
        → list_of a b (lines list.now) ≡ cond result (some (take n tos.new)) none }
{
    if n != froms {
        return false;
    }
    if n != most {
        return false;
    }
    read_tos(list, most, tos)
}
