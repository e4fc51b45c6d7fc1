// What a run reads of the index, and which field of a row for each way.
#![tactic(auto)]

ghost use Rattle.std.specs.Prelude.{◌≡◌, cond, ◌<◌};
ghost use Rattle.limits.specs.Limits.{word_bound};
ghost use Rattle.run_index.specs.Index.{place_at};

use area_cells::item_at;
use area_words::wide;

// Number m of the index.
pub fn place(index: &[u16], m: usize) -> usize
    ensures { (result ≡ place_at index.now m) × (result < word_bound) }
{
    wide(item_at(index, m, 0))
}

// A field for the way forward, or another for the way back.
pub fn side(back: bool, forth: usize, other: usize) -> usize
    ensures { result ≡ cond back other forth }
{
    if back { other } else { forth }
}
