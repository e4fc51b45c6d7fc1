// The units before the first visit: each holds a T line and a setting number, in two lent areas.
#![tactic(auto)]

ghost use Rattle.std.specs.Prelude.{◌≡◌, List, ℕ, length, get_or};
ghost use Rattle.format.specs.Code.{refusal_view};
ghost use Rattle.format.specs.Lines.{Row as RowOf};
ghost use Rattle.law_units.specs.Units.{units_fault};
ghost use Rattle.table_walks.specs.Walk.{FileIn};
ghost use Rattle.number_values.specs.Numbers.{Counted};

use area_cells::{item_at, wide_number};
use format::{Refusal, is_refused};
use settings::setting_fault;

// Number i of an area, 0 past its end.
pub fn number_at(numbers: &[u32], i: usize) -> usize
    ensures { result ≡ get_or numbers.now i 0 }
{
    wide_number(item_at(numbers, i, 0))
}

// The first refusal among the units, in order.
pub fn units_fault(
    t: &[u16],
    counts: &[usize],
    types: usize,
    lines: &[u32],
    settings: &[u32],
) -> Option<Refusal>
    requires { Counted t.now counts.now }
    ensures { (patterns rows : ℕ) (rs : List RowOf) → FileIn t.now types patterns rows rs
        → length lines.now ≡ length settings.now
        → refusal_view result ≡ units_fault rs lines.now settings.now }
{
    for (k, &line) in lines.iter().enumerate() {
        let f = setting_fault(t, counts, types, wide_number(line), number_at(settings, k));
        if is_refused(f) {
            return f;
        }
    }
    None
}
