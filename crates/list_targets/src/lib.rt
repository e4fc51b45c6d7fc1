// The tos of an iso's pairs: what the run of each setting of its from-type gives, as numbers.
#![tactic(auto)]

ghost use Rattle.std.specs.Prelude.{◌≡◌};
ghost use Rattle.format.specs.Unfold.{isos_of};
ghost use Rattle.law_pairlists.specs.PairLists.{to_from};
ghost use Rattle.table_trees.specs.Unfolding.{cell_of};
ghost use Rattle.run_index.specs.Index.{place_at};
ghost use Rattle.number_values.specs.Numbers.{Counted};
ghost use Rattle.list_targets.specs.Targets.{Stores, OnPair, SettingRan, AllFound};

use area_cells::store;
use area_parts::front;
use area_words::narrow;
use codes::{ISO_FROM, ISO_TO};
use format::is_refused;
use limits::RESULT_LENGTH;
use number_values::{rank_at, unrank_at};
use run_direction::place;
use runner::run::{Ran, run_checked};
use table_trees::cell;

// Field k of the I row of iso i, as the index finds it.
pub fn iso_cell(t: &[u16], index: &[u16], i: usize, k: usize) -> usize
    ensures { result ≡ cell_of t.now (place_at index.now (place_at index.now i)) k }
{
    cell(t, place(index, place(index, i)), k)
}

// Runs iso i on the setting of its from-type with number k, within the budget.
fn run_setting(
    t: &[u16],
    counts: &[usize],
    base: usize,
    index: &[u16],
    isos: usize,
    i: usize,
    k: usize,
    budget: u32,
    work: &mut [u8],
    res: &mut [u8],
) -> Ran
    requires { Counted t.now counts.now }
    ensures { OnPair t.now base index.now isos i k work.old
        (λ rs o. SettingRan rs i o k budget res.old res.new result) }
{
    let mut value = [0u8; RESULT_LENGTH];
    let n = unrank_at(t, counts, iso_cell(t, index, i, ISO_FROM), k, &mut value, 0);
    run_checked(
        t,
        base,
        index,
        isos,
        i,
        false,
        budget,
        front(&value, n),
        work,
        res,
    )
}

// Stores the to of pair k; false, and nothing stored, where its run passes the budget.
fn find_to(
    t: &[u16],
    counts: &[usize],
    base: usize,
    index: &[u16],
    isos: usize,
    i: usize,
    k: usize,
    budget: u32,
    work: &mut [u8],
    tos: &mut [u16],
) -> bool
    requires { Counted t.now counts.now }
    ensures { OnPair t.now base index.now isos i k work.old
        (λ rs o. Stores (to_from (isos_of rs) i o budget k) k tos.old tos.new result) }
{
    let mut result = [0u8; RESULT_LENGTH];
    let r = run_setting(
        t,
        counts,
        base,
        index,
        isos,
        i,
        k,
        budget,
        work,
        &mut result,
    );
    let f = r.refusal;
    if is_refused(f) {
        return false;
    }
    let x = rank_at(t, counts, iso_cell(t, index, i, ISO_TO), &result, 0);
    store(tos, k, narrow(x.number));
    true
}

// Stores the tos of the first n pairs of iso i; false where some pair's run passes the budget.
pub fn find_tos(
    t: &[u16],
    counts: &[usize],
    base: usize,
    index: &[u16],
    isos: usize,
    i: usize,
    n: usize,
    budget: u32,
    work: &mut [u8],
    tos: &mut [u16],
) -> bool
    requires { Counted t.now counts.now }
    ensures { AllFound t.now base index.now isos i n budget work.old
        tos.old tos.new result }
{
    for k in 0..n {
        if !find_to(t, counts, base, index, isos, i, k, budget, work, tos) {
            return false;
        }
    }
    true
}
