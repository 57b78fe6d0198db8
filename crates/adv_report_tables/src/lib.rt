// One report among the tables: at its place i, or at the last where there is none and the oldest goes.
#![tactic(auto)]

ghost use Rattle.std.specs.Prelude.{◌≡◌, ◌≤◌};
ghost use Rattle.adv_reports.specs.Reports.{last_place};
ghost use Rattle.adv_report_tables.specs.Tables.{block_at, counted};

// Where report i stands.
pub fn last_place(i: usize) -> usize
    ensures { result ≡ last_place i }
{
    usize::min(i, adv_reports::LAST)
}

// How many there are, with one at place i.
#[tactic(auto, unfolding(crate::specs::Tables::counted))]
pub fn counted(count: usize, i: usize) -> usize
    ensures { result ≡ counted count i }
{
    if i < count {
        count
    } else if count < state_places::MAX_REPORTS {
        count + 1
    } else {
        state_places::MAX_REPORTS
    }
}

// The advertising data.
// Kept: store, place and data apart, since each has another owner and a struct would be made for one call.
#[tactic(auto, unfolding(crate::specs::Tables::block_at))]
pub fn put_block(store: &mut [u8], i: usize, data: &[u8])
    ensures { store.new ≡ block_at store.old i «data».now }
{
    if i < state_places::MAX_REPORTS {
        adv_reports::put_data(store, i, data);
        return;
    }
    adv_reports::drop_block(store);
    adv_reports::put_data(store, adv_reports::LAST, data);
}
