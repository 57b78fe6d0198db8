// The reports that are kept: advertisers by their numbers, report bytes in the lent store.
#![tactic(auto)]

ghost use Rattle.std.specs.Prelude.{◌≡◌, ◌&&◌, ◌≤◌, ◌<◌};
ghost use Rattle.state_places.specs.Sizes.{most_reports};
ghost use Rattle.lists.specs.Blocks.{lowered};
ghost use Rattle.adv_reports.specs.Key.{key, address_of};
ghost use Rattle.adv_reports.specs.Reports.{report_part, again_store, response_store};

use state::Address;

// 2^32: one of the upper 16 bits of an address.
const HIGH: u64 = 4_294_967_296;

// 2^16: how many upper halves there are.
const HIGHS: u64 = 65_536;

// 2^48: a random address.
const RANDOM: u64 = 281_474_976_710_656;

// The place of the newest of a full table.
pub const LAST: usize = state_places::MAX_REPORTS - 1;

// An address and its type as one number.
// Kept: a function by name, since `u64::from(a)` would not say which number of an address it is.
#[tactic(auto, unfolding(crate::specs::Key::key))]
pub fn key_of(a: Address) -> u64
    ensures { result ≡ key a }
{
    let low = a.low as u64;
    let high = a.high as u64;
    let plain = low + HIGH * high;
    if a.random { plain + RANDOM } else { plain }
}

// The address of a number.
#[tactic(auto, unfolding(crate::specs::Key::address_of))]
pub fn address_of(key: u64) -> Address
    ensures { result ≡ address_of key }
{
    let low = (key % HIGH) as u32;
    let high = (key / HIGH % HIGHS) as u16;
    Address {
        low,
        high,
        random: RANDOM <= key,
    }
}

// The advertising data of report i.
// Kept: beside put_response, since what both share is copy_in, which each calls; and with its bound, which each caller has just tested.
pub fn put_data(store: &mut [u8], i: usize, data: &[u8])
    requires { i < most_reports }
    ensures { store.new ≡ again_store i «data».now store.old }
{
    let at = state_places::report_at(i);
    bytes_copies::copy_in(store, at, data, 0, data.len());
}

// The scan response of report i.
pub fn put_response(store: &mut [u8], i: usize, data: &[u8])
    requires { i < most_reports }
    ensures { store.new ≡ response_store i «data».now store.old }
{
    let at = state_places::response_at(i);
    bytes_copies::copy_in(store, at, data, 0, data.len());
}

// The block of the oldest report goes, the others move down by one.
#[tactic(auto, unfolding(lists::specs::Blocks::lowered))]
pub fn drop_block(store: &mut [u8])
    ensures { store.new ≡ lowered report_part store.old }
{
    let second = state_places::report_at(1);
    bytes_copies::copy_within(
        store,
        state_places::REPORTS_AT,
        second,
        state_places::REPORT_BLOCK * LAST,
    );
}
