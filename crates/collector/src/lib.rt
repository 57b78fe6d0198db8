// What the collector, a C program, calls: the service search and the connection parameter test, on numbers and bytes.
// The crate collector_c exports them.
#![tactic(auto)]

ghost use Rattle.std.specs.Prelude.{◌≡◌, ◌+◌, ◌*◌, ◌^◌};
ghost use Rattle.adv_data.specs.Ad.{listed_place, lists_service};
ghost use Rattle.adv_presence.specs.Presences.{presence_in, presence_number};
ghost use Rattle.collector.specs.Found.{start_of, count_of};
ghost use Rattle.l2cap_params.specs.Params.{good_params};

use uuid_value::Uuid;

// Whether some structure of the data lists the service.
pub fn barleyrope_lists_service(data: &[u8], low: u64, high: u64) -> bool
    ensures { result ≡ lists_service (low + 2 ^ 64 * high) «data».now }
{
    adv_listing::ad_lists_service(data, Uuid { low, high })
}

// Where the body of the first structure that lists the service stands; both places keep what they held where none does.
// Kept: a flag and two lent places, since C calls it.
pub fn barleyrope_find_service(
    data: &[u8],
    low: u64,
    high: u64,
    start: &mut usize,
    count: &mut usize,
) -> bool
    ensures value { result ≡ lists_service (low + 2 ^ 64 * high) «data».now }
    ensures start_after { start.new ≡ start_of (listed_place (low + 2 ^ 64 * high) «data».now) start.old }
    ensures count_after { count.new ≡ count_of (listed_place (low + 2 ^ 64 * high) «data».now) count.old }
{
    match adv_data::search(data, Uuid { low, high }) {
        Some(body) => {
            *start = body.at;
            *count = body.len;
            true
        }
        None => false,
    }
}

// What the advertising data and the scan response of an advertiser tell of the service: 0 absent, 1 listed, 2 unknown.
pub fn barleyrope_service_presence(data: &[u8], response: &[u8], low: u64, high: u64) -> u32
    ensures { result ≡ presence_number (presence_in (low + 2 ^ 64 * high) «data».now response.now) }
{
    let uuid = Uuid { low, high };
    u32::from(adv_presence::service_presence(data, response, uuid))
}

// Whether the four numbers of a connection parameter update request are acceptable.
// Kept: four numbers and no Request, since C calls it.
pub fn barleyrope_params_good(min: u16, max: u16, latency: u16, timeout: u16) -> bool
    ensures { result ≡ good_params min max latency timeout }
{
    l2cap_params::params_good(min, max, latency, timeout)
}
