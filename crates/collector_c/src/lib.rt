// The exports of the crate collector for C: each calls its function there, and promises the same.
// include/barleyrope.h declares them for C, where a `&[u8]` is a pointer and a length.
#![tactic(auto)]

ghost use Rattle.std.specs.Prelude.{◌≡◌, ◌+◌, ◌*◌, ◌^◌};
ghost use Rattle.adv_data.specs.Ad.{listed_place, lists_service};
ghost use Rattle.adv_presence.specs.Presences.{presence_in, presence_number};
ghost use Rattle.collector.specs.Found.{start_of, count_of};
ghost use Rattle.l2cap_params.specs.Params.{good_params};

#[unsafe(no_mangle)]
pub extern "C" fn barleyrope_lists_service(data: &[u8], low: u64, high: u64) -> bool
    ensures { result ≡ lists_service (low + 2 ^ 64 * high) «data».now }
{
    collector::barleyrope_lists_service(data, low, high)
}

#[unsafe(no_mangle)]
pub extern "C" fn barleyrope_find_service(
    data: &[u8],
    low: u64,
    high: u64,
    start: &mut usize,
    count: &mut usize,
) -> bool
    ensures value { result ≡ lists_service (low + 2 ^ 64 * high) «data».now }
    ensures start_after { start.new ≡ start_of (listed_place (low + 2 ^ 64 * high) «data».now) start.old }
    ensures count_after { count.new ≡ count_of (listed_place (low + 2 ^ 64 * high) «data».now) count.old }
{
    collector::barleyrope_find_service(data, low, high, start, count)
}

#[unsafe(no_mangle)]
pub extern "C" fn barleyrope_service_presence(
    data: &[u8],
    response: &[u8],
    low: u64,
    high: u64,
) -> u32
    ensures { result ≡ presence_number (presence_in (low + 2 ^ 64 * high) «data».now response.now) }
{
    collector::barleyrope_service_presence(data, response, low, high)
}

#[unsafe(no_mangle)]
pub extern "C" fn barleyrope_params_good(min: u16, max: u16, latency: u16, timeout: u16) -> bool
    ensures { result ≡ good_params min max latency timeout }
{
    collector::barleyrope_params_good(min, max, latency, timeout)
}
