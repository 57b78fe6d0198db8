// Known services in the lent words: one is read and written, one is found by its UUID, and an answer's entries are taken.
#![tactic(auto)]

// Kept: these functions stand in words_characteristic too, over other rows: a service has two fields in its third word, a characteristic five in its, and the contracts name
// each one's rows of the tables (with_services, with_characteristics). A trait for both would ask for more laws than the short loops do.

ghost use Rattle.std.specs.Prelude.{◌≡◌, ◌/◌, ◌%◌, ◌<◌, ◌≤◌, length, take, get_or, set};
ghost use Rattle.state_places.specs.Sizes.{most_services};
ghost use Rattle.lists.specs.Queue.{onto};
ghost use Rattle.gatt_services.specs.Service.{known, service_with, zero-service};
ghost use Rattle.words.specs.Tables as all;
ghost use Rattle.words.specs.Tables.{services_in};
ghost use Rattle.words.specs.Words.{two16, half_at};
ghost use Rattle.words_service.specs.Taken.{taken_in};

use gatt_services::{Service, Services};
use uuid_value::Uuid;
use words::Answered;

// A handle is below it: the end handle stands above the start handle's 16 bits.
const HANDLES: u64 = 65536;

// ---- one service

// The handles of a service in a word.
fn word_of(s: Service) -> u64
    ensures { (result % two16 ≡ s.start) × (half_at two16 result ≡ s.end) }
{
    let start = s.start as u64;
    let end = s.end as u64;
    let word = start + HANDLES * end;
    word
}

// The service in place i.
pub fn service_at(tables: &[u64; 1152], i: usize) -> Service
    requires { i < most_services }
    ensures { result ≡ get_or (services_in tables.now) i zero-service }
{
    let low = tables[words::SERVICE_LOW + i];
    let high = tables[words::SERVICE_HIGH + i];
    let word = tables[words::SERVICE + i];
    let start = (word % HANDLES) as u16;
    let end = (word / HANDLES % HANDLES) as u16;
    Service {
        start,
        end,
        uuid: Uuid { low, high },
    }
}

// A service goes into place i.
fn put_service(tables: &mut [u64; 1152], i: usize, s: Service)
    requires { i < most_services }
    ensures { all.tables tables.new ≡ all.with_services (all.tables tables.old) (set (services_in tables.old) i s) }
{
    let all = words::size(tables);
    let uuid = s.uuid;
    let word = word_of(s);
    tables[words::SERVICE_LOW + i] = uuid.low;
    tables[words::SERVICE_HIGH + i] = uuid.high;
    tables[words::SERVICE + i] = word;
}

// ---- the first count of them

// The first service with this UUID. The handles are read of that one alone.
pub fn find_service(tables: &[u64; 1152], count: usize, uuid: Uuid) -> Option<Service>
    requires { count ≤ most_services }
    ensures { result ≡ service_with uuid (take count (services_in tables.now)) }
{
    for i in 0..count {
        let low = tables[words::SERVICE_LOW + i];
        let high = tables[words::SERVICE_HIGH + i];
        let u = Uuid { low, high };
        if u == uuid {
            return Some(service_at(tables, i));
        }
    }
    None
}

// The first count services by value. The other places are zero.
pub fn services_of(tables: &[u64; 1152], count: usize) -> Services
    requires { count ≤ most_services }
    ensures { (result.count ≡ count) × (known result ≡ take count (services_in tables.now)) }
{
    let zero = Service {
        start: 0,
        end: 0,
        uuid: Uuid { low: 0, high: 0 },
    };
    let mut kept = [zero; 32];
    for i in 0..count {
        let s = service_at(tables, i);
        kept[i] = s;
    }
    Services { kept, count }
}

// The known services go into the first places.
pub fn put_services(tables: &mut [u64; 1152], t: Services)
    requires { t.count ≤ most_services }
    ensures { all.tables tables.new ≡ all.with_services (all.tables tables.old) (onto (services_in tables.old) (known t)) }
{
    for at in 0..t.count {
        put_service(tables, at, t.kept[at]);
    }
}

// ---- an answer

// The services after the entries of size bytes that stand in store from index from to index end. The first count were known.
pub fn take_services(
    tables: &mut [u64; 1152],
    count: usize,
    store: &[u8],
    from: usize,
    end: usize,
    size: usize,
) -> Answered
    requires { (count ≤ most_services) × (4 ≤ size) × (from ≤ end) × (end ≤ length store.now) }
    ensures { (all.tables tables.new ≡ all.with_services (all.tables tables.old) (taken_in tables.old count store.now from end size).table.kept)
        × (result.count ≡ (taken_in tables.old count store.now from end size).table.count)
        × (result.last ≡ (taken_in tables.old count store.now from end size).last)
        × (result.full ≡ (taken_in tables.old count store.now from end size).full) }
{
    let old = services_of(tables, count);
    let found = gatt_services::take_services(old, store, from, end, size);
    let new = found.table;
    put_services(tables, new);
    Answered {
        count: new.count,
        last: found.last,
        full: found.full,
    }
}
