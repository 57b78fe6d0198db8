// Services that a peer's answers tell of (Core Vol 3 Part G 4.4.1): a table of 32 records by value.
#![tactic(auto)]

ghost use Rattle.std.specs.Prelude.{◌≡◌, ◌+◌, ◌≤◌, length};
ghost use Rattle.state_places.specs.Sizes.{most_services};
ghost use Rattle.lists.specs.Cut.{entries, part};
ghost use Rattle.gatt_services.specs.Service.{told, listed, services_taken};

use att_pdu::Found;
use state_places::MAX_SERVICES;
use uuid_value::Uuid;

#[derive(Clone, Copy)]
pub struct Service {
    pub start: u16,
    pub end: u16,
    pub uuid: Uuid,
}

// The first count of kept are known. The rest is dead.
#[derive(Clone, Copy)]
pub struct Services {
    pub kept: [Service; 32],
    pub count: usize,
}

// An entry is a start handle, an end handle and a UUID.
const END_AT: usize = 2;

const UUID_AT: usize = 4;

// The service that an entry tells of, if its UUID has 2 or 16 bytes.
#[tactic(auto, unfolding(crate::specs::Service::told))]
fn told(entry: &[u8]) -> Option<Service>
    requires { 4 ≤ length entry.now }
    ensures { result ≡ told entry.now }
{
    let start = bytes_numbers::le16(entry, 0);
    let end = bytes_numbers::le16(entry, END_AT);
    let uuid = Uuid::from_att(&entry[UUID_AT..])?;
    Some(Service { start, end, uuid })
}

// Whether one of the known services starts at start.
fn is_listed(known: &[Service], start: u16) -> bool
    ensures { result ≡ listed start known.now }
{
    known.iter().any(|x| x.start == start)
}

// The table after the entries of len bytes that stand in s from index from to index end. An entry with a known start is skipped.
pub fn take_services(t: Services, s: &[u8], from: usize, end: usize, len: usize) -> Found<Services>
    requires { (t.count ≤ most_services) × (4 ≤ len) × (from ≤ end) × (end ≤ length s.now) }
    ensures { result ≡ services_taken t (entries len (part from end s.now)) }
{
    let mut kept = t.kept;
    let mut count = t.count;
    let mut last = att_pdu::LAST_HANDLE;
    for entry in s[from..end].chunks_exact(len) {
        if let Some(new) = told(entry) {
            if !is_listed(&kept[..count], new.start) {
                if count == MAX_SERVICES {
                    return Found {
                        table: Services { kept, count },
                        last,
                        full: true,
                    };
                }
                kept[count] = new;
                count += 1;
            }
        }
        last = bytes_numbers::le16(entry, END_AT);
    }
    Found {
        table: Services { kept, count },
        last,
        full: false,
    }
}
