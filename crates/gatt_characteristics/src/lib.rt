// Characteristics that a peer's answers tell of (Core Vol 3 Part G 3.3.1, 4.6.1): a table of 64 records by value, rising by declaration.
#![tactic(auto)]

ghost use Rattle.std.specs.Prelude.{◌≡◌, ◌+◌, ◌≤◌, length};
ghost use Rattle.state_places.specs.Sizes.{most_characteristics};
ghost use Rattle.lists.specs.Cut.{entries, part};
ghost use Rattle.gatt_characteristics.specs.Characteristic.{known, Rising, place, told, characteristics_taken};

use att_pdu::Found;
use state_places::MAX_CHARACTERISTICS;
use uuid_value::Uuid;

#[derive(Clone, Copy)]
pub struct Characteristic {
    pub declaration: u16,
    pub properties: u8,
    pub value_handle: u16,
    pub uuid: Uuid,
    // Where the Client Characteristic Configuration descriptor stands, once it is known.
    pub cccd: Option<u16>,
}

// The first count of kept are known. The rest is dead.
#[derive(Clone, Copy)]
pub struct Characteristics {
    pub kept: [Characteristic; 64],
    pub count: usize,
}

// An entry is the handle of a declaration, the properties, the value handle and a UUID.
const PROPERTIES_AT: usize = 2;

const VALUE_AT: usize = 3;

const UUID_AT: usize = 5;

// The characteristic that an entry tells of, if its UUID has 2 or 16 bytes.
#[tactic(auto, unfolding(crate::specs::Characteristic::told))]
fn told(entry: &[u8]) -> Option<Characteristic>
    requires { 5 ≤ length entry.now }
    ensures { result ≡ told entry.now }
{
    let declaration = bytes_numbers::le16(entry, 0);
    let properties = entry[PROPERTIES_AT];
    let value_handle = bytes_numbers::le16(entry, VALUE_AT);
    let uuid = Uuid::from_att(&entry[UUID_AT..])?;
    Some(Characteristic {
        declaration,
        properties,
        value_handle,
        uuid,
        cccd: None,
    })
}

// How many of the known characteristics, which rise by declaration, are declared below declaration.
fn declared_below(known: &[Characteristic], declaration: u16) -> usize
    requires { Rising known.now }
    ensures place { result ≡ place declaration known.now }
    ensures bound { result ≤ length known.now }
{
    known.partition_point(|x| x.declaration < declaration)
}

// The table after the entries of len bytes that stand in s from index from to index end. Where there is none, the last handle is none.
pub fn take_characteristics(
    t: Characteristics,
    s: &[u8],
    from: usize,
    end: usize,
    len: usize,
    none: u16,
) -> Found<Characteristics>
    requires { (t.count ≤ most_characteristics) × Rising (known t) × (5 ≤ len) × (from ≤ end) × (end ≤ length s.now) }
    ensures { result ≡ characteristics_taken t none (entries len (part from end s.now)) }
{
    let mut kept = t.kept;
    let mut count = t.count;
    let mut last = none;
    for entry in s[from..end].chunks_exact(len) {
        if let Some(c) = told(entry) {
            let p = declared_below(&kept[..count], c.declaration);
            if p < count && kept[p].declaration == c.declaration {
                kept[p] = c;
            } else {
                if count == MAX_CHARACTERISTICS {
                    return Found {
                        table: Characteristics { kept, count },
                        last,
                        full: true,
                    };
                }
                kept.copy_within(p..count, p + 1);
                kept[p] = c;
                count += 1;
            }
        }
        last = bytes_numbers::le16(entry, 0);
    }
    Found {
        table: Characteristics { kept, count },
        last,
        full: false,
    }
}
