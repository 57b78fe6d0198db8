// Descriptors of characteristics: which handles to ask for, and where a CCCD belongs (Core Vol 3 Part G 4.7.1).
#![tactic(auto)]

ghost use Rattle.std.specs.Prelude.{◌≡◌, ◌+◌, ◌≤◌, length};
ghost use Rattle.state_places.specs.Sizes.{most_characteristics};
ghost use Rattle.lists.specs.Cut.{entries, part};
ghost use Rattle.gatt_characteristics.specs.Characteristic.{known, holding};
ghost use Rattle.gatt_descriptors.specs.Named.{marked, give, given, descriptors_named};

use gatt_characteristics::{Characteristic, Characteristics};
use uuid_value::Uuid;

// The table after an answer, and the handle after the last one that it names. 65,536 is past all handles.
#[derive(Clone, Copy)]
pub struct Named {
    pub table: Characteristics,
    pub next: u32,
}

// The type Client Characteristic Configuration.
const CCCD: u16 = 0x2902;

// An entry is a handle and a type.
const TYPE_AT: usize = 2;

// The characteristic with its CCCD at h, unless it has one.
fn mark(c: Characteristic, h: u16) -> Characteristic
    ensures { result ≡ marked h c }
{
    match c.cccd {
        None => Characteristic { cccd: Some(h), ..c },
        Some(_) => c,
    }
}

// The last characteristic with its value handle below h gets h, unless it has a CCCD.
fn give_to(mut t: Characteristics, h: u16) -> Characteristics
    requires { t.count ≤ most_characteristics }
    ensures { result ≡ holding t (give h (known t)) }
{
    for i in (0..t.count).rev() {
        let c = t.kept[i];
        if c.value_handle < h {
            t.kept[i] = mark(c, h);
            return t;
        }
    }
    t
}

// The table after an entry.
fn name_one(t: Characteristics, entry: &[u8]) -> Characteristics
    requires { (t.count ≤ most_characteristics) × (2 ≤ length entry.now) }
    ensures { result ≡ holding t (given (known t) entry.now) }
{
    let h = bytes_numbers::le16(entry, 0);
    match Uuid::from_att(&entry[TYPE_AT..]) {
        Some(u) => {
            if u == Uuid::from(CCCD) {
                give_to(t, h)
            } else {
                t
            }
        }
        None => t,
    }
}

// The table after the entries of len bytes that stand in s from index from to index end. Where there is none, the next handle is first.
pub fn name_descriptors(
    t: Characteristics,
    s: &[u8],
    from: usize,
    end: usize,
    len: usize,
    first: u32,
) -> Named
    requires { (t.count ≤ most_characteristics) × (2 ≤ len) × (from ≤ end) × (end ≤ length s.now) }
    ensures { result ≡ descriptors_named t first (entries len (part from end s.now)) }
{
    let mut table = t;
    let mut next = first;
    for entry in s[from..end].chunks_exact(len) {
        table = name_one(table, entry);
        next = bytes_numbers::le16(entry, 0) as u32 + 1;
    }
    Named { table, next }
}
