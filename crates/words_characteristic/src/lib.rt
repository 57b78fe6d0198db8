// Known characteristics in the lent words: a place has its UUID in two words and the rest in a third.
#![tactic(auto)]

// Kept: these functions stand in words_service too, over other rows: a characteristic has five fields in its third word, a service two in its, and the contracts name
// each one's rows of the tables (with_services, with_characteristics). A trait for both would ask for more laws than the short loops do.

ghost use Rattle.std.specs.Prelude.{◌≡◌, ◌+◌, ◌/◌, ◌%◌, ◌≤◌, ◌<◌, length, get_or, set, take};
ghost use Rattle.lists.specs.Queue.{onto};
ghost use Rattle.state_places.specs.Sizes.{most_characteristics};
ghost use Rattle.gatt_characteristics.specs.Characteristic.{known, zero-characteristic, Rising, rises, characteristic_with};
ghost use Rattle.gatt_descriptors.specs.Range.{range_or, descriptor_range};
ghost use Rattle.words.specs.Words.{two16, two32, two48, half_at, bit_at, cccd_of, characteristic_of};
ghost use Rattle.words.specs.Tables.{characteristics_in};
ghost use Rattle.words.specs.Tables as all;
ghost use Rattle.words_characteristic.specs.Parts.{in_table, taken_in, named_in, scanned_on};

use gatt_characteristics::{Characteristic, Characteristics};
use uuid_value::Uuid;
use words::{Answered, CHARACTERISTIC, CHARACTERISTIC_HIGH, CHARACTERISTIC_LOW};

// Of the characteristics looked at so far, from the end: the first range, and where the one before them ends.
#[derive(Clone, Copy)]
struct Scan {
    best: Option<(u16, u16)>,
    to: u16,
}

// Where the fields of the third word stand. The properties stand at 1.
const KNOWN: u64 = 0x100;

const HANDLE: u64 = 0x1_0000;

const VALUE: u64 = 0x1_0000_0000;

const DECLARATION: u64 = 0x1_0000_0000_0000;

// The sizes of its fields.
const BYTE: u64 = 0x100;

const HALF: u64 = 0x1_0000;

// ---- the third word

fn bit(b: bool) -> u64
    ensures { (bit_at 1 result ≡ b) × (result < 2) }
{
    if b {
        return 1;
    }
    0
}

fn packed(declaration: u16, value: u16, known: bool, handle: u16, properties: u8) -> u64
    ensures { (result % 256 ≡ properties) × (bit_at 256 result ≡ known) × (half_at two16 result ≡ handle) × (half_at two32 result ≡ value) × (result / two48 ≡ declaration) }
{
    let b = bit(known);
    let p = properties as u64;
    let h = handle as u64;
    let v = value as u64;
    let d = declaration as u64;
    let word = p + KNOWN * b + HANDLE * h + VALUE * v + DECLARATION * d;
    word
}

fn word_of(x: Characteristic) -> u64
    ensures { characteristic_of x.uuid.low x.uuid.high result ≡ x }
{
    let cccd = x.cccd;
    match cccd {
        None => packed(x.declaration, x.value_handle, false, 0, x.properties),
        Some(h) => packed(x.declaration, x.value_handle, true, h, x.properties),
    }
}

// The 16 bits at the top.
fn declaration_of(word: u64) -> u16
    ensures { result ≡ word / two48 }
{
    (word / DECLARATION) as u16
}

fn cccd_of(known: bool, handle: u16) -> Option<u16>
    ensures { result ≡ cccd_of known handle }
{
    if known {
        return Some(handle);
    }
    None
}

fn unpacked(low: u64, high: u64, word: u64) -> Characteristic
    ensures { result ≡ characteristic_of low high word }
{
    let known = word / KNOWN % 2 == 1;
    let handle = (word / HANDLE % HALF) as u16;
    let value_handle = (word / VALUE % HALF) as u16;
    let properties = (word % BYTE) as u8;
    let cccd = cccd_of(known, handle);
    let declaration = declaration_of(word);
    Characteristic {
        declaration,
        properties,
        value_handle,
        uuid: Uuid { low, high },
        cccd,
    }
}

// ---- one place

fn characteristic_at(tables: &[u64; 1152], i: usize) -> Characteristic
    requires { i < most_characteristics }
    ensures { result ≡ get_or (characteristics_in tables.now) i zero-characteristic }
{
    let a = CHARACTERISTIC_LOW + i;
    let b = CHARACTERISTIC_HIGH + i;
    let c = CHARACTERISTIC + i;
    let low = tables[a];
    let high = tables[b];
    let word = tables[c];
    unpacked(low, high, word)
}

// Three words go into place i.
fn put_words(tables: &mut [u64; 1152], i: usize, low: u64, high: u64, word: u64)
    requires { i < most_characteristics }
    ensures { all.tables tables.new
        ≡ all.with_characteristics (all.tables tables.old) (set (characteristics_in tables.old) i (characteristic_of low high word)) }
{
    let all = words::size(tables);
    let low_at = CHARACTERISTIC_LOW + i;
    let high_at = CHARACTERISTIC_HIGH + i;
    let word_at = CHARACTERISTIC + i;
    tables[low_at] = low;
    tables[high_at] = high;
    tables[word_at] = word;
}

fn put_characteristic(tables: &mut [u64; 1152], i: usize, x: Characteristic)
    requires { i < most_characteristics }
    ensures { all.tables tables.new
        ≡ all.with_characteristics (all.tables tables.old) (set (characteristics_in tables.old) i x) }
{
    let uuid = x.uuid;
    let word = word_of(x);
    put_words(tables, i, uuid.low, uuid.high, word);
}

// ---- searches

// The first of count characteristics with this UUID. Only a hit is read whole.
pub fn find_characteristic(tables: &[u64; 1152], count: usize, uuid: Uuid) -> Option<Characteristic>
    requires { count ≤ most_characteristics }
    ensures { result ≡ characteristic_with uuid (take count (characteristics_in tables.now)) }
{
    for i in 0..count {
        let a = CHARACTERISTIC_LOW + i;
        let b = CHARACTERISTIC_HIGH + i;
        let low = tables[a];
        let high = tables[b];
        let u = Uuid { low, high };
        if u == uuid {
            let x = characteristic_at(tables, i);
            return Some(x);
        }
    }
    None
}

// Whether the first count rise strictly by declaration. There is no early exit, so that the loop goes fast.
pub fn is_rising(tables: &[u64; 1152], count: usize) -> bool
    requires { count ≤ most_characteristics }
    ensures { result ≡ rises (take count (characteristics_in tables.now)) }
{
    let mut ok = true;
    let mut least: u32 = 0;
    for i in 0..count {
        let a = CHARACTERISTIC + i;
        let word = tables[a];
        let d = declaration_of(word) as u32;
        ok = ok & (least <= d);
        least = d + 1;
    }
    ok
}

fn range_or(from: u16, value: u16, to: u16, other: Option<(u16, u16)>) -> Option<(u16, u16)>
    ensures { result ≡ range_or from value to other }
{
    if value < att_pdu::LAST_HANDLE {
        let after = value + 1;
        if after < from {
            if from <= to {
                return Some((from, to));
            }
            return other;
        }
        if after <= to {
            return Some((after, to));
        }
        return other;
    }
    other
}

fn scan_one(start: u16, end: u16, from: u16, c: Characteristic, s: Scan) -> Scan
    ensures { result ≡ scanned_on start end from c s }
{
    let d = c.declaration;
    if d < start {
        return s;
    }
    if end < d {
        return s;
    }
    let other = s.best;
    let best = range_or(from, c.value_handle, s.to, other);
    if d == 0 {
        return Scan { best, to: 0 };
    }
    let to = d - 1;
    Scan { best, to }
}

// The first range of handles, from from on, that may hold descriptors of the service from start to end.
pub fn descriptor_range(
    tables: &[u64; 1152],
    count: usize,
    start: u16,
    end: u16,
    from: u16,
) -> Option<(u16, u16)>
    requires { count ≤ most_characteristics }
    ensures { result ≡ descriptor_range (in_table tables.now count) start end from }
{
    let mut s = Scan {
        best: None,
        to: end,
    };
    for i in (0..count).rev() {
        let c = characteristic_at(tables, i);
        s = scan_one(start, end, from, c, s);
    }
    s.best
}

// ---- all of them

// The first count by value. The rest is zeros.
pub fn characteristics_of(tables: &[u64; 1152], count: usize) -> Characteristics
    requires { count ≤ most_characteristics }
    ensures { (result.count ≡ count) × (known result ≡ take count (characteristics_in tables.now)) }
{
    let zero = Characteristic {
        declaration: 0,
        properties: 0,
        value_handle: 0,
        uuid: Uuid { low: 0, high: 0 },
        cccd: None,
    };
    let mut kept = [zero; 64];
    for i in 0..count {
        kept[i] = characteristic_at(tables, i);
    }
    Characteristics { kept, count }
}

// What t knows goes into the first places. The others stay.
pub fn put_characteristics(tables: &mut [u64; 1152], t: Characteristics)
    requires { t.count ≤ most_characteristics }
    ensures { all.tables tables.new
        ≡ all.with_characteristics (all.tables tables.old) (onto (characteristics_in tables.old) (known t)) }
{
    for at in 0..t.count {
        put_characteristic(tables, at, t.kept[at]);
    }
}

// ---- answers

// The entries of size bytes that stand in the store from index from to index end go into the first count. Where there is none, the last
// handle is none.
pub fn take_characteristics(
    tables: &mut [u64; 1152],
    count: usize,
    store: &[u8],
    from: usize,
    end: usize,
    size: usize,
    none: u16,
) -> Answered
    requires { (count ≤ most_characteristics) × Rising (take count (characteristics_in tables.old)) × (5 ≤ size) × (from ≤ end) × (end ≤ length store.now) }
    ensures { (all.tables tables.new
        ≡ all.with_characteristics (all.tables tables.old)
        (taken_in tables.old count store.now from end size none).table.kept)
        × (result.count ≡ (taken_in tables.old count store.now from end size none).table.count)
        × (result.last ≡ (taken_in tables.old count store.now from end size none).last)
        × (result.full ≡ (taken_in tables.old count store.now from end size none).full) }
{
    let t = characteristics_of(tables, count);
    let f = gatt_characteristics::take_characteristics(t, store, from, end, size, none);
    let known = f.table;
    put_characteristics(tables, known);
    Answered {
        count: known.count,
        last: f.last,
        full: f.full,
    }
}

// The descriptors that the entries name go to the first count characteristics; the answer is the handle after the last of them, or first.
pub fn name_descriptors(
    tables: &mut [u64; 1152],
    count: usize,
    store: &[u8],
    from: usize,
    end: usize,
    size: usize,
    first: u32,
) -> u32
    requires { (count ≤ most_characteristics) × (2 ≤ size) × (from ≤ end) × (end ≤ length store.now) }
    ensures { (all.tables tables.new
        ≡ all.with_characteristics (all.tables tables.old)
        (named_in tables.old count store.now from end size first).table.kept)
        × (result ≡ (named_in tables.old count store.now from end size first).«next») }
{
    let t = characteristics_of(tables, count);
    let n = gatt_descriptors::name_descriptors(t, store, from, end, size, first);
    let known = n.table;
    put_characteristics(tables, known);
    n.next
}
