// Kept notifications in the lent words, a time, a link and one word more for each of 32 places, and a wait's search through their values.
#![tactic(auto)]

ghost use Rattle.std.specs.Prelude.{◌≡◌, true, ◌||◌, List, ℕ, ◌+◌, ◌≤◌, ◌<◌, ◌/◌, min, length, take, drop, get_or, set};
ghost use Rattle.bytes_base.specs.Choice.{pick};
ghost use Rattle.state_places.specs.Sizes.{most_notifications, held_at};
ghost use Rattle.state_counters.specs.Counters.{most_notified};
ghost use Rattle.lists.specs.Queue.{shifted};
ghost use Rattle.lists.specs.Blocks.{bytes};
ghost use Rattle.state.specs.Fresh.{no_notification};
ghost use Rattle.notifications.specs.Kept.{live, heard, values_fit, links_fit, keeping};
ghost use Rattle.notifications.specs.Wait.{any, starts, passes, newest_counted};
ghost use Rattle.words.specs.Words.{two56, notification_of};
ghost use Rattle.words.specs.Tables as all;
ghost use Rattle.words.specs.Tables.{notifications_in};
ghost use Rattle.words_notification.specs.Kept.{kept_in};
ghost use Rattle.words_notification.specs.Search.{own, joined, stands, Ready};

use notifications::{Notification, Wanted};
use state_places::MAX_NOTIFICATIONS;
use time::Micros;
use words::{NOTIFICATION, NOTIFICATION_AT, NOTIFICATION_LINK};

// Where a word's fields begin: the handle has the 16 bits below the flag, the length has the top byte.
const FLAG: u64 = 65_536;

const LENGTH: u64 = 72_057_594_037_927_936;

// 245 * 2^56: the words of notifications whose values fit are below it.
const LENGTH_END: u64 = 17_654_110_539_292_344_320;

// All but the time and the link, in one word.
fn word_of(x: Notification) -> u64
    ensures { notification_of x.at.0 result x.link ≡ x }
{
    u64::from(x.handle) + FLAG * u64::from(x.indication) + LENGTH * u64::from(x.len)
}

// The notification in place i.
pub fn notification_at(tables: &[u64; 1152], i: usize) -> Notification
    requires { i < most_notifications }
    ensures { result ≡ get_or (notifications_in tables.now) i no_notification }
{
    let word = tables[NOTIFICATION + i];
    let link = tables[NOTIFICATION_LINK + i];
    let indication = word / FLAG % 2 == 1;
    Notification {
        at: Micros(tables[NOTIFICATION_AT + i]),
        handle: (word % FLAG) as u16,
        len: (word / LENGTH) as u8,
        indication,
        link,
    }
}

// x goes into place i.
fn put_notification(tables: &mut [u64; 1152], i: usize, x: Notification)
    requires { i < most_notifications }
    ensures { all.tables tables.new ≡ all.with_notifications (all.tables tables.old) (set (notifications_in tables.old) i x) }
{
    tables[NOTIFICATION_AT + i] = x.at.0;
    tables[NOTIFICATION + i] = word_of(x);
    tables[NOTIFICATION_LINK + i] = x.link;
}

// The first goes, the others move down by one place, the last stays too.
fn shift_notifications(tables: &mut [u64; 1152])
    ensures { all.tables tables.new ≡ all.with_notifications (all.tables tables.old) (shifted (notifications_in tables.old) 31) }
{
    words::lower(tables, NOTIFICATION_AT, notifications::LAST);
    words::lower(tables, NOTIFICATION, notifications::LAST);
    words::lower(tables, NOTIFICATION_LINK, notifications::LAST);
}

// One more, behind count others; where 32 are kept the oldest goes. How many are kept then.
pub fn keep(tables: &mut [u64; 1152], count: usize, x: Notification) -> usize
    ensures tables_after { all.tables tables.new ≡ all.with_notifications (all.tables tables.old) (keeping (kept_in tables.old count) x).kept }
    ensures count { result ≡ (keeping (kept_in tables.old count) x).count }
{
    if count < MAX_NOTIFICATIONS {
        put_notification(tables, count, x);
        return count + 1;
    }
    shift_notifications(tables);
    put_notification(tables, notifications::LAST, x);
    MAX_NOTIFICATIONS
}

// Whether the value of each of the first count fits its place.
pub fn values_fit(tables: &[u64; 1152], count: usize) -> bool
    requires { count ≤ most_notifications }
    ensures { result ≡ values_fit (take count (notifications_in tables.now)) }
{
    words::all_at_most(words::row(tables, NOTIFICATION, count), LENGTH_END - 1)
}

// Whether none of the first count was heard on a link of a higher number.
pub fn links_fit(tables: &[u64; 1152], count: usize, links: u64) -> bool
    requires { count ≤ most_notifications }
    ensures { result ≡ links_fit links (take count (notifications_in tables.now)) }
{
    words::all_at_most(words::row(tables, NOTIFICATION_LINK, count), links)
}

// ---- a wait's search

// Whether one that counts is kept, from place skip on.
fn is_any(tables: &[u64; 1152], count: usize, skip: usize, wanted: Wanted) -> bool
    requires { count ≤ most_notifications }
    ensures { (s : List ℕ) → result ≡ any wanted (drop skip (heard s (live (kept_in tables.now count)))) }
{
    for i in skip..count {
        let x = notification_at(tables, i);
        if notifications::does_count(wanted, x) {
            return true;
        }
    }
    false
}

// One past the number of the newest that counts, from place skip on; place 0 has number first. 0 where none counts.
pub fn newest_counted(
    tables: &[u64; 1152],
    count: usize,
    skip: usize,
    first: u64,
    wanted: Wanted,
) -> u64
    requires { (count ≤ most_notifications) × (first ≤ most_notified) }
    ensures { result ≡ newest_counted wanted (first + skip) 0 (drop skip (live (kept_in tables.now count))) }
{
    let mut newest = 0;
    for i in skip..count {
        let x = notification_at(tables, i);
        if notifications::does_count(wanted, x) {
            newest = first + i as u64 + 1;
        }
    }
    newest
}

// How many bytes the value in place i has; none if it does not count.
fn own_size(tables: &[u64; 1152], i: usize, wanted: Wanted) -> usize
    requires { i < most_notifications }
    ensures { result ≡ own wanted tables.now i }
{
    let own = notification_at(tables, i);
    if notifications::does_count(wanted, own) {
        return usize::from(own.len);
    }
    0
}

// How many bytes the values of those that count have together, from place skip on.
fn joined_size(tables: &[u64; 1152], count: usize, skip: usize, wanted: Wanted) -> usize
    requires { (count ≤ most_notifications) × (values_fit (live (kept_in tables.now count)) ≡ true) }
    ensures { (s : List ℕ) → held_at ≤ length s → result ≡ length (joined wanted tables.now s count skip) }
{
    let mut n = 0;
    for i in skip..count {
        let size = own_size(tables, i, wanted);
        n += size;
    }
    n
}

// Whether the n bytes of the store from p on are those from q on.
fn are_equal(store: &[u8], p: usize, q: usize, n: usize) -> bool
    requires { (p + n ≤ length store.now) × (q + n ≤ length store.now) }
    ensures { result ≡ starts (bytes store.now q n) (bytes store.now p n) }
{
    // Byte by byte, up to the first that differs: `==` of slices would compare bytes past it.
    for j in 0..n {
        if store[p + j] != store[q + j] {
            return false;
        }
    }
    true
}

// Whether the values go on, from byte `from` of place `first` on, with the m bytes of the store from at on but the first.
// There are enough bytes left. It goes from value to value and compares what each has of them.
fn goes_on(
    tables: &[u64; 1152],
    count: usize,
    wanted: Wanted,
    store: &[u8],
    first: usize,
    from: usize,
    at: usize,
    m: usize,
) -> bool
    requires { Ready tables.now count store.now at m × (from ≤ own wanted tables.now first) × (m ≤ length (drop from (joined wanted tables.now store.now count first)) + 1) }
    ensures { result ≡ starts (drop 1 (bytes store.now at m)) (drop from (joined wanted tables.now store.now count first)) }
{
    let mut i = first;
    let mut o = from;
    let mut j = 1;
    // Kept: a while, since j goes on by as many bytes as a value has.
    while j < m {
        let size = own_size(tables, i, wanted);
        let n = (size - o).min(m - j);
        let place = state_places::notification_at(i) + o;
        if !are_equal(store, place, at + j, n) {
            return false;
        }
        j += n;
        o = 0;
        i += 1;
    }
    true
}

// Whether the m bytes of the store from at on begin at one of the first bytes, `tries` of them, of the value in place i.
fn begins_in(
    tables: &[u64; 1152],
    count: usize,
    wanted: Wanted,
    store: &[u8],
    i: usize,
    tries: usize,
    at: usize,
    m: usize,
) -> bool
    requires { Ready tables.now count store.now at m × (i < count) × (tries ≤ own wanted tables.now i) × (tries + m ≤ length (joined wanted tables.now store.now count i) + 1) }
    ensures { stands wanted tables.now store.now count i 0 at m ≡ (result || stands wanted tables.now store.now count i tries at m) }
{
    let place = state_places::notification_at(i);
    let b = store[at];
    for k in 0..tries {
        if store[place + k] == b {
            if goes_on(tables, count, wanted, store, i, k + 1, at, m) {
                return true;
            }
        }
    }
    false
}

// Whether the joined values of those that count, from place skip on, contain the m bytes of the store from at on.
fn is_found(
    tables: &[u64; 1152],
    count: usize,
    skip: usize,
    wanted: Wanted,
    store: &[u8],
    at: usize,
    m: usize,
) -> bool
    requires { Ready tables.now count store.now at m }
    ensures { result ≡ stands wanted tables.now store.now count skip 0 at m }
{
    let mut rest = joined_size(tables, count, skip, wanted);
    let mut i = skip;
    // Kept: a while, since it ends by the bytes that are left, and not by a count of places.
    while m <= rest {
        let size = own_size(tables, i, wanted);
        let tries = size.min(rest - (m - 1));
        if begins_in(tables, count, wanted, store, i, tries, at, m) {
            return true;
        }
        rest -= size;
        i += 1;
    }
    false
}

// Whether a wait passes on those from place skip on: its `contains` is the len bytes of the store from at on.
pub fn wait_passes(
    tables: &[u64; 1152],
    count: usize,
    skip: usize,
    wanted: Wanted,
    store: &[u8],
    at: usize,
    len: usize,
) -> bool
    requires { (count ≤ most_notifications) × (values_fit (live (kept_in tables.now count)) ≡ true) × (held_at ≤ length store.now) × (at + len ≤ length store.now) }
    ensures { result ≡ passes wanted (drop skip (heard store.now (live (kept_in tables.now count)))) (bytes store.now at len) }
{
    if len == 0 {
        return is_any(tables, count, skip, wanted);
    }
    is_found(tables, count, skip, wanted, store, at, len)
}
