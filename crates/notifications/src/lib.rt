// The notifications that are kept; their values stand in the lent store.
#![tactic(auto)]

ghost use Rattle.std.specs.Prelude.{◌≡◌, ◌++◌, ◌+◌, ◌≤◌, ◌<◌};
ghost use Rattle.state_places.specs.Sizes.{held_at};
ghost use Rattle.notifications.specs.Kept.{kept_value, skipped_of};
ghost use Rattle.notifications.specs.Wait.{recent, counts};

use state_places::{MAX_NOTIFICATIONS, MAX_VALUE, NOTIFICATIONS_AT};
use time::{Micros, Millis};

// A notification or an indication, with the number of the link that heard it; its value stands at its own place of the store.
#[derive(Clone, Copy)]
pub struct Notification {
    pub at: Micros,
    pub handle: u16,
    pub len: u8,
    pub indication: bool,
    pub link: u64,
}

// How old a notification may be that a wait counts.
// Kept: an own enum, since the request speaks of an age, and `Age::Any` says what a bare `None` does not: that every age will do.
#[derive(Clone, Copy)]
pub enum Age {
    Any,
    Within(Millis),
}

// What a wait goes by: its handle and its age; the number of the link, if there is one; the time of the call.
#[derive(Clone, Copy)]
pub struct Wanted {
    pub handle: u16,
    pub age: Age,
    pub link: Option<u64>,
    pub now: Micros,
}

// The newest notifications, the oldest first; those from count on are none.
// Kept: an array with a count, since there is no heap, and a place from the count on has its words too.
#[derive(Clone, Copy)]
pub struct Notifications {
    pub kept: [Notification; 32],
    pub count: usize,
}

// The place of the newest of a full table.
pub const LAST: usize = MAX_NOTIFICATIONS - 1;

// The value of one more, behind count others: len bytes of the store from `from` on, past the notifications.
pub fn keep_value(store: &mut [u8], count: usize, from: usize, len: usize)
    requires { held_at ≤ from }
    ensures { store.new ≡ kept_value store.old count from len }
{
    if count < MAX_NOTIFICATIONS {
        let place = state_places::notification_at(count);
        bytes_copies::copy_within(store, place, from, len);
    } else {
        let second = state_places::notification_at(1);
        let last = state_places::notification_at(LAST);
        bytes_copies::copy_within(store, NOTIFICATIONS_AT, second, MAX_VALUE * LAST);
        bytes_copies::copy_within(store, last, from, len);
    }
}

// How many of those kept are older than the count that a wait searches from.
pub fn skipped(notified: u64, kept: usize, wait_from: u64) -> usize
    requires { kept ≤ notified }
    ensures { result ≡ skipped_of notified kept wait_from }
{
    let first = notified - kept as u64;
    wait_from.saturating_sub(first) as usize
}

// Whether it is of the present link, not after now, and at most the age before now.
fn is_recent(w: Wanted, age: Millis, x: Notification) -> bool
    ensures { result ≡ recent w age x }
{
    let now = w.now;
    let at = x.at;
    let end = time::deadline(at, age);
    (w.link == Some(x.link)) & (at.0 <= now.0) & (now.0 <= end.0)
}

// Whether a notification counts for a wait.
#[tactic(auto, unfolding(crate::specs::Wait::counts))]
pub fn does_count(w: Wanted, x: Notification) -> bool
    ensures { result ≡ counts w x }
{
    if x.handle != w.handle {
        return false;
    }
    match w.age {
        Age::Any => true,
        Age::Within(ms) => is_recent(w, ms, x),
    }
}
