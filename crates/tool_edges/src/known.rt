// What the programs begin with: a head's characteristic that is known, a link, a batch; and what they say of every call.
use central::State;
use script_rules::{Batch, Placed};
use state::{Address, Step};
use state_refusals::Refusal;
use time::{Micros, Millis};
use uuid_value::Uuid;

// 2A19, the battery level.
pub const LEVEL: Uuid = Uuid {
    low: 0x8000_0080_5F9B_34FB,
    high: 0x0000_2A19_0000_1000,
};

// The handle of its value.
pub const LEVEL_HANDLE: u16 = 3;

const LINK: u16 = 0x40;

// Declaration at handle 2, value at 3, properties 0C, no CCCD known.
const LEVEL_WORD: u64 = 0x0002_0003_0000_000C;

// A state that knows the characteristic, as discovery leaves it.
fn knowing() -> State {
    let mut s = central::fresh::fresh();
    s.core.counts.characteristics = 1;
    s.tables[words::CHARACTERISTIC_LOW] = LEVEL.low;
    s.tables[words::CHARACTERISTIC_HIGH] = LEVEL.high;
    s.tables[words::CHARACTERISTIC] = LEVEL_WORD;
    s
}

// The same with a link just come up, so that its MTU is 23.
pub fn linked(store: &mut [u8], out: &mut [u8]) -> State {
    central::on_connected(knowing(), store, out, LINK, Micros(0)).state
}

// A batch of one step over and over, with one value.
pub fn alike(step: Step, count: usize, place: usize, len: usize) -> Batch {
    Batch {
        steps: [Placed { step, place, len }; 64],
        count,
    }
}

// A fresh state whose Scan runs.
pub fn scanning(store: &mut [u8]) -> State {
    let mut out = [0u8; state_places::OUTPUT_SIZE];
    let scan = alike(Step::Scan { ms: Millis(60_000) }, 1, 0, 0);
    let fresh = central::fresh::fresh();
    central::push_steps(fresh, store, &mut out, Micros(0), scan, b"").state
}

// An advertiser.
pub fn address(low: u32) -> Address {
    Address {
        low,
        high: 0x00AA,
        random: false,
    }
}

// One number of a whole state.
pub fn number(s: State) -> u64 {
    tool_digest::of_state(s.core, &s.tables)
}

pub fn refusal(why: Option<Refusal>) {
    tool_say::told(b": refusal ", state_refusals::told_number(why) as u64, b"");
}

// Whether something is what it was.
pub fn same(what: &[u8], same: bool) {
    tool_say::text(what);
    if same {
        tool_say::text(b" as before");
    } else {
        tool_say::text(b" changed");
    }
}

// Whether the state is, and the store.
pub fn kept(state: bool, store: bool) {
    same(b"; state", state);
    same(b", store", store);
    tool_say::line(b"");
}
