// A Scan asks 128 advertisers: the next new one is refused with 8.
use crate::known;
use central::State;
use central_answers::Answer;
use radio_match::AdvAction;
use time::Micros;

const ADV_IND: u8 = 0;

const ADV_NONCONN_IND: u8 = 2;

const DATA: [u8; 3] = [0x02, 0x01, 0x06];

const OTHER_DATA: [u8; 3] = [0x02, 0x01, 0x04];

// A state whose Scan has heard so many advertisers, and how many of them it asked.
#[derive(Clone, Copy)]
struct Heard {
    state: State,
    asked: u64,
}

// How many advertisers are asked by it: one or none.
fn asked(x: AdvAction) -> u64 {
    match x {
        AdvAction::Nothing => 0,
        AdvAction::ScanRequest => 1,
        AdvAction::Connect(_) => 0,
    }
}

// An advertiser speaks.
fn hear(
    s: State,
    store: &mut [u8],
    at: Micros,
    pdu: u8,
    who: u32,
    data: &[u8],
) -> Answer<State, AdvAction> {
    let address = known::address(who);
    central::on_advertising(s, store, at, 37, pdu, address, data, false)
}

// Advertisers 0 to 127 speak.
fn hear_all(begun: State, store: &mut [u8]) -> Heard {
    let mut x = Heard {
        state: begun,
        asked: 0,
    };
    for who in 0..128 {
        let a = hear(x.state, store, Micros(1000), ADV_IND, who, &DATA);
        x = Heard {
            state: a.state,
            asked: x.asked.wrapping_add(asked(a.gives)),
        };
    }
    x
}

// A state whose Scan has asked 128 advertisers.
fn full(store: &mut [u8]) -> State {
    let begun = known::scanning(store);
    let h = hear_all(begun, store);
    let core = h.state.core;
    tool_say::told(b"A Scan hears 128 advertisers and asks ", h.asked, b"");
    tool_say::told(b", keys kept ", core.key_count as u64, b", reports kept ");
    tool_say::told(b"", core.reports as u64, b"\n");
    h.state
}

// Then four more speak: who it is, by its number and its PDU.
static FOUR: [(&[u8], u32, u8); 4] = [
    (b"  a new one, scannable", 128, ADV_IND),
    (b"  the last of the 128", 127, ADV_IND),
    (b"  the first of them, whose report went", 0, ADV_IND),
    (b"  a new one, not scannable", 128, ADV_NONCONN_IND),
];

// One more speaks, or one says something else: what comes of it.
fn one_more(s: State, store: &mut [u8], text: &[u8], who: u32, pdu: u8) -> State {
    let stored = tool_digest::of_lent(store);
    let a = hear(s, store, Micros(2000), pdu, who, &OTHER_DATA);
    tool_say::text(text);
    known::refusal(a.refusal);
    if asked(a.gives) == 0 {
        tool_say::text(b", is not asked");
    } else {
        tool_say::text(b", is asked");
    }
    known::kept(
        known::number(s) == known::number(a.state),
        tool_digest::of_lent(store) == stored,
    );
    a.state
}

pub fn all() {
    let mut store = [0u8; state_places::STORE_SIZE];
    let mut s = full(&mut store);
    for (text, who, pdu) in &FOUR {
        s = one_more(s, &mut store, text, *who, *pdu);
    }
}
