// One thing after another happens and is given to the library. Nothing is told here.
use crate::{steps, story};
use central::State;
use central_answers::{Answer, UNSENT};
use radio_match::AdvAction;
use state::{Address, Sent};
use state_refusals::Refusal;
use story::{Happening, Part, What, Why};
use time::Micros;

const HEAD: Address = Address {
    low: 0x5566_7788,
    high: 0x1122,
    random: true,
};

const STRANGER: Address = Address {
    low: 0x0000_0001,
    high: 0x00C0,
    random: false,
};

const HANDLE: u16 = 0x40;

const CHANNEL: u8 = 37;

const ADV_IND: u8 = 0;

// A link layer carries a frame in fragments of so many bytes.
pub const FRAGMENT: usize = 27;

// The head takes 10 ms to answer.
const ANSWERS_AFTER: Micros = Micros(10_000);

// How far a part of the night is: the library's state; when the last thing was; what is next of itself; how many bytes were sent; the
// number of the first step of the part's script.
#[derive(Clone, Copy)]
pub struct Night {
    pub part: Part,
    pub state: State,
    pub now: Micros,
    pub next: usize,
    pub sent: usize,
    pub first_step: u32,
}

// What happened and the bytes that were heard at it, on which state; what the call gave; how far the night is then.
#[derive(Clone, Copy)]
pub struct Turn<'a> {
    pub before: State,
    pub night: Night,
    pub happening: Happening,
    pub data: &'a [u8],
    pub action: AdvAction,
    pub refusal: Option<Refusal>,
    pub sent: Sent,
}

// What a call gave.
#[derive(Clone, Copy)]
struct Did {
    state: State,
    action: AdvAction,
    refusal: Option<Refusal>,
    sent: Sent,
}

impl From<Answer<State, Sent>> for Did {
    fn from(a: Answer<State, Sent>) -> Self {
        Did {
            state: a.state,
            action: AdvAction::Nothing,
            refusal: a.refusal,
            sent: a.gives,
        }
    }
}

impl From<Answer<State, ()>> for Did {
    fn from(a: Answer<State, ()>) -> Self {
        Did {
            state: a.state,
            action: AdvAction::Nothing,
            refusal: a.refusal,
            sent: UNSENT,
        }
    }
}

impl From<Answer<State, AdvAction>> for Did {
    fn from(a: Answer<State, AdvAction>) -> Self {
        Did {
            state: a.state,
            action: a.gives,
            refusal: a.refusal,
            sent: UNSENT,
        }
    }
}

fn who(head: bool) -> Address {
    if head { HEAD } else { STRANGER }
}

// The first n bytes, or all.
pub fn first(s: &[u8], n: usize) -> &[u8] {
    s.get(..n).unwrap_or(s)
}

// A frame comes in, as one fragment or as a start and a continuation.
fn heard(
    s: State,
    store: &mut [u8],
    out: &mut [u8],
    now: Micros,
    frame: &[u8],
) -> Answer<State, Sent> {
    let a = central::on_fragment(s, store, out, now, true, first(frame, FRAGMENT));
    if frame.len() <= FRAGMENT {
        return a;
    }
    if a.refusal.is_some() {
        return a;
    }
    central::on_fragment(a.state, store, out, now, false, &frame[FRAGMENT..])
}

// The call that the library gets.
fn act(n: Night, h: Happening, data: &[u8], store: &mut [u8], out: &mut [u8]) -> Did {
    let s = n.state;
    let now = h.at;
    match h.what {
        What::Script => central::push_steps(s, store, out, now, steps::of(n.part), b"").into(),
        What::Advert { head } => {
            central::on_advertising(s, store, now, CHANNEL, ADV_IND, who(head), data, false).into()
        }
        What::Response => central::on_scan_response(s, store, now, HEAD, data).into(),
        What::Timer => central::on_timer(s, store, out, now).into(),
        What::Connected => central::on_connected(s, store, out, HANDLE, now).into(),
        What::Frame { why: _ } => heard(s, store, out, now, data).into(),
        What::Disconnected => central::on_disconnected(s, store, now).into(),
    }
}

// The timer, where the library wants it earlier.
fn or_timer(h: Happening, t: Result<Option<Micros>, Refusal>) -> Happening {
    match t {
        Ok(Some(deadline)) if deadline.0 < h.at.0 => Happening {
            at: deadline,
            what: What::Timer,
            of_itself: false,
        },
        _ => h,
    }
}

// The head's answer to what was sent, or else the timer, or else the next of the story; nothing where the part is over.
pub fn happening(n: &Night, store: &[u8]) -> Option<Happening> {
    if n.sent == 0 {
        let next = story::of_itself(n.part, n.next)?;
        return Some(or_timer(next, central::timer_us(n.state, store)));
    }
    Some(Happening {
        at: time::later(n.now, ANSWERS_AFTER),
        what: What::Frame { why: Why::Answers },
        of_itself: false,
    })
}

// It happens, and these bytes are heard at it.
pub fn next<'a>(
    n: Night,
    h: Happening,
    data: &'a [u8],
    store: &mut [u8],
    out: &mut [u8],
) -> Turn<'a> {
    let did = act(n, h, data, store, out);
    Turn {
        before: n.state,
        night: Night {
            state: did.state,
            now: h.at,
            next: n.next.wrapping_add(usize::from(h.of_itself)),
            sent: did.sent.bytes,
            ..n
        },
        happening: h,
        data,
        action: did.action,
        refusal: did.refusal,
        sent: did.sent,
    }
}

// A part begins where another left the state.
pub fn begins(part: Part, state: State) -> Night {
    Night {
        part,
        state,
        now: Micros(0),
        next: 0,
        sent: 0,
        first_step: state.core.counters.next_index,
    }
}
