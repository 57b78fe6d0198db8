// The library at work on a script: a collector's scripts of one night are played against a simulated bay head, and told in words or as
// a timeline. In the evening a notification comes that nobody waits for; what becomes of it in the morning is told three times, from one
// state.
#![tactic(auto)]

mod play;
mod prose;
mod steps;
mod story;
mod timeline;
mod waits;

use central::State;
use play::{Night, Turn};
use story::{Happening, Part};

// Standard input.
const STDIN_FILENO: i32 = 0;

#[derive(Clone, Copy)]
enum Form {
    Words,
    Timeline,
}

// A part with the head's answers and the timer takes fewer turns.
const MOST_TURNS: usize = 64;

// `done` is the state at the end of the part.
fn tell(form: Option<Form>, t: &Turn, done: State, store: &[u8], out: &[u8]) {
    match form {
        None => (),
        Some(Form::Words) => prose::tell(t, store, out),
        Some(Form::Timeline) => timeline::tell(t, done, store, out),
    }
}

fn turn(
    form: Option<Form>,
    n: Night,
    h: Happening,
    done: State,
    store: &mut [u8],
    out: &mut [u8],
) -> Night {
    let mut to = [0u8; state_places::MAX_FRAME];
    let heard = story::bytes(h.what, play::first(out, n.sent), &mut to);
    let t = play::next(n, h, play::first(&to, heard), store, out);
    tell(form, &t, done, store, out);
    t.night
}

// What is lent to the library, and how what happens is told.
#[derive(Drop)]
struct Teller<'a> {
    form: Form,
    store: &'a mut [u8],
    out: &'a mut [u8],
}

impl Teller<'_> {
    // A part from a state and its store on, told if a form is given; the state as it is then.
    fn run(
        &mut self,
        form: Option<Form>,
        part: Part,
        from: State,
        store: &[u8],
        done: State,
    ) -> State {
        bytes_copies::copy_in(self.store, 0, store, 0, store.len());
        let mut n = play::begins(part, from);
        for _ in 0..MOST_TURNS {
            let Some(h) = play::happening(&n, self.store) else {
                break;
            };
            n = turn(form, n, h, done, self.store, self.out);
        }
        n.state
    }

    // The same. It is played in silence first, since a step's line in a timeline says how the step ends.
    fn play(&mut self, part: Part, from: State, store: &[u8]) -> State {
        let done = self.run(None, part, from, store, from);
        let form = self.form;
        self.run(Some(form), part, from, store, done)
    }
}

fn heading(words: &[u8]) {
    tool_say::line(b"");
    tool_say::line(words);
}

// What the first morning shows, and what can be done about it.
fn rule() {
    heading(
        b"So step 12 passed on a notification that is six hours old: the bay was free at 23:00, and the result says 05:00. That is the",
    );
    tool_say::line(
        b"rule for a wait without an age (scope document 01): it counts every notification of its characteristic from where the last",
    );
    tool_say::line(
        b"wait that passed stopped, of whatever link and however old, and its result carries the time at which the wait ended. Scripts",
    );
    tool_say::line(
        b"lean on that, so it stays. An aged wait counts a notification only if the present link heard it, at most the age before now;",
    );
    tool_say::line(
        b"its result names the newest one that it counted, with its time, link and value.",
    );
}

fn mornings(teller: &mut Teller, evening: State, store: &[u8]) {
    heading(b"05:00, with waits that have no age");
    teller.play(Part::AnyAge, evening, store);
    match teller.form {
        Form::Words => rule(),
        Form::Timeline => (),
    }
    heading(b"05:00 again, with aged waits: a car comes while step 12 waits");
    teller.play(Part::Fresh, evening, store);
    heading(
        b"05:00 again, with aged waits: none comes while step 12 waits, and the one that comes then is too old for step 14",
    );
    teller.play(Part::Late, evening, store);
}

fn tell_night(form: Form) {
    let mut teller = Teller {
        form,
        store: &mut [0u8; state_places::STORE_SIZE],
        out: &mut [0u8; state_places::OUTPUT_SIZE],
    };
    tool_say::line(
        b"A collector plays scripts against a simulated bay head. Two UUIDs are the head's own:",
    );
    tool_tells::names::legend();
    heading(b"23:00");
    let empty = [0u8; state_places::STORE_SIZE];
    let evening = teller.play(Part::Evening, central::fresh::fresh(), &empty);
    let mut store = empty;
    let size = teller.store.len();
    bytes_copies::copy_in(&mut store, 0, teller.store, 0, size);
    mornings(&mut teller, evening, &store);
}

// 't' on standard input asks for the timeline.
fn main() {
    let mut word = [0u8; 1];
    io::read_full(STDIN_FILENO, &mut word);
    if word[0] == b't' {
        tell_night(Form::Timeline);
    } else {
        tell_night(Form::Words);
    }
}
