// What happens. Up to bay 14's late answer it is the same in both modes.
use crate::play::Library;
use crate::scripts;
use time::Micros;

// 08:00:00, of a clock that counts from midnight.
const BEGIN: Micros = Micros(28_800_000_000);

fn after(us: u64) -> Micros {
    time::later(BEGIN, Micros(us))
}

// ---- the collector discovers both bays, which is not told

// The head's answers: one service, and no other; bay 14 with its value at handle 3, bay 15 with its value at handle 5; no more.
const ANSWERS: [&[u8]; 4] = [
    b"\x08\x00\x04\x00\x11\x06\x01\x00\x05\x00\x00\xFF",
    b"\x05\x00\x04\x00\x01\x10\x06\x00\x0A",
    b"\x10\x00\x04\x00\x09\x07\x02\x00\x02\x03\x00\x14\xFF\x04\x00\x02\x05\x00\x15\xFF",
    b"\x05\x00\x04\x00\x01\x08\x05\x00\x0A",
];

fn discover(library: &mut Library) {
    let a = library.push(BEGIN, scripts::discover());
    library.leave(a);
    for frame in ANSWERS {
        let a = library.receive(BEGIN, frame);
        library.leave(a);
    }
}

// ---- the story

fn late(library: &mut Library) {
    library.connect(BEGIN);
    discover(library);
    library.read_both(after(1_000_000));
    library.ring(after(31_000_000));
    library.bay_14_answers(after(32_000_000));
}

pub fn old(library: &mut Library) {
    late(library);
    library.bay_15_answers(after(33_000_000));
}

pub fn strict(library: &mut Library) {
    late(library);
    library.disconnect(after(33_000_000));
    library.connect(after(34_000_000));
    library.read_bay_15(after(35_000_000));
    library.bay_15_answers(after(35_010_000));
}
