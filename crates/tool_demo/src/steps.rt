// The collector's scripts: one for the evening, one for each morning.
use crate::story;
use notifications::Age;
use script_rules::{Batch, Placed};
use state::{Step, Target};
use story::Part;
use time::Millis;
use tool_head::uuids;

// What an aged wait counts is at most so old.
const AGE: Millis = Millis(2_000);

fn placed(step: Step) -> Placed {
    Placed {
        step,
        place: 0,
        len: 0,
    }
}

// No step of a script has a value.
fn batch(script: &[Step]) -> Batch {
    let mut steps = [placed(Step::Disconnect); 64];
    for (place, step) in steps.iter_mut().zip(script) {
        *place = placed(*step);
    }
    Batch {
        steps,
        count: script.len(),
    }
}

const CONNECT: Step = Step::Connect {
    target: Target::Service(uuids::BAY),
    interval: 24,
    latency: 0,
    timeout: 100,
    within_ms: Millis(5_000),
};

fn wait(within_ms: Millis, age: Age) -> Step {
    Step::WaitNotification {
        characteristic: uuids::OCCUPANCY,
        within_ms,
        age,
    }
}

// Scan, connect, agree on an MTU, discover, subscribe, wait twice, read, stay for a while, disconnect.
fn evening() -> Batch {
    batch(&[
        Step::Scan { ms: Millis(1_000) },
        CONNECT,
        Step::ExchangeMtu { mtu: 100 },
        Step::DiscoverServices,
        Step::DiscoverCharacteristics {
            service: uuids::BAY,
        },
        Step::Subscribe {
            characteristic: uuids::OCCUPANCY,
            indicate: false,
        },
        wait(Millis(5_000), Age::Any),
        wait(Millis(500), Age::Any),
        Step::Read {
            characteristic: uuids::STRING,
        },
        Step::Wait { ms: Millis(500) },
        Step::Disconnect,
    ])
}

// Connect, wait twice, disconnect.
fn morning(age: Age) -> Batch {
    batch(&[
        CONNECT,
        wait(Millis(1_000), age),
        wait(Millis(1_000), age),
        Step::Disconnect,
    ])
}

// Connect, wait, stay for longer than the age, wait, disconnect.
fn late() -> Batch {
    batch(&[
        CONNECT,
        wait(Millis(1_000), Age::Within(AGE)),
        Step::Wait { ms: Millis(3_000) },
        wait(Millis(1_000), Age::Within(AGE)),
        Step::Disconnect,
    ])
}

pub fn of(part: Part) -> Batch {
    match part {
        Part::Evening => evening(),
        Part::AnyAge => morning(Age::Any),
        Part::Fresh => morning(Age::Within(AGE)),
        Part::Late => late(),
    }
}

// Step i of a script.
pub fn step(part: Part, i: usize) -> Step {
    match of(part).steps.get(i) {
        Some(placed) => placed.step,
        None => Step::Disconnect,
    }
}
