// What the collector hands in.
use script_rules::{Batch, Placed};
use state::Step;
use uuid_value::Uuid;

// The half that all 16-bit UUIDs have in common.
const BASE: u64 = 0x8000_0080_5F9B_34FB;

// FF00, the head's own service.
const BAYS: Uuid = Uuid {
    low: BASE,
    high: 0x0000_FF00_0000_1000,
};

// FF14.
const BAY_14: Uuid = Uuid {
    low: BASE,
    high: 0x0000_FF14_0000_1000,
};

// FF15.
const BAY_15: Uuid = Uuid {
    low: BASE,
    high: 0x0000_FF15_0000_1000,
};

pub const READ_14: Step = Step::Read {
    characteristic: BAY_14,
};

pub const READ_15: Step = Step::Read {
    characteristic: BAY_15,
};

fn placed(step: Step) -> Placed {
    Placed {
        step,
        place: 0,
        len: 0,
    }
}

// The first `count` of two steps.
fn batch(first: Step, second: Step, count: usize) -> Batch {
    let mut steps = [placed(first); 64];
    steps[1] = placed(second);
    Batch { steps, count }
}

pub fn discover() -> Batch {
    let step = Step::DiscoverCharacteristics { service: BAYS };
    batch(step, step, 1)
}

pub fn both() -> Batch {
    batch(READ_14, READ_15, 2)
}

pub fn bay_15() -> Batch {
    batch(READ_15, READ_15, 1)
}
