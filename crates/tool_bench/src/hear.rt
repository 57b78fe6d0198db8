// Advertisers, and what is done about what they say.
use radio_match::AdvAction;
use state::Address;

pub const ADV_IND: u8 = 0;

pub fn address(n: u32) -> Address {
    Address {
        low: n,
        high: 0x00AA,
        random: true,
    }
}

// The number that a report or a key has for it.
pub fn key(n: u32) -> u64 {
    adv_reports::key_of(address(n))
}

// The one after n, of so many.
pub fn after(n: u32, count: u32) -> u32 {
    let next = n.wrapping_add(1);
    if next < count { next } else { 0 }
}

pub fn number_of(x: AdvAction) -> usize {
    match x {
        AdvAction::Nothing => 1,
        AdvAction::ScanRequest => 2,
        AdvAction::Connect(_) => 3,
    }
}
