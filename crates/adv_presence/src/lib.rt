// What the advertising data and the scan response of an advertiser tell of a service, three ways (02, Five).
#![tactic(auto)]

ghost use Rattle.std.specs.Prelude.{◌≡◌};
ghost use Rattle.uuid_value.specs.Value.{num};
ghost use Rattle.adv_presence.specs.Presences.{presence_of, either, presence_in, presence_number};

use adv_data::Sought;
use uuid_value::Uuid;

// Not offered; offered; or neither can be told, since a list is incomplete or the data is cut.
#[derive(Clone, Copy)]
pub enum Presence {
    Absent,
    Listed,
    Unknown,
}

// What the data alone tells.
fn presence_of(x: Sought) -> Presence
    ensures { result ≡ presence_of x }
{
    match x {
        Sought::Listed(_) => Presence::Listed,
        Sought::Absent => Presence::Absent,
        Sought::Unknown => Presence::Unknown,
    }
}

// What the response tells beside data that cannot tell.
fn beside_unknown(x: Presence) -> Presence
    ensures { result ≡ either Presence.Unknown x }
{
    match x {
        Presence::Listed => Presence::Listed,
        Presence::Absent => Presence::Unknown,
        Presence::Unknown => Presence::Unknown,
    }
}

// What both tell. No response is one without bytes.
pub fn service_presence(data: &[u8], response: &[u8], uuid: Uuid) -> Presence
    ensures { result ≡ presence_in (num uuid) «data».now response.now }
{
    match adv_data::seek(data, uuid) {
        Sought::Listed(_) => Presence::Listed,
        Sought::Absent => presence_of(adv_data::seek(response, uuid)),
        Sought::Unknown => beside_unknown(presence_of(adv_data::seek(response, uuid))),
    }
}

// The number that C gets.
impl From<Presence> for u32 {
    ghost from_gives = { λ x n. n ≡ presence_number x };

    fn from(x: Presence) -> u32 {
        match x {
            Presence::Absent => 0,
            Presence::Listed => 1,
            Presence::Unknown => 2,
        }
    }
}
