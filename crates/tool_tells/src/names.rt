// UUIDs by name: those that the simulated head has.
use tool_head::uuids;
use uuid_value::Uuid;

// The head's own UUIDs, which a name alone stands for.
static OWN: [(Uuid, &[u8]); 2] = [
    (uuids::BAY, b"bay service"),
    (uuids::OCCUPANCY, b"occupancy"),
];

// Assigned numbers, which stand behind their names.
static ASSIGNED: [(Uuid, &[u8]); 4] = [
    (uuids::BATTERY, b"battery service"),
    (uuids::LEVEL, b"battery level"),
    (uuids::STRING, b"string"),
    (uuids::CONFIGURATION, b"configuration"),
];

fn name_in<'a>(names: &[(Uuid, &'a [u8])], u: Uuid) -> Option<&'a [u8]> {
    let (_, name) = names.iter().find(|known| known.0 == u)?;
    Some(name)
}

pub fn name(u: Uuid) {
    if let Some(own) = name_in(&OWN, u) {
        tool_say::text(own);
        return;
    }
    if let Some(assigned) = name_in(&ASSIGNED, u) {
        tool_say::text(assigned);
        tool_say::text(b" ");
    }
    tool_say::uuid(u);
}

// The UUID that a PDU carries in these bytes.
pub fn carried(bytes: &[u8]) {
    match Uuid::from_att(bytes) {
        Some(u) => name(u),
        None => tool_say::text(b"no UUID"),
    }
}

fn known(before: &[u8], u: Uuid, after: &[u8]) {
    tool_say::text(before);
    name(u);
    tool_say::text(b", ");
    tool_say::uuid(u);
    tool_say::line(after);
}

// The UUIDs that a name alone stands for.
pub fn legend() {
    known(b"    ", uuids::BAY, b"");
    known(b"    ", uuids::OCCUPANCY, b": 00 is free, 01 is taken");
}
