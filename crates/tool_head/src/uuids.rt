// The UUIDs of the head's services, characteristics and descriptors.
use uuid_value::Uuid;

// The half that all assigned numbers have in common.
const ASSIGNED: u64 = 0x8000_0080_5F9B_34FB;

// 180F.
pub const BATTERY: Uuid = Uuid {
    low: ASSIGNED,
    high: 0x0000_180F_0000_1000,
};

// 2A19.
pub const LEVEL: Uuid = Uuid {
    low: ASSIGNED,
    high: 0x0000_2A19_0000_1000,
};

// 2A3D.
pub const STRING: Uuid = Uuid {
    low: ASSIGNED,
    high: 0x0000_2A3D_0000_1000,
};

// 2902, by which a client subscribes.
pub const CONFIGURATION: Uuid = Uuid {
    low: ASSIGNED,
    high: 0x0000_2902_0000_1000,
};

// The half that the bay head's own UUIDs have in common.
const OWN: u64 = 0xE0A9_E50E_24DC_CA9E;

// 6E400001-B5A3-F393-E0A9-E50E24DCCA9E.
pub const BAY: Uuid = Uuid {
    low: OWN,
    high: 0x6E40_0001_B5A3_F393,
};

// 6E400003-B5A3-F393-E0A9-E50E24DCCA9E.
pub const OCCUPANCY: Uuid = Uuid {
    low: OWN,
    high: 0x6E40_0003_B5A3_F393,
};
