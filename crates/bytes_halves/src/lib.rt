// The two bytes of a number.
#![tactic(auto)]

ghost use Rattle.std.specs.Prelude.{◌≡◌, ◌/◌, ◌%◌};

// The less significant byte of a number.
pub fn lo(v: u16) -> u8
    ensures { result ≡ v % 256 }
{
    v.to_le_bytes()[0]
}

// The more significant byte of a number.
pub fn hi(v: u16) -> u8
    ensures { result ≡ v / 256 % 256 }
{
    v.to_le_bytes()[1]
}
