// The refusals: what makes a call a bad one, by name and by number.
#![tactic(auto)]

ghost use Rattle.std.specs.Prelude.{◌≡◌};
ghost use Rattle.refusal.specs.Table.{number_of};

// Why a call is refused; nothing has happened then.
#[derive(Clone, Copy, PartialEq, Eq)]
pub enum Refusal {
    // No part has a memory of that length.
    MemoryLength = 1,
    // The state is not legal for that length.
    IllegalState = 2,
    // The script has more than 65,536 bytes.
    LongScript = 3,
    // The script is over before its last event is.
    CutOff = 4,
    // No event is of that kind, or not there.
    UnknownKind = 5,
    // The body is not in its kind's range.
    BodyRange = 6,
    // The output has no room for the records.
    SmallOutput = 7,
    // A stamp went back.
    WentBack = 8,
    // The SFDP area has more than 256 bytes.
    LongArea = 13,
    // The area does not begin with the signature.
    Unsigned = 14,
    // The area is over before its headers are.
    CutHeaders = 15,
    // No header has that identity.
    NoHeader = 16,
    // The table is not all in the area.
    TableOutside = 17,
    // An allowance is over 1,000,000.
    LargeAllowance = 18,
    // There are more than 4,096 bytes to program.
    LongData = 20,
    // The address is not on the part.
    AddressOutside = 21,
    // The bytes to program do not all lie on the part.
    DataOutside = 22,
    // The output has no room for the script.
    NoRoom = 23,
}

impl Refusal {
    // Its number in the rule book, for C and for what is printed.
    pub fn number(self) -> u8
        ensures { result ≡ number_of self }
    {
        self as u8
    }
}
