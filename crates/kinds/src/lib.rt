// The kinds of events: their names, their bodies, what they can say; and where in a script a body stands.
#![tactic(auto)]

ghost use Rattle.std.specs.Prelude.{◌≡◌, ◌+◌, ◌*◌, ◌/◌, ◌<◌, ◌≤◌, min, leb, length};
ghost use Rattle.kinds.specs.Kinds.{known_kind, known_in_script, body_length, in_range, yields, room_of, most_room};
ghost use Rattle.kinds.specs.Number.{number_of, Numbered};
ghost use Rattle.kinds.specs.Body.{body_at, step_to};
ghost use Rattle.kinds.specs.Row.{exchanges_from};

// A kind of event, by the number that it has in a script.
#[derive(Clone, Copy, PartialEq, Eq)]
pub enum Kind {
    Select = 1,
    Exchange = 2,
    Deselect = 3,
    Tick = 4,
    Ticks = 5,
    Wp = 6,
    Power = 7,
    Stamp = 9,
}

// A number that no kind has.
#[derive(Clone, Copy, PartialEq, Eq)]
pub struct UnknownKind;

// The kind that has a number.
impl TryFrom<u64> for Kind {
    type Error = UnknownKind;

    ghost try_from_gives = { Numbered };

    #[tactic(auto, using(crate::proofs::Laws::not_script))]
    fn try_from(number: u64) -> Result<Self, UnknownKind> {
        match number {
            1 => Ok(Kind::Select),
            2 => Ok(Kind::Exchange),
            3 => Ok(Kind::Deselect),
            4 => Ok(Kind::Tick),
            5 => Ok(Kind::Ticks),
            6 => Ok(Kind::Wp),
            7 => Ok(Kind::Power),
            9 => Ok(Kind::Stamp),
            _ => Err(UnknownKind),
        }
    }
}

// The number of a kind.
impl From<Kind> for u64 {
    ghost from_gives = { λ kind number. number ≡ number_of kind };

    fn from(kind: Kind) -> u64 {
        kind as u64
    }
}

// What the table has for each kind.
#[tactic(auto, unfolding(crate::specs::Kinds::kind_row, crate::specs::Kinds::kind_row_in, crate::specs::Kinds::known_kind))]
impl Kind {
    // Whether it is a kind of event, which can also be applied alone.
    fn is_event(self) -> bool
        ensures { result ≡ known_kind (number_of self) }
    {
        self != Kind::Stamp
    }

    // The length of its body.
    fn body_length(self) -> usize
        ensures { (result ≡ body_length (number_of self)) × (result ≤ 2) }
    {
        match self {
            Kind::Select => 0,
            Kind::Exchange => 1,
            Kind::Deselect => 1,
            Kind::Tick => 0,
            Kind::Ticks => 2,
            Kind::Wp => 1,
            Kind::Power => 0,
            Kind::Stamp => 2,
        }
    }

    // Whether a body is in its range; without a body any number will do.
    fn takes(self, body: u64) -> bool
        ensures { result ≡ in_range (number_of self) body }
    {
        match self {
            Kind::Select => true,
            Kind::Exchange => body <= 255,
            Kind::Deselect => body <= 7,
            Kind::Tick => true,
            Kind::Ticks => (1 <= body) & (body <= 65535),
            Kind::Wp => body <= 1,
            Kind::Power => true,
            Kind::Stamp => body <= 65535,
        }
    }

    // Whether it yields a record.
    fn yields(self) -> bool
        ensures { result ≡ yields (number_of self) }
    {
        (self == Kind::Exchange) | (self == Kind::Deselect)
    }

    // The room that its record is given, whatever the record turns out to be.
    fn room(self) -> usize
        ensures { (result ≡ room_of (number_of self)) × (result ≤ most_room) }
    {
        match self {
            Kind::Exchange => 2,
            Kind::Deselect => 3,
            _ => 0,
        }
    }
}

// Whether a number is a kind of event, which can also be applied alone.
// Stays: a kind is a number here and in the five below, since each answers for every number (`known_kind`, `known_in_script`, `body_length`, `in_range`, `yields`, `room_of`).
#[tactic(auto, using(crate::proofs::Laws::unknown_row), unfolding(crate::specs::Kinds::known_kind))]
pub fn is_known(kind: u64) -> bool
    ensures { result ≡ known_kind kind }
{
    match Kind::try_from(kind) {
        Ok(known) => known.is_event(),
        Err(_) => false,
    }
}

// Whether a number is a kind in a script, where there are stamps too.
#[tactic(auto, using(crate::proofs::Laws::number_known))]
pub fn is_known_in_script(kind: u64) -> bool
    ensures { result ≡ known_in_script kind }
{
    Kind::try_from(kind).is_ok()
}

// The length of a kind's body.
#[tactic(auto, using(crate::proofs::Laws::unknown_row))]
pub fn body_length(kind: u64) -> usize
    ensures { (result ≡ body_length kind) × (result ≤ 2) }
{
    match Kind::try_from(kind) {
        Ok(known) => known.body_length(),
        Err(_) => 0,
    }
}

// Whether a body is in its kind's range.
#[tactic(auto, using(crate::proofs::Laws::unknown_row))]
pub fn is_in_range(kind: u64, body: u64) -> bool
    ensures { result ≡ in_range kind body }
{
    match Kind::try_from(kind) {
        Ok(known) => known.takes(body),
        Err(_) => true,
    }
}

// Whether an event of a kind yields a record.
#[tactic(auto, using(crate::proofs::Laws::unknown_row))]
pub fn yields(kind: u64) -> bool
    ensures { result ≡ yields kind }
{
    match Kind::try_from(kind) {
        Ok(known) => known.yields(),
        Err(_) => false,
    }
}

// The room that a kind's record is given, whatever the record turns out to be.
#[tactic(auto, using(crate::proofs::Laws::unknown_row))]
pub fn room_of(kind: u64) -> usize
    ensures { (result ≡ room_of kind) × (result ≤ most_room) }
{
    match Kind::try_from(kind) {
        Ok(known) => known.room(),
        Err(_) => 0,
    }
}

// The body of the event at an offset of a script.
pub fn body_at(s: &[u8], at: usize) -> u64
    ensures { (result ≡ body_at s.now at) × (result ≤ 65535) }
{
    if s.len() <= at {
        return 0;
    }
    let n = body_length(s[at] as u64);
    if n == 1 {
        return cells::byte_at(s, at + 1) as u64;
    }
    if n == 2 {
        let high = cells::byte_at(s, at + 1);
        let low = cells::byte_at(s, at + 2);
        return u16::from_be_bytes([high, low]) as u64;
    }
    0
}

// Where the event after the one at an offset of a script starts; past the end, the same offset.
pub fn next_at(s: &[u8], at: usize) -> usize
    ensures { result ≡ step_to s.now at }
{
    if s.len() <= at {
        return at;
    }
    at + 1 + body_length(s[at] as u64)
}

// How many whole exchanges stand in a row from an offset on, but no more than `most`: counted one by one, where `known` stand there anyway.
fn few_from(s: &[u8], at: usize, known: usize, most: usize) -> usize
    requires { (at ≤ length s.now) × (known ≤ exchanges_from s.now at) × (known ≤ most) }
    ensures { result ≡ min most (exchanges_from s.now at) }
{
    for count in known..most {
        let here = at + 2 * count;
        // A kind without its byte is no whole exchange.
        if s.len() - here < 2 {
            return count;
        }
        if s[here] != Kind::Exchange as u8 {
            return count;
        }
    }
    most
}

// Whether the pairs of a block are exchanges, all of them. There is no way out of the loop, so that the compiler takes eight pairs at once.
fn are_exchanges(block: &[u8]) -> bool
    ensures { result ≡ leb (length block.now / 2) (exchanges_from block.now 0) }
{
    let mut odd: u16 = 0;
    for pair in block.chunks_exact(2) {
        // The kind is the low byte, and the body the high one, which drops out at the end.
        // Stays: a sum and no `from_le_bytes`, since a pair has to become one lane of a vector.
        odd |= ((pair[0] as u16) + 256 * (pair[1] as u16)) ^ (Kind::Exchange as u16);
    }
    odd % 256 == 0
}

// How many exchanges stand in a row from an offset on, counted in blocks of n, where `known` stand there anyway: fewer than n are left.
#[tactic(auto, using(crate::proofs::RowLaws::row_inside))]
fn blocks_from(s: &[u8], at: usize, known: usize, n: usize) -> usize
    requires { (at ≤ length s.now) × (known ≤ exchanges_from s.now at) × (0 < n) × (n ≤ 64) }
    ensures { (result ≤ exchanges_from s.now at) × (exchanges_from s.now at < result + n) }
{
    let mut count = known;
    for block in s[at + 2 * known..].chunks_exact(2 * n) {
        // Where the last kind of a block is no exchange, the row ends in this block.
        if block[2 * n - 2] != Kind::Exchange as u8 {
            return count;
        }
        if !are_exchanges(block) {
            return count;
        }
        count += n;
    }
    count
}

// How many whole exchanges stand in a row from an offset of a script on. Most rows are short or long: the first four are counted one by one, then 64 at a time, then 16.
pub fn exchanges_from(s: &[u8], at: usize) -> usize
    ensures { result ≡ exchanges_from s.now at }
{
    if s.len() <= at {
        return 0;
    }
    let first = few_from(s, at, 0, 4);
    if first < 4 {
        return first;
    }
    let large = blocks_from(s, at, first, 64);
    let small = blocks_from(s, at, large, 16);
    few_from(s, at, small, small + 16)
}
