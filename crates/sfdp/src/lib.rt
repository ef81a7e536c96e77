// The reader of an SFDP area: which parameter table a header of an identity points at.
#![tactic(auto)]

ghost use Rattle.std.specs.Prelude.{ℕ, ◌≡◌, ◌+◌, ◌≤◌, ◌<◌, MatchOption};
ghost use Rattle.sfdp.specs.Reader.{header_count, header_at, table_length, table_place, header_of, found_as, found_of, table_of};

use part::Part;
use refusal::Refusal;

// A parameter table: where it begins in the area, and its length in bytes.
#[derive(Clone, Copy)]
pub struct TableAt {
    pub place: usize,
    pub length: usize,
}

// The number of the last header, counted from 0: byte 6.
fn last_header(area: &[u8]) -> u8
    ensures { result + 1 ≡ header_count area.now }
{
    cells::byte_at(area, 6)
}

// Where a header begins: eight bytes each, from 08h on.
fn header_at(i: u8) -> usize
    ensures { (result ≡ header_at i) × (result ≤ 2048) }
{
    8 + 8 * (i as usize)
}

// The first header of an identity.
fn header_of(area: &[u8], identity: u8) -> Option<u8>
    ensures { MatchOption result (header_of area.now identity ≡ header_count area.now) (λ (i : ℕ). (header_of area.now identity ≡ i) × (i < header_count area.now)) }
{
    for i in 0..=last_header(area) {
        if cells::byte_at(area, header_at(i)) == identity {
            return Some(i);
        }
    }
    None
}

// The table of a header: the place in three bytes, the low one first, and the length in words of four bytes.
fn table_at(area: &[u8], i: u8) -> TableAt
    ensures { (result.place ≡ table_place area.now i) × (result.length ≡ table_length area.now i) × (result.place < 16777216) × (result.length ≤ 1020) }
{
    let at = header_at(i);
    let low = cells::byte_at(area, at + 4);
    let middle = cells::byte_at(area, at + 5);
    let high = cells::byte_at(area, at + 6);
    TableAt {
        place: u32::from_le_bytes([low, middle, high, 0]) as usize,
        length: 4 * (cells::byte_at(area, at + 3) as usize),
    }
}

// Where the table of an identity stands in an area, or what refuses it.
pub fn find_table(area: &[u8], identity: u8) -> Result<TableAt, Refusal>
    ensures { found_as result ≡ found_of area.now identity }
{
    if Part::LONGEST_AREA < area.len() {
        return Err(Refusal::LongArea);
    }
    if !area.starts_with(b"SFDP") {
        return Err(Refusal::Unsigned);
    }
    if area.len() < 8 {
        return Err(Refusal::CutHeaders);
    }
    if area.len() < header_at(last_header(area)) + 8 {
        return Err(Refusal::CutHeaders);
    }
    let Some(i) = header_of(area, identity) else {
        return Err(Refusal::NoHeader);
    };
    let found = table_at(area, i);
    if area.len() < found.place + found.length {
        return Err(Refusal::TableOutside);
    }
    Ok(found)
}

// The table of an identity: that piece of the caller's own bytes, and none of them if refused.
pub fn table(area: &[u8], identity: u8) -> &[u8]
    ensures { result.now ≡ table_of area.now identity }
{
    match find_table(area, identity) {
        Ok(found) => &area[found.place..found.place + found.length],
        Err(_) => &area[..0],
    }
}
