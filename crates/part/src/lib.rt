// The LE25S161: its sizes, its identity and its protection, each named here once; its SFDP area has a file of its own.
#![tactic(auto)]

ghost use Rattle.std.specs.Prelude.{◌≡◌, ◌≤◌};
ghost use Rattle.part.specs.Part.{reduced, sectors_if, length_of, jedec_byte};
ghost use Rattle.part.specs.Area.{area_byte, own_area};
ghost use Rattle.part.specs.Protection.{protected_count, protected_sectors, protects, protects_any};

mod sfdp;

// An SFDP area of the part's own length.
#[derive(Clone, Copy)]
pub struct OwnArea {
    pub bytes: [u8; 208],
}

// The first and the last of the protected sectors: all from the one to the other are.
#[derive(Clone, Copy, PartialEq, Eq)]
pub struct Ends {
    pub first: u8,
    pub last: u8,
}

// The part's own numbers are constants of this type; it holds nothing.
#[derive(Clone, Copy)]
pub struct Part {}

impl Part {
    pub const PAGE: usize = 256;

    pub const SMALL_SECTOR: usize = 4096;

    pub const SECTOR: usize = 65536;

    // The identity that 9Fh drives, byte by byte, in a cycle, and the cycle's length.
    const JEDEC: [u8; 4] = [0x62, 0x16, 0x15, 0x00];

    pub const JEDEC_CYCLE: usize = 4;
    // The identity that ABh drives.
    pub const DEVICE: u8 = 0x88;

    // The longest SFDP area, and how many places 5Ah can name.
    pub const LONGEST_AREA: usize = 256;

    pub const AREA_PLACES: usize = 16777216;
}

// The number of sectors of a memory of n cells, if a part has that length.
#[tactic(auto, unfolding(crate::specs::Part::permitted))]
pub fn sectors_of(n: usize) -> Option<u8>
    ensures { result ≡ sectors_if n }
{
    match n {
        65536 => Some(1),
        131072 => Some(2),
        262144 => Some(4),
        524288 => Some(8),
        1048576 => Some(16),
        2097152 => Some(32),
        _ => None,
    }
}

// The number of cells of a part of `sectors` sectors.
pub fn length_of(sectors: u8) -> usize
    ensures { (result ≡ length_of sectors) × (result ≤ 16711680) }
{
    (sectors as usize) * Part::SECTOR
}

// The cell that an address means on a part of `sectors` sectors.
pub fn cell_of(sectors: u8, address: u32) -> usize
    ensures { result ≡ reduced sectors address }
{
    let n = length_of(sectors);
    let cell = address as usize;
    // Most addresses are cells: these need no division.
    if cell < n {
        return cell;
    }
    cell.checked_rem(n).unwrap_or(cell)
}

// Byte i of the identity that 9Fh drives.
pub fn jedec_byte(i: usize) -> u8
    ensures { result ≡ jedec_byte i }
{
    cells::byte_at(&Part::JEDEC, i)
}

// What stands at a place of an SFDP area: FFh at and past its end.
// Stays: `cells::byte_at` with another byte past the end, which one function for both would be handed at each call.
pub fn area_byte(area: &[u8], place: usize) -> u8
    ensures { result ≡ area_byte area.now place }
{
    area.get(place).copied().unwrap_or(0xFF)
}

// The part's own SFDP area, for a bench to lend.
#[tactic(auto, unfolding(crate::specs::Area::own_area))]
pub fn own_area() -> OwnArea
    ensures { result ≡ record { bytes = own_area } }
{
    OwnArea { bytes: Part::SFDP }
}

// How many of `sectors` sectors a level protects: a power of two, as far as there are so many; from 6 on all.
#[tactic(auto, unfolding(crate::specs::Protection::protected_count))]
fn protected_count(level: u8, sectors: u8) -> u8
    ensures { (result ≡ protected_count level sectors) × (result ≤ sectors) }
{
    match level {
        0 => 0,
        1..=5 => sectors.min(1 << (level - 1)),
        _ => sectors,
    }
}

// The protect test: the two ends of the protected sectors, from level, TB and the number of sectors.
#[tactic(auto, unfolding(crate::specs::Protection::protected_sectors))]
pub fn protected_sectors(level: u8, tb: bool, sectors: u8) -> Option<Ends>
    ensures { result ≡ protected_sectors level tb sectors }
{
    let count = protected_count(level, sectors);
    if count == 0 {
        return None;
    }
    Some(if tb {
        Ends {
            first: 0,
            last: count - 1,
        }
    } else {
        Ends {
            first: sectors - count,
            last: sectors - 1,
        }
    })
}

// Whether sector x is among the protected ones: one comparison with their two ends.
pub fn protects(range: Option<Ends>, x: usize) -> bool
    ensures { result ≡ protects range x }
{
    match range {
        None => false,
        Some(ends) => ((ends.first as usize) <= x) & (x <= (ends.last as usize)),
    }
}

// Whether there is any protected sector.
pub fn protects_any(range: Option<Ends>) -> bool
    ensures { result ≡ protects_any range }
{
    range.is_some()
}
