// The worked example P9 and a byte of the SFDP area twice over, event by event: on a chip that is lent, and on one
// passed by value.
#![tactic(auto)]

use chip::{Chip, Record};
use kinds::Kind;

// Write enable, then a small sector erase at cell 4,096.
const ERASE: [(Kind, u8); 9] = [
    (Kind::Select, 0),
    (Kind::Exchange, 0x06),
    (Kind::Deselect, 0),
    (Kind::Select, 0),
    (Kind::Exchange, 0x20),
    (Kind::Exchange, 0x00),
    (Kind::Exchange, 0x10),
    (Kind::Exchange, 0x00),
    (Kind::Deselect, 0),
];

// 15 ticks, then a read of the status byte.
const FIFTEEN_TICKS: [(Kind, u8); 4] = [
    (Kind::Ticks, 15),
    (Kind::Select, 0),
    (Kind::Exchange, 0x05),
    (Kind::Exchange, 0x00),
];

// The end of that frame, one tick more, and another read.
const ONE_TICK: [(Kind, u8); 5] = [
    (Kind::Deselect, 0),
    (Kind::Tick, 0),
    (Kind::Select, 0),
    (Kind::Exchange, 0x05),
    (Kind::Exchange, 0x00),
];

// The end of the frame before, and the first byte of the area by 5Ah: an address and a byte more come before it.
const READ_AREA: [(Kind, u8); 8] = [
    (Kind::Deselect, 0),
    (Kind::Select, 0),
    (Kind::Exchange, 0x5A),
    (Kind::Exchange, 0x00),
    (Kind::Exchange, 0x00),
    (Kind::Exchange, 0x00),
    (Kind::Exchange, 0x00),
    (Kind::Exchange, 0x00),
];

// The two chips; whether all answers were the same so far; and what the last event said.
#[derive(Clone, Copy)]
struct Pair {
    lent: Chip,
    given: Chip,
    same: bool,
    said: Record,
}

// One event on both chips, each over its own memory.
fn apply(
    pair: Pair,
    mem: &mut [u8],
    twin: &mut [u8],
    area: &[u8; 208],
    kind: Kind,
    body: u8,
) -> Pair {
    let a = lent::event_by_lending(pair.lent, mem, area, kind as u64, body as u64);
    let b = event::event(pair.given, twin, area, kind as u64, body as u64);
    let same = pair.same & (a == b);
    match (a, b) {
        (Ok(lent), Ok(given)) => Pair {
            lent: lent.chip,
            given: given.chip,
            same,
            said: lent.said,
        },
        _ => Pair {
            same,
            said: Record::Nothing,
            ..pair
        },
    }
}

// Some events, each a kind and its body.
fn play(
    pair: Pair,
    mem: &mut [u8],
    twin: &mut [u8],
    area: &[u8; 208],
    events: &[(Kind, u8)],
) -> Pair {
    let mut next = pair;
    for (kind, body) in events {
        next = apply(next, mem, twin, area, *kind, *body);
    }
    next
}

// A word, with "not" before it where it does not hold.
fn say(holds: bool, word: &[u8]) {
    if !holds {
        io::write_all(1, b"not ");
    }
    // Stays: std's `println!` rests on C's errno and strerror besides its write, and nothing new may be trusted.
    io::write_all(1, word);
}

// The byte that was read, by its name, and whether lent and by value came to the same answers and memories.
fn report(name: &[u8], pair: Pair, memories: bool) {
    io::write_all(1, name);
    match pair.said {
        Record::Driven(byte) => io::print_hex(1, byte as u64, 2),
        _ => io::write_all(1, b"--"),
    };
    io::write_all(1, b", lent and by value ");
    say(pair.same & memories, b"the same\n");
}

fn main() {
    let mut mem = [90u8; 65536];
    let mut twin = [90u8; 65536];
    let old = [90u8; 256];
    let blank = [255u8; 4096];
    let area = part::own_area().bytes;
    let chip = Chip::fresh(0);
    let fresh = Pair {
        lent: chip,
        given: chip,
        same: true,
        said: Record::Nothing,
    };
    let begun = play(fresh, &mut mem, &mut twin, &area, &ERASE);
    io::write_all(1, b"erase: ");
    say(begun.said == Record::Verdict(2), b"begun\n");

    let fifteen = play(begun, &mut mem, &mut twin, &area, &FIFTEEN_TICKS);
    io::write_all(1, b"15 ticks: last 256 bytes ");
    say(check::same(&mem[7936..8192], &old), b"old, ");
    report(b"status ", fifteen, check::same(&mem, &twin));

    let sixteen = play(fifteen, &mut mem, &mut twin, &area, &ONE_TICK);
    io::write_all(1, b"16 ticks: sector ");
    say(check::same(&mem[4096..8192], &blank), b"blank, ");
    report(b"status ", sixteen, check::same(&mem, &twin));

    let first = play(sixteen, &mut mem, &mut twin, &area, &READ_AREA);
    io::write_all(1, b"SFDP: ");
    report(b"first byte ", first, check::same(&mem, &twin));
}
