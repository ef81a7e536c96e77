// A frame: the judgement at its opcode byte, and one exchange.
#![tactic(auto)]

ghost use Rattle.std.specs.Prelude.{◌≡◌, ◌%◌, ◌*◌, ◌+◌, ◌<◌};
ghost use Rattle.part.specs.Part.{setting};
ghost use Rattle.chip.specs.declared.Record.{Record};
ghost use Rattle.frame.specs.Frame.{judge, counted, shifted, next_place, next_slot, opened, counting, reading, loading, first_place, addressing, reads_cell, takes_data, reads_area, exchange, taken, exchanged};
ghost use Rattle.frame.specs.Stream.{is_data, streams, streamed};

use chip::{Core, Frame, Record};
use commands::Command;
use part::Part;

// What an exchange says, and the frame that it leaves.
#[derive(Clone, Copy)]
pub struct Exchanged {
    pub said: Record,
    pub frame: Frame,
}

// The judgement of an opcode: 3, 5, 6, 7, or 0 for none.
// Stays: a judgement is a byte of the state, and `legal` has to answer for every byte that C hands in.
#[tactic(auto, using(commands::specs::Laws::row_none, commands::specs::Laws::row_some), unfolding(crate::specs::Frame::judge))]
pub fn judge(core: Core, opcode: u8) -> u8
    ensures { result ≡ judge core opcode }
{
    let Some(row) = commands::row_of(opcode) else {
        return 3;
    };
    if core.deep & !(opcode == Command::WAKE) {
        return 5;
    }
    let runs = chip::is_running(core);
    if runs & !row.running {
        return 6;
    }
    if core.suspended & !row.suspended {
        return 7;
    }
    0
}

// One more byte, up to 6 for six or more.
fn count_up(n: u8) -> u8
    ensures { result ≡ counted n }
{
    n.min(5) + 1
}

// The place after `place` in a row of n places.
fn place_up(n: usize, place: usize) -> usize
    ensures { result ≡ next_place n place }
{
    if place < n.saturating_sub(1) {
        return place + 1;
    }
    0
}

// The load place after `slot`.
fn slot_up(slot: u8) -> u8
    ensures { result ≡ next_slot slot }
{
    slot.wrapping_add(1)
}

// The address with one more byte shifted in.
fn shift_in(address: u32, b: u8) -> u32
    ensures { result ≡ shifted address b }
{
    address % 65536 * 256 + (b as u32)
}

// The frame with its opcode byte, judged.
fn begin(core: Core, b: u8, f: Frame) -> Frame
    ensures { result ≡ opened core b f }
{
    Frame {
        opcode: b,
        count: count_up(f.count),
        judgement: judge(core, b),
        ..f
    }
}

// The frame with one more byte, which is only counted.
fn count(f: Frame) -> Frame
    ensures { result ≡ counting f }
{
    Frame {
        count: count_up(f.count),
        ..f
    }
}

// The frame with one more byte of a read from a row of n places.
fn read(n: usize, f: Frame) -> Frame
    ensures { result ≡ reading n f }
{
    Frame {
        place: place_up(n, f.place),
        ..count(f)
    }
}

// The frame with one more data byte of a page program.
fn load_up(f: Frame) -> Frame
    ensures { result ≡ loading f }
{
    Frame {
        slot: slot_up(f.slot),
        ..count(f)
    }
}

// The read place that an address sets: 5Ah takes the address as it is.
fn first_place(sectors: u8, opcode: u8, address: u32) -> usize
    ensures { result ≡ first_place sectors opcode address }
{
    if opcode == Command::READ_SFDP {
        return address as usize;
    }
    part::cell_of(sectors, address)
}

// The frame with one more byte of its address, if that is not whole; the last one sets both places.
fn address(sectors: u8, b: u8, f: Frame) -> Frame
    ensures { result ≡ addressing sectors b f }
{
    let next = count(f);
    if 4 <= f.count {
        return next;
    }
    let address = shift_in(f.address, b);
    if f.count == 3 {
        return Frame {
            address,
            place: first_place(sectors, f.opcode, address),
            slot: b,
            ..next
        };
    }
    Frame { address, ..next }
}

// Whether the next byte is a cell.
fn reads_cell(f: Frame) -> bool
    ensures { result ≡ reads_cell f }
{
    ((f.opcode == Command::LOW_POWER_READ) & (4 <= f.count))
        | ((f.opcode == Command::HIGH_SPEED_READ) & (5 <= f.count))
}

// Whether it is data of a page program.
fn takes_data(f: Frame) -> bool
    ensures { result ≡ takes_data f }
{
    commands::is_program(f.opcode) & (4 <= f.count)
}

// Whether it is a byte of the SFDP area.
fn reads_area(f: Frame) -> bool
    ensures { result ≡ reads_area f }
{
    (f.opcode == Command::READ_SFDP) & (5 <= f.count)
}

// The line left floating.
fn floats(f: Frame) -> Exchanged
    ensures { result ≡ record { said = Record.Floating; frame = f } }
{
    Exchanged {
        said: Record::Floating,
        frame: f,
    }
}

// The byte driven.
fn drives(b: u8, f: Frame) -> Exchanged
    ensures { result ≡ record { said = Record.Driven b; frame = f } }
{
    Exchanged {
        said: Record::Driven(b),
        frame: f,
    }
}

// Whether it is a data byte of either kind.
fn is_data(f: Frame) -> bool
    ensures { result ≡ is_data f }
{
    reads_cell(f) | takes_data(f)
}

// Whether the next byte is a data byte of a read of cells or of a page load.
pub fn streams(f: Frame) -> bool
    ensures { result ≡ streams f }
{
    f.selected & (f.judgement == 0) & is_data(f)
}

// A data byte of a read of cells or of a page load: it asks nothing of the core.
#[tactic(auto, unfolding(crate::specs::Stream::streamed))]
fn stream(f: Frame, load: &mut [u8; 256], mem: &[u8], sectors: u8, b: u8) -> Exchanged
    ensures { exchange result.said result.frame load.new ≡ streamed sectors f load.old mem.now b }
{
    if commands::is_program(f.opcode) {
        load[f.slot as usize] = b;
        return floats(load_up(f));
    }
    drives(
        cells::byte_at(mem, f.place),
        read(part::length_of(sectors), f),
    )
}

// Byte 2 and up of a frame with judgement none.
#[tactic(auto, using(crate::specs::StreamLaws::no_cell, crate::specs::StreamLaws::no_load), unfolding(crate::specs::Frame::taken))]
fn take(
    core: Core,
    f: Frame,
    load: &mut [u8; 256],
    mem: &[u8],
    sectors: u8,
    area: &[u8],
    b: u8,
) -> Exchanged
    ensures { exchange result.said result.frame load.new ≡ taken (setting sectors area.now) core f load.old mem.now b }
{
    if is_data(f) {
        return stream(f, load, mem, sectors, b);
    }
    if f.opcode == Command::READ_STATUS {
        return drives(chip::status_byte(core), count(f));
    }
    if f.opcode == Command::JEDEC_ID {
        return drives(part::jedec_byte(f.place), read(Part::JEDEC_CYCLE, f));
    }
    if (f.opcode == Command::WAKE) & (4 <= f.count) {
        return drives(Part::DEVICE, count(f));
    }
    if reads_area(f) {
        return drives(part::area_byte(area, f.place), read(Part::AREA_PLACES, f));
    }
    floats(address(sectors, b, f))
}

// One exchange of byte b.
#[tactic(auto, unfolding(crate::specs::Frame::exchanged))]
pub fn exchange(
    core: Core,
    f: Frame,
    load: &mut [u8; 256],
    mem: &[u8],
    sectors: u8,
    area: &[u8],
    b: u8,
) -> Exchanged
    ensures { exchange result.said result.frame load.new ≡ exchanged (setting sectors area.now) core f load.old mem.now b }
{
    if !f.selected {
        return floats(f);
    }
    if f.count == 0 {
        return floats(begin(core, b, f));
    }
    if f.judgement != 0 {
        return floats(count(f));
    }
    take(core, f, load, mem, sectors, area, b)
}
