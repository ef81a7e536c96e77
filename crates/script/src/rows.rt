// Stretches of a script that are taken in one go: a row of data bytes of a read of cells or of a page load, and whole frames of reads.
ghost use Rattle.std.specs.Prelude.{true, false, IfSome, MatchOption, List, ◌≡◌, ℕ, ◌+◌, ◌*◌, ◌≤◌, ◌<◌, length, get_or};
ghost use Rattle.cells.specs.Put.{Put};
ghost use Rattle.part.specs.Part.{setting, length_of};
ghost use Rattle.kinds.specs.Kinds.{SELECT, EXCHANGE};
ghost use Rattle.kinds.specs.Row.{exchanges_from};
ghost use Rattle.chip.specs.declared.Core.{Core as CoreValue};
ghost use Rattle.chip.specs.declared.Frame.{Frame as FrameValue};
ghost use Rattle.chip.specs.Chip.{whole, empty_frame, blank_load};
ghost use Rattle.frame.specs.Stream.{place_on, count_on, read_on, cells_on, cells_up, load_on};
ghost use Rattle.script.specs.Heard.{Known, Ready, Went, Reading, floats, loaded_on, header_of, first_cell, WholeRead, can_read, frame_records};

use crate::put;
use chip::{Core, DRIVEN, FLOATING, Frame, VERDICT};
use commands::Command;
use kinds::Kind;

// A row of exchanges in a script: where it starts, and how many there are.
#[derive(Clone, Copy)]
pub struct Row {
    pub at: usize,
    pub count: usize,
}

// Where a stretch has led: the frame, and where script and output go on.
// Stays: output and place are two parameters, here and in `put`; by an `Output` each of the laws of stretches (`put_then`, `went_as`, `reads_more`) would be said once more, of what it holds.
#[derive(Clone, Copy)]
pub struct Onward {
    pub frame: Frame,
    pub at: usize,
    pub pos: usize,
}

// The same without a frame.
#[derive(Clone, Copy)]
struct Place {
    at: usize,
    pos: usize,
}

// A whole frame of a read: the bytes of its header, and all its exchanges.
#[derive(Clone, Copy)]
struct WholeFrame {
    header: usize,
    count: usize,
}

// A script that can be played, with its longest row of exchanges, which has been counted.
#[derive(Clone, Copy)]
pub struct Script<'a> {
    pub bytes: &'a [u8],
    pub longest: Row,
    ghost short: { length bytes.now ≤ 65536 },
    ghost known: { Known bytes.now longest },
    ghost fits: { (i : ℕ) → get_or bytes.now i 0 < 256 },
}

impl Script<'_> {
    // How many exchanges stand in a row at an offset.
    fn row_from(self, at: usize) -> usize
        ensures { result ≡ exchanges_from self.entry.bytes.now at }
    {
        if at == self.longest.at {
            return self.longest.count;
        }
        kinds::exchanges_from(self.bytes, at)
    }
}

// Stores the records of n cells from a place up.
fn put_cells(out: &mut [u8], pos: usize, mem: &[u8], place: usize, n: usize)
    requires { (pos + 2 * n ≤ length out.old) × (place + n ≤ length mem.now) }
    ensures { Put out.old pos (cells_up mem.now place n) (pos + 2 * n) out.new }
{
    for i in 0..n {
        out[pos + 2 * i] = DRIVEN;
        out[pos + 2 * i + 1] = mem[place + i];
    }
}

// Stores the records of n cells from a place on, after the last cell those from 0; the answer is the place behind them.
fn put_row(out: &mut [u8], pos: usize, mem: &[u8], place: usize, n: usize) -> usize
    requires { (pos + 2 * n ≤ length out.old) × (place < length mem.now) × (n ≤ length mem.now) }
    ensures { Put out.old pos (cells_on mem.now (length mem.now) place n) result out.new }
{
    let top = mem.len() - place;
    if n <= top {
        put_cells(out, pos, mem, place, n);
        return pos + 2 * n;
    }
    put_cells(out, pos, mem, place, top);
    put_cells(out, pos + 2 * top, mem, 0, n - top);
    pos + 2 * n
}

// The read place n places on, of so many cells.
// Stays: place, number and cells of a row are asked for here and in three functions below, each its own part; a struct of them would be made at each call.
fn place_on(cells: usize, place: usize, n: usize) -> usize
    requires { (place < cells) × (n ≤ cells) × (cells ≤ 4294967296) }
    ensures { result ≡ place_on cells place n }
{
    let up = place + n;
    if up < cells { up } else { up - cells }
}

// The byte count n bytes on.
#[tactic(auto, using(frame::specs::RowLaws::count_as))]
fn count_on(count: u8, n: usize) -> u8
    requires { (0 < n) × (n ≤ 65536) }
    ensures { result ≡ count_on count n }
{
    (count as usize + n).min(6) as u8
}

// The frame after n data bytes of a read.
fn read_on(frame: Frame, cells: usize, n: usize) -> Frame
    requires { (frame.place < cells) × (0 < n) × (n ≤ cells) × (n ≤ 65536) × (cells ≤ 4294967296) }
    ensures { result ≡ read_on cells n frame }
{
    Frame {
        place: place_on(cells, frame.place, n),
        count: count_on(frame.count, n),
        ..frame
    }
}

// How many bytes of a read come before its cells: the opcode and the address, and for 0Bh a dummy; none for an opcode that reads no cells.
fn header_of(opcode: u8) -> Option<usize>
    ensures { MatchOption result (header_of opcode ≡ 0) (λ n. (n ≡ header_of opcode) × (4 ≤ n) × (n ≤ 5)) }
{
    match opcode {
        Command::LOW_POWER_READ => Some(4),
        Command::HIGH_SPEED_READ => Some(5),
        _ => None,
    }
}

// Whether a read that stands whole in the script leaves the chip as it is: no frame is open, it is awake and runs no job, and there is no reset to disarm.
fn can_read(core: Core, frame: Frame) -> bool
    ensures { result ≡ can_read core frame }
{
    let runs = chip::is_running(core);
    !frame.selected & (frame.count == 0) & !core.deep & !core.armed & !runs
}

// The whole frame of a read that stands at an offset. Its opcode is looked at first: most frames read no cells.
#[tactic(auto, using(kinds::proofs::RowLaws::row_inside))]
fn whole_read(script: Script, at: usize) -> Option<WholeFrame>
    requires { at ≤ length script.bytes.now }
    ensures { IfSome result (λ found. WholeRead script.entry.bytes.now at found.header found.count) }
{
    let bytes = script.bytes;
    if bytes.len() < at + 3 {
        return None;
    }
    let header = header_of(bytes[at + 2])?;
    if bytes[at] as u64 != Kind::Select as u64 {
        return None;
    }
    let count = script.row_from(at + 1);
    let end = at + 1 + 2 * count;
    if (count < header) | (bytes.len() < end + 2) {
        return None;
    }
    if bytes[end] as u64 != Kind::Deselect as u64 {
        return None;
    }
    Some(WholeFrame { header, count })
}

// The cell at which a read begins, by the address in its header.
fn first_cell(sectors: u8, script: &[u8], at: usize) -> usize
    requires { at + 9 ≤ length script.now }
    ensures { result ≡ first_cell sectors script.now at }
{
    let high = script[at + 4];
    let middle = script[at + 6];
    let low = script[at + 8];
    part::cell_of(sectors, u32::from_be_bytes([0, high, middle, low]))
}

// Stores the records of a header, in which the line floats; the answer is the place behind them. Each of the two lengths is a
// constant, so that a header is stored at once.
fn put_header(out: &mut [u8], pos: usize, n: usize) -> usize
    requires { (4 ≤ n) × (n ≤ 5) × (pos + n ≤ length out.old) }
    ensures { Put out.old pos (floats n) result out.new }
{
    if n == 5 {
        put_floats(out, pos, 5)
    } else {
        put_floats(out, pos, 4)
    }
}

// Stores the records of a whole frame of a read at an offset; the answer is the place behind them.
fn put_frame(
    out: &mut [u8],
    pos: usize,
    mem: &[u8],
    sectors: u8,
    script: &[u8],
    at: usize,
    frame: WholeFrame,
) -> usize
    requires { WholeRead script.now at frame.header frame.count × (length_of sectors ≡ length mem.now) × (0 < length mem.now) × (frame.count ≤ length mem.now) × (pos + length (frame_records sectors script.now mem.now at frame.header frame.count) ≤ length out.old) }
    ensures { Put out.old pos (frame_records sectors script.now mem.now at frame.header frame.count) result out.new }
{
    let data = put_header(out, pos, frame.header);
    let end = put_row(
        out,
        data,
        mem,
        first_cell(sectors, script, at),
        frame.count - frame.header,
    );
    out[end] = VERDICT;
    out[end + 1] = 0;
    end + 2
}

// Stores the records of the whole frames of reads that stand one behind the other from an offset on: where script and output go on.
fn read_frames(
    mem: &[u8],
    sectors: u8,
    script: Script,
    at: usize,
    out: &mut [u8],
    pos: usize,
) -> Place
    requires { Ready sectors script.bytes.now mem.now out.old at pos }
    ensures { (area load held : List ℕ) (k : CoreValue) (f : FrameValue) → can_read k f ≡ true → Reading (setting sectors area) script.entry.bytes.now mem.now at (whole k f load held) out.old pos
        result.at (whole k empty_frame blank_load held) out.new result.pos }
{
    let mut here = at;
    let mut end = pos;
    while let Some(found) = whole_read(script, here) {
        end = put_frame(out, end, mem, sectors, script.bytes, here, found);
        here += 3 + 2 * found.count;
    }
    Place { at: here, pos: end }
}

// A select: the whole frames of reads that stand there, or else the opened frame.
pub fn select(
    core: Core,
    frame: Frame,
    load: &mut [u8; 256],
    mem: &[u8],
    sectors: u8,
    script: Script,
    at: usize,
    out: &mut [u8],
    pos: usize,
) -> Onward
    requires { Ready sectors script.bytes.now mem.now out.old at pos × (get_or script.bytes.now at 0 ≡ SELECT) }
    ensures { (area held : List ℕ) → Went (setting sectors area) script.entry.bytes.now mem.now at (whole core frame load.old held) out.old pos
        result.at (whole core result.frame load.new held) out.new result.pos }
{
    let opened = Onward {
        frame: Frame {
            selected: true,
            ..frame
        },
        at: at + 1,
        pos,
    };
    if !can_read(core, frame) {
        return opened;
    }
    let reads = read_frames(mem, sectors, script, at, out, pos);
    if reads.at == at {
        return opened;
    }
    *load = [255; 256];
    Onward {
        frame: chip::empty_frame(),
        at: reads.at,
        pos: reads.pos,
    }
}

// The row of n data bytes of a read.
fn read_row(frame: Frame, mem: &[u8], at: usize, out: &mut [u8], pos: usize, n: usize) -> Onward
    requires { (frame.place < length mem.now) × (0 < n) × (n ≤ length mem.now) × (at + 2 * n ≤ 65536) × (length mem.now ≤ 2097152) × (pos + 2 * n ≤ length out.old) }
    ensures { (result.frame ≡ read_on (length mem.now) n frame) × (result.at ≡ at + 2 * n) × Put out.old pos (cells_on mem.now (length mem.now) frame.place n) result.pos out.new }
{
    Onward {
        frame: read_on(frame, mem.len(), n),
        at: at + 2 * n,
        pos: put_row(out, pos, mem, frame.place, n),
    }
}

// Stores n floating bytes; the answer is the place behind them.
fn put_floats(out: &mut [u8], pos: usize, n: usize) -> usize
    requires { pos + n ≤ length out.old }
    ensures { Put out.old pos (floats n) result out.new }
{
    out[pos..pos + n].fill(FLOATING);
    pos + n
}

// Takes the bytes of n exchanges into a load, from a load place on, the last followed by 0.
fn take_row(load: &mut [u8; 256], slot: u8, script: Script, at: usize, n: usize)
    requires { at + 2 * n ≤ length script.bytes.now }
    ensures { load.new ≡ loaded_on script.entry.bytes.now at slot n load.old }
{
    let first = slot as usize;
    for i in 0..n {
        load[(first + i) % 256] = script.bytes[at + 2 * i + 1];
    }
}

// The row of n data bytes of a page load.
#[tactic(auto, using(frame::specs::RowLaws::slot_as))]
fn load_row(
    frame: Frame,
    load: &mut [u8; 256],
    script: Script,
    at: usize,
    out: &mut [u8],
    pos: usize,
    n: usize,
) -> Onward
    requires { (0 < n) × (at + 2 * n ≤ length script.bytes.now) × (pos + n ≤ length out.old) }
    ensures { (result.frame ≡ load_on n frame) × (result.at ≡ at + 2 * n) × (load.new ≡ loaded_on script.entry.bytes.now at frame.slot n load.old) × Put out.old pos (floats n) result.pos out.new }
{
    take_row(load, frame.slot, script, at, n);
    Onward {
        frame: Frame {
            slot: ((frame.slot as usize + n) % 256) as u8,
            count: count_on(frame.count, n),
            ..frame
        },
        at: at + 2 * n,
        pos: put_floats(out, pos, n),
    }
}

// An exchange: the row of all data bytes from here on, or else one.
// Stays: what is lent goes by itself, since `play` lends load and output to other calls between, so that a struct of them would be made anew for each exchange.
pub fn hear(
    core: Core,
    frame: Frame,
    load: &mut [u8; 256],
    mem: &[u8],
    sectors: u8,
    area: &[u8],
    script: Script,
    at: usize,
    out: &mut [u8],
    pos: usize,
) -> Onward
    requires { Ready sectors script.bytes.now mem.now out.old at pos × (get_or script.bytes.now at 0 ≡ EXCHANGE) }
    ensures { (held : List ℕ) → Went (setting sectors area.now) script.entry.bytes.now mem.now at (whole core frame load.old held) out.old pos
        result.at (whole core result.frame load.new held) out.new result.pos }
{
    if frame::streams(frame) {
        if commands::is_program(frame.opcode) {
            let n = script.row_from(at);
            return load_row(frame, load, script, at, out, pos, n);
        }
        if frame.place < mem.len() {
            let n = script.row_from(at);
            return read_row(frame, mem, at, out, pos, n);
        }
    }
    let e = frame::exchange(core, frame, load, mem, sectors, area, script.bytes[at + 1]);
    Onward {
        frame: e.frame,
        at: at + 2,
        pos: put(out, pos, e.said),
    }
}
