// The script writer: from bytes and an address to the events that program them.
#![tactic(auto)]

ghost use Rattle.std.specs.Prelude.{◌≡◌, [], ◌∷◌, ◌++◌, ◌+◌, ◌*◌, ◌^◌, ◌<◌, ◌≤◌, min, length, drop};
ghost use Rattle.cells.specs.Output.{Puts, room};
ghost use Rattle.writer.specs.Writer.{piece, left_in_page, exchanges_of, clean_deselect, frame_of, ticks_of, piece_script, program_script, piece_count, script_length, longest_data, told, written_as, refusal, answer_of, output_of};

use cells::output::Output;
use commands::Command;
use kinds::Kind;
use part::Part;
use refusal::Refusal;

// The most bytes that one script programs.
pub const LONGEST_DATA: usize = 4096;

// The length of the longest script, 4,096 bytes in 17 pieces: an output of that length has room for every script (`longest_is`).
pub const LONGEST_SCRIPT: usize = 8515;

// The ticks that a page program takes, one a step.
const PROGRAM_TICKS: u16 = 16;

// Puts an exchange for each byte.
fn put_exchanges(out: &mut Output, bytes: &[u8])
    requires { 2 * length bytes.now ≤ room out.old }
    ensures { Puts out.old (exchanges_of bytes.now) out.new }
{
    for byte in bytes {
        out.push(Kind::Exchange as u8);
        out.push(*byte);
    }
}

// Puts a deselect on the byte boundary: no bit is loose.
fn put_deselect(out: &mut Output)
    requires { 2 ≤ room out.old }
    ensures { Puts out.old clean_deselect out.new }
{
    out.push(Kind::Deselect as u8);
    out.push(0);
}

// Puts a frame: a select, the exchanges of a command and of its bytes, a deselect.
fn put_frame(out: &mut Output, command: &[u8], bytes: &[u8])
    requires { 2 * (length command.now + length bytes.now) + 3 ≤ room out.old }
    ensures { Puts out.old (frame_of (command.now ++ bytes.now)) out.new }
{
    out.push(Kind::Select as u8);
    put_exchanges(out, command);
    put_exchanges(out, bytes);
    put_deselect(out);
}

// Puts an event of n ticks, the high byte of their number first.
fn put_ticks(out: &mut Output, n: u16)
    requires { 3 ≤ room out.old }
    ensures { Puts out.old (ticks_of n) out.new }
{
    out.push(Kind::Ticks as u8);
    out.put(&n.to_be_bytes());
}

// Puts what programs some bytes of one page: a write enable, the page program, its ticks.
fn put_piece(out: &mut Output, address: usize, bytes: &[u8])
    requires { (address < 2 ^ 32) × (19 + 2 * length bytes.now ≤ room out.old) }
    ensures { Puts out.old (piece_script (piece address bytes.now)) out.new }
{
    put_frame(out, &[Command::WRITE_ENABLE], &[]);
    let [_, high, middle, low] = (address as u32).to_be_bytes();
    put_frame(out, &[Command::PAGE_PROGRAM, high, middle, low], bytes);
    put_ticks(out, PROGRAM_TICKS);
}

// How many of the bytes that are left, from an address on, lie in its page.
fn in_page(address: usize, left: usize) -> usize
    ensures { result ≡ min left (left_in_page address) }
{
    left.min(Part::PAGE - address % Part::PAGE)
}

// Puts the script for bytes that lie on a part, piece by piece.
fn put_script(out: &mut Output, address: usize, bytes: &[u8])
    requires { (address + length bytes.now ≤ 2097152) × (script_length address (length bytes.now) ≤ room out.old) }
    ensures { Puts out.old (program_script address bytes.now) out.new }
{
    let mut here = address;
    let mut left = bytes;
    while !left.is_empty() {
        let (piece, rest) = left.split_at(in_page(here, left.len()));
        put_piece(out, here, piece);
        here += piece.len();
        left = rest;
    }
}

// Writes that script at the start of an output; the answer is its length.
#[tactic(auto, using(cells::specs::OutputLaws::puts_first))]
fn write_script(out: &mut [u8], address: usize, bytes: &[u8]) -> usize
    requires { (address + length bytes.now ≤ 2097152) × (script_length address (length bytes.now) ≤ length out.old) }
    ensures { (result ≡ length (program_script address bytes.now)) × (out.new ≡ program_script address bytes.now ++ drop (length (program_script address bytes.now)) out.old) }
{
    let mut script = Output::new(out);
    put_script(&mut script, address, bytes);
    script.len()
}

// How many pieces some bytes from an address on make.
fn piece_count(address: usize, count: usize) -> usize
    requires { count ≤ longest_data }
    ensures { (result ≡ piece_count address count) × (result ≤ 17) }
{
    if count == 0 {
        return 0;
    }
    (address % Part::PAGE + count).div_ceil(Part::PAGE)
}

// The length of the script for some bytes from an address on: 19 bytes a piece, and 2 a byte.
fn script_length(address: usize, count: usize) -> usize
    requires { count ≤ longest_data }
    ensures { result ≡ script_length address count }
{
    19 * piece_count(address, count) + 2 * count
}

// What refuses the writer, if anything does, in the order of the definition.
#[tactic(auto, using(std::proofs::lemmas::Bool::Decides::nat_tests, crate::proofs::Laws::script_long), unfolding(crate::specs::Writer::refusal))]
fn check(n: usize, address: usize, bytes: &[u8], space: usize) -> Result<(), Refusal>
    ensures { told result ≡ refusal n address bytes.now space }
{
    let count = bytes.len();
    part::sectors_of(n).ok_or(Refusal::MemoryLength)?;
    if LONGEST_DATA < count {
        return Err(Refusal::LongData);
    }
    if n <= address {
        return Err(Refusal::AddressOutside);
    }
    if n < address + count {
        return Err(Refusal::DataOutside);
    }
    if space < script_length(address, count) {
        return Err(Refusal::NoRoom);
    }
    Ok(())
}

// Writes the script that programs some bytes from an address on, for a memory of n cells; the answer is its length.
#[tactic(auto, using(refusal::specs::Laws::refused), unfolding(crate::specs::Writer::answer_of, crate::specs::Writer::output_of))]
pub fn write_program(
    n: usize,
    address: usize,
    bytes: &[u8],
    out: &mut [u8],
) -> Result<usize, Refusal>
    ensures { (written_as result ≡ answer_of n address bytes.now out.old) × (out.new ≡ output_of n address bytes.now out.old) }
{
    check(n, address, bytes, out.len())?;
    Ok(write_script(out, address, bytes))
}
