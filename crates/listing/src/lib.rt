// What the program prints: a run on a blank part, with its records read back from the output, as text.
#![tactic(auto)]

ghost use Rattle.std.specs.Prelude.{◌≡◌, [], ◌∷◌, ◌++◌, ◌<◌, ◌≤◌, length, drop};
ghost use Rattle.io.specs.Counts.{IsPrefixLen};
ghost use Rattle.cells.specs.Output.{Puts, room};
ghost use Rattle.script.specs.Script.{events};
ghost use Rattle.refusal.specs.Table.{number_of};
ghost use Rattle.listing.specs.Text.{decimal_of, hex_digit, line_of, done_line, refused_line};
ghost use Rattle.listing.specs.Output.{record_at, read_lines};
ghost use Rattle.listing.specs.Report.{text_room, run_text, report_of};

use cells::output::Output;
use chip::{Chip, Record};
use part::Part;
use script::Refused;

// The longest script that is run.
pub const LONGEST: usize = 4096;

// Room for all that is printed of a script: a line has 14 bytes at the most, there are no more lines than bytes of the
// script, and the first and the last line fit in the rest (`report_fits`).
pub const ROOM: usize = 16 * LONGEST;

// The record at the start of some of a run's output.
#[tactic(auto, unfolding(crate::specs::Output::record_at))]
fn record_at(out: &[u8]) -> Record
    ensures { result ≡ record_at out.now 0 }
{
    let second = cells::byte_at(out, 1);
    let third = cells::byte_at(out, 2);
    match cells::byte_at(out, 0) {
        chip::FLOATING => Record::Floating,
        chip::DRIVEN => Record::Driven(second),
        chip::VERDICT => Record::Verdict(second),
        chip::IN_THE_WAY => Record::InTheWay(second, third),
        _ => Record::Nothing,
    }
}

// The bytes behind the first n; none where there are not so many.
fn behind(out: &[u8], n: usize) -> &[u8]
    ensures { result.now ≡ drop n out.now }
{
    out.get(n..).unwrap_or(&[])
}

// Puts a label, a number in decimal, and a byte after it.
fn put_number(text: &mut Output, label: &[u8], n: u64, stop: u8)
    requires { length (label.now ++ decimal_of n ++ (stop ∷ [])) ≤ room text.old }
    ensures { Puts text.old (label.now ++ decimal_of n ++ (stop ∷ [])) text.new }
{
    // Stays: by `write!` each part may end in an Err for want of room, which each caller would have to rule out; here the room is asked for once.
    let mut digits = [0u8; 20];
    let k = io::decimal(n, &mut digits);
    text.put(label);
    text.put(&digits[..k]);
    text.push(stop);
}

// An upper-case hex digit.
fn hex_digit(d: u8) -> u8
    requires { d < 16 }
    ensures { result ≡ hex_digit d }
{
    match d {
        0..=9 => b'0' + d,
        _ => b'A' + (d - 10),
    }
}

// Puts the line of a record and of its event's offset.
fn put_line(text: &mut Output, offset: usize, said: Record)
    requires { length (line_of offset said) ≤ room text.old }
    ensures { Puts text.old (line_of offset said) text.new }
{
    put_number(text, b"", offset as u64, b' ');
    match said {
        Record::Nothing => text.put(b"\n"),
        Record::Floating => text.put(b"--\n"),
        Record::Driven(b) => text.put(&[hex_digit(b / 16), hex_digit(b % 16), b'\n']),
        Record::Verdict(v) => put_number(text, b"V", v as u64, b'\n'),
        Record::InTheWay(first, last) => {
            put_number(text, b"V9 ", first as u64, b' ');
            put_number(text, b"", last as u64, b'\n');
        }
    }
}

// Puts the lines of a script's records, which stand in the output.
fn put_lines(text: &mut Output, s: &[u8], out: &[u8])
    requires { length (read_lines (events s.now) out.now 0) ≤ room text.old }
    ensures { Puts text.old (read_lines (events s.now) out.now 0) text.new }
{
    let mut offset = 0;
    let mut records = out;
    // Stays: an event's length shows at its first byte, so the offset goes by `next_at`, which no range and no adapter of the library does.
    while offset < s.len() {
        let here = offset;
        offset = kinds::next_at(s, here);
        if !kinds::yields(s[here] as u64) {
            continue;
        }
        let said = record_at(records);
        put_line(text, here, said);
        records = behind(records, chip::record_length(said));
    }
}

// Puts what follows line 1 of a run that is done: the lines of the records and the last line.
fn put_done(text: &mut Output, s: &[u8], out: &[u8], ticks: u64)
    requires { length (read_lines (events s.now) out.now 0 ++ done_line ticks) ≤ room text.old }
    ensures { Puts text.old (read_lines (events s.now) out.now 0 ++ done_line ticks) text.new }
{
    put_lines(text, s, out);
    put_number(text, b"answer 0 ticks ", ticks, b'\n');
}

// Puts what follows line 1 of a run that is refused.
fn put_refused(text: &mut Output, no: Refused)
    requires { length (refused_line (number_of no.refusal) no.offset) ≤ room text.old }
    ensures { Puts text.old (refused_line (number_of no.refusal) no.offset) text.new }
{
    put_number(text, b"answer ", no.refusal.number() as u64, b' ');
    put_number(text, b"at ", no.offset as u64, b'\n');
}

// Runs a script with an empty SFDP area, and puts what is printed of the run.
fn put_run(text: &mut Output, chip: Chip, mem: &mut [u8], s: &[u8], out: &mut [u8])
    requires { length (run_text chip mem.old s.now out.old) ≤ room text.old }
    ensures { Puts text.old (run_text chip mem.old s.now out.old) text.new }
{
    put_number(text, b"part ", mem.len() as u64, b'\n');
    match script::run(chip, mem, &[], s, out) {
        Ok(done) => put_done(text, s, out, done.ticks),
        Err(no) => put_refused(text, no),
    }
}

// Puts what the program prints for a script.
fn put_report(text: &mut Output, s: &[u8])
    requires { text_room ≤ room text.old }
    ensures { Puts text.old (report_of s.now) text.new }
{
    if LONGEST < s.len() {
        text.put(b"too long\n");
        return;
    }
    let mut mem = [0xFFu8; Part::SECTOR];
    let mut out = [0u8; chip::LONGEST_RECORD * LONGEST];
    put_run(text, Chip::fresh(0), &mut mem, s, &mut out);
}

// What the program prints for a script: it stands at the start of the text, and the answer is its length.
// Stays: the text and the output of a run are arrays, since nothing here asks for a heap.
#[tactic(auto, using(cells::specs::OutputLaws::puts_first))]
pub fn report(s: &[u8], text: &mut [u8; ROOM]) -> usize
    ensures value { (result ≡ length (report_of s.now)) × (text.new ≡ report_of s.now ++ drop result text.old) }
    ensures prefix_len { IsPrefixLen result text.new }
{
    let mut out = Output::new(text);
    put_report(&mut out, s);
    out.len()
}
