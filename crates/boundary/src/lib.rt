// The library for C and Rust: a chip and its answers as plain numbers, the reader of an SFDP area, and the script writer.
//
// What a caller must not do: the memory and the output of one call must overlap neither each other nor
// the area, the script or the bytes to program, not even in a byte (what is only read may overlap
// what is only read); a slice's pointer must not be null, also where its length is 0; it must point to that
// many bytes, which nobody else writes during the call. Nothing here can check that, and nothing is
// promised where it does not hold. Any number may stand in any field: what is no state is refused by 2.
#![tactic(auto)]

ghost use Rattle.std.specs.Prelude.{◌≡◌, Ok};
ghost use Rattle.refusal.specs.Table.{number_of};
ghost use Rattle.part.specs.Area.{own_area};
ghost use Rattle.chip.specs.Chip.{fresh};
ghost use Rattle.event.specs.Alone.{answered};
ghost use Rattle.script.specs.Run.{ran_as};
ghost use Rattle.sfdp.specs.Reader.{found_of};
ghost use Rattle.writer.specs.Writer.{answer_of, output_of};
ghost use Rattle.boundary.specs.Numbers.{kind_of, kind_number, kind_value, is_state_of, Means, numbers_of, legal_numbers};
ghost use Rattle.boundary.specs.Answers.{padded, no_state, refused_event, done_event, event_of, event_memory, refused_run, done_run, run_of, run_memory, run_output, no_state_report, report_run_of, report_memory, report_output, report_numbers, table_numbers, area_numbers, written_numbers};

use chip::{Chip, Core, Frame, Job, JobKind, Record};
use margins::{Allowances, Report};
use part::Part;
use refusal::Refusal;
use script::Refused;

// The flags of a chip: 1 for true, 0 for false.
#[repr(C)]
#[derive(Clone, Copy)]
pub struct FlagNumbers {
    pub tb: u8,
    pub srwp: u8,
    pub wen: u8,
    pub suspended: u8,
    pub waiting: u8,
    pub wp: u8,
    pub deep: u8,
    pub armed: u8,
    pub selected: u8,
}

// A chip: `kind`, `value`, `start` and `done` are its job, `place` is the read place and `slot` the load place of its frame.
// Kinds: 0 no job, 1 write status of `value`, 2 program, 3 small sector erase, 4 sector erase, 5 chip erase.
#[repr(C)]
#[derive(Clone, Copy)]
pub struct ChipNumbers {
    pub flags: FlagNumbers,
    pub level: u8,
    pub kind: u8,
    pub value: u8,
    pub opcode: u8,
    pub slot: u8,
    pub count: u8,
    pub judgement: u8,
    pub start: u32,
    pub done: u32,
    pub address: u32,
    pub place: usize,
    pub load: [u8; 256],
    pub held: [u8; 256],
}

// The answer to one event: the first `size` of `bytes` are its record, as a run writes it; the others are 0.
#[repr(C)]
#[derive(Clone, Copy)]
pub struct EventNumbers {
    pub chip: ChipNumbers,
    pub refusal: u8,
    pub size: u8,
    pub bytes: [u8; chip::LONGEST_RECORD],
    pub ticks: u32,
}

// The answer to a script run.
#[repr(C)]
#[derive(Clone, Copy)]
pub struct RunNumbers {
    pub chip: ChipNumbers,
    pub refusal: u8,
    pub offset: usize,
    pub written: usize,
    pub ticks: u64,
}

// The answer to a script run with a margin report, and the report afterwards.
#[repr(C)]
#[derive(Clone, Copy)]
pub struct ReportedNumbers {
    pub run: RunNumbers,
    pub report: Report,
}

// Where a parameter table stands in an SFDP area: its place and its length in bytes, both 0 if refused.
#[repr(C)]
#[derive(Clone, Copy)]
pub struct TableNumbers {
    pub refusal: u8,
    pub place: usize,
    pub length: usize,
}

// The part's own SFDP area.
#[repr(C)]
#[derive(Clone, Copy)]
pub struct AreaNumbers {
    pub bytes: [u8; 208],
}

// The answer of the script writer: what refuses it, and how many bytes of the output are the script.
#[repr(C)]
#[derive(Clone, Copy)]
pub struct WrittenNumbers {
    pub refusal: u8,
    pub written: usize,
}

// Numbers that are no state: a flag is over 1, or the kind is none.
#[derive(Clone, Copy, PartialEq, Eq)]
pub struct NoState;

// The kind of job that a number means; a number over 5 is none, and is read as no job.
// Stays: C has kinds of jobs, flags and refusals as bytes, and its own struct for each answer.
#[tactic(auto, unfolding(crate::specs::Numbers::kind_of))]
fn kind_of(kind: u8, value: u8) -> JobKind
    ensures { result ≡ kind_of kind value }
{
    match kind {
        1 => JobKind::WriteStatus(value),
        2 => JobKind::Program,
        3 => JobKind::SmallErase,
        4 => JobKind::SectorErase,
        5 => JobKind::ChipErase,
        _ => JobKind::Idle,
    }
}

// The number of a kind of job.
fn kind_number(kind: JobKind) -> u8
    ensures { result ≡ kind_number kind }
{
    match kind {
        JobKind::Idle => 0,
        JobKind::WriteStatus(_) => 1,
        JobKind::Program => 2,
        JobKind::SmallErase => 3,
        JobKind::SectorErase => 4,
        JobKind::ChipErase => 5,
    }
}

// The byte that a write status job will set, 0 for the other kinds.
fn kind_value(kind: JobKind) -> u8
    ensures { result ≡ kind_value kind }
{
    match kind {
        JobKind::WriteStatus(byte) => byte,
        JobKind::Idle | JobKind::Program | JobKind::SmallErase => 0,
        JobKind::SectorErase | JobKind::ChipErase => 0,
    }
}

// Whether numbers are a state at all: their flags, and the kind of their job.
#[tactic(auto, unfolding(crate::specs::Numbers::is_state_of))]
fn is_state(flags: FlagNumbers, kind: u8) -> bool
    ensures { result ≡ is_state_of flags kind }
{
    (flags.tb <= 1)
        & (flags.srwp <= 1)
        & (flags.wen <= 1)
        & (flags.suspended <= 1)
        & (flags.waiting <= 1)
        & (flags.wp <= 1)
        & (flags.deep <= 1)
        & (flags.armed <= 1)
        & (flags.selected <= 1)
        & (kind <= 5)
}

// The chip that numbers mean, if they are a state.
impl TryFrom<ChipNumbers> for Chip {
    type Error = NoState;

    ghost try_from_gives = { Means };

    #[tactic(auto, unfolding(crate::specs::Numbers::chip_of))]
    fn try_from(c: ChipNumbers) -> Result<Chip, NoState> {
        let flags = c.flags;
        if !is_state(flags, c.kind) {
            return Err(NoState);
        }
        let load = c.load;
        let held = c.held;
        Ok(Chip {
            core: Core {
                level: c.level,
                tb: flags.tb == 1,
                srwp: flags.srwp == 1,
                wen: flags.wen == 1,
                suspended: flags.suspended == 1,
                waiting: flags.waiting == 1,
                wp: flags.wp == 1,
                deep: flags.deep == 1,
                armed: flags.armed == 1,
                job: Job {
                    kind: kind_of(c.kind, c.value),
                    start: c.start,
                    done: c.done,
                },
            },
            frame: Frame {
                selected: flags.selected == 1,
                opcode: c.opcode,
                address: c.address,
                place: c.place,
                slot: c.slot,
                count: c.count,
                judgement: c.judgement,
            },
            load,
            held,
        })
    }
}

// The numbers of a chip.
impl From<Chip> for ChipNumbers {
    ghost from_gives = { λ chip numbers. numbers ≡ numbers_of chip };

    #[tactic(auto, unfolding(crate::specs::Numbers::numbers_of))]
    fn from(chip: Chip) -> ChipNumbers {
        let Chip {
            core,
            frame,
            load,
            held,
        } = chip;
        ChipNumbers {
            flags: FlagNumbers {
                tb: u8::from(core.tb),
                srwp: u8::from(core.srwp),
                wen: u8::from(core.wen),
                suspended: u8::from(core.suspended),
                waiting: u8::from(core.waiting),
                wp: u8::from(core.wp),
                deep: u8::from(core.deep),
                armed: u8::from(core.armed),
                selected: u8::from(frame.selected),
            },
            level: core.level,
            kind: kind_number(core.job.kind),
            value: kind_value(core.job.kind),
            opcode: frame.opcode,
            slot: frame.slot,
            count: frame.count,
            judgement: frame.judgement,
            start: core.job.start,
            done: core.job.done,
            address: frame.address,
            place: frame.place,
            load,
            held,
        }
    }
}

// What refuses numbers that are no state, on a memory of n cells and with an area of `extent` bytes.
#[tactic(auto, using(part::proofs::Laws::no_part, part::proofs::Laws::some_part), unfolding(crate::specs::Answers::no_state))]
fn no_state(n: usize, extent: usize) -> Refusal
    ensures { number_of result ≡ no_state n extent }
{
    if part::sectors_of(n).is_none() {
        return Refusal::MemoryLength;
    }
    if Part::LONGEST_AREA < extent {
        return Refusal::LongArea;
    }
    Refusal::IllegalState
}

// A record's bytes, with zeros behind them.
fn bytes_of(said: Record) -> [u8; chip::LONGEST_RECORD]
    ensures { result ≡ padded said }
{
    match said {
        Record::Nothing => [0, 0, 0],
        Record::Floating => [chip::FLOATING, 0, 0],
        Record::Driven(b) => [chip::DRIVEN, b, 0],
        Record::Verdict(v) => [chip::VERDICT, v, 0],
        Record::InTheWay(first, last) => [chip::IN_THE_WAY, first, last],
    }
}

// The numbers of a refused event.
fn refuse_event(given: ChipNumbers, why: Refusal) -> EventNumbers
    ensures { result ≡ refused_event given (number_of why) }
{
    EventNumbers {
        chip: given,
        refusal: why.number(),
        size: 0,
        bytes: bytes_of(Record::Nothing),
        ticks: 0,
    }
}

// The numbers of an event that is done.
fn event_done(done: event::Done) -> EventNumbers
    ensures { result ≡ done_event (answered done.chip (Ok done)) }
{
    EventNumbers {
        chip: ChipNumbers::from(done.chip),
        refusal: 0,
        size: chip::record_length(done.said) as u8,
        bytes: bytes_of(done.said),
        ticks: done.ticks,
    }
}

// The numbers of a refused run.
fn refuse_run(given: ChipNumbers, why: Refusal, offset: usize) -> RunNumbers
    ensures { result ≡ refused_run given (number_of why) offset }
{
    RunNumbers {
        chip: given,
        refusal: why.number(),
        offset,
        written: 0,
        ticks: 0,
    }
}

// The numbers of a run that is done.
fn run_done(done: script::Done) -> RunNumbers
    ensures { result ≡ done_run (ran_as done.chip (Ok done)) }
{
    RunNumbers {
        chip: ChipNumbers::from(done.chip),
        refusal: 0,
        offset: 0,
        written: done.written,
        ticks: done.ticks,
    }
}

// What refuses a run with a report on numbers that are no state: an allowance before all else.
#[tactic(auto, unfolding(crate::specs::Answers::no_state_report))]
fn no_state_report(n: usize, extent: usize, allowances: Allowances) -> Refusal
    ensures { number_of result ≡ no_state_report allowances n extent }
{
    if !margins::are_allowed(allowances) {
        return Refusal::LargeAllowance;
    }
    no_state(n, extent)
}

// The numbers of a fresh chip, from any status byte.
pub fn chip_fresh(status: u8) -> ChipNumbers
    ensures { result ≡ numbers_of (fresh status) }
{
    ChipNumbers::from(Chip::fresh(status))
}

// Whether numbers are a legal state for a memory of n cells.
#[tactic(auto, unfolding(crate::specs::Numbers::legal_numbers))]
pub fn chip_legal(c: ChipNumbers, n: usize) -> bool
    ensures { result ≡ legal_numbers c n }
{
    match Chip::try_from(c) {
        Ok(chip) => legal::is_legal(chip, n),
        Err(NoState) => false,
    }
}

// One event alone, for every kind, body, state, area and memory length.
#[tactic(auto, using(refusal::specs::Laws::refused), unfolding(crate::specs::Answers::event_of, crate::specs::Answers::event_numbers, crate::specs::Answers::event_memory))]
pub fn chip_event(c: ChipNumbers, mem: &mut [u8], area: &[u8], kind: u64, body: u64) -> EventNumbers
    ensures { (result ≡ event_of c mem.old area.now kind body)
        × (mem.new ≡ event_memory c mem.old area.now kind body) }
{
    let Ok(chip) = Chip::try_from(c) else {
        return refuse_event(c, no_state(mem.len(), area.len()));
    };
    match event::event(chip, mem, area, kind, body) {
        Ok(done) => event_done(done),
        Err(why) => refuse_event(c, why),
    }
}

// The same event, on a chip that is lent.
// Stays: a twin of `chip_event`, since C calls both by their names; where a function is taken as a parameter its contract has to be said again.
#[tactic(auto, using(refusal::specs::Laws::refused), unfolding(crate::specs::Answers::event_of, crate::specs::Answers::event_numbers, crate::specs::Answers::event_memory))]
pub fn chip_event_lent(
    c: ChipNumbers,
    mem: &mut [u8],
    area: &[u8],
    kind: u64,
    body: u64,
) -> EventNumbers
    ensures { (result ≡ event_of c mem.old area.now kind body)
        × (mem.new ≡ event_memory c mem.old area.now kind body) }
{
    let Ok(chip) = Chip::try_from(c) else {
        return refuse_event(c, no_state(mem.len(), area.len()));
    };
    match lent::event_by_lending(chip, mem, area, kind, body) {
        Ok(done) => event_done(done),
        Err(why) => refuse_event(c, why),
    }
}

// A script run, for every state, memory, area, script and output.
#[tactic(auto, using(refusal::specs::Laws::refused), unfolding(crate::specs::Answers::run_of, crate::specs::Answers::run_numbers, crate::specs::Answers::run_memory, crate::specs::Answers::run_output))]
pub fn chip_run(
    c: ChipNumbers,
    mem: &mut [u8],
    area: &[u8],
    script: &[u8],
    out: &mut [u8],
) -> RunNumbers
    ensures { (result ≡ run_of c mem.old area.now script.now out.old)
        × (mem.new ≡ run_memory c mem.old area.now script.now out.old)
        × (out.new ≡ run_output c mem.old area.now script.now out.old) }
{
    let Ok(chip) = Chip::try_from(c) else {
        return refuse_run(c, no_state(mem.len(), area.len()), 0);
    };
    match script::run(chip, mem, area, script, out) {
        Ok(done) => run_done(done),
        Err(no) => refuse_run(c, no.refusal, no.offset),
    }
}

// A script run with a margin report, for every state, memory, area, script, output, allowances and report.
#[tactic(auto, using(refusal::specs::Laws::refused), unfolding(crate::specs::Answers::report_run_of, crate::specs::Answers::run_numbers, crate::specs::Answers::report_memory, crate::specs::Answers::report_output, crate::specs::Answers::report_numbers))]
pub fn chip_run_report(
    c: ChipNumbers,
    mem: &mut [u8],
    area: &[u8],
    script: &[u8],
    out: &mut [u8],
    allowances: Allowances,
    report: Report,
) -> ReportedNumbers
    ensures { (result.run ≡ report_run_of allowances c mem.old area.now script.now out.old)
        × (mem.new ≡ report_memory allowances c mem.old area.now script.now out.old)
        × (out.new ≡ report_output allowances c mem.old area.now script.now out.old)
        × (result.report ≡ report_numbers allowances report c mem.old area.now script.now out.old) }
{
    let Ok(chip) = Chip::try_from(c) else {
        let why = no_state_report(mem.len(), area.len(), allowances);
        return ReportedNumbers {
            run: refuse_run(c, why, 0),
            report,
        };
    };
    match script::run_with_report(chip, mem, area, script, out, allowances, report) {
        Ok(reported) => ReportedNumbers {
            run: run_done(reported.done),
            report: reported.report,
        },
        Err(no) => ReportedNumbers {
            run: refuse_run(c, no.refusal, no.offset),
            report,
        },
    }
}

// Where the parameter table of an identity stands in an SFDP area, or what refuses it.
pub fn sfdp_find(area: &[u8], identity: u8) -> TableNumbers
    ensures { result ≡ table_numbers (found_of area.now identity) }
{
    match sfdp::find_table(area, identity) {
        Ok(table) => TableNumbers {
            refusal: 0,
            place: table.place,
            length: table.length,
        },
        Err(unfound) => TableNumbers {
            refusal: unfound.number(),
            place: 0,
            length: 0,
        },
    }
}

// The part's own SFDP area, for a caller to lend.
pub fn sfdp_own_area() -> AreaNumbers
    ensures { result ≡ area_numbers own_area }
{
    let bytes = part::own_area().bytes;
    AreaNumbers { bytes }
}

// The script that programs some bytes from an address on, for a memory of n cells.
pub fn write_program(n: usize, address: usize, bytes: &[u8], out: &mut [u8]) -> WrittenNumbers
    ensures { (result ≡ written_numbers (answer_of n address bytes.now out.old))
        × (out.new ≡ output_of n address bytes.now out.old) }
{
    match writer::write_program(n, address, bytes, out) {
        Ok(written) => WrittenNumbers {
            refusal: 0,
            written,
        },
        Err(refusal) => WrittenNumbers {
            refusal: refusal.number(),
            written: 0,
        },
    }
}
