// The chip's state: what it is made of, a fresh one, its status byte; and what an event says.
#![tactic(auto)]

ghost use Rattle.std.specs.Prelude.{◌≡◌, cond, ◌≤◌, length};
ghost use Rattle.chip.specs.Job.{is_job, has_cells, total, no_job};
ghost use Rattle.chip.specs.Chip.{fresh, empty_frame, with_bits, running, suspendable, status_byte};
ghost use Rattle.chip.specs.Record.{record_bytes, longest_record};

// What a job does; a write status job holds the byte that it will set.
// Stays: no job is one of the kinds, since a chip without a job still has a start and steps done, which C gets back as it gave them (`chip-back`).
#[derive(Clone, Copy, PartialEq, Eq, Default)]
pub enum JobKind {
    #[default]
    Idle,
    WriteStatus(u8),
    Program,
    SmallErase,
    SectorErase,
    ChipErase,
}

// The one job: its kind, its start, which is the first cell of its range, and its steps done.
#[derive(Clone, Copy, PartialEq, Eq, Default)]
pub struct Job {
    pub kind: JobKind,
    pub start: u32,
    pub done: u32,
}

// All of the state but the frame and the two loads; `waiting` marks an accepted suspend whose tick has not come.
#[derive(Clone, Copy, PartialEq, Eq, Default)]
pub struct Core {
    pub level: u8,
    pub tb: bool,
    pub srwp: bool,
    pub wen: bool,
    pub suspended: bool,
    pub waiting: bool,
    pub wp: bool,
    pub deep: bool,
    pub armed: bool,
    pub job: Job,
}

// The frame on the wire: `place` is the read place, `slot` the load place, `count` the whole bytes so far (6 meaning six or more), and `judgement` 0 for none.
// Stays: `judgement` is a number, as `judgement_known` and `legal_frame` of `legal` and C's `ChipNumbers` have it.
#[derive(Clone, Copy, PartialEq, Eq, Default)]
pub struct Frame {
    pub selected: bool,
    pub opcode: u8,
    pub address: u32,
    pub place: usize,
    pub slot: u8,
    pub count: u8,
    pub judgement: u8,
}

// The chip: `load` is the frame's load, `held` the load that a program job holds.
#[derive(Clone, Copy, PartialEq, Eq)]
pub struct Chip {
    pub core: Core,
    pub frame: Frame,
    pub load: [u8; 256],
    pub held: [u8; 256],
}

// The first byte of a record: the line floated, a byte was driven, a verdict, the sectors in the way.
pub const FLOATING: u8 = 0x80;

pub const DRIVEN: u8 = 0x81;

pub const VERDICT: u8 = 0x82;

pub const IN_THE_WAY: u8 = 0x83;

// The most bytes that a record has.
pub const LONGEST_RECORD: usize = 3;

// What an event says: nothing, the line left floating, the byte driven, or the verdict; verdict 9 is
// said by the first and the last protected sector, which were in the way.
// Stays: nothing said is a record of no bytes, as `Answer` of `event/specs/Alone` has it, and a verdict is a number, as it is read back from a byte.
#[derive(Clone, Copy, PartialEq, Eq)]
pub enum Record {
    Nothing,
    Floating,
    Driven(u8),
    Verdict(u8),
    InTheWay(u8, u8),
}

impl Chip {
    // A fresh state from any status byte.
    #[tactic(auto, unfolding(crate::specs::Chip::fresh))]
    pub fn fresh(status: u8) -> Chip
        ensures { result ≡ fresh status }
    {
        let resting = Core {
            wp: true,
            ..Core::default()
        };
        Chip {
            core: set_bits(status, resting),
            frame: empty_frame(),
            load: [255; 256],
            held: [255; 256],
        }
    }
}

// The core with bits 2 to 5 and 7 of a status byte.
pub fn set_bits(status: u8, core: Core) -> Core
    ensures { result ≡ with_bits status core }
{
    Core {
        level: status / 4 % 8,
        tb: status / 32 % 2 == 1,
        srwp: status / 128 % 2 == 1,
        ..core
    }
}

// No job.
pub fn no_job() -> Job
    ensures { result ≡ no_job }
{
    Job::default()
}

// No frame: unselected, and no byte has come.
pub fn empty_frame() -> Frame
    ensures { result ≡ empty_frame }
{
    Frame::default()
}

// Whether there is a job at all.
pub fn is_job(kind: JobKind) -> bool
    ensures { result ≡ is_job kind }
{
    !matches!(kind, JobKind::Idle)
}

// Whether the job is a program or an erase.
pub fn has_cells(kind: JobKind) -> bool
    ensures { result ≡ has_cells kind }
{
    !matches!(kind, JobKind::Idle | JobKind::WriteStatus(_))
}

// The number of steps on a part of `sectors` sectors.
pub fn total_of(kind: JobKind, sectors: u8) -> u32
    ensures { (result ≡ total kind sectors) × (result ≤ 65280) }
{
    match kind {
        JobKind::Idle => 0,
        JobKind::WriteStatus(_) => 1,
        JobKind::Program | JobKind::SmallErase => 16,
        JobKind::SectorErase => 256,
        JobKind::ChipErase => 256 * sectors as u32,
    }
}

// Whether a job runs: there is one, and it is not suspended.
pub fn is_running(core: Core) -> bool
    ensures { result ≡ running core }
{
    is_job(core.job.kind) && !core.suspended
}

// Whether a program or an erase runs.
pub fn is_suspendable(core: Core) -> bool
    ensures { result ≡ suspendable core }
{
    is_running(core) && has_cells(core.job.kind)
}

// The number of bytes of a record.
pub fn record_length(said: Record) -> usize
    ensures { (result ≡ length (record_bytes said)) × (result ≤ longest_record) }
{
    match said {
        Record::Nothing => 0,
        Record::Floating => 1,
        Record::Driven(_) | Record::Verdict(_) => 2,
        Record::InTheWay(_, _) => 3,
    }
}

// A status bit's weight, if it is set.
fn weight(set: bool, of: u8) -> u8
    ensures { (result ≡ cond set of 0) × (result ≤ of) }
{
    if set { of } else { 0 }
}

// The status byte.
#[tactic(auto, unfolding(crate::specs::Chip::status_byte))]
pub fn status_byte(core: Core) -> u8
    ensures { result ≡ status_byte core }
{
    weight(is_running(core), 1)
        + weight(core.wen, 2)
        + 4 * (core.level % 8)
        + weight(core.tb, 32)
        + weight(core.suspended, 64)
        + weight(core.srwp, 128)
}
