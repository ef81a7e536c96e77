// The verdict at a deselect, and what it does to the core.
#![tactic(auto)]

ghost use Rattle.std.specs.Prelude.{◌≡◌, ◌%◌, ◌<◌};
ghost use Rattle.part.specs.Part.{rounded_down, reduced};
ghost use Rattle.part.specs.Protection.{protected_sectors};
ghost use Rattle.chip.specs.declared.JobKind.{JobKind};
ghost use Rattle.verdict.specs.Verdict.{job_of, start_of, job_asked, start_protected, target_protected, pointless, job_verdict, command_verdict, listed, verdict, in_the_way, record_of};
ghost use Rattle.verdict.specs.Effect.{replaced, begins, resets, instantly, acted, settled, held_after};

use chip::{Core, Frame, Job, JobKind, Record};
use commands::Command;
use part::{Ends, Part};

// The job that an opcode begins, Idle for none.
#[tactic(auto, unfolding(crate::specs::Verdict::job_of, commands::specs::Table::is_program))]
fn job_of(opcode: u8, address: u32) -> JobKind
    ensures { result ≡ job_of opcode address }
{
    match opcode {
        Command::WRITE_STATUS => JobKind::WriteStatus((address % 256) as u8),
        Command::PAGE_PROGRAM | Command::PAGE_PROGRAM_2 => JobKind::Program,
        Command::SMALL_SECTOR_ERASE | Command::SMALL_SECTOR_ERASE_2 => JobKind::SmallErase,
        Command::SECTOR_ERASE => JobKind::SectorErase,
        Command::CHIP_ERASE | Command::CHIP_ERASE_2 => JobKind::ChipErase,
        _ => JobKind::Idle,
    }
}

// An address's cell on a part of `sectors` sectors, rounded down to a size.
fn rounded(sectors: u8, size: usize, address: u32) -> u32
    requires { 0 < size }
    ensures { result ≡ rounded_down size (reduced sectors address) }
{
    let cell = part::cell_of(sectors, address);
    (cell - cell % size) as u32
}

// The start of a job.
fn start_of(sectors: u8, kind: JobKind, address: u32) -> u32
    ensures { result ≡ start_of sectors kind address }
{
    match kind {
        JobKind::Idle | JobKind::WriteStatus(_) | JobKind::ChipErase => 0,
        JobKind::Program => rounded(sectors, Part::PAGE, address),
        JobKind::SmallErase => rounded(sectors, Part::SMALL_SECTOR, address),
        JobKind::SectorErase => rounded(sectors, Part::SECTOR, address),
    }
}

// The job that a frame asks for, with no steps done.
fn job_asked(sectors: u8, f: Frame) -> Job
    ensures { result ≡ job_asked sectors f }
{
    let kind = job_of(f.opcode, f.address);
    Job {
        kind,
        start: start_of(sectors, kind, f.address),
        done: 0,
    }
}

// The protected sectors, as the core's level and TB have them.
fn protected_of(sectors: u8, core: Core) -> Option<Ends>
    ensures { result ≡ protected_sectors core.level core.tb sectors }
{
    part::protected_sectors(core.level, core.tb, sectors)
}

// Whether the sector of a start is protected.
fn start_protected(sectors: u8, core: Core, start: u32) -> bool
    ensures { result ≡ start_protected sectors core start }
{
    part::protects(protected_of(sectors, core), (start as usize) / Part::SECTOR)
}

// Whether a job's target is protected.
fn target_protected(sectors: u8, core: Core, kind: JobKind, start: u32) -> bool
    ensures { result ≡ target_protected sectors core kind start }
{
    match kind {
        JobKind::Idle | JobKind::WriteStatus(_) => false,
        JobKind::Program | JobKind::SmallErase | JobKind::SectorErase => {
            start_protected(sectors, core, start)
        }
        JobKind::ChipErase => part::protects_any(protected_of(sectors, core)),
    }
}

// Whether a suspend, a resume or a reset has nothing to act on.
fn is_pointless(core: Core, opcode: u8) -> bool
    ensures { result ≡ pointless core opcode }
{
    let can_suspend = chip::is_suspendable(core) & !core.waiting;
    ((opcode == Command::SUSPEND) & !can_suspend)
        | ((opcode == Command::RESUME) & !core.suspended)
        | ((opcode == Command::RESET) & !core.armed)
}

// The verdict on a command that asks for a job.
#[tactic(auto, unfolding(crate::specs::Verdict::job_verdict))]
fn job_verdict(sectors: u8, core: Core, job: Job) -> u8
    ensures { result ≡ job_verdict sectors core job }
{
    if !core.wen {
        return 8;
    }
    if !chip::has_cells(job.kind) & core.srwp & !core.wp {
        return 10;
    }
    if target_protected(sectors, core, job.kind, job.start) {
        return 9;
    }
    2
}

// The verdict on a command of the right length, allowed where it stands.
#[tactic(auto, unfolding(crate::specs::Verdict::command_verdict))]
fn command_verdict(sectors: u8, core: Core, f: Frame) -> u8
    ensures { result ≡ command_verdict sectors core f }
{
    if is_pointless(core, f.opcode) {
        return 11;
    }
    let job = job_asked(sectors, f);
    if chip::is_job(job.kind) {
        return job_verdict(sectors, core, job);
    }
    1
}

// The list from 3 on, on the state as it then is.
#[tactic(auto, using(commands::specs::Laws::row_none, commands::specs::Laws::row_some, commands::specs::Laws::fits_as), unfolding(crate::specs::Verdict::listed, frame::specs::Frame::judge))]
fn list(sectors: u8, core: Core, f: Frame, loose: bool) -> u8
    ensures { result ≡ listed sectors core f loose }
{
    let Some(row) = commands::row_of(f.opcode) else {
        return 3;
    };
    let judged = frame::judge(core, f.opcode);
    if judged != 0 {
        return judged;
    }
    if commands::is_read(f.opcode) {
        return 0;
    }
    if loose | !row.length.fits(f.count) {
        return 4;
    }
    command_verdict(sectors, core, f)
}

// The verdict of a selected frame at its deselect.
// Stays: a verdict is a number, since `settle`, `hand_over` and `record_of` answer for every one, and so does a record.
#[tactic(auto, unfolding(crate::specs::Verdict::verdict))]
pub fn verdict(sectors: u8, core: Core, f: Frame, loose: bool) -> u8
    ensures { result ≡ verdict sectors core f loose }
{
    if f.count == 0 {
        return 0;
    }
    if f.judgement != 0 {
        return f.judgement;
    }
    list(sectors, core, f, loose)
}

// The record of verdict 9: the protected sectors.
fn in_the_way(range: Option<Ends>) -> Record
    ensures { result ≡ in_the_way range }
{
    match range {
        None => Record::Verdict(9),
        Some(ends) => Record::InTheWay(ends.first, ends.last),
    }
}

// The record of a verdict. The core is the one that was judged, before the verdict acts on it.
#[tactic(auto, unfolding(crate::specs::Verdict::record_of))]
pub fn record_of(sectors: u8, core: Core, v: u8) -> Record
    ensures { result ≡ record_of sectors core v }
{
    if v == 9 {
        return in_the_way(protected_of(sectors, core));
    }
    Record::Verdict(v)
}

// The core with another job in the place of the one that was there.
fn replace_job(job: Job, core: Core) -> Core
    ensures { result ≡ replaced job core }
{
    Core {
        suspended: false,
        waiting: false,
        job,
        ..core
    }
}

// The core with the frame's job begun.
fn begin(sectors: u8, core: Core, f: Frame) -> Core
    ensures { result ≡ begins sectors core f }
{
    replace_job(job_asked(sectors, f), core)
}

// The core with its job dropped, WEN, SUS and the waiting mark clear.
pub fn reset(core: Core) -> Core
    ensures { result ≡ resets core }
{
    Core {
        wen: false,
        ..replace_job(chip::no_job(), core)
    }
}

// What is done at once.
#[tactic(auto, unfolding(crate::specs::Effect::instantly))]
fn act_at_once(core: Core, opcode: u8) -> Core
    ensures { result ≡ instantly core opcode }
{
    match opcode {
        Command::WRITE_ENABLE => Core { wen: true, ..core },
        Command::WRITE_DISABLE => Core { wen: false, ..core },
        Command::SUSPEND => Core {
            waiting: true,
            ..core
        },
        Command::RESUME => Core {
            suspended: false,
            ..core
        },
        Command::WAKE => Core {
            deep: false,
            ..core
        },
        Command::DEEP_POWER_DOWN => Core { deep: true, ..core },
        Command::RESET => reset(core),
        _ => core,
    }
}

// What a verdict does: 2 begins, 1 acts at once, and every other leaves all as it was.
#[tactic(auto, unfolding(crate::specs::Effect::acted))]
fn act(sectors: u8, core: Core, f: Frame, v: u8) -> Core
    ensures { result ≡ acted sectors core f v }
{
    if v == 2 {
        return begin(sectors, core, f);
    }
    if v == 1 {
        return act_at_once(core, f.opcode);
    }
    core
}

// The core after a frame's verdict.
#[tactic(auto, unfolding(crate::specs::Effect::settled))]
pub fn settle(sectors: u8, core: Core, f: Frame, v: u8) -> Core
    ensures { result ≡ settled sectors core f v }
{
    if f.count == 0 {
        return core;
    }
    Core {
        armed: (f.opcode == Command::RESET_ENABLE) & (v == 1),
        ..act(sectors, core, f, v)
    }
}

// The job's load after a frame's verdict: handed over, blank, or as it was.
#[tactic(auto, unfolding(crate::specs::Effect::held_after))]
pub fn hand_over(f: Frame, v: u8, load: &[u8; 256], held: &mut [u8; 256])
    ensures { held.new ≡ held_after f v load.now held.old }
{
    if v == 2 {
        if commands::is_program(f.opcode) {
            *held = *load;
            return;
        }
        *held = [255; 256];
        return;
    }
    if (v == 1) & (f.opcode == Command::RESET) {
        *held = [255; 256];
    }
}
