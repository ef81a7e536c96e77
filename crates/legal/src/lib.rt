// Whether a chip's state is legal for a memory.
#![tactic(auto)]

ghost use Rattle.std.specs.Prelude.{◌≡◌, ◌≤◌, ◌<◌};
ghost use Rattle.legal.specs.Legal.{placed, aligned_to, legal_job, legal_core, legal_frame, read_places, judgement_known, is_empty, is_blank, legal};

use chip::{Chip, Core, Frame, Job, JobKind};
use commands::Command;
use part::Part;

// Whether a start is on the part and aligned to a size.
fn aligned_to(sectors: u8, size: usize, start: u32) -> bool
    requires { (0 < size) × (size ≤ 65536) }
    ensures { result ≡ aligned_to sectors size start }
{
    let at = start as usize;
    at % size == 0 && at + size <= part::length_of(sectors)
}

// Whether a job of some kind may stand at a start.
fn is_placed(sectors: u8, kind: JobKind, start: u32) -> bool
    ensures { result ≡ placed sectors kind start }
{
    match kind {
        JobKind::Idle => true,
        JobKind::Program => aligned_to(sectors, Part::PAGE, start),
        JobKind::SmallErase => aligned_to(sectors, Part::SMALL_SECTOR, start),
        JobKind::SectorErase => aligned_to(sectors, Part::SECTOR, start),
        JobKind::WriteStatus(_) | JobKind::ChipErase => start == 0,
    }
}

// Whether a job stands where it may, with steps left.
#[tactic(auto, unfolding(crate::specs::Legal::legal_job))]
fn is_legal_job(sectors: u8, job: Job) -> bool
    ensures { result ≡ legal_job sectors job }
{
    is_placed(sectors, job.kind, job.start)
        && (!chip::is_job(job.kind) || job.done < chip::total_of(job.kind, sectors))
}

// Whether the core is as the list has it.
#[tactic(auto, unfolding(crate::specs::Legal::legal_core))]
fn is_legal_core(sectors: u8, core: Core) -> bool
    ensures { result ≡ legal_core sectors core }
{
    let busy = chip::is_job(core.job.kind);
    core.level <= 7
        && is_legal_job(sectors, core.job)
        && (!busy || core.wen)
        && (!core.suspended || chip::has_cells(core.job.kind))
        && (!core.waiting || chip::is_suspendable(core))
        && (!core.deep || !busy && !core.armed)
}

// Whether a judgement is none, or one that falls at the opcode byte.
fn is_known_judgement(v: u8) -> bool
    ensures { result ≡ judgement_known v }
{
    matches!(v, 0 | 3 | 5 | 6 | 7)
}

// The number of read places in a frame of an opcode.
fn read_places(sectors: u8, opcode: u8) -> usize
    ensures { result ≡ read_places sectors opcode }
{
    match opcode {
        Command::JEDEC_ID => Part::JEDEC_CYCLE,
        Command::READ_SFDP => Part::AREA_PLACES,
        _ => part::length_of(sectors),
    }
}

// Whether the frame is as the list has it.
#[tactic(auto, unfolding(crate::specs::Legal::legal_frame))]
fn is_legal_frame(sectors: u8, f: Frame) -> bool
    ensures { result ≡ legal_frame sectors f }
{
    f.address < 16777216
        && f.place < read_places(sectors, f.opcode)
        && f.count <= 6
        && is_known_judgement(f.judgement)
}

// Whether a frame is the empty one, but for its selection.
#[tactic(auto, unfolding(crate::specs::Legal::is_empty))]
fn is_empty(f: Frame) -> bool
    ensures { result ≡ is_empty f }
{
    let empty = Frame {
        selected: f.selected,
        ..chip::empty_frame()
    };
    f == empty
}

// Whether a load is FFh throughout. With no early way out, which `all` has: so the look goes through the load in wide pieces.
#[tactic(auto, using(crate::proofs::Laws::is_blank_more), unfolding(crate::specs::Legal::is_blank))]
fn is_blank(load: &[u8]) -> bool
    ensures { result ≡ is_blank load.now }
{
    let mut blank = true;
    for b in load {
        blank &= *b == 255;
    }
    blank
}

// Whether a state is legal for a memory of n cells. A load is looked through only where it has to be blank.
#[tactic(auto, using(part::proofs::Laws::no_part, part::proofs::Laws::some_part), unfolding(crate::specs::Legal::legal))]
pub fn is_legal(chip: Chip, n: usize) -> bool
    ensures { result ≡ legal chip n }
{
    let Some(sectors) = part::sectors_of(n) else {
        return false;
    };
    let begun = chip.frame.selected && chip.frame.count != 0;
    is_legal_core(sectors, chip.core)
        && is_legal_frame(sectors, chip.frame)
        && (begun || is_empty(chip.frame) && is_blank(&chip.load))
}
