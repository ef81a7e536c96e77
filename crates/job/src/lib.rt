// Ticks: n of them in one go, as far as the job has steps left.
#![tactic(auto)]

ghost use Rattle.std.specs.Prelude.{◌≡◌, cond, ◌+◌, ◌*◌, ◌≤◌, ◌<◌, ◌^◌, max, ◌-◌};
ghost use Rattle.chip.specs.Job.{steps, total};
ghost use Rattle.job.specs.Tick.{advanced, suspends, gone, ended, TicksAnswer};

use chip::{Core, Job, JobKind};

// What ticks leave of the core, and how many of them worked.
#[derive(Clone, Copy, PartialEq, Eq)]
pub struct Ticked {
    pub core: Core,
    pub worked: u32,
}

// Does k more steps of a job: 16 cells each of a program, 256 of an erase, in one go.
#[tactic(auto, using(crate::proofs::Laws::steps_no_cells))]
fn do_steps(job: Job, k: u32, held: &[u8; 256], mem: &mut [u8])
    ensures { mem.new ≡ steps job.kind job.start held.now job.done k mem.old }
{
    let start = job.start as usize;
    let done = job.done as usize;
    let k = k as usize;
    match job.kind {
        JobKind::Idle | JobKind::WriteStatus(_) => {}
        JobKind::Program => cells::program(mem, held, start + done * 16, done * 16, k * 16),
        JobKind::SmallErase | JobKind::SectorErase | JobKind::ChipErase => {
            cells::blank(mem, start + done * 256, k * 256)
        }
    }
}

// How many steps a job that runs has left, and at least one.
fn steps_left(job: Job, sectors: u8) -> u32
    ensures { (result ≡ max (total job.kind sectors - job.done) 1) × (total job.kind sectors ≤ 65280) }
{
    let total = chip::total_of(job.kind, sectors);
    total.saturating_sub(job.done).max(1)
}

// How many ticks find it running: one if it waits to be suspended, otherwise one for each step left.
fn ticks_left(waiting: bool, steps: u32) -> u32
    ensures { result ≡ cond waiting 1 steps }
{
    if waiting { 1 } else { steps }
}

// The core with k more steps done.
fn advance(core: Core, k: u32) -> Core
    requires { core.job.done + k < 2 ^ 32 }
    ensures { result ≡ advanced k core }
{
    Core {
        job: Job {
            done: core.job.done + k,
            ..core.job
        },
        ..core
    }
}

// The core with its job suspended.
fn suspend(core: Core) -> Core
    ensures { result ≡ suspends core }
{
    Core {
        suspended: true,
        waiting: false,
        ..core
    }
}

// The core with its job gone, WEN and the waiting mark clear.
fn clear(core: Core) -> Core
    ensures { result ≡ gone core }
{
    Core {
        wen: false,
        waiting: false,
        job: chip::no_job(),
        ..core
    }
}

// The core after the last step of its job: only a write status sets bits.
fn end(core: Core) -> Core
    ensures { result ≡ ended core }
{
    match core.job.kind {
        JobKind::WriteStatus(value) => chip::set_bits(value, clear(core)),
        _ => clear(core),
    }
}

// n ticks: with no job running they do nothing; otherwise they do steps until n are done, a job that waited is suspended, or the job ends, and its load with it.
pub fn ticks(core: Core, held: &mut [u8; 256], mem: &mut [u8], sectors: u8, n: u32) -> Ticked
    ensures { TicksAnswer sectors n core held.old mem.old result.core result.worked held.new mem.new }
{
    if !chip::is_running(core) {
        return Ticked { core, worked: 0 };
    }
    let steps = steps_left(core.job, sectors);
    let left = ticks_left(core.waiting, steps);
    if n < left {
        do_steps(core.job, n, held, mem);
        return Ticked {
            core: advance(core, n),
            worked: n,
        };
    }
    do_steps(core.job, left, held, mem);
    if left < steps {
        return Ticked {
            core: suspend(advance(core, left)),
            worked: left,
        };
    }
    *held = [255; 256];
    Ticked {
        core: end(core),
        worked: left,
    }
}
