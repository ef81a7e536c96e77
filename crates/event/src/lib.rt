// One event: on the parts of a legal chip, and alone, with its refusals.
#![tactic(auto)]

ghost use Rattle.std.specs.Prelude.{◌≡◌, List, ℕ, Ok, IfOk, IfErr};
ghost use Rattle.refusal.specs.Table.{number_of};
ghost use Rattle.part.specs.Part.{setting, sectors_in};
ghost use Rattle.chip.specs.Chip.{whole};
ghost use Rattle.chip.specs.Record.{record_bytes};
ghost use Rattle.event.specs.Event.{outcome, applied, powered_up, deselect, tick};
ghost use Rattle.event.specs.Alone.{body_used, refusal, done, answered, answer_of, memory_of, said_of};

use chip::{Chip, Core, Frame, Record};
use kinds::Kind;
use part::Part;
use refusal::Refusal;

// What an event leaves of the core and the frame, what it says, and its working ticks.
#[derive(Clone, Copy)]
pub struct Stepped {
    pub core: Core,
    pub frame: Frame,
    pub said: Record,
    pub ticks: u32,
}

// An event alone that is done: the chip that it leaves, what it says, and its working ticks.
#[derive(Clone, Copy, PartialEq, Eq)]
pub struct Done {
    pub chip: Chip,
    pub said: Record,
    pub ticks: u32,
}

// Core and frame after an event in which no tick works.
fn stays(core: Core, frame: Frame, said: Record) -> Stepped
    ensures { result ≡ record { core = core; frame = frame; said = said; ticks = 0 } }
{
    Stepped {
        core,
        frame,
        said,
        ticks: 0,
    }
}

// The core after a power cut: the job is dropped, and the part awake.
fn power_up(core: Core) -> Core
    ensures { result ≡ powered_up core }
{
    Core {
        deep: false,
        armed: false,
        ..verdict::reset(core)
    }
}

// A deselect, loose or not: the verdict, its effect, and the empty frame left behind.
fn deselect(
    core: Core,
    frame: Frame,
    load: &mut [u8; 256],
    held: &mut [u8; 256],
    sectors: u8,
    loose: bool,
) -> Stepped
    ensures { (area m : List ℕ) → outcome result.core result.frame load.new held.new m result.said result.ticks
        ≡ deselect (setting sectors area) (whole core frame load.old held.old) m loose }
{
    if !frame.selected {
        return stays(core, frame, Record::Verdict(0));
    }
    let v = verdict::verdict(sectors, core, frame, loose);
    verdict::hand_over(frame, v, load, held);
    *load = [255; 256];
    stays(
        verdict::settle(sectors, core, frame, v),
        chip::empty_frame(),
        verdict::record_of(sectors, core, v),
    )
}

// n ticks.
fn tick(
    core: Core,
    frame: Frame,
    held: &mut [u8; 256],
    mem: &mut [u8],
    sectors: u8,
    n: u32,
) -> Stepped
    ensures { (area load : List ℕ) → outcome result.core result.frame load held.new mem.new result.said result.ticks
        ≡ tick (setting sectors area) (whole core frame load held.old) mem.old n }
{
    let ticked = job::ticks(core, held, mem, sectors, n);
    Stepped {
        core: ticked.core,
        frame,
        said: Record::Nothing,
        ticks: ticked.worked,
    }
}

// One event by its kind on the parts of a chip. What is no kind does nothing; the refusals keep it off.
// Stays: kind and body are numbers here and in `event`, since each answers for every number (`applied`, `answer_of`).
// Stays: sectors and area go by themselves, as do the parts of the chip: a deselect and ticks take some of them alone, and a struct would be taken apart at each.
#[tactic(auto, using(kinds::proofs::Laws::unknown_row), unfolding(crate::specs::Event::applied))]
pub fn step(
    core: Core,
    frame: Frame,
    load: &mut [u8; 256],
    held: &mut [u8; 256],
    mem: &mut [u8],
    sectors: u8,
    area: &[u8],
    kind: u64,
    body: u32,
) -> Stepped
    ensures { outcome result.core result.frame load.new held.new mem.new result.said result.ticks
        ≡ applied (setting sectors area.now) (whole core frame load.old held.old) mem.old kind body }
{
    match Kind::try_from(kind) {
        Ok(Kind::Select) => {
            let opened = Frame {
                selected: true,
                ..frame
            };
            stays(core, opened, Record::Nothing)
        }
        Ok(Kind::Exchange) => {
            let e = frame::exchange(core, frame, load, mem, sectors, area, (body % 256) as u8);
            stays(core, e.frame, e.said)
        }
        Ok(Kind::Deselect) => deselect(core, frame, load, held, sectors, 0 < body),
        Ok(Kind::Tick) => tick(core, frame, held, mem, sectors, 1),
        Ok(Kind::Ticks) => tick(core, frame, held, mem, sectors, body),
        Ok(Kind::Wp) => {
            let pinned = Core {
                wp: body == 1,
                ..core
            };
            stays(pinned, frame, Record::Nothing)
        }
        Ok(Kind::Power) => {
            *load = [255; 256];
            *held = [255; 256];
            stays(power_up(core), chip::empty_frame(), Record::Nothing)
        }
        // A stamp is a kind in a script alone.
        Ok(Kind::Stamp) => stays(core, frame, Record::Nothing),
        Err(_) => stays(core, frame, Record::Nothing),
    }
}

// The body that an event looks at: 0 for a kind without one.
#[tactic(auto, unfolding(crate::specs::Alone::body_used))]
fn body_used(kind: u64, body: u64) -> u64
    ensures { result ≡ body_used kind body }
{
    if kinds::body_length(kind) == 0 {
        return 0;
    }
    body
}

// What refuses an event, or the part's number of sectors.
#[tactic(auto, using(part::proofs::Laws::no_part, part::proofs::Laws::some_part), unfolding(crate::specs::Alone::refusal))]
fn accept(chip: Chip, n: usize, extent: usize, kind: u64, body: u64) -> Result<u8, Refusal>
    ensures taken { IfOk result (λ sectors. (refusal chip n extent kind body ≡ 0) × (sectors ≡ sectors_in n)) }
    ensures refused { IfErr result (λ why. refusal chip n extent kind body ≡ number_of why) }
{
    let Some(sectors) = part::sectors_of(n) else {
        return Err(Refusal::MemoryLength);
    };
    if Part::LONGEST_AREA < extent {
        return Err(Refusal::LongArea);
    }
    if !legal::is_legal(chip, n) {
        return Err(Refusal::IllegalState);
    }
    if !kinds::is_known(kind) {
        return Err(Refusal::UnknownKind);
    }
    if !kinds::is_in_range(kind, body) {
        return Err(Refusal::BodyRange);
    }
    Ok(sectors)
}

// What an event that is done leaves: the chip is taken apart for the step and put together again.
fn carry_out(chip: Chip, mem: &mut [u8], sectors: u8, area: &[u8], kind: u64, body: u32) -> Done
    ensures { (answered chip (Ok result) ≡ done (applied (setting sectors area.now) chip mem.old kind body))
        × (mem.new ≡ (applied (setting sectors area.now) chip mem.old kind body).memory) }
{
    let Chip {
        core,
        frame,
        mut load,
        mut held,
    } = chip;
    let s = step(
        core, frame, &mut load, &mut held, mem, sectors, area, kind, body,
    );
    Done {
        chip: Chip {
            core: s.core,
            frame: s.frame,
            load,
            held,
        },
        said: s.said,
        ticks: s.ticks,
    }
}

// One event alone, for every kind, body, state, area and memory length.
pub fn event(chip: Chip, mem: &mut [u8], area: &[u8], kind: u64, body: u64) -> Result<Done, Refusal>
    ensures { (answered chip result ≡ answer_of chip mem.old area.now kind body)
        × (mem.new ≡ memory_of chip mem.old area.now kind body)
        × (record_bytes (answered chip result).said ≡ said_of chip mem.old area.now kind body) }
{
    let sectors = accept(chip, mem.len(), area.len(), kind, body)?;
    let used = body_used(kind, body);
    Ok(carry_out(chip, mem, sectors, area, kind, used as u32))
}
