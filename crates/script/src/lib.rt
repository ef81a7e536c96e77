// A script run, plain or with a margin report: one pass that finds what is wrong with the script, and one that runs it.
#![tactic(auto)]

ghost use Rattle.std.specs.Prelude.{true, false, MatchResult, ◌&&◌, ◌≡◌, ◌⊎◌, ◌+◌, ◌≤◌, ◌<◌, eqb, length, get_or};
ghost use Rattle.part.specs.Part.{setting};
ghost use Rattle.kinds.specs.Number.{number_of};
ghost use Rattle.chip.specs.declared.Chip.{Chip as ChipValue};
ghost use Rattle.chip.specs.Record.{record_bytes};
ghost use Rattle.clock.specs.Clock.{unset};
ghost use Rattle.margins.specs.Margins.{allowed, margin};
ghost use Rattle.legal.specs.Legal.{legal};
ghost use Rattle.script.specs.Script.{events, fault_at, fault_number, first_bad, refusal_of};
ghost use Rattle.script.specs.Run.{told, ran_as, finished, Sound, Stored, Playable, Played, refusal, answer_of, memory_of, output_of};
ghost use Rattle.script.specs.Jobs.{is_two};
ghost use Rattle.script.specs.Report.{reported_as, answer_with, memory_with, output_with, report_of};
ghost use Rattle.script.specs.Heard.{Known, WholePart};
ghost use Rattle.script.specs.Watch.{ticking, ticks_of, clock_by, watched, allowances_of, most_used, after_event, after_ticks, Reports};

use chip::{Chip, Core, DRIVEN, FLOATING, IN_THE_WAY, Record, VERDICT};
use clock::Clock;
use kinds::Kind;
use margins::{Allowances, Report};
use part::Part;
use refusal::Refusal;
use rows::{Row, Script};

mod rows;

// The answer to a script run that is done.
#[derive(Clone, Copy)]
pub struct Done {
    pub chip: Chip,
    pub written: usize,
    pub ticks: u64,
}

// What refuses a script run, and the offset of the event that does; 0 where no event does.
#[derive(Clone, Copy)]
pub struct Refused {
    pub refusal: Refusal,
    pub offset: usize,
}

// No event of the script refuses it.
impl From<Refusal> for Refused {
    ghost from_gives = { λ why e. e ≡ record { refusal = why; offset = 0 } };

    fn from(refusal: Refusal) -> Refused {
        Refused { refusal, offset: 0 }
    }
}

// The answer to a script run with a margin report that is done, and the report afterwards.
#[derive(Clone, Copy)]
pub struct Reported {
    pub done: Done,
    pub report: Report,
}

// What is watched for a report: the ticks that the job that is followed has used so far, if one is followed; the allowances; and
// the report so far.
#[derive(Clone, Copy)]
struct Watch {
    followed: Option<u32>,
    allowances: Allowances,
    report: Report,
}

// What a script that is played ends with: the bytes written, the working ticks, and what was watched.
#[derive(Clone, Copy)]
struct Ended {
    written: usize,
    ticks: u64,
    watch: Option<Watch>,
}

// What a look through a script finds that no event refuses: the room that its records need, and the longest row of exchanges.
#[derive(Clone, Copy)]
struct Scanned {
    room: usize,
    longest: Row,
}

// What is known of a run that nothing refuses: the sectors of its memory, and the longest row of exchanges.
#[derive(Clone, Copy)]
struct Accepted {
    sectors: u8,
    longest: Row,
}

// What is wrong with the event at an offset as it is written, whatever the clock.
#[tactic(auto, using(kinds::proofs::Laws::step_inside), unfolding(crate::specs::Script::fault_at))]
fn fault_at(s: &[u8], at: usize) -> Option<Refusal>
    requires { at < length s.now }
    ensures { fault_number result ≡ fault_at s.now at }
{
    let kind = s[at] as u64;
    if !kinds::is_known_in_script(kind) {
        return Some(Refusal::UnknownKind);
    }
    if s.len() < kinds::next_at(s, at) {
        return Some(Refusal::CutOff);
    }
    if !kinds::is_in_range(kind, kinds::body_at(s, at)) {
        return Some(Refusal::BodyRange);
    }
    None
}

// The clock that a run starts with: there was no stamp yet.
fn no_stamp() -> Clock
    ensures { result ≡ unset }
{
    Clock::default()
}

// The clock after an event: a stamp sets it.
#[tactic(auto, unfolding(crate::specs::Watch::clock_by))]
fn clock_after(clock: Clock, kind: u64, body: u16) -> Clock
    ensures { result ≡ clock_by clock kind body }
{
    if kind == Kind::Stamp as u64 {
        return Clock { last: Some(body) };
    }
    clock
}

// Whether the event at an offset is of a kind, and nothing is wrong with it as it is written.
#[tactic(auto, using(kinds::proofs::Laws::step_inside, kinds::proofs::Laws::number_known, crate::proofs::Laws::written_good, crate::proofs::Laws::written_cut))]
fn is_good(s: &[u8], at: usize, kind: Kind) -> bool
    requires { at < length s.now }
    ensures { result ≡ (eqb (get_or s.now at 0) (number_of kind) && eqb (fault_at s.now at) 0) }
{
    let number = u64::from(kind);
    if s[at] as u64 != number {
        return false;
    }
    if s.len() < kinds::next_at(s, at) {
        return false;
    }
    kinds::is_in_range(number, kinds::body_at(s, at))
}

// The longer of a row and one of n exchanges at an offset.
fn longer(longest: Row, at: usize, n: usize) -> Row
    ensures { (result ≡ longest) ⊎ (result ≡ record { at = at; count = n }) }
{
    if longest.count < n {
        return Row { at, count: n };
    }
    longest
}

// A look through the script: the first bad event, or the room for the records and the longest row of exchanges.
// With a whole exchange nothing can be wrong, and most events are some: a row of them is passed in one go.
// Ticks, deselects, selects and stamps are frequent: what comes after them need not wait for a look at the
// table of kinds.
fn scan(s: &[u8]) -> Result<Scanned, Refused>
    requires { length s.now ≤ 65536 }
    ensures { MatchResult result (λ found. Sound s.now found.room × Known s.now found.longest) (λ bad. told bad ≡ first_bad unset (events s.now)) }
{
    let mut at = 0;
    let mut space = 0;
    let mut clock = no_stamp();
    let mut longest = Row {
        at: s.len(),
        count: 0,
    };
    // Stays: a row of exchanges is passed in one go, and any other event by its length, so no `for` counts these places.
    while at < s.len() {
        if (s[at] as u64 == Kind::Exchange as u64) & (at + 1 < s.len()) {
            let n = kinds::exchanges_from(s, at);
            space += kinds::room_of(Kind::Exchange as u64) * n;
            longest = longer(longest, at, n);
            at += 2 * n;
            continue;
        }
        if is_good(s, at, Kind::Ticks) {
            at += 3;
            continue;
        }
        if is_good(s, at, Kind::Deselect) {
            space += kinds::room_of(Kind::Deselect as u64);
            at += 2;
            continue;
        }
        if is_good(s, at, Kind::Select) {
            at += 1;
            continue;
        }
        if is_good(s, at, Kind::Stamp) {
            let stamp = kinds::body_at(s, at) as u16;
            if clock::went_back(clock, stamp) {
                let refusal = Refusal::WentBack;
                return Err(Refused {
                    refusal,
                    offset: at,
                });
            }
            clock = Clock { last: Some(stamp) };
            at += 3;
            continue;
        }
        if let Some(refusal) = fault_at(s, at) {
            return Err(Refused {
                refusal,
                offset: at,
            });
        }
        space += kinds::room_of(s[at] as u64);
        at = kinds::next_at(s, at);
    }
    Ok(Scanned {
        room: space,
        longest,
    })
}

// Stores a record's bytes at a place of the output; the answer is the place after them.
fn put(out: &mut [u8], at: usize, said: Record) -> usize
    requires { at + length (record_bytes said) ≤ length out.old }
    ensures { Stored out.old at said result out.new }
{
    match said {
        Record::Nothing => at,
        Record::Floating => {
            out[at] = FLOATING;
            at + 1
        }
        Record::Driven(b) => {
            out[at] = DRIVEN;
            out[at + 1] = b;
            at + 2
        }
        Record::Verdict(v) => {
            out[at] = VERDICT;
            out[at + 1] = v;
            at + 2
        }
        Record::InTheWay(first, last) => {
            out[at] = IN_THE_WAY;
            out[at + 1] = first;
            out[at + 2] = last;
            at + 3
        }
    }
}

// Whether an event is ticks: one, some, or those of a stamp.
// Stays: the kind is a number here and below, as in the laws of events of ticks (`runs-ticking`, `ticks-few`).
fn is_ticking(kind: u64) -> bool
    ensures { result ≡ ticking kind }
{
    (kind == Kind::Ticks as u64) | (kind == Kind::Tick as u64) | (kind == Kind::Stamp as u64)
}

// How many ticks such an event gives.
#[tactic(auto, unfolding(crate::specs::Watch::ticks_of))]
fn ticks_of(clock: Clock, kind: u64, body: u16) -> u32
    ensures { (result ≡ ticks_of clock kind body) × (result ≤ 65535) }
{
    if kind == Kind::Ticks as u64 {
        return body as u32;
    }
    if kind == Kind::Tick as u64 {
        return 1;
    }
    clock::moved_on(clock, body) as u32
}

// Allowance less ticks used.
fn margin(allowance: u32, used: u32) -> i32
    requires { (allowance ≤ 1000000) × (used ≤ most_used) }
    ensures { result ≡ margin allowance used }
{
    (allowance as i32) - (used as i32)
}

// Whether a record says that a job begins: verdict 2.
fn begins_job(said: Record) -> bool
    ensures { result ≡ is_two said }
{
    matches!(said, Record::Verdict(2))
}

// Whether a job is followed.
fn follows(watch: &Option<Watch>) -> bool
    ensures { result ≡ (watched watch.now).on }
{
    matches!(
        watch,
        Some(Watch {
            followed: Some(_),
            ..
        })
    )
}

// What is watched after an event that is no tick: a job that begins is followed from there on, and none where no job is left.
#[tactic(auto, unfolding(crate::specs::Watch::after_event))]
fn watch_event(watch: &mut Option<Watch>, core: Core, said: Record)
    ensures { (watched watch.new ≡ after_event core said (watched watch.old)) × (allowances_of watch.new ≡ allowances_of watch.old) }
{
    let Some(watch) = watch else {
        return;
    };
    if !chip::is_job(core.job.kind) {
        watch.followed = None;
        return;
    }
    if begins_job(said) {
        watch.followed = Some(0);
    }
}

// What is watched after n ticks that found a core, and left this one: all of them are used as long as the job stands; ended, only those up to its last step.
#[tactic(auto, unfolding(crate::specs::Watch::after_ticks))]
fn watch_ticks(watch: &mut Option<Watch>, core: Core, left: Core, n: u32, worked: u32)
    requires { (allowed (allowances_of watch.old) ≡ true) × ((watched watch.old).used + n ≤ most_used) × (worked ≤ n) }
    ensures { (watched watch.new ≡ after_ticks (allowances_of watch.old) core left n worked (watched watch.old)) × (allowances_of watch.new ≡ allowances_of watch.old) }
{
    let Some(watch) = watch else {
        return;
    };
    let Some(used) = watch.followed else {
        return;
    };
    if chip::is_job(left.job.kind) {
        watch.followed = Some(used + n);
        return;
    }
    let kind = core.job.kind;
    let early = margin(margins::allowance_of(kind, watch.allowances), used + worked);
    watch.followed = None;
    watch.report = margins::count(kind, early, watch.report);
}

// Runs a script that nothing refuses.
// Data bytes are most of a script: they go a row at a time, and whole frames of reads in one go
// (`rows`). Ticks go by the core alone. Whether ticks matter, because a job runs or one is followed,
// is kept beside the core, so that ticks that find neither copy nothing; it is read off the answers,
// since a core that is only handed on stays in one piece. The calls get a copy of the frame, so that
// it need not lie in memory from one event to the next. Where no report is wanted no job is followed.
fn play(
    chip: &mut Chip,
    mem: &mut [u8],
    area: &[u8],
    script: &[u8],
    out: &mut [u8],
    known: Accepted,
    watch: Option<Watch>,
) -> Ended
    requires { (allowed (allowances_of watch) ≡ true) × ((watched watch).on ≡ false) × ((watched watch).used ≡ 0) × Playable script.now (length out.old) × Known script.now known.longest × WholePart known.sectors (length mem.old) }
    ensures { Played (setting known.sectors area.now) chip.old mem.old script.now out.old (finished chip.new result.written result.ticks) mem.new out.new
        × ((watched result.watch).wanted ≡ (watched watch).wanted)
        × ((watched watch).wanted ≡ true
        → Reports (setting known.sectors area.now) (allowances_of watch) chip.old mem.old script.now (watched watch).report (watched result.watch).report) }
{
    let Accepted { sectors, longest } = known;
    let whole = Script {
        bytes: script,
        longest,
    };
    let mut core = chip.core;
    let mut frame = chip.frame;
    let mut watch = watch;
    let mut busy = chip::is_running(core);
    let mut clock = no_stamp();
    let mut at = 0;
    let mut pos = 0;
    let mut ticks: u64 = 0;
    // Stays: a stretch or an event goes on by as many bytes as it has, which no `for` counts.
    while at < script.len() {
        // Stays: a match on `Kind::try_from` is no plainer, since ticks of three kinds share a way, one of them if the chip is idle.
        let kind = script[at] as u64;
        if kind == Kind::Exchange as u64 {
            let before = frame;
            let went = rows::hear(
                core,
                before,
                &mut chip.load,
                mem,
                sectors,
                area,
                whole,
                at,
                out,
                pos,
            );
            frame = went.frame;
            pos = went.pos;
            at = went.at;
            continue;
        }
        if kind == Kind::Select as u64 {
            let before = frame;
            let went = rows::select(
                core,
                before,
                &mut chip.load,
                mem,
                sectors,
                whole,
                at,
                out,
                pos,
            );
            frame = went.frame;
            pos = went.pos;
            at = went.at;
            continue;
        }
        if !busy & (kind == Kind::Ticks as u64) {
            at = kinds::next_at(script, at);
            continue;
        }
        let body = kinds::body_at(script, at);
        if is_ticking(kind) {
            let n = ticks_of(clock, kind, body as u16);
            clock = clock_after(clock, kind, body as u16);
            at = kinds::next_at(script, at);
            if !busy {
                continue;
            }
            let t = job::ticks(core, &mut chip.held, mem, sectors, n);
            watch_ticks(&mut watch, core, t.core, n, t.worked);
            core = t.core;
            busy = chip::is_running(t.core) | follows(&watch);
            ticks += t.worked as u64;
            continue;
        }
        let before = frame;
        let s = event::step(
            core,
            before,
            &mut chip.load,
            &mut chip.held,
            mem,
            sectors,
            area,
            kind,
            body as u32,
        );
        pos = put(out, pos, s.said);
        watch_event(&mut watch, s.core, s.said);
        core = s.core;
        busy = chip::is_running(s.core) | follows(&watch);
        frame = s.frame;
        ticks += s.ticks as u64;
        at = kinds::next_at(script, at);
    }
    chip.core = core;
    chip.frame = frame;
    Ended {
        written: pos,
        ticks,
        watch,
    }
}

// What refuses a run on a chip that is legal or not, in the order of the definition; or what is known of one that nothing refuses.
#[tactic(auto, using(part::proofs::Laws::no_part, part::proofs::Laws::some_part, crate::proofs::HeardLaws::whole_part, crate::proofs::Laws::told_some), unfolding(crate::specs::Run::refusal))]
fn accept(
    fine: bool,
    n: usize,
    extent: usize,
    script: &[u8],
    space: usize,
) -> Result<Accepted, Refused>
    ensures { MatchResult result
        (λ known. WholePart known.sectors n × Known script.now known.longest × ((chip : ChipValue) → fine ≡ legal chip n → refusal chip n extent script.now space ≡ refusal_of 0 0))
        (λ no. (chip : ChipValue) → fine ≡ legal chip n → told no ≡ refusal chip n extent script.now space) }
{
    let Some(sectors) = part::sectors_of(n) else {
        return Err(Refusal::MemoryLength.into());
    };
    if Part::LONGEST_AREA < extent {
        return Err(Refusal::LongArea.into());
    }
    if !fine {
        return Err(Refusal::IllegalState.into());
    }
    if 65536 < script.len() {
        return Err(Refusal::LongScript.into());
    }
    let Scanned { room, longest } = scan(script)?;
    if space < room {
        return Err(Refusal::SmallOutput.into());
    }
    Ok(Accepted { sectors, longest })
}

// A script run with a margin report, for every chip, memory, area, script, output, allowances and report.
#[tactic(auto, using(crate::proofs::Laws::accepted, crate::proofs::Laws::told_some), unfolding(crate::specs::Report::answer_with, crate::specs::Report::memory_with, crate::specs::Report::output_with, crate::specs::Report::report_of, crate::specs::Report::refusal_with, crate::specs::Run::answer_of, crate::specs::Run::memory_of, crate::specs::Run::output_of, crate::specs::Run::world_after))]
pub fn run_with_report(
    chip: Chip,
    mem: &mut [u8],
    area: &[u8],
    script: &[u8],
    out: &mut [u8],
    allowances: Allowances,
    report: Report,
) -> Result<Reported, Refused>
    ensures { ((reported_as chip report result).ran ≡ answer_with allowances chip mem.old area.now script.now out.old)
        × (mem.new ≡ memory_with allowances chip mem.old area.now script.now out.old)
        × (out.new ≡ output_with allowances chip mem.old area.now script.now out.old)
        × ((reported_as chip report result).report ≡ report_of allowances report chip mem.old area.now script.now out.old) }
{
    if !margins::are_allowed(allowances) {
        return Err(Refusal::LargeAllowance.into());
    }
    let n = mem.len();
    let fine = legal::is_legal(chip, n);
    let known = accept(fine, n, area.len(), script, out.len())?;
    let watch = Watch {
        followed: None,
        allowances,
        report: margins::start_from(report),
    };
    let mut after = chip;
    let end = play(&mut after, mem, area, script, out, known, Some(watch));
    Ok(Reported {
        done: Done {
            chip: after,
            written: end.written,
            ticks: end.ticks,
        },
        report: end.watch.unwrap().report,
    })
}

// A script run, for every chip, memory, area, script and output.
#[tactic(auto, using(crate::proofs::Laws::accepted, crate::proofs::Laws::told_some), unfolding(crate::specs::Run::answer_of, crate::specs::Run::memory_of, crate::specs::Run::output_of, crate::specs::Run::world_after, margins::specs::Margins::allowed))]
pub fn run(
    chip: Chip,
    mem: &mut [u8],
    area: &[u8],
    script: &[u8],
    out: &mut [u8],
) -> Result<Done, Refused>
    ensures { (ran_as chip result ≡ answer_of chip mem.old area.now script.now out.old)
        × (mem.new ≡ memory_of chip mem.old area.now script.now out.old)
        × (out.new ≡ output_of chip mem.old area.now script.now out.old) }
{
    let n = mem.len();
    let fine = legal::is_legal(chip, n);
    let known = accept(fine, n, area.len(), script, out.len())?;
    let mut after = chip;
    let end = play(&mut after, mem, area, script, out, known, None);
    Ok(Done {
        chip: after,
        written: end.written,
        ticks: end.ticks,
    })
}
