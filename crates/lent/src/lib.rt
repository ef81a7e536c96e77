// One event on a chip that the caller lends.
#![tactic(auto)]

ghost use Rattle.std.specs.Prelude.{◌≡◌};
ghost use Rattle.chip.specs.Record.{record_bytes};
ghost use Rattle.event.specs.Alone.{answered, answer_of, memory_of, said_of};

use chip::Chip;
use event::Done;
use refusal::Refusal;

// One event alone on a lent chip: the answer is the by-value event's, and its chip is stored.
pub fn event_on(
    chip: &mut Chip,
    mem: &mut [u8],
    area: &[u8],
    kind: u64,
    body: u64,
) -> Result<Done, Refusal>
    ensures { (answered chip.old result ≡ answer_of chip.old mem.old area.now kind body)
        × (chip.new ≡ (answer_of chip.old mem.old area.now kind body).chip)
        × (mem.new ≡ memory_of chip.old mem.old area.now kind body)
        × (record_bytes (answered chip.old result).said ≡ said_of chip.old mem.old area.now kind body) }
{
    let done = event::event(*chip, mem, area, kind, body)?;
    *chip = done.chip;
    Ok(done)
}

// The same event on a copy that is lent: the answer's chip is the one that came back.
// Stays: a twin of `event_on` and `event::event`, since C's `chip_event_lent` hands a chip over by value.
pub fn event_by_lending(
    chip: Chip,
    mem: &mut [u8],
    area: &[u8],
    kind: u64,
    body: u64,
) -> Result<Done, Refusal>
    ensures { (answered chip result ≡ answer_of chip mem.old area.now kind body)
        × (mem.new ≡ memory_of chip mem.old area.now kind body)
        × (record_bytes (answered chip result).said ≡ said_of chip mem.old area.now kind body) }
{
    let mut lent = chip;
    let done = event_on(&mut lent, mem, area, kind, body)?;
    Ok(Done { chip: lent, ..done })
}
