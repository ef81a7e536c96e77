// The exports for C: each calls the function of its name in `boundary`, with the same clauses. `boundary` says what a caller answers for.
// Stays: twins of those functions, since a crate is a library or a static library.
#![tactic(auto)]

ghost use Rattle.std.specs.Prelude.{◌≡◌};
ghost use Rattle.part.specs.Area.{own_area};
ghost use Rattle.chip.specs.Chip.{fresh};
ghost use Rattle.sfdp.specs.Reader.{found_of};
ghost use Rattle.writer.specs.Writer.{answer_of, output_of};
ghost use Rattle.boundary.specs.Numbers.{numbers_of, legal_numbers};
ghost use Rattle.boundary.specs.Answers.{event_of, event_memory, run_of, run_memory, run_output, report_run_of, report_memory, report_output, report_numbers, table_numbers, area_numbers, written_numbers};

use boundary::{
    AreaNumbers, ChipNumbers, EventNumbers, ReportedNumbers, RunNumbers, TableNumbers,
    WrittenNumbers,
};
use margins::{Allowances, Report};

// The numbers of a fresh chip, from any status byte.
#[unsafe(no_mangle)]
pub extern "C" fn chip_fresh(status: u8) -> ChipNumbers
    ensures { result ≡ numbers_of (fresh status) }
{
    boundary::chip_fresh(status)
}

// Whether numbers are a legal state for a memory of n cells.
#[unsafe(no_mangle)]
pub extern "C" fn chip_legal(c: ChipNumbers, n: usize) -> bool
    ensures { result ≡ legal_numbers c n }
{
    boundary::chip_legal(c, n)
}

// One event alone, for every kind, body, state, area and memory length.
#[unsafe(no_mangle)]
pub extern "C" fn chip_event(
    c: ChipNumbers,
    mem: &mut [u8],
    area: &[u8],
    kind: u64,
    body: u64,
) -> EventNumbers
    ensures { (result ≡ event_of c mem.old area.now kind body)
        × (mem.new ≡ event_memory c mem.old area.now kind body) }
{
    boundary::chip_event(c, mem, area, kind, body)
}

// The same event, on a chip that is lent.
#[unsafe(no_mangle)]
pub extern "C" fn chip_event_lent(
    c: ChipNumbers,
    mem: &mut [u8],
    area: &[u8],
    kind: u64,
    body: u64,
) -> EventNumbers
    ensures { (result ≡ event_of c mem.old area.now kind body)
        × (mem.new ≡ event_memory c mem.old area.now kind body) }
{
    boundary::chip_event_lent(c, mem, area, kind, body)
}

// A script run, for every state, memory, area, script and output.
#[unsafe(no_mangle)]
pub extern "C" fn chip_run(
    c: ChipNumbers,
    mem: &mut [u8],
    area: &[u8],
    script: &[u8],
    out: &mut [u8],
) -> RunNumbers
    ensures { (result ≡ run_of c mem.old area.now script.now out.old)
        × (mem.new ≡ run_memory c mem.old area.now script.now out.old)
        × (out.new ≡ run_output c mem.old area.now script.now out.old) }
{
    boundary::chip_run(c, mem, area, script, out)
}

// A script run with a margin report, for every state, memory, area, script, output, allowances and report.
#[unsafe(no_mangle)]
pub extern "C" fn chip_run_report(
    c: ChipNumbers,
    mem: &mut [u8],
    area: &[u8],
    script: &[u8],
    out: &mut [u8],
    allowances: Allowances,
    report: Report,
) -> ReportedNumbers
    ensures { (result.run ≡ report_run_of allowances c mem.old area.now script.now out.old)
        × (mem.new ≡ report_memory allowances c mem.old area.now script.now out.old)
        × (out.new ≡ report_output allowances c mem.old area.now script.now out.old)
        × (result.report ≡ report_numbers allowances report c mem.old area.now script.now out.old) }
{
    boundary::chip_run_report(c, mem, area, script, out, allowances, report)
}

// Where the parameter table of an identity stands in an SFDP area, or what refuses it.
#[unsafe(no_mangle)]
pub extern "C" fn sfdp_find(area: &[u8], identity: u8) -> TableNumbers
    ensures { result ≡ table_numbers (found_of area.now identity) }
{
    boundary::sfdp_find(area, identity)
}

// The part's own SFDP area, for a caller to lend.
#[unsafe(no_mangle)]
pub extern "C" fn sfdp_own_area() -> AreaNumbers
    ensures { result ≡ area_numbers own_area }
{
    boundary::sfdp_own_area()
}

// The script that programs some bytes from an address on, for a memory of n cells.
#[unsafe(no_mangle)]
pub extern "C" fn write_program(
    n: usize,
    address: usize,
    bytes: &[u8],
    out: &mut [u8],
) -> WrittenNumbers
    ensures { (result ≡ written_numbers (answer_of n address bytes.now out.old))
        × (out.new ≡ output_of n address bytes.now out.old) }
{
    boundary::write_program(n, address, bytes, out)
}
