// The margin report: a line for each kind of job, and what one more margin does to it.
#![tactic(auto)]

ghost use Rattle.std.specs.Prelude.{◌≡◌, min, ◌+◌};
ghost use Rattle.margins.specs.Margins.{allowed, allowance_of, lesser, greater, joined, tidy_line, tidied, counted};

use chip::JobKind;

// A kind's jobs so far: how many, and the smallest and the largest of their margins.
#[repr(C)]
#[derive(Clone, Copy, PartialEq, Eq, Default)]
pub struct Line {
    pub count: u32,
    pub smallest: i32,
    pub largest: i32,
}

// A line for each kind of job.
#[repr(C)]
#[derive(Clone, Copy, PartialEq, Eq, Default)]
pub struct Report {
    pub status: Line,
    pub program: Line,
    pub small: Line,
    pub sector: Line,
    pub chip: Line,
}

// How many ticks a job of each kind may use.
// Stays: this is not `Report` over another type, since C's `chip_run_report` takes both, and no exported function may have a generic struct in its signature.
#[repr(C)]
#[derive(Clone, Copy, PartialEq, Eq)]
pub struct Allowances {
    pub status: u32,
    pub program: u32,
    pub small: u32,
    pub sector: u32,
    pub chip: u32,
}

// The largest allowance.
const MOST_TICKS: u32 = 1000000;

// Whether each allowance is in its range.
#[tactic(auto, unfolding(crate::specs::Margins::allowed))]
pub fn are_allowed(a: Allowances) -> bool
    ensures { result ≡ allowed a }
{
    a.status <= MOST_TICKS
        && a.program <= MOST_TICKS
        && a.small <= MOST_TICKS
        && a.sector <= MOST_TICKS
        && a.chip <= MOST_TICKS
}

// The allowance of a kind of job; none for no job.
pub fn allowance_of(kind: JobKind, a: Allowances) -> u32
    ensures { result ≡ allowance_of kind a }
{
    match kind {
        JobKind::Idle => 0,
        JobKind::WriteStatus(_) => a.status,
        JobKind::Program => a.program,
        JobKind::SmallErase => a.small,
        JobKind::SectorErase => a.sector,
        JobKind::ChipErase => a.chip,
    }
}

// A line with one margin more; where the count is 0, the margins that stand there are not read.
#[tactic(auto, unfolding(crate::specs::Margins::joined))]
fn join(margin: i32, line: Line) -> Line
    ensures { result ≡ joined margin line }
{
    if line.count == 0 {
        return Line {
            count: 1,
            smallest: margin,
            largest: margin,
        };
    }
    Line {
        count: line.count.saturating_add(1),
        smallest: line.smallest.min(margin),
        largest: line.largest.max(margin),
    }
}

// A line without jobs has no margins.
#[tactic(auto, unfolding(crate::specs::Margins::tidy_line))]
fn tidy(line: Line) -> Line
    ensures { result ≡ tidy_line line }
{
    if line.count != 0 {
        line
    } else {
        Line::default()
    }
}

// The report that a script starts from: a line without jobs has no margins, whatever was handed in.
pub fn start_from(report: Report) -> Report
    ensures { result ≡ tidied report }
{
    Report {
        status: tidy(report.status),
        program: tidy(report.program),
        small: tidy(report.small),
        sector: tidy(report.sector),
        chip: tidy(report.chip),
    }
}

// The report with one more job of a kind, by its margin.
pub fn count(kind: JobKind, margin: i32, report: Report) -> Report
    ensures { result ≡ counted kind margin report }
{
    match kind {
        JobKind::Idle => report,
        JobKind::WriteStatus(_) => Report {
            status: join(margin, report.status),
            ..report
        },
        JobKind::Program => Report {
            program: join(margin, report.program),
            ..report
        },
        JobKind::SmallErase => Report {
            small: join(margin, report.small),
            ..report
        },
        JobKind::SectorErase => Report {
            sector: join(margin, report.sector),
            ..report
        },
        JobKind::ChipErase => Report {
            chip: join(margin, report.chip),
            ..report
        },
    }
}
