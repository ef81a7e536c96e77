// The commands of the LE25S161: their opcodes by name, and the table of what each may do.
#![tactic(auto)]

ghost use Rattle.std.specs.Prelude.{◌≡◌};
ghost use Rattle.commands.specs.Table.{row_of, row_if, fits, is_read, is_program};

// The opcodes are constants of this type; it holds nothing.
// Stays: a frame's opcode is any byte that came, so `chip::Frame` holds a byte; an enum would be asked for by `try_from` at each test of that byte, where now a pattern is named.
#[derive(Clone, Copy)]
pub struct Command {}

// How many bytes a frame has: any number, exactly so many, or so many and more; 6 means six or more.
#[derive(Clone, Copy, PartialEq, Eq)]
pub enum Length {
    Any,
    Exactly(u8),
    AtLeast(u8),
}

// What the table says of an opcode.
#[derive(Clone, Copy, PartialEq, Eq)]
pub struct Row {
    pub length: Length,
    pub running: bool,
    pub suspended: bool,
}

impl Command {
    pub const WRITE_ENABLE: u8 = 0x06;

    pub const WRITE_DISABLE: u8 = 0x04;

    pub const READ_STATUS: u8 = 0x05;

    pub const WRITE_STATUS: u8 = 0x01;

    pub const LOW_POWER_READ: u8 = 0x03;

    pub const HIGH_SPEED_READ: u8 = 0x0B;

    pub const SMALL_SECTOR_ERASE: u8 = 0x20;

    pub const SMALL_SECTOR_ERASE_2: u8 = 0xD7;

    pub const SECTOR_ERASE: u8 = 0xD8;

    pub const CHIP_ERASE: u8 = 0x60;

    pub const CHIP_ERASE_2: u8 = 0xC7;

    pub const PAGE_PROGRAM: u8 = 0x02;

    pub const PAGE_PROGRAM_2: u8 = 0x0A;

    pub const SUSPEND: u8 = 0xB0;

    pub const RESUME: u8 = 0x30;

    pub const JEDEC_ID: u8 = 0x9F;

    pub const WAKE: u8 = 0xAB;

    pub const READ_SFDP: u8 = 0x5A;

    pub const DEEP_POWER_DOWN: u8 = 0xB9;

    pub const RESET_ENABLE: u8 = 0x66;

    pub const RESET: u8 = 0x99;
}

impl Length {
    // Whether a frame of n bytes is that long.
    pub fn fits(self, n: u8) -> bool
        ensures { result ≡ fits self n }
    {
        match self {
            Length::Any => true,
            Length::Exactly(bytes) => n == bytes,
            Length::AtLeast(bytes) => bytes <= n,
        }
    }
}

// What the table says of an opcode that is in it: the length of its frames, whether it is allowed while a job runs, and in suspension.
#[tactic(auto, unfolding(crate::specs::Table::row_of, crate::specs::Table::row_in))]
pub fn row_of(opcode: u8) -> Option<Row>
    ensures { result ≡ row_if (row_of opcode) }
{
    let (length, running, suspended) = match opcode {
        Command::WRITE_ENABLE => (Length::Exactly(1), false, false),
        Command::WRITE_DISABLE => (Length::Exactly(1), false, false),
        Command::READ_STATUS => (Length::Any, true, true),
        Command::WRITE_STATUS => (Length::Exactly(2), false, false),
        Command::LOW_POWER_READ => (Length::Any, false, true),
        Command::HIGH_SPEED_READ => (Length::Any, false, true),
        Command::SMALL_SECTOR_ERASE => (Length::Exactly(4), false, true),
        Command::SMALL_SECTOR_ERASE_2 => (Length::Exactly(4), false, true),
        Command::SECTOR_ERASE => (Length::Exactly(4), false, true),
        Command::CHIP_ERASE => (Length::Exactly(1), false, true),
        Command::CHIP_ERASE_2 => (Length::Exactly(1), false, true),
        Command::PAGE_PROGRAM => (Length::AtLeast(5), false, true),
        Command::PAGE_PROGRAM_2 => (Length::AtLeast(5), false, true),
        Command::SUSPEND => (Length::Exactly(1), true, false),
        Command::RESUME => (Length::Exactly(1), false, true),
        Command::JEDEC_ID => (Length::Any, false, false),
        Command::WAKE => (Length::Any, false, false),
        Command::READ_SFDP => (Length::Any, false, false),
        Command::DEEP_POWER_DOWN => (Length::Exactly(1), false, false),
        Command::RESET_ENABLE => (Length::Exactly(1), true, true),
        Command::RESET => (Length::Exactly(1), true, true),
        _ => return None,
    };
    Some(Row {
        length,
        running,
        suspended,
    })
}

// Whether an opcode is a read, which is verdict 0 at any length, loose or not.
#[tactic(auto, unfolding(crate::specs::Table::is_read))]
pub fn is_read(opcode: u8) -> bool
    ensures { result ≡ is_read opcode }
{
    match opcode {
        Command::READ_STATUS => true,
        Command::LOW_POWER_READ | Command::HIGH_SPEED_READ => true,
        Command::JEDEC_ID => true,
        Command::READ_SFDP => true,
        _ => false,
    }
}

// Whether an opcode is a page program.
#[tactic(auto, unfolding(crate::specs::Table::is_program))]
pub fn is_program(opcode: u8) -> bool
    ensures { result ≡ is_program opcode }
{
    matches!(opcode, Command::PAGE_PROGRAM | Command::PAGE_PROGRAM_2)
}
