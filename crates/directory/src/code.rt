// Codes of accounts and contracts, and the directory's entries.
ghost use Rattle.std.specs.Prelude.{◌≤◌};

// The longest code, in bytes.
pub const MAX_CODE: usize = 12;

// A code: its bytes at the front, zeros behind them. The memory is fixed, and a constant entry fills it before its first use: the kit's string of
// fixed capacity cannot be made in a constant.
#[derive(Clone, Copy, Debug, PartialEq, Eq)]
pub struct Code {
    pub(crate) bytes: [u8; MAX_CODE],
    pub(crate) len: usize,
    ghost few: { len ≤ 12 },
}

// A code with its number.
#[derive(Clone, Copy, Debug, PartialEq, Eq)]
pub struct Entry {
    pub code: Code,
    pub number: u32,
}

impl Entry {
    // An entry to fill lent memory with before its first use.
    pub const NONE: Entry = Entry {
        code: Code {
            bytes: [0; MAX_CODE],
            len: 0,
        },
        number: 0,
    };
}
