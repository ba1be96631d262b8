// The refusals of every part, each by its number, and a refused line's fault, which tells the part too.
ghost use Rattle.std.specs.Prelude.{◌≡◌, Some};
ghost use Rattle.terms.specs.declared.faults.LineFault.TheVariants.{Reader, Directory};
ghost use Rattle.terms.specs.Faults.{reader_number, directory_number, as_directory, fault_text};

use ordered::InsertFault;
use std::fmt;

// Why the reader refuses a line, in the order of precedence.
#[derive(Clone, Copy, Debug, PartialEq, Eq)]
pub enum ReaderFault {
    // Over 400 bytes before the LF, or no LF.
    Length = 26,
    // The letter, a letter word or the count of words is wrong.
    Form = 27,
    // A number is not an optional minus and 1 to 12 digits.
    Number = 28,
}

// Why a code is not entered or not found, in the order of precedence.
#[derive(Clone, Copy, Debug, PartialEq, Eq)]
pub enum DirectoryFault {
    // The code is not 1 to 12 bytes of A to Z and 0 to 9.
    Form = 1,
    // The code is there already.
    Present = 2,
    // All entries are in use.
    Full = 3,
    // No entry has this code.
    Missing = 4,
}

// Why a line is refused: the part that refused it, with that part's own fault.
#[derive(Clone, Copy, Debug, PartialEq, Eq)]
pub enum LineFault {
    Reader(ReaderFault),
    Directory(DirectoryFault),
}

// Each part's fault tells its number by itself: a cast is written for one enum, and no generic function can make it.
impl ReaderFault {
    // The number of the refusal.
    pub fn number(&self) -> u32
        ensures { result ≡ reader_number self.now }
    {
        *self as u32
    }
}

impl DirectoryFault {
    // The number of the refusal.
    pub fn number(&self) -> u32
        ensures { result ≡ directory_number self.now }
    {
        *self as u32
    }
}

// What follows is written out: promises rest on what each impl gives. A derive of `thiserror` says nothing of that, and makes none between plain cases.

// What the ordered file refuses, as the directory tells it. It stands here, since a `From` stands where one of its two types is declared.
impl From<InsertFault> for DirectoryFault {
    ghost from_gives = { λ x y. y ≡ as_directory x };

    fn from(e: InsertFault) -> DirectoryFault {
        match e {
            InsertFault::Present => DirectoryFault::Present,
            InsertFault::Full => DirectoryFault::Full,
        }
    }
}

impl From<ReaderFault> for LineFault {
    ghost from_gives = { λ x y. y ≡ Reader x };

    fn from(e: ReaderFault) -> LineFault {
        LineFault::Reader(e)
    }
}

impl From<DirectoryFault> for LineFault {
    ghost from_gives = { λ x y. y ≡ Directory x };

    fn from(e: DirectoryFault) -> LineFault {
        LineFault::Directory(e)
    }
}

// A refused line tells the part that refused it, and that part's number.
impl fmt::Display for LineFault {
    ghost output = { λ x. Some (fault_text x) };

    fn fmt<W: fmt::Write>(&self, f: &mut fmt::Formatter<W>) -> fmt::Result {
        let (part, number) = match self {
            LineFault::Reader(e) => ("reader", e.number()),
            LineFault::Directory(e) => ("directory", e.number()),
        };
        write!(f, "{part} {number}")
    }
}
