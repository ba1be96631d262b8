// The style of a contract and the kind of a credit rule, each named by a letter in an evening file.
ghost use Rattle.std.specs.Prelude.{◌≡◌};
ghost use Rattle.terms.specs.Letters.{style_named, kind_named};

use crate::ReaderFault;

// How a contract is settled.
#[derive(Clone, Copy, Debug, PartialEq, Eq)]
pub enum Style {
    // F, a future: variation margin every evening.
    Future,
    // S, a storable future: a future with a delivery margin near its expiry.
    Storable,
    // P, a premium option: the premium is margined, nothing is settled daily.
    Premium,
}

// Which kind of credit rule: perfect rules are served before regular ones.
#[derive(Clone, Copy, Debug, PartialEq, Eq)]
pub enum RuleKind {
    // P in an evening file.
    Perfect,
    // R in an evening file.
    Regular,
}

// The style that a letter names; any other letter is the reader's refusal of the line's form.
impl TryFrom<u8> for Style {
    type Error = ReaderFault;

    ghost try_from_gives = { λ letter r. r ≡ style_named letter };

    fn try_from(letter: u8) -> Result<Style, ReaderFault> {
        match letter {
            b'F' => Ok(Style::Future),
            b'S' => Ok(Style::Storable),
            b'P' => Ok(Style::Premium),
            _ => Err(ReaderFault::Form),
        }
    }
}

// The kind of rule that a letter names; any other letter is the reader's refusal of the line's form.
impl TryFrom<u8> for RuleKind {
    type Error = ReaderFault;

    ghost try_from_gives = { λ letter r. r ≡ kind_named letter };

    fn try_from(letter: u8) -> Result<RuleKind, ReaderFault> {
        match letter {
            b'P' => Ok(RuleKind::Perfect),
            b'R' => Ok(RuleKind::Regular),
            _ => Err(ReaderFault::Form),
        }
    }
}
