// Codes from bytes and back, and the ranking of entries.
ghost use Rattle.std.specs.Prelude.{◌≡◌};
ghost use Rattle.directory.specs.Codes.{code_byte, code_bytes, Coded, text, text_of, earlier};
ghost use Rattle.directory.specs.Ranks.{by_code};

use crate::code::{Code, Entry, MAX_CODE};
use ordered::Rank;
use std::cmp::Ordering;
use terms::DirectoryFault;

// Entries rank by the bytes of their codes.
impl Rank for Entry {
    ghost fields = { text_of };

    ghost before = { earlier };

    ghost lawful = { by_code };

    fn rank(&self, other: &Entry) -> Ordering {
        self.code.text().cmp(other.code.text())
    }
}

// The code with these bytes; refused where they are no code.
impl TryFrom<&[u8]> for Code {
    type Error = DirectoryFault;

    ghost try_from_gives = { λ bytes r. Coded bytes.now r };

    fn try_from(bytes: &[u8]) -> Result<Code, DirectoryFault> {
        let len = bytes.len();
        if len < 1 || len > MAX_CODE || !all_code_bytes(bytes) {
            return Err(DirectoryFault::Form);
        }
        let mut padded = [0; MAX_CODE];
        padded[..len].copy_from_slice(bytes);
        Ok(Code { bytes: padded, len })
    }
}

impl Code {
    // The code's bytes.
    pub(crate) fn text(&self) -> &[u8]
        ensures { result.now ≡ text self.now }
    {
        &self.bytes[..self.len]
    }
}

// Whether every byte may stand in a code.
fn all_code_bytes(bytes: &[u8]) -> bool
    ensures { result ≡ code_bytes bytes.now }
{
    bytes.iter().all(|b| is_code_byte(*b))
}

// Whether a byte may stand in a code.
fn is_code_byte(b: u8) -> bool
    ensures { result ≡ code_byte b }
{
    b.is_ascii_uppercase() || b.is_ascii_digit()
}
