// The desk: the evening's state, and one line carried out on it.
ghost use Rattle.std.specs.Prelude.{◌≡◌, true, is_err, Ok};
ghost use Rattle.ordered.specs.Files.{told};
ghost use Rattle.directory.specs.Entries.{entries, places};
ghost use Rattle.evening_file.specs.Said.{said};
ghost use Rattle.evening_desk.specs.Evening.{held, memory, account, new_account, onward, carried, outcome, Carries, Worked};

use directory::Directory;
use evening_file::{Line, read};
use std::alloc::AllocError;
use terms::LineFault;

// What an evening works on. Each part is lent by whoever holds it.
#[derive(Drop)]
pub struct Desk<'d, 'a> {
    accounts: &'d mut Directory<'a>,
}

impl<'d, 'a> Desk<'d, 'a> {
    // A desk over a directory of accounts.
    pub fn new(accounts: &'d mut Directory<'a>) -> Self
        ensures { held result ≡ record { accounts = entries accounts.old; most = places accounts.old } }
    {
        Desk { accounts }
    }

    // Carries out one line, given with its LF, and appends what is printed of it to `out`. Where there is no memory to print it,
    // the desk and `out` are as before the line.
    pub fn work(&mut self, number: u64, line: &[u8], out: &mut Vec<u8>) -> Result<(), AllocError>
        ensures value { Worked (held self.old) number line.now out.old.items result (held self.new) out.new.items }
        ensures memory { is_err (outcome (held self.old) line.now) ≡ true → memory self.new ≡ memory self.old }
    {
        let Err(fault) = self.read_and_carry_out(line) else {
            return Ok(());
        };
        let refusal = format!(in *out.allocator(); "line {number} {fault}\n")?;
        out.extend_from_slice(refusal.as_bytes())
    }

    // Reads a line and carries out what it says.
    fn read_and_carry_out(&mut self, line: &[u8]) -> Result<(), LineFault>
        ensures { Carries self.old (outcome (held self.old) line.now) result self.new }
    {
        self.carry_out(read(line)?)
    }

    // The number of an account word.
    fn account(&self, word: &[u8]) -> Result<u32, LineFault>
        ensures { result ≡ account (held self.now) word.now }
    {
        Ok(self.accounts.find(word)?)
    }

    // A new account, with the number of accounts that came before it.
    fn enter_account(&mut self, word: &[u8]) -> Result<(), LineFault>
        ensures { Carries self.old (new_account (held self.old) word.now) result self.new }
    {
        let number = u32::try_from(self.accounts.len()).unwrap_or(u32::MAX);
        Ok(self.accounts.enter(word, number)?)
    }

    // Carries out what a line says.
    fn carry_out(&mut self, line: Line<'_>) -> Result<(), LineFault>
        ensures { Carries self.old (carried (held self.old) (said line.entry)) result self.new }
    {
        match line {
            Line::Account { account } => self.enter_account(account),
            Line::Trade { buyer, seller, .. } => self.both(buyer, seller),
            Line::Transfer { from, to } => self.both(from, to),
            Line::Reading { account } => {
                self.account(account)?;
                Ok(())
            }
            Line::Contract { .. }
            | Line::Future { .. }
            | Line::Option { .. }
            | Line::Minimum { .. }
            | Line::Rule { .. }
            | Line::Price { .. }
            | Line::Close
            | Line::Expiry { .. } => Ok(()),
        }
    }

    // Looks two account words up, the first one first.
    fn both(&self, first: &[u8], second: &[u8]) -> Result<(), LineFault>
        ensures { result ≡ told (onward (account (held self.now) first.now) (λ _. onward (account (held self.now) second.now) (λ _. Ok (held self.now)))) }
    {
        self.account(first)?;
        self.account(second)?;
        Ok(())
    }
}
