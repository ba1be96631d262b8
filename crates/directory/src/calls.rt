// The calls on a directory: open, enter and find.
ghost use Rattle.std.specs.Prelude.{◌≡◌, ℕ, true, List, [], ◌∷◌, length, is_err};
ghost use Rattle.ordered.specs.Files.{told, left};
ghost use Rattle.directory.specs.Entries.{entries, stored, places, entering, finding};
ghost use Rattle.directory.specs.Promise.{GoesOn, FoundAsAccepted};

use crate::Directory;
use crate::code::{Code, Entry};
use ordered::OrderedFile;
use terms::DirectoryFault;

impl<'a> Directory<'a> {
    // An empty directory with as many entries as the memory holds.
    pub fn open(memory: &'a mut [Entry]) -> Self
        ensures empty { entries result ≡ [] }
        ensures room { places result ≡ length memory.old }
    {
        let file = OrderedFile::open(memory);
        Directory { file }
    }

    // Enters a code with its number. Refused: 1 another form, 2 there already, 3 all entries in use.
    pub fn enter(&mut self, code: &[u8], number: u32) -> Result<(), DirectoryFault>
        ensures answers { result ≡ told (entering (places self.old) (entries self.old) code.now number) }
        ensures items { entries self.new ≡ left (entries self.old) (entering (places self.old) (entries self.old) code.now number) }
        ensures room { places self.new ≡ places self.old }
        ensures same { is_err result ≡ true → stored self.new ≡ stored self.old }
        ensures attempts { GoesOn self.old self.new code.now number }
    {
        let code = Code::try_from(code)?;
        self.file.insert(Entry { code, number })?;
        Ok(())
    }

    // The number of a code. Refused: 1 another form, 4 no entry has it. After any sequence of entries, every code that was
    // accepted is found with its number and no other code is.
    pub fn find(&self, code: &[u8]) -> Result<u32, DirectoryFault>
        ensures value { result ≡ finding (entries self.now) code.now }
        ensures accepted { FoundAsAccepted self.now code.now result }
    {
        let code = Code::try_from(code)?;
        let at = self
            .file
            .find(&Entry { code, number: 0 })
            .map_err(|_| DirectoryFault::Missing)?;
        Ok(self.file.used()[at].number)
    }

    // How many entries are in use.
    pub fn len(&self) -> usize
        ensures { result ≡ length (entries self.now) }
    {
        self.file.used().len()
    }
}
