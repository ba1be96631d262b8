// Why a block was not fed to its end.

#[derive(Clone, Copy, Debug, PartialEq, Eq)]
pub enum Stop {
    // There was no memory to print a line. `taken` bytes of the block were fed, up to the end of the line before it.
    Memory { taken: usize },
}
