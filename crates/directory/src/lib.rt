// The directory: codes with their numbers, ranked by the bytes of the codes, in memory that its user lends.
#![tactic(auto)]

ghost use Rattle.ordered.specs.Files.{in_use, Ascends};
ghost use Rattle.directory.specs.Codes.{earlier};

mod bytes;
mod calls;
mod code;

pub use code::Entry;
use ordered::OrderedFile;

// Codes with their numbers, each code at most once.
#[derive(Drop)]
pub struct Directory<'a> {
    file: OrderedFile<'a, Entry>,
    ghost ascends: { Ascends earlier (in_use file) },
}
