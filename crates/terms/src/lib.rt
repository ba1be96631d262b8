// The words that several layers share: the style of a contract, the kind of a credit rule, and every part's refusals.
#![tactic(auto)]

mod faults;
mod letters;

pub use faults::{DirectoryFault, LineFault, ReaderFault};
pub use letters::{RuleKind, Style};
