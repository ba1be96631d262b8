// The evening's desk: carries out one line of an evening file on the evening's state, and tells what is printed of it.
#![tactic(auto)]

mod desk;

pub use desk::Desk;
