// The ordered file: records of any kind that has a ranking, in strictly ascending order, in memory that its user lends.
#![tactic(auto)]

mod calls;
mod file;
mod rank;

pub use file::{InsertFault, OrderedFile};
pub use rank::{Rank, Void};
