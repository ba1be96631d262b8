// The evening as its input arrives: blocks of any size go in, lines are carried out as they end, and what they print comes out.
#![tactic(auto)]

ghost use Rattle.std.specs.Prelude.{◌≤◌, length};

mod calls;
mod fault;

use arrayvec::ArrayVec;
pub use fault::Stop;

// The most bytes that are kept of a line: one more than a line may have before its LF.
const MAX_KEPT: usize = 401;

// The bytes of a line whose end has not come yet, and how many lines have ended. The desk and the output are lent to each call: a
// stream that held them would keep its caller from both between two blocks. That at most `MAX_KEPT` bytes are kept stands here: the
// vector's own type does not show its capacity.
#[derive(Drop)]
pub struct Stream {
    kept: ArrayVec<u8, MAX_KEPT>,
    lines: u64,
    ghost few: { length kept.items ≤ 401 },
}
