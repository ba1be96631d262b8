// The calls on a stream: feed a block, end the input.
ghost use Rattle.std.specs.Prelude.{◌≡◌, true, length, take, is_ok, ◌++◌};
ghost use Rattle.evening_desk.specs.Evening.{held};
ghost use Rattle.evening_stream.specs.Input.{state_of, clipped, goes_on, Fed, Finished, LineEnded};
ghost use Rattle.evening_stream.specs.Whole.{fresh, ByItsLines};

use crate::Stream;
use crate::fault::Stop;
use arrayvec::ArrayVec;
use evening_desk::Desk;
use std::alloc::AllocError;

impl Stream {
    // The start of the input.
    pub fn new() -> Stream
        ensures { (d : Desk) → state_of result d ≡ fresh (held d) }
    {
        Stream {
            kept: ArrayVec::new(),
            lines: 0,
        }
    }

    // Feeds one block of the input: carries out each line that ends in it, and appends what is printed to `out`. For want of memory it
    // stops at the end of the last line carried out, and tells how much of the block was taken.
    pub fn feed(
        &mut self,
        desk: &mut Desk<'_, '_>,
        block: &[u8],
        out: &mut Vec<u8>,
    ) -> Result<(), Stop>
        ensures { Fed (state_of self.old desk.old) block.now out.old.items result (state_of self.new desk.new) out.new.items }
    {
        // Counted along: want of memory tells how much of the block was taken.
        let mut taken = 0;
        for line in block.split_inclusive(|b| *b == b'\n') {
            if line.ends_with(b"\n") {
                self.end_line(desk, line, out)
                    .map_err(|_| Stop::Memory { taken })?;
            } else {
                self.keep(line);
            }
            taken += line.len();
        }
        Ok(())
    }

    // Ends the input: bytes behind the last LF are a line with no LF. However the input was cut into blocks, all that was printed is
    // what its lines print in their order. For want of memory nothing changes.
    pub fn end(&mut self, desk: &mut Desk<'_, '_>, out: &mut Vec<u8>) -> Result<(), Stop>
        ensures value { Finished (state_of self.old desk.old) out.old.items result (state_of self.new desk.new) out.new.items }
        ensures whole { is_ok result ≡ true → ByItsLines (state_of self.old desk.old) out.old.items out.new.items }
    {
        if self.kept.is_empty() {
            return Ok(());
        }
        self.end_line(desk, &[], out)
            .map_err(|_| Stop::Memory { taken: 0 })
    }

    // The line that has not ended ends with these bytes, and is carried out. Where there is no memory to print it, nothing changes.
    fn end_line(
        &mut self,
        desk: &mut Desk<'_, '_>,
        rest: &[u8],
        out: &mut Vec<u8>,
    ) -> Result<(), AllocError>
        ensures { LineEnded (state_of self.old desk.old) rest.now out.old.items result (state_of self.new desk.new) out.new.items }
    {
        let number = self.lines.saturating_add(1);
        let from = self.kept.len();
        // A line of which nothing is kept is carried out where it stands in its block. Two calls: a reference that is one of two borrows has no rule.
        let worked = if from == 0 {
            desk.work(number, rest, out)
        } else {
            self.keep(rest);
            desk.work(number, self.kept.as_slice(), out)
        };
        // Cut back in both cases: where the line was worked, nothing is kept of it in the end.
        self.kept.truncate(from);
        worked?;
        self.lines = number;
        self.kept.clear();
        Ok(())
    }

    // Keeps more bytes of the line that has not ended, as many as there is a place for.
    fn keep(&mut self, more: &[u8])
        ensures kept { (d : Desk) → state_of self.new d ≡ goes_on (state_of self.old d) (clipped (self.old.kept.items ++ more.now)) }
        ensures front { take (length self.old.kept.items) self.new.kept.items ≡ self.old.kept.items }
    {
        let n = self.kept.remaining_capacity().min(more.len());
        self.kept.try_extend_from_slice(&more[..n]).unwrap();
    }
}
