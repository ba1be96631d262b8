// Reads the lines of an evening file, one instruction a line.
#![tactic(auto)]

ghost use Rattle.std.specs.Prelude.{◌≡◌};
ghost use Rattle.std.specs.Option.{option_map};
ghost use Rattle.evening_file.specs.Lines.{up_to, line_said};
ghost use Rattle.evening_file.specs.Said.{seen};
ghost use Rattle.evening_file.specs.Spelling.{ByItsWords};

mod forms;
mod line;
mod numbers;
mod words;

use forms::read_form;
pub use line::Line;
use terms::ReaderFault;

// How many bytes may stand before a line's end.
const MAX_LINE: usize = 400;

// The bytes before the first line feed.
fn first_line(input: &[u8]) -> Option<&[u8]>
    ensures { option_map (λ x. x.now) result ≡ up_to input.now }
{
    let end = input.iter().position(|byte| *byte == b'\n')?;
    Some(&input[..end])
}

// Reads one line, up to the first line feed of `input`; refuses it by its length, then by its form, then by a number. However many
// spaces part its words, it is read by its letter and its words.
pub fn read(input: &[u8]) -> Result<Line<'_>, ReaderFault>
    ensures value { seen result ≡ line_said input.now }
    ensures words { ByItsWords input.now result }
{
    let line = first_line(input).ok_or(ReaderFault::Length)?;
    if line.len() > MAX_LINE {
        return Err(ReaderFault::Length);
    }
    read_form(line)
}
