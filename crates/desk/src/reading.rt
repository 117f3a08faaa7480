// Files and standard input, read whole.

ghost use Rattle.std.specs.Prelude.{IfOk};
ghost use Rattle.io.specs.Counts.{IsPrefixLen};

use crate::Failure;
use crate::saying::{argument, failed};
use console::{open_file, read_whole};

// The file that argument `i` names, as much of it as the buffer takes. Where it can't be opened or
// read, that has been said.
pub fn read_argument(rt: &HostRuntime, i: usize, bytes: &mut [u8]) -> Result<usize, Failure>
    ensures { IfOk result (λ n. IsPrefixLen n bytes.new) }
{
    let mut room = io::buffer();
    let length = argument(rt, i, &mut room);
    let name = &room[..length];
    let mut file = open_file(rt, name).map_err(|error| failed(rt, name, error))?;
    read_whole(&mut file, bytes).map_err(|error| failed(rt, name, error))
}

// The same of standard input.
fn read_input(rt: &HostRuntime, bytes: &mut [u8]) -> Result<usize, Failure>
    ensures { IfOk result (λ n. IsPrefixLen n bytes.new) }
{
    read_whole(&mut rt.stdin(), bytes).map_err(|error| failed(rt, b"standard input", error))
}

// The file that argument `i` names, or standard input where there is none.
pub fn read_text(rt: &HostRuntime, i: Option<usize>, bytes: &mut [u8]) -> Result<usize, Failure>
    ensures { IfOk result (λ n. IsPrefixLen n bytes.new) }
{
    match i {
        Some(i) => read_argument(rt, i, bytes),
        None => read_input(rt, bytes),
    }
}
