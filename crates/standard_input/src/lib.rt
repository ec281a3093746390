// Standard input, for the programs that answer one text.
// What a call of the operating system reads is outside every contract; which part of the buffer it may change is not.
#![tactic(auto)]

ghost use Rattle.std.specs.Prelude.{◌≡◌, ◌≤◌, ◌<◌, length, take};
ghost use Rattle.standard_input.specs.Received.{Within, Further};
ghost use Rattle.standard_input.specs.Size.{input_bytes};

use std::io::{self, Read};

// As much of the input as can decide the answer. Lines that pass hold at most 4096, 2048, 4096 and 1 numbers, so they take at most
// 4096·14 + 2048·14 + 4096·22 + 14 = 176,142 bytes (one number to a line). The longest good line has 4 + 64·17 + 1 = 1,093 bytes, so within that
// many more the next line either ends or shows as a Frame, whatever follows. `Enough` in each program's specs/Printed.antt says it of this size.
pub const INPUT_BYTES: usize = 180224;

// Reads once behind the first `done` bytes, which stay as they were read: how many bytes there are now, or none at the end of the input.
// A read that fails is told apart from the end.
fn read_more<R: Read>(stdin: &mut R, input: &mut [u8], done: usize) -> io::Result<Option<usize>>
    requires { done < length input.old }
    ensures { (take done input.new ≡ take done input.old) × Further result done (length input.new) }
{
    let count = stdin.read(&mut input[done..])?;
    Ok((count > 0).then_some(done + count))
}

// Reads until the input ends or the programs' buffer is full: how many bytes came. An input cut short by a failure is not answered.
// Memory is fixed, so the buffer is the program's own and is lent, and the count says how much of it came.
// No method of std stands for the loop: `read_to_end` needs a heap, and `read_exact` takes the input's end for a failure.
pub fn read_input<R: Read>(stdin: &mut R, input: &mut [u8]) -> io::Result<usize>
    requires { length input.old ≡ input_bytes }
    ensures { Within result (length input.new) }
{
    let mut done = 0;
    while done < input.len()
        && let Some(total) = read_more(stdin, input, done)?
    {
        done = total;
    }
    Ok(done)
}

// Reads once and drops what came; whether there may be more.
// Out of line, so that its 64 KiB are no part of the frame on which an input is answered.
#[inline(never)]
fn drop_some<R: Read>(stdin: &mut R) -> bool {
    let mut scratch = [0u8; 65536];
    stdin.read(&mut scratch).is_ok_and(|count| count > 0)
}

// Reads the rest of an input longer than the buffer, so that whoever writes it is not cut off; answers how many of the turns are left.
// A proved loop has to end, and nothing says that an input does: the programs hand over a number of turns that no run uses up.
pub fn drop_rest<R: Read>(stdin: &mut R, turns: u64) -> u64
    ensures { result ≤ turns }
{
    (0..turns)
        .find(|_| !drop_some(stdin))
        .map_or(0, |used| turns - used)
}
