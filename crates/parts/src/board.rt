// The board: the year's outputs in their places, the rest as it was.
ghost use Rattle.std.specs.Prelude.{◌≡◌, ◌+◌, ◌≤◌, length};
ghost use Rattle.model.specs.Calls.{replaced};

// The lent part of the board takes the outputs.
// A loop: of `copy_from_slice` the compiler makes a call of memmove, and the library asks memcpy and memset of the C library and nothing else (include/epm.h).
fn write(part: &mut [u32], outputs: &[u32])
    requires { length part.old ≡ length outputs.now }
    ensures { part.new ≡ outputs.now }
{
    for i in 0..outputs.len() {
        part[i] = outputs[i];
    }
}

// The outputs replace the board's places from `start` on; every other place keeps its number.
// Board, start and outputs are parameters and no struct, which would be made for this one call: the C call of post hands board and start over singly.
pub fn replace(board: &mut [u32], start: usize, outputs: &[u32])
    requires { start + length outputs.now ≤ length board.old }
    ensures { board.new ≡ replaced board.old start outputs.now }
{
    let end = start + outputs.len();
    write(&mut board[start..end], outputs);
}
