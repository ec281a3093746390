// The certify program of document 01: reads standard input, and prints `A cost gap` or `R number place`.
// What a call of the operating system reads or writes is outside every contract; `answer` has the contract of all that lies between.
// Its exit status says nothing: the line is the answer, and where there is none standard error says why.
#![tactic(auto)]

ghost use Rattle.std.specs.Prelude.{◌≡◌, ◌≤◌, length};
ghost use Rattle.certify.specs.Printed.{printed, LineBinds};

use answer_line::answer_line;
use frames::certify_text;
use writer::Line;

// The bytes that the printed line has room for: more than it can have.
const LINE_ROOM: usize = 64;

// The printed line for an input. It is the line of a certificate that binds every rival plan (demand 3).
fn answer(input: &[u8]) -> Line<LINE_ROOM>
    ensures whole { result ≡ printed input.now }
    ensures short { length result ≤ 44 }
    ensures binds { LineBinds input.now }
{
    let mut line = Line::new();
    answer_line(certify_text(input), &mut line);
    line
}

fn main(rt: HostRuntime) {
    programs::run(
        &rt,
        "certify",
        |input: &[u8]| rt.write_all(answer(input).as_bytes()),
    );
}
