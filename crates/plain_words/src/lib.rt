// What is said of an answer of certify that names no place: a Frame, an acceptance, and the scale that was taken.
#![tactic(auto)]

ghost use Rattle.std.specs.Prelude.{◌≡◌};
ghost use Rattle.writer.specs.Writing.{room, added};
ghost use Rattle.plain_words.specs.Plain.{frame_words, accepted_words, scale_taken};

use text_answers::scale_in;
use writer::{Line, ROOM};

// A line that is not one of the format.
pub fn say_frame(line: &mut Line<ROOM>, number: usize)
    ensures { line.new ≡ added room line.old (frame_words number) }
{
    line.say_with(b"line ", number as u64);
    line.say(
        b" of the input is not a line of DATA, PLAN, SCAL or DUAL as docs/FORMAT.md has them, or brings more numbers than may come",
    );
}

// An acceptance: what the cost and the gap say.
pub fn say_accepted(line: &mut Line<ROOM>, cost: u64, gap: u64)
    ensures { line.new ≡ added room line.old (accepted_words cost gap) }
{
    line.say_with(b"Accepted: the plan costs ", cost);
    line.say_with(b" and no other plan costs less by more than ", gap);
    line.say(b", in millionths of a money unit times N");
}

// The scale that was taken, and whether it is the default: an answer to a plan in MW that was read in thousandths is not understood without it.
pub fn say_scale_taken(line: &mut Line<ROOM>, scal: &[u32])
    ensures { line.new ≡ added room line.old (scale_taken scal.now) }
{
    line.say_with(b"; the scale N is ", u64::from(scale_in(scal)));
    line.say_either(
        scal.is_empty(),
        b", the default where there is no SCAL line",
        b", from the SCAL line",
    );
}
