// The scale of a text; specs/ has the definition of the certify program's answer to its text input.
#![tactic(auto)]

ghost use Rattle.std.specs.Prelude.{◌≡◌};
ghost use Rattle.text_answers.specs.Format.{scale_in};

// N without a SCAL line: plans come in thousandths. The library's calls have no default; they are handed their N.
const DEFAULT_SCALE: u32 = 1000;

// N: the number of the SCAL line, whatever it is, or the default where there is no such line.
pub fn scale_in(scal: &[u32]) -> u32
    ensures { result ≡ scale_in scal.now }
{
    scal.first().copied().unwrap_or(DEFAULT_SCALE)
}
