// The certify program's answer to its text input.
#![tactic(auto)]

ghost use Rattle.std.specs.Prelude.{◌≡◌};
ghost use Rattle.text_answers.specs.Format.{certify_text, BindsText};

use epm::certify;
use model::{Certificate, Refusal};
use text_answers::scale_in;
use text_reader::read_text;
use texts::Numbers;

// The answer to a whole text: a Frame comes before every other refusal. An issued certificate binds every rival plan (demand 3).
pub fn certify_text(input: &[u8]) -> Result<Certificate, Refusal>
    ensures { (result ≡ certify_text input.now) × BindsText input.now result }
{
    let mut numbers = Numbers::new();
    read_text(input, &mut numbers).map_err(|frame| Refusal::Frame(frame.line))?;
    certify(
        &numbers.data,
        scale_in(&numbers.scal),
        &numbers.plan,
        &numbers.dual,
    )
}
