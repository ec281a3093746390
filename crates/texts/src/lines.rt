// One line: its word, and its numbers behind those of the word's earlier lines.
ghost use Rattle.std.specs.Prelude.{◌≡◌, ℕ, ◌*◌, ◌^◌, ◌≤◌, ◌<◌, Some, unwrap_or, IfSome};
ghost use Rattle.std.specs.Option.{option_and};
ghost use Rattle.std.proofs.Common.{lit≤};
ghost use Rattle.text_numbers.specs.Numbers.{signed};
ghost use Rattle.texts.specs.Format.{plain, digits, dual_digits, word_of, count, join};

use arrayvec::ArrayVec;
use text_numbers::{number_in, signed_of};

// The word that a line opens with.
#[derive(Clone, Copy, Debug, PartialEq, Eq)]
pub enum Word {
    Data,
    Plan,
    Scal,
    Dual,
}

const WORD_LENGTH: usize = 4;

const MOST_ON_LINE: usize = 64;

// A number of a word's list, as the digits of a line have it.
pub(crate) trait FromDigits: Copy + Default {
    ghost DIGITS: { ℕ };

    ghost value: { ℕ → Self };

    const DIGITS: usize;

    fn from_digits(v: u64) -> Self
        requires { v < 16 ^ DIGITS }
        ensures { result ≡ value v };

    ghost few: { DIGITS ≤ 16 };
}

// On lines of DATA, PLAN and SCAL.
impl FromDigits for u32 {
    ghost DIGITS = { digits };

    ghost value = { plain };

    const DIGITS: usize = 8;

    ghost few = { lit≤ tt };

    // Eight digits fit, so `as` is proved to lose nothing; `u32::try_from` would add a failure that cannot come.
    fn from_digits(v: u64) -> u32 {
        v as u32
    }
}

// On lines of DUAL: two's complement.
impl FromDigits for i64 {
    ghost DIGITS = { dual_digits };

    ghost value = { signed };

    const DIGITS: usize = 16;

    ghost few = { lit≤ tt };

    fn from_digits(v: u64) -> i64 {
        signed_of(v)
    }
}

// The line's first four bytes are compared with those of each word.
#[tactic(auto, using(crate::proofs::WordLaws::first_four, std::proofs::lemmas::Bool::Decides::nat_tests), unfolding(crate::specs::Format::word_of, crate::specs::Format::opens_with))]
pub(crate) fn word_of(line: &[u8]) -> Option<Word>
    ensures { result ≡ word_of line.now }
{
    match line.get(..WORD_LENGTH)? {
        b"DATA" => Some(Word::Data),
        b"PLAN" => Some(Word::Plan),
        b"SCAL" => Some(Word::Scal),
        b"DUAL" => Some(Word::Dual),
        _ => None,
    }
}

// How many numbers of `width` digits a line of so many bytes has after its word: 1 to 64 of them, or none.
#[tactic(auto, using(std::proofs::lemmas::Bool::Decides::nat_tests), unfolding(crate::specs::Format::count))]
fn count_on(bytes: usize, width: usize) -> Option<usize>
    requires { width ≤ 16 }
    ensures counted { unwrap_or result 0 ≡ count bytes width }
    ensures some { IfSome result (λ n. 0 < n) }
{
    let numbers = bytes.checked_sub(WORD_LENGTH)?;
    let size = width + 1;
    match numbers / size {
        n @ 1..=MOST_ON_LINE if numbers % size == 0 => Some(n),
        _ => None,
    }
}

// Adds the numbers of a line to those of its word's earlier lines; none where it is no line of numbers, or they are more than `MOST` in all.
pub(crate) fn join<T: FromDigits, const MOST: usize>(
    numbers: &mut ArrayVec<T, MOST>,
    line: &[u8],
) -> Option<()>
    ensures { option_and result (Some numbers.new.items) ≡ join T.value T.DIGITS MOST numbers.old.items line.now }
{
    let width = T::DIGITS;
    let count = count_on(line.len(), width)?;
    if numbers.remaining_capacity() < count {
        return None; // more numbers than may come, a second SCAL line among them
    }
    for number in line[WORD_LENGTH..].chunks_exact(width + 1) {
        let v = number_in(number)?;
        numbers.push(T::from_digits(v));
    }
    Some(())
}
