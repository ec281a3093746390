// Numbers in capital hexadecimal, as the lines of the certify program's text input have them.
#![tactic(auto)]

ghost use Rattle.std.specs.Prelude.{◌≡◌, ◌-◌, ◌≤◌, length};
ghost use Rattle.text_numbers.specs.Numbers.{digit, digits_at, number_at, signed};

// The value of a capital hexadecimal digit. By hand: `to_digit` and `from_str_radix` of the library take small letters too.
#[tactic(auto, using(std::proofs::lemmas::Bool::Decides::nat_tests), unfolding(crate::specs::Numbers::digit))]
fn digit_of(b: u8) -> Option<u64>
    ensures { result ≡ digit b }
{
    match b {
        b'0'..=b'9' => Some(u64::from(b - b'0')),
        b'A'..=b'F' => Some(u64::from(b - b'A') + 10),
        _ => None,
    }
}

// The number that the digits write.
fn number_of(digits: &[u8]) -> Option<u64>
    requires { length digits.now ≤ 16 }
    ensures { result ≡ digits_at digits.now 0 (length digits.now) }
{
    digits
        .iter()
        .try_fold(0, |v, &b| Some(16 * v + digit_of(b)?))
}

// A space, and behind it a number's digits.
#[tactic(auto, using(std::proofs::lemmas::Bool::Decides::nat_tests, crate::proofs::NumberLaws::behind_space), unfolding(crate::specs::Numbers::number_at))]
pub fn number_in(number: &[u8]) -> Option<u64>
    requires { length number.now ≤ 17 }
    ensures { result ≡ number_at number.now 0 (length number.now - 1) }
{
    let [b' ', digits @ ..] = number else {
        return None;
    };
    number_of(digits)
}

// Two's complement.
pub fn signed_of(n: u64) -> i64
    ensures { result ≡ signed n }
{
    n.cast_signed()
}
