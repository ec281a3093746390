// The length of a number in bits.
//
// `specs/Length.antt` has the definition, `specs/Claims.antt` what request (iii) promises of the product of two numbers by their lengths;
// `proofs/Laws.antt` proves both.
#![tactic(auto)]

ghost use Rattle.std.specs.Prelude.{◌≡◌, ◌+◌};
ghost use Rattle.lengths.specs.Length.{bit_length};

// How many bits a number takes: 0 for 0, 64 from 2^63 on.
pub fn bit_length(n: u64) -> u32
    ensures { result ≡ bit_length n }
{
    u64::BITS - n.leading_zeros()
}

// The lengths of two numbers, added up.
pub fn together(a: u64, b: u64) -> u32
    ensures { result ≡ bit_length a + bit_length b }
{
    bit_length(a) + bit_length(b)
}
