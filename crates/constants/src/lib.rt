// A row's constant: what it adds and what it takes off, like terms brought together, and which families have one.
#![tactic(auto)]

pub mod families;

ghost use Rattle.std.specs.Prelude.{◌≡◌};
ghost use Rattle.constants.specs.Constants.{adding, taking, netted_of};

// What a row's constant adds and what it takes off.
#[derive(Clone, Copy)]
pub struct Constant {
    pub adds: u64,
    pub takes: u64,
}

impl Constant {
    // A constant that adds to a row.
    pub fn adding(n: u64) -> Constant
        ensures { result ≡ adding n }
    {
        Constant { adds: n, takes: 0 }
    }

    // A constant that takes off a row.
    pub fn taking(n: u64) -> Constant
        ensures { result ≡ taking n }
    {
        Constant { adds: 0, takes: n }
    }
}

// Of a row that has none.
pub const NONE: Constant = Constant { adds: 0, takes: 0 };

// Like terms brought together: one number, so that one of its two parts is 0.
#[tactic(auto, unfolding(crate::specs::Constants::netted_of))]
pub fn netted(k: Constant) -> Constant
    ensures { result ≡ netted_of k }
{
    Constant {
        adds: k.adds.saturating_sub(k.takes),
        takes: k.takes.saturating_sub(k.adds),
    }
}
