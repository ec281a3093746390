// Words and numbers written one behind another into a line of fixed room. What has no room is left out.
#![tactic(auto, using(crate::proofs::Laws::added_joined))]

ghost use Rattle.std.specs.Prelude.{cond, ◌≡◌, ◌++◌, ◌≤◌, [], length, map};
ghost use Rattle.writer.specs.Decimal.{decimal};
ghost use Rattle.writer.specs.Writing.{added};
ghost use Rattle.writer.specs.Names.{name_at};

use arrayvec::ArrayVec;
use std::marker::Model;

// The bytes that the line of an explanation has room for.
pub const ROOM: usize = 1024;

// A line that has room for SIZE bytes. A contract sees the bytes that are written so far.
#[derive(Debug, Drop)]
pub struct Line<const SIZE: usize> {
    bytes: ArrayVec<u8, SIZE>,
}

impl<const SIZE: usize> Model for Line<SIZE> {
    ghost use Rattle.std.specs.Prelude.{List, ℕ};

    ghost Value = { List ℕ };

    ghost view = { λ l. l.bytes.items };
}

// Words are added by `say` and not by `write!`: that promises the bytes only where it answers Ok, and no contract says that it does.
impl<const SIZE: usize> Line<SIZE> {
    // A line of which nothing is written.
    pub fn new() -> Self
        ensures { result ≡ [] }
    {
        Line {
            bytes: ArrayVec::new(),
        }
    }

    // The bytes that are written.
    pub fn as_bytes(&self) -> &[u8]
        ensures written { result.now ≡ self.now }
        ensures within { length result.now ≤ SIZE }
    {
        self.bytes.as_slice()
    }

    // Adds words.
    #[tactic(auto, using(crate::proofs::Laws::take_fitting), unfolding(crate::specs::Writing::added))]
    pub fn say(&mut self, words: &[u8])
        ensures { self.new ≡ added SIZE self.old words.now }
    {
        let count = words.len().min(self.bytes.remaining_capacity());
        self.bytes.try_extend_from_slice(&words[..count]).unwrap();
    }

    // Adds a number in decimal.
    #[tactic(auto, using(crate::proofs::Laws::shown_decimal))]
    pub fn say_number(&mut self, number: u64)
        ensures { self.new ≡ added SIZE self.old (decimal number) }
    {
        let mut digits = itoa::Buffer::new();
        self.say(digits.format(number).as_bytes());
    }

    // Adds words and a number behind them.
    pub fn say_with(&mut self, words: &[u8], number: u64)
        ensures { self.new ≡ added SIZE self.old (words.now ++ decimal number) }
    {
        self.say(words);
        self.say_number(number);
    }

    // Adds the words `yes` where a test held, else the words `no`.
    // `holds` is what is told, and no switch on a step: either way words are added. As an `if` at each caller, each would have to prove the choice.
    pub fn say_either(&mut self, holds: bool, yes: &[u8], no: &[u8])
        ensures { self.new ≡ added SIZE self.old (cond holds yes.now no.now) }
    {
        self.say(if holds { yes } else { no });
    }

    // Adds the name of number `k`.
    #[tactic(auto, using(crate::proofs::Laws::names_by_number), unfolding(crate::specs::Names::name_at))]
    pub fn say_name(&mut self, names: &[&str], k: usize)
        ensures { self.new ≡ added SIZE self.old (name_at (map (λ name. name.now) names.now) k) }
    {
        if let Some(name) = names.get(k) {
            self.say(name.as_bytes());
        }
    }
}
