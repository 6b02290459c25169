//! The generator.

ghost use Rattle.std.specs.Prelude.{◌≡◌, ◌<◌};
ghost use Rattle.mm_field.specs.Digits.{order};
ghost use Rattle.mm_sample.specs.Draws.{after, digits_after, draw, next, weight_after};

use mm_field::Field;
use mm_space::Vector;

/// What each number of the generator is multiplied by to make the next.
const MULTIPLIER: u64 = 48_271;

/// The prime that the numbers are taken modulo.
const MODULUS: u64 = 2_147_483_647;

/// A generator of draws, at the number x.
#[derive(Clone, Copy)]
pub(crate) struct Draws {
    pub(crate) x: u32,
}

impl Draws {
    /// Goes on to the next number.
    #[tactic(auto, unfolding(crate::specs::Draws::next))]
    fn next(&mut self) -> u32
        ensures number { result ≡ next self.old.x }
        ensures state { self.new.x ≡ next self.old.x }
    {
        self.x = (u64::from(self.x) * MULTIPLIER % MODULUS) as u32;
        self.x
    }

    /// A draw below m.
    pub(crate) fn below(&mut self, m: u32) -> u32
        requires { 0 < m }
        ensures draw { result ≡ draw 1 m self.old.x }
        ensures state { self.new.x ≡ next self.old.x }
    {
        self.next() % m
    }

    /// The generator so many draws later.
    pub(crate) fn after(self, draws: u32) -> Draws
        ensures { result.x ≡ after draws self.x }
    {
        let mut later = self;
        for _ in 0..draws {
            later.next();
        }
        later
    }

    /// A vector of two drawn digits.
    pub(crate) fn digits(&mut self, f: Field) -> Vector
        ensures vector { result ≡ digits_after (order f) self.old.x }
        ensures state { self.new.x ≡ after 2 self.old.x }
    {
        let first = self.digit(f);
        let second = self.digit(f);
        let Some(vector) = Vector::read(f, &[b'0' + first, b'0' + second]) else {
            unreachable!();
        };
        vector
    }

    /// A drawn digit.
    fn digit(&mut self, f: Field) -> u8
        ensures digit { result ≡ draw 1 (order f) self.old.x }
        ensures small { result < order f }
        ensures state { self.new.x ≡ next self.old.x }
    {
        self.below(u32::from(f.q())) as u8
    }

    /// A weight: 1 plus a draw below 100.
    pub(crate) fn weight(&mut self) -> i64
        ensures weight { result ≡ weight_after self.old.x }
        ensures state { self.new.x ≡ next self.old.x }
    {
        i64::from(1 + self.below(100))
    }
}
