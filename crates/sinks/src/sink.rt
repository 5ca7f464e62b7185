// What takes pairs.
ghost use Rattle.std.specs.Prelude.{◌≡◌, ℕ, List, [], ◌∷◌, MatchResult};
ghost use Rattle.sinks.specs.Sinks.{Took, full_number};

/// A sink has no space for what is sent to it.
#[derive(Clone, Copy, PartialEq, Eq, Debug)]
pub struct Full;

impl Full {
    /// Its number in what is printed.
    // A method with a name, where `u8::from` would not say what the number is.
    pub fn number(self) -> u8
        ensures { result ≡ full_number }
    {
        22
    }
}

/// What takes pairs, as long as it has space for them.
// `taken` is the list of pairs that a sink has taken, `room` how many it can still take, and `wrote s ps t` all of how
// s becomes t as it takes ps: the sink's own words, by which the owner of a memory that was lent to it knows each byte.
pub trait Sink {
    ghost taken: { Self → List ℕ };

    ghost room: { Self → ℕ };

    ghost wrote: { Self → List ℕ → Self → Type 0 };

    /// How many pairs it can still take.
    fn space(&self) -> usize
        ensures told { result ≡ room self.now }
        ensures begun { wrote self.now [] self.now };

    /// Takes a pair, or without space stays as it is.
    fn put(&mut self, pair: u16) -> Result<(), Full>
        ensures { MatchResult result (λ _. Took taken room wrote self.old (pair ∷ []) self.new) (λ _. (room self.old ≡ 0) × (self.new ≡ self.old)) };
}
