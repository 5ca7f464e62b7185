// Characters of seven bits, in bytes of a data field or in numbers of a list.
ghost use Rattle.cells.specs.Characters.{byte_character, number_character, put_over};
ghost use Rattle.std.specs.Prelude.{◌≡◌, ℕ, Option, map, not, is_some, position};

/// A byte or a number, read as a character.
pub trait Element {
    ghost reads: { Self → Option ℕ };

    /// The 7-bit character; none outside 0 to 127.
    fn character(&self) -> Option<u8>
        ensures { result ≡ reads self.now };
}

impl Element for u8 {
    ghost reads = { byte_character };

    fn character(&self) -> Option<u8> {
        Some(*self).filter(u8::is_ascii)
    }
}

impl Element for i32 {
    ghost reads = { number_character };

    // By the range: `u8::try_from` and a test of the byte after it take twice the instructions, for each number of a text.
    fn character(&self) -> Option<u8> {
        (0..=127).contains(self).then(|| *self as u8)
    }
}

// As in books, but by another test: one function for both would take the test as a closure, and be the library's `position`.
/// The index of the first element that is no character.
pub fn first_outside<E: Element>(elements: &[E]) -> Option<usize>
    ensures { result ≡ position (λ e. not (is_some (E.Element.reads e))) elements.now }
{
    elements
        .iter()
        .position(|element| element.character().is_none())
}

/// Writes each character over the byte at its place, and leaves a byte where there is none.
pub fn put_characters<E: Element>(elements: &[E], place: &mut [u8])
    ensures { place.new ≡ put_over (map E.Element.reads elements.now) place.old }
{
    let common = elements.len().min(place.len());
    // By index: after a `zip` of `iter_mut` a proof knows nothing of the place. A byte is written back where there is no character, so that many are written at once.
    for (index, element) in elements[..common].iter().enumerate() {
        place[index] = element.character().unwrap_or(place[index]);
    }
}
