// How a line is made before it is given away.
ghost use Rattle.std.specs.Prelude.{◌≡◌, ◌+◌, ◌≤◌, ◌++◌, length};
ghost use Rattle.text.specs.Numeral.{numeral};

use arrayvec::ArrayString;

/// Fixed memory, and no heap: the longest line has 128 bytes, and the proofs bound it by 191.
pub(crate) type Text = ArrayString<256>;

// Numbers, as the digits and their proofs count in them. `commands` has bases of its own: neither crate rests on the other.
pub(crate) const OCTAL: usize = 8;

pub(crate) const DECIMAL: usize = 10;

// Digits by hand: `write!` promises its text only where it answers `Ok`, and never that it does, so `Line::write` could not
// promise each byte by it; and `itoa` has no octal.
// By its own call: the digits come last one first, and the text takes the first one first.
fn put_digits(text: &mut Text, n: usize, base: usize)
    requires low { 2 ≤ base }
    requires high { base ≤ 10 }
    requires room { length text.old.bytes + length (numeral base n) ≤ 256 }
    ensures { text.new.bytes ≡ text.old.bytes ++ numeral base n }
{
    if n >= base {
        put_digits(text, n / base, base);
    }
    text.push(char::from(b'0' + (n % base) as u8));
}

// A label and its number, which has at most 22 digits.
pub(crate) fn put(text: &mut Text, label: &str, n: usize, base: usize)
    requires low { 8 ≤ base }
    requires high { base ≤ 10 }
    requires room { length text.old.bytes + length label.now + 22 ≤ 256 }
    ensures bytes { text.new.bytes ≡ text.old.bytes ++ label.now ++ numeral base n }
    ensures short { length (numeral base n) ≤ 22 }
{
    text.push_str(label);
    put_digits(text, n, base);
}
