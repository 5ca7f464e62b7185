// The words of a line: numbers in several bases, and bytes as hex digits.
ghost use Rattle.commands.specs.declared.faults.ScriptFault.TheVariants.{NoMemory};
ghost use Rattle.hex.specs.Hex.{decode_of};
ghost use Rattle.std.specs.Char.{is_ascii_hexdigit};
ghost use Rattle.std.specs.List.{list_all};
ghost use Rattle.std.specs.Prelude.{◌≡◌, ◌≤◌, true, Ok, IfOk, IfErr};

use crate::faults::ScriptFault;
use std::alloc::Global;

/// What the digits of a number count.
#[derive(Clone, Copy)]
pub(crate) enum Base {
    Octal,
    Decimal,
}

impl Base {
    fn radix(self) -> u32
        ensures low { 2 ≤ result }
        ensures high { result ≤ 36 }
    {
        match self {
            Base::Octal => 8,
            Base::Decimal => 10,
        }
    }
}

/// A number without a sign. One that is too large counts as the largest.
// In one walk, and not by `from_str_radix`: that stops at a number that is too large, and what follows may be no digit. With no
// other base in the program, `parse` below is compiled for base 10 alone.
pub(crate) fn read_natural(word: &str, base: Base) -> Result<usize, ScriptFault> {
    let radix = base.radix();
    if word.is_empty() {
        return Err(ScriptFault::Unreadable);
    }
    word.bytes().try_fold(0usize, |value, byte| {
        let digit = char::from(byte)
            .to_digit(radix)
            .ok_or(ScriptFault::Unreadable)?;
        Ok(
            value
                .saturating_mul(radix as usize)
                .saturating_add(digit as usize),
        )
    })
}

/// A byte. A number that is too large counts as 255.
pub(crate) fn read_capped(word: &str, base: Base) -> Result<u8, ScriptFault> {
    let value = read_natural(word, base)?;
    Ok(u8::try_from(value).unwrap_or(u8::MAX))
}

/// A byte, and no larger number.
pub(crate) fn read_byte(word: &str, base: Base) -> Result<u8, ScriptFault> {
    let value = read_natural(word, base)?;
    u8::try_from(value).map_err(|_| ScriptFault::Unreadable)
}

/// A number of a list: 32 bits, decimal, with `-` in front where it is negative.
pub(crate) fn read_number(word: &str) -> Result<i32, ScriptFault> {
    if word.starts_with('+') {
        return Err(ScriptFault::Unreadable);
    }
    word.parse().map_err(|_| ScriptFault::Unreadable)
}

/// Whether each sign of a word is a hex digit.
fn is_hex(word: &str) -> bool
    ensures { result ≡ list_all is_ascii_hexdigit word.now }
{
    word.bytes().all(|sign| sign.is_ascii_hexdigit())
}

/// Bytes, each as two hex digits.
// `decode` asks for memory before it reads a digit: where there is none, a word of other signs is unreadable all the same.
pub(crate) fn read_hex(heap: Global, word: &str) -> Result<Vec<u8>, ScriptFault>
    ensures ok { IfOk result (λ bytes. decode_of word.now ≡ Ok bytes.items) }
    ensures err { IfErr result (λ fault. fault ≡ NoMemory → list_all is_ascii_hexdigit word.now ≡ true) }
{
    if word.is_empty() {
        return Err(ScriptFault::Unreadable);
    }
    hex::decode(heap, word).map_err(|error| {
        if is_hex(word) {
            error.into()
        } else {
            ScriptFault::Unreadable
        }
    })
}
