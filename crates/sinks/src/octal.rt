// Pairs as text.
ghost use Rattle.std.specs.Prelude.{◌≡◌, ◌<◌, refl};
ghost use Rattle.sinks.specs.Cells.{octal_digit, octal_line, octal_worth};
ghost use Rattle.sinks.specs.CellLaws.{some_bytes, octal_back};

use crate::cells::{Cell, CellSink};

/// A line of six octal digits, as `000401`.
#[derive(Clone, Copy)]
pub struct OctalLine;

/// Fills a memory with a line for each pair.
pub type OctalSink<'a> = CellSink<'a, OctalLine, 7>;

fn digit(pair: u16, unit: u16) -> u8
    requires { 0 < unit }
    ensures { result ≡ octal_digit pair unit }
{
    b'0' + (pair / unit % 8) as u8
}

impl Cell<7> for OctalLine {
    ghost worth = { octal_worth };

    ghost cell = { octal_line };

    // Digit by digit: `write!` into a buffer may fail, and a sink with space may not.
    fn bytes(pair: u16) -> [u8; 7] {
        [
            digit(pair, 0o100_000),
            digit(pair, 0o10_000),
            digit(pair, 0o1_000),
            digit(pair, 0o100),
            digit(pair, 0o10),
            digit(pair, 1),
            b'\n',
        ]
    }

    ghost some = { some_bytes 6 };

    ghost wide = { λ p. refl };

    ghost back = { octal_back };
}
