// Pairs as bytes.
ghost use Rattle.wire.specs.Blocks.{first_pair};
ghost use Rattle.wire.specs.Pairs.{pair_bytes};
ghost use Rattle.std.specs.Prelude.{refl};
ghost use Rattle.sinks.specs.CellLaws.{some_bytes, bytes_back};

use crate::cells::{Cell, CellSink};

/// The two bytes of a pair, left byte first.
#[derive(Clone, Copy)]
pub struct TwoBytes;

/// Fills a memory with the two bytes of each pair.
pub type ByteSink<'a> = CellSink<'a, TwoBytes, 2>;

impl Cell<2> for TwoBytes {
    ghost worth = { first_pair };

    ghost cell = { pair_bytes };

    fn bytes(pair: u16) -> [u8; 2] {
        pair.to_be_bytes()
    }

    ghost some = { some_bytes 1 };

    ghost wide = { λ p. refl };

    ghost back = { bytes_back };
}
