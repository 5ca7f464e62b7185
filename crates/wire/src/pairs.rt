// Bytes in pairs.
ghost use Rattle.wire.specs.Pairs.{Bytes, pair, pair_sum};
ghost use Rattle.std.specs.Prelude.{◌≡◌};

/// What two bytes are worth.
pub fn worth(left: u8, right: u8) -> u16
    ensures { result ≡ pair left right }
{
    u16::from_be_bytes([left, right])
}

/// The sum of all pairs, with carries past 16 bits dropped.
pub fn sum_pairs(bytes: &[u8]) -> u16
    ensures { result ≡ pair_sum bytes.now }
{
    let mut sum: u16 = 0;
    for two in bytes.chunks_exact(2) {
        sum = sum.wrapping_add(worth(two[0], two[1]));
    }
    sum
}

/// Tells a proof that what lies in memory is bytes.
pub fn bytes_known(bytes: &[u8])
    ensures { Bytes bytes.now }
{
    let _ = bytes.is_empty();
}
