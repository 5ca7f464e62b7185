// Blocks in a row.
ghost use Rattle.wire.specs.Rows.{extent, behind};
ghost use Rattle.std.specs.Prelude.{◌≡◌, drop};

use crate::pairs::worth;

/// How many bytes the block in front takes, by its first pair alone.
fn extent_of(bytes: &[u8]) -> usize
    ensures { result ≡ extent bytes.now }
{
    match bytes {
        [left, right, ..] => 2 * usize::from(worth(*left, *right) % 16_384),
        _ => 0,
    }
}

/// What lies behind the first `count` bytes: nothing where there are fewer.
fn skip(bytes: &[u8], count: usize) -> &[u8]
    ensures { result.now ≡ drop count bytes.now }
{
    bytes.get(count..).unwrap_or(&[])
}

/// What lies behind the first `blocks` blocks.
pub fn skip_blocks(bytes: &[u8], blocks: usize) -> &[u8]
    ensures { result.now ≡ behind blocks bytes.now }
{
    let mut rest = bytes;
    for _ in 0..blocks {
        rest = skip(rest, extent_of(rest));
    }
    rest
}
