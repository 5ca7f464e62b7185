// A memory as a row of cells of one width, one for each pair, and the sink that fills it.
ghost use Rattle.std.specs.Prelude.{◌≡◌, ℕ, ◌+◌, ◌^◌, ◌<◌, ◌≤◌, List, length};
ghost use Rattle.sinks.specs.Cells.{cells, over, places};
ghost use Rattle.sinks.specs.Sinks.{Begun, Wrote};

use crate::sink::{Full, Sink};
use std::marker::PhantomData;

/// The most bytes of its memory that a sink uses.
const MOST_BYTES: usize = 1_048_576;

/// How a pair is written as a cell of so many bytes.
// `worth` is the pair that the bytes of a cell stand for, and `cell` the bytes of a pair.
pub trait Cell<const WIDTH: usize> {
    ghost worth: { List ℕ → ℕ };

    ghost cell: { ℕ → List ℕ };

    fn bytes(pair: u16) -> [u8; WIDTH]
        ensures { result ≡ cell pair };

    ghost some: { 0 < WIDTH };

    ghost wide: { (p : ℕ) → length (cell p) ≡ WIDTH };

    ghost back: { (p : ℕ) → p < 2 ^ 16 → worth (cell p) ≡ p };
}

// A memory and a count, and no `Vec`: the memory is the caller's, and nothing is allocated here.
/// Fills a memory with a cell for each pair.
#[derive(Drop)]
pub struct CellSink<'a, C, const WIDTH: usize> {
    memory: &'a mut [u8],
    count: usize,
    cells: PhantomData<C>,
}

impl<'a, C: Cell<WIDTH>, const WIDTH: usize> CellSink<'a, C, WIDTH> {
    /// A sink that fills the memory from its front.
    pub fn new(memory: &'a mut [u8]) -> CellSink<'a, C, WIDTH>
        ensures { Begun C.worth WIDTH result.memory result.count memory.entry }
    {
        CellSink {
            memory,
            count: 0,
            cells: PhantomData,
        }
    }
}

impl<C: Cell<WIDTH>, const WIDTH: usize> Sink for CellSink<'_, C, WIDTH> {
    ghost taken = { λ s. cells C.worth WIDTH s.count s.memory.now };

    ghost room = { λ s. places WIDTH s.count (length s.memory.now) };

    ghost wrote = { λ s ps t. Wrote WIDTH C.cell s.memory s.count ps t.memory t.count };

    fn space(&self) -> usize {
        places(self.memory.len(), WIDTH, self.count)
    }

    fn put(&mut self, pair: u16) -> Result<(), Full> {
        if self.space() == 0 {
            return Err(Full);
        }
        lay(self.memory, WIDTH * self.count, &C::bytes(pair));
        self.count += 1;
        Ok(())
    }
}

/// How many cells are left behind the first `count`.
fn places(bytes: usize, width: usize, count: usize) -> usize
    requires { 0 < width }
    ensures { result ≡ places width count bytes }
{
    (bytes.min(MOST_BYTES) / width).saturating_sub(count)
}

/// Writes a cell over the bytes from place `at` on.
fn lay(memory: &mut [u8], at: usize, cell: &[u8])
    requires { at + length cell.now ≤ length memory.old }
    ensures { memory.new ≡ over at cell.now memory.old }
{
    memory[at..at + cell.len()].copy_from_slice(cell);
}
