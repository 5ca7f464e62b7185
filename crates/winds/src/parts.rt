// The barbs of a whole data field or list, which stand behind its first two bytes or numbers.
ghost use Rattle.winds.specs.Winds.{barb, winds};
ghost use Rattle.cells.specs.Cells.{or_fault, turns, checked};
ghost use Rattle.cells.specs.Layouts.{fitted, layout_reading, layout_writing};
ghost use Rattle.books.specs.Books.{judged, weighed, number_at};
ghost use Rattle.std.specs.Prelude.{◌≡◌, ◌-◌, ◌/◌, ◌<◌, ◌≤◌, true, length, drop, is_ok, Ok};

use crate::barb::Barb;
use books::faults::{FieldFault, Rule};
use cells::codes::{read_blanking, write_blanking, write_up_to};

/// The bytes of a barb.
pub(crate) const BARB_BYTES: usize = 10;

/// The numbers of a barb.
pub(crate) const BARB_NUMBERS: usize = 6;

/// The most barbs of a data field.
const MOST_BARBS: usize = 409;

// A test of its own: the lengths of this kind are counts of barbs, and no bounds.
/// How many barbs a length holds, where each takes `each` of it.
pub(crate) fn count_barbs(length: usize, each: usize, rule: Rule) -> Result<usize, FieldFault>
    requires { (0 < each) × (each ≤ 10) }
    ensures { result ≡ or_fault rule length (fitted winds.many 2 each length) }
{
    let barbs = length.saturating_sub(2) / each;
    if barbs >= 1 && barbs <= MOST_BARBS && length == 2 + barbs * each {
        Ok(barbs)
    } else {
        Err(rule.at(length))
    }
}

// By number: the place of a barb is told where it has a fault, and is reckoned from it.
/// Checks the barbs of a data field.
pub(crate) fn check_bytes(field: &[u8]) -> Result<(), FieldFault>
    requires { 2 ≤ length field.now }
    ensures { result ≡ checked (turns ((length field.now - 2) / 10) 10 barb.reading 2 (drop 2 field.now)) }
{
    let (chunks, _) = field[2..].as_chunks::<BARB_BYTES>();
    for (k, bytes) in chunks.iter().enumerate() {
        Barb::read(bytes, 2 + BARB_BYTES * k)?;
    }
    Ok(())
}

// Apart from `check_bytes`: a trait for how a barb is read would be longer than both, and a closure would put its own contract into this one.
/// Checks the barbs of a list.
pub(crate) fn check_numbers(list: &[i32]) -> Result<(), FieldFault>
    requires { (2 ≤ length list.now) × (length list.now ≤ 2456) }
    ensures { result ≡ checked (turns ((length list.now - 2) / 6) 6 barb.writing 2 (drop 2 list.now)) }
{
    let (chunks, _) = list[2..].as_chunks::<BARB_NUMBERS>();
    for (k, numbers) in chunks.iter().enumerate() {
        Barb::from(*numbers).bytes(2 + BARB_NUMBERS * k)?;
    }
    Ok(())
}

/// The number at an index of a data field without a fault.
pub(crate) fn number_at(field: &[u8], index: usize) -> Option<i32>
    requires { is_ok (judged (layout_reading winds field.now)) ≡ true }
    ensures { result ≡ number_at (layout_reading winds field.now) index }
{
    match index {
        0 => Some(i32::from(field[0])),
        1 => read_blanking(field[1], 1).ok(),
        _ => {
            let (chunks, _) = field[2..].as_chunks::<BARB_BYTES>();
            let k = (index - 2) / BARB_NUMBERS;
            let barb = Barb::read(chunks.get(k)?, 2 + BARB_BYTES * k).ok()?;
            Some(barb.numbers()[(index - 2) % BARB_NUMBERS])
        }
    }
}

/// Writes a list without a fault into a place of just its bytes.
pub(crate) fn put(list: &[i32], place: &mut [u8]) -> Result<(), FieldFault>
    requires { weighed (layout_writing winds list.now) ≡ Ok (length place.old) }
    ensures answer { result ≡ Ok tt }
    ensures after { layout_writing winds list.now ≡ Ok place.new }
{
    place[0] = write_up_to(list[0], u8::MAX, 0)?;
    place[1] = write_blanking(list[1], 1)?;
    let (chunks, _) = list[2..].as_chunks::<BARB_NUMBERS>();
    // By offset: after a `zip` with `chunks_exact_mut` a proof knows nothing of the place.
    for (k, numbers) in chunks.iter().enumerate() {
        let bytes = Barb::from(*numbers).bytes(2 + BARB_NUMBERS * k)?;
        let offset = 2 + BARB_BYTES * k;
        place[offset..offset + BARB_BYTES].copy_from_slice(&bytes);
    }
    Ok(())
}
