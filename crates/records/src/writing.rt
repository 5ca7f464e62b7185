// A record written as its block.
ghost use Rattle.records.specs.Records.{says, block_writing, sealed};
ghost use Rattle.books.specs.Books.{Writes};
ghost use Rattle.wire.specs.Forms.{form_number, checksum_pairs};
ghost use Rattle.wire.specs.Pairs.{pair_bytes};
ghost use Rattle.wire.specs.declared.forms.Form.TheVariants.{Checksummed};
ghost use Rattle.std.specs.Prelude.{◌≡◌, ◌+◌, ◌*◌, ◌/◌, ◌≤◌, ◌∷◌, ◌++◌, length, drop};

use crate::drafts::Record;
use books::book::Book;
use books::faults::FieldFault;
use books::known::numbers_known;
use books::room::check_room;
use wire::forms::Form;
use wire::modes::Modes;
use wire::pairs::sum_pairs;

/// Writes the first two pairs of a block as long as the place.
fn put_head(place: &mut [u8], form: Form, modes: Modes)
    requires least { 4 ≤ length place.old }
    requires most { length place.old ≤ 4100 }
    ensures { place.new ≡ pair_bytes (form_number form * 16384 + length place.old / 2) ++ (modes.mode ∷ (modes.submode ∷ drop 4 place.old)) }
{
    let first = u16::from(form.number()) * 16_384 + (place.len() / 2) as u16;
    let [left, right] = first.to_be_bytes();
    place[0..4].copy_from_slice(&[left, right, modes.mode, modes.submode]);
}

/// Ends the block with the pair that brings the sum of all pairs to 0.
fn put_checksum(place: &mut [u8])
    requires { 2 ≤ length place.old }
    ensures { place.new ≡ sealed Checksummed place.old }
{
    let end = place.len() - 2;
    let sum = sum_pairs(&place[0..end]);
    let checksum = 0u16.wrapping_sub(sum).to_be_bytes();
    place[end..].copy_from_slice(&checksum);
}

/// Ends the block as its form asks: with the CHECKSUM, or with its data.
fn put_end(place: &mut [u8], form: Form)
    requires { 2 * checksum_pairs form ≤ length place.old }
    ensures { place.new ≡ sealed form place.old }
{
    match form {
        Form::Checksummed => put_checksum(place),
        Form::LengthOnly => {}
    }
}

// `form` is what the number in `given` was found to be: it is checked once, before there is a place.
/// Writes a record in that form as its block into a place of just its bytes; a refusal leaves the place as it was.
pub fn write_block<B: Book>(
    place: &mut [u8],
    form: Form,
    given: Record,
    book: &B,
) -> Result<(), FieldFault>
    ensures { Writes (block_writing (B.meaning book.now) (says form given.entry.modes.mode given.entry.modes.submode given.entry.numbers.now)) place.old result place.new }
{
    numbers_known(given.numbers);
    let weight = book.weigh(given.modes, given.numbers)?;
    check_room(place.len(), form.fewest_bytes() + weight)?;
    book.write(given.modes, given.numbers, &mut place[4..4 + weight])?;
    put_head(place, form, given.modes);
    put_end(place, form);
    Ok(())
}
