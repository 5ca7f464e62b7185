// The checks of a data field and of a list: the length, the head and the characters.
ghost use Rattle.labels.specs.Labels.{labels, labels_meaning, characters_checked, written_head};
ghost use Rattle.cells.specs.Cells.{or_fault};
ghost use Rattle.cells.specs.Layouts.{fitted};
ghost use Rattle.std.specs.Prelude.{◌≡◌, ◌<◌, ◌≤◌, List, map, length, take, ℤ, pos, Ok, slice_index_or};

use books::faults::{FieldFault, Rule};
use books::room::is_bad_length;
use cells::cell::Cell;
use cells::characters::{Element, first_outside};
use cells::codes::{read_flags, write_flags, write_signed};
use wire::pairs::worth;

/// The bytes, and the numbers, before the characters.
pub(crate) const HEAD: usize = 7;

/// Checks the length of a data field or a list, and gives how many characters it has.
pub(crate) fn check_length(length: usize, rule: Rule) -> Result<usize, FieldFault>
    ensures { result ≡ or_fault rule length (fitted labels.many 7 1 length) }
{
    if is_bad_length(length) || length <= HEAD {
        return Err(rule.at(length));
    }
    Ok(length - HEAD)
}

/// Checks the characters of a data field or of a list, where `range` is the rule on each.
pub(crate) fn check_characters<E: Element>(elements: &[E], range: Rule) -> Result<(), FieldFault>
    requires { 7 ≤ length elements.now }
    ensures { result ≡ characters_checked range (map E.Element.reads elements.now) }
{
    match first_outside(&elements[HEAD..]) {
        Some(index) => Err(range.at(HEAD + index)),
        None => Ok(()),
    }
}

/// The number at an index of a data field without a fault.
pub(crate) fn number_at(field: &[u8], index: usize) -> i32
    requires head { 7 ≤ length field.now }
    requires inside { index < length field.now }
    ensures { (list : List ℤ) → labels_meaning.reading field.now ≡ Ok list → result ≡ slice_index_or list index (pos 0) }
{
    match index {
        0 => worth(field[0], field[1]).signed(),
        1 => worth(field[2], field[3]).signed(),
        2 => field[4].signed(),
        3 => field[5].signed(),
        4..=6 => read_flags(field[6])[index - 4],
        _ => i32::from(field[index]),
    }
}

/// Checks the numbers before the characters, and gives their bytes.
pub(crate) fn head_bytes(list: &[i32]) -> Result<[u8; 7], FieldFault>
    requires { 7 ≤ length list.now }
    ensures { result ≡ labels.head.writing 0 (take 7 list.now) }
{
    let [m0, m1] = write_signed::<u16>(list[0], 0)?.to_be_bytes();
    let [n0, n1] = write_signed::<u16>(list[1], 1)?.to_be_bytes();
    let delta_m = write_signed::<u8>(list[2], 2)?;
    let delta_n = write_signed::<u8>(list[3], 3)?;
    let flags = write_flags(list[4], list[5], list[6], 4)?;
    Ok([m0, m1, n0, n1, delta_m, delta_n, flags])
}

/// Checks a list, and gives the bytes before its characters.
pub(crate) fn check_list(list: &[i32]) -> Result<[u8; 7], FieldFault>
    ensures { result ≡ written_head (labels_meaning.writing list.now) }
{
    check_length(list.len(), Rule::ListLength)?;
    let head = head_bytes(list)?;
    check_characters(list, Rule::NumberRange)?;
    Ok(head)
}
