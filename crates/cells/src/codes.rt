// One number in a byte or a pair, with the fault where it is out of range.
ghost use Rattle.cells.specs.Cells.{or_fault, upto, upto_in, twos_in, bit_seven, flag_numbers, flag_worth};
ghost use Rattle.books.specs.declared.faults.Rule.TheVariants.{NumberRange, ByteRange};
ghost use Rattle.std.specs.Prelude.{◌≡◌};

use crate::cell::Cell;
use books::faults::{FieldFault, Rule};

/// A byte or a pair, 0 to `top`, at an offset.
pub fn read_up_to<C: Cell>(cell: C, top: C, offset: usize) -> Result<i32, FieldFault>
    ensures { result ≡ or_fault ByteRange offset ((upto (C.worth top)).number (C.worth cell)) }
{
    let number = cell.unsigned();
    if number > top.unsigned() {
        return Err(Rule::ByteRange.at(offset));
    }
    Ok(number)
}

// There and back are two functions, here and below: the faults differ in rule and place.
/// The byte 0 or 128, at an offset, as 0 or 1.
pub fn read_blanking(byte: u8, offset: usize) -> Result<i32, FieldFault>
    ensures { result ≡ or_fault ByteRange offset (bit_seven.number byte) }
{
    match byte {
        0 => Ok(0),
        128 => Ok(1),
        _ => Err(Rule::ByteRange.at(offset)),
    }
}

/// The byte or the pair of a number, 0 to `top`, at an index.
pub fn write_up_to<C: Cell>(number: i32, top: C, index: usize) -> Result<C, FieldFault>
    ensures { result ≡ or_fault NumberRange index (upto_in C.of (C.worth top) number) }
{
    let highest = top.unsigned();
    if number > highest {
        return Err(Rule::NumberRange.at(index));
    }
    C::from_unsigned(number).ok_or(Rule::NumberRange.at(index))
}

/// The byte or the pair of a number in two's complement, at an index.
pub fn write_signed<C: Cell>(number: i32, index: usize) -> Result<C, FieldFault>
    ensures { result ≡ or_fault NumberRange index (twos_in C.of C.half number) }
{
    C::from_signed(number).ok_or(Rule::NumberRange.at(index))
}

/// The byte 0 or 128 of a number, 0 or 1, at an index.
pub fn write_blanking(number: i32, index: usize) -> Result<u8, FieldFault>
    ensures { result ≡ or_fault NumberRange index (bit_seven.worth number) }
{
    match number {
        0 => Ok(0),
        1 => Ok(128),
        _ => Err(Rule::NumberRange.at(index)),
    }
}

/// B, R and the size, of one byte.
pub fn read_flags(byte: u8) -> [i32; 3]
    ensures { result ≡ flag_numbers byte }
{
    [
        i32::from(byte / 128),
        i32::from(byte / 64 % 2),
        i32::from(byte % 64),
    ]
}

/// The byte of B and R, 0 or 1, and the size, 0 to 63; B is at the index.
pub fn write_flags(bit_seven: i32, bit_six: i32, size: i32, index: u16) -> Result<u8, FieldFault>
    ensures { result ≡ flag_worth index bit_seven bit_six size }
{
    let index = usize::from(index);
    let bit_seven = write_up_to(bit_seven, 1_u8, index)?;
    let bit_six = write_up_to(bit_six, 1_u8, index + 1)?;
    let size = write_up_to(size, 63_u8, index + 2)?;
    Ok(128 * bit_seven + 64 * bit_six + size)
}
