// What the type of a slice says of its elements: proofs need it, and the call changes nothing.
ghost use Rattle.books.specs.Books.{Number};
ghost use Rattle.std.specs.List.{AllByRecursion};

// A proof learns that a signed element fits its type only where the code reads it.
/// Every number of a slice fits 32 bits.
pub fn numbers_known(list: &[i32])
    ensures { AllByRecursion Number list.now }
{
    for number in list {
        let _known = *number;
    }
}
