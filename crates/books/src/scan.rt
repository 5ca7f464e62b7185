// A look through a list for its first fault.
ghost use Rattle.books.specs.Faults.{first_fail};
ghost use Rattle.books.specs.Words.{within};
ghost use Rattle.std.specs.Prelude.{◌≡◌, not};

fn is_outside(number: i32, top: u16) -> bool
    ensures { result ≡ not (within top number) }
{
    !(0..=i32::from(top)).contains(&number)
}

/// The index of the first number outside 0 to `top`.
pub fn first_outside(list: &[i32], top: u16) -> Option<usize>
    ensures { result ≡ first_fail (within top) list.now }
{
    list.iter().position(|number| is_outside(*number, top))
}
