// A kind laid over a book.
ghost use Rattle.kinds.specs.Laid.{laid_lawful};
ghost use Rattle.kinds.specs.Kinds.{laid, settles};
ghost use Rattle.std.specs.Prelude.{◌≡◌};

use crate::kind::Kind;
use books::book::Book;
use books::faults::FieldFault;
use wire::modes::Modes;

/// A kind that settles its own blocks, and passes the others to the book below.
#[derive(Clone, Copy)]
pub struct Over<K, B> {
    pub kind: K,
    pub below: B,
}

// A function, so that the four questions share one proof of it.
fn is_own<K: Kind>(modes: Modes) -> bool
    ensures { result ≡ settles K.MODES.mode K.MODES.submode modes.mode modes.submode }
{
    modes == K::MODES
}

impl<K: Kind, B: Book> Book for Over<K, B> {
    ghost meaning = { λ o. laid K.MODES.mode K.MODES.submode (K.Kind.meaning o.kind) (B.Book.meaning o.below) };

    ghost lawful = { λ o. laid_lawful K.MODES.mode K.MODES.submode (K.Kind.meaning o.kind) (B.Book.meaning o.below) (K.Kind.lawful o.kind) (B.Book.lawful o.below) };

    fn judge(&self, modes: Modes, field: &[u8]) -> Result<usize, FieldFault> {
        if is_own::<K>(modes) {
            self.kind.judge(field)
        } else {
            self.below.judge(modes, field)
        }
    }

    fn number(&self, modes: Modes, field: &[u8], index: usize) -> Option<i32> {
        if is_own::<K>(modes) {
            self.kind.number(field, index)
        } else {
            self.below.number(modes, field, index)
        }
    }

    fn weigh(&self, modes: Modes, list: &[i32]) -> Result<usize, FieldFault> {
        if is_own::<K>(modes) {
            self.kind.weigh(list)
        } else {
            self.below.weigh(modes, list)
        }
    }

    fn write(&self, modes: Modes, list: &[i32], place: &mut [u8]) -> Result<(), FieldFault> {
        if is_own::<K>(modes) {
            self.kind.write(list, place)
        } else {
            self.below.write(modes, list, place)
        }
    }
}
