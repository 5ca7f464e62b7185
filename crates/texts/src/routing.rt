// 5/20, in octal: the alphanumeric product definition.
ghost use Rattle.texts.specs.Texts.{routing};

use crate::text::Text;
use books::faults::Rule;

/// Any characters, or none.
#[derive(Clone, Copy)]
pub struct Routing;

impl Text for Routing {
    const SUBMODE: u8 = 0o20;

    ghost SUBMODE = { 0o20 };

    ghost meaning = { λ _. routing };

    fn fewest(&self) -> usize {
        0
    }

    fn broken_rule(&self, _character: u8, _last: bool, _nul: bool) -> Option<Rule> {
        None
    }
}
