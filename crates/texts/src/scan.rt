// The first fault of a text, alike for the bytes of a data field and the numbers of a list.
ghost use Rattle.texts.specs.Texts.{broken, checked, ends_in_nul, first_broken, lacks};
ghost use Rattle.books.specs.Faults.{fault_at};
ghost use Rattle.wire.specs.Steps.{refuse};
ghost use Rattle.std.specs.Prelude.{◌≡◌, map, length};

use crate::text::{NUL, Text};
use books::faults::{FieldFault, Rule};
use books::room::is_bad_length;
use cells::characters::Element;

/// The rules whose number depends on where a text stands.
#[derive(Clone, Copy)]
pub struct Rules {
    /// A length that the text lacks.
    pub amount: Rule,
    /// An element outside 0 to 127.
    pub range: Rule,
}

/// The rules of a text in a data field.
pub const FIELD_RULES: Rules = Rules {
    amount: Rule::DataLength,
    range: Rule::ByteRange,
};

/// The rules of a text in a list.
pub const LIST_RULES: Rules = Rules {
    amount: Rule::ListLength,
    range: Rule::NumberRange,
};

/// Refuses a text at its first fault.
pub fn check<T: Text, E: Element>(text: &T, elements: &[E], rules: Rules) -> Result<(), FieldFault>
    ensures { result ≡ checked (T.Text.meaning text.now) rules (map E.Element.reads elements.now) }
{
    check_length(elements.len(), text.fewest(), rules.amount)?;
    check_each(text, elements, ends_in_nul(elements), rules.range)
}

/// Refuses a length that is odd, too long or too short.
fn check_length(length: usize, fewest: usize, rule: Rule) -> Result<(), FieldFault>
    ensures { result ≡ refuse (lacks fewest length) (fault_at rule length) }
{
    if is_bad_length(length) || length < fewest {
        return Err(rule.at(length));
    }
    Ok(())
}

/// Whether the last character is NUL.
fn ends_in_nul<E: Element>(elements: &[E]) -> bool
    ensures { result ≡ ends_in_nul (map E.Element.reads elements.now) }
{
    elements.last().and_then(|element| element.character()) == Some(NUL)
}

// A loop: the index is told, and whether an element is the last is asked by it.
/// Refuses a text at its first element that breaks a rule; `nul` says that the text ends in NUL.
fn check_each<T: Text, E: Element>(
    text: &T,
    elements: &[E],
    nul: bool,
    range: Rule,
) -> Result<(), FieldFault>
    ensures { result ≡ first_broken (λ last. broken range ((T.Text.meaning text.now).breaks last nul)) (length elements.now) 0 (map E.Element.reads elements.now) }
{
    for (index, element) in elements.iter().enumerate() {
        let last = index + 1 == elements.len();
        let broken = match element.character() {
            Some(code) => text.broken_rule(code, last, nul),
            None => Some(range),
        };
        if let Some(rule) = broken {
            return Err(rule.at(index));
        }
    }
    Ok(())
}
