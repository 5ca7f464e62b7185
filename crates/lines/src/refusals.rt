// The line of a refused product.
ghost use Rattle.lines.specs.Refusals.{rule_told, offset_told, refusal_line};
ghost use Rattle.lines.specs.Putting.{put_answer, put_after};
ghost use Rattle.std.specs.Prelude.{◌≡◌, Ok};

use books::faults::FieldFault;
use judging::faults::{ReceiptFault, Refusal};
use text::lines::{Line, RefusalLine};

/// The number of the rule that is broken and where it is, and 0 and 0 where none is.
pub fn rule_and_offset(fault: Option<FieldFault>) -> (u8, usize)
    ensures { result ≡ (rule_told fault, offset_told fault) }
{
    fault.map_or((0, 0), |fault| (fault.rule.number(), fault.place))
}

// This and the next are names of one part each, for callers who want no pair.
/// The number of the rule that is broken, and 0 where none is.
pub fn rule_told(fault: Option<FieldFault>) -> u8
    ensures { result ≡ rule_told fault }
{
    rule_and_offset(fault).0
}

/// Where a rule is broken, and 0 where none is.
pub fn offset_told(fault: Option<FieldFault>) -> usize
    ensures { result ≡ offset_told fault }
{
    rule_and_offset(fault).1
}

/// The line of a refused product.
pub fn refusal_line(refused: ReceiptFault) -> Line
    ensures { result ≡ refusal_line refused }
{
    let (rule, offset) = rule_and_offset(refused.fault.field());
    Line::Refusal(RefusalLine {
        refused: refused.fault.number(),
        block: refused.place.block,
        at: refused.place.at,
        rule,
        offset,
    })
}

// Into the caller's memory, as `Line::write` does: nothing is allocated here.
/// Writes that line at the front of `out` and tells its length.
pub fn write_refusal(refused: ReceiptFault, out: &mut [u8]) -> Result<usize, Refusal>
    ensures answer { result ≡ put_answer (Ok (refusal_line refused)) out.old }
    ensures after { out.new ≡ put_after (Ok (refusal_line refused)) out.old }
{
    refusal_line(refused).write(out).ok_or(Refusal::NoRoom)
}
