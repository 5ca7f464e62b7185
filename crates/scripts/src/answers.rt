// What a command is answered, and the line that says so.
ghost use Rattle.scripts.specs.Playing.{unbegun};
ghost use Rattle.std.specs.Prelude.{◌≡◌};

use judging::faults::ReceiptFault;
use lines::refusals::{refusal_line, rule_and_offset};
use replay::beginning::NotBegun;
use replay::steps::Told;
use std::fmt;

#[derive(Clone, Copy, PartialEq, Eq, Debug)]
pub(crate) enum Answer {
    /// The memory has so many bytes now.
    Sized(usize),
    /// What came of a start, of a receipt or of a call.
    Told(Told),
    NotReceived(ReceiptFault),
}

impl From<NotBegun> for Answer {
    ghost from_gives = { λ why answer. answer ≡ unbegun why };

    fn from(why: NotBegun) -> Answer {
        match why {
            NotBegun::Start(refusal) => Answer::Told(Told::Refused(refusal)),
            NotBegun::Receipt(fault) => Answer::NotReceived(fault),
        }
    }
}

/// The end of the line that answers a command, behind the command's word.
// The blank stands in the piece that follows it: standard output has no buffer, and each piece of a format is a write to it.
impl fmt::Display for Answer {
    fn fmt<W: fmt::Write>(&self, f: &mut fmt::Formatter<W>) -> fmt::Result {
        match *self {
            Answer::Sized(size) => writeln!(f, " {size}"),
            Answer::Told(Told::NotAllowed) => writeln!(f, " not-allowed"),
            Answer::Told(Told::Refused(refusal)) => {
                let number = refusal.number();
                let (rule, offset) = rule_and_offset(refusal.field());
                writeln!(f, " refused={number} rule={rule} offset={offset}")
            }
            Answer::Told(Told::Made { bytes, blocks }) => {
                writeln!(f, " bytes={bytes} blocks={blocks}")
            }
            Answer::Told(Told::Sent { pairs }) => writeln!(f, " pairs={pairs}"),
            Answer::NotReceived(fault) => {
                f.write_str(" ")?;
                // By `text`, which promises each byte; `Display` of a line does where it answers `Ok`.
                f.write_str(refusal_line(fault).text().as_str())
            }
        }
    }
}
