// A player of scripts: one memory, and the product in it.
ghost use Rattle.scripts.specs.Playing.{turn, turn_by, answer_by, of_stages};
ghost use Rattle.std.specs.Prelude.{◌≡◌, false, replicate, IfOk, None, MatchResult, OnOk};

use crate::answers::Answer;
use anyhow::anyhow;
use commands::command::Command;
use commands::faults::ScriptFault;
use four_kinds::FourKinds;
use printing::print_listing;
use products::receipt::MOST_BYTES;
use products::tally::Tally;
use replay::steps::State;
use std::alloc::{AllocError, Global};
use std::io::Write;

/// One memory, and the product in it once there is one.
#[derive(Drop)]
pub struct Player {
    pub(crate) memory: Vec<u8>,
    pub(crate) stage: Option<State>,
}

fn zeros(heap: Global, size: usize) -> Result<Vec<u8>, AllocError>
    ensures { IfOk result (λ v. v.items ≡ replicate size 0) }
{
    vec![in heap; 0; size]
}

impl Player {
    /// A player without a product, whose memory has the most bytes that a product may have.
    pub fn new(heap: Global) -> Result<Player, AllocError>
        ensures memory { IfOk result (λ p. p.memory.items ≡ replicate 65536 0) }
        ensures stage { IfOk result (λ p. p.stage ≡ None) }
    {
        Ok(Player {
            memory: zeros(heap, MOST_BYTES)?,
            stage: None,
        })
    }

    /// Does what a command says, as far as it is allowed, and answers it. Without memory for `memory` all stays as it was.
    fn answer(&mut self, heap: Global, command: Command) -> Result<Answer, AllocError>
        ensures { MatchResult result (λ a. turn a self.new.memory.items (of_stages self.new.stage) ≡ answer_by self.old.memory.items (of_stages self.old.stage) command) (λ _. self.new ≡ self.old) }
    {
        match command {
            Command::Memory(size) if self.stage.is_none() => {
                self.memory = zeros(heap, size)?;
                Ok(Answer::Sized(size))
            }
            _ => Ok(self.take_turn(command)),
        }
    }

    /// Obeys a command and prints its answer.
    fn obey(
        &mut self,
        heap: Global,
        command: Command,
        output: &mut impl Write,
    ) -> anyhow::Result<()>
        ensures memory { OnOk result (self.new.memory.items ≡ (answer_by self.old.memory.items (of_stages self.old.stage) command).memory) }
        ensures product { OnOk result (of_stages self.new.stage ≡ (answer_by self.old.memory.items (of_stages self.old.stage) command).product) }
    {
        let word = command.word();
        let answer = self.answer(heap, command)?;
        Ok(write!(output, "{word}{answer}")?)
    }

    /// Plays a line of a script, or prints that it is unreadable. Tells whether it was a command.
    // No error for a line that is none: it was answered by a line of its own, and the caller says whether the play fails by it.
    pub fn play(
        &mut self,
        heap: Global,
        number: usize,
        line: &str,
        output: &mut impl Write,
    ) -> anyhow::Result<bool>
        ensures { IfOk result (λ played. (played ≡ false → self.new ≡ self.old)) }
    {
        match Command::read(heap, line) {
            Ok(command) => {
                self.obey(heap, command, output)?;
                Ok(true)
            }
            Err(ScriptFault::Unreadable) => {
                writeln!(output, "line={number} unreadable")?;
                Ok(false)
            }
            Err(ScriptFault::NoMemory) => Err(anyhow!("no memory")),
        }
    }

    /// Prints what is there at the end of a script.
    pub fn print_end(&self, output: &mut impl Write) -> anyhow::Result<()> {
        match &self.stage {
            None => writeln!(output, "end none")?,
            Some(State::Opened(product)) => {
                let Tally {
                    bytes,
                    blocks,
                    close,
                } = product.tally();
                let close = close.number();
                writeln!(
                    output,
                    "end open bytes={bytes} blocks={blocks} close={close}"
                )?;
            }
            Some(State::Shut(product)) => {
                writeln!(output, "end closed")?;
                print_listing(output, product, &self.memory, &FourKinds)?;
            }
        }
        Ok(())
    }
}
