// The commands of a script.
ghost use Rattle.commands.specs.Commands.{InBounds, InScript, Begins, step_word, word_of};
ghost use Rattle.std.specs.Prelude.{◌≡◌, IfOk, codes};

use crate::faults::ScriptFault;
use crate::words::{Base, read_byte, read_capped, read_hex, read_natural, read_number};
use replay::beginning::Opening;
use replay::entries::Entry;
use replay::steps::Step;
use std::alloc::Global;
use std::str::Split;
use wire::modes::Modes;

/// The most bytes that a script may ask for as its memory.
pub const MOST_MEMORY: usize = 1_048_576;

/// What a line of a script says.
#[derive(Drop)]
pub enum Command {
    /// How many bytes the memory shall have.
    Memory(usize),
    Start(Opening),
    /// The bytes of a closed product.
    Receive(Vec<u8>),
    /// A call on the product that there is.
    Step(Step),
}

fn first_word(line: &str) -> &str
    ensures { Begins result.now line.now }
{
    // A match: of a closure in `map_or` the proof did not close.
    match line.split_once(' ') {
        Some((word, _)) => word,
        None => line,
    }
}

fn next_word<'a>(words: &mut Split<'a, char>) -> Result<&'a str, ScriptFault> {
    words.next().ok_or(ScriptFault::Unreadable)
}

fn no_more(mut words: Split<'_, char>) -> Result<(), ScriptFault> {
    match words.next() {
        Some(_) => Err(ScriptFault::Unreadable),
        None => Ok(()),
    }
}

fn read_memory(mut words: Split<'_, char>) -> Result<Command, ScriptFault>
    ensures bounds { IfOk result InBounds }
    ensures word { IfOk result (λ c. word_of c ≡ codes "memory") }
{
    let size = read_natural(next_word(&mut words)?, Base::Decimal)?;
    no_more(words)?;
    if size > MOST_MEMORY {
        return Err(ScriptFault::Unreadable);
    }
    Ok(Command::Memory(size))
}

fn read_numbers(heap: Global, words: Split<'_, char>) -> Result<Vec<i32>, ScriptFault> {
    words.map(read_number).try_collect(heap)
}

fn read_start(heap: Global, mut words: Split<'_, char>) -> Result<Command, ScriptFault>
    ensures bounds { IfOk result InBounds }
    ensures word { IfOk result (λ c. word_of c ≡ codes "start") }
{
    let closing = read_capped(next_word(&mut words)?, Base::Decimal)?;
    let form = read_capped(next_word(&mut words)?, Base::Decimal)?;
    let numbers = read_numbers(heap, words)?;
    Ok(Command::Start(Opening {
        closing,
        form,
        numbers,
    }))
}

fn read_receive(heap: Global, mut words: Split<'_, char>) -> Result<Command, ScriptFault>
    ensures bounds { IfOk result InBounds }
    ensures word { IfOk result (λ c. word_of c ≡ codes "receive") }
{
    let bytes = match words.next() {
        Some(digits) => read_hex(heap, digits)?,
        None => Vec::new(heap),
    };
    no_more(words)?;
    Ok(Command::Receive(bytes))
}

fn read_entry(heap: Global, mut words: Split<'_, char>) -> Result<Entry, ScriptFault> {
    let form = read_capped(next_word(&mut words)?, Base::Decimal)?;
    let mode = read_capped(next_word(&mut words)?, Base::Octal)?;
    let submode = read_byte(next_word(&mut words)?, Base::Octal)?;
    let numbers = read_numbers(heap, words)?;
    Ok(Entry {
        form,
        modes: Modes { mode, submode },
        numbers,
    })
}

fn read_replace(heap: Global, mut words: Split<'_, char>) -> Result<Step, ScriptFault>
    ensures script { IfOk result InScript }
    ensures word { IfOk result (λ s. step_word s ≡ codes "replace") }
{
    let block = read_natural(next_word(&mut words)?, Base::Decimal)?;
    let entry = read_entry(heap, words)?;
    Ok(Step::Replace { block, entry })
}

fn read_withdraw(mut words: Split<'_, char>) -> Result<Step, ScriptFault>
    ensures script { IfOk result InScript }
    ensures word { IfOk result (λ s. step_word s ≡ codes "withdraw") }
{
    let block = read_natural(next_word(&mut words)?, Base::Decimal)?;
    no_more(words)?;
    Ok(Step::Withdraw { block })
}

/// A step that is one word.
fn read_bare(words: Split<'_, char>, step: Step) -> Result<Step, ScriptFault>
    ensures { IfOk result (λ s. s ≡ step) }
{
    no_more(words)?;
    Ok(step)
}

fn read_step(heap: Global, word: &str, words: Split<'_, char>) -> Result<Step, ScriptFault>
    ensures script { IfOk result InScript }
    ensures word { IfOk result (λ s. step_word s ≡ word.now) }
{
    match word {
        "add" => Ok(Step::Add(read_entry(heap, words)?)),
        "replace" => read_replace(heap, words),
        "withdraw" => read_withdraw(words),
        "close" => read_bare(words, Step::Close),
        "reopen" => read_bare(words, Step::Reopen),
        _ => Err(ScriptFault::Unreadable),
    }
}

impl Command {
    /// Reads a command from a line: words with one blank between two.
    pub fn read(heap: Global, line: &str) -> Result<Command, ScriptFault>
        ensures bounds { IfOk result InBounds }
        ensures word { IfOk result (λ c. Begins (word_of c) line.now) }
    {
        let mut words = line.split(' ');
        let _ = words.next();
        match first_word(line) {
            "memory" => read_memory(words),
            "start" => read_start(heap, words),
            "receive" => read_receive(heap, words),
            word => read_step(heap, word, words).map(Command::Step),
        }
    }

    /// The word that a line of this command begins with.
    pub fn word(&self) -> &'static str
        ensures { result.now ≡ word_of self.now }
    {
        match self {
            Command::Memory(_) => "memory",
            Command::Start(_) => "start",
            Command::Receive(_) => "receive",
            Command::Step(Step::Add(_)) => "add",
            Command::Step(Step::Replace { .. }) => "replace",
            Command::Step(Step::Withdraw { .. }) => "withdraw",
            Command::Step(Step::Close) => "close",
            Command::Step(Step::Reopen) => "reopen",
            Command::Step(Step::Send) => "send",
        }
    }
}
