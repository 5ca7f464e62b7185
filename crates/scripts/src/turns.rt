// One turn of a player: a command obeyed on its memory and the product in it, under the four kinds.
ghost use Rattle.scripts.specs.Playing.{turn, called, begun_by, received_by, turn_by, laid_by, of_stages};
ghost use Rattle.std.specs.Prelude.{◌≡◌};

use crate::answers::Answer;
use crate::player::Player;
use commands::command::Command;
use four_kinds::FourKinds;
use replay::beginning::{Beginning, begin};
use replay::playing::play;
use replay::steps::{Step, Told};
use sinks::bytes::ByteSink;

impl Player {
    /// Starts or receives a product where there is none.
    fn begin_product(&mut self, beginning: &Beginning) -> Answer
        ensures { turn result self.new.memory.items (of_stages self.new.stage) ≡ begun_by self.old.memory.items (of_stages self.old.stage) beginning.now }
    {
        if self.stage.is_some() {
            return Answer::Told(Told::NotAllowed);
        }
        match begin(beginning, &mut self.memory, &FourKinds) {
            Ok(state) => Answer::Told(self.stage.insert(state).tally().into()),
            Err(why) => why.into(),
        }
    }

    fn receive(&mut self, bytes: &[u8]) -> Answer
        ensures { turn result self.new.memory.items (of_stages self.new.stage) ≡ received_by self.old.memory.items (of_stages self.old.stage) bytes.now }
    {
        if self.stage.is_none() {
            lay(&mut self.memory, bytes);
        }
        let count = bytes.len();
        self.begin_product(&Beginning::Receive { count })
    }

    /// Puts a call to the product that there is. A script has no sink, and this one takes nothing.
    fn make_step(&mut self, step: &Step) -> Answer
        ensures { turn result self.new.memory.items (of_stages self.new.stage) ≡ called self.old.memory.items (of_stages self.old.stage) step.now }
    {
        let Some(state) = self.stage.take() else {
            return Answer::Told(Told::NotAllowed);
        };
        let mut sink = ByteSink::new(&mut []);
        let (state, told) = play(state, step, &mut self.memory, &FourKinds, &mut sink);
        self.stage = Some(state);
        Answer::Told(told)
    }

    /// Obeys a command as far as the product's state allows. The memory keeps its size.
    pub(crate) fn take_turn(&mut self, command: Command) -> Answer
        ensures { turn result self.new.memory.items (of_stages self.new.stage) ≡ turn_by self.old.memory.items (of_stages self.old.stage) command }
    {
        match command {
            Command::Memory(_) => Answer::Told(Told::NotAllowed),
            Command::Start(opening) => self.begin_product(&Beginning::Start(opening)),
            Command::Receive(bytes) => self.receive(&bytes),
            Command::Step(step) => self.make_step(&step),
        }
    }
}

/// Puts the bytes at the front of the memory, as many as fit.
fn lay(memory: &mut [u8], bytes: &[u8])
    ensures { memory.new ≡ laid_by bytes.now memory.old }
{
    let count = bytes.len().min(memory.len());
    memory[0..count].copy_from_slice(&bytes[0..count]);
}
