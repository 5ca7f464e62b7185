// The law of one writing, over every life of a product, and a life that was worked by hand.
#![tactic(auto)]

ghost use Rattle.lives.specs.Law.{OneWriting};
ghost use Rattle.lives.specs.Worked.{WorkedLife};

use sinks::sink::Sink;

/// In every life a product's bytes are the one writing of the records left; what was sent is what stood, and is received
/// again as the records then left; closed products have equal bytes exactly when records and closing forms are equal.
pub fn one_writing_stands<S: Sink, T: Sink>()
    ensures { OneWriting S.Sink.taken S.Sink.room T.Sink.taken T.Sink.room }
{}

/// A life of seven calls, one of them turned down, is such a life: the law speaks of something.
pub fn worked_life_stands()
    ensures { WorkedLife }
{}
