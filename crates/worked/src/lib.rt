// The worked values of the format, as one fact about the definitions.
#![tactic(auto)]

ghost use Rattle.worked.specs.Worked.{Worked};

/// The definitions say of each worked value what it is worked to be.
pub fn worked_values_stand()
    ensures { Worked }
{}
