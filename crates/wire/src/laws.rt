// What holds of the definitions.
ghost use Rattle.wire.specs.Codec.{Codec};

/// A block that is read was written so, and a block that is written is read so, whatever follows it.
pub fn blocks_read_as_written()
    ensures { Codec }
{}
