// Bytes moved within a memory that is partly in use.
#![tactic(auto)]

ghost use Rattle.memory.specs.Laid.{zeros, laid, has_room, gapped};
ghost use Rattle.std.specs.Prelude.{◌≡◌, ◌+◌, ◌≤◌, length, take, drop, is_ok};

/// A part of a memory, from its first byte to before its last.
#[derive(Clone, Copy, PartialEq, Eq, Debug)]
pub struct Part {
    pub from: usize,
    pub to: usize,
}

/// Moves `count` bytes in place.
fn shift(memory: &mut [u8], from: usize, to: usize, count: usize)
    requires source { from + count ≤ length memory.old }
    requires target { to + count ≤ length memory.old }
    ensures { memory.new ≡ laid memory.old to (take count (drop from memory.old)) }
{
    memory.copy_within(from..from + count, to);
}

fn clear(memory: &mut [u8], at: usize, count: usize)
    requires { at + count ≤ length memory.old }
    ensures { memory.new ≡ laid memory.old at (zeros count) }
{
    memory[at..at + count].fill(0);
}

/// The memory has no room, or no such part.
#[derive(Clone, Copy, PartialEq, Eq, Debug)]
pub struct NoRoom;

/// Puts `size` zeros in the place of a part of the first `used` bytes.
/// What follows the part moves, bytes that are freed become 0, and bytes behind those in use stay.
pub fn make_gap(memory: &mut [u8], used: usize, part: Part, size: usize) -> Result<(), NoRoom>
    ensures answer { is_ok result ≡ has_room used part.from part.to size memory.old }
    ensures after { memory.new ≡ gapped used part.from part.to size memory.old }
{
    if part.from > part.to || part.to > used || used > memory.len() {
        return Err(NoRoom);
    }
    if size > memory.len() - (used - (part.to - part.from)) {
        return Err(NoRoom);
    }
    let rest = used - part.to;
    let end = part.from + size + rest;
    shift(memory, part.to, part.from + size, rest);
    clear(memory, part.from, size);
    clear(memory, end, used.saturating_sub(end));
    Ok(())
}
