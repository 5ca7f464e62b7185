// The classes of blocks, from three tables.
ghost use Rattle.wire.specs.Classes.{among, tabled, class_of, class_name};
ghost use Rattle.std.specs.Prelude.{◌≡◌, Some};

use crate::modes::Modes;
use std::fmt;

/// What a block is for.
#[derive(Clone, Copy, PartialEq, Eq, Debug)]
pub enum Class {
    Control,
    Definition,
    Description,
    Data,
    Unknown,
}

/// Modes and submodes of definitions.
const DEFINITIONS: [(u8, u8); 9] = [
    (3, 0o20),
    (3, 0o30),
    (4, 0o20),
    (4, 0o30),
    (5, 0o20),
    (6, 0o20),
    (6, 0o30),
    (6, 0o40),
    (7, 0o20),
];

/// Those of descriptions.
const DESCRIPTIONS: [(u8, u8); 5] = [(3, 0o21), (3, 0o22), (3, 0o23), (6, 0o41), (6, 0o42)];

/// Those of data, beside all of mode 2.
const DATA: [(u8, u8); 17] = [
    (3, 0o1),
    (4, 0o1),
    (4, 0o2),
    (4, 0o3),
    (4, 0o4),
    (4, 0o5),
    (4, 0o6),
    (4, 0o7),
    (4, 0o10),
    (4, 0o11),
    (4, 0o12),
    (5, 0o1),
    (5, 0o2),
    (5, 0o3),
    (5, 0o4),
    (6, 0o1),
    (7, 0o1),
];

/// Whether a table has the mode and submode: `contains` would compare all of it, and each block of each walk asks.
fn is_among(entry: (u8, u8), table: &[(u8, u8)]) -> bool
    ensures { result ≡ among entry.0 entry.1 table.now }
{
    table.iter().any(|kind| *kind == entry)
}

#[tactic(auto, unfolding(crate::specs::Classes::tabled))]
fn from_tables(modes: Modes) -> Class
    ensures { result ≡ tabled modes.mode modes.submode }
{
    let entry = (modes.mode, modes.submode);
    if is_among(entry, &DEFINITIONS) {
        Class::Definition
    } else if is_among(entry, &DESCRIPTIONS) {
        Class::Description
    } else if is_among(entry, &DATA) {
        Class::Data
    } else {
        Class::Unknown
    }
}

/// The class of a mode and a submode.
impl From<Modes> for Class {
    ghost from_gives = { λ modes class. class ≡ class_of modes.mode modes.submode };

    fn from(modes: Modes) -> Class {
        match modes.mode {
            1 => Class::Control,
            2 => Class::Data,
            _ => from_tables(modes),
        }
    }
}

impl Class {
    pub fn name(self) -> &'static str
        ensures { result.now ≡ class_name self }
    {
        match self {
            Class::Control => "control",
            Class::Definition => "definition",
            Class::Description => "description",
            Class::Data => "data",
            Class::Unknown => "unknown",
        }
    }
}

impl fmt::Display for Class {
    ghost output = { λ c. Some (class_name c) };

    fn fmt<W: fmt::Write>(&self, f: &mut fmt::Formatter<W>) -> fmt::Result {
        f.write_str(self.name())
    }
}
