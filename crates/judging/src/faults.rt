// What is turned down, and where.
ghost use Rattle.judging.specs.Faults.{block_fault_number, refusal_number, located, field_in, field_within};
ghost use Rattle.judging.specs.declared.faults.BlockFault.TheVariants.{Wire, Field};
ghost use Rattle.judging.specs.declared.faults.Refusal.TheVariants.{Block, NoSuchForm as NoForm, NotHeld, List};
ghost use Rattle.wire.specs.Steps.{blame};
ghost use Rattle.std.specs.Prelude.{◌≡◌};

use books::faults::FieldFault;
use wire::blocks::Malformed;
use wire::forms::NoSuchForm;

/// Why a received product is turned down.
#[derive(Clone, Copy, PartialEq, Eq, Debug)]
pub enum BlockFault {
    /// The count is above the memory or the limit of a product.
    Count,
    /// The count is odd.
    OddCount,
    /// The block is malformed.
    Wire(Malformed),
    /// The identification is not first, or another block is.
    Misplaced,
    /// A definition is not block 1.
    LateDefinition,
    /// The end has data.
    EndWithData,
    /// The book faults the data field.
    Field(FieldFault),
    /// Bytes are left after the end.
    Leftover,
    /// The most blocks of a product have passed, and none was the end.
    TooManyBlocks,
}

impl BlockFault {
    /// Its number in what is printed.
    // A method with a name, where `u8::from` would not say what the number is.
    pub fn number(self) -> u8
        ensures { result ≡ block_fault_number self }
    {
        match self {
            BlockFault::Count => 1,
            BlockFault::OddCount => 2,
            BlockFault::Wire(malformed) => malformed.number(),
            BlockFault::Misplaced => 9,
            BlockFault::LateDefinition => 10,
            BlockFault::EndWithData => 11,
            BlockFault::Field(_) => 12,
            BlockFault::Leftover => 13,
            BlockFault::TooManyBlocks => 14,
        }
    }

    /// The fault of a data field that it carries.
    pub fn field(self) -> Option<FieldFault>
        ensures { result ≡ field_in self }
    {
        match self {
            BlockFault::Field(fault) => Some(fault),
            _ => None,
        }
    }
}

impl From<Malformed> for BlockFault {
    ghost from_gives = { λ m r. r ≡ Wire m };

    fn from(malformed: Malformed) -> BlockFault {
        BlockFault::Wire(malformed)
    }
}

impl From<FieldFault> for BlockFault {
    ghost from_gives = { λ f r. r ≡ Field f };

    fn from(fault: FieldFault) -> BlockFault {
        BlockFault::Field(fault)
    }
}

/// A fault and the block that has it.
#[derive(Clone, Copy, PartialEq, Eq, Debug)]
pub struct ReceiptFault {
    pub fault: BlockFault,
    pub place: Place,
}

/// Where a block stands: its number and its first byte.
#[derive(Clone, Copy, PartialEq, Eq, Debug)]
pub struct Place {
    pub block: usize,
    pub at: usize,
}

impl Place {
    pub fn fault(self, fault: BlockFault) -> ReceiptFault
        ensures { result ≡ located self.block self.at fault }
    {
        ReceiptFault { fault, place: self }
    }

    /// What was found here, a fault with its place.
    pub fn locate<T>(self, found: Result<T, BlockFault>) -> Result<T, ReceiptFault>
        ensures { result ≡ blame (located self.block self.at) found }
    {
        found.map_err(|fault| self.fault(fault))
    }
}

/// A fault of the count, which no block has, stands at block 0 and byte 0.
impl From<BlockFault> for ReceiptFault {
    ghost from_gives = { λ f r. r ≡ located 0 0 f };

    fn from(fault: BlockFault) -> ReceiptFault {
        Place { block: 0, at: 0 }.fault(fault)
    }
}

/// Why a call on a product is turned down.
#[derive(Clone, Copy, PartialEq, Eq, Debug)]
pub enum Refusal {
    /// The block that a record would become may not stand in its place, or in no product at all.
    Block(BlockFault),
    /// A form is not 0 or 1.
    NoSuchForm,
    /// The memory does not hold the product.
    NotHeld(ReceiptFault),
    /// The product has no such block.
    NoSuchBlock,
    /// The book faults the list.
    List(FieldFault),
    /// The data is too long for a block of its form.
    DataTooLong,
    /// The product has so many blocks that only the end may still come.
    NoMoreBlocks,
    /// The memory is too short, or a product would be too long.
    NoRoom,
    /// The sink has less space than there are pairs to send.
    SinkFull,
}

impl Refusal {
    /// Its number in what is printed.
    // A method with a name, where `u8::from` would not say what the number is.
    pub fn number(self) -> u8
        ensures { result ≡ refusal_number self }
    {
        match self {
            Refusal::Block(fault) => fault.number(),
            Refusal::NoSuchForm => 15,
            Refusal::NotHeld(_) => 16,
            Refusal::NoSuchBlock => 17,
            Refusal::List(_) => 18,
            Refusal::DataTooLong => 19,
            Refusal::NoMoreBlocks => 20,
            Refusal::NoRoom => 21,
            Refusal::SinkFull => 22,
        }
    }

    /// The fault of a data field or a list that it carries.
    pub fn field(self) -> Option<FieldFault>
        ensures { result ≡ field_within self }
    {
        match self {
            Refusal::Block(fault) => fault.field(),
            Refusal::NotHeld(found) => found.fault.field(),
            Refusal::List(fault) => Some(fault),
            _ => None,
        }
    }
}

impl From<BlockFault> for Refusal {
    ghost from_gives = { λ f r. r ≡ Block f };

    fn from(fault: BlockFault) -> Refusal {
        Refusal::Block(fault)
    }
}

impl From<NoSuchForm> for Refusal {
    ghost from_gives = { λ _ r. r ≡ NoForm };

    fn from(_error: NoSuchForm) -> Refusal {
        Self::NoSuchForm
    }
}

impl From<FieldFault> for Refusal {
    ghost from_gives = { λ f r. r ≡ List f };

    fn from(fault: FieldFault) -> Refusal {
        Refusal::List(fault)
    }
}

impl From<ReceiptFault> for Refusal {
    ghost from_gives = { λ f r. r ≡ NotHeld f };

    fn from(fault: ReceiptFault) -> Refusal {
        Refusal::NotHeld(fault)
    }
}
