// The three lines that the programs print.
ghost use Rattle.text.specs.Lines.{product_text, block_text, refusal_text, line_text, length_told, laid};
ghost use Rattle.std.specs.Prelude.{◌≡◌, Some};

use crate::writing::{DECIMAL, OCTAL, Text, put};
use std::fmt;
use wire::classes::Class;
use wire::modes::Modes;

/// A product that was read to its end.
#[derive(Clone, Copy, PartialEq, Eq, Debug)]
pub struct ProductLine {
    pub bytes: usize,
    pub blocks: usize,
    // Any number: a type of the known forms alone would ask more of a caller.
    pub close: u8,
}

/// One block of a product.
#[derive(Clone, Copy, PartialEq, Eq, Debug)]
pub struct BlockLine {
    pub block: usize,
    pub at: usize,
    // Any number, as `close` is.
    pub form: u8,
    pub modes: Modes,
    pub class: Class,
    pub numbers: usize,
}

/// Why and where a product was refused.
#[derive(Clone, Copy, PartialEq, Eq, Debug)]
pub struct RefusalLine {
    // Any number, as `close` is; so is `rule`.
    pub refused: u8,
    pub block: usize,
    pub at: usize,
    pub rule: u8,
    pub offset: usize,
}

#[derive(Clone, Copy, PartialEq, Eq, Debug)]
pub enum Line {
    Product(ProductLine),
    Block(BlockLine),
    Refusal(RefusalLine),
}

impl ProductLine {
    #[tactic(auto, unfolding(crate::specs::Lines::product_text))]
    fn text(self) -> Text
        ensures { result.bytes ≡ product_text self }
    {
        let mut text = Text::new();
        put(&mut text, "bytes=", self.bytes, DECIMAL);
        put(&mut text, " blocks=", self.blocks, DECIMAL);
        put(&mut text, " close=", usize::from(self.close), DECIMAL);
        text.push_str("\n");
        text
    }
}

impl BlockLine {
    #[tactic(auto, unfolding(crate::specs::Lines::block_text))]
    fn text(self) -> Text
        ensures { result.bytes ≡ block_text self }
    {
        let mut text = Text::new();
        put(&mut text, "block=", self.block, DECIMAL);
        put(&mut text, " at=", self.at, DECIMAL);
        put(&mut text, " form=", usize::from(self.form), DECIMAL);
        put(&mut text, " mode=", usize::from(self.modes.mode), OCTAL);
        put(
            &mut text,
            " submode=",
            usize::from(self.modes.submode),
            OCTAL,
        );
        text.push_str(" class=");
        text.push_str(self.class.name());
        put(&mut text, " numbers=", self.numbers, DECIMAL);
        text.push_str("\n");
        text
    }
}

impl RefusalLine {
    #[tactic(auto, unfolding(crate::specs::Lines::refusal_text))]
    fn text(self) -> Text
        ensures { result.bytes ≡ refusal_text self }
    {
        let mut text = Text::new();
        put(&mut text, "refused=", usize::from(self.refused), DECIMAL);
        put(&mut text, " block=", self.block, DECIMAL);
        put(&mut text, " at=", self.at, DECIMAL);
        put(&mut text, " rule=", usize::from(self.rule), DECIMAL);
        put(&mut text, " offset=", self.offset, DECIMAL);
        text.push_str("\n");
        text
    }
}

impl Line {
    /// The text of the line, with byte 10 at its end.
    pub fn text(self) -> Text
        ensures { result.bytes ≡ line_text self }
    {
        match self {
            Line::Product(line) => line.text(),
            Line::Block(line) => line.text(),
            Line::Refusal(line) => line.text(),
        }
    }

    // Into the caller's memory, and no `String`: nothing is allocated in these layers.
    /// Puts the line at the front of the memory and tells its length, or leaves a memory that is short of it as it is.
    pub fn write(self, memory: &mut [u8]) -> Option<usize>
        ensures answer { result ≡ length_told (line_text self) memory.old }
        ensures memory { memory.new ≡ laid (line_text self) memory.old }
    {
        let text = self.text();
        if memory.len() < text.len() {
            return None;
        }
        memory[..text.len()].copy_from_slice(text.as_bytes());
        Some(text.len())
    }
}

impl fmt::Display for Line {
    ghost output = { λ line. Some (line_text line) };

    fn fmt<W: fmt::Write>(&self, f: &mut fmt::Formatter<W>) -> fmt::Result {
        f.write_str(self.text().as_str())
    }
}
