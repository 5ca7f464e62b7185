// A held product and one that is no longer held, the facts of its blocks, and its lines in memory that is long enough and too short.
#![tactic(auto)]

ghost use Rattle.books.specs.Words.{plain};
ghost use Rattle.lines.specs.Listing.{line_of};
ghost use Rattle.lines.specs.Putting.{put_answer, put_after};
ghost use Rattle.lines.specs.Refusals.{refusal_line};
ghost use Rattle.std.specs.Prelude.{◌≡◌, ◌<◌, Ok};

#[cfg(test)]
mod tests {
    use books::plain::PlainWords;
    use judging::faults::{BlockFault, ReceiptFault, Refusal};
    use lines::listing::write_line;
    use lines::refusals::write_refusal;
    use products::closed::Closed;
    use reading::facts::{Facts, Part, block_facts};
    use std::test::Fail;
    use trial_tools::{Writing, not_held, writing_just_fits};
    use wire::blocks::Malformed;
    use wire::classes::Class;
    use wire::forms::Form;
    use wire::modes::Modes;

    // The identification 86, 54; a wind; the text CAVOK; the end.
    const WINDS: [u8; 44] =
        *b"\x00\x05\x01\x01\x00\x56\x00\x36\xFE\x6E\x40\x08\x05\x03\x0C\x80\xFF\xFE\x01\x2C\x01\x0E\x00\x19\x26\x00\x00\x06\x05\x04CAVOK\x03\x16\x63\x00\x03\x01\x02\xFE\xFB";

    fn winds() -> Result<Closed, Fail> {
        Ok(Closed::receive(&WINDS, 44, &PlainWords)?)
    }

    // The numbers of the refusals in these trials, and of the forms.
    #[test]
    fn numbers(rt: HostRuntime) {
        let refusals = [
            (not_held(BlockFault::Count, 0, 0), 16),
            (Refusal::NoSuchBlock, 17),
            (Refusal::NoRoom, 21),
        ];
        for (refusal, number) in &refusals {
            assert_eq!(rt; refusal.number(), *number);
        }
        let faults = [
            (BlockFault::Count, 1),
            (Malformed::Sum.into(), 7),
            (Malformed::Mode.into(), 8),
            (BlockFault::Leftover, 13),
        ];
        for (fault, number) in &faults {
            assert_eq!(rt; fault.number(), *number);
        }
        assert_eq!(rt; Form::Checksummed.number(), 0);
        assert_eq!(rt; Form::LengthOnly.number(), 1);
    }

    // The memory with one byte altered.
    fn altered(at: usize, byte: u8) -> [u8; 44]
        requires { at < 44 }
    {
        let mut memory = WINDS;
        memory[at] = byte;
        memory
    }

    #[test]
    fn held(rt: HostRuntime) -> Result<(), Fail> {
        let product = winds()?;
        let held = |memory: &[u8]| product.check_held(memory, &PlainWords);
        let count = not_held(BlockFault::Count, 0, 0);
        assert_eq!(rt; held(&WINDS), Ok(()));
        assert_eq!(rt; held(&WINDS[..43]), Err(count));
        assert_eq!(rt;
            held(&altered(5, 0x57)),
            Err(not_held(Malformed::Sum.into(), 0, 0))
        );
        assert_eq!(rt;
            held(&altered(12, 64)),
            Err(not_held(Malformed::Mode.into(), 1, 10))
        );
        assert_eq!(rt;
            held(&altered(28, 1)),
            Err(not_held(Malformed::Sum.into(), 2, 26))
        );
        Ok(())
    }

    // Ten bytes, two blocks, and the other closing form.
    #[test]
    fn held_in_another_form(rt: HostRuntime) -> Result<(), Fail> {
        let short_first = *b"\x40\x02\x01\x01\x00\x03\x01\x02\xFE\xFB";
        let short_last = *b"\x00\x03\x01\x01\xFE\xFC\x40\x02\x01\x02";
        let product = Closed::receive(&short_first, 10, &PlainWords)?;
        let left = not_held(BlockFault::Leftover, 1, 6);
        assert_eq!(rt; product.check_held(&short_last, &PlainWords), Err(left));
        Ok(())
    }

    // Twelve bytes, and two blocks in place of three.
    #[test]
    fn held_with_other_blocks(rt: HostRuntime) -> Result<(), Fail> {
        let three = *b"\x40\x02\x01\x01\x40\x02\x02\x00\x40\x02\x01\x02";
        let two = *b"\x40\x04\x01\x01\x00\x00\x00\x00\x40\x02\x01\x02";
        let product = Closed::receive(&three, 12, &PlainWords)?;
        let left = not_held(BlockFault::Leftover, 1, 8);
        assert_eq!(rt; product.check_held(&two, &PlainWords), Err(left));
        Ok(())
    }

    fn row(
        at: usize,
        form: Form,
        (mode, submode): (u8, u8),
        class: Class,
        (from, to): (usize, usize),
        numbers: usize,
    ) -> Facts {
        Facts {
            at,
            form,
            modes: Modes { mode, submode },
            class,
            field: Part { from, to },
            numbers,
        }
    }

    #[test]
    fn facts(rt: HostRuntime) -> Result<(), Fail> {
        let expected = [
            row(0, Form::Checksummed, (1, 1), Class::Control, (4, 8), 2),
            row(10, Form::LengthOnly, (5, 3), Class::Data, (14, 26), 6),
            row(26, Form::Checksummed, (5, 4), Class::Data, (30, 36), 3),
            row(38, Form::Checksummed, (1, 2), Class::Control, (42, 42), 0),
        ];
        let product = winds()?;
        for (block, facts) in expected.iter().enumerate() {
            assert_eq!(rt;
                block_facts(&product, &WINDS, &PlainWords, block),
                Ok(*facts)
            );
        }
        let past = block_facts(&product, &WINDS, &PlainWords, 4);
        assert_eq!(rt; past, Err(Refusal::NoSuchBlock));
        let broken = block_facts(&product, &altered(43, 0), &PlainWords, 9);
        assert_eq!(rt; broken, Err(not_held(Malformed::Sum.into(), 3, 38)));
        Ok(())
    }

    // A line of a product, written into memory.
    #[derive(Clone, Copy)]
    struct Written<'a> {
        product: &'a Closed,
        held: &'a [u8],
        number: usize,
    }

    impl Writing<Result<usize, Refusal>> for Written<'_> {
        ghost gives = { λ w before told after. (told ≡ put_answer (line_of plain w.held.now w.product.now w.number) before) × (after ≡ put_after (line_of plain w.held.now w.product.now w.number) before) };

        fn write(&self, out: &mut [u8]) -> Result<usize, Refusal> {
            write_line(self.product, self.held, &PlainWords, self.number, out)
        }
    }

    // The line of a refused product, written into memory.
    #[derive(Clone, Copy)]
    struct Refused {
        fault: ReceiptFault,
    }

    impl Writing<Result<usize, Refusal>> for Refused {
        ghost gives = { λ w before told after. (told ≡ put_answer (Ok (refusal_line w.fault)) before) × (after ≡ put_after (Ok (refusal_line w.fault)) before) };

        fn write(&self, out: &mut [u8]) -> Result<usize, Refusal> {
            write_refusal(self.fault, out)
        }
    }

    #[test]
    fn lines(rt: HostRuntime) -> Result<(), Fail> {
        let lines = [
            (0, "bytes=44 blocks=4 close=0\n"),
            (
                1,
                "block=0 at=0 form=0 mode=1 submode=1 class=control numbers=2\n",
            ),
            (
                4,
                "block=3 at=38 form=0 mode=1 submode=2 class=control numbers=0\n",
            ),
        ];
        let product = winds()?;
        for (number, text) in &lines {
            let line = Written {
                product: &product,
                held: &WINDS,
                number: *number,
            };
            let answers = (Ok(text.len()), Err(Refusal::NoRoom));
            assert_eq!(rt; writing_just_fits(text, &line), Some(answers));
        }
        let mut out = [35u8; 256];
        let past = write_line(&product, &WINDS, &PlainWords, 5, &mut out);
        assert_eq!(rt; past, Err(Refusal::NoSuchBlock));
        let lost = write_line(&product, &WINDS[..40], &PlainWords, 0, &mut out);
        assert_eq!(rt; lost, Err(not_held(BlockFault::Count, 0, 0)));
        assert_eq!(rt; out, [35u8; 256]);
        Ok(())
    }

    #[test]
    fn refusals(rt: HostRuntime) -> Result<(), Fail> {
        let Err(fault) = Closed::receive(&WINDS, 38, &PlainWords) else {
            return Err(Fail::new("accepted"));
        };
        let text = "refused=3 block=3 at=38 rule=0 offset=0\n";
        let answers = (Ok(40), Err(Refusal::NoRoom));
        assert_eq!(rt; writing_just_fits(text, &Refused { fault }), Some(answers));
        Ok(())
    }
}
