// Lines as the programs print them, in memory just as long as the line and one byte short of it.
#![tactic(auto)]

ghost use Rattle.text.specs.Lines.{line_text, length_told, laid};
ghost use Rattle.std.specs.Prelude.{◌≡◌};

#[cfg(test)]
mod tests {
    use std::process::Abort;
    use std::test::Fail;
    use text::lines::*;
    use trial_tools::{Writing, writing_just_fits};
    use wire::classes::Class;
    use wire::modes::Modes;

    // A line, written into memory.
    #[derive(Clone, Copy)]
    struct Written {
        line: Line,
    }

    impl Writing<Option<usize>> for Written {
        ghost gives = { λ w before told after. (told ≡ length_told (line_text w.line) before) × (after ≡ laid (line_text w.line) before) };

        fn write(&self, memory: &mut [u8]) -> Option<usize> {
            self.line.write(memory)
        }
    }

    fn check_line(rt: &impl Abort, line: Line, text: &str) {
        let answers = writing_just_fits(text, &Written { line });
        assert_eq!(rt; answers, Some((Some(text.len()), None)));
    }

    fn block(mode: u8, submode: u8, class: Class) -> Line {
        Line::Block(BlockLine {
            block: 1,
            at: 10,
            form: 1,
            modes: Modes { mode, submode },
            class,
            numbers: 6,
        })
    }

    #[test]
    fn products_and_refusals(rt: HostRuntime) {
        let product = ProductLine {
            bytes: 44,
            blocks: 4,
            close: 0,
        };
        check_line(&rt, Line::Product(product), "bytes=44 blocks=4 close=0\n");
        let refusal = RefusalLine {
            refused: 12,
            block: 1,
            at: 10,
            rule: 4,
            offset: usize::MAX,
        };
        check_line(
            &rt,
            Line::Refusal(refusal),
            "refused=12 block=1 at=10 rule=4 offset=18446744073709551615\n",
        );
    }

    #[test]
    fn blocks(rt: HostRuntime) {
        check_line(
            &rt,
            block(5, 3, Class::Data),
            "block=1 at=10 form=1 mode=5 submode=3 class=data numbers=6\n",
        );
        check_line(
            &rt,
            block(63, 0o20, Class::Unknown),
            "block=1 at=10 form=1 mode=77 submode=20 class=unknown numbers=6\n",
        );
        check_line(
            &rt,
            block(0, 255, Class::Description),
            "block=1 at=10 form=1 mode=0 submode=377 class=description numbers=6\n",
        );
    }

    #[test]
    fn printed(rt: HostRuntime) -> Result<(), Fail> {
        let printed = block(5, 3, Class::Data).to_string(rt.alloc())?;
        assert_eq!(rt;
            printed.as_str(),
            "block=1 at=10 form=1 mode=5 submode=3 class=data numbers=6\n"
        );
        Ok(())
    }
}
