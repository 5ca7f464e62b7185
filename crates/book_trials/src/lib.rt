// The four questions of the plain-word book, on tables of cases.
#![tactic(auto)]

ghost use Rattle.books.specs.Books.{Writes};
ghost use Rattle.books.specs.Words.{plain};

#[cfg(test)]
mod tests {
    use books::book::Book;
    use books::faults::{FieldFault, Rule};
    use books::plain::PlainWords;
    use trial_tools::{Call, call_leaves, put_two};
    use wire::modes::Modes;

    // The plain-word book answers alike at every mode and submode.
    const MODES: Modes = Modes {
        mode: 4,
        submode: 0o20,
    };

    #[test]
    fn judge_goes_by_the_length(rt: HostRuntime) {
        let bytes = [255; 4_095];
        let cases = [
            (0, Ok(0)),
            (2, Ok(1)),
            (4_092, Ok(2_046)),
            (1, Err(Rule::DataLength.at(1))),
            (4_091, Err(Rule::DataLength.at(4_091))),
            (4_093, Err(Rule::DataLength.at(4_093))),
            (4_094, Err(Rule::DataLength.at(4_094))),
        ];
        for (length, want) in &cases {
            assert!(rt; *length <= bytes.len());
            assert_eq!(rt; PlainWords.judge(MODES, &bytes[0..*length]), *want);
        }
    }

    #[test]
    fn number_reads_the_pair_at_an_index(rt: HostRuntime) {
        let bytes = [1, 2, 0, 5, 255, 254, 9];
        let cases = [
            (6, 0, Some(258)),
            (6, 1, Some(5)),
            (6, 2, Some(65_534)),
            (6, 3, None),
            (6, usize::MAX, None),
            (0, 0, None),
            (7, 0, None),
        ];
        for (length, index, want) in &cases {
            assert!(rt; *length <= bytes.len());
            assert_eq!(rt; PlainWords.number(MODES, &bytes[0..*length], *index), *want);
        }
        assert_eq!(rt; PlainWords.number(MODES, &[0; 4_094], 0), None);
    }

    // A list of zeros in which two numbers are put.
    #[test]
    fn weigh_tells_the_length_and_then_the_first_number(rt: HostRuntime) {
        let cases = [
            (0, (0, -1), (1, -1), Ok(0)),
            (2_046, (0, 0), (2_045, 65_535), Ok(4_092)),
            (2_047, (0, 0), (1, 0), Err(Rule::ListLength.at(2_047))),
            (2_047, (0, -1), (1, 65_536), Err(Rule::ListLength.at(2_047))),
            (3, (0, -1), (1, 65_535), Err(Rule::NumberRange.at(0))),
            (3, (1, -1), (2, 65_535), Err(Rule::NumberRange.at(1))),
            (3, (2, -1), (0, 65_535), Err(Rule::NumberRange.at(2))),
            (3, (0, 65_536), (1, 65_535), Err(Rule::NumberRange.at(0))),
            (3, (1, 65_536), (2, -1), Err(Rule::NumberRange.at(1))),
            (
                2_046,
                (2_045, 65_536),
                (0, 65_535),
                Err(Rule::NumberRange.at(2_045)),
            ),
            (
                2_046,
                (2_045, 65_536),
                (2_044, -1),
                Err(Rule::NumberRange.at(2_044)),
            ),
        ];
        for (length, first, second, want) in &cases {
            let mut list = [0; 2_047];
            assert_eq!(rt; put_two(&mut list, *first, *second), Ok(()));
            assert!(rt; *length <= 2_047);
            assert_eq!(rt; PlainWords.weigh(MODES, &list[0..*length]), *want);
        }
    }

    // A list, written into a place.
    #[derive(Clone, Copy)]
    struct Written<'a> {
        list: &'a [i32],
    }

    impl<const N: usize> Call<[u8; N], Result<(), FieldFault>> for Written<'_> {
        ghost gives = { λ w. Writes (plain.writing 4 16 w.list.now) };

        fn call(&self, place: &mut [u8; N]) -> Result<(), FieldFault> {
            PlainWords.write(MODES, self.list, place)
        }
    }

    #[test]
    fn write_fills_a_place_of_its_weight_alone(rt: HostRuntime) {
        let short = Err(Rule::DataLength.at(4));
        let long = Err(Rule::DataLength.at(8));
        let range = Err(Rule::NumberRange.at(1));
        let list = |middle: i32| [258, middle, 65_535];
        let written = (Ok(()), [1, 2, 0, 3, 255, 255]);
        assert_eq!(rt; call_leaves([9; 6], &Written { list: &list(3) }), written);
        assert_eq!(rt;
            call_leaves([9; 4], &Written { list: &list(3) }),
            (short, [9; 4])
        );
        assert_eq!(rt;
            call_leaves([9; 8], &Written { list: &list(3) }),
            (long, [9; 8])
        );
        assert_eq!(rt;
            call_leaves([9; 6], &Written { list: &list(-1) }),
            (range, [9; 6])
        );
        assert_eq!(rt;
            call_leaves(
                [9; 8],
                &Written {
                    list: &list(65_536)
                }
            ),
            (range, [9; 8])
        );
    }
}
