// The four questions of characters on a chart, on tables of cases.
#![tactic(auto)]

ghost use Rattle.books.specs.Books.{Writes};
ghost use Rattle.labels.specs.Labels.{labels_meaning};

#[cfg(test)]
mod tests {
    use books::faults::{FieldFault, Rule};
    use kinds::kind::Kind;
    use labels::kind::Labels;
    use trial_tools::{Call, call_leaves, put_two};
    use wire::modes::Modes;

    // One more than a length that is too long.
    const MOST: usize = 4_095;

    #[test]
    fn labels_have_mode_5_and_submode_1(rt: HostRuntime) {
        let modes = Modes {
            mode: 5,
            submode: 1,
        };
        assert_eq!(rt; Labels::MODES, modes);
    }

    // A field of zeros in which two bytes are put.
    #[test]
    fn judge_tells_the_length_and_then_the_first_byte(rt: HostRuntime) {
        let cases = [
            (6, (7, 128), (0, 0), Err(Rule::DataLength.at(6))),
            (7, (7, 128), (0, 0), Err(Rule::DataLength.at(7))),
            (8, (7, 127), (6, 255), Ok(8)),
            (9, (7, 128), (0, 0), Err(Rule::DataLength.at(9))),
            (10, (0, 255), (5, 255), Ok(10)),
            (4_092, (7, 127), (4_091, 127), Ok(4_092)),
            (4_094, (7, 128), (0, 0), Err(Rule::DataLength.at(4_094))),
            (8, (7, 128), (6, 255), Err(Rule::ByteRange.at(7))),
            (10, (8, 128), (7, 127), Err(Rule::ByteRange.at(8))),
            (10, (9, 255), (10, 255), Err(Rule::ByteRange.at(9))),
            (10, (10, 255), (11, 255), Ok(10)),
            (
                4_092,
                (2_000, 128),
                (4_091, 128),
                Err(Rule::ByteRange.at(2_000)),
            ),
            (
                4_092,
                (4_091, 128),
                (4_090, 127),
                Err(Rule::ByteRange.at(4_091)),
            ),
        ];
        for (length, first, second, want) in &cases {
            let mut field = [0; MOST];
            assert_eq!(rt; put_two(&mut field, *first, *second), Ok(()));
            assert!(rt; *length <= MOST);
            assert_eq!(rt; Labels.judge(&field[0..*length]), *want);
        }
    }

    #[test]
    fn number_goes_to_its_place(rt: HostRuntime) {
        let low = [128, 0, 128, 0, 128, 128, 0b1011_1111, 0, 65, 127];
        let high = [127, 255, 1, 2, 127, 127, 0b0100_0001, 1, 2, 3];
        let cases = [
            (0, Some(-32_768), Some(32_767)),
            (1, Some(-32_768), Some(258)),
            (2, Some(-128), Some(127)),
            (3, Some(-128), Some(127)),
            (4, Some(1), Some(0)),
            (5, Some(0), Some(1)),
            (6, Some(63), Some(1)),
            (7, Some(0), Some(1)),
            (8, Some(65), Some(2)),
            (9, Some(127), Some(3)),
            (10, None, None),
            (usize::MAX, None, None),
        ];
        for (index, of_low, of_high) in &cases {
            assert_eq!(rt; Labels.number(&low, *index), *of_low);
            assert_eq!(rt; Labels.number(&high, *index), *of_high);
            assert_eq!(rt; Labels.number(&[0, 0, 0, 0, 0, 0, 0, 128], *index), None);
            assert_eq!(rt; Labels.number(&[0; 7], *index), None);
        }
    }

    // A list of zeros in which two numbers are put.
    #[test]
    fn weigh_tells_the_length_and_then_the_first_number(rt: HostRuntime) {
        let cases = [
            (6, (0, 32_768), (1, 0), Err(Rule::ListLength.at(6))),
            (7, (0, 32_768), (1, 0), Err(Rule::ListLength.at(7))),
            (8, (0, 32_767), (1, -32_768), Ok(8)),
            (9, (0, 32_768), (1, 0), Err(Rule::ListLength.at(9))),
            (10, (2, -128), (3, 127), Ok(10)),
            (4_092, (7, 127), (4_091, 127), Ok(4_092)),
            (4_094, (0, 32_768), (1, 0), Err(Rule::ListLength.at(4_094))),
            (8, (4, 1), (5, 1), Ok(8)),
            (8, (6, 63), (7, 127), Ok(8)),
            (8, (8, -1), (9, 128), Ok(8)),
        ];
        for (length, first, second, want) in &cases {
            let mut list = [0; MOST];
            assert_eq!(rt; put_two(&mut list, *first, *second), Ok(()));
            assert!(rt; *length <= MOST);
            assert_eq!(rt; Labels.weigh(&list[0..*length]), *want);
        }
    }

    // A list of 4,092 zeros in which two numbers are put, of which the first in the table is refused.
    #[test]
    fn weigh_refuses_the_first_number_out_of_range(rt: HostRuntime) {
        let cases = [
            ((0, -32_769), (4_091, 128)),
            ((0, 32_768), (1, 32_768)),
            ((1, -32_769), (2, 128)),
            ((1, 32_768), (0, 32_767)),
            ((2, -129), (3, -129)),
            ((2, 128), (1, -32_768)),
            ((3, -129), (4, 2)),
            ((3, 128), (2, 127)),
            ((4, -1), (5, 2)),
            ((4, 2), (3, -128)),
            ((5, -1), (6, 64)),
            ((5, 2), (4, 1)),
            ((6, -1), (7, 128)),
            ((6, 64), (5, 1)),
            ((7, -1), (4_091, -1)),
            ((7, 128), (8, 128)),
            ((2_000, 128), (2_001, -1)),
            ((4_091, -1), (4_090, 127)),
            ((4_091, 128), (6, 63)),
        ];
        for (first, second) in &cases {
            let mut list = [0; 4_092];
            assert_eq!(rt; put_two(&mut list, *first, *second), Ok(()));
            assert_eq!(rt; Labels.weigh(&list), Err(Rule::NumberRange.at(first.0)));
        }
    }

    // A list, written into a place.
    #[derive(Clone, Copy)]
    struct Written<'a> {
        list: &'a [i32],
    }

    impl<const N: usize> Call<[u8; N], Result<(), FieldFault>> for Written<'_> {
        ghost gives = { λ w. Writes (labels_meaning.writing w.list.now) };

        fn call(&self, place: &mut [u8; N]) -> Result<(), FieldFault> {
            Labels.write(self.list, place)
        }
    }

    #[test]
    fn write_fills_a_place_of_its_weight_alone(rt: HostRuntime) {
        let list = |last: i32| [-32_768, 258, -128, 127, 1, 0, 63, 65, 0, last];
        let short = Err(Rule::DataLength.at(8));
        let long = Err(Rule::DataLength.at(12));
        let range = Err(Rule::NumberRange.at(9));
        assert_eq!(rt;
            call_leaves([9; 10], &Written { list: &list(127) }),
            (Ok(()), [128, 0, 1, 2, 128, 127, 0b1011_1111, 65, 0, 127])
        );
        assert_eq!(rt;
            call_leaves([9; 8], &Written { list: &list(127) }),
            (short, [9; 8])
        );
        assert_eq!(rt;
            call_leaves([9; 12], &Written { list: &list(127) }),
            (long, [9; 12])
        );
        assert_eq!(rt;
            call_leaves([9; 10], &Written { list: &list(128) }),
            (range, [9; 10])
        );
        assert_eq!(rt;
            call_leaves([9; 8], &Written { list: &list(-1) }),
            (range, [9; 8])
        );
    }
}
