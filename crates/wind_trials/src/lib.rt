// Plotted winds, and two's complement, on tables of cases.
#![tactic(auto)]

ghost use Rattle.books.specs.Books.{Writes};
ghost use Rattle.winds.specs.Winds.{winds_meaning};

#[cfg(test)]
mod tests {
    use books::faults::{FieldFault, Rule};
    use cells::cell::Cell;
    use cells::codes::{read_flags, write_flags, write_signed};
    use kinds::kind::Kind;
    use std::process::Abort;
    use trial_tools::{Call, call_leaves, put_two};
    use winds::kind::Winds;

    // The shaft length, the blanking byte, and two barbs at the ends of their ranges.
    const FIELD: [u8; 22] = [
        7, 128, 255, 255, 128, 0, 1, 104, 0, 25, 1, 0, 127, 255, 0, 1, 0, 0, 127, 255, 255, 1,
    ];

    const LIST: [i32; 14] = [
        7, 1, -1, -32_768, 360, 25, 1, 0, 32_767, 1, 0, 32_767, 255, 1,
    ];

    #[test]
    fn judge_goes_by_the_length_first(rt: HostRuntime) {
        let bytes = [0; 4_102];
        let lengths = [(12, 8), (22, 14), (2_042, 1_226), (4_092, 2_456)];
        for (length, numbers) in &lengths {
            assert!(rt; *length <= bytes.len());
            assert_eq!(rt; Winds.judge(&bytes[0..*length]), Ok(*numbers));
        }
        let bytes = [255; 4_102];
        for length in &[
            0,
            1,
            2,
            10,
            11,
            13,
            14,
            21,
            23,
            4_082 + 1,
            4_091,
            4_093,
            4_102,
        ] {
            assert!(rt; *length <= bytes.len());
            assert_eq!(rt;
                Winds.judge(&bytes[0..*length]),
                Err(Rule::DataLength.at(*length))
            );
        }
    }

    // A field of zeros in which two bytes are put.
    #[test]
    fn judge_tells_the_smallest_offset(rt: HostRuntime) {
        let cases = [
            ((0, 255), (1, 128), Ok(2_456)),
            ((1, 1), (6, 255), Err(Rule::ByteRange.at(1))),
            ((1, 127), (2, 255), Err(Rule::ByteRange.at(1))),
            ((1, 129), (4_091, 2), Err(Rule::ByteRange.at(1))),
            ((6, 1), (7, 104), Ok(2_456)),
            ((6, 1), (7, 105), Err(Rule::ByteRange.at(6))),
            ((6, 2), (8, 128), Err(Rule::ByteRange.at(6))),
            ((8, 127), (9, 255), Ok(2_456)),
            ((8, 128), (11, 2), Err(Rule::ByteRange.at(8))),
            ((10, 255), (11, 1), Ok(2_456)),
            ((11, 2), (16, 255), Err(Rule::ByteRange.at(11))),
            ((2, 128), (5, 255), Ok(2_456)),
            ((2_046, 1), (2_047, 105), Err(Rule::ByteRange.at(2_046))),
            ((2_048, 128), (2_056, 255), Err(Rule::ByteRange.at(2_048))),
            ((2_051, 2), (2_056, 255), Err(Rule::ByteRange.at(2_051))),
            ((4_086, 1), (4_087, 105), Err(Rule::ByteRange.at(4_086))),
            ((4_088, 128), (4_091, 2), Err(Rule::ByteRange.at(4_088))),
            ((4_090, 255), (4_091, 2), Err(Rule::ByteRange.at(4_091))),
            ((4_090, 255), (4_091, 1), Ok(2_456)),
        ];
        for (first, second, want) in &cases {
            let mut field = [0; 4_092];
            assert_eq!(rt; put_two(&mut field, *first, *second), Ok(()));
            assert_eq!(rt; Winds.judge(&field), *want);
        }
    }

    #[test]
    fn number_goes_to_its_place(rt: HostRuntime) {
        for (index, number) in LIST.iter().enumerate() {
            assert_eq!(rt; Winds.number(&FIELD, index), Some(*number));
        }
        for index in &[14, 15, usize::MAX] {
            assert_eq!(rt; Winds.number(&FIELD, *index), None);
        }
        let mut field = FIELD;
        field[21] = 2;
        assert_eq!(rt; Winds.number(&field, 0), None);
        assert_eq!(rt; Winds.number(&FIELD[0..21], 0), None);
    }

    #[test]
    fn weigh_goes_by_the_length_first(rt: HostRuntime) {
        let list = [0; 2_462];
        for (length, bytes) in &[(8, 12), (14, 22), (1_226, 2_042), (2_456, 4_092)] {
            assert!(rt; *length <= list.len());
            assert_eq!(rt; Winds.weigh(&list[0..*length]), Ok(*bytes));
        }
        let list = [-1; 2_462];
        for length in &[0, 1, 2, 6, 7, 9, 13, 2_455, 2_457, 2_462] {
            assert!(rt; *length <= list.len());
            assert_eq!(rt;
                Winds.weigh(&list[0..*length]),
                Err(Rule::ListLength.at(*length))
            );
        }
    }

    // Weighs a list of zeros in which two numbers are put, the first over the second.
    fn weigh_case(
        rt: &impl Abort,
        first: (usize, i32),
        second: (usize, i32),
        want: Result<usize, FieldFault>,
    ) {
        let mut list = [0; 2_456];
        assert_eq!(rt; put_two(&mut list, second, first), Ok(()));
        assert_eq!(rt; Winds.weigh(&list), want);
    }

    // The range of each number of the first barb, and of some in the middle and at the end.
    const RANGES: [(usize, i32, i32); 14] = [
        (0, 0, 255),
        (1, 0, 1),
        (2, -32_768, 32_767),
        (3, -32_768, 32_767),
        (4, 0, 360),
        (5, 0, 32_767),
        (6, 0, 255),
        (7, 0, 1),
        (1_226, -32_768, 32_767),
        (1_228, 0, 360),
        (1_231, 0, 1),
        (2_451, -32_768, 32_767),
        (2_453, 0, 32_767),
        (2_455, 0, 1),
    ];

    #[test]
    fn weigh_holds_each_number_to_its_range(rt: HostRuntime) {
        let ranges = RANGES;
        for (index, least, most) in &ranges {
            assert!(rt; *least > -40_000 && *most < 40_000);
            let wrong = Err(Rule::NumberRange.at(*index));
            weigh_case(&rt, (*index, *least), (0, 0), Ok(4_092));
            weigh_case(&rt, (*index, *most), (0, 0), Ok(4_092));
            weigh_case(&rt, (*index, *least - 1), (0, 0), wrong);
            weigh_case(&rt, (*index, *most + 1), (0, 0), wrong);
            weigh_case(&rt, (*index, i32::MIN), (2_455, 2), wrong);
            weigh_case(&rt, (*index, i32::MAX), (2_455, -1), wrong);
        }
    }

    #[test]
    fn weigh_tells_the_smallest_index(rt: HostRuntime) {
        let pairs = [
            (0, 1),
            (1, 2),
            (2, 3),
            (3, 4),
            (4, 5),
            (5, 6),
            (6, 7),
            (7, 8),
        ];
        for (first, second) in &pairs {
            let wrong = Err(Rule::NumberRange.at(*first));
            weigh_case(&rt, (*first, 40_000), (*second, -40_000), wrong);
            weigh_case(&rt, (*second, 40_000), (*first, -40_000), wrong);
        }
    }

    // A list, written into a place.
    #[derive(Clone, Copy)]
    struct Written<'a> {
        list: &'a [i32],
    }

    impl<const N: usize> Call<[u8; N], Result<(), FieldFault>> for Written<'_> {
        ghost gives = { λ w. Writes (winds_meaning.writing w.list.now) };

        fn call(&self, place: &mut [u8; N]) -> Result<(), FieldFault> {
            Winds.write(self.list, place)
        }
    }

    #[test]
    fn write_fills_a_place_of_its_weight_alone(rt: HostRuntime) {
        let short = Err(Rule::DataLength.at(12));
        let long = Err(Rule::DataLength.at(32));
        let range = Err(Rule::NumberRange.at(7));
        let list = |changed: i32| {
            let mut list = LIST;
            list[7] = changed;
            list
        };
        assert_eq!(rt;
            call_leaves([9; 22], &Written { list: &list(0) }),
            (Ok(()), FIELD)
        );
        assert_eq!(rt;
            call_leaves([9; 12], &Written { list: &list(0) }),
            (short, [9; 12])
        );
        assert_eq!(rt;
            call_leaves([9; 32], &Written { list: &list(0) }),
            (long, [9; 32])
        );
        assert_eq!(rt;
            call_leaves([9; 22], &Written { list: &list(2) }),
            (range, [9; 22])
        );
        assert_eq!(rt;
            call_leaves([9; 12], &Written { list: &list(-1) }),
            (range, [9; 12])
        );
    }

    #[test]
    fn signs_hold_to_their_ends(rt: HostRuntime) {
        for (left, right, number) in &[
            (128, 0, -32_768),
            (255, 255, -1),
            (0, 0, 0),
            (127, 255, 32_767),
        ] {
            let pair = u16::from_be_bytes([*left, *right]);
            assert_eq!(rt; pair.signed(), *number);
            assert_eq!(rt; write_signed(*number, 0), Ok(pair));
        }
        for (byte, number) in &[(128_u8, -128), (255, -1), (0, 0), (127, 127)] {
            assert_eq!(rt; byte.signed(), *number);
            assert_eq!(rt; write_signed(*number, 0), Ok(*byte));
        }
        assert_eq!(rt; write_signed::<u8>(128, 3), Err(Rule::NumberRange.at(3)));
        assert_eq!(rt; write_signed::<u8>(-129, 3), Err(Rule::NumberRange.at(3)));
        assert_eq!(rt; read_flags(0o352), [1, 1, 42]);
        assert_eq!(rt; write_flags(0, 1, 63, 0), Ok(127));
        assert_eq!(rt; write_flags(1, 0, 64, 4), Err(Rule::NumberRange.at(6)));
    }
}
