// The two kinds of text, on tables of cases.
#![tactic(auto)]

ghost use Rattle.books.specs.Books.{Writes};
ghost use Rattle.texts.specs.Texts.{text_kind, message};

#[cfg(test)]
mod tests {
    use books::faults::{FieldFault, Rule};
    use kinds::kind::Kind;
    use std::process::Abort;
    use texts::characters::Characters;
    use texts::message::Message;
    use texts::routing::Routing;
    use trial_tools::{Call, call_leaves};

    const MESSAGE: Characters<Message> = Characters { text: Message };

    const ROUTING: Characters<Routing> = Characters { text: Routing };

    // What is wrong with a text as a data field.
    type Want = Result<(), FieldFault>;

    // The fault of a list that answers to one of a data field.
    fn in_list(fault: FieldFault) -> FieldFault {
        let rule = match fault.rule {
            Rule::DataLength => Rule::ListLength,
            Rule::ByteRange => Rule::NumberRange,
            other => other,
        };
        rule.at(fault.place)
    }

    fn check_answers<K: Kind>(rt: &impl Abort, kind: &K, field: &[u8], list: &[i32], want: Want) {
        assert_eq!(rt; kind.judge(field), want.map(|()| field.len()));
        assert_eq!(rt;
            kind.weigh(list),
            want.map(|()| list.len()).map_err(in_list)
        );
        if want.is_err() {
            assert_eq!(rt; kind.number(field, 0), None);
        }
    }

    // What is no byte stands as 255.
    fn byte(number: i32) -> u8 {
        u8::try_from(number).unwrap_or(255)
    }

    fn check_rows<K: Kind>(rt: &impl Abort, kind: &K, rows: &[([i32; 4], Want)]) {
        for (list, want) in rows {
            check_answers(rt, kind, &list.map(byte), list, *want);
        }
    }

    #[test]
    fn routing_takes_any_character(rt: HostRuntime) {
        let rows = [
            ([65, 66, 67, 68], Ok(())),
            ([0, 3, 23, 30], Ok(())),
            ([127, 0, 30, 0], Ok(())),
            ([128, 65, 65, 65], Err(Rule::ByteRange.at(0))),
            ([65, -1, 65, 65], Err(Rule::ByteRange.at(1))),
            ([65, 65, 65, 255], Err(Rule::ByteRange.at(3))),
            ([65, 65, i32::MIN, i32::MAX], Err(Rule::ByteRange.at(2))),
            ([65, 256, 65, 128], Err(Rule::ByteRange.at(1))),
        ];
        check_rows(&rt, &ROUTING, &rows);
    }

    #[test]
    fn message_ends_once(rt: HostRuntime) {
        let rows = [
            ([65, 127, 1, 0], Ok(())),
            ([2, 4, 22, 3], Ok(())),
            ([24, 29, 31, 23], Ok(())),
            ([0, 65, 65, 0], Err(Rule::EarlyEnd.at(0))),
            ([65, 3, 65, 0], Err(Rule::EarlyEnd.at(1))),
            ([65, 65, 23, 0], Err(Rule::EarlyEnd.at(2))),
            ([65, 65, 65, 65], Err(Rule::WrongEnd.at(3))),
            ([65, 65, 65, 1], Err(Rule::WrongEnd.at(3))),
            ([65, 65, 65, 30], Err(Rule::WrongEnd.at(3))),
            ([65, 65, 65, 127], Err(Rule::WrongEnd.at(3))),
        ];
        check_rows(&rt, &MESSAGE, &rows);
    }

    #[test]
    fn separators_stand_in_texts_without_nul(rt: HostRuntime) {
        let rows = [
            ([30, 30, 30, 3], Ok(())),
            ([30, 65, 30, 23], Ok(())),
            ([30, 65, 65, 0], Err(Rule::StraySeparator.at(0))),
            ([65, 30, 65, 0], Err(Rule::StraySeparator.at(1))),
            ([65, 65, 30, 0], Err(Rule::StraySeparator.at(2))),
        ];
        check_rows(&rt, &MESSAGE, &rows);
    }

    #[test]
    fn the_first_fault_wins(rt: HostRuntime) {
        let rows = [
            ([128, 0, 30, 0], Err(Rule::ByteRange.at(0))),
            ([65, -1, 30, 0], Err(Rule::ByteRange.at(1))),
            ([65, 65, 65, 128], Err(Rule::ByteRange.at(3))),
            ([65, 65, 65, -1], Err(Rule::ByteRange.at(3))),
            ([3, 128, 65, 65], Err(Rule::EarlyEnd.at(0))),
            ([65, 23, 30, 0], Err(Rule::EarlyEnd.at(1))),
            ([65, 0, 65, 65], Err(Rule::EarlyEnd.at(1))),
            ([30, 0, 128, 0], Err(Rule::StraySeparator.at(0))),
            ([65, 30, 0, 65], Err(Rule::EarlyEnd.at(2))),
            ([65, 65, 30, 256], Err(Rule::ByteRange.at(3))),
        ];
        check_rows(&rt, &MESSAGE, &rows);
    }

    // Letters that end in ETX, of which one is another number.
    fn check_long<K: Kind>(
        rt: &impl Abort,
        kind: &K,
        length: usize,
        place: usize,
        number: i32,
        want: Want,
    ) {
        let mut list = [65; 4_094];
        let mut field = [65; 4_094];
        assert!(rt; length <= 4_094 && place < 4_094);
        if length > 0 {
            list[length - 1] = 3;
            field[length - 1] = 3;
        }
        list[place] = number;
        field[place] = byte(number);
        check_answers(rt, kind, &field[0..length], &list[0..length], want);
    }

    #[test]
    fn lengths(rt: HostRuntime) {
        let cases = [
            (0, true, false),
            (1, false, false),
            (2, true, true),
            (3, false, false),
            (4_091, false, false),
            (4_092, true, true),
            (4_093, false, false),
            (4_094, false, false),
        ];
        for (length, routing, message) in &cases {
            let length = *length;
            let want = |taken: &bool| {
                if *taken {
                    Ok(())
                } else {
                    Err(Rule::DataLength.at(length))
                }
            };
            // A number out of its range stands in a text whose length is refused: the length comes first.
            let number = if *routing { 65 } else { 128 };
            check_long(&rt, &ROUTING, length, 0, number, want(routing));
            check_long(&rt, &MESSAGE, length, 0, number, want(message));
        }
    }

    #[test]
    fn the_last_places_of_long_texts(rt: HostRuntime) {
        let cases = [
            (4_090, 128, Err(Rule::ByteRange.at(4_090))),
            (4_091, -1, Err(Rule::ByteRange.at(4_091))),
            (4_090, 3, Err(Rule::EarlyEnd.at(4_090))),
            (4_091, 65, Err(Rule::WrongEnd.at(4_091))),
            (2_000, 23, Err(Rule::EarlyEnd.at(2_000))),
            (4_091, 23, Ok(())),
            (4_090, 30, Ok(())),
            (4_092, 128, Ok(())),
        ];
        for (place, number, want) in &cases {
            check_long(&rt, &MESSAGE, 4_092, *place, *number, *want);
        }
    }

    #[test]
    fn number_is_the_byte_at_an_index(rt: HostRuntime) {
        let field = [65, 127, 30, 3];
        let cases = [
            (0, Some(65)),
            (1, Some(127)),
            (2, Some(30)),
            (3, Some(3)),
            (4, None),
            (usize::MAX, None),
        ];
        for (index, want) in &cases {
            assert_eq!(rt; MESSAGE.number(&field, *index), *want);
            assert_eq!(rt; ROUTING.number(&field, *index), *want);
        }
        assert_eq!(rt; ROUTING.number(&field[0..3], 0), None);
    }

    // A list, written as a message into a place.
    #[derive(Clone, Copy)]
    struct Written<'a> {
        list: &'a [i32],
    }

    impl<const N: usize> Call<[u8; N], Result<(), FieldFault>> for Written<'_> {
        ghost gives = { λ w. Writes ((text_kind message).writing w.list.now) };

        fn call(&self, place: &mut [u8; N]) -> Result<(), FieldFault> {
            MESSAGE.write(self.list, place)
        }
    }

    #[test]
    fn write_fills_a_place_of_its_weight_alone(rt: HostRuntime) {
        let list = [65, 30, 127, 3];
        let short = Err(Rule::DataLength.at(2));
        let long = Err(Rule::DataLength.at(6));
        let none = Err(Rule::ListLength.at(0));
        let early = Err(Rule::EarlyEnd.at(0));
        let end = Err(Rule::WrongEnd.at(1));
        let written = (Ok(()), [65, 30, 127, 3]);
        assert_eq!(rt; call_leaves([9; 4], &Written { list: &list }), written);
        assert_eq!(rt;
            call_leaves([9; 2], &Written { list: &list }),
            (short, [9; 2])
        );
        assert_eq!(rt;
            call_leaves([9; 6], &Written { list: &list }),
            (long, [9; 6])
        );
        assert_eq!(rt; call_leaves([9; 2], &Written { list: &[] }), (none, [9; 2]));
        assert_eq!(rt;
            call_leaves([9; 2], &Written { list: &[3, 65] }),
            (early, [9; 2])
        );
        assert_eq!(rt;
            call_leaves([9; 4], &Written { list: &[65, 65] }),
            (end, [9; 4])
        );
        assert_eq!(rt; ROUTING.write(&[], &mut []), Ok(()));
    }
}
