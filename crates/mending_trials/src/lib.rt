// Calls on a product whose memory was changed behind its back, is another one or is short, and what stands in the memory behind a product.
#![tactic(auto)]

#[cfg(test)]
mod tests {
    use books::faults::Rule;
    use four_kinds::FourKinds;
    use judging::faults::{BlockFault, Refusal};
    use products::closed::Closed;
    use products::opened::Open;
    use products::tally::Tally;
    use records::drafts::Record;
    use std::process::Abort;
    use std::test::Fail;
    use trial_tools::not_held;
    use wire::blocks::Malformed;
    use wire::forms::Form;
    use wire::modes::Modes;

    // What stands behind a product at first.
    const FILL: u8 = 35;

    fn record(form: u8, mode: u8, submode: u8, numbers: &[i32]) -> Record<'_> {
        Record {
            form,
            modes: Modes { mode, submode },
            numbers,
        }
    }

    // Blocks at 0, 10, 26 and 34, and 40 bytes: the identification, a wind, and two with words.
    // The words of block 2 look like a block.
    fn open_product(memory: &mut [u8]) -> Result<Open, Fail> {
        let wind = record(1, 5, 3, &[12, 1, -2, 300, 270, 25, 38, 0]);
        let mut product = Open::start(memory, &FourKinds, 0, 0, &[86, 54])?;
        product.add(memory, &FourKinds, wind)?;
        product.add(memory, &FourKinds, record(1, 2, 0, &[0x4002, 0x200]))?;
        product.add(memory, &FourKinds, record(1, 2, 0, &[9]))?;
        Ok(product)
    }

    const OPEN: Tally = Tally {
        bytes: 40,
        blocks: 4,
        close: Form::Checksummed,
    };

    // The same with its end.
    fn closed_product(memory: &mut [u8]) -> Result<Closed, Fail> {
        let product = open_product(memory)?;
        let closed = product.close(memory, &FourKinds);
        Ok(closed.map_err(|kept| kept.refusal)?)
    }

    const CLOSED: Tally = Tally {
        bytes: 46,
        blocks: 5,
        close: Form::Checksummed,
    };

    // A memory that holds the open product.
    fn open_memory() -> Result<[u8; 64], Fail> {
        let mut memory = [FILL; 64];
        let _product = open_product(&mut memory)?;
        Ok(memory)
    }

    fn closed_memory() -> Result<[u8; 64], Fail> {
        let mut memory = [FILL; 64];
        let _product = closed_product(&mut memory)?;
        Ok(memory)
    }

    // The numbers of the refusals in these trials, and the faults of a field in them.
    #[test]
    fn numbers(rt: HostRuntime) {
        let field = Rule::ByteRange.at(6);
        let cases = [
            (BlockFault::Count, 1, None),
            (Malformed::Short.into(), 3, None),
            (Malformed::Flag.into(), 4, None),
            (Malformed::Length.into(), 5, None),
            (Malformed::Past.into(), 6, None),
            (Malformed::Sum.into(), 7, None),
            (Malformed::Mode.into(), 8, None),
            (BlockFault::Misplaced, 9, None),
            (BlockFault::LateDefinition, 10, None),
            (BlockFault::EndWithData, 11, None),
            (BlockFault::Field(field), 12, Some(field)),
            (BlockFault::Leftover, 13, None),
        ];
        for (fault, number, field) in &cases {
            let refusal = not_held(*fault, 0, 0);
            assert_eq!(rt; refusal.number(), 16);
            assert_eq!(rt; fault.number(), *number);
            assert_eq!(rt; refusal.field(), *field);
        }
        assert_eq!(rt; Rule::ByteRange.number(), 4);
        assert_eq!(rt; Refusal::NoRoom.number(), 21);
        assert_eq!(rt; Refusal::NoRoom.field(), None);
    }

    // Why a call was refused, and what the product counts then; none if it was not.
    type Told = Option<(Refusal, Tally)>;

    const GIVEN: [i32; 7] = [1, 2, 3, 4, 5, 6, 7];

    // A function for each call, of three lines: one for all would take the call as a closure of that length.
    fn add(memory: &mut [u8]) -> Result<Told, Fail> {
        let mut product = open_product(&mut [FILL; 64])?;
        let answer = product.add(memory, &FourKinds, record(1, 2, 0, &GIVEN));
        Ok(answer.err().map(|refusal| (refusal, product.tally())))
    }

    fn replace(memory: &mut [u8]) -> Result<Told, Fail> {
        let mut product = open_product(&mut [FILL; 64])?;
        let answer = product.replace(memory, &FourKinds, 1, record(1, 2, 0, &GIVEN));
        Ok(answer.err().map(|refusal| (refusal, product.tally())))
    }

    fn withdraw(memory: &mut [u8]) -> Result<Told, Fail> {
        let mut product = open_product(&mut [FILL; 64])?;
        let answer = product.withdraw(memory, &FourKinds, 1);
        Ok(answer.err().map(|refusal| (refusal, product.tally())))
    }

    fn close(memory: &mut [u8]) -> Result<Told, Fail> {
        let kept = open_product(&mut [FILL; 64])?
            .close(memory, &FourKinds)
            .err();
        Ok(kept.map(|kept| (kept.refusal, kept.product.tally())))
    }

    fn reopen(memory: &mut [u8]) -> Result<Told, Fail> {
        let kept = closed_product(&mut [FILL; 64])?
            .reopen(memory, &FourKinds)
            .err();
        Ok(kept.map(|kept| (kept.refusal, kept.product.tally())))
    }

    // The call is refused so in the first `size` bytes of a memory, and leaves product and memory as they were.
    fn check<F: FnOnce(&mut [u8]) -> Result<Told, Fail>>(
        rt: &impl Abort,
        memory: [u8; 64],
        size: usize,
        call: F,
        expected: (Refusal, Tally),
    ) -> Result<(), Fail>
        requires { F.IsAlwaysCallable call }
    {
        let mut lent = memory;
        assert!(rt; size <= 64);
        assert_eq!(rt; call(&mut lent[0..size])?, Some(expected));
        assert_eq!(rt; lent, memory);
        Ok(())
    }

    // Each call on the open product.
    fn check_open(
        rt: &impl Abort,
        memory: [u8; 64],
        size: usize,
        refusal: Refusal,
    ) -> Result<(), Fail> {
        check(rt, memory, size, add, (refusal, OPEN))?;
        check(rt, memory, size, replace, (refusal, OPEN))?;
        check(rt, memory, size, withdraw, (refusal, OPEN))?;
        check(rt, memory, size, close, (refusal, OPEN))
    }

    fn check_closed(
        rt: &impl Abort,
        memory: [u8; 64],
        size: usize,
        refusal: Refusal,
    ) -> Result<(), Fail> {
        check(rt, memory, size, reopen, (refusal, CLOSED))
    }

    // A pair put at a byte of a held product, and how a call is refused then.
    type Change = (usize, [u8; 2], Refusal);

    fn pair_at(
        at: usize,
        pair: [u8; 2],
        fault: impl Into<BlockFault>,
        block: usize,
        byte: usize,
    ) -> Change {
        (at, pair, not_held(fault.into(), block, byte))
    }

    // Makes each change in a memory, and checks what then stands there.
    fn check_changes<F: Fn([u8; 64], Refusal) -> Result<(), Fail>>(
        rt: &impl Abort,
        held: [u8; 64],
        changes: &[Change],
        check: F,
    ) -> Result<(), Fail>
        requires { F.IsAlwaysCallable check }
    {
        for (at, pair, refusal) in changes {
            let mut memory = held;
            assert!(rt; *at < 63);
            memory[*at..*at + 2].copy_from_slice(pair);
            check(memory, *refusal)?;
        }
        Ok(())
    }

    #[test]
    fn changed_behind_an_open_product(rt: HostRuntime) -> Result<(), Fail> {
        let changes = [
            pair_at(4, [0, 87], Malformed::Sum, 0, 0),
            pair_at(2, [1, 3], Malformed::Sum, 0, 0),
            pair_at(10, [0x80, 8], Malformed::Flag, 1, 10),
            pair_at(10, [0x40, 1], Malformed::Length, 1, 10),
            pair_at(34, [0x40, 4], Malformed::Past, 3, 34),
            pair_at(12, [64, 3], Malformed::Mode, 1, 10),
            pair_at(12, [1, 1], BlockFault::Misplaced, 1, 10),
            pair_at(12, [1, 2], BlockFault::Misplaced, 1, 10),
            pair_at(36, [1, 2], BlockFault::Misplaced, 3, 34),
            pair_at(28, [3, 16], BlockFault::LateDefinition, 2, 26),
            pair_at(20, [1, 0x69], Rule::ByteRange.at(6), 1, 10),
            pair_at(26, [0x40, 7], Malformed::Short, 3, 40),
            pair_at(26, [0x40, 2], BlockFault::Leftover, 3, 30),
        ];
        check_changes(&rt, open_memory()?, &changes, |memory, refusal| {
            check_open(&rt, memory, 64, refusal)
        })
    }

    // A memory of zeros, and memories that the product passes.
    #[test]
    fn another_memory(rt: HostRuntime) -> Result<(), Fail> {
        let no_block = not_held(Malformed::Length.into(), 0, 0);
        check_open(&rt, [0; 64], 64, no_block)?;
        let memory = open_memory()?;
        for size in [0, 1, 38, 39] {
            check_open(&rt, memory, size, not_held(BlockFault::Count, 0, 0))?;
        }
        Ok(())
    }

    // The product is held, but the memory is too short for what the call would make of it.
    #[test]
    fn a_memory_too_short(rt: HostRuntime) -> Result<(), Fail> {
        let memory = open_memory()?;
        let refused = (Refusal::NoRoom, OPEN);
        check(&rt, memory, 40, close, refused)?;
        check(&rt, memory, 45, close, refused)?;
        check(&rt, memory, 63, add, refused)?;
        check(&rt, memory, 47, replace, refused)
    }

    #[test]
    fn changed_behind_a_closed_product(rt: HostRuntime) -> Result<(), Fail> {
        let changes = [
            pair_at(4, [0, 87], Malformed::Sum, 0, 0),
            pair_at(12, [64, 3], Malformed::Mode, 1, 10),
            pair_at(12, [1, 2], BlockFault::EndWithData, 1, 10),
            pair_at(20, [1, 0x69], Rule::ByteRange.at(6), 1, 10),
            pair_at(26, [0x40, 7], BlockFault::Leftover, 3, 40),
            pair_at(26, [0x40, 2], BlockFault::Leftover, 5, 40),
            pair_at(42, [2, 2], Malformed::Sum, 4, 40),
            pair_at(40, [0x40, 3], BlockFault::EndWithData, 4, 40),
        ];
        check_changes(&rt, closed_memory()?, &changes, |memory, refusal| {
            check_closed(&rt, memory, 64, refusal)
        })?;
        let no_block = not_held(Malformed::Length.into(), 0, 0);
        check_closed(&rt, [0; 64], 64, no_block)?;
        check_closed(&rt, [0; 64], 45, not_held(BlockFault::Count, 0, 0))
    }

    // Zeros up to a byte, and from there on what stood there before the product.
    fn check_behind(rt: &impl Abort, memory: &[u8; 64], from: usize, to: usize) {
        for (at, byte) in memory.iter().enumerate() {
            if at >= to {
                assert_eq!(rt; *byte, FILL);
            } else if at >= from {
                assert_eq!(rt; *byte, 0);
            }
        }
    }

    #[test]
    fn withdrawn_bytes_are_zeros(rt: HostRuntime) -> Result<(), Fail> {
        let mut memory = [FILL; 64];
        let mut product = open_product(&mut memory)?;
        check_behind(&rt, &memory, 40, 40);
        let before = memory;
        product.withdraw(&mut memory, &FourKinds, 2)?;
        assert_eq!(rt; &memory[0..26], &before[0..26]);
        assert_eq!(rt; &memory[26..32], &before[34..40]);
        check_behind(&rt, &memory, 32, 40);
        Ok(())
    }

    #[test]
    fn replaced_bytes_are_zeros(rt: HostRuntime) -> Result<(), Fail> {
        let mut memory = [FILL; 64];
        let mut product = open_product(&mut memory)?;
        let before = memory;
        product.replace(&mut memory, &FourKinds, 1, record(1, 2, 0, &[]))?;
        assert_eq!(rt; &memory[14..28], &before[26..40]);
        check_behind(&rt, &memory, 28, 40);
        let grown = record(1, 2, 0, &[0; 10]);
        product.replace(&mut memory, &FourKinds, 1, grown)?;
        assert_eq!(rt; &memory[34..48], &before[26..40]);
        check_behind(&rt, &memory, 48, 48);
        Ok(())
    }

    #[test]
    fn the_bytes_of_an_end_are_zeros(rt: HostRuntime) -> Result<(), Fail> {
        let mut memory = [FILL; 64];
        let product = closed_product(&mut memory)?;
        check_behind(&rt, &memory, 46, 46);
        let before = memory;
        let reopened = product.reopen(&mut memory, &FourKinds);
        let mut opened = reopened.map_err(|kept| kept.refusal)?;
        assert_eq!(rt; &memory[0..40], &before[0..40]);
        check_behind(&rt, &memory, 40, 46);
        opened.add(&mut memory, &FourKinds, record(1, 2, 0, &[]))?;
        check_behind(&rt, &memory, 44, 46);
        Ok(())
    }
}
