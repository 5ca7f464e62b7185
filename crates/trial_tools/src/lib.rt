// What trials of several crates share: cells with two put in, what a call leaves, refusals, and words that stand for repetitions.
// No handle of a test is taken: what is told here, a trial asserts.
#![tactic(auto)]

ghost use Rattle.trial_tools.specs.Trials.{Gives, JustFits, WritingJustFits, Repeats, Appends};
ghost use Rattle.judging.specs.Faults.{located};
ghost use Rattle.judging.specs.declared.faults.Refusal.TheVariants.{NotHeld};
ghost use Rattle.std.specs.List.{slice_set};
ghost use Rattle.std.specs.Fn.{FnOnceReturnsAtMut};
ghost use Rattle.std.specs.Prelude.{◌≡◌, ◌<◌, ℕ, List, length, IfSome, IfOk, OnOk, OnErr, IsOk, ◌↔◌};

use judging::faults::{BlockFault, Place, Refusal};
use std::alloc::Global;

/// A place is past the last cell.
#[derive(Clone, Copy, PartialEq, Eq, Debug)]
pub struct Outside;

/// Puts two cells at their places, the second over the first where both have one place.
pub fn put_two<T: Copy>(
    cells: &mut [T],
    first: (usize, T),
    second: (usize, T),
) -> Result<(), Outside>
    ensures inside { IsOk result ↔ ((first.0 < length cells.old) × (second.0 < length cells.old)) }
    ensures ok { OnOk result (cells.new ≡ slice_set (slice_set cells.old first.0 first.1) second.0 second.1) }
    ensures err { OnErr result (cells.new ≡ cells.old) }
{
    if first.0 >= cells.len() || second.0 >= cells.len() {
        return Err(Outside);
    }
    cells[first.0] = first.1;
    cells[second.0] = second.1;
    Ok(())
}

/// What a closure answers, and what it leaves of a value that is lent it.
// What calls a closure has to ask that it can be called; `call_leaves`, of a value with a trait, asks for nothing.
pub fn leaves<T: Copy, R, F: FnOnce(&mut T) -> R>(value: T, call: F) -> (R, T)
    requires { F.IsAlwaysCallable call }
    ensures { FnOnceReturnsAtMut F.FnOnce call value result.0 result.1 }
{
    let mut lent = value;
    let answer = call(&mut lent);
    (answer, lent)
}

// Its method asks for nothing, so what calls it has nothing to ask for either.
/// A call that is lent a value.
pub trait Call<T, R> {
    ghost gives: { Self → T → R → T → Type 0 };

    /// What the call answers.
    fn call(&self, lent: &mut T) -> R
        ensures { gives self.now lent.old result lent.new };
}

/// What a call answers, and what it leaves of a value that is lent it.
pub fn call_leaves<T: Copy, R, C: Call<T, R>>(value: T, call: &C) -> (R, T)
    ensures { C.gives call.now value result.0 result.1 }
{
    let mut lent = value;
    let answer = call.call(&mut lent);
    (answer, lent)
}

// Apart from `Call`: a slice is no type that a parameter may stand for.
/// A call that is lent memory.
pub trait Writing<R> {
    ghost gives: { Self → List ℕ → R → List ℕ → Type 0 };

    /// What the call answers.
    fn write(&self, memory: &mut [u8]) -> R
        ensures { gives self.now memory.old result memory.new };
}

/// What stands in a memory before it is written.
const MARK: u8 = 35;

/// What a writing answers, if it leaves the memory so.
fn answer_if<R: Drop, W: Writing<R>>(writing: &W, memory: &mut [u8], after: &[u8]) -> Option<R>
    ensures { IfSome result (λ told. W.gives writing.now memory.old told after.now) }
{
    let told = writing.write(memory);
    if *memory == *after { Some(told) } else { None }
}

/// What a writing answers in memory just as long as the text, and in memory one byte short of it.
/// None where the first does not hold the text then, or the second is not as it was; or if no byte or more than 255 are in the text.
pub fn writing_just_fits<R: Drop, W: Writing<R>>(text: &str, writing: &W) -> Option<(R, R)>
    ensures { IfSome result (λ told. WritingJustFits W.gives writing.now text.now told.0 told.1) }
{
    let size = text.len();
    if size == 0 || size > 255 {
        return None;
    }
    let marks = [MARK; 255];
    let mut long = marks;
    let mut short = marks;
    let told = answer_if(writing, &mut long[..size], text.as_bytes())?;
    let refused = answer_if(writing, &mut short[..size - 1], &marks[..size - 1])?;
    Some((told, refused))
}

/// What a closure answers, if it leaves the memory so.
fn told_if<R: Drop, F: Fn(&mut [u8]) -> R>(write: &F, memory: &mut [u8], after: &[u8]) -> Option<R>
    requires { F.IsAlwaysCallable write.now }
    ensures { IfSome result (λ told. Gives F.Fn write.now memory.old told after.now) }
{
    let told = write(memory);
    (*memory == *after).then_some(told)
}

/// What a closure answers in memory just as long as the text, and in memory one byte short of it; None as for `writing_just_fits`.
// By a body of its own: a type with the trait `Writing` that held any closure would have to say that it can be called, and no ghost field may cite a bound on `Fn`.
pub fn just_fits<R: Drop, F: Fn(&mut [u8]) -> R>(text: &str, write: F) -> Option<(R, R)>
    requires { F.IsAlwaysCallable write }
    ensures { IfSome result (λ told. JustFits F.Fn write text.now told.0 told.1) }
{
    let size = text.len();
    if size == 0 || size > 255 {
        return None;
    }
    let marks = [MARK; 255];
    let mut long = marks;
    let mut short = marks;
    let told = told_if(&write, &mut long[..size], text.as_bytes())?;
    let refused = told_if(&write, &mut short[..size - 1], &marks[..size - 1])?;
    Some((told, refused))
}

/// The refusal of a call on a memory that does not hold the product.
pub fn not_held(fault: BlockFault, block: usize, at: usize) -> Refusal
    ensures { result ≡ NotHeld (located block at fault) }
{
    Place { block, at }.fault(fault).into()
}

/// How often a word stands there, and the word: `N*WORD`, or the word itself once.
pub fn repetition(word: &str) -> anyhow::Result<(usize, &str)>
    ensures { IfOk result (λ told. Repeats word.now told.0 told.1.now) }
{
    match word.split_once('*') {
        Some((times, part)) => Ok((times.parse::<usize>()?, part)),
        None => Ok((1, word)),
    }
}

/// Adds the bytes of a part: hex digits, or `N*` and hex digits for N repetitions.
pub fn push_part(heap: Global, bytes: &mut Vec<u8>, part: &str) -> anyhow::Result<()>
    ensures { OnOk result (Appends part.now bytes.old.items bytes.new.items) }
{
    let (times, digits) = repetition(part)?;
    let piece = hex::decode(heap, digits)?.repeat(heap, times)?;
    Ok(bytes.extend_from_slice(&piece)?)
}

#[cfg(test)]
mod tests {
    use super::*;
    use std::test::Fail;

    // Writes `ab`; into memory that is too short nothing, or zeros where it is careless.
    fn write_two(memory: &mut [u8], careless: bool) -> bool {
        let fits = memory.len() >= 2;
        if fits {
            memory[..2].copy_from_slice(b"ab");
        } else if careless {
            memory.fill(0);
        }
        fits
    }

    #[test]
    fn a_closure_leaves_what_it_was_lent(rt: HostRuntime) {
        let told = leaves(250_u8, |lent: &mut u8| {
            let before = *lent;
            *lent = 7;
            before
        });
        assert_eq!(rt; told, (250, 7));
    }

    #[test]
    fn a_closure_just_fits(rt: HostRuntime) {
        let careful = |memory: &mut [u8]| write_two(memory, false);
        let careless = |memory: &mut [u8]| write_two(memory, true);
        let cases = [
            ("ab", Some((true, false))),
            ("ac", None),
            ("abc", None),
            ("a", None),
            ("", None),
        ];
        for (text, want) in &cases {
            assert_eq!(rt; just_fits(text, careful), *want);
        }
        assert_eq!(rt; just_fits("ab", careless), None);
    }

    #[test]
    fn parts_are_repeated(rt: HostRuntime) -> Result<(), Fail> {
        let heap = rt.alloc();
        let mut bytes = Vec::new(heap);
        for part in ["01fE", "2*0aB0", "0*77", "+1*03"] {
            push_part(heap, &mut bytes, part)?;
        }
        assert_eq!(rt; bytes.as_slice(), [1, 254, 10, 176, 10, 176, 3].as_slice());
        Ok(())
    }

    #[test]
    fn a_word_has_a_count_before_its_first_star(rt: HostRuntime) -> Result<(), Fail> {
        assert_eq!(rt; repetition("-7")?, (1, "-7"));
        assert_eq!(rt; repetition("12*3*4")?, (12, "3*4"));
        assert!(rt; repetition("x*3").is_err());
        Ok(())
    }
}
