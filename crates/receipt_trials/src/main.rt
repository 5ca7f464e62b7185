// Receives each product of a table, and prints its name with its line or its refusal.
// A line of the table is a name, a count of bytes or `all`, and then parts: hex digits, or `N*` and hex digits for N repetitions.
#![tactic(auto)]

use anyhow::{Context, anyhow};
use four_kinds::FourKinds;
use hex::FromHex;
use printing::{print_line, print_refusal};
use products::closed::Closed;
use std::alloc::Global;
use trial_tools::repetition;

/// Adds the bytes of whole pairs of digits. A last digit alone is dropped.
fn push_hex(memory: &mut Vec<u8>, digits: &str) -> anyhow::Result<()> {
    for two in digits.as_bytes().chunks_exact(2) {
        let [byte] = <[u8; 1]>::from_hex(two).map_err(|_| anyhow!("not a hex digit"))?;
        memory.push(byte)?;
    }
    Ok(())
}

// No `push_part` of `trial_tools`: that refuses half a byte, reads digits that stand no times, and holds a repeated piece besides the memory.
fn push_part(memory: &mut Vec<u8>, part: &str) -> anyhow::Result<()> {
    let (times, digits) = repetition(part)?;
    for _ in 0..times {
        push_hex(memory, digits)?;
    }
    Ok(())
}

fn print_receipt(rt: &HostRuntime, memory: &[u8], count: usize) -> anyhow::Result<()> {
    let output = &mut rt.stdout();
    match Closed::receive(memory, count, &FourKinds) {
        Ok(product) => print_line(output, &product, memory, &FourKinds, 0),
        Err(refused) => print_refusal(output, refused),
    }
}

fn run_case(rt: &HostRuntime, heap: Global, case: &str) -> anyhow::Result<()> {
    let mut words = case.split(' ');
    let name = words.next().context("no name")?;
    let count = words.next().context("no count")?;
    let mut memory = Vec::new(heap);
    for part in words {
        push_part(&mut memory, part)?;
    }
    let count = match count {
        "all" => memory.len(),
        number => number.parse::<usize>()?,
    };
    print!(rt; "{name} ")?;
    print_receipt(rt, &memory, count)
}

fn main(rt: HostRuntime) -> anyhow::Result<()> {
    let heap = rt.alloc();
    for line in rt.lines(heap) {
        run_case(&rt, heap, line?.as_str())?;
    }
    Ok(())
}
