// Receives a product data set from standard input, and lists its blocks or tells the one refusal.
#![tactic(auto)]

use anyhow::anyhow;
use four_kinds::FourKinds;
use printing::{print_listing, print_refusal};
use products::closed::Closed;
use products::receipt::MOST_BYTES;
use std::io;
use std::io::{Read, Write};

/// Reads the input into memory for one product, and counts its bytes: one more than a product may have where it goes on.
// By `copy`, which asks for no memory: `read_to_end` makes room for another read where the memory is full.
fn read_product(input: &mut impl Read, bytes: &mut Vec<u8>) -> io::Result<usize> {
    io::copy(&mut input.by_ref().take(MOST_BYTES as u64), bytes)?;
    let mut count = bytes.len();
    if count == MOST_BYTES {
        count = count.saturating_add(input.read(&mut [0])?);
    }
    Ok(count)
}

fn list(output: &mut impl Write, bytes: &[u8], count: usize) -> anyhow::Result<()> {
    match Closed::receive(bytes, count, &FourKinds) {
        Ok(product) => print_listing(output, &product, bytes, &FourKinds),
        Err(refused) => {
            print_refusal(output, refused)?;
            Err(anyhow!("the product is refused"))
        }
    }
}

fn main(rt: HostRuntime) -> anyhow::Result<()> {
    let mut bytes = Vec::with_capacity(rt.alloc(), MOST_BYTES)?;
    match read_product(&mut rt.stdin(), &mut bytes) {
        Ok(count) => list(&mut rt.stdout(), &bytes, count),
        Err(error) => {
            eprintln!(rt; "listing: standard input cannot be read: {error}")?;
            Err(error.into())
        }
    }
}
