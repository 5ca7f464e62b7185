// Plays a mending script from standard input: starts or receives a product, and mends it as the script says.
#![tactic(auto)]

use anyhow::ensure;
use scripts::player::Player;
use std::io;
use std::io::{BufRead, BufReader};

/// Plays a line. One that is no text is no command either.
fn play_line(
    rt: &HostRuntime,
    player: &mut Player,
    number: usize,
    line: io::Result<String>,
) -> anyhow::Result<()> {
    let text = match line {
        Ok(text) => text,
        Err(error) if error.kind() == io::ErrorKind::InvalidData => String::new(rt.alloc()),
        Err(error) => {
            eprintln!(rt; "mend: standard input cannot be read: {error}")?;
            return Err(error.into());
        }
    };
    let played = player.play(rt.alloc(), number, text.as_str(), &mut rt.stdout())?;
    ensure!(played, "a line is unreadable");
    Ok(())
}

fn main(rt: HostRuntime) -> anyhow::Result<()> {
    let heap = rt.alloc();
    let mut player = Player::new(heap)?;
    let lines = BufReader::new(heap, rt.stdin())?.lines(heap);
    for (number, line) in (1..).zip(lines) {
        play_line(&rt, &mut player, number, line)?;
    }
    player.print_end(&mut rt.stdout())
}
