// Plays each script of a table, and prints its name before what the player prints.
// `case NAME` begins a script. In the table alone, `repeat N LINE` stands for the line N times, and a word `N*WORD` for the word N times.
#![tactic(auto)]

use anyhow::{Context, anyhow};
use scripts::player::Player;
use std::alloc::Global;
use std::io::{BufRead, BufReader, Write};

/// A script under way.
#[derive(Drop)]
struct Case {
    /// None after a line that cannot be read, which ends the script.
    player: Option<Player>,
    // Counted by hand: a line that is repeated counts each time, and a line of the table that begins a case never.
    lines: usize,
}

impl Case {
    fn begin(heap: Global, name: &str, output: &mut impl Write) -> anyhow::Result<Case> {
        writeln!(output, "case {name}")?;
        Ok(Case {
            player: Some(Player::new(heap)?),
            lines: 0,
        })
    }

    fn play(&mut self, heap: Global, line: &str, output: &mut impl Write) -> anyhow::Result<()> {
        if let Some(player) = &mut self.player {
            self.lines = self.lines.saturating_add(1);
            if !player.play(heap, self.lines, line, output)? {
                self.player = None;
            }
        }
        Ok(())
    }

    fn repeat(
        &mut self,
        heap: Global,
        times: &str,
        line: &str,
        output: &mut impl Write,
    ) -> anyhow::Result<()> {
        for _ in 0..times.parse::<u32>()? {
            self.play(heap, line, output)?;
        }
        Ok(())
    }

    fn end(&self, output: &mut impl Write) -> anyhow::Result<()> {
        match &self.player {
            Some(player) => player.print_end(output),
            None => Ok(()),
        }
    }
}

/// Adds the word that many times, each with a blank before it.
// No `repetition` of `trial_tools`: a count that is no `u32` is refused, before it can fill memory, and in the words of reading a `u32`.
fn push_words(line: &mut String, times: &str, word: &str) -> anyhow::Result<()> {
    for _ in 0..times.parse::<u32>()? {
        line.push(' ')?;
        line.push_str(word)?;
    }
    Ok(())
}

/// The line with each `N*WORD` written out. A first word stands for itself.
fn expand(heap: Global, short: &str) -> anyhow::Result<String> {
    let mut words = short.split(' ');
    let mut line = String::from_str(heap, words.next().unwrap_or(""))?;
    for word in words {
        let (times, one) = word.split_once('*').unwrap_or(("1", word));
        push_words(&mut line, times, one)?;
    }
    Ok(line)
}

fn play_line(
    heap: Global,
    under_way: &mut Option<Case>,
    line: &str,
    output: &mut impl Write,
) -> anyhow::Result<()> {
    let Some(case) = under_way else {
        return Err(anyhow!("a line before the first case"));
    };
    match line.strip_prefix("repeat ") {
        Some(rest) => {
            let (times, repeated) = rest.split_once(' ').context("nothing to repeat")?;
            case.repeat(heap, times, repeated, output)
        }
        None => case.play(heap, line, output),
    }
}

fn run_line(
    heap: Global,
    under_way: &mut Option<Case>,
    line: &str,
    output: &mut impl Write,
) -> anyhow::Result<()> {
    match line.strip_prefix("case ") {
        Some(name) => {
            if let Some(before) = under_way {
                before.end(output)?;
            }
            *under_way = Some(Case::begin(heap, name, output)?);
            Ok(())
        }
        None => play_line(heap, under_way, expand(heap, line)?.as_str(), output),
    }
}

fn main(rt: HostRuntime) -> anyhow::Result<()> {
    let heap = rt.alloc();
    let mut under_way = None;
    for line in BufReader::new(heap, rt.stdin())?.lines(heap) {
        run_line(heap, &mut under_way, line?.as_str(), &mut rt.stdout())?;
    }
    if let Some(last) = under_way {
        last.end(&mut rt.stdout())?;
    }
    Ok(())
}
