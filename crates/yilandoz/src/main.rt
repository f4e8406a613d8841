//! Reads a session text from standard input, and prints what its lines ask for.
#![tactic(auto)]

use sessions::{MOST_BYTES, play};
use std::alloc::Global;
use std::io::{self, Read, Write};

fn main(rt: HostRuntime) -> io::Result<()> {
    play_all(rt.alloc(), rt.stdin(), &mut rt.stdout())
}

/// Plays the text that the input gives, and writes what it prints.
fn play_all(alloc: Global, input: impl Read + Drop, output: &mut impl Write) -> io::Result<()> {
    let mut text = Vec::new(alloc);
    // One byte more than a text may have is enough to tell that it has too many.
    input.take(MOST_BYTES as u64 + 1).read_to_end(&mut text)?;
    output.write_all(play(alloc, &text)?.as_bytes())
}

#[cfg(test)]
mod tests;
