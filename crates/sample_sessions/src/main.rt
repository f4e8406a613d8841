//! Plays the sample sessions, and compares what they print with what is stored beside them.
#![tactic(auto)]

ghost use Rattle.std.specs.Prelude.{IfOk};
ghost use Rattle.sessions.specs.Outputs.{Prints};

use anyhow::{Context, Result, ensure};
use sessions::play;
use std::alloc::Global;
use std::{fs, io};

const SAMPLES: [&str; 4] = ["pumps", "large-total", "refusals", "refused-first-line"];

fn main(rt: HostRuntime) -> Result<()> {
    for name in SAMPLES {
        let text = read(&rt, name, "txt").context(format_args!("reading {name}.txt"))?;
        let stored = read(&rt, name, "out").context(format_args!("reading {name}.out"))?;
        compare(rt.alloc(), name, &text, &stored)?;
        println!(rt; "{name} prints what is stored.")?;
    }
    Ok(())
}

/// Plays the text, and compares what it prints with what is stored.
fn compare(alloc: Global, name: &str, text: &[u8], stored: &[u8]) -> Result<()>
    ensures { IfOk result (λ _. Prints text.now stored.now) }
{
    let output = play(alloc, text)?;
    ensure!(
        output.as_bytes() == stored,
        "{name} prints something else:\n{output}"
    );
    Ok(())
}

/// The file of a sample. It lies in the folder that the program is run in, or in the folder data there.
fn read(rt: &HostRuntime, name: &str, ending: &str) -> io::Result<Vec<u8>> {
    let here = format!(in rt.alloc(); "{name}.{ending}")?;
    match fs::read(rt, here.as_str()) {
        Ok(bytes) => Ok(bytes),
        Err(_) => fs::read(rt, format!(in rt.alloc(); "data/{here}")?.as_str()),
    }
}
