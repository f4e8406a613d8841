//! Where the program meets its reader, its writer and its memory, with output worked out by hand.
ghost use Rattle.std.specs.Prelude.{◌≤◌, IfOk};

use super::play_all;
use std::io::{self, ErrorKind, Read, Write};
use std::test::Fail;

/// What a text prints.
fn printed(rt: &impl AllocGlobal, text: &[u8]) -> Result<String, Fail> {
    let mut output = Vec::new(rt.alloc());
    play_all(rt.alloc(), text, &mut output).map_err(|_| Fail::from("no memory"))?;
    String::from_utf8(output).map_err(|_| Fail::from("other bytes than text"))
}

#[test]
fn texts_with_few_lines_or_none(rt: HostRuntime) -> Result<(), Fail> {
    for (text, output) in [
        ("", ""),
        ("\n", "x\t1\t0\tt\t2\n"),
        ("j\t0\tp", ""),
        ("j\t0\tp\n", ""),
        ("j\t0\tp\nq", "q\tunasked\t0\t-\t-\n"),
        ("j\t0\tl\nq\n", "q\tunasked\t0,0,0\t-\t-\n"),
        ("j\t0\tp\nr\t9\nq\n", "q\tbest\t0\t0\t\n"),
        ("j\t0\tp\n\nq\n", "x\t2\t0\tt\t2\nq\tunasked\t0\t-\t-\n"),
        ("j\t0\tp\r\nq\n", "x\t1\t3\tt\t4\n"),
    ] {
        let got = printed(&rt, text.as_bytes())?;
        assert!(rt; got.as_str() == output, "{text}");
    }
    Ok(())
}

/// What is printed where the line stands so many times between two others.
fn printed_of(
    rt: &impl AllocGlobal,
    first: &str,
    line: &str,
    times: usize,
    last: &str,
) -> Result<String, Fail> {
    let mut text = format!(in rt.alloc(); "{first}")?;
    for _ in 0..times {
        write!(text, "{line}")?;
    }
    write!(text, "{last}")?;
    printed(rt, text.as_bytes())
}

#[test]
fn a_text_has_at_most_65536_bytes(rt: HostRuntime) -> Result<(), Fail> {
    // The first two lines have eight bytes, and the third all others.
    let full = printed_of(&rt, "j\t1\tp\nq\n", "z", 65_528, "")?;
    assert!(rt; full.as_str() == "q\tunasked\t0\t-\t-\nx\t3\t0\tt\t2\n");
    let longer = printed_of(&rt, "j\t1\tp\nq\n", "z", 65_529, "")?;
    assert!(rt; longer.as_str() == "x\t0\t0\tt\t1\n");
    Ok(())
}

#[test]
fn limits_of_a_clause_and_of_the_tables(rt: HostRuntime) -> Result<(), Fail> {
    let literals = printed_of(&rt, "j\t256\tp\nh", "\t-256", 64, "\n")?;
    assert!(rt; literals.as_str() == "");
    let longer = printed_of(&rt, "j\t256\tp\nh", "\t-256", 65, "\n")?;
    assert!(rt; longer.as_str() == "x\t2\t0\tf\t8\n");
    let softs = printed_of(&rt, "j\t1\tp\n", "s\t1\t1\n", 64, "s\t1\t1\nh\n")?;
    assert!(rt; softs.as_str() == "x\t66\t0\tf\t11\n");
    let clauses = printed_of(&rt, "j\t1\tp\n", "h\n", 4096, "h\ns\t1\nq\n")?;
    assert!(rt; clauses.as_str() == "x\t4098\t0\tf\t13\nx\t4099\t0\tf\t13\nq\tunasked\t0\t-\t-\n");
    // 256 clauses of 64 literals.
    let mut text = format!(in rt.alloc(); "j\t1\tp\n")?;
    for _ in 0..256 {
        write!(text, "h")?;
        for _ in 0..64 {
            write!(text, "\t1")?;
        }
        writeln!(text, "")?;
    }
    write!(text, "h\t1\nh\nr\t9\nq\n")?;
    let output = printed(&rt, text.as_bytes())?;
    assert!(rt; output.as_str() == "x\t258\t0\tf\t13\nq\tvoid\t0\t-\t-\n");
    Ok(())
}

// Of twelve options no five can be had together: there are 792 such sets, and each is a core that the floor needs.
#[test]
fn a_round_without_a_place_for_its_core_is_refused(rt: HostRuntime) -> Result<(), Fail> {
    let mut text = format!(in rt.alloc(); "j\t12\tp\n")?;
    for option in 1..=12 {
        writeln!(text, "s\t1\t{option}")?;
    }
    for a in 1..=12 {
        for b in 1..a {
            for c in 1..b {
                for d in 1..c {
                    for e in 1..d {
                        writeln!(text, "h\t-{a}\t-{b}\t-{c}\t-{d}\t-{e}")?;
                    }
                }
            }
        }
    }
    writeln!(text, "r\t65535\nr\t1")?;
    let output = printed(&rt, text.as_bytes())?;
    assert!(rt; output.as_str() == "x\t806\t0\tc\t18\nx\t807\t0\tc\t18\n");
    Ok(())
}

/// Gives or takes so many bytes more, and then no longer goes on.
#[derive(Drop)]
struct Breaking {
    left: usize,
}

impl Breaking {
    /// How many of these bytes are given or taken.
    fn moved(&mut self, len: usize) -> io::Result<usize>
        ensures { IfOk result (λ moved. moved ≤ len) }
    {
        if self.left == 0 {
            return Err(io::Error::from(ErrorKind::BrokenPipe));
        }
        let moved = self.left.min(len);
        self.left -= moved;
        Ok(moved)
    }
}

impl Read for Breaking {
    fn read(&mut self, buffer: &mut [u8]) -> io::Result<usize> {
        let moved = self.moved(buffer.len())?;
        buffer[..moved].fill(b'\n');
        Ok(moved)
    }
}

impl Write for Breaking {
    fn write(&mut self, bytes: &[u8]) -> io::Result<usize> {
        self.moved(bytes.len())
    }

    fn flush(&mut self) -> io::Result<()> {
        Ok(())
    }
}

#[test]
fn a_text_that_breaks_off_prints_nothing(rt: HostRuntime) {
    let mut output = Vec::new(rt.alloc());
    let played = play_all(rt.alloc(), Breaking { left: 9 }, &mut output);
    assert!(rt; played.is_err_and(|e| e.kind() == ErrorKind::BrokenPipe));
    assert!(rt; output.is_empty());
}

#[test]
fn an_output_that_breaks_off_is_an_error(rt: HostRuntime) {
    // Its fault has ten bytes.
    let text = b"\n".as_slice();
    assert!(rt; play_all(rt.alloc(), text, &mut Breaking { left: 10 }).is_ok());
    let played = play_all(rt.alloc(), text, &mut Breaking { left: 9 });
    assert!(rt; played.is_err_and(|e| e.kind() == ErrorKind::BrokenPipe));
}
