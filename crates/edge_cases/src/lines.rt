//! Lines and fields of a text, and how faults are printed.
use std::test::Fail;
use terms::{Part, Refusal};
use texts::{FieldFault, LineFault, Pieces};

/// Whether the pieces are these, numbered from 1.
fn are(pieces: Pieces<'_>, want: &[&str]) -> bool {
    pieces
        .map(|piece| (piece.number, piece.bytes))
        .eq((1..99).zip(want.iter().map(|text| text.as_bytes())))
}

#[test]
fn a_text_falls_into_lines(rt: HostRuntime) {
    assert!(rt; are(Pieces::lines(b""), &[]), "no byte, no line");
    assert!(rt; are(Pieces::lines(b"\n"), &[""]));
    assert!(rt; are(Pieces::lines(b"a"), &["a"]));
    assert!(rt; are(Pieces::lines(b"a\n"), &["a"]));
    assert!(rt; are(Pieces::lines(b"a\nb"), &["a", "b"]));
    assert!(rt; are(Pieces::lines(b"a\nb\n"), &["a", "b"]));
    assert!(rt;
        are(
            Pieces::lines(b"\na\n\n\nb\n\n"),
            &["", "a", "", "", "b", ""]
        )
    );
    assert!(rt;
        are(Pieces::lines(b"\ta\r\n"), &["\ta\r"]),
        "byte 10 alone ends a line"
    );
}

#[test]
fn a_line_falls_into_fields(rt: HostRuntime) {
    assert!(rt;
        are(Pieces::fields(b""), &[""]),
        "an empty line has one field"
    );
    assert!(rt; are(Pieces::fields(b"q"), &["q"]));
    assert!(rt; are(Pieces::fields(b"\t"), &["", ""]));
    assert!(rt; are(Pieces::fields(b"\th\t1 2\t\t"), &["", "h", "1 2", "", ""]));
}

#[test]
fn a_fault_of_a_field_or_a_line_is_printed(rt: HostRuntime) -> Result<(), Fail> {
    let malformed = LineFault::from(FieldFault { line: 2, field: 10 });
    for (fault, want) in [
        (malformed, "x\t2\t10\tt\t4"),
        (LineFault::whole(0, Refusal::TextTooLong), "x\t0\t0\tt\t1"),
        (LineFault::whole(3, Refusal::Finished), "x\t3\t0\tj\t7"),
        (
            LineFault::whole(65_536, Refusal::NoCorePlace),
            "x\t65536\t0\tc\t18",
        ),
        (
            LineFault::whole(4, Refusal::NoSoftPlace(Part::Finder)),
            "x\t4\t0\tf\t11",
        ),
        (LineFault::whole(4, Refusal::NothingKept), "x\t4\t0\t-\t19"),
        (
            LineFault {
                line: 7,
                field: 3,
                refusal: Refusal::BadLiteral,
            },
            "x\t7\t3\tf\t9",
        ),
    ] {
        let text = fault.to_string(rt.alloc())?;
        assert_eq!(rt; text.as_str(), want);
    }
    Ok(())
}
