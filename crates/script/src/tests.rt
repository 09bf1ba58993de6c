// Every command whole, and cut short at each place.
use crate::{Command, FieldKind, Header, parse_command, parse_header};
use refusal::Refusal;
use std::process::Abort;
use std::test::Fail;

/// A record of the tests has two symbols.
const SIZE: usize = 2;

/// The bytes are this command with one byte left over, and no part of the command is one.
fn parses(rt: &impl Abort, script: &[u8], expected: Command) -> Result<(), Fail> {
    assert_eq!(rt;
        parse_command(script, SIZE),
        Ok((expected, b"c".as_slice()))
    );
    for cut in 0..script.len() - 1 {
        assert_eq!(rt;
            parse_command(&script[..cut], SIZE),
            Err(Refusal::EndsEarly)
        );
    }
    Ok(())
}

#[test]
fn calls(rt: HostRuntime) -> Result<(), Fail> {
    let store = Command::Store {
        frame: 258,
        symbols: &[8, 9],
    };
    parses(&rt, b"S\x01\x02\x08\x09c", store)?;
    parses(&rt, b"R\x01\x02c", Command::Read { frame: 258 })?;
    parses(&rt, b"M\x00\x09c", Command::Mend { frame: 9 })
}

#[test]
fn copies(rt: HostRuntime) -> Result<(), Fail> {
    let copy = Command::Copy {
        source: 258,
        target: 65534,
    };
    parses(&rt, b"C\x01\x02\xff\xfec", copy)
}

#[test]
fn wear(rt: HostRuntime) -> Result<(), Fail> {
    let write = Command::Write {
        frame: 0,
        strip: 2,
        square: 1,
        code: 4,
    };
    let doubt = Command::Doubt {
        frame: 4096,
        strip: 2,
        square: 1,
    };
    let gone = Command::Gone { frame: 0, strip: 7 };
    parses(&rt, b"W\x00\x00\x02\x01\x04c", write)?;
    parses(&rt, b"D\x10\x00\x02\x01c", doubt)?;
    parses(&rt, b"G\x00\x00\x07c", gone)
}

#[test]
fn unknown_commands(rt: HostRuntime) {
    for letter in b"srmcwdg!\x00\xff" {
        assert_eq!(rt;
            parse_command(&[*letter], SIZE),
            Err(Refusal::UnknownCommand)
        );
    }
}

#[test]
fn headers(rt: HostRuntime) -> Result<(), Fail> {
    let script = b"\x01\x02\x03\x02\x01\x00SR";
    let expected = Header {
        field: 1,
        squares: 2,
        strips: 3,
        checks: 2,
        frames: 256,
    };
    assert_eq!(rt; parse_header(script), Ok((expected, b"SR".as_slice())));
    for cut in 0..6 {
        assert_eq!(rt; parse_header(&script[..cut]), Err(Refusal::EndsEarly));
    }
    Ok(())
}

#[test]
fn fields(rt: HostRuntime) {
    assert_eq!(rt; FieldKind::try_from(0), Ok(FieldKind::Bytes));
    assert_eq!(rt; FieldKind::try_from(1), Ok(FieldKind::Mod37));
    assert_eq!(rt; FieldKind::try_from(2), Err(Refusal::BadGeometry));
}
