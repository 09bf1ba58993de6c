// The lines of an example, the longest line, and buffers of other lengths.
use crate::{Answer, ReadBack, answer_line, error_line};
use refusal::Refusal;
use script::Command;
use std::process::Abort;
use std::test::Fail;

/// The line stands at the front, and the bytes after it are as they were.
fn check_front(rt: &impl Abort, out: &[u8], made: usize, line: &[u8]) -> Result<(), Fail> {
    let (front, rest) = out
        .split_at_checked(made)
        .ok_or("the line is longer than its buffer")?;
    assert_eq!(rt; front, line);
    assert!(rt; rest.iter().all(|byte| *byte == 7));
    Ok(())
}

fn prints(rt: &impl Abort, command: Command, answer: Answer, line: &[u8]) -> Result<(), Fail> {
    let mut out = [7; 600];
    let made = answer_line(command, answer, &mut out)?;
    check_front(rt, &out, made, line)
}

#[test]
fn example_lines(rt: HostRuntime) -> Result<(), Fail> {
    let symbols: &[u8] = &[1, 0];
    let read = Command::Read { frame: 0 };
    let worn = ReadBack {
        gone: 1,
        doubtful: 0,
        changed: 1,
        symbols,
    };
    let mended = ReadBack {
        gone: 0,
        doubtful: 0,
        changed: 0,
        symbols,
    };
    let outside = Command::Read { frame: 9 };
    let write = Command::Write {
        frame: 0,
        strip: 2,
        square: 1,
        code: 4,
    };
    prints(
        &rt,
        Command::Store { frame: 0, symbols },
        Ok(None),
        b"S 0 0\n",
    )?;
    prints(
        &rt,
        Command::Gone { frame: 0, strip: 0 },
        Ok(None),
        b"G 0 0\n",
    )?;
    prints(&rt, write, Ok(None), b"W 0 0\n")?;
    prints(&rt, read, Ok(Some(worn)), b"R 0 0 1 0 1 0100\n")?;
    prints(&rt, Command::Mend { frame: 0 }, Ok(None), b"M 0 0\n")?;
    prints(&rt, read, Ok(Some(mended)), b"R 0 0 0 0 0 0100\n")?;
    prints(&rt, outside, Err(Refusal::NoSuchPlace), b"R 9 3\n")
}

#[test]
fn other_lines(rt: HostRuntime) -> Result<(), Fail> {
    let copy = Command::Copy {
        source: 10,
        target: 65535,
    };
    let doubt = Command::Doubt {
        frame: 4095,
        strip: 1,
        square: 2,
    };
    let read = Command::Read { frame: 100 };
    let record = ReadBack {
        gone: 254,
        doubtful: 10,
        changed: 100,
        symbols: &[0xAF, 0x09, 0xF0],
    };
    prints(&rt, copy, Err(Refusal::NotShown), b"C 10 65535 10\n")?;
    prints(&rt, doubt, Ok(None), b"D 4095 0\n")?;
    prints(&rt, read, Ok(Some(record)), b"R 100 0 254 10 100 AF09F0\n")
}

#[test]
fn error_lines(rt: HostRuntime) -> Result<(), Fail> {
    let mut out = [7; 600];
    let made = error_line(Refusal::BadGeometry, &mut out)?;
    check_front(&rt, &out, made, b"! 1\n")?;
    let mut out = [7; 600];
    let made = error_line(Refusal::EndsEarly, &mut out)?;
    check_front(&rt, &out, made, b"! 12\n")
}

#[test]
fn longest_line(rt: HostRuntime) -> Result<(), Fail> {
    let mut out = [7; 600];
    let record = ReadBack {
        gone: 255,
        doubtful: 255,
        changed: 255,
        symbols: &[255; 255],
    };
    let read = Command::Read { frame: 65535 };
    let made = answer_line(read, Ok(Some(record)), &mut out)?;
    assert!(rt; made == 533 && out[532] == b'\n' && out[533] == 7);
    Ok(())
}

#[test]
fn wrong_lengths(rt: HostRuntime) {
    let long = ReadBack {
        gone: 0,
        doubtful: 0,
        changed: 0,
        symbols: &[255; 256],
    };
    let read = Command::Read { frame: 0 };
    let wrong = Err(Refusal::WrongLength);
    assert_eq!(rt; answer_line(read, Ok(None), &mut [7; 599]), wrong);
    assert_eq!(rt; answer_line(read, Ok(Some(long)), &mut [7; 600]), wrong);
    assert_eq!(rt; error_line(Refusal::EndsEarly, &mut [7; 601]), wrong);
}
