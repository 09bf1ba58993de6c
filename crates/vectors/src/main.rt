// Answers questions to the encoder and the corrector, one to a line, so that another program's answers can be held to them.
//
// `F FIELD M N C RECORD` is answered by the record's frame, `FIELD M N C SHOWING` by the number of the refusal, or by 0, the three
// counts and the fitting frame. FIELD is 0 for the byte field and 1 for the field of 37.
#![tactic(auto)]

mod text;

use corrector::correct;
use field::{Bytes, Field, Mod37};
use fitting::Counts;
use frame::encode;
use refusal::Refusal;
use std::io;
use std::io::{BufRead, BufReader, BufWriter, Write};
use text::{ROOM, Showing, read_geometry, read_symbols, write_symbols};

// The frame of the record that is asked for.
fn frame_of<'a, F: Field>(question: &[u8], room: &'a mut [u8; ROOM]) -> Result<&'a [u8], Refusal> {
    let (geometry, text) = read_geometry::<F>(question)?;
    let mut symbols = [0; ROOM];
    let record = read_symbols(text, &mut symbols);
    let frame = &mut room[..geometry.frame_size()];
    encode::<F>(&geometry, record, frame)?;
    Ok(frame)
}

fn answer_frame<F: Field, W: Write>(question: &[u8], out: &mut W) -> io::Result<()> {
    match frame_of::<F>(question, &mut [0; ROOM]) {
        Ok(frame) => write_symbols(frame, out),
        Err(refusal) => write!(out, "{refusal}"),
    }
}

// The frame that fits the showing that is asked for, and its counts.
fn fitting_frame<'a, F: Field>(
    question: &[u8],
    room: &'a mut [u8; ROOM],
) -> Result<(&'a [u8], Counts), Refusal> {
    let (geometry, text) = read_geometry::<F>(question)?;
    let showing = Showing::read(&geometry, text);
    let frame = &mut room[..geometry.frame_size()];
    let counts = correct::<F>(&geometry, showing.shown(&geometry), frame)?;
    Ok((frame, counts))
}

fn answer_showing<F: Field, W: Write>(question: &[u8], out: &mut W) -> io::Result<()> {
    match fitting_frame::<F>(question, &mut [0; ROOM]) {
        Ok((frame, counts)) => {
            let Counts {
                gone,
                doubtful,
                changed,
            } = counts;
            write!(out, "0 {gone} {doubtful} {changed} ")?;
            write_symbols(frame, out)
        }
        Err(refusal) => write!(out, "{refusal}"),
    }
}

// Answers a question, behind a copy of it.
fn answer<W: Write>(question: &[u8], out: &mut W) -> io::Result<()> {
    out.write_all(question)?;
    out.write_all(b" ")?;
    match question {
        [b'F', b' ', b'0', b' ', rest @ ..] => answer_frame::<Bytes, W>(rest, out)?,
        [b'F', b' ', b'1', b' ', rest @ ..] => answer_frame::<Mod37, W>(rest, out)?,
        [b'0', b' ', rest @ ..] => answer_showing::<Bytes, W>(rest, out)?,
        [b'1', b' ', rest @ ..] => answer_showing::<Mod37, W>(rest, out)?,
        _ => write!(out, "{}", Refusal::UnknownCommand)?,
    }
    out.write_all(b"\n")
}

fn main(rt: HostRuntime) -> io::Result<()> {
    let mut out = BufWriter::new(rt.alloc(), rt.stdout())?;
    for line in BufReader::new(rt.alloc(), rt.stdin())?.lines(rt.alloc()) {
        let question = line?;
        answer(question.as_bytes(), &mut out)?;
    }
    out.flush()
}
