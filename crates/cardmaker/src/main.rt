// cardmaker M N C: records in card characters from the input, a line to each, and their frames to the output.
#![tactic(auto)]

use cardtext::{LINE, LineBuffer, frame_line, parse_number};
use geometry::Geometry;
use refusal::Refusal;
use std::env::FillError;
use std::io::{BufWriter, Read, Write};
use std::rt::Env;
use std::{fmt, io};

// The order of the field of a card's codes.
const ORDER: usize = 37;

// No system hands over a longer argument.
// Stays: `env::args` fails where the program's own name is not UTF-8; this program answers all the same.
const ARGUMENT: usize = 131072;

// What is kept of a line: no record is so long.
const KEPT: usize = 64;

// What is read at once.
const CHUNK: usize = 65536;

// What was answered so far.
#[derive(Default, Drop)]
struct Tally {
    frames: u64,
    refused: u64,
}

impl Tally {
    // Counts one answer more.
    fn record(&mut self, answer: &Result<usize, Refusal>) {
        match answer {
            Ok(_) => self.frames = self.frames.saturating_add(1),
            Err(_) => self.refused = self.refused.saturating_add(1),
        }
    }
}

impl fmt::Display for Tally {
    fn fmt<W: fmt::Write>(&self, f: &mut fmt::Formatter<W>) -> fmt::Result {
        let Tally { frames, refused } = self;
        let records = frames.saturating_add(*refused);
        write!(f, "{records} records, {frames} frames, {refused} refused")
    }
}

// The answers to the records of an input, which are told as its lines come.
#[derive(Drop)]
struct Answers<'a, W> {
    geometry: Geometry,
    line: LineBuffer<KEPT>,
    tally: Tally,
    out: &'a mut W,
}

impl<'a, W: Write> Answers<'a, W> {
    fn new(geometry: Geometry, out: &'a mut W) -> Self {
        Answers {
            geometry,
            line: LineBuffer::new(),
            tally: Tally::default(),
            out,
        }
    }

    // Answers the line that has come, and forgets it.
    fn answer(&mut self) -> io::Result<()> {
        let mut text = [0; LINE];
        let answer = frame_line(&self.geometry, self.line.as_slice(), &mut text);
        self.tally.record(&answer);
        self.line.clear();
        match answer {
            Ok(long) => self.out.write_all(&text[..long]),
            Err(refusal) => writeln!(self.out, "! {refusal}"),
        }
    }

    // Answers the lines that end in a part of the input, and keeps the start of the one that does not.
    fn answer_part(&mut self, part: &[u8]) -> io::Result<()> {
        for &byte in part {
            match byte {
                b'\n' => self.answer()?,
                byte => self.line.push(byte),
            }
        }
        Ok(())
    }

    // Answers each line of the input, the last one even if nothing ends it, and sums up.
    // Stays: `bytes` costs a test for each byte, and takes its reader, which would be one that allocates.
    fn answer_all<R: Read>(&mut self, input: &mut R) -> io::Result<()> {
        let mut chunk = [0; CHUNK];
        for _ in 0..u64::MAX {
            let got = input.read(&mut chunk)?;
            if got == 0 {
                break;
            }
            self.answer_part(&chunk[..got])?;
        }
        if !self.line.as_slice().is_empty() {
            self.answer()?;
        }
        writeln!(self.out, "{}", self.tally)
    }
}

// The number that an argument writes.
fn number(rt: &HostRuntime, i: usize, room: &mut [u8]) -> Result<usize, Refusal> {
    let long = rt.arg(i, room).map_err(|_| Refusal::BadGeometry)?;
    parse_number(&room[..long]).ok_or(Refusal::BadGeometry)
}

// The geometry of just three arguments.
fn geometry(rt: &HostRuntime) -> Result<Geometry, Refusal> {
    let mut room = [0; ARGUMENT];
    let squares = number(rt, 1, &mut room)?;
    let strips = number(rt, 2, &mut room)?;
    let checks = number(rt, 3, &mut room)?;
    match rt.arg(4, &mut room) {
        Err(FillError::NotPresent) => Geometry::new(ORDER, squares, strips, checks),
        _ => Err(Refusal::BadGeometry),
    }
}

fn main(rt: HostRuntime) -> io::Result<()> {
    let mut out = BufWriter::new(rt.alloc(), rt.stdout())?;
    match geometry(&rt) {
        Ok(geometry) => {
            Answers::new(geometry, &mut out).answer_all(&mut rt.stdin())?;
        }
        Err(refusal) => writeln!(out, "! {refusal}")?,
    }
    out.flush()
}
