// Stores, wears, reads, mends and copies, on a tray and on a card, and prints each step.
//
// Both have two frames of five strips of two squares, three strips of them checks, so that a record has four symbols.
#![tactic(auto)]

use card::Card;
use field::{Bytes, Field, Mod37};
use fitting::Counts;
use medium::Medium;
use reel::Reel;
use refusal::Refusal;
use std::{fmt, io};
use tray::{Tray, Wear};

// What was found wrong with a frame, as it is told.
#[derive(Clone, Copy)]
struct Wrong(Counts);

impl fmt::Display for Wrong {
    fn fmt<W: fmt::Write>(&self, f: &mut fmt::Formatter<W>) -> fmt::Result {
        let Counts {
            gone,
            doubtful,
            changed,
        } = self.0;
        write!(
            f,
            "{gone} strips gone, {doubtful} squares doubtful, {changed} changed"
        )
    }
}

fn refused(rt: &impl Print, step: &str, refusal: Refusal) -> io::Result<()> {
    println!(rt; "{step}: refused with {refusal}")
}

// Prints what a step answered.
fn tell<T: fmt::Display + Drop>(
    rt: &impl Print,
    step: &str,
    answer: Result<T, Refusal>,
) -> io::Result<()> {
    match answer {
        Ok(done) => println!(rt; "{step}: {done}"),
        Err(refusal) => refused(rt, step, refusal),
    }
}

// Reads a frame of a reel, and prints the record.
fn read<M: Medium, F: Field>(
    rt: &impl Print,
    step: &str,
    reel: &mut Reel<M, F>,
    frame: usize,
) -> io::Result<()> {
    let mut out = [0; 4];
    let counts = reel.read(frame, &mut out);
    tell(rt, step, counts.map(Wrong))?;
    let [a, b, c, d] = out;
    println!(rt; "    {a} {b} {c} {d}")
}

fn on_tray(rt: &impl Print, memory: &mut [u8]) -> io::Result<()> {
    let Ok(counts) = Tray::test(2, 5, 2, memory.len()) else {
        return println!(rt; "no tray");
    };
    let tray = Tray::fresh(memory, counts);
    let geometry = match Reel::<Tray, Bytes>::test(&tray, 256, 2, 5, 3) {
        Ok(geometry) => geometry,
        Err(refusal) => return refused(rt, "load a tray", refusal),
    };
    let mut reel = Reel::<Tray, Bytes>::load(tray, geometry);
    read(rt, "read a fresh tray", &mut reel, 0)?;
    let stored = reel.store(0, &[1, 20, 255, 0]);
    tell(rt, "store 1 20 255 0 as frame 0", stored.map(|()| "done"))?;
    let _ = reel.medium.set_gone(0, 1);
    let _ = reel.medium.set_code(0, 3, 0, 9);
    read(
        rt,
        "read frame 0, a strip gone, a code changed",
        &mut reel,
        0,
    )?;
    let copied = reel.copy(0, 1);
    tell(rt, "copy frame 0 to frame 1", copied.map(Wrong))?;
    read(rt, "read frame 1", &mut reel, 1)?;
    let mended = reel.mend(0);
    tell(rt, "mend frame 0", mended.map(Wrong))?;
    read(rt, "read frame 0", &mut reel, 0)?;
    let _ = reel.medium.set_gone(0, 0);
    let _ = reel.medium.set_gone(0, 1);
    let _ = reel.medium.set_gone(0, 2);
    let mended = reel.mend(0);
    tell(rt, "mend frame 0, three strips gone", mended.map(Wrong))?;
    let stored = reel.store(2, &[1, 2, 3, 4]);
    tell(rt, "store as frame 2", stored.map(|()| "done"))
}

fn on_card(rt: &impl Print, memory: &mut [u8]) -> io::Result<()> {
    let Ok(counts) = Card::test(2, 5, 2, memory.len()) else {
        return println!(rt; "no card");
    };
    let card = Card::over(memory, counts);
    if let Err(refusal) = Reel::<Card, Bytes>::test(&card, 256, 2, 5, 3) {
        refused(rt, "load a card with bytes", refusal)?;
    }
    let geometry = match Reel::<Card, Mod37>::test(&card, 37, 2, 5, 3) {
        Ok(geometry) => geometry,
        Err(refusal) => return refused(rt, "load a card", refusal),
    };
    let mut reel = Reel::<Card, Mod37>::load(card, geometry);
    let stored = reel.store(0, &[10, 11, 12, 36]);
    tell(rt, "store 10 11 12 36 as frame 0", stored.map(|()| "done"))?;
    read(rt, "read frame 0", &mut reel, 0)?;
    let mended = reel.mend(0);
    tell(rt, "mend frame 0", mended.map(Wrong))?;
    let copied = reel.copy(0, 1);
    tell(rt, "copy frame 0 to frame 1", copied.map(Wrong))
}

fn main(rt: HostRuntime) -> io::Result<()> {
    let mut tray = [0; 50];
    on_tray(&rt, &mut tray)?;
    let mut card = [b' '; 30];
    on_card(&rt, &mut card)?;
    // the card in the rain
    card[0] = b'?';
    card[7] = b'Z';
    on_card(&rt, &mut card)
}
