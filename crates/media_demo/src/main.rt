// Looks at every byte value, as a status, a code, a doubt and a character, and prints a line for
// each.
//
// Both media are looked at through a head that moves. A line has the byte, then how a square looks:
// with the byte as its status, as its code and as its doubt on a tray, and as its character on a
// card, alone and beside an `A`. A clear square is its code; 256 is gone, 257 doubtful, 258
// refused.
#![tactic(auto)]

mod head;

use card::CardLayout;
use head::Head;
use medium::{Look, Medium};
use memory::{InMemory, Layout};
use refusal::Refusal;
use std::{fmt, io};
use tray::TrayLayout;

// What looking answered, which prints as the code of a clear square, or as the number for gone,
// doubtful or refused.
#[derive(Drop)]
struct Answer(Result<Look, Refusal>);

impl fmt::Display for Answer {
    fn fmt<W: fmt::Write>(&self, f: &mut fmt::Formatter<W>) -> fmt::Result {
        match self.0 {
            Ok(Look::Clear(code)) => write!(f, "{code}"),
            Ok(Look::Gone) => write!(f, "256"),
            Ok(Look::Doubtful) => write!(f, "257"),
            Err(_) => write!(f, "258"),
        }
    }
}

// How the first square looks, on a medium of one strip behind a head that moves.
fn look_at<L: Layout>(memory: &mut [u8], squares: usize) -> Result<Look, Refusal> {
    let counts = InMemory::<L>::test(1, 1, squares, memory.len())?;
    let medium = InMemory::<L>::over(memory, counts);
    let mut head = Head { medium, at: 9 };
    head.look(0, 0, 0)
}

fn main(rt: HostRuntime) -> io::Result<()> {
    for byte in 0..=u8::MAX {
        let status = Answer(look_at::<TrayLayout>(&mut [byte, 7, 0], 1));
        let code = Answer(look_at::<TrayLayout>(&mut [0, byte, 0], 1));
        let doubt = Answer(look_at::<TrayLayout>(&mut [0, 7, byte], 1));
        let alone = Answer(look_at::<CardLayout>(&mut [byte, b'\n'], 1));
        let beside = Answer(look_at::<CardLayout>(&mut [byte, b'A', b'\n'], 2));
        println!(rt; "{byte} {status} {code} {doubt} {alone} {beside}")?;
    }
    Ok(())
}
