// Writing a frame, and looking whether it shows what was written.
ghost use Rattle.std.specs.Prelude.{◌≡◌, ◌*◌, ◌<◌, ◌≤◌, ◌↔◌, IsTrue, true, length};
ghost use Rattle.refusal.specs.Codes.{Below};
ghost use Rattle.kept.specs.Shows.{Shows};
ghost use Rattle.kept.specs.Calls.{Put};

use medium::{Look, Medium};
use refusal::Refusal;

// Whether a frame shows just these codes. Asks for a frame that there is, and a code for each of its squares.
// Stays: (`shows_codes`, `put`, `Sight::of`) a frame as a type would hold its medium as a `&mut`, and each call on that takes the number all the same.
fn shows_codes<M: Medium>(medium: &mut M, frame: usize, codes: &[u8]) -> bool
    requires there { frame < (M.Medium.shows medium.old).frames }
    requires some { 1 ≤ (M.Medium.shows medium.old).squares }
    requires long { length codes.now ≡ (M.Medium.shows medium.old).strips * (M.Medium.shows medium.old).squares }
    ensures same { M.Medium.shows medium.new ≡ M.Medium.shows medium.old }
    ensures value { IsTrue result ↔ Shows (M.Medium.shows medium.old) frame codes.now }
{
    let squares = medium.squares();
    for (place, &code) in codes.iter().enumerate() {
        if medium.look(frame, place / squares, place % squares) != Ok(Look::Clear(code)) {
            return false;
        }
    }
    true
}

// Writes the codes as a frame, and looks whether it shows them. Asks for a writing that nothing stands against.
pub fn put<M: Medium>(medium: &mut M, frame: usize, codes: &[u8]) -> Result<(), Refusal>
    requires there { frame < (M.Medium.shows medium.old).frames }
    requires some { 1 ≤ (M.Medium.shows medium.old).squares }
    requires long { length codes.now ≡ (M.Medium.shows medium.old).strips * (M.Medium.shows medium.old).squares }
    requires below { Below (M.Medium.shows medium.old).levels codes.now }
    requires unlocked { (M.Medium.shows medium.old).unlocked frame ≡ true }
    ensures frame { Put (M.Medium.shows medium.old) frame codes.now tt result (M.Medium.shows medium.new) }
{
    medium.write(frame, codes)?;
    if !shows_codes(medium, frame, codes) {
        return Err(Refusal::NotShown);
    }
    Ok(())
}
