// The parts of a question: a geometry, and a record or a showing of a frame.
ghost use Rattle.std.specs.Prelude.{◌<◌, ◌≤◌, IfOk, IfSome};

use cardtext::parse_number;
use field::Field;
use fitting::Shown;
use geometry::Geometry;
use medium::Look;
use refusal::Refusal;
use std::io;
use std::io::Write;

/// More symbols than any frame has.
pub const ROOM: usize = 256;

/// The geometry whose three numbers a question begins with, and what stands behind the space that ends them.
pub fn read_geometry<F: Field>(question: &[u8]) -> Result<(Geometry, &[u8]), Refusal>
    ensures { IfOk result (λ g. g.0.order ≤ 256) }
{
    let mut words = question.splitn(4, |byte| *byte == b' ');
    let mut number = || words
        .next()
        .and_then(|word| parse_number(word))
        .ok_or(Refusal::BadGeometry);
    let squares = number()?;
    let strips = number()?;
    let checks = number()?;
    let geometry = Geometry::new(usize::from(F::ORDER), squares, strips, checks)?;
    Ok((geometry, words.next().unwrap_or(&[])))
}

// The value of a hexadecimal digit; a small letter is none.
fn hex_digit(byte: u8) -> Option<u8>
    ensures { IfSome result (λ d. d < 16) }
{
    if byte.is_ascii_lowercase() {
        return None;
    }
    let digit = char::from(byte).to_digit(16)?;
    Some(digit as u8)
}

// A text of squares, two characters to each, that is read from its front.
#[derive(Drop)]
struct Squares<'a> {
    rest: &'a [u8],
}

impl<'a> Squares<'a> {
    // How the square that comes next looks, if two characters say it.
    fn look(&mut self) -> Option<Look> {
        let (look, rest) = match self.rest {
            [b'-', b'-', rest @ ..] => (Look::Gone, rest),
            [b'?', b'?', rest @ ..] => (Look::Doubtful, rest),
            [high, low, rest @ ..] => (
                Look::Clear(hex_digit(*high)? * 16 + hex_digit(*low)?),
                rest,
            ),
            _ => return None,
        };
        self.rest = rest;
        Some(look)
    }

    // Passes over a comma.
    fn skip_comma(&mut self) {
        if let [b',', rest @ ..] = self.rest {
            self.rest = rest;
        }
    }
}

/// The symbols that a text begins with, as many as there is room for.
pub fn read_symbols<'a>(text: &[u8], room: &'a mut [u8]) -> &'a [u8] {
    let mut squares = Squares { rest: text };
    let mut count = 0;
    for place in room.iter_mut() {
        let Some(Look::Clear(symbol)) = squares.look() else {
            break;
        };
        *place = symbol;
        count += 1;
    }
    &room[..count]
}

/// What is shown of a frame: codes, and marks of the strips that are gone and of the squares that are doubtful.
// Stays: like what `reel` notes of a frame, but from a text and not a medium; a program beside a library has its own.
#[derive(Drop)]
pub struct Showing {
    codes: [u8; ROOM],
    strips: [u8; ROOM],
    squares: [u8; ROOM],
}

impl Showing {
    /// What a text shows, strips of squares with a comma between them. A square of which it says nothing shows 0.
    pub fn read(geometry: &Geometry, text: &[u8]) -> Self {
        let mut codes = [0; ROOM];
        let mut strips = [0; ROOM];
        let mut squares = [0; ROOM];
        let mut text = Squares { rest: text };
        let places = codes.iter_mut().zip(squares.iter_mut());
        for (p, (code, doubt)) in places.take(geometry.frame_size()).enumerate() {
            text.skip_comma();
            match text.look() {
                Some(Look::Gone) => {
                    if let Some(gone) = strips.get_mut(p / geometry.squares()) {
                        *gone = 1;
                    }
                }
                Some(Look::Doubtful) => *doubt = 1,
                Some(Look::Clear(shown)) => *code = shown,
                None => {}
            }
        }
        Showing {
            codes,
            strips,
            squares,
        }
    }

    /// What of it belongs to a frame of the geometry. Asks for a geometry over at most 256 codes.
    pub fn shown(&self, geometry: &Geometry) -> Shown<'_>
        requires { geometry.now.order ≤ 256 }
    {
        let size = geometry.frame_size();
        Shown {
            codes: &self.codes[..size],
            strip_marks: &self.strips[..geometry.strips()],
            square_marks: &self.squares[..size],
        }
    }
}

/// Writes symbols, two hexadecimal digits to each.
pub fn write_symbols<W: Write>(symbols: &[u8], out: &mut W) -> io::Result<()> {
    for symbol in symbols {
        write!(out, "{symbol:02X}")?;
    }
    Ok(())
}
