// What a script spells: its header, and one command after another.
ghost use Rattle.std.specs.Prelude.{◌≡◌, ℕ, ◌<◌, ◌++◌, codes, length, MatchResult};
ghost use Rattle.refusal.specs.declared.Refusal.TheVariants.{EndsEarly};
ghost use Rattle.script.specs.Grammar.{Commands, NamesField, Opens, two_bytes};

use refusal::Refusal;

/// The field in which a script's frames lie. Its discriminant is its byte in the header.
#[derive(Clone, Copy, PartialEq, Eq, Debug)]
pub enum FieldKind {
    /// The field of 256, for bytes.
    Bytes = 0,
    /// The field of 37, for cards.
    Mod37 = 1,
}

impl TryFrom<u8> for FieldKind {
    type Error = Refusal;

    ghost try_from_gives = { NamesField };

    fn try_from(byte: u8) -> Result<Self, Refusal> {
        match byte {
            0 => Ok(FieldKind::Bytes),
            1 => Ok(FieldKind::Mod37),
            _ => Err(Refusal::BadGeometry),
        }
    }
}

/// What the first six bytes of a script say.
#[derive(Clone, Copy, PartialEq, Eq, Debug)]
pub struct Header {
    /// The byte of the field.
    // Stays: a header with any byte parses; `FieldKind::try_from` reads it.
    pub field: u8,
    /// Squares in a strip.
    pub squares: u8,
    /// Strips in a frame.
    pub strips: u8,
    /// Check strips.
    pub checks: u8,
    /// Frames of the tray.
    pub frames: u16,
}

/// A command, with its operands.
#[derive(Clone, Copy, PartialEq, Eq, Debug)]
pub enum Command<'a> {
    Store {
        frame: u16,
        symbols: &'a [u8],
    },
    Read {
        frame: u16,
    },
    Mend {
        frame: u16,
    },
    Copy {
        source: u16,
        target: u16,
    },
    Write {
        frame: u16,
        strip: u8,
        square: u8,
        code: u8,
    },
    Doubt {
        frame: u16,
        strip: u8,
        square: u8,
    },
    Gone {
        frame: u16,
        strip: u8,
    },
}

/// A number of two bytes, high byte first, and what follows it.
fn parse_number(script: &[u8]) -> Result<(u16, &[u8]), Refusal>
    ensures value { MatchResult result
        (λ (number, rest). script.now ≡ two_bytes number ++ rest.now)
        (λ e. (length script.now < 2) × (e ≡ EndsEarly)) }
{
    let &[high, low, ref rest @ ..] = script else {
        return Err(Refusal::EndsEarly);
    };
    Ok((u16::from_be_bytes([high, low]), rest))
}

/// The header of a script, and the rest of it. A script that ends inside the header is refused.
pub fn parse_header(script: &[u8]) -> Result<(Header, &[u8]), Refusal>
    ensures value { Opens script.now result }
{
    let &[field, squares, strips, checks, ref rest @ ..] = script else {
        return Err(Refusal::EndsEarly);
    };
    let (frames, rest) = parse_number(rest)?;
    let header = Header {
        field,
        squares,
        strips,
        checks,
        frames,
    };
    Ok((header, rest))
}

fn parse_store(operands: &[u8], record_size: usize) -> Result<(Command<'_>, &[u8]), Refusal>
    ensures value { Commands (codes "S" ++ operands.now) record_size result }
{
    let (frame, rest) = parse_number(operands)?;
    let Some((symbols, rest)) = rest.split_at_checked(record_size) else {
        return Err(Refusal::EndsEarly);
    };
    Ok((Command::Store { frame, symbols }, rest))
}

fn parse_copy(operands: &[u8]) -> Result<(Command<'_>, &[u8]), Refusal>
    ensures value { (size : ℕ) → Commands (codes "C" ++ operands.now) size result }
{
    let (source, rest) = parse_number(operands)?;
    let (target, rest) = parse_number(rest)?;
    Ok((Command::Copy { source, target }, rest))
}

// Stays: `parse_write`, `parse_doubt` and `parse_gone` each take their own operands by a pattern.
fn parse_write(operands: &[u8]) -> Result<(Command<'_>, &[u8]), Refusal>
    ensures value { (size : ℕ) → Commands (codes "W" ++ operands.now) size result }
{
    let (frame, rest) = parse_number(operands)?;
    let &[strip, square, code, ref rest @ ..] = rest else {
        return Err(Refusal::EndsEarly);
    };
    let write = Command::Write {
        frame,
        strip,
        square,
        code,
    };
    Ok((write, rest))
}

fn parse_doubt(operands: &[u8]) -> Result<(Command<'_>, &[u8]), Refusal>
    ensures value { (size : ℕ) → Commands (codes "D" ++ operands.now) size result }
{
    let (frame, rest) = parse_number(operands)?;
    let &[strip, square, ref rest @ ..] = rest else {
        return Err(Refusal::EndsEarly);
    };
    let doubt = Command::Doubt {
        frame,
        strip,
        square,
    };
    Ok((doubt, rest))
}

fn parse_gone(operands: &[u8]) -> Result<(Command<'_>, &[u8]), Refusal>
    ensures value { (size : ℕ) → Commands (codes "G" ++ operands.now) size result }
{
    let (frame, rest) = parse_number(operands)?;
    let &[strip, ref rest @ ..] = rest else {
        return Err(Refusal::EndsEarly);
    };
    Ok((Command::Gone { frame, strip }, rest))
}

/// The command that begins a script in which a record has `record_size` symbols, and the rest of the script.
/// An unknown letter is refused, and so is a script that ends inside the command.
pub fn parse_command(script: &[u8], record_size: usize) -> Result<(Command<'_>, &[u8]), Refusal>
    ensures value { Commands script.now record_size result }
{
    match script {
        [] => Err(Refusal::EndsEarly),
        [b'S', operands @ ..] => parse_store(operands, record_size),
        [b'R', operands @ ..] => {
            let (frame, rest) = parse_number(operands)?;
            Ok((Command::Read { frame }, rest))
        }
        [b'M', operands @ ..] => {
            let (frame, rest) = parse_number(operands)?;
            Ok((Command::Mend { frame }, rest))
        }
        [b'C', operands @ ..] => parse_copy(operands),
        [b'W', operands @ ..] => parse_write(operands),
        [b'D', operands @ ..] => parse_doubt(operands),
        [b'G', operands @ ..] => parse_gone(operands),
        _ => Err(Refusal::UnknownCommand),
    }
}
