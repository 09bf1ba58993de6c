// A line for a command and its answer, and a line for an error in the script.
ghost use Rattle.std.specs.Prelude.{◌≡◌, ◌+◌, ◌≤◌, ◌++◌, length};
ghost use Rattle.refusal.specs.Outcome.{Outcome};
ghost use Rattle.lines.specs.Lines.{answered, error_line, given, line, named, no_error_line, no_line};
ghost use Rattle.lines.specs.Texts.{Prints};

use crate::text::{LINE_SIZE, Line};
use refusal::Refusal;
use script::Command;

/// How many symbols a record has at most.
const RECORD_MOST: usize = 255;

/// A record that was read: the counts of what its frame had shown, and its symbols.
// Stays: its counts are those of `fitting::Counts`, but lines builds on none of the code, only on `script` and `refusal`.
#[derive(Clone, Copy, PartialEq, Eq, Debug)]
pub struct ReadBack<'a> {
    pub gone: usize,
    pub doubtful: usize,
    pub changed: usize,
    pub symbols: &'a [u8],
}

/// What a command answers: that it was done, and for a read the record; or why it was refused.
pub type Answer<'a> = Result<Option<ReadBack<'a>>, Refusal>;

/// The letter of a command, and its frame numbers: at most `C 65535 65535`.
fn put_command(line: &mut Line, command: Command)
    requires { length line.old + 13 ≤ LINE_SIZE }
    ensures value { line.new ≡ line.old ++ named command.entry }
    ensures short { length line.new ≤ length line.old + 13 }
{
    let (letter, frame) = match command {
        Command::Store { frame, .. } => (b'S', frame),
        Command::Read { frame } => (b'R', frame),
        Command::Mend { frame } => (b'M', frame),
        Command::Copy { source, .. } => (b'C', source),
        Command::Write { frame, .. } => (b'W', frame),
        Command::Doubt { frame, .. } => (b'D', frame),
        Command::Gone { frame, .. } => (b'G', frame),
    };
    line.put(letter);
    line.put_figure(frame);
    if let Command::Copy { target, .. } = command {
        line.put_figure(target);
    }
}

/// The number of an answer; for a record that was read also the counts and the symbols, 578 bytes at most.
fn put_answer(line: &mut Line, answer: Answer)
    requires { (length line.old + 578 ≤ LINE_SIZE) × (given answer ≤ RECORD_MOST) }
    ensures value { line.new ≡ line.old ++ answered answer.entry }
    ensures short { length line.new ≤ length line.old + 578 }
{
    let number = match answer {
        Ok(_) => 0,
        Err(cause) => u8::from(cause),
    };
    line.put_figure(number);
    if let Ok(Some(read)) = answer {
        line.put_figure(read.gone);
        line.put_figure(read.doubtful);
        line.put_figure(read.changed);
        line.put(b' ');
        line.put_hex(read.symbols);
    }
}

/// Makes the line of a command and its answer at the front of a buffer, and answers the line's length.
/// Refused if the buffer has not 600 bytes, or the answer gives more symbols than a record has.
pub fn answer_line(command: Command, answer: Answer, out: &mut [u8]) -> Result<usize, Refusal>
    ensures value { let before = out.old in let after = out.new in Outcome (no_line answer.entry before) (after ≡ before) (Prints (line command.entry answer.entry) before after result) result }
{
    let is_long = matches!(answer, Ok(Some(read)) if read.symbols.len() > RECORD_MOST);
    if out.len() != LINE_SIZE || is_long {
        return Err(Refusal::WrongLength);
    }
    let mut line = Line::new();
    put_command(&mut line, command);
    put_answer(&mut line, answer);
    line.put(b'\n');
    Ok(line.copy_to(out))
}

/// Makes the line of an error in the script at the front of a buffer, and answers the line's length.
/// Refused if the buffer has not 600 bytes.
pub fn error_line(cause: Refusal, out: &mut [u8]) -> Result<usize, Refusal>
    ensures value { let before = out.old in let after = out.new in Outcome (no_error_line before) (after ≡ before) (Prints (error_line cause) before after result) result }
{
    if out.len() != LINE_SIZE {
        return Err(Refusal::WrongLength);
    }
    let mut line = Line::new();
    line.put(b'!');
    line.put_figure(u8::from(cause));
    line.put(b'\n');
    Ok(line.copy_to(out))
}
