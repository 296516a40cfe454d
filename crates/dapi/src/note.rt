//! Exit statuses and notes.
ghost use Rattle.std.specs.Prelude.{◌≡◌, ◌≤◌, length};
ghost use Rattle.dapi.specs.Note.{status_of, note_of, line_note, word_status, word_note, IsNoted};

use crate::words::WordFault;
use api_serve::RunHow;
use arrayvec::ArrayString;
use outside_io::{Sink, write_all};

// The longest note has 64 bytes, and a line's number 20.
const LONGEST: usize = 80;

/// The exit status of a run.
pub fn status_of(how: RunHow) -> u8
    ensures { result ≡ status_of how }
{
    match how {
        RunHow::Done => 0,
        RunHow::ReadFault { .. } => 2,
        RunHow::WriteFault { .. } => 3,
        RunHow::TooLong => 5,
        RunHow::WrongLine { .. } => 6,
        RunHow::NoMemory => 9,
    }
}

/// The exit status where the words couldn't be used.
pub fn word_status(fault: WordFault) -> u8
    ensures { result ≡ word_status fault }
{
    match fault {
        WordFault::Usage => 1,
        WordFault::NoMemory => 9,
    }
}

fn text(note: &str) -> ArrayString<LONGEST>
    requires { length note.now ≤ 80 }
    ensures { result.bytes ≡ note.now }
{
    let mut text = ArrayString::new();
    text.push_str(note);
    text
}

// The note on a line that isn't a request.
fn line_note(line: u64) -> ArrayString<LONGEST>
    ensures { result.bytes ≡ line_note line }
{
    let mut buffer = itoa::Buffer::new();
    let mut note = text("line ");
    note.push_str(buffer.format(line));
    note.push_str(" is not a request\n");
    note
}

/// The note on how a run ended. It takes no memory.
pub fn note_of(how: RunHow) -> ArrayString<LONGEST>
    ensures { result.bytes ≡ note_of how }
{
    match how {
        RunHow::Done => text(""),
        RunHow::ReadFault { .. } => text("read fault\n"),
        RunHow::WriteFault { .. } => text("write fault\n"),
        RunHow::TooLong => text("input too long\n"),
        RunHow::WrongLine { line } => line_note(line),
        RunHow::NoMemory => text("no memory\n"),
    }
}

/// The note where the words couldn't be used.
pub fn word_note(fault: WordFault) -> ArrayString<LONGEST>
    ensures { result.bytes ≡ word_note fault }
{
    match fault {
        WordFault::Usage => text(USAGE),
        WordFault::NoMemory => text("no memory\n"),
    }
}

const USAGE: &str = "usage: dapi run|mix|gen N SEED|check|serve --listen=A [options]\n";

/// Writes a note. What of it can't be written is dropped.
pub fn write_note<E: Sink>(notes: &mut E, note: &str)
    ensures { IsNoted (E.writing notes.old) (E.writing notes.new) note.now }
{
    let Ok(()) = write_all(notes, note.as_bytes()) else {
        return;
    };
}
