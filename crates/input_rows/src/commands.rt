//! The commands of an input that comes in pieces of 1, 3 and 4,096 bytes.
ghost use Rattle.std.specs.Prelude.{◌<◌};

use session_lines::{Command, Input};
use std::alloc::{AllocError, Global};

/// Blank lines and comments, U+00A0 as a blank, a carriage return before a line feed, words that no edit has, texts, and an edit that is cut off.
const INPUT: &[u8] =
    b"build\r\n\n  // a comment that does not begin the line\n// a comment\n \t\nedit c0\ncontext c0\r\nend\n.\n\
\xc2\xa0 \n\xc2\xa0edit\xc2\xa0m1\n.\n\
edit\nedit a b\n edit  m0 \n..\n . \n\n.\nedits x\nshow c0/thm1/THM -\nquit\nedit z\nlast";

fn text_of(bytes: &[u8]) -> &str {
    std::str::from_utf8(bytes).unwrap_or("(no text)")
}

fn write_command(rows: &mut String, command: &Command) -> Result<(), AllocError> {
    match command {
        Command::Line(line) => write!(rows, "line [{}]\n", text_of(line.items())),
        Command::LineTooLong => rows.push_str("line too long\n"),
        Command::Edit(word, text) => {
            let bytes = text.items().len();
            write!(rows, "edit [{}], {bytes} bytes\n", text_of(word.items()))
        }
        Command::CutEdit => rows.push_str("cut edit\n"),
    }
}

/// Writes the next command. False where none is whole.
fn write_next(alloc: Global, rows: &mut String, input: &mut Input) -> Result<bool, AllocError> {
    let next = input.next(alloc);
    match &next {
        Ok(Some(command)) => {
            write_command(rows, command)?;
            Ok(true)
        }
        Ok(None) => Ok(false),
        Err(_) => Err(AllocError),
    }
}

/// Writes the commands that are whole.
fn write_whole(alloc: Global, rows: &mut String, input: &mut Input) -> Result<(), AllocError> {
    for _ in 0..u64::MAX {
        if !write_next(alloc, rows, input)? {
            break;
        }
    }
    Ok(())
}

fn feed(input: &mut Input, piece: &[u8]) -> Result<(), AllocError> {
    input.feed(piece).or(Err(AllocError))
}

/// Writes the commands of the input, which comes in pieces of `most` bytes.
fn write_pieces(alloc: Global, rows: &mut String, most: usize) -> Result<(), AllocError>
    requires { 0 < most }
{
    write!(rows, "in pieces of {most}\n")?;
    let mut input = Input::new(alloc);
    for piece in INPUT.chunks(most) {
        feed(&mut input, piece)?;
        write_whole(alloc, rows, &mut input)?;
    }
    input.finish();
    write_whole(alloc, rows, &mut input)
}

/// Writes the commands of the input for each size of its pieces.
pub fn write_commands(alloc: Global, rows: &mut String) -> Result<(), AllocError> {
    write!(rows, "commands of {}\n", INPUT.escape_ascii())?;
    write_pieces(alloc, rows, 1)?;
    write_pieces(alloc, rows, 3)?;
    write_pieces(alloc, rows, 4_096)
}
