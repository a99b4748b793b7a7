//! Inputs, each with the names and the texts of its components, or with the line that refuses it.

use check_input::{InputError, InputFault, input_line, parts_of};
use formula_core::{Name, Text};
use std::alloc::{AllocError, Global};

/// The most bytes of an input.
const LONGEST_INPUT: usize = 67_108_864;

const INPUTS: &[&[u8]] = &[
    b"",
    b" \t\r\n",
    b"\xc2\xa0 \xc2\xa0",
    b"x",
    b"\n\nend\n",
    b"\tcontext c0 end",
    b"context\nc0 end",
    b"context c0' end",
    b"context mod end",
    b"contextc0 end",
    b"context",
    b"context ",
    b"context 0c",
    b"context c0",
    b"machine m0\r\nend\r\n",
    b"context\xc2\xa0c0\r\nend",
    b"context  c0\xc2\xa0end",
    b"\n \t\r\n\ncontext c0\nend\n",
    b"// one\n/* two\n*/\ncontext c0\nend\n\nmachine m0\nend",
    b"context c0\ncontext c1\n\ncontext c2",
    b"context c0\n/*\ncontext c1\n*/ end",
    b"context c0\nend\ncontext c0\nend\n",
    b"context c0\nend\nmachine c0\nend\n",
    b"\n\ncontext c0\n\nmachine c0",
    b"context c0\nmachine c1\ncontext c1\ncontext c0",
    b"context c0\n context c0",
    b"context c0\ncontext c0'",
    b"context c0\nend\n\xff",
    b"x\n\xc2",
    b"context c0\ncontext c0\n\xff",
];

/// A large input that is made, and what it is.
#[derive(Clone, Copy)]
struct Large {
    told: &'static str,
    made: Made,
}

/// How a large input is made.
#[derive(Clone, Copy)]
enum Made {
    /// So many components behind a first line, each of two lines, and a text.
    Components(u32, &'static str),
    /// A component of so many bytes behind a blank line, and then two of one name.
    Padded(usize),
}

const LARGE: &[Large] = &[
    Large {
        told: "// first, and 256 components",
        made: Made::Components(256, ""),
    },
    Large {
        told: "// first, and 257 components",
        made: Made::Components(257, ""),
    },
    Large {
        told: "// first, 256 components, and machine c7",
        made: Made::Components(256, "machine c7"),
    },
    Large {
        told: "a component of 65,536 bytes, and machine m0 twice",
        made: Made::Padded(65_536),
    },
    Large {
        told: "a component of 65,537 bytes, and machine m0 twice",
        made: Made::Padded(65_537),
    },
];

fn write_parts(out: &mut String, parts: &[(Name, Text)]) -> Result<(), AllocError> {
    for (name, text) in parts {
        out.push_str(name.as_text())?;
        out.push_str("=")?;
        out.push_str(text.as_text())?;
        out.push_str("|")?;
    }
    Ok(())
}

fn write_fault(alloc: Global, out: &mut String, fault: &InputFault) -> Result<(), AllocError> {
    let line = input_line(alloc, fault);
    match &line {
        Ok(line) => out.push_str(line.as_str()),
        Err(_) => Err(AllocError),
    }
}

/// Writes what an input is: the names of its components with their texts, or the line that refuses it.
fn write_input(alloc: Global, out: &mut String, bytes: &[u8]) -> Result<(), AllocError> {
    if bytes.len() > LONGEST_INPUT {
        return out.push_str("too long to ask");
    }
    let cut = parts_of(alloc, bytes);
    match &cut {
        Ok(parts) => write_parts(out, parts),
        Err(InputError::Fault(fault)) => write_fault(alloc, out, fault),
        Err(InputError::OutOfMemory) => Err(AllocError),
    }
}

fn make_components(input: &mut String, count: u32, end: &str) -> Result<(), AllocError> {
    input.push_str("// first\n")?;
    for i in 0..count {
        write!(input, "context c{i}\n\n")?;
    }
    input.push_str(end)
}

fn make_padded(input: &mut String, length: usize) -> Result<(), AllocError> {
    input.push_str("\ncontext c0\n")?;
    for _ in input.len() + 1..length {
        input.push_str(" ")?;
    }
    input.push_str("\nmachine m0\nmachine m0")
}

fn make(input: &mut String, made: Made) -> Result<(), AllocError> {
    match made {
        Made::Components(count, end) => make_components(input, count, end),
        Made::Padded(length) => make_padded(input, length),
    }
}

fn write_large(alloc: Global, rows: &mut String, answer: &mut String) -> Result<(), AllocError> {
    let mut input = String::new(alloc);
    for large in LARGE {
        input.clear();
        make(&mut input, large.made)?;
        answer.clear();
        write_input(alloc, answer, input.as_bytes())?;
        write_row(rows, large.told.as_bytes(), answer)?;
    }
    Ok(())
}

fn write_row(rows: &mut String, told: &[u8], answer: &str) -> Result<(), AllocError> {
    let answer = answer.as_bytes();
    write!(
        rows,
        "input {}\t{}\n",
        told.escape_ascii(),
        answer.escape_ascii()
    )
}

/// Writes a row for each input.
pub fn write_inputs(alloc: Global, rows: &mut String) -> Result<(), AllocError> {
    let mut answer = String::new(alloc);
    for bytes in INPUTS {
        answer.clear();
        write_input(alloc, &mut answer, bytes)?;
        write_row(rows, bytes, &answer)?;
    }
    write_large(alloc, rows, &mut answer)
}
