// No file is opened under the descriptor of a standard stream.
ghost use Rattle.std.specs.Prelude.{◌≡◌, ◌↔◌, IfOk, IsOk};
ghost use Rattle.std.specs.Fd.{file_raw_fd};
ghost use Rattle.outside.specs.Files.{IsNoStream};

use std::fs::File;
use std::io;
use std::os::fd::{AsRawFd, IntoRawFd};
use std::rt::Files;

/// The greatest descriptor of a standard stream.
const LAST_STREAM: i32 = 2;

// Gives the directory to each standard stream that is closed, for good: what is opened next would take its descriptor.
pub(crate) fn fill_streams<R: Files<File = File>>(rt: &R) -> io::Result<()> {
    for _ in 0..=LAST_STREAM {
        let folder = File::open(rt, ".")?;
        if folder.as_raw_fd() > LAST_STREAM {
            return Ok(());
        }
        folder.into_raw_fd();
    }
    Ok(())
}

// Refuses a file with the descriptor of a standard stream, which would be read or written as that stream.
pub(crate) fn no_stream(file: File) -> io::Result<File>
    ensures refused { IsOk result ↔ IsNoStream (file_raw_fd file) }
    ensures same { IfOk result (λ it. it ≡ file) }
{
    if file.as_raw_fd() > LAST_STREAM {
        Ok(file)
    } else {
        Err(io::ErrorKind::Other.into())
    }
}
