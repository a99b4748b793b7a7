//! The exit statuses of the program.

/// All went well: what was asked for is written.
pub const DONE: u8 = 0;
/// The input of `check` or a component of it has a fault, or that of a session ended inside an edit.
pub const FAULTED: u8 = 1;
/// The words of the command line have none of the forms.
pub const BAD_WORDS: u8 = 2;
/// The source failed.
pub const READ_FAULT: u8 = 3;
/// The sink failed.
pub const WRITE_FAULT: u8 = 4;
/// The disk failed.
pub const DISK_FAULT: u8 = 5;
/// The files hold no project that can be opened.
pub const NO_PROJECT: u8 = 6;
/// A limit was reached, which the last line names.
pub const FULL: u8 = 7;
/// Memory ran out.
pub const OUT_OF_MEMORY: u8 = 9;
