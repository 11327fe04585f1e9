//! A PE file of one section and five symbols.
//!
//! - 0: MS-DOS header, which has at 60 that the signature is at 64. Readers don't look at the signature, nor at the
//!   magic number, which is zero here.
//! - 68: file header: 1 section, 5 symbols at 128, no optional header
//! - 88: section header: `.text`, 0x100 bytes of raw data
//! - 128: rows of section 1, type 0x20 (function), class 2 (external), without auxiliary records: `a` at 0x180, `b` at
//!   0, `c` at 0x40, `d` at 0, `e` at 0x100

use crate::Patch;

/// Offsets of fields of the file header, of the section header, and of the first row.
pub const SECTIONS: usize = 70;

pub const SYMBOLS: usize = 80;

pub const RAW_SIZE: usize = 104;

pub const CLASS: usize = 144;

/// The magic number.
pub const MAGIC: Patch<'static> = (0, b"MZ");

/// What is listed of the file.
pub const LISTING: &str =
    "0000000000000000         64 b\n0000000000000000         64 d\n0000000000000040        192 c\n0000000000000100        128 e\n0000000000000180          0 a\ntext 256\n";

/// The file.
pub static PE: [u8; 218] = *b"\
\0\0\0\0\0\0\0\0\0\0\0\0\0\0\0\0\0\0\0\0\0\0\0\0\0\0\0\0\0\0\0\0\0\0\0\0\0\0\0\0\0\0\0\0\0\0\0\0\0\0\0\0\0\0\0\0\0\0\0\
\0\x40\0\0\0\0\0\0\0\0\0\x01\0\0\0\0\0\x80\0\0\0\x05\0\0\0\0\0\0\0.text\
\0\0\0\0\0\0\0\0\0\0\0\0\x01\0\0\0\0\0\0\0\0\0\0\0\0\0\0\0\0\0\0\0\0\0\0\
\x61\0\0\0\0\0\0\0\x80\x01\0\0\x01\0\x20\0\x02\0\x62\0\0\0\0\0\0\0\0\0\0\0\x01\0\x20\0\x02\0\
\x63\0\0\0\0\0\0\0\x40\0\0\0\x01\0\x20\0\x02\0\x64\0\0\0\0\0\0\0\0\0\0\0\x01\0\x20\0\x02\0\
\x65\0\0\0\0\0\0\0\0\x01\0\0\x01\0\x20\0\x02\0";
