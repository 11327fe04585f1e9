//! Program headers (gABI, "Program Header"): the page where a file's segments begin, and its code segment.

ghost use Rattle.std.specs.Prelude.{◌≡◌, ◌+◌, ◌<◌, ◌≤◌, length};
ghost use Rattle.std.specs.Option.{option_map};
ghost use Rattle.binfarce_elf_memory.specs.ElfSegments.{code_at, code_segment, is_code, load_address, load_at, load_page, lower_of, page_of, program_length};

use binfarce_bytes::ByteOrder;
use binfarce_bytes::parser::number_at;
use binfarce_elf::class::{Width, Word};

// The type of a loaded segment, and the lowest bit of its flags, of which no other is odd: it may be executed.
const PT_LOAD: Word = 1;

const PF_X: Word = 1;

/// The length of a program header in bytes, in a file of this class.
pub fn program_length(width: Width) -> usize
    ensures is { result ≡ program_length width }
    ensures some { (0 < result) × (result ≤ 56) }
{
    match width {
        Width::Bits32 => 32,
        Width::Bits64 => 56,
    }
}

/// Where a file says that it is loaded, unless the loader chooses another address.
#[derive(Debug, Clone, Copy, PartialEq)]
pub struct LoadAddress {
    /// The address of the file's first byte in memory.
    pub address: u64,
    /// The code that is loaded of the file, where its program headers state it.
    pub code: Option<CodeSegment>,
}

/// A segment of code, which may be executed: where bytes of the file are loaded.
#[derive(Debug, Clone, Copy, PartialEq)]
pub struct CodeSegment {
    /// The address of its first byte (`p_vaddr`).
    pub address: u64,
    /// The offset of its first byte in the file (`p_offset`).
    pub offset: u64,
    /// How many bytes it has in the file (`p_filesz`): none in a debug file, whose offset says nothing of the program's.
    pub size: u64,
    /// How many bytes it has in memory (`p_memsz`), also by a debug file.
    pub memory_size: u64,
    /// Its alignment (`p_align`): its address and its offset in the program's file are alike modulo this, and no page of
    /// a size that doesn't divide it loads it.
    pub align: u64,
}

/// Where a file with these program headers says that it is loaded: the page of 4096 bytes where its lowest loaded segment
/// (`PT_LOAD`) begins, and its first one with code (`PF_X`). `None` if no segment is loaded.
pub fn load_address(headers: &[u8], width: Width, byte_order: ByteOrder) -> Option<LoadAddress>
    ensures { result ≡ load_address width byte_order headers.now }
{
    let address = load_page(headers, width, byte_order)?;
    let code = code_segment(headers, width, byte_order);
    Some(LoadAddress { address, code })
}

// The page where the lowest loaded segment begins.
#[tactic(auto, unfolding(crate::specs::ElfSegments::load_page))]
fn load_page(headers: &[u8], width: Width, byte_order: ByteOrder) -> Option<u64>
    ensures { result ≡ load_page width byte_order headers.now }
{
    let length = program_length(width);
    let mut lowest = None;
    for i in (0..headers.len() / length).rev() {
        lowest = lower_of(load_at(headers, i * length, width, byte_order), lowest);
    }
    page_of(lowest)
}

fn page_of(address: Option<u64>) -> Option<u64>
    ensures { result ≡ option_map page_of address }
{
    let address = address?;
    Some(address - address % 4096)
}

// The lower address, if there are any.
fn lower_of(address: Option<u64>, other: Option<u64>) -> Option<u64>
    ensures { result ≡ lower_of address other }
{
    match (address, other) {
        (None, other) => other,
        (Some(address), None) => Some(address),
        (Some(address), Some(other)) => Some(address.min(other)),
    }
}

// The address of the segment whose program header begins at `start`, if it is loaded.
fn load_at(headers: &[u8], start: usize, width: Width, byte_order: ByteOrder) -> Option<u64>
    requires { start + program_length width ≤ length headers.now }
    ensures { result ≡ load_at width byte_order headers.now start }
{
    let kind: Word = number_at(headers, start, byte_order).unwrap();
    if kind != PT_LOAD {
        return None;
    }
    match width {
        Width::Bits32 => {
            let address: u32 = number_at(headers, start + 8, byte_order).unwrap();
            Some(u64::from(address))
        }
        Width::Bits64 => Some(number_at(headers, start + 16, byte_order).unwrap()),
    }
}

// The first code segment.
#[tactic(auto, unfolding(crate::specs::ElfSegments::code_segment))]
fn code_segment(headers: &[u8], width: Width, byte_order: ByteOrder) -> Option<CodeSegment>
    ensures { result ≡ code_segment width byte_order headers.now }
{
    let length = program_length(width);
    let mut first = None;
    for i in (0..headers.len() / length).rev() {
        first = code_at(headers, i * length, width, byte_order).or(first);
    }
    first
}

// Whether the program header that begins at `start` is that of a code segment.
fn is_code(headers: &[u8], start: usize, width: Width, byte_order: ByteOrder) -> bool
    requires { start + program_length width ≤ length headers.now }
    ensures { result ≡ is_code width byte_order headers.now start }
{
    let kind: Word = number_at(headers, start, byte_order).unwrap();
    let at = match width {
        Width::Bits32 => 24,
        Width::Bits64 => 4,
    };
    let flags: Word = number_at(headers, start + at, byte_order).unwrap();
    kind == PT_LOAD && flags % 2 == PF_X
}

// The code segment whose program header begins at `start`, if it is one.
fn code_at(headers: &[u8], start: usize, width: Width, byte_order: ByteOrder) -> Option<CodeSegment>
    requires { start + program_length width ≤ length headers.now }
    ensures { result ≡ code_at width byte_order headers.now start }
{
    if !is_code(headers, start, width, byte_order) {
        return None;
    }
    match width {
        Width::Bits32 => {
            let offset: u32 = number_at(headers, start + 4, byte_order).unwrap();
            let address: u32 = number_at(headers, start + 8, byte_order).unwrap();
            let size: u32 = number_at(headers, start + 16, byte_order).unwrap();
            let memory_size: u32 = number_at(headers, start + 20, byte_order).unwrap();
            let align: u32 = number_at(headers, start + 28, byte_order).unwrap();
            Some(CodeSegment {
                address: u64::from(address),
                offset: u64::from(offset),
                size: u64::from(size),
                memory_size: u64::from(memory_size),
                align: u64::from(align),
            })
        }
        Width::Bits64 => Some(CodeSegment {
            address: number_at(headers, start + 16, byte_order).unwrap(),
            offset: number_at(headers, start + 8, byte_order).unwrap(),
            size: number_at(headers, start + 32, byte_order).unwrap(),
            memory_size: number_at(headers, start + 40, byte_order).unwrap(),
            align: number_at(headers, start + 48, byte_order).unwrap(),
        }),
    }
}
