//! The texts that the program prints about itself.

use binfarce_words::command::Command;

/// The program's version.
pub const VERSION: &str = "binfarce 0.3.0\n";

const PROGRAM: &str = "\
binfarce reads ELF, Mach-O and PE files, and makes mangled Rust names readable.

usage: binfarce COMMAND [OPTION..] ..

  list [OPTION..] FILE..         function symbols: address, size, name
  size [OPTION..] FILE..         the sum of their sizes by crate
  diff [OPTION..] OLD NEW        how these sums differ between two files
  map [OPTION..] FILE            these sums as a picture (SVG)
  filter [--full] [NAME..]       standard input, or the names, made readable
  at [OPTION..] FILE [ADDRESS..]
                                 the function symbol at each address
  at --return --annotate FILE..  a backtrace from standard input, with symbols
  section FILE [SECTION]         the bytes of a section, or all sections

  COMMAND --help                 help on a command
  --help                         this text
  --version                      the version

`--` ends the options, and `-` as a FILE is standard input. Status: 0; 1 if a
file was refused, a read or a write failed, or memory ran out; 2 for a wrong
call, or for lines without an address; 3 if a sum or its growth is above
--fail-above or --limits.
";

const LIST: &str = "\
usage: binfarce list [OPTION..] FILE..
       binfarce list --undefined [--raw|--full] [--json] FILE..

Writes a line for each function symbol: its address, its size in bytes, and its
readable name; last the size of the section. Several files are each listed
below an empty line and `NAME:`, and with --all each line has its section's
name.

  --sort=KEY       by rising address, falling size or name (address, size,
                   name), without the last line
  -n N, --first=N  the first N lines, without the last line
  --no-total       without the last line
  --full           names with hashes and disambiguators
  --raw            names as they are stored
  --json           each function symbol as a JSON object
  --undefined      what an ELF file needs from others: its undefined symbols,
                   as NAME@VERSION, or NAME if it has no version; with --json
                   also the file that the version comes from
";

const SIZE: &str = "\
usage: binfarce size [OPTION..] FILE..

Writes a line for each crate: the sum of the sizes of its function symbols, and
its name, the largest first; last the sum of all, and the size of the section.
A byte that several function symbols have counts once, for the innermost.

  --by=KEY         sums by crate, module, function, generic (functions that
                   differ by their generic arguments, with their number), or
                   function-section (of all sections); or by section: the bytes
                   of each section in the file and in memory, headers and gaps,
                   and the file's size
  --std            the crates of Rust's standard library as one, [std]
  --percent        each sum's share of the section, or of all sections' sum
  -n N, --first=N  the N largest sums, and one of all others
  --fail-above=N   status 3 if the sum of all, or by section the size of the
                   file, is more than N bytes, such as 600k or 2M (k is 1,024)
  --limits=FILE    the same by row: each line of FILE is a row's name and the
                   most that it may be, as `core 600k`; # begins a remark
  --json           each sum as a JSON object, and one of the sum of all
";

const DIFF: &str = "\
usage: binfarce diff [OPTION..] OLD NEW

Writes a line for each crate whose sum differs: its size in OLD and in NEW, the
change, and its name; the largest change first, and last the sums of all. Each
byte counts once.

  --by=KEY         sums by crate, module, function, generic or
                   function-section; or by section: the bytes of each section
                   in the file, and how those in the file and in memory changed
  --std            the crates of Rust's standard library as one, [std]
  --percent        each change in per cent of the old sum
  -n N, --first=N  the N largest changes, and one of all others
  --fail-above=N   status 3 if the sum of all grew by more than N bytes, such
                   as 600k or 2M (k is 1,024), or by more than N per cent (2%)
  --limits=FILE    the same by row: each line of FILE is a row's name and the
                   most that it may grow by, as `core 2%`; # begins a remark
  --json           each change as a JSON object
";

const MAP: &str = "\
usage: binfarce map [OPTION..] FILE

Draws the sums of `binfarce size` as an SVG picture, the largest first.

  -n N, --first=N  the N largest sums, and one of all others
  --std            the crates of Rust's standard library as one, [std]
  --folded         no picture, but a line for each function symbol: its crate,
                   modules and name, separated by `;`, and its size, as tools
                   for flame graphs read it
";

const FILTER: &str = "\
usage: binfarce filter [--full] [NAME..]

Writes standard input with its mangled Rust names readable, or each NAME on a
line.

  --full           keeps hashes and disambiguators
";

const AT: &str = "\
usage: binfarce at [OPTION..] FILE [ADDRESS..]
       binfarce at --annotate [OPTION..] FILE..

Writes a line for each address: the function symbol that holds it, and the
offset in it. Without an ADDRESS the addresses are the lines of standard input.

  --return         the addresses are return addresses, as RUST_BACKTRACE=full
                   prints: the call before each is looked up; not for the
                   instruction that crashed, nor for what a sanitizer prints
  --annotate       copies standard input, with <name+0x1f> after each address
                   in it, which is 0x and 4 to 16 digits, or an offset in FILE:
                   FILE+0x1f2e; the first of several files that has the
                   address names it
  --bare           with --annotate: words of 8 to 16 digits without 0x, too
  --base=ADDRESS   where the file is loaded: where its first mapping begins, a
                   multiple of 0x1000; without it addresses are the file's own
  --maps=FILE      takes the base from a copy of /proc/PID/maps, or from
                   Linux's line on a fault; - is standard input, with
                   --annotate the text itself, which is then read to its end
  --offsets        addresses are offsets in the code of FILE, an ELF file, as
                   perf script writes those of call chains; with --annotate
                   such a line gets the symbol after its file
  --as=NAME        the file's name or path in the maps and in a text (with
                   several files --base and --as come once for each, in order)
  --dynamic        by the dynamic symbol table of an ELF file (.dynsym)
  --section=NAME   the symbols of a section of an ELF file; in Mach-O and PE
                   files only .text, which is the code section
  --all            the symbols of all sections, as without --section; refused
                   for an object file, whose sections share addresses
  --json           an object for each address, with its name and offset or null
";

const SECTION: &str = "\
usage: binfarce section FILE [SECTION]
       binfarce section --id FILE..

Writes the bytes of the section, or without SECTION a line for each section. A
section of a Mach-O file is named SECTION or SEGMENT,SECTION.

  --id             the build ID of an ELF file, the UUID of a Mach-O file, the
                   GUID and age of a PE file's PDB file; with several files a
                   line for each, and its name
  --json           an object for each section, with its type and flags; with
                   --id for each file
";

// The options of all commands that take function symbols of `.text` by default.
const SYMBOLS: &str = "  --dynamic        by the dynamic symbol table of an ELF file (.dynsym)
  --section=NAME   the section of an ELF file, by default .text; in Mach-O and
                   PE files only .text, which is the code section
  --all            the symbols of all sections
  --help           this text
";

const HELP: &str = "  --help           this text\n";

/// The help on the program, or on a command: two texts, one after the other.
pub fn help(topic: Option<Command>) -> (&'static str, &'static str) {
    match topic {
        None => (PROGRAM, ""),
        Some(Command::List) => (LIST, SYMBOLS),
        Some(Command::Size) => (SIZE, SYMBOLS),
        Some(Command::Map) => (MAP, SYMBOLS),
        Some(Command::Diff) => (DIFF, SYMBOLS),
        Some(Command::Filter) => (FILTER, HELP),
        Some(Command::At) => (AT, HELP),
        Some(Command::Section) => (SECTION, HELP),
    }
}
