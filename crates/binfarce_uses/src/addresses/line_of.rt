ghost use Rattle.std.specs.Prelude.{◌≡◌, IfOk, Ok, Some, codes};
ghost use Rattle.binfarce.specs.SectionEntries.{SelectedSymbols};
ghost use Rattle.binfarce_addresses.specs.Lines.{IsLineAt};
ghost use Rattle.binfarce_addresses.specs.Lookup.{places_in};
ghost use Rattle.binfarce_tools.specs.Answer.{file_answer};

use binfarce_addresses::Lookup;
use binfarce_addresses::at::Places;
use binfarce_tools::list::ListError;
use std::alloc::Global;

/// The line of an address.
pub fn line_of(
    alloc: Global,
    file: &[u8],
    lookup: Lookup<'_>,
    address: u64,
) -> Result<Vec<u8>, ListError>
    ensures { IfOk result
        (λ line. (selected : SelectedSymbols) × (file_answer file.now (codes ".text") ≡ Some (Ok selected))
        × IsLineAt (places_in selected) lookup.entry address line.items) }
{
    let places = places_of(alloc, file)?;
    let mut line = Vec::new(alloc);
    places.push_line(alloc, &mut line, lookup, address)?;
    Ok(line)
}

/// The places of a file's text.
pub fn places_of(alloc: Global, file: &[u8]) -> Result<Places<'_>, ListError>
    ensures { IfOk result
        (λ places. (selected : SelectedSymbols)
        × (file_answer file.entry.now (codes ".text") ≡ Some (Ok selected))
        × (places ≡ places_in selected)) }
{
    Places::of_file(alloc, file, ".text")
}
