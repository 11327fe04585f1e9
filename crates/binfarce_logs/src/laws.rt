//! Laws of annotated texts and of maps, proved from their definitions.

ghost use Rattle.std.specs.Prelude.{◌≡◌, ◌+◌, ◌^◌, ◌%◌, Ok};
ghost use Rattle.binfarce_logs.specs.Annotated.{IsAnnotated, files_of};
ghost use Rattle.binfarce_logs.specs.Bias.{IsLoadedBy};
ghost use Rattle.binfarce_logs.specs.Maps.{base_of};
ghost use Rattle.binfarce_filtering.specs.Laws.{HasAnOutput, HasOneOutput};

use crate::modules::Module;
use binfarce_elf_memory::segments::LoadAddress;

/// A text has an annotated text, and no more than one.
pub fn has_one_output(modules: &[Module<'_>], is_bare: bool, text: &[u8])
    ensures some { HasAnOutput (IsAnnotated (files_of modules.now) is_bare) text.now }
    ensures one { HasOneOutput (IsAnnotated (files_of modules.now) is_bare) text.now }
{
    let _ = modules;
    let _ = is_bare;
    let _ = text;
}

/// Where a loader mapped the code of a file at a bias, that and the file's own address are where it is loaded.
pub fn base_is_by_the_bias(maps: &[u8], path: &[u8], loaded: LoadAddress, bias: u64)
    ensures { IsLoadedBy bias maps.now path.now loaded
        → base_of maps.now path.now loaded ≡ Ok ((bias + loaded.address) % 2 ^ 64) }
{
    let _ = maps;
    let _ = path;
    let _ = loaded;
    let _ = bias;
}
