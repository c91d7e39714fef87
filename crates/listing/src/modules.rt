// A module's text as a vetted program.
ghost use Rattle.std.specs.Prelude.{◌≡◌, length};
ghost use Rattle.listing.specs.Modules.{module_in};

use faults::fault::Fault;
use operations::operation::Operation;
use operations::program::Program;
use operations::vetting::vet;
use text::reader::read;

// Reads the text into the list, and vets what was read.
pub fn program_in(text: &[u8], list: &mut [Operation]) -> Result<Program, Fault>
    ensures { result ≡ module_in text.now (length list.old) }
{
    let count = read(text, list)?;
    vet(&list[0..count])
}
