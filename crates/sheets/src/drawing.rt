// The placement sheet as lines: a heading, a table of the stretches, and a bar to scale.
ghost use Rattle.std.specs.Prelude.{◌≡◌, IfOk, string_bytes};
ghost use Rattle.sheets.specs.Drawing.{heading_of, some_touch, mark_at, bar_of};

use crate::sheet::{HEAP_END, Sheet};
use crate::stretch::{Kind, MARK_BYTES, Stretch};
use numerals::noun;
use std::alloc::{AllocError, Global};

// Above and below the table and its head.
pub const RULE: &str = "  +-------+-------+-------+";

pub const HEAD: &str = "  | start |  size | kind  |";

// Below the bar: the addresses of every eighth mark.
pub const SCALE: &str = "   0       512     1024    1536    2048    2560    3072    3584    4096";

pub fn heading(memory: Global, sheet: &Sheet) -> Result<String, AllocError>
    ensures { IfOk result (λ s. string_bytes s ≡ heading_of sheet.now.blocks sheet.now.held sheet.now.free) }
{
    let blocks = sheet.blocks;
    let unit = noun(blocks, "block", "blocks");
    let held = sheet.held;
    let free = sheet.free;
    format!(in memory; "sheet: {blocks} {unit}, {held} bytes held, {free} bytes free")
}

// Whether some stretch of the kind has a byte among those of the mark that begins there.
fn some_touch(stretches: &[Stretch], kind: Kind, mark: u16) -> bool
    ensures { result ≡ some_touch kind mark stretches.now }
{
    stretches.iter().any(|stretch| stretch.touches(kind, mark))
}

// The mark that begins there: all held, partly, or free.
fn mark_at(stretches: &[Stretch], mark: u16) -> &'static str
    ensures { result.now ≡ mark_at stretches.now mark }
{
    if !some_touch(stretches, Kind::Block, mark) {
        "."
    } else if some_touch(stretches, Kind::Gap, mark) {
        "+"
    } else {
        "#"
    }
}

pub fn bar(memory: Global, stretches: &[Stretch]) -> Result<String, AllocError>
    ensures { IfOk result (λ s. string_bytes s ≡ bar_of stretches.now) }
{
    let mut text = String::from_str(memory, "  [")?;
    for mark in (0..HEAP_END).step_by(usize::from(MARK_BYTES)) {
        text.push_str(mark_at(stretches, mark))?;
    }
    text.push_str("]")?;
    Ok(text)
}
