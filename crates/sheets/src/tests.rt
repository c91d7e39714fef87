// A heading of numbers that no heap has: it is drawn of any sheet.
use crate::drawing::heading;
use crate::sheet::Sheet;
use std::test::Fail;

#[test]
fn heads_any_numbers(rt: HostRuntime) -> Result<(), Fail> {
    let sheet = Sheet {
        stretches: Vec::new(rt.alloc()),
        blocks: 1,
        held: 8,
        free: 0,
    };
    let line = heading(rt.alloc(), &sheet)?;
    assert_eq!(rt; line.as_str(), "sheet: 1 block, 8 bytes held, 0 bytes free");
    Ok(())
}
