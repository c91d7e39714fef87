// Faults: number, line, part, and what is printed of them.
use faults::cause::Cause;
use faults::fault::Fault;
use std::alloc::Global;
use std::process::Abort;
use std::test::Fail;

// A cause, and how it is printed where it is met at line 7.
#[derive(Clone, Copy)]
struct Told {
    cause: Cause,
    at: &'static str,
    whole: &'static str,
    sentence: &'static str,
}

#[rattlefmt::skip]
const FAULTS: [Told; 10] = [
    // A cause of the whole text or call keeps no line.
    Told { cause: Cause::TextSize, at: "fault 1, line 0, text", whole: "fault 1, line 0, text", sentence: "the text has no byte, or over 60,000 bytes" },
    Told { cause: Cause::LineEnd, at: "fault 2, line 7, text", whole: "fault 2, line 0, text", sentence: "the line has over 80 bytes, or no line end" },
    Told { cause: Cause::NoRoom, at: "fault 8, line 7, text", whole: "fault 8, line 0, text", sentence: "there are over 512 operations, or more than the list has room for" },
    Told { cause: Cause::NoOperation, at: "fault 9, line 0, text", whole: "fault 9, line 0, text", sentence: "there is no operation" },
    Told { cause: Cause::BadTarget, at: "fault 10, line 7, text", whole: "fault 10, line 0, text", sentence: "the jump or call leads outside the program" },
    Told { cause: Cause::NoSidecar, at: "fault 20, line 7, machine", whole: "fault 20, line 0, machine", sentence: "the register holds a plain number and not an address" },
    Told { cause: Cause::BadEntry, at: "fault 34, line 0, machine", whole: "fault 34, line 0, machine", sentence: "the entry lies outside the program" },
    Told { cause: Cause::TakeRefused, at: "fault 40, line 0, heap", whole: "fault 40, line 0, heap", sentence: "the heap has no block of this size" },
    Told { cause: Cause::GiveRefused, at: "fault 41, line 0, heap", whole: "fault 41, line 0, heap", sentence: "no living block starts there" },
    Told { cause: Cause::PutRefused, at: "fault 43, line 0, rack", whole: "fault 43, line 0, rack", sentence: "the place is not out" },
];

fn check_printed(rt: &impl Abort, heap: Global, told: &Told) -> Result<(), Fail> {
    let at = Fault::at(told.cause, 7).to_string(heap)?;
    let whole = Fault::whole(told.cause).to_string(heap)?;
    let sentence = told.cause.to_string(heap)?;
    assert_eq!(rt; at.as_str(), told.at);
    assert_eq!(rt; whole.as_str(), told.whole);
    assert_eq!(rt; sentence.as_str(), told.sentence);
    Ok(())
}

#[test]
fn printed(rt: HostRuntime) -> Result<(), Fail> {
    for told in &FAULTS {
        check_printed(&rt, rt.alloc(), told)?;
    }
    Ok(())
}
