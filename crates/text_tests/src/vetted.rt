// Texts that are read and then vetted.
use crate::rows::Row;
use operations::vetting::vet;
use operations_tests::answers::{UNREAD, told};
use std::test::Fail;
use text::reader::read;

// What a text gives can fail by 9 and 10, and never by 11.
#[rattlefmt::skip]
const TEXTS: [Row; 6] = [
    Row { text: b"op,d,a,b,n\n", answer: Err((9, 0)) },
    Row { text: b"op,d,a,b,n\nstop,,,,\n", answer: Ok(1) },
    Row { text: b"op,d,a,b,n\nset,15,,,-1\njzero,,15,,2\nstop,,,,\n", answer: Ok(3) },
    Row { text: b"op,d,a,b,n\nset,15,,,-1\njzero,,15,,3\nstop,,,,\n", answer: Err((10, 3)) },
    Row { text: b"n,b,a,d,op\n,,,,stop\n-1,,,,call\n5,,,,jump\n", answer: Err((10, 3)) },
    Row { text: b"a,n,op,b,d\n15,-8,store,15,\n15,-8,loadb,,15\n15,,release,,\n15,,grab,,15\n", answer: Ok(4) },
];

#[test]
fn read_and_vetted(rt: HostRuntime) -> Result<(), Fail> {
    for (i, row) in TEXTS.iter().enumerate() {
        let mut list = [UNREAD; 4];
        let count = read(row.text, &mut list)?;
        assert!(rt; count <= 4);
        let vetted = vet(&list[..count])
            .map(|program| program.len())
            .map_err(told);
        assert_eq!(rt; vetted, row.answer, "text {i}");
    }
    Ok(())
}
