// The columns that an operation uses; it leaves the others blank in a text, and 0 in a record.
#[derive(Clone, Copy, Debug, Default, PartialEq, Eq)]
pub struct Uses {
    pub d: bool,
    pub a: bool,
    pub b: bool,
    pub n: bool,
}
