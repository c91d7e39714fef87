// The order of the columns, which the first line of a text names.

// Where each column stands in a line.
#[derive(Clone, Copy)]
pub struct Order {
    pub op: usize,
    pub d: usize,
    pub a: usize,
    pub b: usize,
    pub n: usize,
}
