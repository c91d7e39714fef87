// The tables of a machine.
use crate::register::Register;
use crate::sidecar::Sidecar;
use arrayvec::ArrayVec;

// Registers, memory with shadow memory, lock places, the positions that open frames return to, the last key issued and the
// highest that may be.
#[derive(Drop)]
pub struct Tables {
    pub registers: [Register; 16],
    pub memory: [u8; 8192],
    // a sidecar for each word of memory, beside and not among its bytes: memory is read by the byte, its shadow by the word
    pub shadow: [Option<Sidecar>; 1024],
    pub locks: [u64; 320],
    // the youngest frame's last
    pub returns: ArrayVec<u64, 64>,
    pub issued: u64,
    pub ceiling: u64,
}
