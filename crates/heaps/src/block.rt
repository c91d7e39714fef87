// A block on its way to a register: bare from a heap, then keyed with a lock place and a key.
// Neither is Drop or Copy, so a block can be forgotten or used twice nowhere.
ghost use Rattle.std.specs.Prelude.{◌+◌, ◌≤◌};

// A granted block that has no key yet. It is keyed, or handed back to its heap.
pub struct Bare {
    pub(crate) start: u64,
    pub(crate) asked: u64,
    pub(crate) held: u64,
    ghost enough: { asked ≤ held },
    ghost inside: { start + held ≤ 4096 },
}

// A granted block with its lock: only this can be set into a register.
pub struct Keyed {
    pub(crate) block: Bare,
    pub(crate) place: u8,
    pub(crate) key: u64,
}

// The numbers of a keyed block that was spent.
#[derive(Clone, Copy, Debug, PartialEq, Eq)]
pub struct Parts {
    pub start: u64,
    pub asked: u64,
    pub held: u64,
    pub place: u8,
    pub key: u64,
}
