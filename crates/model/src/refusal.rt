// Why a host's call is refused.
ghost use Rattle.std.specs.Prelude.{◌≡◌};
ghost use Rattle.model.specs.declared.refusal.Refusal.TheVariants.{Plain, InRun};

use faults::fault::Fault;

// A run that was refused or met a fault, with the operations done before it and their extra.
#[derive(Clone, Copy, Debug, PartialEq, Eq)]
pub struct RunFault {
    pub fault: Fault,
    pub done: u32,
    pub extra: u64,
}

#[derive(Clone, Copy, Debug, PartialEq, Eq)]
pub enum Refusal {
    // Of a start or a press.
    Plain(Fault),
    // Of a run.
    InRun(RunFault),
}

impl From<Fault> for Refusal {
    ghost from_gives = { λ fault refusal. refusal ≡ Plain fault };

    fn from(fault: Fault) -> Refusal {
        Refusal::Plain(fault)
    }
}

impl From<RunFault> for Refusal {
    ghost from_gives = { λ fault refusal. refusal ≡ InRun fault };

    fn from(fault: RunFault) -> Refusal {
        Refusal::InRun(fault)
    }
}
