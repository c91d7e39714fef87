// Why a number, a word or a record is refused.
use thiserror::Error;

#[derive(Clone, Copy, Debug, PartialEq, Eq, Error)]
#[error("no operation has this number")]
pub struct UnknownCode;

#[derive(Clone, Copy, Debug, PartialEq, Eq, Error)]
#[error("no operation has this word")]
pub struct UnknownWord;

// The code is unknown, a register in use is above 15, or a field not in use is not 0.
#[derive(Clone, Copy, Debug, PartialEq, Eq, Error)]
#[error("the record is of no operation")]
pub struct UnfitRecord;

impl From<UnknownCode> for UnfitRecord {
    fn from(_unknown: UnknownCode) -> UnfitRecord {
        UnfitRecord
    }
}
