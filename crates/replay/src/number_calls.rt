// Calls of `float`, `remainder`, `sqrt` and `digest` that give one number or two, and are never refused.
use crate::answers::{Answer, one};
use crate::calls::NoSuchCall;
use crate::words::{Word, Words};
use float::*;
use remainder::*;

#[derive(Clone, Copy)]
pub enum NumberCall {
    Sqrt,
    TwoSum,
    Rem,
    RemEuclid,
    Widen,
    IsFinite,
    Abs,
    Min,
    Max,
    Clamp,
    IndexFromOffset,
    ToU32,
    WrappingMul,
    Mix,
}

impl TryFrom<u64> for NumberCall {
    type Error = NoSuchCall;

    fn try_from(n: u64) -> Result<NumberCall, NoSuchCall> {
        Ok(match n {
            0x01 => NumberCall::Sqrt,
            0x02 => NumberCall::TwoSum,
            0x03 => NumberCall::Rem,
            0x04 => NumberCall::RemEuclid,
            0x05 => NumberCall::Widen,
            0x06 => NumberCall::IsFinite,
            0x07 => NumberCall::Abs,
            0x08 => NumberCall::Min,
            0x09 => NumberCall::Max,
            0x0a => NumberCall::Clamp,
            0x0b => NumberCall::IndexFromOffset,
            0x0c => NumberCall::ToU32,
            0x10 => NumberCall::WrappingMul,
            0x11 => NumberCall::Mix,
            _ => return Err(NoSuchCall),
        })
    }
}

impl NumberCall {
    pub fn answer(self, words: Words<'_>) -> Answer {
        let x: f64 = words.at(0);
        let y: f64 = words.at(1);
        match self {
            NumberCall::Sqrt => one(sqrt::sqrt(x)),
            NumberCall::TwoSum => both(two_sum(x, y)),
            NumberCall::Rem => one(rem(x, y)),
            NumberCall::RemEuclid => one(rem_euclid(x, y)),
            NumberCall::Widen => one(widen(words.at(0))),
            NumberCall::IsFinite => one(u64::from(is_finite(x))),
            NumberCall::Abs => one(abs(x)),
            NumberCall::Min => one(min(x, y)),
            NumberCall::Max => one(max(x, y)),
            NumberCall::Clamp => one(clamp(x, y, words.at(2))),
            NumberCall::IndexFromOffset => place(index_from_offset(x, words.at(1))),
            NumberCall::ToU32 => one(to_u32(x)),
            NumberCall::WrappingMul => one(digest::wrapping_mul(words.at(0), words.at(1))),
            NumberCall::Mix => one(digest::mix(words.at(0), words.at(1))),
        }
    }
}

fn both(s: TwoSum) -> Answer {
    [s.sum.word(), s.dropped.word(), 0, 0, 0, 0]
}

fn place(index: Option<u32>) -> Answer {
    index.map_or([0; 6], |i| [1, i.word(), 0, 0, 0, 0])
}
