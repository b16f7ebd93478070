// The calls by number.
use crate::answers::{Answer, one, refused};
use crate::build_calls::BuildCall;
use crate::geodesy_calls::GeodesyCall;
use crate::grid_calls::GridCall;
use crate::layout_calls::MapCall;
use crate::number_calls::NumberCall;
use crate::row_calls::RowCall;
use crate::table_calls::{ExtentCall, PeopleCall};
use crate::text::Line;
use crate::words::Words;
use refusal::Refusal;

#[derive(Clone, Copy)]
enum Call {
    Number(NumberCall),
    Geodesy(GeodesyCall),
    Grid(GridCall),
    Row(RowCall),
    Build(BuildCall),
    People(PeopleCall),
    Extent(ExtentCall),
    Map(MapCall),
}

// There is no call of this number.
#[derive(Clone, Copy)]
pub struct NoSuchCall;

// (a) The numbers are those of reference/README.md, here and where a group has its own.
impl TryFrom<u64> for Call {
    type Error = NoSuchCall;

    fn try_from(n: u64) -> Result<Call, NoSuchCall> {
        Ok(match n {
            0x12 => Call::Row(RowCall::Digest),
            0x40 => Call::Row(RowCall::Sanitise),
            0x50 => Call::Build(BuildCall::Start),
            0x51 => Call::Build(BuildCall::Row),
            0x52 => Call::Build(BuildCall::Finish),
            0x60 => Call::People(PeopleCall::Rectangles),
            0x61 => Call::Extent(ExtentCall::Whole),
            0x62 => Call::Extent(ExtentCall::Covering),
            0x63 => Call::Map(MapCall::ToBlocks),
            0x64 => Call::Map(MapCall::ToRows),
            0x70 => Call::Row(RowCall::Kernel),
            0x80 => Call::People(PeopleCall::Circles),
            0x00..=0x1f => Call::Number(NumberCall::try_from(n)?),
            0x20..=0x2f => Call::Geodesy(GeodesyCall::try_from(n)?),
            _ => Call::Grid(GridCall::try_from(n)?),
        })
    }
}

// The answer is put in the line. A call of no known number gives no number.
// (d) Words and line stay two arguments, here and in the groups: the one is read, and the other written.
pub fn answer(n: u64, words: Words<'_>, out: &mut Line<'_>) {
    match Call::try_from(n) {
        Ok(Call::Number(call)) => out.put_all(&call.answer(words)),
        Ok(Call::Geodesy(call)) => put(out, call.answer(words)),
        Ok(Call::Grid(call)) => put(out, call.answer(words)),
        Ok(Call::Row(call)) => call.answer(words, out),
        Ok(Call::Build(call)) => call.answer(words, out),
        Ok(Call::People(call)) => call.answer(words, out),
        Ok(Call::Extent(call)) => put(out, call.answer(words)),
        Ok(Call::Map(call)) => call.answer(words, out),
        Err(NoSuchCall) => out.put_all(&one(0.0 / 0.0)),
    }
}

pub fn put(out: &mut Line<'_>, answer: Result<Answer, Refusal>) {
    out.put_all(&answer.unwrap_or_else(refused));
}
