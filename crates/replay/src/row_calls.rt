// Calls on a row of cells or half-widths, which follows the answer as it is left.
use crate::answers::{Answer, given, one, tally_words};
use crate::calls::put;
use crate::text::Line;
use crate::words::{SPACE, Words};
use grid::Row;
use kernel::Kernel;
use radius::RadiusKm;
use refusal::Refusal;

#[derive(Clone, Copy)]
pub enum RowCall {
    Digest,
    Sanitise,
    Kernel,
}

impl RowCall {
    pub fn answer(self, words: Words<'_>, out: &mut Line<'_>) {
        let mut space = [0; SPACE];
        let row = words.list(1).load(&mut space);
        put(out, self.of(words.list(0), row));
        out.put_all(row);
    }

    fn of(self, words: Words<'_>, row: &mut [u32]) -> Result<Answer, Refusal> {
        Ok(match self {
            RowCall::Digest => one(digest::digest_row(words.at(0), row)),
            RowCall::Sanitise => tally_words(raster::sanitise_row(row, words.at(0)), 0),
            RowCall::Kernel => {
                let centre = Row(words.at(6));
                let radius = RadiusKm(words.at(7));
                let k = Kernel::new(words.grid(0), centre, radius, row)?;
                given(k.north.0, k.count)
            }
        })
    }
}
