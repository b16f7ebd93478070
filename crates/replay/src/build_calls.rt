// Calls of `builder`. List 0 has the words, lists 1 to 4 are the buffers that are lent, list 5 is a row.
use crate::answers::{grid_words, refused, tally_words};
use crate::text::Line;
use crate::words::{SPACE, Words};
use builder::{Builder, Lent};
use decimation::Decimation;
use raster::CellTallies;
use refusal::Refusal;

#[derive(Clone, Copy)]
pub enum BuildCall {
    Start,
    Row,
    Finish,
}

impl BuildCall {
    pub fn answer(self, words: Words<'_>, out: &mut Line<'_>) {
        let mut acc = [0.0; SPACE];
        let mut corr = [0.0; SPACE];
        let mut coarse = [0.0; SPACE];
        let mut table = [0.0; SPACE];
        let mut lent = Lent {
            acc: words.list(1).load(&mut acc),
            corr: words.list(2).load(&mut corr),
            coarse: words.list(3).load(&mut coarse),
            table: words.list(4).load(&mut table),
        };
        match self {
            BuildCall::Start => start(words.list(0), &mut lent, out),
            BuildCall::Row => row(words, &mut lent, out),
            BuildCall::Finish => finish(words.list(0), lent.read(), out),
        }
    }
}

fn start(words: Words<'_>, lent: &mut Lent<&mut [f64]>, out: &mut Line<'_>) {
    let answer = Builder::start(words.grid(0), words.at(6), words.at(7), lent);
    put_builder(out, answer, 0.0);
    put_lent(out, lent.read());
}

fn row(words: Words<'_>, lent: &mut Lent<&mut [f64]>, out: &mut Line<'_>) {
    let mut space = [0; SPACE];
    let row = words.list(5).load(&mut space);
    let answer = builder(words.list(0)).row(row, lent);
    put_builder(out, answer, 0.0);
    out.put_all(row);
    put_lent(out, lent.read());
}

// A built table has no nodata and no rows.
fn finish(words: Words<'_>, lent: Lent<&[f64]>, out: &mut Line<'_>) {
    let answer = builder(words).finish(lent);
    let total = answer.map_or(0.0, |t| t.total);
    let built = answer.map(|t| Builder {
        decimation: t.decimation,
        nodata: 0,
        rows: 0,
        digest: t.digest,
        tallies: t.tallies,
    });
    put_builder(out, built, total);
}

fn builder(words: Words<'_>) -> Builder {
    let decimation = Decimation {
        factor: words.at(12),
        source: words.grid(0),
        grid: words.grid(6),
    };
    let tallies = CellTallies {
        nodata: words.at(16),
        negative: words.at(17),
        zero: words.at(18),
        populated: words.at(19),
        unbounded: words.at(20),
    };
    Builder {
        decimation,
        nodata: words.at(13),
        rows: words.at(14),
        digest: words.at(15),
        tallies,
    }
}

// (d) One function for both answers: the words of a finish are those of a builder, and its total.
fn put_builder(out: &mut Line<'_>, answer: Result<Builder, Refusal>, total: f64) {
    match answer {
        Ok(b) => {
            let d = b.decimation;
            out.put_all(&grid_words(d.source));
            out.put_all(&grid_words(d.grid));
            out.put_all(&tally_words(b.tallies, b.digest));
            out.put_all(&[d.factor, b.nodata, b.rows]);
            out.put_all(&[total, 0.0, 0.0]);
        }
        Err(cause) => out.put_all(&refused(cause)),
    }
}

// The buffers as they are left.
fn put_lent(out: &mut Line<'_>, lent: Lent<&[f64]>) {
    out.put_all(lent.acc);
    out.put_all(lent.corr);
    out.put_all(lent.coarse);
    out.put_all(lent.table);
}
