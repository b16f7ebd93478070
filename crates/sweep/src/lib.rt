// A row goes into the column sums and the digest (`build` of table.rs).
#![tactic(auto)]

ghost use Rattle.std.specs.Prelude.{◌≡◌};
ghost use Rattle.digest.specs.Digest.{digest_of};
ghost use Rattle.raster.specs.Raster.{sanitised_row, row_tallies, plus_tallies, held_tallies};
ghost use Rattle.sweep.specs.Sweep.{taken_in, acc_after, corr_after};
ghost use Rattle.sweep.specs.private.Cell.{swept};

use float::TwoSum;
use raster::CellTallies;

// What a row gives: the digest with its cells, and its tallies.
#[derive(Clone, Copy, PartialEq, Eq, Debug)]
pub struct Swept {
    pub digest: u64,
    pub tallies: CellTallies,
}

// What a row carries from cell to cell: its running prefix with its correction, and what it gives so far.
#[derive(Clone, Copy)]
struct Carry {
    prefix: TwoSum,
    so_far: Swept,
}

// A column's sum with its correction after a cell, the cell as sanitised, and what the row carries on.
#[derive(Clone, Copy)]
struct Column {
    after: TwoSum,
    cell: u32,
    carry: Carry,
}

// A sum with its correction takes in x. What the sum leaves out is put back in each time, so a column's sum can be
// handed on as it stands, with no correction to be added to it first.
#[tactic(auto, unfolding(crate::specs::Sweep::taken_in))]
fn take_in(before: TwoSum, x: f64) -> TwoSum
    ensures { result ≡ taken_in before.sum before.dropped x }
{
    let with_x = float::two_sum(before.sum, x);
    float::two_sum(with_x.sum, before.dropped + with_x.dropped)
}

// One cell is sanitised, tallied and goes into the digest; the row's prefix takes it in, then the column takes in the
// prefix. The sums wait for each other, and all the rest runs meanwhile.
#[tactic(auto, unfolding(crate::specs::private::Cell::swept))]
fn sweep_cell(carry: Carry, bits: u32, nodata: u32, before: TwoSum) -> Column
    ensures { result ≡ swept nodata carry bits before.sum before.dropped }
{
    let kind = raster::classify(bits, nodata);
    let cell = raster::keep(kind, bits);
    let prefix = take_in(carry.prefix, float::widen(cell));
    Column {
        after: take_in(before, prefix.sum),
        cell,
        carry: Carry {
            prefix,
            so_far: Swept {
                digest: digest::mix(carry.so_far.digest, cell),
                tallies: carry.so_far.tallies.with(kind),
            },
        },
    }
}

// The rest of a row has no columns: its cells are sanitised, tallied and go into the digest.
fn finish(rest: &mut [u32], nodata: u32, so_far: Swept) -> Swept
    ensures { (result.digest ≡ digest_of so_far.digest (sanitised_row nodata rest.old))
        × (result.tallies ≡ held_tallies (plus_tallies so_far.tallies (row_tallies nodata rest.old)))
        × (rest.new ≡ sanitised_row nodata rest.old) }
{
    let tallies = raster::sanitise_row(rest, nodata);
    Swept {
        digest: digest::digest_row(so_far.digest, rest),
        tallies: so_far.tallies.plus(tallies),
    }
}

// A row is sanitised in place and goes into accumulator and corrections, each cell in one pass over all that becomes of it.
// The first cell of accumulator and corrections belongs to no column.
#[tactic(auto, unfolding(crate::specs::Sweep::acc_after, crate::specs::Sweep::corr_after))]
pub fn sweep_row(
    acc: &mut [f64],
    corr: &mut [f64],
    row: &mut [u32],
    nodata: u32,
    digest: u64,
) -> Swept
    ensures { (result.digest ≡ digest_of digest (sanitised_row nodata row.old)) × (result.tallies ≡ row_tallies nodata row.old)
        × (acc.new ≡ acc_after (sanitised_row nodata row.old) acc.old corr.old)
        × (corr.new ≡ corr_after (sanitised_row nodata row.old) acc.old corr.old)
        × (row.new ≡ sanitised_row nodata row.old) }
{
    let columns = acc.len().min(corr.len()).saturating_sub(1);
    let swept = columns.min(row.len());
    let mut carry = Carry {
        prefix: TwoSum {
            sum: 0.0,
            dropped: 0.0,
        },
        so_far: Swept {
            digest,
            tallies: CellTallies::none(),
        },
    };
    // (c) With the three slices zipped the proof doesn't close: after such a loop it knows nothing of what they hold.
    for i in 0..swept {
        let before = TwoSum {
            sum: acc[i + 1],
            dropped: corr[i + 1],
        };
        let column = sweep_cell(carry, row[i], nodata, before);
        row[i] = column.cell;
        acc[i + 1] = column.after.sum;
        corr[i + 1] = column.after.dropped;
        carry = column.carry;
    }
    finish(&mut row[swept..], nodata, carry.so_far)
}
