// The lines that `count` prints (document 01). A line is laid over a page, a lent slice of any length from any offset on: what does
// not fit is dropped, and the page's place goes on behind the whole line.
#![tactic(auto)]

ghost use Rattle.std.specs.Prelude.{[], ◌∷◌, ◌++◌};
ghost use Rattle.digits.specs.Digits.{decimal, space};
ghost use Rattle.digits.specs.Laid.{Lays};
ghost use Rattle.text.specs.Text.{circle_word, refused_line, rows_line, cells_line, total_line, circle_line, circle_refused_line};

use digits::{NEWLINE, Page, SPACE};
use raster::CellTallies;

// A word, a number and a byte after it.
fn put_named(page: &mut Page, word: &[u8], n: u32, after: u8)
    ensures { Lays page.old (word.now ++ (decimal n ++ (after ∷ []))) page.new }
{
    page.put_bytes(word);
    page.put_number(n as u64, after);
}

// `circle`, the index and a space.
fn put_circle(page: &mut Page, i: u32)
    ensures { Lays page.old (circle_word ++ decimal i ++ space) page.new }
{
    put_named(page, b"circle ", i, SPACE);
}

// (a) Here and in circle_refused_line the refusal by its number: the type Refusal would ask more of callers, and both print any number.
#[tactic(auto, unfolding(crate::specs::Text::refused_line))]
pub fn refused_line(page: &mut Page, n: u32)
    ensures { Lays page.old (refused_line n) page.new }
{
    put_named(page, b"refused ", n, NEWLINE);
}

#[tactic(auto, unfolding(crate::specs::Text::rows_line))]
pub fn rows_line(page: &mut Page, height: u32)
    ensures { Lays page.old (rows_line height) page.new }
{
    put_named(page, b"rows ", height, NEWLINE);
}

pub fn cells_line(page: &mut Page, t: CellTallies)
    ensures { Lays page.old (cells_line t) page.new }
{
    page.put_bytes(b"cells ");
    page.put_number(t.nodata, SPACE);
    page.put_number(t.negative, SPACE);
    page.put_number(t.zero, SPACE);
    page.put_number(t.populated, SPACE);
    page.put_number(t.unbounded, NEWLINE);
}

pub fn total_line(page: &mut Page, total: f64)
    ensures { Lays page.old (total_line total) page.new }
{
    page.put_bytes(b"total ");
    page.put_shown(total);
}

pub fn circle_line(page: &mut Page, i: u32, people: f64)
    ensures { Lays page.old (circle_line i people) page.new }
{
    put_circle(page, i);
    page.put_shown(people);
}

pub fn circle_refused_line(page: &mut Page, i: u32, n: u32)
    ensures { Lays page.old (circle_refused_line i n) page.new }
{
    put_circle(page, i);
    refused_line(page, n);
}
