// Calls of `table`, and of `circle`, which goes the way of a rectangle.
use crate::answers::{Answer, given};
use crate::calls::put;
use crate::text::Line;
use crate::words::{SPACE, Words};
use grid::{Col, Row};
use kernel::Kernel;
use radius::RadiusKm;
use refusal::Refusal;
use table::{ColSpan, RowBand, Table, Window};

#[derive(Clone, Copy)]
pub enum ExtentCall {
    Whole,
    Covering,
}

impl ExtentCall {
    pub fn answer(self, words: Words<'_>) -> Result<Answer, Refusal> {
        let grid = words.grid(0);
        let (rows, cols) = match self {
            ExtentCall::Whole => table::whole(grid)?,
            ExtentCall::Covering => table::covering(grid, window(words.from(6)))?,
        };
        let north = rows.north.0 as u64;
        let south = rows.south.0 as u64;
        Ok(match cols {
            ColSpan::Through { west, east } => [0, north, south, 0, west.0 as u64, east.0 as u64],
            ColSpan::FullTurn => [0, north, south, 1, 0, 0],
        })
    }
}

fn window(words: Words<'_>) -> Window {
    Window {
        north: words.at(0),
        south: words.at(1),
        west: words.at(2),
        east: words.at(3),
    }
}

#[derive(Clone, Copy)]
pub enum PeopleCall {
    Rectangles,
    Circles,
}

impl PeopleCall {
    // The people of each question of a list, of five words: of rectangles of one table, or of circles.
    pub fn answer(self, words: Words<'_>, out: &mut Line<'_>) {
        let mut cells = [0.0; SPACE];
        let mut half_widths = [0; SPACE];
        let cells = words.list(1).load(&mut cells);
        let half_widths = words.list(2).load(&mut half_widths);
        let table = Table {
            grid: words.list(0).grid(0),
            cells,
        };
        self.ask_all(table, words, half_widths, out);
    }

    fn ask_all(self, table: Table<'_>, words: Words<'_>, half_widths: &[u32], out: &mut Line<'_>) {
        let kernel = kernel(words.list(0));
        let questions = words.list(3);
        let count = questions.len() / 5;
        out.put(count as u64);
        for i in 0..count {
            let question = questions.from(i * 5);
            let people = match self {
                PeopleCall::Rectangles => table.population(rows(question), columns(question)),
                PeopleCall::Circles => {
                    circle::population(table, kernel, half_widths, Col(question.at(0)))
                }
            };
            put(out, people.map(|people| given(people, 0.0)));
        }
    }
}

fn rows(question: Words<'_>) -> RowBand {
    RowBand {
        north: Row(question.at(0)),
        south: Row(question.at(1)),
    }
}

fn columns(question: Words<'_>) -> ColSpan {
    if question.at::<u64>(2) == 0 {
        let west = Col(question.at(3));
        let east = Col(question.at(4));
        return ColSpan::Through { west, east };
    }
    ColSpan::FullTurn
}

// The words are the table's grid and a kernel.
fn kernel(words: Words<'_>) -> Kernel {
    Kernel {
        grid: words.grid(6),
        centre: Row(words.at(12)),
        radius: RadiusKm(words.at(13)),
        north: Row(words.at(14)),
        count: words.at(15),
    }
}
