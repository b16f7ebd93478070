// The words of a call, as its text has them. Any place may be asked for: past the end a word is 0, and a part is empty.
// So no call has to show that its words are there.
use crate::text::{UNIT, value};
use geodesy::LatLon;
use grid::Grid;

// The longest list that is lent; what is past it is left out.
pub const SPACE: usize = 8192;

// What a word may stand for.
pub trait Word: Copy {
    fn of(word: u64) -> Self;

    fn word(self) -> u64;
}

impl Word for u64 {
    fn of(word: u64) -> u64 {
        word
    }

    fn word(self) -> u64 {
        self
    }
}

// A cell of a raster, a half-width, an index.
impl Word for u32 {
    fn of(word: u64) -> u32 {
        (word % 0x1_0000_0000) as u32
    }

    fn word(self) -> u64 {
        self as u64
    }
}

impl Word for f64 {
    fn of(word: u64) -> f64 {
        float::from_bits(word)
    }

    fn word(self) -> u64 {
        float::to_bits(self)
    }
}

#[derive(Clone, Copy)]
pub struct Words<'a>(&'a [u8]);

impl<'a> Words<'a> {
    pub fn of_text(text: &'a [u8]) -> Words<'a> {
        Words(text)
    }

    pub fn len(self) -> usize {
        self.0.len() / UNIT
    }

    pub fn at<T: Word>(self, at: usize) -> T {
        T::of(value(self.from(at).0))
    }

    pub fn point(self, at: usize) -> LatLon {
        let rest = self.from(at);
        LatLon {
            lat: rest.at(0),
            lon: rest.at(1),
        }
    }

    pub fn grid(self, at: usize) -> Grid {
        let rest = self.from(at);
        Grid {
            width: rest.at(0),
            height: rest.at(1),
            lat: rest.at(2),
            lon: rest.at(3),
            lon_step: rest.at(4),
            lat_step: rest.at(5),
        }
    }

    pub fn from(self, at: usize) -> Words<'a> {
        Words(self.0.get(at % 0x1_0000_0000 * UNIT..).unwrap_or(&[]))
    }

    fn front(self, n: usize) -> Words<'a> {
        Words(self.0.get(..n % 0x1_0000_0000 * UNIT).unwrap_or(self.0))
    }

    // List k of a call that has several: word k is its place, and the next word the place behind it.
    pub fn list(self, k: usize) -> Words<'a> {
        let places = self.from(k);
        let start: u64 = places.at(0);
        let end: u64 = places.at(1);
        self.front(end as usize).from(start as usize)
    }

    // The words as elements, in the front of the space that is lent.
    pub fn load<'b, T: Word>(self, space: &'b mut [T]) -> &'b mut [T] {
        let n = self.len().min(space.len());
        for (x, word) in space.iter_mut().zip(self.0.chunks_exact(UNIT)) {
            *x = T::of(value(word));
        }
        &mut space[..n]
    }
}
