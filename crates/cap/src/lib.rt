// A spherical cap: whether it reaches a row, and the half-width of the row, an estimate and the walk that corrects it
// (Cap of kernel.rs).
#![tactic(auto)]

ghost use Rattle.std.specs.Prelude.{◌≡◌, ◌≤◌};
ghost use Rattle.cap.specs.Walks.{climbed, descended};
ghost use Rattle.cap.specs.Terms.{lon_term, cap_terms, row_terms, within_angle, contained_by, reached_by};
ghost use Rattle.cap.specs.Terms.{edge_ratio_by, edge_columns_by, estimated_by, half_width_by};
ghost use Rattle.cap.specs.Cap.{closing as closing_of};

// A centre's latitude in degrees, the radius as an angle, the grid's columns.
#[derive(Clone, Copy)]
pub struct Cap {
    pub angle_rad: f64,
    pub centre_lat: f64,
    pub lon_step: f64,
    pub width: u32,
}

// What all rows of a cap share. A term is a haversine's: sin² of half a difference in latitude or in longitude.
#[derive(Clone, Copy)]
pub struct CapTerms {
    pub angle_rad: f64,
    pub lon_step: f64,
    pub closing: u32,
    pub lat_rad: f64,
    pub lat_sine: f64,
    pub lat_cosine: f64,
    pub angle_cosine: f64,
    pub meridian_term: f64,
}

// What all cells of a row share.
#[derive(Clone, Copy)]
struct RowTerms {
    lat_rad: f64,
    lat_term: f64,
    cosines: f64,
}

// The half-width that closes a row: a full turn at every width, even or odd.
pub fn closing(width: u32) -> u32
    ensures { result ≡ closing_of width }
{
    width / 2
}

// sin² of half the longitude that so many columns span.
#[tactic(auto, unfolding(crate::specs::Terms::lon_term))]
fn lon_term(lon_step: f64, cells: u32) -> f64
    ensures { result ≡ lon_term lon_step cells }
{
    let half = stand_ins::sin(stand_ins::to_radians((cells as f64) * lon_step - 0.0) / 2.0);
    half * half
}

impl Cap {
    #[tactic(auto, unfolding(crate::specs::Terms::cap_terms))]
    pub fn terms(self) -> CapTerms
        ensures { result ≡ cap_terms self }
    {
        let lat_rad = stand_ins::to_radians(self.centre_lat);
        CapTerms {
            angle_rad: self.angle_rad,
            lon_step: self.lon_step,
            closing: closing(self.width),
            lat_rad,
            lat_sine: stand_ins::sin(lat_rad),
            lat_cosine: stand_ins::cos(lat_rad),
            angle_cosine: stand_ins::cos(self.angle_rad),
            meridian_term: lon_term(self.lon_step, 0),
        }
    }
}

impl CapTerms {
    // The row at `lat`.
    #[tactic(auto, unfolding(crate::specs::Terms::row_terms))]
    fn row(self, lat: f64) -> RowTerms
        ensures { result ≡ row_terms self lat }
    {
        let lat_rad = stand_ins::to_radians(lat);
        let half = stand_ins::sin((lat_rad - self.lat_rad) / 2.0);
        RowTerms {
            lat_rad,
            lat_term: half * half,
            cosines: self.lat_cosine * stand_ins::cos(lat_rad),
        }
    }

    // Whether a cell of the row, by its longitude's term, is at most the angle away. An angle of 0 holds nothing.
    #[tactic(auto, unfolding(crate::specs::Terms::within_angle))]
    fn is_within_angle(self, row: RowTerms, term: f64) -> bool
        ensures { result ≡ within_angle self row term }
    {
        if self.angle_rad == 0.0 {
            return false;
        }
        geodesy::angle_of(row.lat_term + row.cosines * term) <= self.angle_rad
    }

    // Whether the cell that many columns along the row is in the cap.
    #[tactic(auto, unfolding(crate::specs::Terms::contained_by))]
    fn contains(self, row: RowTerms, cells: u32) -> bool
        ensures { result ≡ contained_by self row cells }
    {
        self.is_within_angle(row, lon_term(self.lon_step, cells))
    }

    // Whether the cap reaches the row at `lat`: the cell on its own meridian is the closest.
    #[tactic(auto, unfolding(crate::specs::Terms::reached_by))]
    pub fn reaches(self, lat: f64) -> bool
        ensures { result ≡ reached_by self lat }
    {
        self.is_within_angle(self.row(lat), self.meridian_term)
    }

    // The cosine of the longitude at which the cap's edge crosses the row, by the law of cosines.
    #[tactic(auto, unfolding(crate::specs::Terms::edge_ratio_by))]
    fn edge_ratio(self, row: RowTerms) -> f64
        ensures { result ≡ edge_ratio_by self row }
    {
        (self.angle_cosine - self.lat_sine * stand_ins::sin(row.lat_rad)) / row.cosines
    }

    #[tactic(auto, unfolding(crate::specs::Terms::edge_columns_by))]
    fn edge_columns(self, ratio: f64) -> f64
        ensures { result ≡ edge_columns_by self ratio }
    {
        stand_ins::to_degrees(stand_ins::acos(ratio)) / float::abs(self.lon_step)
    }

    // Where the walk starts. The cosines can be 0, so the ratio can be infinite or NaN.
    #[tactic(auto, using(crate::proofs::Steps::nan_differs), unfolding(crate::specs::Terms::estimated_by))]
    fn estimate(self, row: RowTerms) -> u32
        ensures { result ≡ estimated_by self row }
    {
        let ratio = self.edge_ratio(row);
        if ratio >= 1.0 {
            return 0;
        }
        if (ratio <= -1.0) | (ratio != ratio) {
            return self.closing;
        }
        let columns = self.edge_columns(ratio);
        if (columns != columns) | (columns >= self.closing as f64) {
            return self.closing;
        }
        float::to_u32(columns)
    }

    // Up from start while the next column is in.
    // (a) Document 01 asks for a loop that yields its value by break, here and in `walk_down`.
    #[tactic(auto, using(crate::proofs::Steps::climb_turn, crate::proofs::Steps::climb_out, crate::proofs::Steps::climb_end))]
    fn walk_up(self, row: RowTerms, start: u32) -> u32
        requires { start ≤ self.closing }
        ensures { result ≡ climbed (contained_by self row) self.closing start }
    {
        let mut h = start;
        loop {
            if self.closing <= h {
                break h;
            }
            if !self.contains(row, h + 1) {
                break h;
            }
            h += 1;
        }
    }

    // Down from start until a column is in, or to 0.
    #[tactic(auto, using(crate::proofs::Steps::descend_turn, crate::proofs::Steps::descend_in, crate::proofs::Steps::descend_end))]
    fn walk_down(self, row: RowTerms, start: u32) -> u32
        ensures { result ≡ descended (contained_by self row) start }
    {
        let mut h = start;
        loop {
            if h == 0 {
                break h;
            }
            if self.contains(row, h) {
                break h;
            }
            h -= 1;
        }
    }

    // The half-width of the row at `lat`: the estimate may be off, the walk decides.
    #[tactic(auto, unfolding(crate::specs::Terms::half_width_by, crate::specs::Walks::walked))]
    pub fn half_width(self, lat: f64) -> u32
        ensures { result ≡ half_width_by self lat }
    {
        let row = self.row(lat);
        let start = self.estimate(row).min(self.closing);
        let up = self.walk_up(row, start);
        self.walk_down(row, up)
    }
}
