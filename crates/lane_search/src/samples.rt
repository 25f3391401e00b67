//! A line that is read once.
ghost use Rattle.std.specs.Prelude.{◌≡◌, ℕ, ◌<◌, ◌≤◌, length, pos, slice_index_or, unsigned_abs};
ghost use Rattle.lines.specs.Lines.{Line, ordinate_or_zero};

use lines::influence_lines::InfluenceLine;

/// The ordinates of an influence line at 0 .. length, read once, so that a search need not ask the line again.
// An array of a fixed size, since nothing here takes memory from the heap; the length stands beside it, and a vector of a fixed capacity would be no plainer, since it is filled from its start by pushes.
#[derive(Drop)]
pub struct Sample {
    pub(crate) length: u32,
    pub(crate) ordinates: [i32; 100_001],
    ghost short: { length ≤ 100000 },
    ghost small: { (k : ℕ) → unsigned_abs (slice_index_or ordinates k (pos 0)) ≤ 1000000 },
}

// Reads the ordinates at the first places of a line, as many as the row is long.
fn read_row<L: InfluenceLine>(line: &L, row: &mut [i32])
    ensures values { (k : ℕ) → k < length row.new → slice_index_or row.new k (pos 0) ≡ ordinate_or_zero (L.line line.now) (pos k) }
    ensures small { (k : ℕ) → k < length row.new → unsigned_abs (slice_index_or row.new k (pos 0)) ≤ 1000000 }
{
    for (x, y) in row.iter_mut().enumerate() {
        *y = line.ordinate(x as i64) as i32;
    }
}

impl Sample {
    ghost use Rattle.std.specs.Prelude.{◌≡◌, ◌+◌, ◌≤◌, pos, unsigned_abs};
    ghost use Rattle.lines.specs.Lines.{Line, ordinate_or_zero};
    ghost use Rattle.lines.specs.Cells.{double_area};
    ghost use Rattle.lane_search.specs.Readings.{line_read, Alike};

    /// Reads a line.
    pub fn of<L: InfluenceLine>(line: &L) -> Sample
        ensures { Alike (line_read result) (L.line line.now) }
    {
        let length = line.length() as u32;
        let mut ordinates = [0i32; 100_001];
        read_row(line, &mut ordinates[0..length as usize + 1]);
        Sample { length, ordinates }
    }

    // The first place past the line.
    pub(crate) fn end(&self) -> usize
        ensures { result ≡ self.now.length + 1 }
    {
        self.length as usize + 1
    }

    // The ordinate at a place on the line, which needs no tests.
    pub(crate) fn on(&self, x: usize) -> i64
        requires { x ≤ self.now.length }
        ensures value { result ≡ ordinate_or_zero (line_read self.now) (pos x) }
        ensures small { unsigned_abs result ≤ 1000000 }
    {
        self.ordinates[x] as i64
    }

    // Like those of an influence line, but a sample is none, since it has no scale, and `on` needs no tests.
    // The double area of the cell from a place on the line to the next.
    pub(crate) fn double_area(&self, k: usize) -> i64
        requires { k ≤ self.now.length }
        ensures value { result ≡ double_area (line_read self.now) k }
        ensures small { unsigned_abs result ≤ 2000000 }
    {
        self.on(k) + self.at(k as i64 + 1)
    }

    // The ordinate at any place: 0 off the line.
    pub(crate) fn at(&self, x: i64) -> i64
        ensures value { result ≡ ordinate_or_zero (line_read self.now) x }
        ensures small { unsigned_abs result ≤ 1000000 }
    {
        match usize::try_from(x) {
            Ok(x) if x < self.end() => self.on(x),
            _ => 0,
        }
    }
}
