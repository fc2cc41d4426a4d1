// Painting f32 samples by a banded legend, plainly and in lanes (docs/RULES.md, "Painting"). The refusals are the caller's.
// Ascending disjoint bands are searched by index, others scanned: checked once per painting.
#![tactic(auto)]

ghost use Rattle.std.specs.Prelude.{◌≡◌, true, map, ◌++◌, ◌+◌, ◌≤◌, length, take, drop};
ghost use Rattle.banded_columns.specs.Order.{ascending_disjoint};
ghost use Rattle.banded_rule.specs.forms.Columns.{bands_of};
ghost use Rattle.painting.specs.Painted.{plain_painted, lane_painted};
ghost use Rattle.painting.specs.forms.ChunkOver.{chunk_over};
ghost use Rattle.painting.specs.Paintings.{lane_count};
ghost use Rattle.banded_chunk.specs.forms.Samples.{plain_sample, lane_chunk};

use banded_chunk::BandedPaint;
use banded_rule::Columns;
use banded_search::indices;

// ---- one block of a raster

fn block(columns: Columns, p: BandedPaint, search: bool, src: &[f32], base: usize, out: &mut [u32])
    requires { (search ≡ true → ascending_disjoint (bands_of columns) ≡ true)
        × (base + 16 ≤ length src.now) × (base + 16 ≤ length out.old) }
    ensures { out.new ≡ chunk_over (map (plain_sample (bands_of columns.entry) p))
        src.now out.old base 16 }
{
    let v = painting::load(16, src, base);
    painting::store(16, banded_chunk::words(columns, p, search, v), base, out);
}

// The samples from base on, at most sixteen: coloured at once among sixteen lanes, whatever the others hold.
fn rest(columns: Columns, p: BandedPaint, search: bool, src: &[f32], base: usize, out: &mut [u32])
    requires { (search ≡ true → ascending_disjoint (bands_of columns) ≡ true)
        × (base ≤ length src.now) × (length src.now ≤ base + 16) × (length out.old ≡ length src.now) }
    ensures { out.new ≡ take base out.old
        ++ map (plain_sample (bands_of columns.entry) p) (drop base src.now) }
{
    let m = src.len() - base;
    if m == 0 {
        return;
    }
    let v = painting::load(m, src, base);
    painting::store(m, banded_chunk::words(columns, p, search, v), base, out);
}

// ---- a whole raster, with an output of its length

// Plain painting, in blocks of sixteen.
pub fn paint(columns: Columns, p: BandedPaint, src: &[f32], out: &mut [u32])
    requires { length out.old ≡ length src.now }
    ensures { out.new ≡ plain_painted (plain_sample (bands_of columns.entry) p)
        src.now }
{
    let search = indices::ascending_disjoint(columns.starts, columns.ends, columns.count);
    let blocks = src.len() / 16;
    for k in 0..blocks {
        let base = 16 * k;
        block(columns, p, search, src, base, out);
    }
    let base = 16 * blocks;
    rest(columns, p, search, src, base, out);
}

// Lane painting: whole chunks of l samples, then the rest.
pub fn paint_simd(columns: Columns, p: BandedPaint, l: usize, src: &[f32], out: &mut [u32])
    requires { (lane_count l ≡ true) × (length out.old ≡ length src.now) }
    ensures { out.new ≡ lane_painted l (lane_chunk (bands_of columns.entry) p)
        (plain_sample (bands_of columns.entry) p) src.now }
{
    let search = indices::ascending_disjoint(columns.starts, columns.ends, columns.count)
        & (0 < columns.count);
    let chunks = src.len() / l;
    for k in 0..chunks {
        let base = l * k;
        if search {
            banded_chunk::chunk_searched(columns, p, l, src, base, out);
        } else {
            banded_chunk::chunk(columns, p, l, src, base, out);
        }
    }
    let base = l * chunks;
    rest(columns, p, search, src, base, out);
}
