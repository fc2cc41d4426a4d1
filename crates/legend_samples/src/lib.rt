// Painting samples of any type by a legend of any kind: f32 as they are, others turned into f32 by blocks of 256. Plainly with 0 lanes,
// else in lanes. The refusals are the caller's.
#![tactic(auto)]

ghost use Rattle.std.specs.Prelude.{◌≡◌, true, map, ◌++◌, ◌+◌, ◌-◌, ◌≤◌, min, length, take, drop, Float};
ghost use Rattle.refusal.specs.Outcome.{Done};
ghost use Rattle.cast.specs.Samples.{of_u8, of_i16};
ghost use Rattle.legend.specs.Record.{stored_refusal};
ghost use Rattle.legend.specs.Painters.{painter};
ghost use Rattle.legend_view.specs.Borrowed.{borrowed_legend};
ghost use Rattle.legend_paint.specs.forms.PlainOrLanes.{painted, plain_or_lanes};

use legend_view::View;

// A sample of a raster: a number that becomes an f32 without loss.
pub trait Sample: Copy {
    ghost as_f32: { Self → Float };

    fn to_f32(self) -> f32
        ensures { result ≡ as_f32 self };
}

impl Sample for f32 {
    ghost as_f32 = { λ v. v };

    fn to_f32(self) -> f32 {
        self
    }
}

impl Sample for u8 {
    ghost as_f32 = { of_u8 };

    fn to_f32(self) -> f32 {
        cast::u8_to_f32(self)
    }
}

impl Sample for i16 {
    ghost as_f32 = { of_i16 };

    fn to_f32(self) -> f32 {
        cast::i16_to_f32(self)
    }
}

// ---- by blocks

// Where the block from a place on ends, of n samples.
fn block_end(from: usize, n: usize) -> usize
    requires { from ≤ n }
    ensures { result ≡ min (from + 256) n }
{
    if n - from <= 256 { n } else { from + 256 }
}

// A block of samples as f32, zeros after it.
fn block_as_f32<S: Sample>(src: &[S]) -> [f32; 256]
    requires { length src.now ≤ 256 }
    ensures { take (length src.now) result ≡ map S.as_f32 src.now }
{
    let mut result = [0.0f32; 256];
    for i in 0..src.len() {
        result[i] = src[i].to_f32();
    }
    result
}

// A block's samples as f32, painted from one place of the output to another.
fn block(
    view: View<'_>,
    nodata: Option<f32>,
    lanes: usize,
    samples: &[f32],
    from: usize,
    to: usize,
    out: &mut [u32],
)
    requires { (stored_refusal (borrowed_legend view) ≡ Done) × (plain_or_lanes lanes ≡ true) × (from ≤ to)
        × (to - from ≤ length samples.now) × (to ≤ length out.old) }
    ensures { out.new
        ≡ take from out.old ++ (painted (painter (borrowed_legend view.entry) nodata) lanes (take (to - from) samples.now) ++ drop to out.old) }
{
    let count = to - from;
    let part = &samples[..count];
    let place = &mut out[from..to];
    legend_paint::paint_simd(view, nodata, lanes, part, place);
}

fn paint_by_blocks<S: Sample>(
    view: View<'_>,
    nodata: Option<f32>,
    lanes: usize,
    src: &[S],
    out: &mut [u32],
)
    requires { (stored_refusal (borrowed_legend view) ≡ Done) × (plain_or_lanes lanes ≡ true) × (length out.old ≡ length src.now) }
    ensures { out.new ≡ painted (painter (borrowed_legend view.entry) nodata) lanes (map S.as_f32 src.now) }
{
    let n = src.len();
    let mut from: usize = 0;
    // A `while`: a block begins where the one before it ends, and the last is shorter. A `for` would work both ends out anew.
    while from < n {
        let to = block_end(from, n);
        let samples = block_as_f32(&src[from..to]);
        block(view, nodata, lanes, &samples, from, to, out);
        from = to;
    }
}

// ---- a raster. This is a trait of its own, as a method of `Sample` may not call what has the bound `Sample`.

// A type of samples that rasters of it are painted from.
pub trait PaintSample: Sample {
    fn paint(view: View<'_>, nodata: Option<f32>, lanes: usize, src: &[Self], out: &mut [u32])
        requires { (stored_refusal (borrowed_legend view) ≡ Done) × (plain_or_lanes lanes ≡ true) × (length out.old ≡ length src.now) }
        ensures { out.new ≡ painted (painter (borrowed_legend view.entry) nodata) lanes (map Self.as_f32 src.now) };
}

// As they are: to copy them by blocks would take time.
impl PaintSample for f32 {
    fn paint(view: View<'_>, nodata: Option<f32>, lanes: usize, src: &[f32], out: &mut [u32]) {
        legend_paint::paint_simd(view, nodata, lanes, src, out);
    }
}

impl PaintSample for u8 {
    fn paint(view: View<'_>, nodata: Option<f32>, lanes: usize, src: &[u8], out: &mut [u32]) {
        paint_by_blocks(view, nodata, lanes, src, out);
    }
}

impl PaintSample for i16 {
    fn paint(view: View<'_>, nodata: Option<f32>, lanes: usize, src: &[i16], out: &mut [u32]) {
        paint_by_blocks(view, nodata, lanes, src, out);
    }
}
