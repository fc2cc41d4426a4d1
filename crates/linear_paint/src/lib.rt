// Painting f32 samples by a linear legend, plainly and in lanes (docs/RULES.md, "Painting"). The refusals are the caller's.
#![tactic(auto)]

ghost use Rattle.std.specs.Prelude.{◌≡◌, true, map, ◌++◌, ◌+◌, ◌≤◌, length, get_or, take, drop};
ghost use Rattle.std.specs.Float.{nan};
ghost use Rattle.lists.specs.Lanes.{LanesOf};
ghost use Rattle.painting.specs.Painted.{plain_painted, lane_painted};
ghost use Rattle.painting.specs.forms.ChunkOver.{chunk_over};
ghost use Rattle.painting.specs.Paintings.{lane_count};
ghost use Rattle.linear_paint.specs.forms.Samples.{plain_sample, lane_sample, lane_chunk};

use colormapper::Exclusions;
use linear_rule::LinearRule;

// What a linear legend is painted by.
#[derive(Clone, Copy)]
pub struct LinearPaint<'a> {
    pub rule: LinearRule<'a>,
    pub exclusions: Exclusions,
}

impl LinearPaint<'_> {
    // ---- one sample, and the words of a chunk

    fn sample(self, value: f32) -> u32
        ensures { result ≡ plain_sample self.entry value }
    {
        let nodata = self.rule.colors.nodata;
        let color = self.rule.color_for_numeric_value(value);
        self.exclusions.masked(value, nodata, color)
    }

    fn words_plain(self, v: [f32; 16]) -> [u32; 16]
        ensures { LanesOf 0 16 (λ k. plain_sample self.entry (get_or v k nan)) result }
    {
        let nodata = self.rule.colors.nodata;
        let c = self.rule.colors_for_numeric_values(v);
        self.exclusions.masked_simd(16, v, nodata, c)
    }

    fn words_simd<const L: usize>(self, v: [f32; 16]) -> [u32; 16]
        requires { L ≤ 16 }
        ensures { LanesOf 0 L (λ k. lane_sample self.entry (get_or v k nan)) result }
    {
        let nodata = self.rule.colors.nodata;
        let c = self.rule.color_for_numeric_value_simd::<L>(v);
        self.exclusions.masked_simd(L, v, nodata, c)
    }

    // ---- one chunk of a raster

    fn block(self, src: &[f32], base: usize, out: &mut [u32])
        requires { (base + 16 ≤ length src.now) × (base + 16 ≤ length out.old) }
        ensures { out.new ≡ chunk_over (map (plain_sample self.entry)) src.now out.old base 16 }
    {
        let v = painting::load(16, src, base);
        painting::store(16, self.words_plain(v), base, out);
    }

    fn chunk_simd<const L: usize>(self, src: &[f32], base: usize, out: &mut [u32])
        requires { (L ≤ 16) × (base + L ≤ length src.now) × (base + L ≤ length out.old) }
        ensures { out.new ≡ chunk_over (lane_chunk self.entry) src.now out.old base L }
    {
        let v = painting::load(L, src, base);
        painting::store(L, self.words_simd::<L>(v), base, out);
    }

    // The lane count picks the chunk in which it is a literal.
    fn chunk(self, l: usize, src: &[f32], base: usize, out: &mut [u32])
        requires { (lane_count l ≡ true) × (base + l ≤ length src.now) × (base + l ≤ length out.old) }
        ensures { out.new ≡ chunk_over (lane_chunk self.entry) src.now out.old base l }
    {
        match l {
            4 => self.chunk_simd::<4>(src, base, out),
            8 => self.chunk_simd::<8>(src, base, out),
            _ => self.chunk_simd::<16>(src, base, out),
        }
    }

    // The samples from base on, one by one.
    #[tactic(auto, using(painting::proofs::Steps::plain_steps))]
    fn rest(self, src: &[f32], base: usize, out: &mut [u32])
        requires { (base ≤ length src.now) × (length out.old ≡ length src.now) }
        ensures { out.new ≡ take base out.old ++ map (plain_sample self.entry) (drop base src.now) }
    {
        for i in base..src.len() {
            out[i] = self.sample(src[i]);
        }
    }

    // ---- a whole raster, with an output of its length

    // Plain painting, in blocks of sixteen.
    pub fn paint(self, src: &[f32], out: &mut [u32])
        requires { length out.old ≡ length src.now }
        ensures { out.new ≡ plain_painted (plain_sample self.entry) src.now }
    {
        let blocks = src.len() / 16;
        for k in 0..blocks {
            self.block(src, k * 16, out);
        }
        self.rest(src, blocks * 16, out);
    }

    // Lane painting: whole chunks of l samples, then the rest.
    pub fn paint_simd(self, l: usize, src: &[f32], out: &mut [u32])
        requires { (lane_count l ≡ true) × (length out.old ≡ length src.now) }
        ensures { out.new ≡ lane_painted l (lane_chunk self.entry) (plain_sample self.entry) src.now }
    {
        let chunks = src.len() / l;
        for k in 0..chunks {
            self.chunk(l, src, k * l, out);
        }
        self.rest(src, chunks * l, out);
    }
}
