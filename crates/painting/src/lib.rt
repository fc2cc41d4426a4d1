// What every kind of legend and every sample type shares in painting (docs/RULES.md, "Painting"): the refusals of a call, a chunk
// taken from a raster and laid over an output, and the words kept in scratch.
#![tactic(auto)]

ghost use Rattle.std.specs.Prelude.{◌≡◌, true, ◌<◌, ◌≤◌, ◌+◌, length, take, drop};
ghost use Rattle.std.specs.Float.{binary32};
ghost use Rattle.std.specs.Float.Ieee.{of_bits};
ghost use Rattle.std.proofs.Math.Seq.{paste};
ghost use Rattle.lists.specs.Padded.{padded};
ghost use Rattle.painting.specs.Painted.{scratch_after};
ghost use Rattle.painting.specs.Paintings.{length_refusal, plain_refusal, lane_count, lane_refusal};

use refusal::Refusal;

// ---- refusals

// `stored` is what the legend's stored record is refused by, which comes first.
#[tactic(auto, unfolding(crate::specs::Paintings::plain_refusal))]
pub fn plain_refusal(stored: Result<(), Refusal>, raster: usize, out: usize) -> Result<(), Refusal>
    ensures { result ≡ plain_refusal stored raster out }
{
    stored.and(length_refusal(raster, out))
}

#[tactic(auto, unfolding(crate::specs::Paintings::lane_refusal))]
pub fn lane_refusal(
    stored: Result<(), Refusal>,
    lanes: usize,
    scratch: usize,
    raster: usize,
    out: usize,
) -> Result<(), Refusal>
    ensures { result ≡ lane_refusal stored lanes scratch raster out }
{
    stored?;
    if !lane_count(lanes) {
        return Err(Refusal::NoSuchLaneCount);
    }
    if scratch < 16 {
        return Err(Refusal::ScratchTooShort);
    }
    length_refusal(raster, out)
}

fn lane_count(lanes: usize) -> bool
    ensures { result ≡ lane_count lanes }
{
    (lanes == 4) | (lanes == 8) | (lanes == 16)
}

fn length_refusal(raster: usize, out: usize) -> Result<(), Refusal>
    ensures { result ≡ length_refusal raster out }
{
    if out == raster {
        return Ok(());
    }
    Err(Refusal::OutputLengthDiffers)
}

// ---- chunks. The lane count is a literal of the caller's, who has a whole chunk at hand, or what is left of a raster.

// The chunk of a raster at base, in the first lanes, and 0 in the others.
pub fn load(l: usize, src: &[f32], base: usize) -> [f32; 16]
    requires { (l ≤ 16) × (base + l ≤ length src.now) }
    ensures { result ≡ padded (of_bits binary32 0) 16 (take l (drop base src.now)) }
{
    let mut v = [0.0f32; 16];
    v[..l].copy_from_slice(&src[base..base + l]);
    v
}

// The colours of the first lanes, over an output at base.
pub fn store(l: usize, c: [u32; 16], base: usize, out: &mut [u32])
    requires { (l ≤ 16) × (base + l ≤ length out.old) }
    ensures { out.new ≡ paste out.old base c l }
{
    out[base..base + l].copy_from_slice(&c[..l]);
}

// ---- scratch

// The first l words from at on, to the front. A loop: by `copy_from_slice`, of a length that is no literal, the library for C would need `memmove`
// from outside.
fn copied(l: usize, from: &[u32], at: usize, to: &mut [u32])
    requires { (at + l ≤ length from.now) × (l ≤ length to.old) }
    ensures { to.new ≡ paste to.old 0 (drop at from.now) l }
{
    for i in 0..l {
        to[i] = from[at + i];
    }
}

// After lane painting: the last full chunk's words to the front of scratch, which the refusals have seen to be long enough.
pub fn keep_last(l: usize, painted: &[u32], scratch: &mut [u32])
    requires { (0 < l) × (l ≤ length scratch.old) }
    ensures { scratch.new ≡ scratch_after l painted.now scratch.old }
{
    let n = painted.len();
    if n < l {
        return;
    }
    let full = n / l * l;
    copied(l, painted, full - l, scratch);
}
