// At most forty samples, through the painters of their type. A painting that is refused leaves its zeros and its scratch as they were.
ghost use Rattle.std.specs.Prelude.{◌≡◌, ◌≤◌, length, map};
ghost use Rattle.legend.specs.Painters.{painter};
ghost use Rattle.legend_view.specs.Borrowed.{borrowed_legend};
ghost use Rattle.replay_paintings.specs.Paintings.{plain_words, lane_words};

use crate::LaneWords;
use legend_samples::PaintSample;
use legend_view::View;

pub fn plain<S: PaintSample>(view: View<'_>, samples: &[S], nodata: Option<f32>) -> [u32; 40]
    requires { length samples.now ≤ 40 }
    ensures { result ≡ plain_words (painter (borrowed_legend view.entry) nodata) (map S.as_f32 samples.now) }
{
    let count = samples.len();
    let mut words = [0u32; 40];
    let _ = legend_scalar::apply_to_data_scalar(view, samples, nodata, &mut words[..count]);
    words
}

pub fn lanes<S: PaintSample>(
    view: View<'_>,
    lanes: usize,
    samples: &[S],
    nodata: Option<f32>,
) -> LaneWords
    requires { length samples.now ≤ 40 }
    ensures { result ≡ lane_words lanes (painter (borrowed_legend view.entry) nodata) (map S.as_f32 samples.now) }
{
    let count = samples.len();
    let mut words = [0u32; 40];
    let mut scratch = [0x5c5c_5c5cu32; 16];
    let _ = legend_kernel::apply_to_data_kernel(
        view,
        lanes,
        samples,
        nodata,
        &mut words[..count],
        &mut scratch,
    );
    LaneWords { words, scratch }
}
