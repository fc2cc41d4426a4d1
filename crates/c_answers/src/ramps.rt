// A ramp that was asked for.
ghost use Rattle.std.specs.Prelude.{◌≡◌};
ghost use Rattle.c_answers.specs.Ramps.{ramp_to_c};

use c_types::answer;
use c_types::answer::LegendAnswer;
use colormap::ProcessedColorMap;
use refusal::Refusal;

// A ramp's 256 colours, all 0 beside a refusal.
#[repr(C)]
#[derive(Clone, Copy)]
pub struct LegendRamp {
    pub answer: LegendAnswer,
    pub colors: [u32; 256],
}

pub fn ramp_to_c(made: Result<ProcessedColorMap, Refusal>) -> LegendRamp
    ensures { result ≡ ramp_to_c made }
{
    match made {
        Ok(ramp) => {
            let colors = ramp.cmap;
            LegendRamp {
                answer: answer::to_c(Ok(())),
                colors,
            }
        }
        Err(why) => LegendRamp {
            answer: answer::to_c(Err(why)),
            colors: [0u32; 256],
        },
    }
}
