// The boundary to C: the figures.
ghost use Rattle.std.specs.Prelude.{◌≡◌};
ghost use Rattle.model.specs.Figures.{keep_figures};

use figures::keep_figures;

// 02, 2.13: how well the stations hear each other. One call after each accepted tick or listener's call, with its batch and verdicts. Answers 0, or the
// number of the check that fails, 1, 3, 5 or 6, and then changes nothing.
#[unsafe(no_mangle)]
pub extern "C" fn yarngravel_figures(
    n: u32,
    batch: &[u8],
    verdicts: &[u8],
    figures: &mut [u8],
) -> u64
    ensures value { result ≡ (keep_figures n batch.now verdicts.now figures.old).number }
    ensures figures_after { figures.new ≡ (keep_figures n batch.now verdicts.now figures.old).figures }
{
    keep_figures(n, batch, verdicts, figures) as u64
}
