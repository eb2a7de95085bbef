// A filter's run and the mix, alone.
ghost use Rattle.std.specs.Prelude.{◌≡◌, length};
ghost use Rattle.samples.specs.Answers.{number_of, accept};
ghost use Rattle.iir.specs.Runs.{run_out, run_end};
ghost use Rattle.hadamard.specs.Mix.{mixed, quarter, width, judged_sample};

use iir::Filter;
use samples::number;

// Filters a row in place, and gives the filter after it (R3.24).
pub fn hall_filter_run(f: Filter, xs: &mut [f32]) -> Filter
    ensures value { result ≡ run_end f xs.old }
    ensures xs_after { xs.new ≡ run_out f xs.old }
{
    iir::run(f, xs)
}

// Mixes one sample of each of sixteen lines (R3.29).
pub fn hall_mix16(x: &[f32], y: &mut [f32]) -> u32
    ensures value { result ≡ number_of (judged_sample (length x.now) (length y.old)) }
    ensures y_after { y.new ≡ accept (judged_sample (length x.now) (length y.old)) (mixed width quarter x.now) y.old }
{
    number(hadamard::mix_sample(x, y))
}
