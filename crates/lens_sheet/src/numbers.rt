//! The lines of the numbers of a network.
ghost use Rattle.std.specs.Prelude.{◌*◌, ◌++◌, ◌+◌, ◌-◌, ◌^◌, ◌≡◌, ◌≤◌, length};
ghost use Rattle.lens_sheet.specs.Lines.{beta_line, correction_line, dmax_line, errors_text, grain_line, heard_at};
ghost use Rattle.lens_sheet.specs.Lines.{heard_text, life_line, number_line, precision_line, quiet_at, quiet_text};
ghost use Rattle.lens_sheet.specs.Lines.{rho_line, room_by, room_text, schedule_end, schedule_line, settled_line};
ghost use Rattle.lens_sheet.specs.{Lines.{span_text, time_line, tt_start_line}, Weights.AreSmall};
ghost use Rattle.{net_plan.specs.Ranges.IsInRange, schedule_checker.specs.Timing.errors_of};
ghost use Rattle.tte_units.specs.Amount.{amount};

use crate::figures::{push_minutes, push_ns, push_part, push_percent, push_ppm, push_time};
use crate::weights::{beta_of, drift_of, roundings_over};
use crate::{Number, Weights};
use net_plan::Network;
use tte_io::LineText;

/// Cycles are counted up to this number.
const LIFE: u64 = 1_048_576;

/// Adds the room that is left above what the parts of a time come to.
fn push_room(line: &mut LineText, has: u64, parts: u64)
    requires { length line.old + 101 ≤ 4096 }
    ensures text { line.new ≡ line.old ++ room_text has parts }
    ensures grows { length line.new ≤ length line.old + 101 }
{
    push_part(line, " room ", has.saturating_sub(parts));
}

/// The same, where the time is bounded by another one too, which is named where it is the greater.
#[tactic(auto, unfolding(crate::specs::Lines::room_by))]
fn push_room_by(line: &mut LineText, has: u64, parts: u64, other: u64, name: &str)
    requires short { length name.now ≤ 20 }
    requires room { length line.old + 125 ≤ 4096 }
    ensures text { line.new ≡ line.old ++ room_by has parts other name.now }
    ensures grows { length line.new ≤ length line.old + 125 }
{
    if parts < other {
        push_room(line, has, other);
        line.push(" by ");
        line.push(name);
    } else {
        push_room(line, has, parts);
    }
}

/// Adds the errors of a resynchronisation, so many times.
#[tactic(auto, unfolding(crate::specs::Lines::errors_text))]
fn push_errors(line: &mut LineText, times: u64, network: &Network, beta: u64)
    requires few { times ≤ 2 }
    requires range { IsInRange network.now }
    requires small { beta ≤ 2 ^ 45 }
    requires room { length line.old + 303 ≤ 4096 }
    ensures text { line.new ≡ line.old ++ errors_text times network.now beta }
    ensures grows { length line.new ≤ length line.old + 303 }
{
    push_part(line, " beta ", times * 8 * beta);
    push_part(line, " gamma ", times * 12 * network.gamma().amount());
    push_part(line, " grains ", times * 40 * network.grain.amount());
}

/// The errors of a resynchronisation.
fn errors_at(network: &Network, beta: u64) -> u64
    requires range { IsInRange network.now }
    requires small { beta ≤ 2 ^ 45 }
    ensures value { result ≡ errors_of network.now beta }
    ensures bound { result ≤ 2 ^ 50 }
{
    8 * beta + 12 * network.gamma().amount() + 40 * network.grain.amount()
}

/// Makes the line of a time of which no parts are told.
#[tactic(auto, unfolding(crate::specs::Lines::time_line))]
fn make_time(line: &mut LineText, name: &str, units: u64)
    requires { length name.now ≤ 20 }
    ensures { line.new ≡ time_line name.now units }
{
    line.clear();
    push_time(line, name, units);
    line.push("\n");
}

/// Makes the line of the rate of clocks.
#[tactic(auto, unfolding(crate::specs::Lines::rho_line))]
fn make_rho(line: &mut LineText, network: &Network)
    ensures { line.new ≡ rho_line network.now }
{
    line.clear();
    line.push("rho ");
    push_ppm(line, u64::from(network.rho));
    line.push(" ppm\n");
}

/// Makes the line of the granule of clocks.
#[tactic(auto, unfolding(crate::specs::Lines::grain_line))]
fn make_grain(line: &mut LineText, network: &Network)
    requires { IsInRange network.now }
    ensures { line.new ≡ grain_line network.now }
{
    line.clear();
    line.push("grain ");
    push_ns(line, network.grain.amount());
    line.push(" ns\n");
}

/// Makes the line of how long runs may be.
#[tactic(auto, unfolding(crate::specs::Lines::life_line))]
fn make_life(line: &mut LineText, network: &Network)
    requires { IsInRange network.now }
    ensures { line.new ≡ life_line network.now }
{
    line.clear();
    line.push("life ");
    push_minutes(line, LIFE * network.cycle.amount());
    line.push(" min\n");
}

/// Makes the line of beta.
#[tactic(auto, unfolding(crate::specs::Lines::beta_line))]
fn make_beta(line: &mut LineText, network: &Network, weights: &Weights)
    requires range { IsInRange network.now }
    requires small { AreSmall weights.now }
    ensures { line.new ≡ beta_line network.now weights.now }
{
    line.clear();
    push_time(line, "beta", beta_of(network, weights));
    push_part(line, " jitter ", weights.jitter);
    push_part(line, " drift ", drift_of(network));
    push_part(line, " grains ", roundings_over(network, weights.links));
    line.push("\n");
}

/// Makes the line of dmax.
#[tactic(auto, unfolding(crate::specs::Lines::dmax_line))]
fn make_dmax(line: &mut LineText, network: &Network, weights: &Weights)
    requires range { IsInRange network.now }
    requires small { AreSmall weights.now }
    ensures { line.new ≡ dmax_line network.now weights.now }
{
    let beta = beta_of(network, weights);
    line.clear();
    push_time(line, "dmax", network.dmax.amount());
    push_part(line, " path ", weights.delay);
    push_part(line, " beta ", beta);
    push_room(line, network.dmax.amount(), weights.delay + beta);
    line.push("\n");
}

/// Makes the line of the spread of the starts.
#[tactic(auto, unfolding(crate::specs::Lines::settled_line))]
fn make_settled(line: &mut LineText, network: &Network, weights: &Weights)
    requires range { IsInRange network.now }
    requires small { AreSmall weights.now }
    ensures { line.new ≡ settled_line network.now weights.now }
{
    let beta = beta_of(network, weights);
    let settled = network.settled.amount();
    line.clear();
    push_time(line, "settled", settled);
    push_errors(line, 1, network, beta);
    push_room_by(
        line,
        settled,
        errors_at(network, beta),
        weights.start,
        "start",
    );
    line.push("\n");
}

/// Makes the line of the precision.
#[tactic(auto, unfolding(crate::specs::Lines::precision_line))]
fn make_precision(line: &mut LineText, network: &Network, weights: &Weights)
    requires range { IsInRange network.now }
    requires small { AreSmall weights.now }
    ensures { line.new ≡ precision_line network.now weights.now }
{
    let beta = beta_of(network, weights);
    let settled = network.settled.amount();
    let precision = network.precision.amount();
    let parts = settled + 2 * errors_at(network, beta);
    line.clear();
    push_time(line, "precision", precision);
    push_part(line, " settled ", settled);
    push_errors(line, 2, network, beta);
    push_room_by(line, precision, parts, network.calc.amount(), "calc");
    line.push("\n");
}

/// When each frame of the cycle has been heard.
fn heard_at(network: &Network) -> u64
    requires { IsInRange network.now }
    ensures value { result ≡ heard_at network.now }
    ensures bound { result ≤ 2 ^ 50 }
{
    2 * network.dmax.amount() + network.calc.amount() + 10 * network.precision.amount()
}

/// Adds what this is made of.
#[tactic(auto, unfolding(crate::specs::Lines::heard_text))]
fn push_heard(line: &mut LineText, network: &Network)
    requires range { IsInRange network.now }
    requires room { length line.old + 303 ≤ 4096 }
    ensures text { line.new ≡ line.old ++ heard_text network.now }
    ensures grows { length line.new ≤ length line.old + 303 }
{
    push_part(line, " dmax ", 2 * network.dmax.amount());
    push_part(line, " calc ", network.calc.amount());
    push_part(line, " precision ", 10 * network.precision.amount());
}

/// Makes the line of the place of the correction.
#[tactic(auto, unfolding(crate::specs::Lines::correction_line))]
fn make_correction(line: &mut LineText, network: &Network)
    requires { IsInRange network.now }
    ensures { line.new ≡ correction_line network.now }
{
    let correction = network.correction.amount();
    line.clear();
    push_time(line, "correction", correction);
    push_heard(line, network);
    push_room(line, correction, heard_at(network));
    line.push("\n");
}

/// When the last protocol control frame has left the slowest port.
fn quiet_at(network: &Network, weights: &Weights) -> u64
    requires range { IsInRange network.now }
    requires small { AreSmall weights.now }
    ensures value { result ≡ quiet_at network.now weights.now }
    ensures bound { result ≤ 2 ^ 50 }
{
    let set = network.correction.amount() + network.dmax.amount();
    set + 4 * network.precision.amount() + weights.control
}

/// Adds what this is made of.
#[tactic(auto, unfolding(crate::specs::Lines::quiet_text))]
fn push_quiet(line: &mut LineText, network: &Network, weights: &Weights)
    requires range { IsInRange network.now }
    requires room { length line.old + 404 ≤ 4096 }
    ensures text { line.new ≡ line.old ++ quiet_text network.now weights.now }
    ensures grows { length line.new ≤ length line.old + 404 }
{
    push_part(line, " correction ", network.correction.amount());
    push_part(line, " dmax ", network.dmax.amount());
    push_part(line, " precision ", 4 * network.precision.amount());
    push_part(line, " control ", weights.control);
}

/// Makes the line of where the schedule begins.
#[tactic(auto, unfolding(crate::specs::Lines::tt_start_line))]
fn make_tt_start(line: &mut LineText, network: &Network, weights: &Weights)
    requires range { IsInRange network.now }
    requires small { AreSmall weights.now }
    ensures { line.new ≡ tt_start_line network.now weights.now }
{
    let begin = network.tt_start.amount();
    line.clear();
    push_time(line, "tt_start", begin);
    push_quiet(line, network, weights);
    push_room(line, begin, quiet_at(network, weights));
    line.push("\n");
}

/// Where the windows of rows must end.
fn schedule_end(network: &Network) -> u64
    requires { IsInRange network.now }
    ensures value { result ≡ schedule_end network.now }
    ensures bound { result ≤ 2 ^ 40 }
{
    network
        .cycle
        .amount()
        .saturating_sub(4 * network.precision.amount())
}

/// Adds from where on rows may go, and where their windows must end.
#[tactic(auto, unfolding(crate::specs::Lines::span_text))]
fn push_span(line: &mut LineText, network: &Network)
    requires range { IsInRange network.now }
    requires room { length line.old + 210 ≤ 4096 }
    ensures text { line.new ≡ line.old ++ span_text network.now }
    ensures grows { length line.new ≤ length line.old + 210 }
{
    push_time(line, "schedule from", network.tt_start.amount());
    push_time(line, " to", schedule_end(network));
}

/// How long the schedule may be.
fn schedule_length(network: &Network) -> u64
    requires { IsInRange network.now }
    ensures value { result ≡ schedule_end network.now - amount network.now.tt_start }
    ensures bound { result ≤ 2 ^ 40 }
{
    schedule_end(network).saturating_sub(network.tt_start.amount())
}

/// Makes the line of the schedule.
#[tactic(auto, unfolding(crate::specs::Lines::schedule_line))]
fn make_schedule(line: &mut LineText, network: &Network)
    requires { IsInRange network.now }
    ensures { line.new ≡ schedule_line network.now }
{
    line.clear();
    push_span(line, network);
    line.push(" percent ");
    push_percent(line, schedule_length(network), network.cycle.amount());
    line.push("\n");
}

/// Makes the line of the number.
pub(crate) fn make_number_line(
    line: &mut LineText,
    network: &Network,
    weights: &Weights,
    number: Number,
)
    requires range { IsInRange network.now }
    requires small { AreSmall weights.now }
    ensures { line.new ≡ number_line network.now weights.now number }
{
    match number {
        Number::Cycle => make_time(line, "cycle", network.cycle.amount()),
        Number::Rho => make_rho(line, network),
        Number::Grain => make_grain(line, network),
        Number::Life => make_life(line, network),
        Number::Gamma => make_time(line, "gamma", network.gamma().amount()),
        Number::Beta => make_beta(line, network, weights),
        Number::Dmax => make_dmax(line, network, weights),
        Number::Settled => make_settled(line, network, weights),
        Number::Precision => make_precision(line, network, weights),
        Number::Correction => make_correction(line, network),
        Number::TtStart => make_tt_start(line, network, weights),
        Number::Schedule => make_schedule(line, network),
    }
}
