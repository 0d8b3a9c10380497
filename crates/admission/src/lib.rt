// Admission: the response test of every booth of a table whose lines are in range.
#![tactic(auto)]

ghost use Rattle.std.specs.Prelude.{◌≡◌, [], ◌≤◌, ◌<◌, length, map, All};
ghost use Rattle.base.specs.Refusals.{fault_in};
ghost use Rattle.rules.specs.Admission as admission;
ghost use Rattle.rules.specs.Values.{line_held, lines_held};
ghost use Rattle.rules.specs.Fit.{FitLine, FitTable};
ghost use Rattle.admission.specs.NotAdmitted.{not_admitted_at};

use base::{Reason, Refusal};
use rules::{BOOTHS_ALLOWED, Line, Promise, Table};

#[tactic(auto, using(crate::proofs::Test::one_period, crate::proofs::Test::left_over))]
fn rounded_up(n: u32, m: u32) -> u32
    requires { (0 < n) × (n ≤ 10000) × (0 < m) × (m ≤ 10000) }
    ensures { (result ≡ admission.rounded_up n m) × (result ≤ 20000) }
{
    // Most tables are asked within their periods, where nothing has to be divided.
    if n <= m {
        return 1;
    }
    n.div_ceil(m)
}

// What the booths above ask of `r` wall ticks.
fn asked_above(above: &[Line], r: u32) -> u32
    requires few { length above.now ≤ 8 }
    requires fit { All FitLine above.now }
    requires r { (0 < r) × (r ≤ 10000) }
    ensures asked { result ≡ admission.asked_above (map line_held above.now) r }
    ensures small { result ≤ 1600000000 }
{
    let mut asked = 0;
    for line in above {
        asked += line.promise.allowance * rounded_up(r, line.promise.period);
    }
    asked
}

// The response test: some whole R from 1 to T has room for the booth's B and what the booths above it ask.
// The smallest R that can pass is B, whatever the others ask; and where an R is too small, none below the amount it asked for
// passes, since what is asked never falls as R grows.
fn passes(above: &[Line], line: &Line) -> bool
    requires few { length above.now ≤ 8 }
    requires above { All FitLine above.now }
    requires line { FitLine line.now }
    ensures { result ≡ admission.passes (map line_held above.now) (line_held line.now) }
{
    let Promise { period, allowance } = line.promise;
    let mut r = allowance;
    // R moves on by what was asked for, not by one, so no for counts it.
    while r <= period {
        let asked = allowance + asked_above(above, r);
        if asked <= r {
            return true;
        }
        r = asked;
    }
    false
}

// Admission, booth 0 first; the first that fails is refused where its record starts. The starts stand beside the table: they are places
// in the file, and a table holds none.
pub fn check_admission(table: &Table, starts: &[usize; BOOTHS_ALLOWED]) -> Result<(), Refusal>
    requires { FitTable table.now }
    ensures { fault_in result ≡ not_admitted_at starts.now (admission.first_failing 0 [] (lines_held table.now)) }
{
    let lines = &table.lines[..table.booths];
    for (i, line) in lines.iter().enumerate() {
        if !passes(&lines[..i], line) {
            return Err(Reason::NotAdmitted.at(starts[i]));
        }
    }
    Ok(())
}
