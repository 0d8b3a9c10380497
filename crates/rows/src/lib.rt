// A booth's own row handed back: a part of the caller's own record, not a copy.
#![tactic(auto)]

ghost use Rattle.std.specs.Prelude.{◌≡◌};
ghost use Rattle.base.specs.Refusals.{first_fault, fault_in};
ghost use Rattle.rules.specs.RowBack as page;
ghost use Rattle.rules.specs.Verdicts.{verdict_in};

use base::{Reason, Refusal};
use rules::{BOOTHS_ALLOWED, LONGEST_SESSION, Refused};

// A row has a place for every wall tick; `as`, since From is not called in a constant.
const LONGEST_ROW: usize = LONGEST_SESSION as usize;

// The four that a caller hands over, in this order here and in C. Booth, H, count, then the end, each tested before it is multiplied, so that no product is too large.
fn check_row(own: &[u8], h: usize, booth: usize, count: usize) -> Result<(), Refusal>
    ensures { fault_in result ≡ first_fault (page.row_checks own.now h booth count) }
{
    if BOOTHS_ALLOWED <= booth {
        return Err(Reason::DoesNotFit.at(0));
    }
    if LONGEST_ROW < h {
        return Err(Reason::DoesNotFit.at(0));
    }
    if h < count {
        return Err(Reason::DoesNotFit.at(0));
    }
    if own.len() < booth * h + count {
        return Err(Reason::DoesNotFit.at(0));
    }
    Ok(())
}

// Whether `row_back` hands a row back, or why its part is empty: the call does not fit.
pub fn row_verdict(own: &[u8], h: usize, booth: usize, count: usize) -> Result<(), Refused>
    ensures { verdict_in result ≡ (page.row_back own.now h booth count).verdict }
{
    check_row(own, h, booth, count).map_err(Refused::Call)
}

// The caller's own bytes, `count` of them from `booth` times `h`, or the empty part, which `row_verdict` tells from a row of no ticks:
// on a refusal the part is promised too, so it is no Result.
pub fn row_back(own: &[u8], h: usize, booth: usize, count: usize) -> &[u8]
    ensures { result.now ≡ (page.row_back own.now h booth count).part }
{
    if check_row(own, h, booth, count).is_err() {
        return &own[0..0];
    }
    let start = booth * h;
    let end = start + count;
    &own[start..end]
}
