// A booth's solo part into a lent buffer, and its row handed back as a place in the caller's own record.
ghost use Rattle.std.specs.Prelude.{◌≡◌, take, drop};
ghost use Rattle.rules.specs.RowBack.{row_back};
ghost use Rattle.rules.specs.SoloPart.{ask_solo};
ghost use Rattle.hallanupp.specs.VerdictInC.{in_c};
ghost use Rattle.hallanupp.specs.RowInC.{row_in_c};

use crate::{ACCEPTED, CVerdict};

// The row's first byte in the caller's own record, and how many bytes it is long; 0 and 0 where the call is refused.
#[repr(C)]
#[derive(Clone, Copy)]
pub struct CRow {
    pub verdict: CVerdict,
    pub start: u64,
    pub count: u64,
}

#[unsafe(no_mangle)]
pub extern "C" fn hallanupp_solo_part(
    table: &[u8],
    log: &[u8],
    booth: usize,
    n: usize,
    part: &mut [u8],
) -> CVerdict
    ensures verdict { result ≡ in_c (ask_solo table.now log.now booth n part.old).verdict }
    ensures buffer { part.new ≡ (ask_solo table.now log.now booth n part.old).buffer }
{
    match solo::solo_part(table, log, booth, n, part) {
        Ok(()) => ACCEPTED,
        Err(why) => CVerdict::from(why),
    }
}

#[unsafe(no_mangle)]
pub extern "C" fn hallanupp_row_back(own: &[u8], h: usize, booth: usize, count: usize) -> CRow
    ensures row { result ≡ row_in_c h booth count (row_back own.now h booth count).verdict }
    ensures part { take result.count (drop result.start own.now) ≡ (row_back own.now h booth count).part }
{
    if let Err(why) = rows::row_verdict(own, h, booth, count) {
        return CRow {
            verdict: CVerdict::from(why),
            start: 0,
            count: 0,
        };
    }
    let start = booth * h;
    CRow {
        verdict: ACCEPTED,
        // `as`, since there is no From from usize to u64.
        start: start as u64,
        count: count as u64,
    }
}
