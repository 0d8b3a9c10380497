// A whole session into two lent records.
ghost use Rattle.std.specs.Prelude.{◌≡◌};
ghost use Rattle.rules.specs.Session as page;
ghost use Rattle.hallanupp.specs.SessionInC.{session_in_c};

use crate::{ACCEPTED, CVerdict};
use rules::BOOTHS_ALLOWED;

// The verdict, the number of booths, each booth's final own clock and worked ticks, the idle ticks and H; zeros behind the last booth.
#[repr(C)]
#[derive(Clone, Copy)]
pub struct CSession {
    pub verdict: CVerdict,
    pub booths: u64,
    pub clocks: [u32; BOOTHS_ALLOWED],
    pub worked: [u32; BOOTHS_ALLOWED],
    pub idle: u32,
    pub wall_ticks: u32,
}

#[unsafe(no_mangle)]
pub extern "C" fn hallanupp_session(
    table: &[u8],
    log: &[u8],
    wall: &mut [u8],
    own: &mut [u8],
) -> CSession
    ensures answer { result ≡ session_in_c (page.session table.now log.now wall.old own.old) }
    ensures wall { wall.new ≡ (page.session table.now log.now wall.old own.old).wall }
    ensures own { own.new ≡ (page.session table.now log.now wall.old own.old).own }
{
    match session::session(table, log, wall, own) {
        Ok(answer) => {
            let clocks = answer.clocks;
            let worked = answer.worked;
            CSession {
                verdict: ACCEPTED,
                // `as`, since there is no From from usize to u64.
                booths: answer.booths as u64,
                clocks,
                worked,
                idle: answer.idle,
                wall_ticks: answer.horizon,
            }
        }
        // A refusal: nothing is done, and every count is 0.
        Err(why) => CSession {
            verdict: CVerdict::from(why),
            booths: 0,
            clocks: [0; BOOTHS_ALLOWED],
            worked: [0; BOOTHS_ALLOWED],
            idle: 0,
            wall_ticks: 0,
        },
    }
}
