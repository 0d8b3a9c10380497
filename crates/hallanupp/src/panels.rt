// The panel row of a booth as a C struct.
ghost use Rattle.std.specs.Prelude.{◌≡◌};
ghost use Rattle.rules.specs.Panel as page;
ghost use Rattle.hallanupp.specs.PanelInC.{panel_in_c, reading_in_c, held_tick};

use crate::{ACCEPTED, CVerdict};
use panel::Reading;
use rules::{LONGEST_SESSION, WallTick};

// The last tick that a panel is read at; `as` here and below, since From is not called in a constant and is none from usize to u32.
const LONGEST_TICK: usize = LONGEST_SESSION as usize;
// A tick that is refused, as all behind it are.
const PAST_ALL_TICKS: u32 = LONGEST_SESSION + 1;

// The two shares; the reading is 0 none yet, 1 below, 2 at the ceiling, 3 over. A number, since C reads it.
#[repr(C)]
#[derive(Clone, Copy)]
pub struct CPanelRow {
    pub verdict: CVerdict,
    pub promised: f64,
    pub got: f64,
    pub reading: u32,
}

// No From: an impl of it for u32 may not stand outside the crate of `Reading`.
fn reading_number(reading: Reading) -> u32
    ensures { result ≡ reading_in_c reading }
{
    match reading {
        Reading::NoneYet => 0,
        Reading::Below(_) => 1,
        Reading::AtCeiling(_) => 2,
        Reading::Over(_) => 3,
    }
}

// Every tick above 1,000,000 is refused alike, so one of them stands for all.
fn held_tick(t: usize) -> WallTick
    ensures { result.0 ≡ held_tick t }
{
    if LONGEST_TICK < t {
        return WallTick(PAST_ALL_TICKS);
    }
    WallTick(t as u32)
}

#[unsafe(no_mangle)]
pub extern "C" fn hallanupp_panel(table: &[u8], wall: &[u8], booth: usize, t: usize) -> CPanelRow
    ensures { result ≡ panel_in_c (page.panel table.now wall.now booth t) }
{
    match panel::panel(table, wall, booth, held_tick(t)) {
        Ok(row) => CPanelRow {
            verdict: ACCEPTED,
            promised: row.promised,
            got: row.got,
            reading: reading_number(row.reading),
        },
        // A refusal: both shares 0 and the reading none yet.
        Err(why) => CPanelRow {
            verdict: CVerdict::from(why),
            promised: 0.0,
            got: 0.0,
            reading: reading_number(Reading::NoneYet),
        },
    }
}
