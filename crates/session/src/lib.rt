// A session: the files, then the buffers, then the plain engine, and what is answered.
#![tactic(auto)]

ghost use Rattle.std.specs.Prelude.{◌≡◌, ◌≤◌, length, IfOk};
ghost use Rattle.rules.specs.Session as page;
ghost use Rattle.rules.specs.Values.{lines_held};
ghost use Rattle.rules.specs.Verdicts.{verdict_in, answer_in};
ghost use Rattle.session.specs.SessionAnswered as said;
ghost use Rattle.arrivals.specs.Places.{log_of};
ghost use Rattle.engine.specs.Running.{Clocks, Playable};

use base::Reason;
use booth::Booth;
use rules::{BOOTHS_ALLOWED, Refused, Table};

// What a session that is played answers: its wall ticks, then for each booth its final own clock and its worked ticks, and the idle ticks.
// Two arrays, as `CSession` has them.
#[derive(Clone, Copy)]
pub struct SessionAnswer {
    pub horizon: u32,
    pub booths: usize,
    pub clocks: [u32; BOOTHS_ALLOWED],
    pub worked: [u32; BOOTHS_ALLOWED],
    pub idle: u32,
}

// Each booth's final own clock; 0 where the table has no booth. The booths and how many there are, as `engine::close` hands them on: memory is fixed.
fn clocks_of(booths: [Booth; BOOTHS_ALLOWED], n: usize) -> [u32; BOOTHS_ALLOWED]
    requires { (n ≤ 8) × (length booths ≡ 8) }
    ensures { Clocks n booths result }
{
    let mut clocks = [0u32; BOOTHS_ALLOWED];
    for i in 0..n {
        clocks[i] = booths[i].clock.0;
    }
    clocks
}

// A session whose table and log were taken and whose records fit.
fn play_all(table: Table, log: &[u8], wall: &mut [u8], own: &mut [u8], h: usize) -> SessionAnswer
    requires { Playable table log.now wall.old own.old h }
    ensures answer { result ≡ said.answered (page.played (lines_held table) (log_of h log.now) wall.old own.old) }
    ensures wall { wall.new ≡ (page.played (lines_held table) (log_of h log.now) wall.old own.old).wall }
    ensures own { own.new ≡ (page.played (lines_held table) (log_of h log.now) wall.old own.old).own }
{
    let n = table.booths;
    let start = engine::open_all(table, log);
    let stage = engine::run(start, n, log, wall, own, h);
    let played = stage.booths;
    let booths = engine::close(played, n, log, own, h);
    let clocks = clocks_of(booths, n);
    let worked = stage.worked;
    // `as`, since there is no From from usize to u32; H is below 1,000,001.
    let horizon = h as u32;
    SessionAnswer {
        horizon,
        booths: n,
        clocks,
        worked,
        idle: stage.idle,
    }
}

// The session on any bytes as table and log, with any lent records.
pub fn session(
    table: &[u8],
    log: &[u8],
    wall: &mut [u8],
    own: &mut [u8],
) -> Result<SessionAnswer, Refused>
    ensures whole { answer_in result ≡ said.answered_in (page.session table.now log.now wall.old own.old) }
    ensures verdict { verdict_in result ≡ (page.session table.now log.now wall.old own.old).verdict }
    ensures answer { IfOk result (λ answer. answer ≡ said.answered (page.session table.now log.now wall.old own.old)) }
    ensures wall { wall.new ≡ (page.session table.now log.now wall.old own.old).wall }
    ensures own { own.new ≡ (page.session table.now log.now wall.old own.old).own }
{
    let files = files::read_files(table, log)?;
    // `as`, since there is no From from u32 to usize. Two tests, since the rules list two checks.
    let h = files.horizon as usize;
    if wall.len() < h {
        return Err(Refused::Call(Reason::DoesNotFit.at(0)));
    }
    if own.len() < files.table.booths * h {
        return Err(Refused::Call(Reason::DoesNotFit.at(0)));
    }
    Ok(play_all(files.table, log, wall, own, h))
}
