// The solo part: what a booth plays alone, from its line and its own entries, and without the session's moves.
#![tactic(auto)]

ghost use Rattle.std.specs.Prelude.{◌≡◌, List, ℕ, ◌+◌, ◌*◌, ◌≤◌, ◌<◌, IfOk, length, get_or, set};
ghost use Rattle.base.specs.Bytes.{written};
ghost use Rattle.base.specs.Refusals.{first_fault, fault_in};
ghost use Rattle.rules.specs.SoloPart as page;
ghost use Rattle.rules.specs.Values.{line_held, lines_held};
ghost use Rattle.rules.specs.Fit.{FitTable};
ghost use Rattle.rules.specs.Verdicts.{verdict_in};
ghost use Rattle.arrivals.specs.Places.{Place, waiting_at};
ghost use Rattle.solo.specs.Alone.{Alone, alone_prop, own_tick};

use arrivals::{Entry, FIRST_ENTRY};
use base::{Reason, Refusal};
use files::Files;
use rules::{ENTRY_BYTES, Line, OwnTick, Refused, TASKS_ALLOWED, WallTick};

// A booth that plays alone, as it stays throughout: the log that was taken, its number and its line.
#[derive(Clone, Copy)]
struct SoloBooth<'a> {
    log: &'a [u8],
    number: usize,
    line: Line,
    ghost alone: { Alone log.now line number } by { alone_prop log.now line number },
}

impl<'a> SoloBooth<'a> {
    ghost use Rattle.solo.specs.Played.{Point};

    // The release point by its line of the entry at a place: due of its wall tick, which is converted here and nowhere again. None, at the log's end.
    // That `at` is a place of the log is asked: it speaks of log and place together.
    fn point_of(&self, at: usize) -> Option<OwnTick>
        requires { Place self.now.log.now at }
        ensures { Point self.now at result }
    {
        if self.log.len() <= at {
            return None;
        }
        let entry = Entry::at(self.log, at);
        Some(rules::due(self.line.promise, entry.tick))
    }

    // The first `n` own ticks, one behind the other.
    fn write_part(&self, n: OwnTick, part: &mut [u8])
        requires { n.0 ≤ length part.old }
        ensures { part.new ≡ written 0 (page.solo (line_held self.now.line) (waiting_at self.now.log.now self.now.number 9) n.0) part.old }
    {
        let mut player = Player::new(self);
        for u in 0..n.0 {
            player = player.play(self, OwnTick(u), part);
        }
    }
}

// How far a booth has played. Ticks never fall, so release points never do, and the place in the log only moves on.
#[derive(Clone, Copy)]
struct Player {
    // Where the log's first entry that is not passed yet lies, and its release point; none, at the log's end.
    next: usize,
    point: Option<OwnTick>,
    // What each task was asked and has not played.
    left: [u32; TASKS_ALLOWED],
}

impl Player {
    ghost use Rattle.solo.specs.Played.{Plays, Admitted, Passed};

    // No own tick is played, and no entry passed.
    fn new(booth: &SoloBooth) -> Self
        ensures { Plays booth.now 0 result }
    {
        Player {
            next: FIRST_ENTRY,
            point: booth.point_of(FIRST_ENTRY),
            left: [0; TASKS_ALLOWED],
        }
    }

    // The next entry is passed, and asks its task if it is the booth's.
    fn pass(mut self, booth: &SoloBooth) -> Self
        requires { Place booth.now.log.now self.next × (self.next < length booth.now.log.now) × ((k : ℕ) → get_or self.left k 0 ≤ 65535 * 4097) }
        ensures { Passed booth.now self result }
    {
        let entry = Entry::at(booth.log, self.next);
        self.next += ENTRY_BYTES;
        self.point = booth.point_of(self.next);
        if entry.booth == booth.number {
            self.left[entry.task] += entry.demand;
        }
        self
    }

    // Every entry with release point at most `u` is passed.
    fn admit(mut self, booth: &SoloBooth, u: OwnTick) -> Self
        requires { Plays booth.now u.0 self }
        ensures { Admitted booth.now u.0 result }
    {
        // No index is counted: it ends at the first entry that is not reached.
        while self.point.is_some_and(|point| point <= u) {
            self = self.pass(booth);
        }
        self
    }

    // Own tick `u`: its entries are admitted, and the first task with something left plays.
    fn play(mut self, booth: &SoloBooth, u: OwnTick, part: &mut [u8]) -> Self
        requires { Plays booth.now u.0 self × (u.0 < length part.old) }
        ensures plays { Plays booth.now (u.0 + 1) result }
        ensures byte { part.new ≡ set part.old u.0 (own_tick (line_held booth.now.line) (waiting_at booth.now.log.now booth.now.number 9) u.0) }
    {
        self = self.admit(booth, u);
        // `as`, since there is no From between these sizes, and a TryFrom would answer an error that cannot come.
        part[u.0 as usize] = match rules::first_task(&self.left) {
            Some(task) => {
                self.left[task] -= 1;
                task as u8
            }
            None => rules::NOBODY,
        };
        self
    }
}

// The own ticks that a call asks, or its refusal: an absent booth, more own ticks than are due by the session's end, a buffer too short for them.
fn own_ticks_asked(files: &Files, booth: usize, n: usize, room: usize) -> Result<OwnTick, Refusal>
    requires { FitTable files.now.table }
    ensures fault { (buffer : List ℕ) → length buffer ≡ room → fault_in result ≡ first_fault (page.solo_checks (lines_held files.now.table) files.now.horizon booth n buffer) }
    ensures asked { IfOk result (λ asked. asked.0 ≡ n) }
{
    if files.table.booths <= booth {
        return Err(Reason::NoSuchBoothOrTask.at(0));
    }
    let all = rules::due(files.table.lines[booth].promise, WallTick(files.horizon));
    let Ok(asked) = u32::try_from(n) else {
        return Err(Reason::DoesNotFit.at(0));
    };
    // So many own ticks, a count and no moment.
    if all.0 < asked || room < n {
        return Err(Reason::DoesNotFit.at(0));
    }
    Ok(OwnTick(asked))
}

// The first `n` own ticks of a booth's solo part, for any bytes as table and log; the buffer's other bytes keep what they held.
pub fn solo_part(
    table: &[u8],
    log: &[u8],
    booth: usize,
    n: usize,
    part: &mut [u8],
) -> Result<(), Refused>
    ensures verdict { verdict_in result ≡ (page.ask_solo table.now log.now booth n part.old).verdict }
    ensures buffer { part.new ≡ (page.ask_solo table.now log.now booth n part.old).buffer }
{
    let files = files::read_files(table, log)?;
    let asked = own_ticks_asked(&files, booth, n, part.len()).map_err(Refused::Call)?;
    let alone = SoloBooth {
        log,
        number: booth,
        line: files.table.lines[booth],
    };
    alone.write_part(asked, part);
    Ok(())
}
