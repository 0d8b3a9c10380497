// One booth and its moves at a wall tick: settle, then play. Each move takes the booth and hands it back changed.
#![tactic(auto)]

ghost use Rattle.std.specs.Prelude.{◌≡◌, List, ℕ, ◌+◌, ◌-◌, ◌≤◌, ◌<◌, length, get_or, replicate, set};
ghost use Rattle.rules.specs.ArrivalLog.{entry_at};
ghost use Rattle.rules.specs.BoothTable.{Line as PageLine};
ghost use Rattle.rules.specs.Due as page;
ghost use Rattle.rules.specs.Moves as moves;
ghost use Rattle.rules.specs.Opens.{opens_at};
ghost use Rattle.rules.specs.Session.{fresh_booth};
ghost use Rattle.rules.specs.Values.{line_held};
ghost use Rattle.rules.specs.InRange.{Sound};
ghost use Rattle.rules.specs.Fit.{FitLine};
ghost use Rattle.arrivals.specs.Places.{waiting_at, Place, WholeLog};
ghost use Rattle.booth.specs.BoothHeld.{absent_booth, owed, shown, settled_answer, asked, takes_next, taken_next, goes_with, wakes_at, OneOfEight, Found, Looked, Steady, Fit, Stays, KeptFrom, ShownBy, ToSettle, Settled, ToPlay, AfterPlay, AfterAsk, demanding, clock_at, played_on, lengthened};

use arrivals::{Entry, FIRST_ENTRY};
use rules::{ENTRY_BYTES, Line, NOBODY, Opens, OwnTick, Promise, TASKS_ALLOWED, WallTick};

// The tick of an entry that never comes. No Option: `wakes` answers a tick to compare with in any case, and `take_next` would take apart what `takes` has tested.
const NEVER: u32 = 4294967295;

// What a booth is promised and how many tasks it has, with what moves. Demand lies early, 16 bytes from the booth's first, where a copy
// is quickest, in fixed memory. `Steady` is no invariant of it, since `absent` is not steady; what holds of a booth and a log speaks of both.
#[derive(Clone, Copy)]
pub struct Booth {
    // Below 8, in a whole word, so that no padding is copied with the state.
    pub number: usize,
    pub tasks: usize,
    // Unplayed demand for each task, but for the first with some.
    pub demand: [u32; TASKS_ALLOWED],
    // The first task with demand, or none.
    pub first: Option<usize>,
    // Where the first entry that waits lies in the log; its tick and its release point stand below.
    pub at: usize,
    pub promise: Promise,
    // The own clock u, and where it lies.
    pub clock: OwnTick,
    pub opens: Opens,
    pub tick: WallTick,
    pub point: OwnTick,
    // What the first task has left, apart from the others' demand, so that playing it changes no array.
    pub left: u32,
}

// A booth that was asked at a wall tick, whether it worked, and the wall tick before which it need not be asked again, which is
// answered in both cases, so whether it worked is no Option of it.
#[derive(Clone, Copy)]
pub struct Asked {
    pub booth: Booth,
    pub wakes: WallTick,
    pub worked: bool,
}

// Where the booth's next entry lies, from a place on; the log's end where there is none, which is a place too, from which a booth
// looks on, so it is no Option. That `from` is a place of the log is asked, here and below: it speaks of log and place together.
fn next_of(log: &[u8], number: usize, from: usize) -> usize
    requires { Place log.now from }
    ensures { Found log.now number from result }
{
    for at in (from..log.len()).step_by(ENTRY_BYTES) {
        let entry = Entry::at(log, at);
        if entry.booth == number {
            return at;
        }
    }
    log.len()
}

// The log, the booth's part of the own record and the tick stay parameters, and that the log is whole (`WholeLog`) is asked beside
// them: in a struct that lends them each clause names them through the struct, and is longer.
impl Booth {
    // Stands in an array of booths where the table has none.
    pub fn absent() -> Self
        ensures { result ≡ absent_booth }
    {
        let promise = Promise {
            period: 0,
            allowance: 0,
        };
        let opens = Opens {
            from: WallTick(0),
            into: 0,
        };
        Booth {
            number: 0,
            tasks: 0,
            demand: [0; TASKS_ALLOWED],
            first: None,
            left: 0,
            at: 0,
            promise,
            clock: OwnTick(0),
            opens,
            tick: WallTick(NEVER),
            point: OwnTick(0),
        }
    }

    // A booth before wall tick 0: own clock 0, no demand, nothing added, an empty row.
    pub fn open(number: usize, line: Line, log: &[u8]) -> Self
        requires whole_log { WholeLog log.now × FitLine line }
        requires by_index { (at : ℕ) → Place log.now at → at < length log.now → (entry_at log.now at).booth ≡ number → (entry_at log.now at).task < line.tasks }
        ensures fit { Fit log.now result × (result.number ≡ number) × (result.promise ≡ line.promise) × (result.tasks ≡ line.tasks) }
        ensures state { (row : List ℕ) → shown (line_held line) log.now result row ≡ fresh_booth (line_held line) (waiting_at log.now number 9) }
    {
        let promise = line.promise;
        let opens = rules::opens_at(promise, OwnTick(0));
        let booth = Booth {
            number,
            tasks: line.tasks,
            at: FIRST_ENTRY,
            promise,
            opens,
            ..Booth::absent()
        };
        booth.look(log, FIRST_ENTRY)
    }

    // The booth with its first waiting entry at `from` or behind it.
    fn look(mut self, log: &[u8], from: usize) -> Self
        requires { WholeLog log.now × Place log.now from × Sound self.promise }
        ensures { Looked log.now self from result }
    {
        let at = next_of(log, self.number, from);
        self.at = at;
        if log.len() <= at {
            self.tick = WallTick(NEVER);
            return self;
        }
        let entry = Entry::at(log, at);
        self.tick = entry.tick;
        self.point = rules::due(self.promise, entry.tick);
        self
    }

    // Unplayed demand for each task: what the first has left goes back in its place. Here and below the length of an array is asked:
    // without it the proof did not close, since no fact at hand tells the length of one by value.
    fn owed(self) -> [u32; TASKS_ALLOWED]
        requires { OneOfEight self }
        ensures { result ≡ owed self }
    {
        let mut all = self.demand;
        if let Some(first) = self.first {
            all[first] = self.left;
        }
        all
    }

    // The booth with this demand; what its first task has left stands apart.
    fn demanding(mut self, all: [u32; TASKS_ALLOWED]) -> Self
        requires { length all ≡ 8 }
        ensures { result ≡ demanding self all }
    {
        self.demand = all;
        self.first = rules::first_task(&all);
        self.left = match self.first {
            Some(k) => all[k],
            None => 0,
        };
        self
    }

    // Task k has d more to play.
    fn add(self, k: usize, d: u32) -> Self
        requires { (k < 8) × OneOfEight self × (get_or (owed self) k 0 + d < 4294967296) }
        ensures { result ≡ demanding self (set (owed self) k (get_or (owed self) k 0 + d)) }
    {
        let mut all = self.owed();
        all[k] = all[k] + d;
        self.demanding(all)
    }

    // The own clock moves on to `to`, if it is not there yet; the own ticks passed over are written 255.
    fn pass(mut self, row: &mut [u8], to: OwnTick) -> Self
        requires clock_in_bounds { (self.clock.0 ≤ length row.old) × (to.0 ≤ length row.old) }
        requires allowance_nonzero { (0 < self.promise.allowance) × (self.opens ≡ opens_at self.promise self.clock.0) × (page.playable_from self.promise to.0 < 4294967296) }
        ensures state { result ≡ clock_at self (self.clock.0 + (to.0 - self.clock.0)) }
        ensures row { row.new ≡ lengthened row.old self.clock.0 (replicate (to.0 - self.clock.0) 255) }
    {
        // `as` here and in `play_on`, since there is no From from u32 to usize, and a task's number is below 8.
        let from = self.clock.0 as usize;
        let end = to.0 as usize;
        if end <= from {
            return self;
        }
        row[from..end].fill(NOBODY);
        self.clock = to;
        let promise = self.promise;
        self.opens = rules::opens_at(promise, to);
        self
    }

    // The first waiting entry is to be added at t: it has come, and its point is reached or no demand is left.
    fn takes(self, t: WallTick) -> bool
        ensures { result ≡ takes_next t.0 self }
    {
        if t < self.tick {
            return false;
        }
        if self.first.is_none() {
            return true;
        }
        self.point <= self.clock
    }

    // The clock moves on to the first waiting entry's point, and the entry is added to its task.
    fn take_next(mut self, log: &[u8], row: &mut [u8]) -> Self
        requires whole_log { WholeLog log.now × Fit log.now self × (self.at < length log.now) }
        requires clock_in_bounds { (self.clock.0 ≤ length row.old) × (self.point.0 ≤ length row.old) × (page.playable_from self.promise self.point.0 < 4294967296) }
        ensures fit { Fit log.now result × (self.at < result.at) × Stays self result }
        ensures state { ShownBy taken_next log.now self row.old result row.new }
        ensures row { row.new ≡ lengthened row.old self.clock.0 (replicate (self.point.0 - self.clock.0) 255) }
    {
        let at = self.at;
        let entry = Entry::at(log, at);
        let to = self.point;
        self = self.pass(row, to);
        self = self.add(entry.task, entry.demand);
        self = self.look(log, at + ENTRY_BYTES);
        self
    }

    // Takes the entries that are to be added at t, then rests where no demand is left.
    fn catch_up(mut self, log: &[u8], row: &mut [u8], t: WallTick) -> Self
        requires { ToSettle log.now t.0 self row.old }
        ensures { Settled log.now t.0 self row.old result row.new }
    {
        // No index is counted: it ends where no entry is to be added.
        while self.takes(t) {
            self = self.take_next(log, row);
        }
        if self.first.is_none() {
            let promise = self.promise;
            let to = rules::due(promise, t);
            self = self.pass(row, to);
        }
        self
    }

    // Settle at t. A booth with demand and no entry to add is settled as it is; most are, so nothing of it is written anew.
    pub fn settle(mut self, log: &[u8], row: &mut [u8], t: WallTick) -> Self
        requires { ToSettle log.now t.0 self row.old }
        ensures { Settled log.now t.0 self row.old result row.new }
    {
        if self.takes(t) {
            return self.catch_up(log, row, t);
        }
        if self.first.is_some() {
            return self;
        }
        self.catch_up(log, row, t)
    }

    // A settled booth answers with a task to run at t, or with none.
    #[tactic(auto, using(rules::proofs::Ticks::lt_told, rules::proofs::Ticks::le_told, crate::proofs::Working::chosen_by_then, crate::proofs::Working::none_before))]
    fn choose(self, t: WallTick) -> Option<usize>
        requires { Steady self }
        ensures { (l : PageLine) (bs row : List ℕ) → l.promise ≡ self.promise → result ≡ settled_answer t.0 (shown l bs self row) }
    {
        if self.opens.from <= t {
            self.first
        } else {
            None
        }
    }

    // The task that the booth goes on with at t: it has more than one tick of it left, may play at t, and has no entry to add.
    #[tactic(auto, using(rules::proofs::Ticks::lt_told, rules::proofs::Ticks::le_told), unfolding(crate::specs::BoothHeld::goes_with, crate::specs::BoothHeld::goes_on))]
    pub fn goes_on(self, t: WallTick) -> Option<usize>
        ensures { result ≡ goes_with t.0 self }
    {
        if t < self.opens.from {
            return None;
        }
        if self.left < 2 {
            return None;
        }
        if self.takes(t) {
            return None;
        }
        self.first
    }

    // One tick of the first task is played: its number goes into the row at u, u grows by 1.
    pub fn play_on(mut self, row: &mut [u8], k: usize) -> Self
        requires { ToPlay self k row.old }
        ensures state { result ≡ played_on self }
        ensures row { row.new ≡ set row.old self.clock.0 k }
    {
        let u = self.clock.0;
        row[u as usize] = k as u8;
        self.left = self.left - 1;
        let clock = OwnTick(u + 1);
        self.clock = clock;
        let promise = self.promise;
        let opens = self.opens;
        self.opens = rules::opens_next(promise, opens);
        self
    }

    // The booth works: its first task with demand loses 1, its number goes into the row at u, u grows by 1.
    fn play(mut self, row: &mut [u8], k: usize) -> Self
        requires { ToPlay self k row.old }
        ensures fit { AfterPlay self result }
        ensures state { (l : PageLine) (bs : List ℕ) → shown l bs result row.new ≡ moves.work (shown l bs self row.old) }
        ensures row { KeptFrom result.clock.0 row.old row.new }
    {
        self = self.play_on(row, k);
        if self.left == 0 {
            let all = self.owed();
            return self.demanding(all);
        }
        self
    }

    // The wall tick before which the settled booth cannot work.
    fn wakes(self) -> WallTick
        requires { Steady self }
        ensures { result.0 ≡ wakes_at self }
    {
        if self.first.is_none() {
            return self.tick;
        }
        let opens = self.opens;
        opens.from
    }

    // One booth's turn at wall tick t: it settles and, if it then has a task and may work, plays.
    pub fn ask(mut self, log: &[u8], row: &mut [u8], t: WallTick) -> Asked
        requires { WholeLog log.now × Fit log.now self × (t.0 < length row.old) × (length row.old < 1000001) × (self.clock.0 ≤ page.due self.promise t.0) }
        ensures fit { AfterAsk log.now t.0 self result }
        ensures state { ShownBy (asked t.0) log.now self row.old result.booth row.new }
        ensures worked { (l : PageLine) → l.promise ≡ self.promise → result.worked ≡ moves.may_work t.0 (moves.settle t.0 (shown l log.now self row.old)) }
        ensures row { KeptFrom result.booth.clock.0 row.old row.new }
    {
        self = self.settle(log, &mut row[..], t);
        let Some(k) = self.choose(t) else {
            let wakes = self.wakes();
            return Asked {
                booth: self,
                wakes,
                worked: false,
            };
        };
        self = self.play(row, k);
        let wakes = self.wakes();
        Asked {
            booth: self,
            wakes,
            worked: true,
        }
    }
}
