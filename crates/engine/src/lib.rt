// The plain engine: every wall tick in turn, booth after booth, then all booths settle at H.
#![tactic(auto)]

ghost use Rattle.std.specs.Prelude.{◌≡◌, ◌+◌, ◌≤◌, ◌<◌, true, false, MatchOption};
ghost use Rattle.engine.specs.Running.{ToOpen, Opened, Ready, Midway, AskedTo, Worked, SleepTo, Ran, Ended, Closed};

use booth::Booth;
use rules::{BOOTHS_ALLOWED, NOBODY, Table, WallTick};

// The booths after the last wall tick, and what was counted on the way: beside them, since the answer has the counts alone.
#[derive(Clone, Copy)]
pub struct Stage {
    pub booths: [Booth; BOOTHS_ALLOWED],
    pub worked: [u32; BOOTHS_ALLOWED],
    pub idle: u32,
}

// Every booth of the table before wall tick 0.
pub fn open_all(table: Table, log: &[u8]) -> [Booth; BOOTHS_ALLOWED]
    requires { ToOpen table log.now }
    ensures { Opened table log.now result }
{
    let mut booths = [Booth::absent(); BOOTHS_ALLOWED];
    for j in 0..table.booths {
        booths[j] = Booth::open(j, table.lines[j], log);
    }
    booths
}

// The booths on their way through the wall ticks, and for each the wall tick before which it cannot work.
// Two arrays and not one of pairs: the booths go on alone to `Stage` and `close`, and the rules' course speaks of two lists.
#[derive(Clone, Copy)]
struct Course {
    booths: [Booth; BOOTHS_ALLOWED],
    wakes: [usize; BOOTHS_ALLOWED],
}

// `n`, `log`, `own` and `h` stay parameters, here and in `run` and `close`: in a struct that lends the records each clause names them
// through the struct, and is longer.
impl Course {
    // The wall tick before which all booths sleep, `end` at the latest.
    fn sleep_to(&self, n: usize, end: usize) -> usize
        requires { n ≤ 8 }
        ensures { SleepTo self.now.wakes n result }
    {
        let mut soonest = end;
        for wake in &self.wakes[..n] {
            soonest = soonest.min(*wake);
        }
        soonest
    }

    // Booth i's turn at t: whether it worked. A booth that goes on with its task plays at once, any other is asked.
    fn turn(&mut self, n: usize, i: usize, log: &[u8], own: &mut [u8], h: usize, t: usize) -> bool
        requires { (i < n) × (t < h) × Midway n h log.now t i own.old self.old }
        ensures worked { result ≡ true → Worked n h log.now t i own.old self.old i own.new self.new }
        ensures rested { result ≡ false → AskedTo n h log.now t i own.old self.old (i + 1) own.new self.new }
    {
        let a = i * h;
        let part = &mut own[a..a + h];
        // `as` here and below, since there is no From between u32 and usize nor from usize to u8; the check proves that nothing is lost.
        let tick = WallTick(t as u32);
        if let Some(k) = self.booths[i].goes_on(tick) {
            let played = self.booths[i].play_on(part, k);
            self.booths[i] = played;
            self.wakes[i] = played.opens.from.0 as usize;
            return true;
        }
        let asked = self.booths[i].ask(log, part, tick);
        self.booths[i] = asked.booth;
        self.wakes[i] = asked.wakes.0 as usize;
        asked.worked
    }

    // Wall tick t: the booths that are awake are asked in turn until one works; which one did.
    fn play(&mut self, n: usize, log: &[u8], own: &mut [u8], h: usize, t: usize) -> Option<usize>
        requires { (t < h) × Midway n h log.now t 0 own.old self.old }
        ensures { MatchOption result (AskedTo n h log.now t 0 own.old self.old n own.new self.new) (λ i. (i < n) × Worked n h log.now t 0 own.old self.old i own.new self.new) }
    {
        for i in 0..n {
            if self.wakes[i] <= t && self.turn(n, i, log, own, h, t) {
                return Some(i);
            }
        }
        None
    }
}

// Wall tick after wall tick. Before `soonest` all booths sleep, and nobody is asked.
pub fn run(
    start: [Booth; BOOTHS_ALLOWED],
    n: usize,
    log: &[u8],
    wall: &mut [u8],
    own: &mut [u8],
    h: usize,
) -> Stage
    requires { Ready n h start log.now wall.old own.old }
    ensures { Ran n h start log.now wall.old own.old result wall.new own.new }
{
    let mut course = Course {
        booths: start,
        wakes: [0; BOOTHS_ALLOWED],
    };
    let mut worked = [0u32; BOOTHS_ALLOWED];
    let mut sung = 0;
    let mut soonest = 0;
    for t in 0..h {
        if soonest <= t {
            if let Some(i) = course.play(n, log, own, h, t) {
                wall[t] = i as u8;
                worked[i] += 1;
                sung += 1;
                continue;
            }
            soonest = course.sleep_to(n, h);
        }
        wall[t] = NOBODY;
    }
    let idle = (h - sung) as u32;
    Stage {
        booths: course.booths,
        worked,
        idle,
    }
}

// After the last wall tick all booths settle at H.
pub fn close(
    played: [Booth; BOOTHS_ALLOWED],
    n: usize,
    log: &[u8],
    own: &mut [u8],
    h: usize,
) -> [Booth; BOOTHS_ALLOWED]
    requires { Ended n h played log.now own.old }
    ensures { Closed n h played log.now own.old result own.new }
{
    let mut booths = played;
    for i in 0..n {
        let a = i * h;
        let row = &mut own[a..a + h];
        booths[i] = booths[i].settle(log, row, WallTick(h as u32));
    }
    booths
}
