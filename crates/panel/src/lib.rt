// The panel: a booth's two shares and their reading.
#![tactic(auto)]

ghost use Rattle.std.specs.Prelude.{◌≡◌, ◌+◌, ◌≤◌, length, take, sum, IfOk};
ghost use Rattle.rules.specs.Verdicts.{verdict_in, answer_in};
ghost use Rattle.rules.specs.InRange.{Sound};
ghost use Rattle.rules.specs.Session as session;
ghost use Rattle.rules.specs.Panel as page;
ghost use Rattle.panel.specs.Exact.{ExactAtPowers};
ghost use Rattle.panel.specs.Lanes.{EachBelow, OneMore};
ghost use Rattle.panel.specs.Shown.{shown_reading, shown_row, shown_answer};

use base::Reason;
use rules::{LONGEST_SESSION, Promise, Refused, WallTick};
use std::cmp::Ordering;

// None yet, or how worked stands to due, with the share got.
#[derive(Clone, Copy)]
pub enum Reading {
    NoneYet,
    Below(f64),
    AtCeiling(f64),
    Over(f64),
}

// The two shares of one booth, beside their reading.
#[derive(Clone, Copy)]
pub struct PanelRow {
    pub promised: f64,
    pub got: f64,
    pub reading: Reading,
}

// One division of doubles, and nothing after it; exact where `whole` is a power of two.
fn share(part: u32, whole: u32) -> f64
    ensures once { result ≡ page.share part whole }
    ensures exact { ExactAtPowers part whole result }
{
    f64::from(part) / f64::from(whole)
}

// Each tick of a block is counted in a lane of its own, a byte wide: the compiler counts sixteen lanes in one register, and
// keeps all of them in registers from block to block. A `filter` and `count` over all ticks takes more than 18 times as long.
const LANES: usize = 128;
// So many wall ticks are counted before the lanes are added up: a byte counts 254 blocks and a rest.
const PART: usize = 254 * LANES;

// Counts where the booth stands in a block, each tick in the lane of its place.
fn count_block(lanes: &mut [u8; LANES], block: &[u8], booth: u8)
    requires { (length block.now ≤ 128) × EachBelow 255 lanes.old }
    ensures sum { sum lanes.new ≡ sum lanes.old + session.count booth block.now }
    ensures each { OneMore lanes.old lanes.new }
{
    // By place: of lanes written through `iter_mut().zip(block)` no proof knows more than how many they are.
    for (i, tick) in block.iter().enumerate() {
        lanes[i] += u8::from(*tick == booth);
    }
}

// The sum is as narrow as 128 lanes allow, so that the compiler adds eight of them at once.
fn add_up(lanes: &[u8; LANES]) -> u32
    ensures { result ≡ sum lanes.now }
{
    let worked: u16 = lanes.iter().map(|lane| u16::from(*lane)).sum();
    u32::from(worked)
}

// How often the booth stands in a part of the wall record, whole blocks first.
fn worked_in(part: &[u8], booth: u8) -> u32
    requires { length part.now ≤ 32512 }
    ensures { result ≡ session.count booth part.now }
{
    let mut lanes = [0u8; LANES];
    let (blocks, rest) = part.as_chunks::<LANES>();
    for block in blocks {
        count_block(&mut lanes, block, booth);
    }
    count_block(&mut lanes, rest, booth);
    add_up(&lanes)
}

// How often the booth stands in the first `t` bytes.
fn worked_ticks(wall: &[u8], booth: usize, t: u32) -> u32
    requires { t ≤ length wall.now }
    ensures { result ≡ session.count booth (take t wall.now) }
{
    // No byte is so large.
    let Ok(number) = u8::try_from(booth) else {
        return 0;
    };
    let mut worked: u32 = 0;
    // `as`, since `usize` is no `From<u32>`.
    for part in wall[..t as usize].chunks(PART) {
        worked += worked_in(part, number);
    }
    worked
}

// As worked compares with due.
#[tactic(auto, using(std::proofs::lemmas::Cmp::ranked), unfolding(crate::specs::Shown::shown_reading, rules::specs::Panel::reading_of))]
fn reading_of(worked: u32, due: u32, got: f64) -> Reading
    ensures { result ≡ shown_reading (page.reading_of worked due got) }
{
    match worked.cmp(&due) {
        Ordering::Less => Reading::Below(got),
        Ordering::Equal => Reading::AtCeiling(got),
        Ordering::Greater => Reading::Over(got),
    }
}

// The row of a booth that worked so many of the first `t` ticks.
#[tactic(auto, unfolding(crate::specs::Shown::shown_row, crate::specs::Shown::shown_reading, rules::specs::Panel::panel_row, rules::specs::Panel::no_share))]
fn panel_row(promise: Promise, worked: u32, t: u32) -> PanelRow
    requires { Sound promise }
    ensures { result ≡ shown_row (page.panel_row promise worked t) }
{
    let promised = share(promise.allowance, promise.period);
    if t == 0 {
        return PanelRow {
            promised,
            got: 0.0,
            reading: Reading::NoneYet,
        };
    }
    let due = rules::due(promise, WallTick(t));
    let got = share(worked, t);
    let reading = reading_of(worked, due.0, got);
    PanelRow {
        promised,
        got,
        reading,
    }
}

// The panel row of a booth after `t` wall ticks, for any bytes as table and wall record.
pub fn panel(table: &[u8], wall: &[u8], booth: usize, t: WallTick) -> Result<PanelRow, Refused>
    ensures whole { answer_in result ≡ shown_answer (page.panel table.now wall.now booth t.0) }
    ensures verdict { verdict_in result ≡ (page.panel table.now wall.now booth t.0).verdict }
    ensures row { IfOk result (λ row. row ≡ shown_row (page.panel table.now wall.now booth t.0)) }
{
    let held = table::read_table(table).map_err(Refused::Table)?;
    if held.booths <= booth {
        return Err(Refused::Call(Reason::NoSuchBoothOrTask.at(0)));
    }
    // `as`, since `usize` is no `From<u32>`. Two tests, since the rules list two checks; a length is no tick, so both read `t.0`.
    if wall.len() < t.0 as usize {
        return Err(Refused::Call(Reason::DoesNotFit.at(0)));
    }
    if LONGEST_SESSION < t.0 {
        return Err(Refused::Call(Reason::DoesNotFit.at(0)));
    }
    let promise = held.lines[booth].promise;
    Ok(panel_row(promise, worked_ticks(wall, booth, t.0), t.0))
}
