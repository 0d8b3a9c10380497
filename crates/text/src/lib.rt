// The desk's text of any input, line after line, into a lent buffer.
#![tactic(auto)]

ghost use Rattle.std.specs.Prelude.{◌≡◌, ◌+◌, ◌*◌, ◌≤◌, length};
ghost use Rattle.base.specs.Refusals.{said};
ghost use Rattle.rules.specs.Desk as page;
ghost use Rattle.printing.specs.Room.{refused_room};
ghost use Rattle.printing.specs.Printed.{HasRoom, Printed};
ghost use Rattle.text.specs.TextAnswered.{answer_text, text_room, booth_line_room, text_length, with_text};

use base::{Reason, Refusal};
use printing::Paper;
use rules::{BOOTHS_ALLOWED, Refused};
use session::SessionAnswer;

// The longest table and the longest log.
pub const MOST_INPUT: usize = 37044;
// The longest session that the desk has records for.
const MOST_TICKS: usize = 2000;
// No text is longer.
pub const TEXT_ROOM: usize = 18710;

// A line for each booth, with its row as it is handed back.
#[tactic(auto, using(printing::proofs::Pieces::printed_nothing), unfolding(rules::specs::Desk::booth_lines))]
fn booth_lines(paper: &mut Paper, answer: SessionAnswer, own: &[u8], h: usize)
    requires { (answer.booths ≤ 8) × (h ≤ page.most_ticks) × HasRoom (answer.booths * booth_line_room) paper.old }
    ensures { Printed (page.booth_lines answer.booths h answer.clocks answer.worked own.now) paper.old paper.new }
{
    for booth in 0..answer.booths {
        // `as` here and below, since there is no From from u32 to usize.
        let clock = answer.clocks[booth] as usize;
        let row = rows::row_back(own, h, booth, clock);
        paper.booth_line(booth, clock, answer.worked[booth] as usize, row);
    }
}

fn admitted_text(paper: &mut Paper, answer: SessionAnswer, wall: &[u8], own: &[u8], h: usize)
    requires { (answer.booths ≤ 8) × (h ≤ page.most_ticks) × (h ≤ length wall.now) × HasRoom text_room paper.old }
    ensures { Printed (answer_text h answer wall.now own.now) paper.old paper.new }
{
    paper.number_line(b"admitted ", answer.booths);
    paper.record_line(b"wall ", &wall[..h]);
    booth_lines(paper, answer, own, h);
    paper.number_line(b"idle ", answer.idle as usize);
}

// The line of what is refused, in document 01's number.
fn print_refusal(paper: &mut Paper, what: &[u8], refusal: Refusal)
    requires { HasRoom (length what.now + refused_room) paper.old }
    ensures { Printed (page.refused_line what.now (said refusal)) paper.old paper.new }
{
    paper.refused_line(what, refusal.reason.number(), refusal.place);
}

// The session of a table and a log in records of the desk's own, as text.
#[tactic(auto, using(crate::proofs::Printed::session_prints, crate::proofs::Printed::table_prints, crate::proofs::Printed::log_prints, crate::proofs::Printed::call_prints), unfolding(crate::proofs::Printed::desk_outcome, rules::specs::Verdicts::verdict_in))]
fn session_text(paper: &mut Paper, table: &[u8], log: &[u8])
    requires { HasRoom text_room paper.old }
    ensures { Printed (page.session_text table.now log.now) paper.old paper.new }
{
    let mut wall = [0u8; MOST_TICKS];
    let mut own = [0u8; BOOTHS_ALLOWED * MOST_TICKS];
    match session::session(table, log, &mut wall, &mut own) {
        Ok(answer) => admitted_text(paper, answer, &wall, &own, answer.horizon as usize),
        Err(Refused::Table(refusal)) => print_refusal(paper, b"table ", refusal),
        Err(Refused::Log(refusal)) => print_refusal(paper, b"log ", refusal),
        Err(Refused::Call(refusal)) => print_refusal(paper, b"session ", refusal),
    }
}

// The table ends where its N says, or where the input ends.
#[tactic(auto, unfolding(rules::specs::Desk::table_end, rules::specs::FileHead::head_n))]
fn table_end(input: &[u8]) -> usize
    ensures { (result ≡ page.table_end input.now) × (result ≤ length input.now) }
{
    let all = input.len();
    if all < 3 {
        return all;
    }
    let end = 3 + base::number::<2>(input, 1) as usize;
    end.min(all)
}

#[tactic(auto, unfolding(rules::specs::Desk::desk_text, base::specs::Refusals::refusal, base::specs::Refusals::said, base::specs::Refusals::number_of))]
fn input_text(paper: &mut Paper, input: &[u8])
    requires { HasRoom text_room paper.old }
    ensures { Printed (page.desk_text input.now) paper.old paper.new }
{
    if MOST_INPUT < input.len() {
        return print_refusal(paper, b"input ", Reason::TooLongAnInput.at(MOST_INPUT));
    }
    let (table, log) = input.split_at(table_end(input));
    session_text(paper, table, log);
}

// What the desk prints for any input, at the start of a buffer of at least 18,710 bytes; how many bytes there are of it.
#[tactic(auto, using(crate::proofs::Printed::text_counted, crate::proofs::Printed::text_held), unfolding(crate::specs::TextAnswered::text_length, crate::specs::TextAnswered::with_text))]
pub fn desk_text(input: &[u8], out: &mut [u8]) -> usize
    ensures length { result ≡ text_length input.now out.old }
    ensures text { out.new ≡ with_text input.now out.old }
    ensures within { result ≤ length out.new }
{
    // A count of bytes, since C calls this, and 0 where there is no room.
    if out.len() < TEXT_ROOM {
        return 0;
    }
    let mut paper = Paper::new(out);
    input_text(&mut paper, input);
    paper.printed().len()
}
