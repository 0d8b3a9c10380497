// What the desk prints, line by line, on a lent buffer.
#![tactic(auto)]

ghost use Rattle.std.specs.Prelude.{◌≡◌, map, ◌+◌, ◌≤◌, length, take};
ghost use Rattle.rules.specs.Desk as page;
ghost use Rattle.base.specs.Refusals.{refusal};
ghost use Rattle.printing.specs.Room.{most_digits, refused_room, booth_room};

use itoa::Buffer;
use rules::BOOTHS_ALLOWED;

// Booths and tasks are below it; `as`, since From is not called in a constant.
const NO_BOOTH: u8 = BOOTHS_ALLOWED as u8;

// A byte of a record as the page prints it: a rule of its own, and no conversion of the library's.
#[tactic(auto, unfolding(rules::specs::Desk::letter))]
fn letter(byte: u8) -> u8
    ensures { result ≡ page.letter byte }
{
    if byte < NO_BOOTH { b'0' + byte } else { b'.' }
}

// A lent buffer with what is printed so far, and where the next piece goes.
// Its pieces are put one by one: `write!` may answer an error, and no clause of it says that it has none where there is room.
#[derive(Drop)]
pub struct Paper<'a> {
    out: &'a mut [u8],
    at: usize,
    pub ghost inside: { at ≤ length out.now },
}

// Bytes laid over a part that is as long. One by one, since the library's `copy_from_slice` calls `memmove`, and the archive for C asks
// for nothing from outside but `memcpy` and `memset`.
fn lay_over(part: &mut [u8], bytes: &[u8])
    requires { length part.old ≡ length bytes.now }
    ensures { part.new ≡ bytes.now }
{
    for (i, byte) in bytes.iter().enumerate() {
        part[i] = *byte;
    }
}

impl<'a> Paper<'a> {
    ghost use Rattle.printing.specs.Printed.{HasRoom, Printed};

    // Nothing is printed yet.
    pub fn new(out: &'a mut [u8]) -> Paper<'a>
        ensures same_buffer { result.out.ghost_name ≡ out.entry.ghost_name }
        ensures as_lent { result.out.now ≡ out.old }
        ensures at_start { result.at ≡ 0 }
    {
        Paper { out, at: 0 }
    }

    // What is printed so far.
    pub fn printed(&self) -> &[u8]
        ensures { result.now ≡ take self.now.at self.now.out.now }
    {
        &self.out[..self.at]
    }

    // Bytes as they are.
    fn put(&mut self, bytes: &[u8])
        requires { HasRoom (length bytes.now) self.old }
        ensures { Printed bytes.now self.old self.new }
    {
        let end = self.at + bytes.len();
        lay_over(&mut self.out[self.at..end], bytes);
        self.at = end;
    }

    // A record or a row, a letter for each byte.
    fn put_letters(&mut self, kept: &[u8])
        requires { HasRoom (length kept.now) self.old }
        ensures { Printed (map page.letter kept.now) self.old self.new }
    {
        let end = self.at + kept.len();
        let part = &mut self.out[self.at..end];
        part.copy_from_slice(kept);
        // Over a `zip` of `part.iter_mut()` with `kept` nothing is known of what `part` holds in the end.
        for byte in part.iter_mut() {
            *byte = letter(*byte);
        }
        self.at = end;
    }

    // The decimal digits of n.
    #[tactic(auto, using(crate::proofs::Digits::decimal_is))]
    fn put_number(&mut self, n: usize)
        requires { HasRoom most_digits self.old }
        ensures { Printed (page.decimal n) self.old self.new }
    {
        self.put(Buffer::new().format(n).as_bytes());
    }

    // A word and its number.
    fn put_labelled(&mut self, word: &[u8], n: usize)
        requires { HasRoom (length word.now + most_digits) self.old }
        ensures { Printed (page.labelled word.now n) self.old self.new }
    {
        self.put(word);
        self.put_number(n);
    }

    #[tactic(auto, using(crate::proofs::Digits::labelled_length))]
    pub fn number_line(&mut self, word: &[u8], n: usize)
        requires { HasRoom (length word.now + most_digits + 1) self.old }
        ensures { Printed (page.number_line word.now n) self.old self.new }
    {
        self.put_labelled(word, n);
        self.put(b"\n");
    }

    pub fn record_line(&mut self, word: &[u8], kept: &[u8])
        requires { HasRoom (length word.now + length kept.now + 1) self.old }
        ensures { Printed (page.record_line word.now kept.now) self.old self.new }
    {
        self.put(word);
        self.put_letters(kept);
        self.put(b"\n");
    }

    // A number and a place, as the page has them, and no `base::Refusal`: a line is promised of any number.
    #[tactic(auto, using(crate::proofs::Digits::labelled_length))]
    pub fn refused_line(&mut self, what: &[u8], number: u32, place: usize)
        requires { HasRoom (length what.now + refused_room) self.old }
        ensures { Printed (page.refused_line what.now (refusal number place)) self.old self.new }
    {
        self.put(b"refused ");
        // `as`, since there is no From from u32 to usize.
        self.put_labelled(what, number as usize);
        self.number_line(b" at ", place);
    }

    #[tactic(auto, using(crate::proofs::Digits::labelled_length))]
    pub fn booth_line(&mut self, booth: usize, clock: usize, worked: usize, row: &[u8])
        requires { HasRoom (booth_room + length row.now) self.old }
        ensures { Printed (page.booth_line booth clock worked row.now) self.old self.new }
    {
        self.put_labelled(b"booth ", booth);
        self.put_labelled(b" own ", clock);
        self.put_labelled(b" worked ", worked);
        self.record_line(b" ", row);
    }
}
