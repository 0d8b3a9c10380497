// What every part of the product needs and no edition of its files changes: refusals, and bytes as numbers.
#![tactic(auto)]

ghost use Rattle.std.specs.Prelude.{◌≡◌, ◌+◌, ◌^◌, ◌≤◌, ◌<◌, length};
ghost use Rattle.base.specs.Bytes.{number_at};
ghost use Rattle.base.specs.Refusals.{number_of};

// Why a file or a call is refused, each with the number that the box answers.
#[derive(Clone, Copy, PartialEq, Eq)]
pub enum Reason {
    BytesMissing = 1,
    WrongVersion = 2,
    BytesLeftOver = 3,
    TooFewOrMany = 4,
    WrongLengthByte = 5,
    OutOfRange = 6,
    NotAdmitted = 7,
    WrongTick = 8,
    NoSuchBoothOrTask = 9,
    WrongDemand = 10,
    DoesNotFit = 11,
    TooLongAnInput = 12,
}

// A reason and the place that it is said of.
#[derive(Clone, Copy, PartialEq, Eq)]
pub struct Refusal {
    pub reason: Reason,
    pub place: usize,
}

impl Reason {
    // The number of document 01.
    pub fn number(self) -> u32
        ensures { result ≡ number_of self }
    {
        // The cases are numbered, and a case is cast to its number by `as` alone.
        self as u32
    }

    // The refusal of this place.
    pub fn at(self, place: usize) -> Refusal
        ensures { result ≡ record { reason = self; place = place } }
    {
        Refusal {
            reason: self,
            place,
        }
    }
}

// The number in the `WIDTH` bytes from `at`, the first of which weighs most. What two and four bytes are is told to the check,
// so that it refuses a wrong one for its value.
#[tactic(auto, using(crate::proofs::BigEndian::two_bytes, crate::proofs::BigEndian::four_bytes))]
pub fn number<const WIDTH: usize>(bytes: &[u8], at: usize) -> u32
    requires { (WIDTH ≤ 4) × (at + WIDTH ≤ length bytes.now) }
    ensures { (result ≡ number_at WIDTH bytes.now at) × (result < 256 ^ WIDTH) }
{
    let mut n = 0;
    for byte in &bytes[at..at + WIDTH] {
        n = n * 256 + u32::from(*byte);
    }
    n
}
