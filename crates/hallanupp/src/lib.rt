// The C boundary: thin functions over the proved readers. include/hallanupp.h documents each for its callers.
#![tactic(auto)]

ghost use Rattle.std.specs.Prelude.{◌≡◌};
ghost use Rattle.rules.specs.Files.{files_verdict};
ghost use Rattle.rules.specs.Verdicts.{verdict_said};
ghost use Rattle.hallanupp.specs.VerdictInC.{table_verdict, in_c};
ghost use Rattle.hallanupp.specs.Version.{version};

use rules::Refused;

mod panels;
mod parts;
mod sessions;
mod texts;

// The library's version, 1.0.0: major times 1,000,000, plus minor times 1,000, plus patch.
const VERSION: u32 = 1000000;

// What is refused: 0 nothing, 1 the booth table, 2 the arrival log, 3 the call itself; then number and place. Numbers, since C reads them.
#[repr(C)]
#[derive(Clone, Copy)]
pub struct CVerdict {
    pub refused: u32,
    pub number: u32,
    pub place: u64,
}

// Nothing is refused.
const ACCEPTED: CVerdict = CVerdict {
    refused: 0,
    number: 0,
    place: 0,
};

impl From<Refused> for CVerdict {
    ghost from_gives = { λ why verdict. verdict ≡ in_c (verdict_said why) };

    fn from(why: Refused) -> Self {
        let (refused, refusal) = match why {
            Refused::Table(refusal) => (1, refusal),
            Refused::Log(refusal) => (2, refusal),
            Refused::Call(refusal) => (3, refusal),
        };
        CVerdict {
            refused,
            number: refusal.reason.number(),
            // `as`, since there is no From from usize to u64.
            place: refusal.place as u64,
        }
    }
}

#[unsafe(no_mangle)]
pub extern "C" fn hallanupp_version() -> u32
    ensures { result ≡ version }
{
    VERSION
}

#[unsafe(no_mangle)]
pub extern "C" fn hallanupp_table_verdict(table: &[u8]) -> CVerdict
    ensures { result ≡ in_c (table_verdict table.now) }
{
    // This and the two functions like it keep their two arms: one over every `Result` would be generic for three lines.
    match table::read_table(table) {
        Ok(_) => ACCEPTED,
        Err(refusal) => CVerdict::from(Refused::Table(refusal)),
    }
}

#[unsafe(no_mangle)]
pub extern "C" fn hallanupp_files_verdict(table: &[u8], log: &[u8]) -> CVerdict
    ensures { result ≡ in_c (files_verdict table.now log.now) }
{
    match files::read_files(table, log) {
        Ok(_) => ACCEPTED,
        Err(why) => CVerdict::from(why),
    }
}
