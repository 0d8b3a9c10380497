// The two files of a session, read in the one order in which every call takes them: the table, then the log over its lines.
#![tactic(auto)]

ghost use Rattle.std.specs.Prelude.{◌≡◌, IfOk, IfErr};
ghost use Rattle.rules.specs.Files.{one_refused, read_files};
ghost use Rattle.rules.specs.Verdicts.{verdict_said, answer_in};
ghost use Rattle.files.specs.FilesTaken.{FilesTaken, told};

use rules::{Refused, Table};

// What both files hold: the table, and the session's wall ticks.
#[derive(Clone, Copy)]
pub struct Files {
    pub table: Table,
    pub horizon: u32,
}

// Any bytes as table and log. They stay two parameters, here and above: C hands them over as two, and a struct of two slices is no plainer.
pub fn read_files(table: &[u8], log: &[u8]) -> Result<Files, Refused>
    ensures whole { answer_in result ≡ told (read_files table.now log.now) }
    ensures taken { IfOk result (λ files. FilesTaken table.now log.now files) }
    ensures refused { IfErr result (λ why. read_files table.now log.now ≡ one_refused (verdict_said why)) }
{
    let table = table::read_table(table).map_err(Refused::Table)?;
    let answer = arrivals::read_log(table, log).map_err(Refused::Log)?;
    Ok(Files {
        table,
        horizon: answer.horizon,
    })
}
