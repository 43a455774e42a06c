//! The records of the lines after an opening, added to its database.
ghost use Rattle.std.specs.Prelude.{◌≡◌, ◌≢◌, IfOk, IfErr, OnOk, OnErr, IfSome, IsSome, IsNone, Err, None, false, ◌+◌, ◌^◌, ◌<◌, ◌≤◌};
ghost use Rattle.std.specs.Io.KnownBytes.{Consumes, Keeps};
ghost use Rattle.sgt_model.specs.Databases.{contents_of};
ghost use Rattle.sgt_input.specs.Lines.{has_break};
ghost use Rattle.sgt_input.specs.Intake.{NoLineCame, bytes_left, come, cut_left, taken};
ghost use Rattle.sgt_input.specs.Ends.{IsOfInput};
ghost use Rattle.sgt_input.specs.Records.{CantPut, GivesRecord, IsAhead, IsBadRecord, LeadsNone, Leaves, Passes, PutsNew, ReadsRecords, Stays};

use crate::fault::Fault;
use crate::lines::Lines;
use crate::source::Source;
use sgt_format::{Opening, RecordLine, read_record_line};
use sgt_rows::Rows;
use std::alloc::Global;

/// The next line, if it is a record line. It does not move to that line.
fn record_ahead<S: Source>(
    alloc: Global,
    lines: &mut Lines,
    source: &mut S,
) -> Result<Option<RecordLine>, Fault>
    requires { S.failures source.old + 1 < 2 ^ 64 }
    ensures some { IfOk result (λ found. IfSome found (λ said.
        IsAhead said (cut_left lines.old (S.rest source.old)))) }
    ensures none { IfOk result (λ found. IsNone found →
        LeadsNone (cut_left lines.old (S.rest source.old))) }
    ensures bytes { Keeps
        (bytes_left lines.old (S.rest source.old)) (bytes_left lines.new (S.rest source.new)) }
    ensures within { lines.new.within ≡ lines.old.within }
    ensures number { lines.new.number ≡ lines.old.number }
    ensures ended { lines.new.ended ≡ false → lines.old.ended ≡ false }
    ensures unread { result ≡ Err Fault.Reading →
        NoLineCame lines.old (S.rest source.old) lines.new (S.rest source.new) }
    ensures come { S.given source.new + come lines.old ≤ S.given source.old + come lines.new }
    ensures few { come lines.new ≤ 4294967297 }
    ensures own { IfErr result (λ f. ¬ IsOfInput f) }
    ensures writing { result ≢ Err Fault.Writing }
    ensures well { result ≢ Err Fault.Reading → S.failures source.new ≡ S.failures source.old }
    ensures failed { result ≡ Err Fault.Reading →
        S.failures source.new ≡ S.failures source.old + 1 }
{
    match lines.fill(source) {
        Ok(()) => (),
        Err(Fault::Reading) => return Err(Fault::Reading),
        Err(_) => return Ok(None),
    }
    match lines.ahead() {
        Some(line) => Ok(read_record_line(alloc, line)?),
        None => Ok(None),
    }
}

/// Moves to the next line if it is a record line, and returns what it says. Any other line is left.
fn next_record<S: Source>(
    alloc: Global,
    lines: &mut Lines,
    source: &mut S,
) -> Result<Option<RecordLine>, Fault>
    requires { S.failures source.old + 1 < 2 ^ 64 }
    ensures some { IfOk result (λ found. IfSome found (λ said. GivesRecord
        (cut_left lines.old (S.rest source.old)) lines.new.line said (cut_left lines.new (S.rest source.new)))) }
    ensures none { IfOk result (λ found. IsNone found →
        LeadsNone (cut_left lines.old (S.rest source.old))
        × Stays (cut_left lines.old (S.rest source.old)) (cut_left lines.new (S.rest source.new))
        × Keeps (bytes_left lines.old (S.rest source.old)) (bytes_left lines.new (S.rest source.new))
        × (lines.new.number ≡ lines.old.number)) }
    ensures taken { IfOk result (λ found. IsSome found → Consumes
        (bytes_left lines.old (S.rest source.old)) (bytes_left lines.new (S.rest source.new))
        (taken lines.new)) }
    ensures unbroken { IfOk result (λ found. IsSome found → has_break lines.new.line ≡ false) }
    ensures number { IfOk result (λ found. IsSome found → lines.new.number ≡ lines.old.number + 1) }
    ensures nearer { IfOk result (λ found. IsSome found → lines.new.within < lines.old.within) }
    ensures ended { lines.new.ended ≡ false → lines.old.ended ≡ false }
    ensures unread { result ≡ Err Fault.Reading →
        NoLineCame lines.old (S.rest source.old) lines.new (S.rest source.new) }
    ensures come { S.given source.new + come lines.old ≤ S.given source.old + come lines.new }
    ensures few { come lines.new ≤ 4294967297 }
    ensures own { IfErr result (λ f. IsOfInput f →
        cut_left lines.old (S.rest source.old) ≡ None) }
    ensures writing { result ≢ Err Fault.Writing }
    ensures well { result ≢ Err Fault.Reading → S.failures source.new ≡ S.failures source.old }
    ensures failed { result ≡ Err Fault.Reading →
        S.failures source.new ≡ S.failures source.old + 1 }
{
    let Some(said) = record_ahead(alloc, lines, source)? else {
        return Ok(None);
    };
    if !lines.next_line(source)? {
        return Ok(None);
    }
    Ok(Some(said))
}

/// Adds the record that the line of this number says.
fn put_record(rows: &mut Rows, said: &RecordLine, number: u64) -> Result<(), Fault>
    ensures put { OnOk result (PutsNew (contents_of rows.old) said.now (contents_of rows.new)) }
    ensures bad { IfErr result (λ f. (f ≢ Fault.NoMemory) →
        (f ≡ Fault.BadRecord number) × CantPut (contents_of rows.old) said.now) }
    ensures own { (result ≢ Err Fault.Reading) × (result ≢ Err Fault.Writing) }
{
    let Some(record) = said.record() else {
        return Err(Fault::BadRecord(number));
    };
    if !rows.put_new(record.key, record.value)? {
        return Err(Fault::BadRecord(number));
    }
    Ok(())
}

/// Adds the records of the record lines that come next to the opening's database. The first other line is left for
/// `next_line`. The records may come in any order: each costs a search, and none moves another.
///
/// # Errors
///
/// - `BadRecord`: the first line that adds a record whose key or value is out of range, or whose key already has a
///   value.
/// - `Reading`: a read failed.
/// - `NoMemory`: an allocation failed.
///
/// Any other fault of the input is left to `next_line`.
pub fn read_records<S: Source>(
    alloc: Global,
    lines: &mut Lines,
    source: &mut S,
    opening: Opening,
) -> Result<Opening, Fault>
    requires countable { S.failures source.old + 1 < 2 ^ 64 }
    requires few { come lines.old ≤ 4294967297 }
    ensures limits { IfOk result (λ o. o.limits ≡ opening.limits) }
    ensures procedures { IfOk result (λ o. o.procedures ≡ opening.procedures) }
    ensures filled { IfOk result (λ o. Leaves
        lines.old.number (contents_of opening.database) (cut_left lines.old (S.rest source.old))
        lines.new.number (contents_of o.database) (cut_left lines.new (S.rest source.new))) }
    ensures fault { IfErr result (λ f. IsOfInput f → IsBadRecord f
        lines.old.number (contents_of opening.database) (cut_left lines.old (S.rest source.old))) }
    ensures passed { OnOk result (lines.new.ended ≡ false → Passes
        lines.old.number (bytes_left lines.old (S.rest source.old))
        lines.new.number (bytes_left lines.new (S.rest source.new))) }
    ensures unread { result ≡ Err Fault.Reading → (lines.old.ended ≡ false)
        × ReadsRecords (bytes_left lines.old (S.rest source.old)) (S.rest source.new) }
    ensures ended { lines.new.ended ≡ false → lines.old.ended ≡ false }
    ensures come { S.given source.new + come lines.old ≤ S.given source.old + come lines.new }
    ensures few { come lines.new ≤ 4294967297 }
    ensures writing { result ≢ Err Fault.Writing }
    ensures well { result ≢ Err Fault.Reading → S.failures source.new ≡ S.failures source.old }
    ensures failed { result ≡ Err Fault.Reading →
        S.failures source.new ≡ S.failures source.old + 1 }
{
    let Opening {
        limits,
        database,
        procedures,
    } = opening;
    let mut rows = Rows::of(alloc, database);
    while let Some(said) = next_record(alloc, lines, source)? {
        put_record(&mut rows, &said, lines.number())?;
    }
    let database = rows.database(alloc)?;
    Ok(Opening {
        limits,
        database,
        procedures,
    })
}
