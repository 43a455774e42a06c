//! Laws of the formats. The body of a law does nothing: the law is its contract.
ghost use Rattle.sgt_format.specs.WrittenRecords.{WrittenRecordsAreRead};

/// The record lines written of a database are read as its records: the output of one run can open the next.
pub fn written_records_are_read()
    ensures { WrittenRecordsAreRead }
{}
