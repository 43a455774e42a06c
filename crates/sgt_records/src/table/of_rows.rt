//! The records of the rows of a database.
ghost use Rattle.std.specs.Prelude.{◌≡◌, IfOk, option_map};
ghost use Rattle.sgt_model.specs.Contents.{Key};
ghost use Rattle.sgt_model.specs.Databases.{contents_of, IsByKey};
ghost use Rattle.sgt_records.specs.RowRecords.{record_with};
ghost use Rattle.sgt_records.specs.Tables.{record_in};

use crate::hints::Hints;
use crate::record::Record;
use crate::table::Table;
use crate::written::Written;
use sgt_model::{Key, NoMemory};
use std::alloc::Global;
use std::collections::BTreeMap;

impl Table {
    /// The records of rows that are sorted by key, with nothing written above them. It reads each row once, and searches for
    /// none.
    ///
    /// `NoMemory` if an allocation failed.
    pub fn of(alloc: Global, rows: &[(Key, i64)]) -> Result<Table, NoMemory>
        requires { IsByKey rows.now }
        ensures { IfOk result (λ t. (k : Key) → record_in t k ≡ option_map record_with (contents_of rows.now k)) }
    {
        let mut records = Vec::with_capacity(alloc, rows.len())?;
        let mut keys = Vec::with_capacity(alloc, rows.len())?;
        let mut places = Vec::with_capacity(alloc, rows.len())?;
        for (index, row) in rows.iter().enumerate() {
            records.push_reserved(Record {
                committed: Some(row.1),
                written: Written::Nothing,
            });
            keys.push_reserved(row.0);
            places.push_reserved((row.0, index));
        }
        let hints = Hints::of(alloc, keys.as_slice())?;
        Ok(Table {
            indices: BTreeMap::from_iter(alloc, places)?,
            records,
            keys,
            hints,
        })
    }
}
