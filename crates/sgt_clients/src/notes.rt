//! What a check of what clients saw takes for something else, and what is said of that beside its output.

use crate::clients::Clients;
use crate::entry::Kind;
use serde_json::Value;
use sgt_appends::Status;
use sgt_format::items;
use std::fmt::{self, Display, Formatter};

/// What a check takes for something else. No contract speaks of it.
#[derive(Clone, Copy)]
pub struct Notes {
    /// How many reads of transactions that committed are null: taken for reads of the empty list.
    pub nulls: usize,
    /// How many ends have no invocation, while others have one: taken for transactions by themselves.
    pub alone: usize,
    /// The line of the first of these ends.
    pub line: u64,
}

impl Notes {
    /// Nothing is taken for something else.
    pub fn none() -> Self {
        Notes {
            nulls: 0,
            alone: 0,
            line: 0,
        }
    }

    /// What is taken for something else of what clients saw.
    pub(crate) fn of(clients: &Clients) -> Self {
        let alone = if clients.invoked {
            clients.alone.as_slice()
        } else {
            &[]
        };
        Notes {
            nulls: clients.nulls,
            alone: alone.len(),
            line: alone.first().map_or(0, |first| first.line),
        }
    }

    /// Whether nothing is.
    pub fn is_none(self) -> bool {
        self.nulls == 0 && self.alone == 0
    }
}

impl Display for Notes {
    fn fmt<W: fmt::Write>(&self, f: &mut Formatter<W>) -> fmt::Result {
        match self.nulls {
            0 => (),
            1 => f.write_str("1 committed read is null, and taken for the empty list")?,
            nulls => write!(
                f,
                "{nulls} committed reads are null, and taken for the empty list"
            )?,
        }
        if self.nulls > 0 && self.alone > 0 {
            f.write_str("\n")?;
        }
        let line = self.line;
        match self.alone {
            0 => Ok(()),
            1 => write!(
                f,
                "the end in line {line} has no invocation, and is taken for a transaction by itself"
            ),
            alone => write!(
                f,
                "{alone} ends have no invocation, the first in line {line}: each is taken for a transaction by itself"
            ),
        }
    }
}

/// How many reads of an entry of this kind are null, if its transaction committed.
pub(crate) fn nulls_in(tree: &Value, kind: Kind) -> usize {
    let Kind::Ended(Status::Committed) = kind else {
        return 0;
    };
    let operations = tree
        .get("value")
        .and_then(|value| items(value))
        .unwrap_or(&[]);
    operations
        .iter()
        .filter(|operation| is_null_read(operation))
        .count()
}

/// Whether an operation is a read of null.
fn is_null_read(operation: &Value) -> bool {
    match items(operation) {
        Some([word, _, Value::Null]) => matches!(word.as_str(), Some("r")),
        _ => false,
    }
}
