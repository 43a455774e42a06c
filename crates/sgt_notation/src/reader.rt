//! Reading a text as a history.
ghost use Rattle.std.specs.Prelude.{◌≡◌, ◌<◌, ◌≤◌, ◌+◌, ◌^◌, ◌∷◌, ◌++◌, [], ℕ, List, length, IfOk, IfErr, OnOk};
ghost use Rattle.sgt_classes.specs.declared.operation.Operation.{Operation};
ghost use Rattle.sgt_classes.specs.Histories.{EndedBefore};
ghost use Rattle.sgt_classes.specs.Tables.{entry_of};
ghost use Rattle.sgt_notation.specs.Words.{words_of};
ghost use Rattle.sgt_notation.specs.Spellings.{IsSpelled};
ghost use Rattle.sgt_notation.specs.Readings.{AreRead, IsFaultAt, IsFirstFault, texts};
ghost use Rattle.sgt_notation.specs.Numbering.{KnowsHistory, KnowsItems, KnowsEnds, is_end, texts_of, TakesWord};

use crate::fault::{NotationFault, Shown};
use crate::history::History;
use crate::items::Items;
use crate::spelled::{Spelled, read_word};
use crate::words::{Position, next_word, word_end};
use sgt_classes::{Action, Operation, Table};
use sgt_model::NoMemory;
use std::alloc::Global;

/// About how many bytes an operation has. It affects only the memory for the numbers of transactions.
const BYTES: usize = 8;

/// The history that the text spells. Each item has a number of its own.
///
/// An operation costs a hash lookup among the items' texts, and two lookups among the transactions that have ended.
/// The hash has no secret: the author of a text can choose items whose lookups are slow.
///
/// # Errors
///
/// - `NoOperation` at the first word that spells no operation, or `Ended` at the first operation of a transaction
///   that has ended, whichever comes first.
/// - `NoMemory` if an allocation failed.
pub fn read_history(alloc: Global, text: &[u8]) -> Result<History, NotationFault>
    requires { length text.now < 2 ^ 32 }
    ensures ok { IfOk result (λ h. AreRead (words_of text.now) (texts h) h.operations.items) }
    ensures err { IfErr result (IsFirstFault (words_of text.now)) }
{
    let mut reader = HistoryReader::new(alloc, text.len() / BYTES);
    let mut place = next_word(text, Position { at: 0, line: 1 });
    while place.at < text.len() {
        let end = word_end(text, place.at, place.line);
        reader.take(alloc, place.line, &text[place.at..end])?;
        place = next_word(
            text,
            Position {
                at: end,
                line: place.line,
            },
        );
    }
    Ok(History {
        operations: reader.operations,
        items: reader.items.texts,
    })
}

/// What has been read of a text.
#[derive(Drop)]
pub(crate) struct HistoryReader {
    operations: Vec<Operation>,
    items: Items,
    /// The position at which a transaction has ended.
    ended: Table,
}

impl HistoryReader {
    /// Nothing has been read. Transactions with numbers below the bound are found by index.
    pub fn new(alloc: Global, bound: usize) -> Self
        ensures known { KnowsHistory result }
        ensures no_operations { result.operations.items ≡ [] }
        ensures no_items { texts_of result.items ≡ [] }
    {
        HistoryReader {
            operations: Vec::new(alloc),
            items: Items::new(alloc),
            ended: Table::new(alloc, bound),
        }
    }

    /// Reads the next word, from the line with this number.
    ///
    /// # Errors
    ///
    /// The error of the word, or `NoMemory`. Read nothing more then.
    pub fn take(&mut self, alloc: Global, line: u64, word: &[u8]) -> Result<(), NotationFault>
        requires few { length (texts_of self.old.items) + 1 < 2 ^ 32 }
        requires known { KnowsHistory self.old }
        ensures known { OnOk result (KnowsHistory self.new) }
        ensures taken { OnOk result (TakesWord self.old self.new word.now) }
        ensures few { OnOk result (length (texts_of self.new.items) ≤ length (texts_of self.old.items) + 1) }
        ensures fault { IfErr result (IsFaultAt self.old.operations.items (record { line = line; text = word.now })) }
    {
        let Some(spelled) = read_word(word) else {
            return Err(NotationFault::NoOperation(line, Shown::of(alloc, word)?));
        };
        let transaction = spelled.operation.transaction;
        if self.ended.contains_key(transaction) {
            return Err(NotationFault::Ended(line, transaction));
        }
        let action = self.numbered(alloc, &spelled)?;
        self.note(Operation {
            transaction,
            action,
        })?;
        Ok(())
    }

    /// What the operation does, on the item by its number here.
    fn numbered(&mut self, alloc: Global, spelled: &Spelled) -> Result<Action, NoMemory>
        requires few { length (texts_of self.old.items) + 1 < 2 ^ 32 }
        requires known { KnowsItems self.old.items }
        ensures known { OnOk result (KnowsItems self.new.items) }
        ensures kept { OnOk result ((more : List (List ℕ)) × (texts_of self.new.items ≡ texts_of self.old.items ++ more)) }
        ensures few { OnOk result (length (texts_of self.new.items) ≤ length (texts_of self.old.items) + 1) }
        ensures same { (self.new.operations ≡ self.old.operations) × (self.new.ended ≡ self.old.ended) }
        ensures spelled { IfOk result (λ a. (word : List ℕ) → IsSpelled word (spelled.now.item.now ∷ []) spelled.now.operation
            → IsSpelled word (texts_of self.new.items) (record { transaction = spelled.now.operation.transaction; action = a })) }
    {
        match spelled.operation.action {
            Action::Read(_) => Ok(Action::Read(self.items.number(alloc, spelled.item)?)),
            Action::Write(_) => Ok(Action::Write(self.items.number(alloc, spelled.item)?)),
            Action::Commit => Ok(Action::Commit),
            Action::Abort => Ok(Action::Abort),
        }
    }

    /// Records the operation. If it is an end, its transaction has ended.
    fn note(&mut self, operation: Operation) -> Result<(), NoMemory>
        requires ends { KnowsEnds self.old.operations.items (entry_of self.old.ended) }
        ensures operations { OnOk result (self.new.operations.items ≡ self.old.operations.items ++ operation ∷ []) }
        ensures items { self.new.items ≡ self.old.items }
        ensures ends { OnOk result (KnowsEnds self.new.operations.items (entry_of self.new.ended)) }
    {
        note_end(&mut self.ended, operation, self.operations.len())?;
        self.operations.push(operation)?;
        Ok(())
    }
}

/// Whether the action ends its transaction.
fn is_end(action: &Action) -> bool
    ensures { result ≡ is_end action.now }
{
    matches!(action, Action::Commit | Action::Abort)
}

/// Records that the operation's transaction has ended at the position, if the operation is an end.
fn note_end(ended: &mut Table, operation: Operation, place: usize) -> Result<(), NoMemory>
    ensures { OnOk result ((before : List Operation) → KnowsEnds before (entry_of ended.old)
        → KnowsEnds (before ++ operation ∷ []) (entry_of ended.new)) }
{
    if !is_end(&operation.action) {
        return Ok(());
    }
    ended.set_place(operation.transaction, place)?;
    Ok(())
}
