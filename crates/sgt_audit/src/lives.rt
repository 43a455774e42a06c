//! What a history says of each transaction.
ghost use Rattle.std.specs.Prelude.{◌≡◌, ℕ, ◌<◌, Bool, true, cond, nat_eq, List, [], ◌∷◌, ◌++◌, OnOk, length, slice_get, vec_len};
ghost use Rattle.std.specs.List.{list_any};
ghost use Rattle.std.specs.Option.{option_map};
ghost use Rattle.sgt_model.specs.declared.entry.Entry.{Entry};
ghost use Rattle.sgt_model.specs.Fates.{ending_in};
ghost use Rattle.sgt_model.specs.Configurations.{Configuration};
ghost use Rattle.sgt_model.specs.Legality.{Legal, LegalReply};
ghost use Rattle.sgt_audit.specs.Lives.{AreLives, started_life, ended_life, life_after};

use sgt_log::EntryRef;
use sgt_model::{NoMemory, Tid};

/// What a history says of one transaction.
#[derive(Drop)]
pub struct Life {
    /// The entry that started the transaction. Its event has the procedure and the arguments.
    pub started: usize,
    /// The entry that ended it, if any.
    pub ended: Option<usize>,
    /// Whether it was aborted by a cycle or in cascade.
    pub failed: bool,
}

/// Adds what the entry with this number says.
pub fn add_entry(lives: &mut Vec<Life>, number: usize, entry: &EntryRef<'_>) -> Result<(), NoMemory>
    ensures { (s : Configuration) (past : List Entry) → LegalReply s past entry.now.event entry.now.reply
        → Legal s past → length past ≡ number → AreLives past lives.old.items
        → OnOk result (AreLives (entry.now ∷ past) lives.new.items) }
{
    if entry.is_start() {
        return add_started(lives, number);
    }
    end_those(lives, number, entry);
    Ok(())
}

/// Adds the row of the transaction that the entry with this number started.
fn add_started(lives: &mut Vec<Life>, number: usize) -> Result<(), NoMemory>
    ensures { OnOk result (lives.new.items ≡ lives.old.items ++ started_life number ∷ []) }
{
    lives.push(Life {
        started: number,
        ended: None,
        failed: false,
    })?;
    Ok(())
}

/// Ends the rows of the transactions that this entry ended.
fn end_those(lives: &mut Vec<Life>, number: usize, entry: &EntryRef<'_>)
    ensures rows { (t : ℕ) → slice_get lives.new.items t
        ≡ option_map (life_after number (ending_in entry.now.event entry.now.reply t)) (slice_get lives.old.items t) }
    ensures count { vec_len lives.new ≡ vec_len lives.old }
{
    if entry.is_ending() {
        end_fallen(lives, number, entry.fell());
        if let Some(t) = entry.named() {
            end_one(lives, number, t, entry.is_by_cycle());
        }
    }
}

/// Ends the rows of the transactions that were aborted in cascade by this entry.
fn end_fallen(lives: &mut Vec<Life>, number: usize, fell: &[Tid])
    ensures rows { (t : ℕ) → slice_get lives.new.items t
        ≡ option_map (λ life. cond (list_any (λ u. nat_eq u t) fell.now) (ended_life number true life) life)
        (slice_get lives.old.items t) }
    ensures count { vec_len lives.new ≡ vec_len lives.old }
{
    for t in fell {
        end_one(lives, number, *t, true);
    }
}

/// Ends the row of a transaction.
fn end_one(lives: &mut Vec<Life>, number: usize, ended: Tid, failed: bool)
    ensures rows { (t : ℕ) → slice_get lives.new.items t
        ≡ option_map (λ life. cond (nat_eq ended t) (ended_life number failed life) life)
        (slice_get lives.old.items t) }
    ensures count { vec_len lives.new ≡ vec_len lives.old }
{
    let at = ended.0 as usize;
    if at < lives.len() {
        lives[at].ended = Some(number);
        lives[at].failed = failed;
    }
}
