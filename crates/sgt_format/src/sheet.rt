//! The parts of an opening's tree: limits, accounts and procedures.
ghost use Rattle.std.specs.Prelude.{◌≡◌, IfOk, IfSome, IsNone, codes, map, option_and_then, option_map};
ghost use Rattle.serde_json.specs.Find.{get};
ghost use Rattle.serde_json.specs.View.{view};
ghost use Rattle.sgt_model.specs.declared.limits.Limits.{Limits};
ghost use Rattle.sgt_format.specs.Trees.{each};
ghost use Rattle.sgt_model.specs.declared.limits.Asks.{Asks};
ghost use Rattle.sgt_format.specs.Openings.{limits_from, limit_numbers, list_at, account_from, account_in, parts_in, AreAsks, AreLimits};

use crate::event_line::arguments;
use crate::tree::items;
use serde_json::Value;
use sgt_model::{Asks, Limits, NoMemory};
use sgt_smallbank::Account;
use std::alloc::Global;

/// The numbers of an opening's limits, as a line spells them: in their ranges or not.
#[derive(Clone, Copy)]
pub(crate) struct LimitNumbers {
    /// The most transactions that may be live at once.
    pub live: i64,
    /// The most starts.
    pub begins: i64,
    /// When codes are reported: 0, also if the line has no third limit, at the step; 1 at commit.
    pub asks: i64,
}

/// The numbers of the limits, and the trees of the accounts and of the procedures.
#[tactic(auto, using(crate::proofs::Shapes::count_members))]
pub(crate) fn parts(tree: &Value) -> Option<(LimitNumbers, &[Value], &[Value])>
    ensures { option_map (λ p. (p.0, map view p.1.now, map view p.2.now)) result
        ≡ parts_in (view tree.now) }
{
    if tree.as_object()?.len() != 3 {
        return None;
    }
    let limits = limits_in(tree)?;
    let accounts = list_at(tree, "accounts")?;
    let procedures = list_at(tree, "procedures")?;
    Some((limits, accounts, procedures))
}

/// The numbers at the name `limits`.
fn limits_in(tree: &Value) -> Option<LimitNumbers>
    ensures { result ≡ option_and_then limit_numbers (get (codes "limits") (view tree.now)) }
{
    limit_numbers(tree.get("limits")?)
}

/// The items of the list at a name.
fn list_at<'a>(tree: &'a Value, name: &str) -> Option<&'a [Value]>
    ensures { option_map (λ items. map view items.now) result ≡ list_at name.now (view tree.now) }
{
    items(tree.get(name)?)
}

#[tactic(auto, using(crate::proofs::Shapes::limits_by_arguments))]
fn limit_numbers(tree: &Value) -> Option<LimitNumbers>
    ensures { result ≡ limit_numbers (view tree.now) }
{
    limits_from(arguments(tree)?.as_slice())
}

/// The limits of two numbers or three.
fn limits_from(numbers: &[i64]) -> Option<LimitNumbers>
    ensures { result ≡ limits_from numbers.now }
{
    match numbers {
        [live, begins] => Some(LimitNumbers {
            live: *live,
            begins: *begins,
            asks: 0,
        }),
        [live, begins, asks] => Some(LimitNumbers {
            live: *live,
            begins: *begins,
            asks: *asks,
        }),
        _ => None,
    }
}

/// The accounts, or none if one of the trees is no account.
pub(crate) fn read_accounts(
    alloc: Global,
    trees: &[Value],
) -> Result<Option<Vec<Account>>, NoMemory>
    ensures { IfOk result
        (λ accounts. option_map (λ v. v.items) accounts ≡ each account_in (map view trees.now)) }
{
    let mut accounts = Vec::new(alloc);
    for tree in trees {
        match account(tree) {
            Some(account) => accounts.push(account)?,
            None => return Ok(None),
        }
    }
    Ok(Some(accounts))
}

#[tactic(auto, using(crate::proofs::Shapes::account_by_arguments))]
fn account(tree: &Value) -> Option<Account>
    ensures { result ≡ account_in (view tree.now) }
{
    account_from(arguments(tree)?.as_slice())
}

/// The account of four numbers.
fn account_from(numbers: &[i64]) -> Option<Account>
    ensures { result ≡ account_from numbers.now }
{
    match numbers {
        [name, customer, saving, checking] => Some(Account {
            name: *name,
            customer: *customer,
            saving: *saving,
            checking: *checking,
        }),
        _ => None,
    }
}

/// Limits of these numbers, or none if one is out of its range, or if they allow fewer live transactions than `least`.
pub(crate) fn limits(least: u32, numbers: LimitNumbers) -> Option<Limits>
    ensures some { IfSome result (AreLimits least numbers) }
    ensures none { IsNone result → (limits : Limits) → ¬ AreLimits least numbers limits }
{
    let limits = Limits {
        live: u32::try_from(numbers.live).ok()?,
        begins: u32::try_from(numbers.begins).ok()?,
        asks: asks(numbers.asks)?,
    };
    if limits.are_in_range() && limits.live >= least {
        Some(limits)
    } else {
        None
    }
}

fn asks(number: i64) -> Option<Asks>
    ensures some { IfSome result (AreAsks number) }
    ensures none { IsNone result → (asks : Asks) → ¬ AreAsks number asks }
{
    match number {
        0 => Some(Asks::AtStep),
        1 => Some(Asks::AtCommit),
        _ => None,
    }
}
