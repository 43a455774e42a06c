//! Errors in an opening, the first line of an input.
use crate::excerpt::word_excerpt;
use crate::message::{Message, expected, unexpected, words};
use crate::tree::first_not_whole;
use crate::typed::Typed;
use serde_json::Value;
use sgt_format::items;
use sgt_model::{LEAST, MOST, MOST_BEGINS, MOST_LIVE, is_value};

/// The members of an opening.
pub(crate) const MEMBERS: [&str; 3] = ["limits", "accounts", "procedures"];

/// How an opening is written.
const OPENING: &str = "an opening, as {\"limits\":[16,1000,1],\"accounts\":[],\"procedures\":[]}";

/// What is said of an entry of what clients saw.
const IS_ENTRY: &str =
    "an entry of what clients saw stands here: sgt check --model list-append reads it";

/// What is said of records in an opening.
const RECORDS: &str = ": records are lines after line 1, as [\"record\",3,1,7]";

/// The limits, each with its range.
const LIMITS: [(&str, u32, u32); 3] = [
    ("first", 1, MOST_LIVE),
    ("second", 1, MOST_BEGINS),
    ("third", 0, 1),
];

/// The names of the four numbers of an account. No two accounts have the same of the first two.
const NUMBERS: [&str; 4] = ["name", "customer", "saving", "checking"];

/// What is said of an account that is no list.
const AN_ACCOUNT: &str = ": an account is a list in the list of accounts, as [[1,101,500,1000]]";

/// Why a tree is no opening: the first error, in the order in which a run tests them.
pub(crate) fn opening_fault(typed: Typed<'_>, tree: &Value) -> Message {
    if !tree.is_object() {
        return unexpected(typed, OPENING, tree);
    }
    if tree.get("type").is_some() && tree.get("process").is_some() {
        return words(typed, IS_ENTRY);
    }
    let missing = MEMBERS.iter().find(|name| tree.get(**name).is_none());
    let Some(unknown) = unknown_member(tree) else {
        return match missing {
            Some(name) => Ok(Some(format!(in typed.alloc; "the member \"{name}\" is missing")?)),
            None => shape_fault(typed, tree),
        };
    };
    let hint = match unknown {
        "record" | "records" => RECORDS,
        _ => "",
    };
    let unknown = word_excerpt(typed, unknown)?;
    Ok(Some(match missing {
        Some(name) => format!(in typed.alloc;
            "the member \"{name}\" is missing, and {unknown} is unknown{hint}"
        )?,
        None => format!(in typed.alloc; "the member {unknown} is unknown{hint}")?,
    }))
}

// The first member of an object that an opening does not have.
fn unknown_member(tree: &Value) -> Option<&str> {
    let mut names = tree.as_object()?.iter().map(|(name, _)| name.as_str());
    names.find(|name| !MEMBERS.contains(name))
}

// The first shape error in the members of an opening.
fn shape_fault(typed: Typed<'_>, tree: &Value) -> Message {
    for name in MEMBERS {
        let Some(member) = tree.get(name) else {
            return Ok(None);
        };
        let fault = match items(member) {
            _ if name == "limits" => limits_shape_fault(typed, member)?,
            Some(_) => None,
            None => in_member(typed, name, &[], expected(typed, "a list", member)?)?,
        };
        if fault.is_some() {
            return Ok(fault);
        }
    }
    let accounts = tree.get("accounts").and_then(|accounts| items(accounts));
    for (index, account) in accounts.unwrap_or(&[]).iter().enumerate() {
        let fault = account_shape_fault(typed, index as u64, account)?;
        if fault.is_some() {
            return Ok(fault);
        }
    }
    Ok(None)
}

// The shape error in the limits.
fn limits_shape_fault(typed: Typed<'_>, limits: &Value) -> Message {
    let Some(numbers) = items(limits).filter(|numbers| matches!(numbers.len(), 2 | 3)) else {
        let text = expected(typed, "a list of two or three whole numbers", limits)?;
        return in_member(typed, "limits", &[], text);
    };
    let Some((position, tree)) = first_not_whole(numbers) else {
        return Ok(None);
    };
    let nth = LIMITS[position.min(2)].0;
    let wanted = format!(in typed.alloc; "a whole number as the {nth}")?;
    let text = expected(typed, wanted.as_str(), tree)?;
    in_member(typed, "limits", &[position as u64], text)
}

// The shape error in the account at this index. Accounts are counted from 1.
fn account_shape_fault(typed: Typed<'_>, index: u64, account: &Value) -> Message {
    let number = index.saturating_add(1);
    let Some(numbers) = items(account).filter(|numbers| numbers.len() == 4) else {
        let hint = if account.is_array() { "" } else { AN_ACCOUNT };
        let wanted = format!(in typed.alloc;
            "[name,customer,saving,checking] as account {number}"
        )?;
        let text = expected(typed, wanted.as_str(), account)?;
        let text = format!(in typed.alloc; "{text}{hint}")?;
        return in_member(typed, "accounts", &[index], text);
    };
    let Some((position, tree)) = first_not_whole(numbers) else {
        return Ok(None);
    };
    let name = NUMBERS[position.min(3)];
    let wanted = format!(in typed.alloc; "a whole number as the {name} of account {number}")?;
    let text = expected(typed, wanted.as_str(), tree)?;
    in_member(typed, "accounts", &[index, position as u64], text)
}

/// The first of these limits that is out of range. At least this many live transactions must be allowed.
pub(crate) fn limit_fault(typed: Typed<'_>, least: u32, limits: &[Value]) -> Message {
    for (position, (tree, limit)) in limits.iter().zip(LIMITS).enumerate() {
        let Some(number) = tree.as_i64() else {
            return Ok(None);
        };
        let (nth, first, last) = limit;
        if number < i64::from(first) || i64::from(last) < number {
            let text = format!(in typed.alloc;
                "the {nth} number is {number}, and has to be from {first} to {last}"
            )?;
            return in_member(typed, "limits", &[position as u64], text);
        }
    }
    match limits.first().and_then(|live| live.as_i64()) {
        Some(live) if live < i64::from(least) => {
            let text = format!(in typed.alloc;
                "the first number is {live}, and the workers are {least}: more than transactions may be live; take fewer with --workers"
            )?;
            in_member(typed, "limits", &[0], text)
        }
        _ => Ok(None),
    }
}

/// The error of the first account that has one.
pub(crate) fn account_fault(typed: Typed<'_>, accounts: &[Value]) -> Message {
    for (index, account) in accounts.iter().enumerate() {
        let fault = number_fault(typed, &accounts[..index], account)?;
        if fault.is_some() {
            return Ok(fault);
        }
    }
    Ok(None)
}

// The error of an account after these: its first number that is out of range, else the one that an earlier account has.
fn number_fault(typed: Typed<'_>, earlier: &[Value], account: &Value) -> Message {
    let index = earlier.len() as u64;
    let number = index.saturating_add(1);
    for (position, name) in NUMBERS.iter().enumerate() {
        if let Some(amount) = number_at(account, position).filter(|amount| !is_value(*amount)) {
            let text = format!(in typed.alloc;
                "the {name} of account {number} is {amount}, and has to be from {LEAST} to {MOST}"
            )?;
            return in_member(typed, "accounts", &[index, position as u64], text);
        }
    }
    for (position, name) in NUMBERS[..2].iter().enumerate() {
        let amount = number_at(account, position);
        let first = earlier
            .iter()
            .position(|other| number_at(other, position) == amount);
        if let (Some(amount), Some(first)) = (amount, first) {
            let first = first.saturating_add(1);
            let text = format!(in typed.alloc;
                "account {number} has the {name} {amount} of account {first}"
            )?;
            return in_member(typed, "accounts", &[index, position as u64], text);
        }
    }
    Ok(None)
}

// The whole number at a position of an account.
fn number_at(account: &Value, position: usize) -> Option<i64> {
    items(account)?.get(position)?.as_i64()
}

// What is said of the part at these positions of a member, after its column and the member's name.
fn in_member(typed: Typed<'_>, name: &str, positions: &[u64], text: String) -> Message {
    let text = format!(in typed.alloc; "\"{name}\": {text}")?;
    typed.placed(Some(name), positions, text)
}
