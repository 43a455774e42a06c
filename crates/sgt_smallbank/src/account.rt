//! The accounts of a bank, and the database made from them.
ghost use Rattle.std.specs.Prelude.{◌≡◌, ◌≢◌, ◌↔◌, [], None, IsSome, IfSome, OnSome, OnOk, IfOk, IfErr};
ghost use Rattle.sgt_model.specs.Contents.{Key};
ghost use Rattle.sgt_model.specs.Databases.{contents_of};
ghost use Rattle.sgt_smallbank.specs.Accounts.{name_key, saving_key, checking_key, with_account, opened, IsInRange, has_name, has_customer, fault_among, fault_after, fault_of, AreRefused};

use crate::account_rows::AccountRows;
use crate::errors::{BadOpening, OpeningFault};
use crate::tables::{ACCOUNT, CHECKING, SAVING};
use sgt_model::{Database, Key, is_value};
use std::alloc::Global;

/// A bank account: its name, its customer, and the customer's two balances. `opening` accepts each of the four numbers
/// only if it lies within fifteen digits.
#[derive(Clone, Copy)]
pub struct Account {
    /// The name: a number, the argument of the five procedures.
    pub name: i64,
    /// The customer's number.
    pub customer: i64,
    /// The savings balance, in whole cents.
    pub saving: i64,
    /// The checking balance, in whole cents; it may be negative.
    pub checking: i64,
}

/// The database with the rows of these accounts and no others. Table 0 has the customer of each name. Table 1 has each
/// customer's saving, and table 2 each customer's checking. The accounts may come in any order.
///
/// The first account with a fault decides. Its faults are tested in this order: a number out of range, a name that an
/// earlier account has, a customer that an earlier account has. If an allocation failed, each account is compared with
/// all before it instead, which takes no memory. So `NoMemory` comes only if no account has a fault.
pub fn opening(alloc: Global, accounts: &[Account]) -> Result<Database, BadOpening>
    ensures contents { IfOk result (λ database. (k : Key) → contents_of database k ≡ opened accounts.now k) }
    ensures no_fault { OnOk result (fault_of accounts.now ≡ None) }
    ensures refused { IfErr result (AreRefused accounts.now) }
{
    if accounts.is_empty() {
        return Ok(Database::empty(alloc));
    }
    match database_of(alloc, accounts) {
        Ok(database) => Ok(database),
        Err(BadOpening::Fault(fault)) => Err(BadOpening::Fault(fault)),
        Err(BadOpening::NoMemory) => Err(match first_fault(accounts) {
            Some(fault) => BadOpening::Fault(fault),
            None => BadOpening::NoMemory,
        }),
    }
}

/// The fault of the first account that has one.
fn first_fault(accounts: &[Account]) -> Option<OpeningFault>
    ensures { result ≡ fault_of accounts.now }
{
    for (index, account) in accounts.iter().enumerate() {
        let fault = fault_after(&accounts[..index], account);
        if fault.is_some() {
            return fault;
        }
    }
    None
}

/// The fault of an account that comes after these.
fn fault_after(earlier: &[Account], account: &Account) -> Option<OpeningFault>
    ensures { result ≡ fault_after earlier.now account.now }
{
    if keys(account).is_none() {
        return Some(OpeningFault::Range);
    }
    if has_name(earlier, account.name) {
        return Some(OpeningFault::SameName);
    }
    if has_customer(earlier, account.customer) {
        return Some(OpeningFault::SameCustomer);
    }
    None
}

/// Whether one of the accounts has the name.
fn has_name(accounts: &[Account], name: i64) -> bool
    ensures { result ≡ has_name accounts.now name }
{
    accounts.iter().any(|account| account.name == name)
}

/// Whether one of the accounts has the customer.
fn has_customer(accounts: &[Account], customer: i64) -> bool
    ensures { result ≡ has_customer accounts.now customer }
{
    accounts.iter().any(|account| account.customer == customer)
}

/// The database with the rows of these accounts, or the first fault. If an allocation failed, there may be a fault.
fn database_of(alloc: Global, accounts: &[Account]) -> Result<Database, BadOpening>
    ensures contents { IfOk result (λ database. (k : Key) → contents_of database k ≡ opened accounts.now k) }
    ensures no_fault { OnOk result (fault_of accounts.now ≡ None) }
    ensures fault { IfErr result (λ error. error ≢ BadOpening.NoMemory → AreRefused accounts.now error) }
{
    match database_by_name(alloc, accounts) {
        Some(database) => Ok(database),
        None => database_in_turn(alloc, accounts),
    }
}

/// The database with the rows of accounts that do not come in the order of their names, added in that order. None if they do,
/// if one has a fault, or if an allocation failed.
fn database_by_name(alloc: Global, accounts: &[Account]) -> Option<Database>
    ensures contents { IfSome result (λ database. (k : Key) → contents_of database k ≡ opened accounts.now k) }
    ensures no_fault { OnSome result (fault_of accounts.now ≡ None) }
{
    if accounts.is_sorted_by_key(|account| account.name) {
        return None;
    }
    let mut sorted = Vec::from_slice(alloc, accounts).ok()?;
    sorted.sort_unstable_by_key(|account| account.name);
    database_in_turn(alloc, sorted.as_slice()).ok()
}

/// The database with the rows of these accounts, added one after another, or the first fault. If an allocation failed, there may
/// be a fault.
fn database_in_turn(alloc: Global, accounts: &[Account]) -> Result<Database, BadOpening>
    ensures contents { IfOk result (λ database. (k : Key) → contents_of database k ≡ opened accounts.now k) }
    ensures no_fault { OnOk result (fault_of accounts.now ≡ None) }
    ensures fault { IfErr result (λ error. error ≢ BadOpening.NoMemory → AreRefused accounts.now error) }
{
    let mut rows = AccountRows::new(alloc);
    for account in accounts {
        if let Some(fault) = rows.add(account)? {
            return Err(BadOpening::Fault(fault));
        }
    }
    Ok(rows.database(alloc)?)
}

/// The keys of an account's rows: by its name, of its saving and of its checking. None if one of its numbers is not a
/// value.
pub fn keys(account: &Account) -> Option<(Key, Key, Key)>
    ensures keys { IfSome result
        (λ k. k ≡ (name_key account.now, saving_key account.now, checking_key account.now)) }
    ensures in_range { IsSome result ↔ IsInRange account.now }
{
    if is_value(account.saving) && is_value(account.checking) {
        let name = Key::new(ACCOUNT, account.name)?;
        let saving = Key::new(SAVING, account.customer)?;
        let checking = Key::new(CHECKING, account.customer)?;
        return Some((name, saving, checking));
    }
    None
}
