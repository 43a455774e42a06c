//! Accounts that are added to rows one after another.
ghost use Rattle.std.specs.Prelude.{◌≡◌, None, IfOk};
ghost use Rattle.sgt_model.specs.Contents.{Key};
ghost use Rattle.sgt_model.specs.Databases.{contents_of};
ghost use Rattle.sgt_smallbank.specs.AccountRows.{rows_in};
ghost use Rattle.sgt_smallbank.specs.Accounts.{fault_among, with_account};

use crate::account::{Account, keys};
use crate::account_rows::AccountRows;
use crate::errors::OpeningFault;
use sgt_model::{Database, NoMemory};
use sgt_rows::Rows;
use std::alloc::Global;

impl AccountRows {
    /// No rows. It allocates nothing.
    pub fn new(alloc: Global) -> AccountRows
        ensures { (k : Key) → rows_in result k ≡ None }
    {
        AccountRows {
            customers: Rows::of(alloc, Database::empty(alloc)),
            savings: Rows::of(alloc, Database::empty(alloc)),
            checkings: Rows::of(alloc, Database::empty(alloc)),
        }
    }

    /// Writes the rows of an account that comes after these, unless it has a fault.
    ///
    /// `NoMemory` if an allocation failed. Then, and if there is a fault, some of its rows may be written.
    pub fn add(&mut self, account: &Account) -> Result<Option<OpeningFault>, NoMemory>
        ensures fault { IfOk result (λ fault. fault ≡ fault_among (rows_in self.old) account.now) }
        ensures rows { IfOk result (λ fault. fault ≡ None →
            (k : Key) → rows_in self.new k ≡ with_account (rows_in self.old) account.now k) }
    {
        let Some((name, saving, checking)) = keys(account) else {
            return Ok(Some(OpeningFault::Range));
        };
        if self.customers.replace(name, account.customer)?.is_some() {
            return Ok(Some(OpeningFault::SameName));
        }
        if self.savings.replace(saving, account.saving)?.is_some() {
            return Ok(Some(OpeningFault::SameCustomer));
        }
        self.checkings.put(checking, account.checking)?;
        Ok(None)
    }

    /// The database of the rows.
    ///
    /// `NoMemory` if an allocation failed.
    pub fn database(self, alloc: Global) -> Result<Database, NoMemory>
        ensures { IfOk result (λ d. (k : Key) → contents_of d k ≡ rows_in self k) }
    {
        let AccountRows {
            customers,
            savings,
            checkings,
        } = self;
        let customers = customers.database(alloc)?;
        let savings = savings.database(alloc)?;
        let checkings = checkings.database(alloc)?;
        let both = customers.updated(alloc, &savings)?;
        both.updated(alloc, &checkings)
    }
}
