//! The rows of accounts, by table.
ghost use Rattle.std.proofs.Props.{props};
ghost use Rattle.sgt_model.specs.Databases.{contents_of};
ghost use Rattle.sgt_smallbank.specs.Joins.{IsOfTable};

mod by_account;

use sgt_rows::Rows;

/// The rows of accounts that come one after another, those of each table for themselves. So if the accounts come in order,
/// each row is the last of its table.
#[derive(Drop)]
pub struct AccountRows {
    pub customers: Rows,
    pub savings: Rows,
    pub checkings: Rows,
    ghost are_customers: { IsOfTable 0 (contents_of customers) } by { Prim.hlevel props },
    ghost are_savings: { IsOfTable 1 (contents_of savings) } by { Prim.hlevel props },
    ghost are_checkings: { IsOfTable 2 (contents_of checkings) } by { Prim.hlevel props },
}
