//! A relation between indices, in rows and in columns.
ghost use Rattle.std.specs.Prelude.{◌≡◌, ℕ, ◌<◌, true, false, not, ◌||◌, ◌&&◌, ◌↔◌, nat_eq, slice_index};
ghost use Rattle.sgt_cycle.specs.Indices.{is_set, is_bit};
ghost use Rattle.sgt_graph.specs.Closures.{IsClosure};

use crate::rows::{Rows, add, take_out_of, union};
use std::marker::Model;

/// A relation between 32 indices. Row `i` is the set of the indices that `i` is related to. It is stored with its transpose,
/// the columns, so that neither direction needs a search.
#[derive(Drop)]
pub struct Relation {
    rows: Rows,
    columns: Rows,
}

impl Model for Relation {
    ghost use Rattle.std.specs.Prelude.{ℕ, List};
    ghost use Rattle.sgt_graph.specs.Relations.{IsRelation};

    ghost Value = { List ℕ };

    ghost view = { λ r. r.rows };

    ghost invariant = { λ r. IsRelation r.rows r.columns };
}

impl Relation {
    /// No index is related to any.
    pub fn empty() -> Self
        ensures { (i j : ℕ) → is_bit result i j ≡ false }
    {
        Relation {
            rows: [0; 32],
            columns: [0; 32],
        }
    }

    /// All rows.
    pub fn rows(&self) -> &Rows
        ensures { result.now ≡ self.now }
    {
        &self.rows
    }

    /// The indices that this one is related to.
    #[inline(always)]
    pub fn row(&self, index: u8) -> u32
        requires { index < 32 }
        ensures { result ≡ slice_index self.now index }
    {
        self.rows[usize::from(index)]
    }

    /// The indices that are related to this one.
    #[inline(always)]
    pub fn column(&self, index: u8) -> u32
        requires { index < 32 }
        ensures { (i : ℕ) → is_set result i ≡ is_bit self.now i index }
    {
        self.columns[usize::from(index)]
    }

    /// The indices that are related to at least one of these.
    #[inline(always)]
    pub fn meeting(&self, set: u32) -> u32
        ensures { (i : ℕ) → (is_set result i ≡ true) ↔ ((j : ℕ) × (is_bit self.now i j ≡ true) × (is_set set j ≡ true)) }
    {
        union(&self.columns, set)
    }

    /// Relates each index of `to` to each of `more`.
    pub fn add(&mut self, to: u32, more: u32)
        ensures { (i j : ℕ) → is_bit self.new i j ≡ (is_bit self.old i j || (is_set to i && is_set more j)) }
    {
        add(&mut self.rows, to, more);
        add(&mut self.columns, more, to);
    }

    /// Removes an index: it is related to none, and none to it.
    pub fn take_out(&mut self, index: u8)
        requires { index < 32 }
        ensures { (i j : ℕ) → is_bit self.new i j ≡ (is_bit self.old i j && (not (nat_eq i index) && not (nat_eq j index))) }
    {
        let (from, to) = (self.column(index), self.row(index));
        take_out_of(&mut self.rows, from, index);
        take_out_of(&mut self.columns, to, index);
    }

    /// What is reached along this relation, in one step or more.
    ///
    /// Warshall, "A theorem on boolean matrices" (1962).
    pub fn closure(&self) -> Relation
        ensures { IsClosure self.now result }
    {
        let mut reached = Relation {
            rows: self.rows,
            columns: self.columns,
        };
        for index in 0..32u8 {
            let more = reached.row(index);
            if more != 0 {
                let from = reached.column(index);
                reached.add(from, more);
            }
        }
        reached
    }
}
