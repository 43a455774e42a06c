//! The live transactions that still stand: those not yet known to be aborted in cascade.
ghost use Rattle.std.specs.Prelude.{◌≡◌, ◌↔◌, ◌<◌, ◌≤◌, ℕ, true, false, not, nat_eq, IfSome, IsNone, ◌∷◌, ◌++◌, length, take, drop};
ghost use Rattle.std.specs.List.{filter};
ghost use Rattle.sgt_model.specs.Paths.{Member, Rising};
ghost use Rattle.sgt_cascade.specs.Standing.{stands, has_read, with_member};

use sgt_model::{Tid, Tids};

/// Whether a transaction has read from t.
pub fn has_reader(read_from: &[(Tid, Tid)], t: Tid) -> bool
    ensures { result ≡ false → (v : ℕ) → has_read read_from.now t v ≡ false }
{
    for pair in read_from {
        if pair.0 == t {
            return true;
        }
    }
    false
}

/// The list without t.
pub fn without(list: &Tids, t: Tid) -> Tids
    ensures { result ≡ filter (λ u. not (nat_eq t u)) list.now }
{
    let mut left = Tids::new();
    for i in 0..list.len() {
        let other = list.as_slice()[i];
        if other != t {
            left.push(other);
        }
    }
    left
}

/// A pair (source, reader) whose reader stands and whose source does not.
pub fn next_fall(read_from: &[(Tid, Tid)], standing: &[Tid]) -> Option<(Tid, Tid)>
    ensures pair { IfSome result (λ p. has_read read_from.now p.0 p.1 ≡ true) }
    ensures source { IfSome result (λ p. stands standing.now p.0 ≡ false) }
    ensures reader { IfSome result (λ p. stands standing.now p.1 ≡ true) }
    ensures none { IsNone result → (u v : ℕ) → has_read read_from.now u v ≡ true
        → stands standing.now v ≡ true → stands standing.now u ≡ true }
{
    for pair in read_from {
        if !standing.contains(&pair.0) && standing.contains(&pair.1) {
            return Some(*pair);
        }
    }
    None
}

/// The others that do not stand, rising.
pub fn fallen(others: &Tids, standing: &[Tid]) -> Tids
    ensures members { (u : ℕ) → Member u result
        ↔ (Member u others.now × (stands standing.now u ≡ false)) }
    ensures rising { Rising result }
{
    let mut fell = Tids::new();
    for i in 0..others.len() {
        let other = others.as_slice()[i];
        if !standing.contains(&other) {
            add(&mut fell, other);
        }
    }
    fell
}

/// Adds a transaction at its position in a list that rises, unless it is there.
fn add(list: &mut Tids, t: Tid)
    requires { length list.old < 32 }
    ensures { list.new ≡ with_member t list.old }
{
    let mut at = 0;
    while at < list.len() && list.as_slice()[at] < t {
        at += 1;
    }
    if at == list.len() {
        list.push(t);
    } else if list.as_slice()[at] != t {
        *list = inserted(list, at, t);
    }
}

/// The list with the transaction inserted at this index.
fn inserted(list: &Tids, at: usize, t: Tid) -> Tids
    requires capacity { length list.now < 32 }
    requires within { at ≤ length list.now }
    ensures { result ≡ take at list.now ++ t ∷ drop at list.now }
{
    let mut more = match Tids::from_slice(&list.as_slice()[..at]) {
        Some(before) => before,
        None => unreachable!(),
    };
    more.push(t);
    for i in at..list.len() {
        more.push(list.as_slice()[i]);
    }
    more
}
