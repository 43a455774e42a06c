//! What a check finds of each level of isolation.

ghost use Rattle.std.specs.Prelude.{◌≡◌, None, true, false, IfOk, IfSome};
ghost use Rattle.std.specs.Option.{option_map_or};
ghost use Rattle.sgt_levels.specs.Answers.{AreRight};
ghost use Rattle.sgt_levels.specs.Unseen.{AreUnseen};
ghost use Rattle.sgt_clients.specs.Findings.{IsFound, is_order};
ghost use Rattle.sgt_clients.specs.Levels.{serial_finding, serial_answer, writes_answer, committed_answer, snapshot_answer, answer_of, is_yes, is_undecided, strongest_of, is_at_least, AreFound};
ghost use Rattle.sgt_clients.specs.declared.level.Answer.TheVariants.{Yes};

use crate::anomalies::{Seen, anomalies_of};
use crate::clients::Clients;
use crate::fault::ClientsFault;
use crate::finding::{Finding, check_clients, is_serial};
use crate::level::{Answer, Level, is_undecided, is_yes};
use crate::names::{
    breaks_committed, breaks_serial, breaks_snapshot, committed_name, snapshot_name, writes_name,
};
use crate::orders::{KeptOrders, kept_orders};
use crate::strict::check_strictly;
use sgt_appends::Transaction;
use sgt_levels::{Committed, Levels, Snapshot, Unseen, Writes, levels_of, unseen_appends};
use sgt_model::NoMemory;
use std::alloc::Global;

/// What a check finds of the levels below serializable, with the names of the anomalies that break them.
#[derive(Drop)]
pub struct Weaker {
    pub levels: Levels,
    pub writes_name: &'static str,
    pub committed_name: &'static str,
    pub snapshot_name: &'static str,
    /// Whether the finding of serializability breaks read committed as well, and by no more steps.
    pub committed_above: bool,
    /// The same for snapshot isolation.
    pub snapshot_above: bool,
    /// If snapshot isolation is undecided: two appends to one key that no read saw.
    pub unseen: Option<Unseen>,
}

/// What a check finds of each level.
#[derive(Drop)]
pub struct LevelFindings {
    /// Of serializable, or of strict serializable if real time is kept.
    pub finding: Finding,
    /// Of serializable, if real time is kept and `finding` is no order.
    pub untimed: Option<Finding>,
    /// Whether `finding` breaks serializable as well, and by no more steps than `untimed`.
    pub serial_above: bool,
    /// Of the weaker levels. They hold if there is none.
    pub weaker: Option<Weaker>,
    /// Of the orders that a snapshot run keeps, if real time is kept.
    pub orders: Option<KeptOrders>,
    /// The anomalies that are counted, if there is no serial order.
    pub anomalies: Vec<Seen>,
}

impl LevelFindings {
    /// Whether what the clients saw is of the level.
    pub fn answer(&self, level: Level) -> Answer
        ensures { result ≡ answer_of self.now level }
    {
        match level {
            Level::ReadUncommitted => match &self.weaker {
                Some(weaker) => writes_answer(&weaker.levels.writes),
                None => Answer::Yes,
            },
            Level::ReadCommitted => match &self.weaker {
                Some(weaker) => committed_answer(&weaker.levels.committed),
                None => Answer::Yes,
            },
            Level::SnapshotIsolation => match &self.weaker {
                Some(weaker) => snapshot_answer(&weaker.levels.snapshot),
                None => Answer::Yes,
            },
            Level::Serializable => serial_answer(serial_finding(&self.finding, &self.untimed)),
            Level::StrictSerializable => serial_answer(&self.finding),
        }
    }

    /// Whether what the clients saw is certainly of the level.
    fn holds(&self, level: Level) -> bool
        ensures { result ≡ is_yes (answer_of self.now level) }
    {
        is_yes(self.answer(level))
    }

    /// The strongest level that holds, if any does. The strict one counts only if real time is kept.
    pub fn strongest(&self, strict: bool) -> Option<Level>
        ensures { result ≡ strongest_of strict self.now }
    {
        if strict && self.holds(Level::StrictSerializable) {
            Some(Level::StrictSerializable)
        } else if self.holds(Level::Serializable) {
            Some(Level::Serializable)
        } else if self.holds(Level::SnapshotIsolation) {
            Some(Level::SnapshotIsolation)
        } else if self.holds(Level::ReadCommitted) {
            Some(Level::ReadCommitted)
        } else if self.holds(Level::ReadUncommitted) {
            Some(Level::ReadUncommitted)
        } else {
            None
        }
    }

    /// Whether this strongest level is only the strongest that is shown: the next one is undecided. Otherwise no stronger
    /// level holds.
    pub fn is_at_least(&self, strongest: Option<Level>) -> bool
        ensures { result ≡ is_at_least self.now strongest }
    {
        match strongest {
            None => is_undecided(self.answer(Level::ReadUncommitted)),
            Some(Level::ReadUncommitted) => is_undecided(self.answer(Level::ReadCommitted)),
            Some(Level::ReadCommitted) => is_undecided(self.answer(Level::SnapshotIsolation)),
            Some(_) => false,
        }
    }
}

/// The finding without real time: the other one, if there is one.
fn serial_finding<'a>(finding: &'a Finding, untimed: &'a Option<Finding>) -> &'a Finding
    ensures { result.now ≡ serial_finding finding.now untimed.now }
{
    match untimed {
        Some(other) => other,
        None => finding,
    }
}

/// The answer of a finding.
fn serial_answer(finding: &Finding) -> Answer
    ensures { result ≡ serial_answer finding.now }
{
    if is_serial(finding) {
        Answer::Yes
    } else {
        Answer::No
    }
}

/// The answer for read uncommitted.
fn writes_answer(writes: &Writes) -> Answer
    ensures { result ≡ writes_answer writes.now }
{
    match writes {
        Writes::Implied | Writes::Order(_) => Answer::Yes,
        Writes::Cycle(_) => Answer::No,
        Writes::Open => Answer::Undecided,
    }
}

/// The answer for read committed.
fn committed_answer(committed: &Committed) -> Answer
    ensures { result ≡ committed_answer committed.now }
{
    match committed {
        Committed::Run(_) => Answer::Yes,
        Committed::Fault { .. } | Committed::Partial(_) | Committed::Cycle(_) => Answer::No,
        Committed::Open => Answer::Undecided,
    }
}

/// The answer for snapshot isolation.
fn snapshot_answer(snapshot: &Snapshot) -> Answer
    ensures { result ≡ snapshot_answer snapshot.now }
{
    match snapshot {
        Snapshot::Run(_) => Answer::Yes,
        Snapshot::NotCommitted | Snapshot::Cycle(_) => Answer::No,
        Snapshot::Open => Answer::Undecided,
    }
}

/// Checks which levels of isolation what the clients saw is of, with real time or without.
///
/// # Errors
///
/// `Twice` if a value is appended twice to a key, and `Check` if an allocation failed.
pub fn check_levels(
    alloc: Global,
    clients: &Clients,
    strict: bool,
) -> Result<LevelFindings, ClientsFault>
    ensures { IfOk result (AreFound strict clients.now) }
{
    let finding = finding_of(alloc, clients, strict)?;
    let untimed = untimed_of(alloc, clients, &finding, strict)?;
    let ordered = is_serial(serial_finding(&finding, &untimed));
    let weaker = weaker_of(alloc, clients, ordered, &finding)?;
    Ok(LevelFindings {
        serial_above: breaks_serial(&finding, &untimed),
        anomalies: anomalies_of(alloc, clients, &finding, &weaker)?,
        orders: orders_of(alloc, clients, strict, &finding, &weaker)?,
        finding,
        untimed,
        weaker,
    })
}

/// Which orders a snapshot run keeps, if real time is kept.
fn orders_of(
    alloc: Global,
    clients: &Clients,
    strict: bool,
    finding: &Finding,
    weaker: &Option<Weaker>,
) -> Result<Option<KeptOrders>, NoMemory> {
    if !strict {
        return Ok(None);
    }
    Ok(Some(kept_orders(alloc, clients, finding, weaker)?))
}

/// Checks what clients saw, strictly or not.
fn finding_of(alloc: Global, clients: &Clients, strict: bool) -> Result<Finding, ClientsFault>
    ensures { IfOk result (IsFound strict clients.now.transactions.items clients.now.spans.items) }
{
    if strict {
        check_strictly(alloc, clients)
    } else {
        check_clients(alloc, clients)
    }
}

/// The finding without real time, unless the finding is one, or an order.
fn untimed_of(
    alloc: Global,
    clients: &Clients,
    finding: &Finding,
    strict: bool,
) -> Result<Option<Finding>, ClientsFault>
    ensures found { IfOk result (λ other. IfSome other (IsFound false clients.now.transactions.items clients.now.spans.items)) }
    ensures none { IfOk result (λ other. other ≡ None → strict ≡ true → is_order finding.now ≡ true) }
{
    if !strict || is_serial(finding) {
        return Ok(None);
    }
    Ok(Some(check_clients(alloc, clients)?))
}

/// What is found of the levels below serializable, unless there is a serial order.
fn weaker_of(
    alloc: Global,
    clients: &Clients,
    ordered: bool,
    finding: &Finding,
) -> Result<Option<Weaker>, NoMemory>
    ensures right { IfOk result (λ weaker. IfSome weaker (λ w. AreRight clients.now.transactions.items w.levels)) }
    ensures unseen { IfOk result (λ weaker. IfSome weaker (λ w. IfSome w.unseen (AreUnseen clients.now.transactions.items))) }
    ensures none { IfOk result (λ weaker. weaker ≡ None → ordered ≡ true) }
{
    if ordered {
        return Ok(None);
    }
    let history = clients.transactions.as_slice();
    let levels = levels_of(alloc, history, matches!(finding, Finding::Cycle(..)))?;
    Ok(Some(Weaker {
        writes_name: writes_name(&levels.writes),
        committed_name: committed_name(&levels.committed),
        snapshot_name: snapshot_name(history, &levels.snapshot),
        committed_above: breaks_committed(finding, &levels.committed),
        snapshot_above: breaks_snapshot(history, finding, &levels.snapshot),
        unseen: unseen_of(alloc, history, &levels.snapshot)?,
        levels,
    }))
}

/// Two appends to one key that no read saw, if snapshot isolation is undecided.
fn unseen_of(
    alloc: Global,
    history: &[Transaction],
    snapshot: &Snapshot,
) -> Result<Option<Unseen>, NoMemory>
    ensures { IfOk result (λ found. IfSome found (AreUnseen history.now)) }
{
    match snapshot {
        Snapshot::Open => unseen_appends(alloc, history),
        Snapshot::Run(_) | Snapshot::NotCommitted | Snapshot::Cycle(_) => Ok(None),
    }
}
