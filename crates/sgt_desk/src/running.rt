//! Turns of a run: a procedure from its start to its commit, tried again after a conflict.
ghost use Rattle.std.specs.Prelude.{◌≡◌, ◌≢◌, ◌<◌, true, false, length, Ok, Some, None, IfOk};
ghost use Rattle.sgt_model.specs.Fates.{live, start_count};
ghost use Rattle.sgt_model.specs.declared.event.Event.TheVariants.{Start};
ghost use Rattle.sgt_desk.specs.Asks.{IsLate, IsNotFull, SameButReply};
ghost use Rattle.sgt_desk.specs.Calls.{RunTurn};
ghost use Rattle.sgt_desk.specs.Desks.{state, SameCounts, Wakes};
ghost use Rattle.sgt_desk.specs.Attempts.{ActsFor, EndsAttempt, GoneOn, MayCommit, QuitsIfLive, StaysLegal, StepsOn, TurnsAttempt};
ghost use Rattle.sgt_desk.specs.Runs.{
  gives_up,
  is_conflict,
  is_over,
  named,
  RequestsOnly,
  Begins,
  GoesOn,
  Grows,
  GrowsBy,
  IsOutcome,
  LateWhy,
  LeavesOnly,
  OverMeanwhile,
  RestsFor,
  RunsWhy,
};

use crate::answering::Answering;
use crate::ask::{Ask, Deadline, Ticket, Turn};
use crate::committing::commit_turn;
use crate::desk::Desk;
use crate::reason::Reason;
use crate::starting::ask_start;
use sgt_model::{
    Args, Event, NoMemory, ShortCause, ShortFate, ShortReply, Tid, replies_report_who_is_live,
};

/// A run under way.
#[derive(Clone, Copy)]
pub struct Run {
    /// Its deadline, why it rests, and its newest reply.
    pub ask: Ask,
    /// The transaction of the attempt that rests in its commit, if one does.
    pub attempt: Option<Tid>,
    /// The ticket of the newest attempt.
    pub ticket: Option<Ticket>,
    /// How many attempts were begun.
    pub tries: u64,
    /// How many may be.
    pub most: u64,
}

impl Run {
    /// A run that has not begun. It makes at most this many attempts.
    pub fn new(deadline: Deadline, most: u64) -> Self
        ensures attempt { (result.attempt ≡ None) × (result.ticket ≡ None) }
        ensures tries { (result.tries ≡ 0) × (result.most ≡ most) }
        ensures deadline { result.ask.deadline ≡ deadline }
    {
        Run {
            ask: Ask::new(deadline),
            attempt: None,
            ticket: None,
            tries: 0,
            most,
        }
    }

    /// Whether no attempt may begin at this time, since the deadline has come.
    pub fn is_over(&self, now: u64) -> bool
        ensures { result ≡ is_over self.now.ask.deadline self.now.tries now }
    {
        match self.ask.deadline {
            Deadline::Never => false,
            Deadline::AtOnce => self.tries > 0,
            Deadline::At(at) => at <= now,
        }
    }
}

/// Whether a reply is of a conflict, so that the call is tried again.
pub fn is_conflict(reply: &ShortReply) -> bool
    ensures { result ≡ is_conflict reply.now }
{
    matches!(
        reply,
        ShortReply::Aborted(ShortCause::Cycle) | ShortReply::Over(ShortFate::Fell(_))
    )
}

/// Aborts the transaction, if it is live. This takes no memory.
#[inline(never)]
fn end<E: Answering>(desk: &mut Desk<E>, ask: &mut Ask, t: Tid, wakes: &mut bool)
    ensures gone { live (state E.state desk.new).past t ≡ false }
    ensures ask { SameButReply ask.old ask.new }
    ensures outcome { IsOutcome ask.old.reply (Some t) (state E.state desk.old).past
        → IsOutcome ask.new.reply (Some t) (state E.state desk.new).past }
    ensures acts { ActsFor t (state E.state desk.old) (state E.state desk.new) }
    ensures quits { QuitsIfLive t (state E.state desk.old) ask.old (state E.state desk.new) ask.new }
    ensures legal { StaysLegal (state E.state desk.old) (state E.state desk.new) }
    ensures wakes { Wakes (state E.state desk.old) (state E.state desk.new) wakes.new }
    ensures woken { wakes.old ≡ true → wakes.new ≡ true }
{
    replies_report_who_is_live();
    if desk.engine.is_live(t) {
        let mut reply = ShortReply::Unknown;
        match desk.answer(&Event::Quit(t), &mut reply, wakes) {
            Ok(()) => ask.reply = reply,
            Err(NoMemory) => unreachable!(),
        }
    }
}

/// Steps a live transaction until a step makes no access, and returns the reply to that one.
#[inline(always)]
fn step_on<E: Answering>(
    desk: &mut Desk<E>,
    t: Tid,
    wakes: &mut bool,
) -> Result<ShortReply, NoMemory>
    ensures outcome { IfOk result (λ r. IsOutcome r (Some t) (state E.state desk.new).past) }
    ensures acts { ActsFor t (state E.state desk.old) (state E.state desk.new) }
    ensures grows { Grows false t (state E.state desk.old).past (state E.state desk.new).past }
    ensures steps { IfOk result (StepsOn t (state E.state desk.old) (state E.state desk.new)) }
    ensures legal { StaysLegal (state E.state desk.old) (state E.state desk.new) }
    ensures wakes { Wakes (state E.state desk.old) (state E.state desk.new) wakes.new }
    ensures woken { wakes.old ≡ true → wakes.new ≡ true }
{
    let step = Event::Step(t);
    let mut reply = ShortReply::Unknown;
    for _ in 0..u64::MAX {
        desk.answer(&step, &mut reply, wakes)?;
        if !matches!(reply, ShortReply::Looked { .. } | ShortReply::Wrote { .. }) {
            return Ok(reply);
        }
    }
    // No memory can hold a history of that many entries.
    Err(NoMemory)
}

/// Ends an attempt, whose newest reply this is: the run is done, or tries again, at once or after another transaction has ended.
#[inline(always)]
fn end_attempt<E: Answering>(
    desk: &mut Desk<E>,
    run: &mut Run,
    t: Tid,
    now: u64,
    wakes: &mut bool,
) -> Turn
    requires outcome { IsOutcome run.old.ask.reply (Some t) (state E.state desk.old).past }
    ensures outcome { IsOutcome run.new.ask.reply (Some t) (state E.state desk.new).past }
    ensures none { run.new.attempt ≡ None }
    ensures gone { live (state E.state desk.new).past t ≡ false }
    ensures acts { ActsFor t (state E.state desk.old) (state E.state desk.new) }
    ensures kept { (run.new.tries ≡ run.old.tries) × (run.new.ticket ≡ run.old.ticket) }
    ensures turn { TurnsAttempt now run.old (state E.state desk.new) run.new (Ok result) }
    ensures why { RunsWhy (state E.state desk.new) None run.new.attempt run.new.ask.reply run.new.ask.reason }
    ensures quits { QuitsIfLive t (state E.state desk.old) run.old.ask (state E.state desk.new) run.new.ask }
    ensures rests { RestsFor (state E.state desk.new) None run.new.ask.reason }
    ensures late { result ≡ Turn.Late → (is_conflict run.new.ask.reply ≡ true)
        × IsLate run.old.ask.deadline now run.new.ask.reason (state E.state desk.new) }
    ensures legal { StaysLegal (state E.state desk.old) (state E.state desk.new) }
    ensures wakes { Wakes (state E.state desk.old) (state E.state desk.new) wakes.new }
    ensures woken { wakes.old ≡ true → wakes.new ≡ true }
{
    run.attempt = None;
    run.ask.reason = None;
    end(desk, &mut run.ask, t, wakes);
    if !is_conflict(&run.ask.reply) || run.tries >= run.most {
        return Turn::Done;
    }
    if is_over_by(&run.ask.reply) || !desk.holds(Reason::End(desk.ended)) {
        return Turn::Again;
    }
    run.ask.reason = Some(Reason::End(desk.ended));
    run.ask.turn(now)
}

/// Whether a reply says that the transaction has ended before, so that another one has just ended.
#[inline(always)]
fn is_over_by(reply: &ShortReply) -> bool {
    matches!(reply, ShortReply::Over(_))
}

/// Commits an attempt, or has it rest. Where its deadline comes, or an allocation fails, its transaction is aborted.
#[inline(always)]
fn commit_attempt<E: Answering>(
    desk: &mut Desk<E>,
    run: &mut Run,
    t: Tid,
    now: u64,
    wakes: &mut bool,
) -> Result<Turn, NoMemory>
    ensures outcome { result ≡ Ok Turn.Done → IsOutcome run.new.ask.reply (Some t) (state E.state desk.new).past }
    ensures left { live (state E.state desk.new).past t ≡ true → run.new.attempt ≡ Some t }
    ensures acts { ActsFor t (state E.state desk.old) (state E.state desk.new) }
    ensures kept { (run.new.tries ≡ run.old.tries) × (run.new.ticket ≡ run.old.ticket) }
    ensures turn { TurnsAttempt now run.old (state E.state desk.new) run.new result }
    ensures why { RunsWhy (state E.state desk.new) run.old.ask.reason run.new.attempt run.new.ask.reply run.new.ask.reason }
    ensures retried { result ≡ Ok Turn.Again → IsOutcome run.new.ask.reply (Some t) (state E.state desk.new).past }
    ensures grown { gives_up result ≡ false → result ≢ Ok Turn.Rest
        → length (state E.state desk.old).past < length (state E.state desk.new).past }
    ensures ends { EndsAttempt t (state E.state desk.old) run.new.ask.reply result }
    ensures gone_on { MayCommit (state E.state desk.old) t run.old.ask.reason
        → GoneOn now t (state E.state desk.old) run.old (state E.state desk.new) run.new result }
    ensures legal { StaysLegal (state E.state desk.old) (state E.state desk.new) }
    ensures wakes { Wakes (state E.state desk.old) (state E.state desk.new) wakes.new }
    ensures woken { wakes.old ≡ true → wakes.new ≡ true }
{
    let made = commit_turn(desk, &mut run.ask, t, now, wakes);
    match made {
        Ok(Turn::Done) => Ok(end_attempt(desk, run, t, now, wakes)),
        Ok(Turn::Rest) => {
            run.attempt = Some(t);
            Ok(Turn::Rest)
        }
        _ => {
            run.attempt = None;
            run.ask.reason = None;
            end(desk, &mut run.ask, t, wakes);
            made
        }
    }
}

/// An attempt: it starts a transaction and runs it to its commit, unless it may not begin.
#[inline(always)]
fn try_once<E: Answering>(
    desk: &mut Desk<E>,
    run: &mut Run,
    procedure: u16,
    args: &Args,
    now: u64,
    wakes: &mut bool,
) -> Result<Turn, NoMemory>
    requires none { run.old.attempt ≡ None }
    ensures outcome { result ≡ Ok Turn.Done → IsOutcome run.new.ask.reply (named run.new.ticket) (state E.state desk.new).past }
    ensures retried { result ≡ Ok Turn.Again → IsOutcome run.new.ask.reply (named run.new.ticket) (state E.state desk.new).past }
    ensures full { result ≡ Ok Turn.Done → IsNotFull run.new.ask.reply }
    ensures meanwhile { gives_up result ≡ false → result ≢ Ok Turn.Rest
        → OverMeanwhile None (state E.state desk.old).past run.new.ask.reply }
    ensures grows { GoesOn (state E.state desk.old) run.old → GrowsBy (gives_up result) procedure args.now None (named run.new.ticket)
        (state E.state desk.old).past (state E.state desk.new).past }
    ensures grown { gives_up result ≡ false → result ≢ Ok Turn.Rest
        → length (state E.state desk.old).past < length (state E.state desk.new).past }
    ensures goes_on { GoesOn (state E.state desk.old) run.old → GoesOn (state E.state desk.new) run.new }
    ensures late_why { GoesOn (state E.state desk.old) run.old → result ≡ Ok Turn.Late → LateWhy now run.old (state E.state desk.new) run.new }
    ensures left { LeavesOnly None (start_count (state E.state desk.old).past) (state E.state desk.new).past run.new.attempt }
    ensures call { Begins procedure args.now (state E.state desk.old) run.old (state E.state desk.new) run.new }
    ensures others { RequestsOnly (named run.new.ticket) (state E.state desk.old).past (state E.state desk.new).past }
    ensures part { (state E.state desk.new).part ≡ (state E.state desk.old).part }
    ensures configuration { (state E.state desk.new).configuration ≡ (state E.state desk.old).configuration }
    ensures over { is_over run.old.ask.deadline run.old.tries now ≡ true → state E.state desk.new ≡ state E.state desk.old }
    ensures cut { 0 < (state E.state desk.old).cutters → state E.state desk.new ≡ state E.state desk.old }
    ensures counts { SameCounts (state E.state desk.old) (state E.state desk.new) }
    ensures turn { TurnsAttempt now run.old (state E.state desk.new) run.new result }
    ensures why { RunsWhy (state E.state desk.new) run.old.ask.reason run.new.attempt run.new.ask.reply run.new.ask.reason }
    ensures wakes { Wakes (state E.state desk.old) (state E.state desk.new) wakes.new }
    ensures woken { wakes.old ≡ true → wakes.new ≡ true }
{
    if desk.holds_up(&run.ask) {
        return Ok(run.ask.turn(now));
    }
    if run.is_over(now) {
        return Ok(Turn::Late);
    }
    if desk.cutters > 0 {
        run.ask.reason = Some(Reason::Cut);
        return Ok(run.ask.turn(now));
    }
    run.ask.reason = None;
    let mut reply = ShortReply::Unknown;
    ask_start(desk, procedure, args, &mut reply, wakes)?;
    run.ask.reply = reply;
    match reply {
        ShortReply::Started(t) => {
            let ticket = desk.ticket(t);
            run.tries = run.tries.saturating_add(1);
            run.ticket = Some(ticket);
            attempt(desk, run, t, now, wakes)
        }
        ShortReply::Full => {
            run.ask.reason = Some(Reason::Full(desk.engine.live_count()));
            Ok(run.ask.turn(now))
        }
        _ => Ok(Turn::Done),
    }
}

/// Steps a transaction that was just started to the end of its procedure, and commits it.
#[inline(always)]
fn attempt<E: Answering>(
    desk: &mut Desk<E>,
    run: &mut Run,
    t: Tid,
    now: u64,
    wakes: &mut bool,
) -> Result<Turn, NoMemory>
    ensures outcome { result ≡ Ok Turn.Done → IsOutcome run.new.ask.reply (Some t) (state E.state desk.new).past }
    ensures left { live (state E.state desk.new).past t ≡ true → run.new.attempt ≡ Some t }
    ensures acts { ActsFor t (state E.state desk.old) (state E.state desk.new) }
    ensures kept { (run.new.tries ≡ run.old.tries) × (run.new.ticket ≡ run.old.ticket) }
    ensures turn { TurnsAttempt now run.old (state E.state desk.new) run.new result }
    ensures why { RunsWhy (state E.state desk.new) run.old.ask.reason run.new.attempt run.new.ask.reply run.new.ask.reason }
    ensures retried { result ≡ Ok Turn.Again → IsOutcome run.new.ask.reply (Some t) (state E.state desk.new).past }
    ensures ends { EndsAttempt t (state E.state desk.old) run.new.ask.reply result }
    ensures gone_on { run.old.ask.reason ≡ None
        → GoneOn now t (state E.state desk.old) run.old (state E.state desk.new) run.new result }
    ensures legal { StaysLegal (state E.state desk.old) (state E.state desk.new) }
    ensures wakes { Wakes (state E.state desk.old) (state E.state desk.new) wakes.new }
    ensures woken { wakes.old ≡ true → wakes.new ≡ true }
{
    run.attempt = None;
    match step_on(desk, t, wakes) {
        Ok(ShortReply::Ended) => commit_attempt(desk, run, t, now, wakes),
        Ok(reply) => {
            run.ask.reply = reply;
            Ok(end_attempt(desk, run, t, now, wakes))
        }
        Err(NoMemory) => {
            end(desk, &mut run.ask, t, wakes);
            Err(NoMemory)
        }
    }
}

/// A turn of a run of a procedure from its start to its commit. An attempt that ends by a conflict is tried again, at once or after
/// another transaction has ended, as often as the run says. No attempt begins after the deadline, or while a call waits for a cut.
/// `run.ask.reply` is the newest reply, and `run.ticket` names the transaction of the newest attempt.
///
/// Nothing of a run stays live but the attempt that rests in its commit: where the deadline comes, or an allocation fails, its
/// transaction is aborted.
///
/// `NoMemory` if an allocation failed.
pub fn run_procedure<E: Answering>(
    desk: &mut Desk<E>,
    run: &mut Run,
    procedure: u16,
    args: &Args,
    now: u64,
    wakes: &mut bool,
) -> Result<Turn, NoMemory>
    ensures turn { RunTurn procedure args.now now (state E.state desk.old) run.old (state E.state desk.new) run.new result }
    ensures wakes { Wakes (state E.state desk.old) (state E.state desk.new) wakes.new }
    ensures woken { wakes.old ≡ true → wakes.new ≡ true }
{
    let made = run_turn(desk, run, procedure, args, now, wakes);
    if run.attempt.is_some() {
        desk.begin_commit(&mut run.ask);
    } else {
        desk.end_commit(&mut run.ask, wakes);
    }
    made
}

/// The same, without the count of those that rest in a commit.
#[inline(always)]
fn run_turn<E: Answering>(
    desk: &mut Desk<E>,
    run: &mut Run,
    procedure: u16,
    args: &Args,
    now: u64,
    wakes: &mut bool,
) -> Result<Turn, NoMemory>
    ensures outcome { result ≡ Ok Turn.Done → IsOutcome run.new.ask.reply (named run.new.ticket) (state E.state desk.new).past }
    ensures retried { result ≡ Ok Turn.Again → IsOutcome run.new.ask.reply (named run.new.ticket) (state E.state desk.new).past }
    ensures full { result ≡ Ok Turn.Done → IsNotFull run.new.ask.reply }
    ensures meanwhile { gives_up result ≡ false → result ≢ Ok Turn.Rest
        → OverMeanwhile run.old.attempt (state E.state desk.old).past run.new.ask.reply }
    ensures grows { GoesOn (state E.state desk.old) run.old → GrowsBy (gives_up result) procedure args.now run.old.attempt
        (named run.new.ticket) (state E.state desk.old).past (state E.state desk.new).past }
    ensures grown { gives_up result ≡ false → result ≢ Ok Turn.Rest
        → length (state E.state desk.old).past < length (state E.state desk.new).past }
    ensures goes_on { GoesOn (state E.state desk.old) run.old → GoesOn (state E.state desk.new) run.new }
    ensures late_why { GoesOn (state E.state desk.old) run.old → result ≡ Ok Turn.Late → LateWhy now run.old (state E.state desk.new) run.new }
    ensures turn { TurnsAttempt now run.old (state E.state desk.new) run.new result }
    ensures call { Begins procedure args.now (state E.state desk.old) run.old (state E.state desk.new) run.new }
    ensures others { RequestsOnly (named run.new.ticket) (state E.state desk.old).past (state E.state desk.new).past }
    ensures part { (state E.state desk.new).part ≡ (state E.state desk.old).part }
    ensures configuration { (state E.state desk.new).configuration ≡ (state E.state desk.old).configuration }
    ensures left { LeavesOnly run.old.attempt (start_count (state E.state desk.old).past) (state E.state desk.new).past
        run.new.attempt }
    ensures over { is_over run.old.ask.deadline run.old.tries now ≡ true
        → start_count (state E.state desk.new).past ≡ start_count (state E.state desk.old).past }
    ensures cut { 0 < (state E.state desk.old).cutters
        → start_count (state E.state desk.new).past ≡ start_count (state E.state desk.old).past }
    ensures why { RunsWhy (state E.state desk.new) run.old.ask.reason run.new.attempt run.new.ask.reply run.new.ask.reason }
    ensures counts { SameCounts (state E.state desk.old) (state E.state desk.new) }
    ensures wakes { Wakes (state E.state desk.old) (state E.state desk.new) wakes.new }
    ensures woken { wakes.old ≡ true → wakes.new ≡ true }
{
    match run.attempt {
        Some(t) => {
            run.ticket = Some(desk.ticket(t));
            commit_attempt(desk, run, t, now, wakes)
        }
        None => try_once(desk, run, procedure, args, now, wakes),
    }
}
