//! How each started transaction ended.
ghost use Rattle.std.specs.Prelude.{◌≡◌, ◌+◌, ◌<◌, ◌≤◌, ◌^◌, [], ◌∷◌, ◌++◌, length, Some, None, OnOk, slice_get, slice_set, vec_len, vec_capacity};
ghost use Rattle.std.specs.Option.{option_map};
ghost use Rattle.sgt_model.specs.ShortReplies.{full_fate};
ghost use Rattle.sgt_sched.specs.FateList.{AreKept, HasPath, HasStartCapacity, fate_of_end, live_in};
ghost use Rattle.sgt_sched.specs.SchedulerView.{fate_at};

use sgt_model::{NoMemory, ShortCause, ShortFate, Tid, Tids};
use std::alloc::Global;
use std::marker::Model;

/// How a transaction ended, in few bytes, because there is one for each start.
#[derive(Clone, Copy)]
pub enum End {
    /// It is live.
    Live,
    /// It committed.
    Committed,
    /// It was aborted on its caller's request.
    Quit,
    /// It was aborted: its procedure raised this code.
    Asked(u16),
    /// `Fell`: aborted in cascade. The cascade started with this transaction.
    Fell(Tid),
    /// It was aborted: its step would have closed a cycle. The cycle has this index in the list of cycles (`cycles`).
    Cycle(u32),
}

/// How the transactions ended, in the order of their starts. Cycles are long and rare, so they have a list of their own.
/// That list has capacity for one of each live transaction, so an end allocates nothing.
#[derive(Drop)]
pub struct Fates {
    ends: Vec<End>,
    cycles: Vec<Tids>,
    live: usize,
}

impl Model for Fates {
    ghost use Rattle.std.specs.Prelude.{◌-◌, ◌+◌};
    ghost use Rattle.std.specs.Vec.{vec_len, vec_capacity};
    ghost use Rattle.std.specs.Option.{option_map};
    ghost use Rattle.sgt_model.specs.ShortReplies.{full_fate};
    ghost use Rattle.sgt_sched.specs.FateList.{FateList, IsFateList, fates_of_ends};

    ghost Value = { FateList };

    ghost view = { λ f. record {
      fates = fates_of_ends f.cycles.items f.ends.items;
      end_capacity = vec_capacity f.ends - vec_len f.ends;
      cycle_capacity = vec_capacity f.cycles - (vec_len f.cycles + f.live);
    } };

    ghost invariant = { λ f. IsFateList f.ends.items f.cycles.items f.live (vec_capacity f.cycles) };
}

impl Fates {
    /// No fates. It allocates nothing.
    pub fn new(alloc: Global) -> Self
        ensures { result.fates ≡ [] }
    {
        Fates {
            ends: Vec::new(alloc),
            cycles: Vec::new(alloc),
            live: 0,
        }
    }

    /// Removes all fates, so that numbers begin at 0 again. It allocates nothing.
    pub fn clear(&mut self)
        ensures { self.new.fates ≡ [] }
    {
        self.ends.clear();
        self.cycles.clear();
        self.live = 0;
    }

    /// How many were started.
    pub fn len(&self) -> usize
        ensures { result ≡ length self.now.fates }
    {
        self.ends.len()
    }

    /// Provides capacity for one more start, and for its end. `NoMemory` if an allocation failed. The fates stay.
    pub fn reserve(&mut self) -> Result<(), NoMemory>
        ensures same { self.new.fates ≡ self.old.fates }
        ensures ready { OnOk result (HasStartCapacity self.new) }
    {
        self.ends.reserve(1)?;
        self.cycles.reserve(self.live + 1)?;
        Ok(())
    }

    /// Adds a transaction that was just started, as the last. It allocates nothing.
    pub fn start(&mut self)
        requires ready { HasStartCapacity self.old }
        requires few { length self.old.fates < 2 ^ 32 }
        ensures { self.new.fates ≡ self.old.fates ++ None ∷ [] }
    {
        self.ends.push_reserved(End::Live);
        self.live += 1;
    }

    /// Ends t, which is live. The path is that of the cycle, if it was aborted by one. It allocates nothing.
    pub fn end(&mut self, t: Tid, fate: ShortFate, cycle: &Tids)
        requires live { slice_get self.old.fates t ≡ Some None }
        ensures { self.new.fates ≡ slice_set self.old.fates t (Some (full_fate fate cycle.now)) }
    {
        let end = end_of(&mut self.cycles, &fate, cycle);
        self.live -= 1;
        self.ends[t.0 as usize] = end;
    }

    /// How t ended, if it did. If a cycle ended it, the path is written to `cycle`.
    pub fn get(&self, t: Tid, cycle: &mut Tids) -> Option<ShortFate>
        ensures { option_map (λ fate. full_fate fate cycle.new) result ≡ fate_at self.now.fates t }
    {
        match self.ends.get(t.0 as usize) {
            None | Some(End::Live) => None,
            Some(End::Committed) => Some(ShortFate::Committed),
            Some(End::Quit) => Some(ShortFate::Aborted(ShortCause::Quit)),
            Some(End::Asked(code)) => Some(ShortFate::Aborted(ShortCause::Asked(*code))),
            Some(End::Fell(first)) => Some(ShortFate::Fell(*first)),
            Some(End::Cycle(index)) => {
                *cycle = self.cycles[*index as usize].copied();
                Some(ShortFate::Aborted(ShortCause::Cycle))
            }
        }
    }
}

// The `End` of a fate. Its cycle, if any, is added to the others, where there is capacity for it.
fn end_of(cycles: &mut Vec<Tids>, fate: &ShortFate, cycle: &Tids) -> End
    requires enough { vec_len cycles.old < vec_capacity cycles.old }
    requires few { length cycles.old.items < 2 ^ 32 }
    ensures fate { fate_of_end cycles.new.items result ≡ Some (full_fate fate.now cycle.now) }
    ensures ended { live_in result ≡ 0 }
    ensures placed { HasPath (length cycles.new.items) result }
    ensures stay { AreKept cycles.old.items cycles.new.items }
    ensures one { length cycles.new.items ≤ length cycles.old.items + 1 }
    ensures capacity { vec_capacity cycles.new ≡ vec_capacity cycles.old }
{
    match fate {
        ShortFate::Committed => End::Committed,
        ShortFate::Fell(first) => End::Fell(*first),
        ShortFate::Aborted(ShortCause::Quit) => End::Quit,
        ShortFate::Aborted(ShortCause::Asked(code)) => End::Asked(*code),
        ShortFate::Aborted(ShortCause::Cycle) => {
            let index = cycles.len() as u32;
            cycles.push_reserved(cycle.copied());
            End::Cycle(index)
        }
    }
}
