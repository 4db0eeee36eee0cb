//! The steps on the epoch and on announcements.
ghost use Rattle.std.specs.Prelude.{◌≡◌, ◌<◌, Some, None, false, IfOk};
ghost use Rattle.nm_model.specs.declared.event.Event.TheVariants.{Sight, SightFor, Announce, Leave, LeaveWith, Scan, Advance};
ghost use Rattle.nm_model.specs.declared.reply.Reply.TheVariants.{Saw, Announced, Departed};
ghost use Rattle.nm_model.specs.Step.{reply_scan};
ghost use Rattle.nm_steps.specs.Rules.{knowledge};
ghost use Rattle.nm_steps.specs.Steps.{IsOf, IsSight, MayStep, TakesStep, sight_reply, pin_reply, advance_reply, IsAdvanceFrom, sight_of, noted_sight};

use crate::answers::Sighted;
use crate::pass::{Pass, Shared};
use nm_edge::Key;
use nm_model::{Brief, Event, Op};
use std::marker::Brand;

impl Shared {
    /// Reads the global epoch, in one step. If a cut of the worker waits for its label, this labels
    /// it. Otherwise, if the worker announces that epoch and is not pinned, this confirms its pin.
    pub fn sight(&self, pass: &mut Pass) -> Sighted
        requires { IsOf self.now pass.old }
        ensures took { TakesStep pass.old pass.new Sight (sight_reply result) }
        ensures reply { IsSight (knowledge pass.old.view).brief (sight_reply result) }
    {
        let word = self.layout.epoch() as usize;
        let found = self.load::<Brand>(&mut pass.seat, word, &Event::Sight);
        let reply = sighted(pass.brief, found);
        note_sight(&mut pass.brief, reply);
        reply
    }

    /// Reads the global epoch, for a worker that is not pinned, announces nothing and has no cut
    /// that waits for a label. It returns the epoch and has no other effect.
    pub fn sight_idle(&self, pass: &mut Pass) -> u64
        requires own { IsOf self.now pass.old }
        requires unpinned { (knowledge pass.old.view).brief.pin ≡ None }
        requires silent { (knowledge pass.old.view).brief.announcement ≡ None }
        requires labelled { (knowledge pass.old.view).brief.unlabelled ≡ false }
        ensures { TakesStep pass.old pass.new Sight (Saw result) }
    {
        let word = self.layout.epoch() as usize;
        let epoch = self.load::<Brand>(&mut pass.seat, word, &Event::Sight);
        pass.brief.seen = Some(epoch);
        epoch
    }

    /// Reads the global epoch again, to confirm a pin for an operation on a key. The worker
    /// announces `announced`, is not pinned, and has no cut that waits for a label. `Ok`: the epoch
    /// is still `announced`, and the worker is pinned for this operation. `Err`: another epoch was
    /// found; the worker is not pinned.
    pub fn sight_for(&self, pass: &mut Pass, announced: u64, op: Op, key: Key) -> Result<u64, u64>
        requires own { IsOf self.now pass.old }
        requires may { MayStep pass.old (SightFor op key) }
        requires unpinned { (knowledge pass.old.view).brief.pin ≡ None }
        requires announcement { (knowledge pass.old.view).brief.announcement ≡ Some announced }
        requires labelled { (knowledge pass.old.view).brief.unlabelled ≡ false }
        ensures took { TakesStep pass.old pass.new (SightFor op key) (pin_reply result) }
        ensures same { IfOk result (λ e. e ≡ announced) }
    {
        let word = self.layout.epoch() as usize;
        let event = Event::SightFor(op, key);
        let found = self.load::<Brand>(&mut pass.seat, word, &event);
        pass.brief.seen = Some(found);
        if found == announced {
            pass.brief.pin = Some(found);
            Ok(found)
        } else {
            Err(found)
        }
    }

    /// Announces the epoch that the worker read last, and returns it.
    pub fn announce(&self, pass: &mut Pass) -> u64
        requires own { IsOf self.now pass.old }
        requires may { MayStep pass.old Announce }
        ensures { TakesStep pass.old pass.new Announce (Announced result) }
    {
        let Some(seen) = pass.brief.seen else {
            unreachable!()
        };
        let _own = self.layout;
        let word = pass.announcement_word as usize;
        self.store::<Brand>(&mut pass.seat, word, seen + 1, &Event::Announce);
        pass.brief.announcement = Some(seen);
        seen
    }

    /// Clears the worker's announcement, and so unpins it.
    pub fn leave(&self, pass: &mut Pass)
        requires own { IsOf self.now pass.old }
        requires may { MayStep pass.old Leave }
        ensures { TakesStep pass.old pass.new Leave Departed }
    {
        let _own = self.layout;
        let word = pass.announcement_word as usize;
        self.store::<Brand>(&mut pass.seat, word, 0, &Event::Leave);
        pass.brief.announcement = None;
        pass.brief.pin = None;
    }

    /// Clears the worker's announcement, and records the answer to the operation of its pin.
    pub fn leave_with(&self, pass: &mut Pass, answer: bool)
        requires own { IsOf self.now pass.old }
        requires may { MayStep pass.old (LeaveWith answer) }
        ensures { TakesStep pass.old pass.new (LeaveWith answer) Departed }
    {
        let _own = self.layout;
        let word = pass.announcement_word as usize;
        self.store::<Brand>(&mut pass.seat, word, 0, &Event::LeaveWith(answer));
        pass.brief.announcement = None;
        pass.brief.pin = None;
    }

    /// Reads a worker's announcement. Returns the epoch, or `None` if that worker announces none.
    pub fn scan(&self, pass: &mut Pass, worker: u32) -> Option<u64>
        requires own { IsOf self.now pass.old }
        requires may { MayStep pass.old (Scan worker) }
        ensures { TakesStep pass.old pass.new (Scan worker) (reply_scan result) }
    {
        let word = self.layout.announcement(worker) as usize;
        let found = self.load::<Brand>(&mut pass.seat, word, &Event::Scan(worker));
        if found == 0 { None } else { Some(found - 1) }
    }

    /// Advances the global epoch by one from the epoch that the worker read last. `Ok`: the new
    /// epoch. `Err`: the epoch that was found in place of the old one.
    pub fn advance(&self, pass: &mut Pass) -> Result<u64, u64>
        requires own { IsOf self.now pass.old }
        requires may { MayStep pass.old Advance }
        ensures took { TakesStep pass.old pass.new Advance (advance_reply result) }
        ensures from { IsAdvanceFrom (knowledge pass.old.view).brief.seen result }
    {
        let Some(seen) = pass.brief.seen else {
            unreachable!()
        };
        let word = self.layout.epoch() as usize;
        let found = self.exchange::<Brand>(&mut pass.seat, word, seen, seen + 1, &Event::Advance);
        if found == seen {
            pass.brief.seen = Some(seen + 1);
            Ok(seen + 1)
        } else {
            pass.brief.seen = Some(found);
            Err(found)
        }
    }
}

/// Returns what a sight of this epoch returns.
fn sighted(brief: Brief, epoch: u64) -> Sighted
    ensures { sight_reply result ≡ sight_of brief epoch }
{
    if brief.unlabelled {
        return Sighted::Labelled(epoch);
    }
    match (brief.pin, brief.announcement) {
        (None, Some(announced)) if announced == epoch => Sighted::Pinned(epoch),
        (None, Some(_)) => Sighted::Missed(epoch),
        _ => Sighted::Saw(epoch),
    }
}

/// Records a sight in the worker's epochs. What the reply does not change stays as it is.
fn note_sight(brief: &mut Brief, reply: Sighted)
    ensures { brief.new ≡ noted_sight brief.old (sight_reply reply) }
{
    match reply {
        Sighted::Saw(epoch) | Sighted::Missed(epoch) => brief.seen = Some(epoch),
        Sighted::Labelled(epoch) => {
            brief.seen = Some(epoch);
            brief.unlabelled = false;
        }
        Sighted::Pinned(epoch) => {
            brief.seen = Some(epoch);
            brief.pin = Some(epoch);
        }
    }
}
