//! What a worker's log shows of the operation of its pin: the walks for its key, and what it
//! changed.
#![tactic(auto, unfolding(nm_model::specs::Searches::searched))]

ghost use Rattle.std.specs.Prelude.{◌≡◌, ◌||◌, is_some, false, [], None, OnOk};
ghost use Rattle.std.specs.List.{list_any};
ghost use Rattle.nm_model.specs.declared.event.Field.TheVariants as field;
ghost use Rattle.nm_model.specs.declared.reply.Reply.TheVariants as reply;
ghost use Rattle.nm_model.specs.Searches.{is_node, idle, begun, left, look_for, linked, swapped, flagged, spliced, is_flagged_in, searched};
ghost use Rattle.nm_model.specs.Rooms.{HasRoom, HasRoomFor};
ghost use Rattle.nm_model.specs.Ordered.{has_removed, has_put_in, shows_call, shows_place, links_in_order, swaps_in_order, flags_in_order, disorder};
ghost use Rattle.nm_core.specs.Admission.{Admits};

use crate::worker::WorkerState;
use nm_edge::{Edge, Key, Layout, NodeId, Side};
use nm_model::arrivals::{self, Arrival, Call};
use nm_model::event::{Event, Field, Op};
use nm_model::reply::{Refused, Reply};
use std::alloc::{AllocError, Global};
use std::marker::Model;

/// What a worker's log shows of the operation of its pin.
#[derive(Drop)]
pub struct Search {
    call: Option<Call>,
    linked: bool,
    swapped: bool,
    flagged: Option<NodeId>,
    cut: bool,
    walks: Vec<Arrival>,
    later: Vec<Arrival>,
}

impl Model for Search {
    ghost use Rattle.std.specs.Prelude.{vec_capacity};
    ghost use Rattle.nm_model.specs.Rooms.{Roomy};

    ghost Value = { Roomy };

    ghost view = { λ s. record {
      tells = record {
        call = s.call;
        linked = s.linked;
        swapped = s.swapped;
        flagged = s.flagged;
        cut = s.cut;
        walks = s.walks.items;
        later = s.later.items;
      };
      room = vec_capacity s.walks;
      later_room = vec_capacity s.later;
    } };
}

// Returns whether a node is one of these.
fn is_among(nodes: &[NodeId], node: NodeId) -> bool
    ensures { result ≡ list_any (is_node node) nodes.now }
{
    nodes.iter().any(|other| node.slot == other.slot && node.birth == other.birth)
}

impl Search {
    /// Returns the search of no operation. Takes no memory.
    pub fn idle(alloc: Global) -> Search
        ensures { result.tells ≡ idle }
    {
        Search {
            call: None,
            linked: false,
            swapped: false,
            flagged: None,
            cut: false,
            walks: Vec::new(alloc),
            later: Vec::new(alloc),
        }
    }

    /// Reserves the memory that an event needs: a look needs room for one more arrival in each
    /// list.
    pub fn make_room(&mut self, event: &Event) -> Result<(), AllocError>
        ensures same { self.new.tells ≡ self.old.tells }
        ensures room { OnOk result (HasRoomFor event.now self.new) }
    {
        if let Event::Look(..) = event {
            self.walks.reserve(1)?;
            self.later.reserve(1)?;
        }
        Ok(())
    }

    // Starts anew, for this operation or for none.
    fn restart(&mut self, call: Option<Call>)
        ensures { self.new.tells
            ≡ record {
              call = call;
              linked = false;
              swapped = false;
              flagged = None;
              cut = false;
              walks = [];
              later = [];
            } }
    {
        self.call = call;
        self.linked = false;
        self.swapped = false;
        self.flagged = None;
        self.cut = false;
        self.walks.clear();
        self.later.clear();
    }

    // Starts a new search if a sight (epoch read) confirmed a pin, for this operation or for none.
    fn begin(&mut self, call: Option<Call>, reply: &Reply)
        ensures { self.new.tells ≡ begun self.old.tells call reply.now }
    {
        if let Reply::Pinned(_) = reply {
            self.restart(call);
        }
    }

    // Ends the search if a leave (unpin) was answered.
    fn leave(&mut self, reply: &Reply)
        ensures { self.new.tells ≡ left self.old.tells reply.now }
    {
        if let Reply::Departed = reply {
            self.restart(None);
        }
    }

    // Records a look with its reply.
    fn look(&mut self, slot: u32, field: Field, reply: &Reply)
        requires { HasRoom self.old }
        ensures { self.new.tells
            ≡ look_for self.old.tells self.old.tells.call slot field reply.now }
    {
        match (field, reply) {
            (Field::Key, Reply::KeyIs(key)) => self.key(slot, *key),
            (Field::Edge(side), Reply::EdgeIs(edge)) => self.edge(slot, side, *edge),
            _ => {}
        }
    }

    // Records that the key of a slot was read.
    fn key(&mut self, slot: u32, key: u64)
        ensures { self.new.tells
            ≡ look_for self.old.tells self.old.tells.call slot field.Key (reply.KeyIs key) }
    {
        if self.call.is_none() {
            return;
        }
        arrivals::put_key(&mut self.walks, slot, key);
        if self.flagged.is_some() {
            arrivals::put_key(&mut self.later, slot, key);
        }
    }

    // Records that an edge of a slot was read.
    fn edge(&mut self, slot: u32, side: Side, edge: Edge)
        requires { HasRoom self.old }
        ensures { self.new.tells
            ≡ look_for self.old.tells self.old.tells.call slot (field.Edge side)
            (reply.EdgeIs edge) }
    {
        let Some(call) = self.call else {
            return;
        };
        arrivals::put_edge(&mut self.walks, call.key, slot, side, edge.slot());
        if self.flagged.is_some() {
            arrivals::put_edge(&mut self.later, call.key, slot, side, edge.slot());
        }
    }

    // Records a link with its reply.
    fn link(&mut self, reply: &Reply)
        ensures { self.new.tells ≡ linked self.old.tells reply.now }
    {
        if let Reply::Linked(_) = reply {
            self.linked = true;
        }
    }

    // Records a flag with its reply.
    fn flag(&mut self, reply: &Reply)
        ensures { self.new.tells ≡ flagged self.old.tells reply.now }
    {
        if let Reply::Flagged(leaf) = reply {
            self.flagged = Some(*leaf);
        }
    }

    // Records a swap with its reply.
    fn swap(&mut self, reply: &Reply)
        ensures { self.new.tells ≡ swapped self.old.tells reply.now }
    {
        if let Reply::Cut(_) = reply {
            self.swapped = true;
        }
    }

    // Records a splice with its reply.
    fn splice(&mut self, reply: &Reply)
        ensures { self.new.tells ≡ spliced self.old.tells reply.now }
    {
        if let Reply::Cut(nodes) = reply {
            self.cut = self.cut || self.flagged_in(nodes.as_slice());
        }
    }

    // Returns whether the flagged leaf is one of these nodes.
    fn flagged_in(&self, nodes: &[NodeId]) -> bool
        ensures { result ≡ is_flagged_in self.now.tells.flagged nodes.now }
    {
        match self.flagged {
            Some(leaf) => is_among(nodes, leaf),
            None => false,
        }
    }

    /// Records an event with its reply. A look needs room.
    pub fn learn(&mut self, event: &Event, reply: &Reply)
        requires { HasRoomFor event.now self.old }
        ensures { self.new.tells ≡ searched self.old.tells event.now reply.now }
    {
        match *event {
            Event::Sight => self.begin(None, reply),
            Event::SightFor(op, key) => self.begin(Some(Call { op, key }), reply),
            Event::Leave | Event::LeaveWith(_) => self.leave(reply),
            Event::Look(slot, field) => self.look(slot, field, reply),
            Event::Link(..) => self.link(reply),
            Event::Flag(..) => self.flag(reply),
            Event::Splice(..) => self.splice(reply),
            Event::Swap(..) => self.swap(reply),
            Event::Announce
            | Event::Scan(_)
            | Event::Advance
            | Event::Claim(_)
            | Event::Give(_)
            | Event::Fill(..)
            | Event::Tag(..)
            | Event::Join(_) => {}
        }
    }
}

impl Search {
    // Returns whether the leaf that was flagged is cut: by a splice of this worker, or because a
    // walk that began after the flag ended elsewhere.
    fn has_removed(&self) -> bool
        ensures { result ≡ has_removed self.now.tells self.now.tells.flagged }
    {
        match self.flagged {
            Some(leaf) => self.cut || arrivals::has_ended_elsewhere(&self.later, leaf.slot),
            None => false,
        }
    }

    // Returns whether the log shows this answer of the operation.
    fn shows(&self, answer: bool) -> bool
        ensures { result ≡ shows_call self.now.tells self.now.tells.call answer }
    {
        let Some(Call { op, key }) = self.call else {
            return false;
        };
        match (op, answer) {
            (Op::Has, true) => arrivals::has_ended_at(&self.walks, key),
            (Op::Has, false) => arrivals::has_ended_beside(&self.walks, key),
            (Op::Insert, true) => self.linked,
            (Op::Insert, false) => !self.linked && arrivals::has_ended_at(&self.walks, key),
            (Op::Delete, true) => self.has_removed(),
            (Op::Delete, false) => {
                self.flagged.is_none() && arrivals::has_ended_beside(&self.walks, key)
            }
        }
    }

    // Returns whether the operation is an insert that has put its leaf in, by a link or by a swap.
    fn has_put_in(&self) -> bool
        ensures { result ≡ has_put_in self.now.tells }
    {
        self.linked || self.swapped
    }

    // Returns whether the operation has put a leaf in or flagged one, so that it owes an answer.
    fn owes_answer(&self) -> bool
        ensures { result ≡ (has_put_in self.now.tells || is_some self.now.tells.flagged) }
    {
        self.has_put_in() || self.flagged.is_some()
    }

    // Returns whether a walk for the key came to the place at which the new nodes put it beside a
    // slot. The walk ended there, at a leaf. In a radix tree it may come to any slot, by the root's
    // edge or from a parent that has the key in its range.
    fn shows_place(
        &self,
        layout: Layout,
        worker: &WorkerState,
        key: Key,
        parent: u32,
        side: Side,
        slot: u32,
        new: u32,
    ) -> bool
        ensures { result ≡ shows_place layout worker.now key parent side slot new
            self.now.tells.walks }
    {
        let draft = worker.draft(new);
        if layout.is_radix() {
            let is_leaf = worker.knows_leaf(slot);
            arrivals::are_within(&self.walks, key, parent, side)
                && arrivals::may_link_between(&self.walks, draft, is_leaf, key, parent, side, slot)
        } else {
            arrivals::may_link(&self.walks, draft, key, parent, side, slot)
        }
    }

    // Returns whether the operation is an insert that may link here: it has put no leaf in
    // yet, the new leaf has its key, and a walk of it came here.
    fn may_link(
        &self,
        layout: Layout,
        worker: &WorkerState,
        parent: u32,
        side: Side,
        slot: u32,
        new: u32,
    ) -> bool
        ensures { result ≡ links_in_order layout worker.now self.now.tells self.now.tells.call
            parent side slot new }
    {
        let Some(
            Call {
                op: Op::Insert,
                key,
            },
        ) = self.call
        else {
            return false;
        };
        !self.has_put_in()
            && worker.has_new_leaf(new, slot, key)
            && self.shows_place(layout, worker, key, parent, side, slot, new)
    }

    // Returns whether the operation is an insert that may swap here: it has put no leaf in
    // yet, the new leaf has its key, and a walk of it ended here.
    fn may_swap(&self, worker: &WorkerState, parent: u32, side: Side, leaf: u32, new: u32) -> bool
        ensures { result ≡ swaps_in_order worker.now self.now.tells self.now.tells.call
            parent side leaf new }
    {
        let Some(
            Call {
                op: Op::Insert,
                key,
            },
        ) = self.call
        else {
            return false;
        };
        !self.has_put_in()
            && worker.draft(new).has_key(key)
            && arrivals::may_flag(&self.walks, key, parent, side, leaf)
    }

    // Returns whether the operation is a delete that may flag here: it has flagged no leaf yet, and
    // a walk of it ended here.
    fn may_flag(&self, parent: u32, side: Side, leaf: u32) -> bool
        ensures { result ≡ flags_in_order self.now.tells self.now.tells.call parent side leaf }
    {
        let Some(
            Call {
                op: Op::Delete,
                key,
            },
        ) = self.call
        else {
            return false;
        };
        self.flagged.is_none() && arrivals::may_flag(&self.walks, key, parent, side, leaf)
    }

    /// Checks whether an event that a plain core allows is in order. A link, a swap or a flag
    /// must be at a place to which a walk of the worker's own operation came. A leave must owe no answer, or
    /// give one that the log shows.
    pub fn admit(&self, layout: Layout, worker: &WorkerState, event: &Event) -> Result<(), Refused>
        ensures { Admits (disorder layout worker.now self.now.tells event.now) result }
    {
        match *event {
            Event::Link(parent, side, slot, new)
                if !self.may_link(layout, worker, parent, side, slot, new) => {
                Err(Refused::NotOrdered)
            }
            Event::Swap(parent, side, leaf, new)
                if !self.may_swap(worker, parent, side, leaf, new) => Err(Refused::NotOrdered),
            Event::Flag(parent, side, leaf) if !self.may_flag(parent, side, leaf) => {
                Err(Refused::NotOrdered)
            }
            Event::Leave if self.owes_answer() => Err(Refused::NoAnswer),
            Event::LeaveWith(answer) if !self.shows(answer) => Err(Refused::NoAnswer),
            _ => Ok(()),
        }
    }
}
