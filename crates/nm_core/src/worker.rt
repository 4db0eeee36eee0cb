//! What one worker knows, and how its events change it.
ghost use Rattle.std.specs.Prelude.{◌≡◌, ◌<◌, ◌==◌, ◌^◌, true, false, not, ◌&&◌, unwrap_or, replicate, length, [], Some, None, is_some, IfOk, OnOk, OnErr};
ghost use Rattle.std.specs.Option.{option_copied};
ghost use Rattle.nm_model.specs.declared.event.Field.TheVariants.{Birth};
ghost use Rattle.nm_model.specs.declared.reply.Reply.TheVariants.{BirthIs};
ghost use Rattle.nm_model.specs.Maps.{put, without, is_number};
ghost use Rattle.nm_model.specs.Ledgers.{held, front_of, free};
ghost use Rattle.nm_model.specs.Knowledge.{newcomer, unfilled, knows, is_private, seen_of, draft_of, beside, read, is_null, is_flagged, is_tagged, knows_leaf, way};
ghost use Rattle.nm_model.specs.Learning.{saw, labelling, pinned, rooted, moved, learn_sight, learn_scan, looked, met, filled_in, read_edge, linked_in, swapped_in, cutting, inheriting, resigned};
ghost use Rattle.nm_model.specs.Reports.{in_queues};
ghost use Rattle.nm_model.specs.Ordered.{new_leaf};
ghost use Rattle.nm_model.specs.Step.{is_edge, reply_sight, reply_scan, reply_look, others_scanned, node_of, node_linked, is_leaf_draft, is_linkable, may_be_over, first, free_checks};
ghost use Rattle.nm_core.specs.Admission.{Admits};

use crate::known::Known;
use nm_edge::{Edge, Key, Layout, NodeId, Side};
use nm_model::event::Field;
use nm_model::knowledge::{Brief, Draft, Seen};
use nm_model::ledger::Ledger;
use nm_model::ledgers::Ledgers;
use nm_model::memory::Node;
use nm_model::reply::{Refused, Reply};
use nm_model::slot_map::SlotMap;
use std::alloc::{AllocError, Global};
use std::marker::Model;
use std::mem;

/// The knowledge of one worker.
#[derive(Drop)]
pub struct WorkerState {
    alloc: Global,
    brief: Brief,
    scanned: Vec<bool>,
    known: Known,
    drafts: SlotMap<Draft>,
    ledgers: Ledgers,
    gone: bool,
}

impl Model for WorkerState {
    ghost use Rattle.nm_model.specs.Knowledge.{Knowledge};

    ghost Value = { Knowledge };

    ghost view = { λ w. record {
      brief = w.brief;
      scanned = w.scanned.items;
      known = w.known;
      drafts = w.drafts;
      ledgers = w.ledgers;
      gone = w.gone;
    } };
}

impl WorkerState {
    /// Returns a worker that has done nothing yet.
    pub fn new(alloc: Global, layout: Layout, number: u32) -> Result<WorkerState, AllocError>
        requires { number < layout.workers }
        ensures { IfOk result (λ worker. worker ≡ newcomer layout number) }
    {
        let workers = layout.workers() as usize;
        Ok(WorkerState {
            alloc,
            brief: Brief {
                seen: None,
                announcement: None,
                pin: None,
                unlabelled: false,
            },
            scanned: vec![in alloc; false; workers]?,
            known: Known::new(alloc),
            drafts: SlotMap::new(alloc),
            ledgers: Ledgers::own(alloc, workers, number as usize)?,
            gone: false,
        })
    }

    /// Returns its epochs.
    pub fn brief(&self) -> Brief
        ensures { result ≡ self.now.brief }
    {
        self.brief
    }

    /// Returns whether it has resigned.
    pub fn is_gone(&self) -> bool
        ensures { result ≡ self.now.gone }
    {
        self.gone
    }

    /// Returns the number of slots that are private to it.
    pub fn private(&self) -> usize
        ensures { result ≡ length self.now.drafts }
    {
        self.drafts.len()
    }

    /// Returns the number of entries that wait in the queues that it holds.
    pub fn waiting(&self) -> usize
        requires { in_queues self.now.ledgers < 2 ^ 32 }
        ensures { result ≡ in_queues self.now.ledgers }
    {
        self.ledgers.waiting()
    }

    // Records that the global epoch was read.
    fn saw(&mut self, epoch: u64)
        ensures { self.new ≡ saw self.old epoch }
    {
        if self.brief.seen != Some(epoch) {
            self.scanned.fill(false);
        }
        self.brief.seen = Some(epoch);
    }

    /// Records a sight (epoch read) and returns its reply: it labels a cut, confirms a pin, or only
    /// reads.
    ///
    /// Errors: out of memory; the knowledge is unchanged.
    pub fn sight(&mut self, epoch: u64) -> Result<Reply, AllocError>
        ensures reply { IfOk result (λ reply. reply ≡ reply_sight self.old epoch) }
        ensures ok { OnOk result (self.new ≡ learn_sight self.old (reply_sight self.old epoch)) }
        ensures err { OnErr result (self.new ≡ self.old) }
    {
        if self.brief.unlabelled {
            self.saw(epoch);
            self.label(epoch);
            return Ok(Reply::Labelled(epoch));
        }
        match (self.brief.pin, self.brief.announcement) {
            (None, Some(announced)) if announced == epoch => {
                let known = Known::rooted(self.alloc)?;
                self.saw(epoch);
                self.pin(epoch, known);
                Ok(Reply::Pinned(epoch))
            }
            (None, Some(_)) => {
                self.saw(epoch);
                Ok(Reply::Missed(epoch))
            }
            _ => {
                self.saw(epoch);
                Ok(Reply::Saw(epoch))
            }
        }
    }

    // Gives its cuts this label.
    fn label(&mut self, epoch: u64)
        ensures { self.new ≡ labelling self.old epoch }
    {
        self.ledgers.label(epoch);
        self.brief.unlabelled = false;
    }

    // Pins the worker, which then knows the root and its left child.
    fn pin(&mut self, epoch: u64, known: Known)
        requires { known ≡ rooted }
        ensures { self.new ≡ pinned self.old epoch }
    {
        self.brief.pin = Some(epoch);
        self.known = known;
    }

    /// Records that the epoch last read was announced.
    pub fn announce(&mut self, epoch: u64)
        ensures { self.new ≡ record self.old
            { brief = record self.old.brief { announcement = Some epoch } } }
    {
        self.brief.announcement = Some(epoch);
    }

    /// Records that the announcement was cleared: the worker forgets all known nodes.
    pub fn leave(&mut self)
        ensures { self.new ≡ record self.old
            { brief = record self.old.brief { announcement = None; pin = None }; known = [] } }
    {
        self.brief.announcement = None;
        self.brief.pin = None;
        self.known.clear();
    }

    /// Records that the announcement of a worker was read, and returns the reply.
    pub fn scan(&mut self, other: usize, announcement: Option<u64>) -> Reply
        requires { other < length self.old.scanned }
        ensures reply { result ≡ reply_scan announcement }
        ensures knows { self.new ≡ learn_scan self.old other (reply_scan announcement) }
    {
        self.scanned[other] = announcement.is_none() || announcement == self.brief.seen;
        announcement.map_or(Reply::Idle, Reply::In)
    }

    /// Returns whether each worker other than `me` was scanned at the epoch last read.
    pub fn has_scanned_others(&self, me: usize) -> bool
        ensures { result ≡ others_scanned me self.now.scanned }
    {
        others_scanned(me, &self.scanned)
    }

    /// Records that an exchange of the global epoch found or left this one.
    pub fn moved(&mut self, epoch: u64)
        ensures { self.new ≡ moved self.old epoch }
    {
        self.brief.seen = Some(epoch);
        self.scanned.fill(false);
    }
}

impl WorkerState {
    /// Returns whether a node is known.
    pub fn knows(&self, slot: u32) -> bool
        ensures { result ≡ knows self.now slot }
    {
        self.known.contains(slot)
    }

    /// Returns whether a slot is private.
    pub fn is_private(&self, slot: u32) -> bool
        ensures { result ≡ is_private self.now slot }
    {
        self.drafts.contains(slot)
    }

    /// Returns whether it has private slots.
    pub fn has_private(&self) -> bool
        ensures { result ≡ not (length self.now.drafts == 0) }
    {
        !self.drafts.is_empty()
    }

    // Returns what is known of a node.
    pub(crate) fn seen(&self, slot: u32) -> Seen
        ensures { result ≡ seen_of self.now slot }
    {
        match self.known.get(slot) {
            Some(seen) => seen,
            None => Seen::unread(),
        }
    }

    /// Returns what was stored in a private slot.
    pub fn draft(&self, slot: u32) -> Draft
        ensures { result ≡ draft_of self.now slot }
    {
        self.drafts.get(slot).unwrap_or(Draft::unfilled())
    }

    /// Returns the last word read of an edge, if any.
    pub fn read(&self, slot: u32, side: Side) -> Option<Edge>
        ensures { result ≡ read self.now slot side }
    {
        self.seen(slot).on(side)
    }

    /// Returns whether the chain leads from one node to another in fewer than `fuel` steps. Keeps
    /// the steps that it finds, if memory allows.
    pub fn has_way(&mut self, fuel: u32, from: u32, to: u32) -> bool
        ensures way { result ≡ is_some (way fuel self.old from to) }
        ensures same { self.new ≡ self.old }
    {
        self.known.has_way(fuel, from, to)
    }

    /// Returns whether an edge of the node was last read as null.
    pub fn knows_leaf(&self, slot: u32) -> bool
        ensures { result ≡ knows_leaf self.now slot }
    {
        is_null(self.read(slot, Side::Left)) || is_null(self.read(slot, Side::Right))
    }

    /// Records that a slot was claimed.
    ///
    /// Errors: out of memory; the knowledge is unchanged.
    pub fn claim(&mut self, slot: u32) -> Result<(), AllocError>
        ensures ok { OnOk result
            (self.new ≡ record self.old { drafts = put self.old.drafts slot unfilled }) }
        ensures err { OnErr result (self.new ≡ self.old) }
    {
        self.drafts.put(slot, Draft::unfilled())
    }

    /// Records that a private slot was given back.
    pub fn give(&mut self, slot: u32)
        ensures { self.new ≡ record self.old { drafts = without self.old.drafts slot } }
    {
        self.drafts.remove(slot);
    }

    /// Checks whether a slot is the front of a queue, and may be freed.
    pub fn may_free(&self, slot: u32) -> Result<(), Refused>
        ensures { Admits (first (free_checks self.now slot)) result }
    {
        let entry = self.ledgers.find(slot).ok_or(Refused::NotPrivate)?;
        let seen = self.brief.seen.ok_or(Refused::NotReady)?;
        if entry.label.is_none() {
            return Err(Refused::NotReady);
        }
        let front = self.ledgers.front(slot).ok_or(Refused::NotFront)?;
        if front.is_young(seen) {
            return Err(Refused::TooYoung);
        }
        Ok(())
    }

    /// Returns the node at the front of a held queue that is of this slot; slot 0 if there is none.
    pub fn front(&self, slot: u32) -> NodeId
        ensures { result ≡ node_of (front_of self.now.ledgers slot) }
    {
        match self.ledgers.front(slot) {
            Some(front) => front.node,
            None => NodeId { slot: 0, birth: 0 },
        }
    }

    /// Records that the node at the front of a queue was freed.
    ///
    /// Errors: out of memory; the knowledge is unchanged.
    pub fn free(&mut self, node: NodeId) -> Result<(), AllocError>
        ensures ok { OnOk result
            (self.new ≡ record self.old { ledgers = free self.old.ledgers node }) }
        ensures err { OnErr result (self.new ≡ self.old) }
    {
        self.ledgers.free(node)
    }

    /// Records a read of `field` of `slot`, and returns the reply. The worker learns an edge or a
    /// birth of a known node, and only a birth of a private slot.
    ///
    /// Errors: out of memory; the knowledge is unchanged.
    pub fn look(&mut self, slot: u32, field: Field, node: Node) -> Result<Reply, AllocError>
        requires { is_private self.old slot ≡ false → knows self.old slot ≡ true }
        ensures reply { IfOk result (λ reply. reply ≡ reply_look node field) }
        ensures ok { OnOk result (self.new ≡ looked self.old slot field (reply_look node field)) }
        ensures err { OnErr result (self.new ≡ self.old) }
    {
        match field {
            Field::Key => Ok(Reply::KeyIs(node.key)),
            Field::Edge(side) => {
                let edge = node.edge(side);
                if !self.is_private(slot) {
                    self.read_edge(slot, side, edge)?;
                }
                Ok(Reply::EdgeIs(edge))
            }
            Field::Birth => {
                self.look_at_birth(slot, node.birth)?;
                Ok(Reply::BirthIs(node.birth))
            }
        }
    }

    // Records that a birth was read.
    fn look_at_birth(&mut self, slot: u32, birth: u64) -> Result<(), AllocError>
        ensures ok { OnOk result (self.new ≡ looked self.old slot Birth (BirthIs birth)) }
        ensures err { OnErr result (self.new ≡ self.old) }
    {
        if self.is_private(slot) {
            let draft = Draft {
                looked: Some(birth),
                ..self.draft(slot)
            };
            return self.drafts.put(slot, draft);
        }
        let seen = Seen {
            birth: Some(birth),
            ..self.seen(slot)
        };
        self.known.put(slot, seen)
    }

    // Makes a slot known, unless it is 0.
    fn meet(&mut self, slot: u32) -> Result<(), AllocError>
        ensures ok { OnOk result (self.new ≡ record self.old { known = met self.old.known slot }) }
        ensures err { OnErr result (self.new ≡ self.old) }
    {
        if slot == 0 || self.known.contains(slot) {
            return Ok(());
        }
        self.known.put(slot, Seen::unread())
    }

    /// Records that a field of a private slot was stored.
    pub fn fill(&mut self, slot: u32, field: Field, value: u64)
        requires private { is_private self.old slot ≡ true }
        requires fits { is_edge field ≡ true → value < 2 ^ 32 }
        ensures { self.new ≡ record self.old
            { drafts = put self.old.drafts slot (filled_in (draft_of self.old slot) field value) } }
    {
        let draft = self.draft(slot).filled_in(field, value);
        self.drafts.replace(slot, draft);
    }

    /// Returns whether a parent is known, and a leaf is known as one.
    pub fn holds_leaf(&self, parent: u32, leaf: u32) -> bool
        ensures { result ≡ (knows self.now parent
            && (knows self.now leaf && knows_leaf self.now leaf)) }
    {
        self.knows(parent) && self.knows(leaf) && self.knows_leaf(leaf)
    }

    /// Returns whether a link may be over a slot: over a known leaf, or in a radix tree over any
    /// slot but the fixed ones.
    pub fn may_be_over(&self, layout: Layout, slot: u32) -> bool
        ensures { result ≡ may_be_over layout self.now slot }
    {
        self.knows_leaf(slot) || (layout.is_radix() && 6 <= slot)
    }

    /// Returns whether a parent is known, and a slot over which a link may be.
    pub fn holds_place(&self, layout: Layout, parent: u32, slot: u32) -> bool
        ensures { result ≡ (knows self.now parent
            && (knows self.now slot && may_be_over layout self.now slot)) }
    {
        self.knows(parent) && self.knows(slot) && self.may_be_over(layout, slot)
    }

    /// Returns whether the edge on a side was last read as flagged.
    pub fn knows_flagged(&self, slot: u32, side: Side) -> bool
        ensures { result ≡ is_flagged (read self.now slot side) }
    {
        self.read(slot, side).is_some_and(Edge::flag)
    }

    /// Returns whether the edge on a side was last read as tagged.
    pub fn knows_tagged(&self, slot: u32, side: Side) -> bool
        ensures { result ≡ is_tagged (read self.now slot side) }
    {
        self.read(slot, side).is_some_and(Edge::tag)
    }

    /// Returns whether a private slot is filled as a leaf.
    pub fn is_leaf_draft(&self, slot: u32) -> bool
        ensures { result ≡ is_leaf_draft self.now slot }
    {
        let draft = self.draft(slot);
        self.is_private(slot)
            && draft.key.is_some()
            && draft.left == Some(0)
            && draft.right == Some(0)
    }

    /// Returns whether a private slot is filled as an internal node over this slot and a private
    /// leaf.
    pub fn is_linkable(&self, new: u32, leaf: u32) -> bool
        ensures { result ≡ is_linkable self.now new leaf }
    {
        self.draft(new).is_fork_over(leaf) && self.is_leaf_draft(self.leaf_beside(new, leaf))
    }

    // Makes two slots no longer private.
    fn publish(&mut self, new: u32, leaf: u32)
        ensures { self.new ≡ record self.old
            { drafts = without (without self.old.drafts new) leaf } }
    {
        self.drafts.remove(new);
        self.drafts.remove(leaf);
    }

    /// Records that a private slot was linked into the tree, over this slot and the private leaf
    /// beside it. Returns the new node.
    ///
    /// Errors: out of memory; the knowledge is unchanged.
    pub fn link(&mut self, leaf: u32, new: u32) -> Result<NodeId, AllocError>
        ensures node { IfOk result (λ node. node ≡ node_linked self.old new) }
        ensures ok { OnOk result (self.new ≡ linked_in self.old leaf new) }
        ensures err { OnErr result (self.new ≡ self.old) }
    {
        let node = self.node_drafted(new);
        let beside = self.leaf_beside(new, leaf);
        self.meet(new)?;
        self.publish(new, beside);
        Ok(node)
    }

    /// Records that this worker, of this number, cut nodes, which wait for their label.
    ///
    /// Errors: out of memory; the knowledge is unchanged.
    pub fn retire(&mut self, number: usize, nodes: &[NodeId]) -> Result<(), AllocError>
        requires { number < length self.old.ledgers }
        ensures ok { OnOk result (self.new ≡ cutting number self.old nodes.now) }
        ensures err { OnErr result (self.new ≡ self.old) }
    {
        self.ledgers.retire(number, nodes)?;
        self.brief.unlabelled = true;
        Ok(())
    }

    /// Records that this worker, of this number, swapped a private leaf in. It cut these nodes by it,
    /// which wait for their label.
    ///
    /// Errors: out of memory; the knowledge is unchanged.
    pub fn swap(&mut self, number: usize, new: u32, nodes: &[NodeId]) -> Result<(), AllocError>
        requires is_there { number < length self.old.ledgers }
        requires is_slot { 0 < new }
        ensures ok { OnOk result (self.new ≡ cutting number (swapped_in self.old new) nodes.now) }
        ensures err { OnErr result (self.new ≡ self.old) }
    {
        let is_met = self.known.contains(new);
        self.meet(new)?;
        if let Err(refused) = self.retire(number, nodes) {
            if !is_met {
                self.known.remove(new);
            }
            return Err(refused);
        }
        self.drafts.remove(new);
        Ok(())
    }

    /// Returns a copy of the ledgers that it holds.
    pub fn ledgers_in(&self, alloc: Global) -> Result<Ledgers, AllocError>
        ensures { IfOk result (λ ledgers. ledgers ≡ self.now.ledgers) }
    {
        self.ledgers.clone_in(alloc)
    }

    /// Returns the ledger of an origin, if it holds it.
    pub fn ledger(&self, origin: u32) -> Option<&Ledger>
        ensures { option_copied result ≡ held self.now.ledgers origin }
    {
        self.ledgers.get(origin)
    }

    /// Resigns, and returns its ledgers, which another worker takes over.
    pub fn resign(&mut self, none: Ledgers) -> Ledgers
        requires { none ≡ replicate (length self.old.ledgers) None }
        ensures ledgers { result ≡ self.old.ledgers }
        ensures gone { self.new ≡ resigned self.old }
    {
        self.gone = true;
        mem::replace(&mut self.ledgers, none)
    }

    /// Takes over the ledgers of another worker.
    pub fn inherit(&mut self, passed: Ledgers)
        requires { length passed ≡ length self.old.ledgers }
        ensures { self.new ≡ inheriting self.old passed }
    {
        self.ledgers.take_over(passed);
    }

    // Returns the node that a private slot becomes.
    fn node_drafted(&self, new: u32) -> NodeId
        ensures { result ≡ node_linked self.now new }
    {
        NodeId {
            slot: new,
            birth: self.draft(new).birth.unwrap_or(0),
        }
    }

    // Returns, of the two slots to which the filled edges of a private slot lead, the one that is
    // not this leaf.
    fn leaf_beside(&self, new: u32, leaf: u32) -> u32
        ensures { result ≡ unwrap_or (beside (draft_of self.now new) leaf) 0 }
    {
        self.draft(new).beside(leaf).unwrap_or(0)
    }

    /// Returns whether the new leaf, which is beside this leaf under a new internal node, has this
    /// key.
    pub fn has_new_leaf(&self, new: u32, leaf: u32, key: Key) -> bool
        ensures { result ≡ is_number (new_leaf self.now leaf new).key key }
    {
        self.draft(self.leaf_beside(new, leaf)).has_key(key)
    }

    /// Records that an edge of a known node was read. The slot to which it leads is known from now
    /// on.
    ///
    /// Errors: out of memory; the knowledge is unchanged.
    pub fn read_edge(&mut self, slot: u32, side: Side, edge: Edge) -> Result<(), AllocError>
        requires { knows self.old slot ≡ true }
        ensures ok { OnOk result (self.new ≡ read_edge self.old slot side edge) }
        ensures err { OnErr result (self.new ≡ self.old) }
    {
        let seen = self.seen(slot).with_read(side, edge);
        self.meet(edge.slot())?;
        self.known.replace(slot, seen);
        Ok(())
    }
}

// Returns whether an edge was read, and as null.
fn is_null(edge: Option<Edge>) -> bool
    ensures { result ≡ is_null edge }
{
    edge.is_some_and(|edge| edge.slot() == 0)
}

// Returns whether each worker other than this one was scanned.
fn others_scanned(me: usize, scanned: &[bool]) -> bool
    ensures { result ≡ others_scanned me scanned.now }
{
    scanned
        .iter()
        .enumerate()
        .all(|(worker, scanned)| *scanned || worker == me)
}
