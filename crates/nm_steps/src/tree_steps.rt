//! The steps on nodes: looks, fills, and the exchanges and marks of edges.
ghost use Rattle.std.specs.Prelude.{◌≡◌, ◌≤◌, ◌+◌, ◌*◌, true, Some};
ghost use Rattle.nm_edge.specs.Edges.{edge_in, is_word};
ghost use Rattle.nm_edge.specs.Words.{IsSlot, at_edge, word};
ghost use Rattle.nm_model.specs.declared.event.Event.TheVariants.{Look, Fill, Link, Flag, Tag, Swap};
ghost use Rattle.nm_model.specs.declared.event.Field.TheVariants.{Key as KeyOf, Edge as EdgeOn, Birth};
ghost use Rattle.nm_model.specs.declared.reply.Reply.TheVariants.{KeyIs, EdgeIs, BirthIs, Filled, Was};
ghost use Rattle.nm_model.specs.Knowledge.{read};
ghost use Rattle.nm_model.specs.Step.{last_number};
ghost use Rattle.nm_steps.specs.Rules.{LinkHasValue, knowledge};
ghost use Rattle.nm_steps.specs.Steps.{IsOf, MayStep, TakesStep, link_reply, flag_reply, splice_of, splice_reply, swap_reply};

use crate::pass::{Pass, Shared};
use nm_edge::{Edge, Layout, Side};
use nm_model::{Event, Field};
use std::marker::Brand;

/// The tag's bit of an edge's word.
const TAG: u64 = 2;

/// A frozen chain, from the successor down to the parent: what a splice of the ancestor's edge on
/// `side` cuts off. The parent's edge on the side `keep` stays. (The cleanup of Natarajan and
/// Mittal, section 3.2.)
#[derive(Clone, Copy, Debug, PartialEq, Eq)]
pub struct FrozenChain {
    pub ancestor: u32,
    pub side: Side,
    pub successor: u32,
    pub parent: u32,
    pub keep: Side,
}

impl Shared {
    /// Reads the key of a known node. The caller passes a copy of the layout. An operation may
    /// change all that is shared, so without the copy the sizes would be loaded again for each
    /// node.
    pub fn look_key(&self, layout: Layout, pass: &mut Pass, slot: u32) -> u64
        requires layout { layout ≡ self.now.layout }
        requires own { IsOf self.now pass.old }
        requires may { MayStep pass.old (Look slot KeyOf) }
        ensures { TakesStep pass.old pass.new (Look slot KeyOf) (KeyIs result) }
    {
        let _own = self.layout;
        let word = layout.key(slot) as usize;
        self.load::<Brand>(&mut pass.seat, word, &Event::Look(slot, Field::Key))
    }

    /// Reads an edge of a known node, by a copy of the layout, as `look_key` does. The slot to
    /// which it leads is known from then on.
    pub fn look_edge(&self, layout: Layout, pass: &mut Pass, slot: u32, side: Side) -> Edge
        requires layout { layout ≡ self.now.layout }
        requires own { IsOf self.now pass.old }
        requires may { MayStep pass.old (Look slot (EdgeOn side)) }
        ensures { TakesStep pass.old pass.new (Look slot (EdgeOn side)) (EdgeIs result) }
    {
        let _own = self.layout;
        let word = edge_word(layout, slot, side);
        let event = Event::Look(slot, Field::Edge(side));
        edge_of(self.load::<Brand>(&mut pass.seat, word, &event))
    }

    /// Reads the birth (generation) of a known node or of a private slot; it is at most 2^62.
    pub fn look_birth(&self, pass: &mut Pass, slot: u32) -> u64
        requires own { IsOf self.now pass.old }
        requires may { MayStep pass.old (Look slot Birth) }
        ensures took { TakesStep pass.old pass.new (Look slot Birth) (BirthIs result) }
        ensures small { result ≤ last_number }
    {
        let word = self.layout.birth(slot) as usize;
        self.load::<Brand>(&mut pass.seat, word, &Event::Look(slot, Field::Birth))
    }

    /// Stores the key of a private slot.
    pub fn fill_key(&self, pass: &mut Pass, slot: u32, key: u64)
        requires own { IsOf self.now pass.old }
        requires may { MayStep pass.old (Fill slot KeyOf key) }
        ensures { TakesStep pass.old pass.new (Fill slot KeyOf key) Filled }
    {
        let word = self.layout.key(slot) as usize;
        let event = Event::Fill(slot, Field::Key, key);
        self.store::<Brand>(&mut pass.seat, word, key, &event);
    }

    /// Stores an edge of a private slot, unmarked.
    pub fn fill_edge(&self, pass: &mut Pass, slot: u32, side: Side, child: u32)
        requires own { IsOf self.now pass.old }
        requires may { MayStep pass.old (Fill slot (EdgeOn side) child) }
        ensures { TakesStep pass.old pass.new (Fill slot (EdgeOn side) child) Filled }
    {
        let word = self.layout.edge(slot, side) as usize;
        let event = Event::Fill(slot, Field::Edge(side), u64::from(child));
        self.store::<Brand>(&mut pass.seat, word, word_to(child), &event);
    }

    /// Stores the birth of a private slot: the birth that was looked at, plus 1.
    pub fn fill_birth(&self, pass: &mut Pass, slot: u32, birth: u64)
        requires own { IsOf self.now pass.old }
        requires may { MayStep pass.old (Fill slot Birth birth) }
        ensures { TakesStep pass.old pass.new (Fill slot Birth birth) Filled }
    {
        let word = self.layout.birth(slot) as usize;
        let event = Event::Fill(slot, Field::Birth, birth);
        self.store::<Brand>(&mut pass.seat, word, birth, &event);
    }

    /// Replaces a leaf, or in a radix tree perhaps an internal node, by a private internal node
    /// over it and a private new leaf. `Err`: the link was lost; this edge was found instead. In a
    /// table with values the worker must just have stored one for the new leaf.
    pub fn link(
        &self,
        pass: &mut Pass,
        parent: u32,
        side: Side,
        leaf: u32,
        new: u32,
    ) -> Result<(), Edge>
        requires own { IsOf self.now pass.old }
        requires may { MayStep pass.old (Link parent side leaf new) }
        requires stored { LinkHasValue self.now.table.slots pass.old.view
            (Link parent side leaf new) }
        ensures { TakesStep pass.old pass.new (Link parent side leaf new)
            (link_reply pass.old.view new result) }
    {
        let word = self.layout.edge(parent, side) as usize;
        let event = Event::Link(parent, side, leaf, new);
        let old = word_to(leaf);
        let found = self.exchange::<Brand>(&mut pass.seat, word, old, word_to(new), &event);
        if found == old {
            Ok(())
        } else {
            Err(edge_of(found))
        }
    }

    /// Flags the edge to a leaf. `Err`: the flag was lost; this edge was found instead.
    pub fn flag(&self, pass: &mut Pass, parent: u32, side: Side, leaf: u32) -> Result<(), Edge>
        requires own { IsOf self.now pass.old }
        requires may { MayStep pass.old (Flag parent side leaf) }
        ensures { TakesStep pass.old pass.new (Flag parent side leaf)
            (flag_reply pass.old.view leaf result) }
    {
        let word = self.layout.edge(parent, side) as usize;
        let event = Event::Flag(parent, side, leaf);
        let old = word_to(leaf);
        let found = self.exchange::<Brand>(&mut pass.seat, word, old, word_flagged(leaf), &event);
        if found == old {
            Ok(())
        } else {
            Err(edge_of(found))
        }
    }

    /// Tags an edge, and returns it as it was before.
    pub fn tag(&self, pass: &mut Pass, parent: u32, side: Side) -> Edge
        requires own { IsOf self.now pass.old }
        requires may { MayStep pass.old (Tag parent side) }
        ensures { TakesStep pass.old pass.new (Tag parent side) (Was result) }
    {
        let word = self.layout.edge(parent, side) as usize;
        let event = Event::Tag(parent, side);
        edge_of(self.mark::<Brand>(&mut pass.seat, word, TAG, &event))
    }

    /// Cuts off the nodes from the successor down to the parent, with the flagged leaf beside each.
    /// From then on the ancestor's edge leads to the node to which the parent's edge on the side
    /// `keep` leads, which is known to be `kept`. `Err`: the splice was lost; this edge was found
    /// instead.
    pub fn splice(&self, pass: &mut Pass, chain: FrozenChain, kept: Edge) -> Result<(), Edge>
        requires own { IsOf self.now pass.old }
        requires may { MayStep pass.old (splice_of chain) }
        requires kept { read (knowledge pass.old.view) chain.parent chain.keep ≡ Some kept }
        ensures { TakesStep pass.old pass.new (splice_of chain)
            (splice_reply pass.old.view chain.successor chain.parent chain.keep result) }
    {
        let FrozenChain {
            ancestor,
            side,
            successor,
            parent,
            keep,
        } = chain;
        let word = self.layout.edge(ancestor, side) as usize;
        let event = Event::Splice(ancestor, side, successor, parent, keep);
        let old = word_to(successor);
        let new = kept.untagged().pack();
        let found = self.exchange::<Brand>(&mut pass.seat, word, old, new, &event);
        if found != old {
            return Err(edge_of(found));
        }
        pass.brief.unlabelled = true;
        Ok(())
    }

    /// Replaces a leaf by a private new one, and cuts the old leaf off. `Err`: the swap was lost; this
    /// edge was found instead. In a table with values the worker must just have stored one for the new
    /// leaf.
    pub fn swap(
        &self,
        pass: &mut Pass,
        parent: u32,
        side: Side,
        leaf: u32,
        new: u32,
    ) -> Result<(), Edge>
        requires own { IsOf self.now pass.old }
        requires may { MayStep pass.old (Swap parent side leaf new) }
        requires stored { LinkHasValue self.now.table.slots pass.old.view
            (Swap parent side leaf new) }
        ensures { TakesStep pass.old pass.new (Swap parent side leaf new)
            (swap_reply pass.old.view leaf result) }
    {
        let word = self.layout.edge(parent, side) as usize;
        let event = Event::Swap(parent, side, leaf, new);
        let old = word_to(leaf);
        let found = self.exchange::<Brand>(&mut pass.seat, word, old, word_to(new), &event);
        if found != old {
            return Err(edge_of(found));
        }
        pass.brief.unlabelled = true;
        Ok(())
    }
}

/// Returns the index of the word of a slot's edge, computed from that of its key, so that the looks
/// at one node share one index.
fn edge_word(layout: Layout, slot: u32, side: Side) -> usize
    requires { IsSlot layout slot }
    ensures { result ≡ word layout (at_edge slot side) }
{
    let key = layout.key(slot) as usize;
    match side {
        Side::Left => key + 1,
        Side::Right => key + 2,
    }
}

/// Returns the edge of a word that some run leaves in an edge's place.
fn edge_of(word: u64) -> Edge
    requires { is_word word ≡ true }
    ensures { result ≡ edge_in word }
{
    Edge::of_word(word)
}

/// Returns the word of the unmarked edge to a slot.
fn word_to(slot: u32) -> u64
    ensures { result ≡ 4 * slot }
{
    Edge::to(slot).pack()
}

/// Returns the word of the flagged edge to a slot.
fn word_flagged(slot: u32) -> u64
    requires { 1 ≤ slot }
    ensures { result ≡ 4 * slot + 1 }
{
    Edge::to(slot).flagged().pack()
}
