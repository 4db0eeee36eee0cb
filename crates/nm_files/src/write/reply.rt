//! Writes the outcome of an event as text.
ghost use Rattle.std.specs.Prelude.{◌≡◌, ◌++◌, codes, decimal, OnOk};
ghost use Rattle.nm_files.specs.Replies as spec;

use itoa::Buffer;
use nm_edge::{Edge, NodeId};
use nm_model::{Refused, Reply};
use std::alloc::AllocError;

/// Appends a word, and a number in decimal digits.
pub fn put_number(out: &mut Vec<u8>, word: &[u8], n: u64) -> Result<(), AllocError>
    ensures { OnOk result (out.new.items ≡ out.old.items ++ (word.now ++ decimal n)) }
{
    let mut buffer = Buffer::new();
    out.extend_from_slice(word)?;
    out.extend_from_slice(buffer.format(n).as_bytes())
}

/// Appends a word, and an edge: its slot, then `f` if it is flagged, and `t` if it is tagged.
fn put_edge(out: &mut Vec<u8>, word: &[u8], edge: Edge) -> Result<(), AllocError>
    ensures { OnOk result (out.new.items ≡ out.old.items ++ (word.now ++ spec.edge_text edge)) }
{
    put_number(out, word, u64::from(edge.slot()))?;
    if edge.flag() {
        out.extend_from_slice(b"f")?;
    }
    if edge.tag() {
        out.extend_from_slice(b"t")?;
    }
    Ok(())
}

/// Appends a word, and a node: its slot, a dot and its birth.
pub(crate) fn put_node(out: &mut Vec<u8>, word: &[u8], node: NodeId) -> Result<(), AllocError>
    ensures { OnOk result (out.new.items ≡ out.old.items ++ (word.now ++ spec.node_text node)) }
{
    put_number(out, word, u64::from(node.slot))?;
    put_number(out, b".", node.birth)
}

/// Appends the nodes, each after a space.
pub(crate) fn put_spaced_nodes(out: &mut Vec<u8>, nodes: &[NodeId]) -> Result<(), AllocError>
    ensures { OnOk result (out.new.items ≡ out.old.items ++ spec.spaced_nodes nodes.now) }
{
    for node in nodes {
        put_node(out, b" ", *node)?;
    }
    Ok(())
}

/// Appends `cut` and the nodes, each after a space.
fn put_cut(out: &mut Vec<u8>, nodes: &[NodeId]) -> Result<(), AllocError>
    ensures { OnOk result (out.new.items
        ≡ out.old.items ++ (codes "cut" ++ spec.spaced_nodes nodes.now)) }
{
    out.extend_from_slice(b"cut")?;
    put_spaced_nodes(out, nodes)
}

/// Appends a reply.
fn put_reply(out: &mut Vec<u8>, reply: &Reply) -> Result<(), AllocError>
    ensures { OnOk result (out.new.items ≡ out.old.items ++ spec.reply_text reply.now) }
{
    match reply {
        Reply::Saw(epoch) => put_number(out, b"saw ", *epoch),
        Reply::Labelled(epoch) => put_number(out, b"label ", *epoch),
        Reply::Pinned(epoch) => put_number(out, b"pinned ", *epoch),
        Reply::Missed(epoch) => put_number(out, b"lost ", *epoch),
        Reply::Announced(epoch) => put_number(out, b"announced ", *epoch),
        Reply::Departed => out.extend_from_slice(b"left"),
        Reply::Idle => out.extend_from_slice(b"idle"),
        Reply::In(epoch) => put_number(out, b"in ", *epoch),
        Reply::Moved(epoch) => put_number(out, b"moved ", *epoch),
        Reply::Behind(epoch) => put_number(out, b"lost ", *epoch),
        Reply::Claimed(slot) => put_number(out, b"claimed ", u64::from(*slot)),
        Reply::Taken => out.extend_from_slice(b"lost"),
        Reply::Returned(slot) => put_number(out, b"returned ", u64::from(*slot)),
        Reply::Freed(node) => put_node(out, b"freed ", *node),
        Reply::KeyIs(key) => put_number(out, b"key ", *key),
        Reply::BirthIs(birth) => put_number(out, b"birth ", *birth),
        Reply::EdgeIs(edge) => put_edge(out, b"edge ", *edge),
        Reply::Filled => out.extend_from_slice(b"filled"),
        Reply::Linked(node) => put_node(out, b"linked ", *node),
        Reply::Flagged(leaf) => put_node(out, b"flagged ", *leaf),
        Reply::Was(edge) => put_edge(out, b"was ", *edge),
        Reply::Cut(nodes) => put_cut(out, nodes.as_slice()),
        Reply::Lost(edge) => put_edge(out, b"lost ", *edge),
        Reply::Joined(_) => out.extend_from_slice(b"joined"),
    }
}

/// Returns the number by which a refusal is reported.
fn refusal_number(refused: Refused) -> u64
    ensures { result ≡ spec.refusal_number refused }
{
    match refused {
        Refused::NoWorker => 1,
        Refused::NoSlot => 2,
        Refused::NotPinned => 3,
        Refused::NotHeld => 4,
        Refused::NotPrivate => 5,
        Refused::NotReady => 6,
        Refused::NotFront => 7,
        Refused::TooYoung => 8,
        Refused::NotFrozen => 9,
        Refused::Spent => 10,
        Refused::NoMemory => 11,
        Refused::NotOrdered => 12,
        Refused::NoAnswer => 13,
    }
}

/// Appends the outcome of an event: its reply, or its refusal.
pub fn put_outcome(out: &mut Vec<u8>, outcome: &Result<Reply, Refused>) -> Result<(), AllocError>
    ensures { OnOk result (out.new.items ≡ out.old.items ++ spec.outcome_text outcome.now) }
{
    match outcome {
        Ok(reply) => put_reply(out, reply),
        Err(refused) => put_number(out, b"refused ", refusal_number(*refused)),
    }
}
