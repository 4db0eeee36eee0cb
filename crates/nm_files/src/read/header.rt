//! The first line of a file.
ghost use Rattle.std.specs.Prelude.{◌≡◌, ◌≤◌, map, IfOk};
ghost use Rattle.nm_files.specs.Headers.{SerialAlone};
ghost use Rattle.nm_files.specs.Headers as spec;

use crate::read::fault::Reason;
use crate::read::field::number;
use nm_edge::{LEAST_NODES, Layout, LayoutError, MOST_NODES, MOST_WORKERS};

/// The largest number of tries of a call.
const MOST_TRIES: u32 = 1_000_000;

/// The command that a file is for.
#[derive(Clone, Copy, Debug, PartialEq, Eq)]
pub enum Command {
    /// Runs the events of a schedule on the core, in their order.
    Replay,
    /// Runs all calls of a script in one thread, in their order.
    Serial,
    /// Runs the calls of each worker in a thread of its own.
    Stress,
}

impl Command {
    /// Returns the word by which a header names it.
    fn word(self) -> &'static [u8]
        ensures { result.now ≡ spec.command_word self }
    {
        match self {
            Command::Replay => b"schedule",
            Command::Serial => b"serial",
            Command::Stress => b"stress",
        }
    }
}

/// The forms of lines that a version of the format has besides those of version 1.
#[derive(Clone, Copy, Debug, PartialEq, Eq)]
pub struct Forms {
    /// Whether it has the lines of later versions. Such a schedule is run by an ordered core, and
    /// its sights and leaves may be of operations. In such a script a worker may resign.
    pub is_extended: bool,
    /// Whether a step of a schedule may be a swap.
    pub has_swaps: bool,
}

/// The greatest sizes that a version of the format allows, the forms of its lines, and whether its
/// tree is a radix tree.
#[derive(Clone, Copy, Debug, PartialEq, Eq)]
pub struct Limits {
    pub nodes: u32,
    pub workers: u32,
    pub forms: Forms,
    pub is_radix: bool,
}

/// The contents of the first line of a file.
#[derive(Clone, Copy, Debug, PartialEq, Eq)]
pub struct Header {
    /// The numbers of nodes and of workers of the tree, and its shape.
    pub layout: Layout,
    /// The number of tries of each call that takes tries, 1 to 1,000,000; 1 in a schedule.
    pub tries: u32,
    /// The forms of its lines.
    pub forms: Forms,
}

/// Returns the forms of lines of a version without swaps.
fn without_swaps(is_extended: bool) -> Forms
    ensures { result ≡ spec.without_swaps is_extended }
{
    Forms {
        is_extended,
        has_swaps: false,
    }
}

/// Returns the forms of lines of a version with swaps.
fn with_swaps() -> Forms
    ensures { result ≡ spec.with_swaps }
{
    Forms {
        is_extended: true,
        has_swaps: true,
    }
}

/// Returns the limits with as many nodes and workers as a layout can have.
fn greatest(forms: Forms, is_radix: bool) -> Limits
    ensures { result ≡ record {
      nodes = MOST_NODES;
      workers = MOST_WORKERS;
      forms = forms;
      is_radix = is_radix;
    } }
{
    Limits {
        nodes: MOST_NODES,
        workers: MOST_WORKERS,
        forms,
        is_radix,
    }
}

/// Returns the limits of a version of a command's format. Version 1 has 65,536 nodes and 32
/// workers; later ones have as many as a layout can have. Schedules of
/// versions 3 and later are for an ordered core, and workers of `serial` may resign from version 2
/// on. Version 5 of a schedule has swaps. The tree is a radix tree in schedules of versions 4 and
/// later, and in version 3 of a script.
fn limits_of(command: Command, word: &[u8], version: &[u8]) -> Result<Limits, Reason>
    ensures limits { result ≡ spec.limits_of command word.now version.now }
    ensures stress { IfOk result (λ limits. SerialAlone command limits.forms.is_extended) }
    ensures few { IfOk result (λ limits. (limits.nodes ≤ MOST_NODES)
        × (limits.workers ≤ MOST_WORKERS)) }
{
    if word != command.word() {
        return Err(Reason::Header);
    }
    match (command, version) {
        (_, b"1") => Ok(Limits {
            nodes: 65_536,
            workers: 32,
            forms: without_swaps(false),
            is_radix: false,
        }),
        (Command::Replay, b"2") => Ok(greatest(without_swaps(false), false)),
        (Command::Replay, b"3") => Ok(greatest(without_swaps(true), false)),
        (Command::Replay, b"4") => Ok(greatest(without_swaps(true), true)),
        (Command::Replay, b"5") => Ok(greatest(with_swaps(), true)),
        (Command::Serial, b"2") => Ok(greatest(without_swaps(true), false)),
        (Command::Serial, b"3") => Ok(greatest(without_swaps(true), true)),
        (Command::Stress, b"2") => Ok(greatest(without_swaps(false), false)),
        (Command::Stress, b"3") => Ok(greatest(without_swaps(false), true)),
        _ => Err(Reason::Header),
    }
}

/// Parses a number of the header. Errors: `Header` if it is in a wrong spelling or above 2^64 - 1.
fn count(field: &[u8]) -> Result<u64, Reason>
    ensures { result ≡ spec.count field.now }
{
    number(field).map_err(|_| Reason::Header)
}

/// Parses the number of tries from the fields after the sizes: one field in a script, and none in a
/// schedule.
fn tries_of(command: Command, fields: &[&[u8]]) -> Result<u64, Reason>
    ensures { result ≡ spec.tries_of command (map (λ f. f.now) fields.now) }
{
    match (command, fields) {
        (Command::Replay, []) => Ok(1),
        (Command::Serial | Command::Stress, [tries]) => count(tries),
        _ => Err(Reason::Header),
    }
}

/// Returns the layout of these sizes, for a radix tree or not.
fn shaped(layout: Layout, is_radix: bool) -> Layout
    ensures { result ≡ spec.shaped is_radix layout }
{
    if is_radix { layout.in_radix() } else { layout }
}

/// Returns the header with these numbers of nodes, workers and tries, if they are within the
/// limits.
fn header_within(limits: Limits, nodes: u64, workers: u64, tries: u64) -> Result<Header, Reason>
    requires { (limits.nodes ≤ MOST_NODES) × (limits.workers ≤ MOST_WORKERS) }
    ensures says { result ≡ spec.header_within limits nodes workers tries }
    ensures may { IfOk result (λ h. h.forms ≡ limits.forms) }
{
    if nodes < u64::from(LEAST_NODES) || u64::from(limits.nodes) < nodes {
        return Err(Reason::Nodes);
    }
    if workers < 1 || u64::from(limits.workers) < workers {
        return Err(Reason::Workers);
    }
    if tries < 1 || u64::from(MOST_TRIES) < tries {
        return Err(Reason::Tries);
    }
    match Layout::new(nodes as u32, workers as u32) {
        Ok(layout) => Ok(Header {
            layout: shaped(layout, limits.is_radix),
            tries: tries as u32,
            forms: limits.forms,
        }),
        Err(LayoutError::Nodes) => Err(Reason::Nodes),
        Err(LayoutError::Workers) => Err(Reason::Workers),
    }
}

/// Parses the fields of the first line, in a file for that command.
#[tactic(auto, unfolding(crate::specs::Headers::header_of))]
pub(crate) fn header_of(command: Command, fields: &[&[u8]]) -> Result<Header, Reason>
    ensures says { result ≡ spec.header_of command (map (λ f. f.now) fields.now) }
    ensures stress { IfOk result (λ h. SerialAlone command h.forms.is_extended) }
{
    let [word, version, nodes, workers, tries @ ..] = fields else {
        return Err(Reason::Header);
    };
    let limits = limits_of(command, word, version)?;
    let nodes = count(nodes)?;
    let workers = count(workers)?;
    let tries = tries_of(command, tries)?;
    header_within(limits, nodes, workers, tries)
}
