//! The making of a table: the words of the empty tree, and a pass for each worker.
ghost use Rattle.std.specs.Prelude.{◌≡◌, ◌≤◌, [], length, IfOk, IfErr};
ghost use Rattle.nm_edge.specs.Words.{IsSlot, words};
ghost use Rattle.nm_model.specs.Memory.{fork, opening};
ghost use Rattle.nm_steps.specs.Packing.{words_of};
ghost use Rattle.nm_steps.specs.Openings.{untouched, planted, Plants};
ghost use Rattle.nm_edge.specs.Layouts.{IsLayout};
ghost use Rattle.nm_steps.specs.Rules.{everybody};
ghost use Rattle.nm_steps.specs.Steps.{AreFresh};
ghost use Rattle.nm_steps.specs.Values.{HasValues, HasValuesIf};

use crate::pass::{Pass, Shared};
use crate::view::{Law, View, WorkerSeat};
use atomic_table::{Split, Table};
use nm_edge::{Edge, FIRST_SLOT, INFINITY_0, INFINITY_1, INFINITY_2, Layout, Side};
use nm_model::{Brief, NewError};
use std::alloc::{AllocError, Global};

/// Moves a worker's own log to a seat of its own.
struct Deal;

impl Split<View> for Deal {
    ghost use Rattle.nm_steps.specs.Rules.{own_alone, the_others};

    ghost left = { the_others };

    ghost right = { own_alone };
}

impl Shared {
    /// Makes the empty tree, and a pass for each worker, in the order of their numbers. No worker
    /// has taken a step. Errors: only `NoMemory`.
    pub fn new(alloc: Global, layout: Layout) -> Result<(Shared, Vec<Pass>), NewError>
        ensures layout { IfOk result (λ r. r.0.layout ≡ layout) }
        ensures count { IfOk result (λ r. length r.1.items ≡ layout.workers) }
        ensures fresh { IfOk result (λ r. AreFresh r.0 0 r.1.items) }
        ensures plain { IfOk result (λ r. r.0.table.slots ≡ 0) }
        ensures memory { IfErr result (λ e. e ≡ NewError.NoMemory) }
    {
        Ok(made(alloc, layout)?)
    }

    /// Makes the same tree with a value for each slot, which is 0 at first. Errors: only `NoMemory`.
    pub fn with_values(alloc: Global, layout: Layout) -> Result<(Shared, Vec<Pass>), NewError>
        ensures layout { IfOk result (λ r. r.0.layout ≡ layout) }
        ensures count { IfOk result (λ r. length r.1.items ≡ layout.workers) }
        ensures fresh { IfOk result (λ r. AreFresh r.0 0 r.1.items) }
        ensures values { IfOk result (λ r. HasValues r.0) }
        ensures memory { IfErr result (λ e. e ≡ NewError.NoMemory) }
    {
        Ok(made_with_values(alloc, layout)?)
    }
}

/// Makes the table, and a pass for each worker.
fn made(alloc: Global, layout: Layout) -> Result<(Shared, Vec<Pass>), AllocError>
    ensures layout { IfOk result (λ r. r.0.layout ≡ layout) }
    ensures count { IfOk result (λ r. length r.1.items ≡ layout.workers) }
    ensures fresh { IfOk result (λ r. AreFresh r.0 0 r.1.items) }
    ensures plain { IfOk result (λ r. r.0.table.slots ≡ 0) }
{
    let _workers = layout.workers();
    let tree = opening_words(alloc, layout)?;
    let (table, seat) = Table::of_words(alloc, tree.as_slice(), &layout)?;
    dealt(alloc, layout, table, seat, false)
}

/// Makes the same table with a value for each slot after the words of the core. It has as many slots
/// as the tree, of no bytes.
fn made_with_values(alloc: Global, layout: Layout) -> Result<(Shared, Vec<Pass>), AllocError>
    ensures layout { IfOk result (λ r. r.0.layout ≡ layout) }
    ensures count { IfOk result (λ r. length r.1.items ≡ layout.workers) }
    ensures fresh { IfOk result (λ r. AreFresh r.0 0 r.1.items) }
    ensures values { IfOk result (λ r. HasValues r.0) }
{
    let _workers = layout.workers();
    let nodes = layout.nodes() as usize;
    let mut tree = opening_words(alloc, layout)?;
    let long = tree.len() + nodes;
    tree.resize(long, 0)?;
    let units = vec![in alloc; (); nodes]?;
    let Ok((table, seat)) = Table::new(alloc, tree.as_slice(), units, &layout) else {
        return Err(AllocError);
    };
    dealt(alloc, layout, table, seat, true)
}

/// Splits the first seat of a new table into one for each worker.
fn dealt(
    alloc: Global,
    layout: Layout,
    table: Table<(), View, Layout, Law, Global>,
    mut seat: WorkerSeat,
    values: bool,
) -> Result<(Shared, Vec<Pass>), AllocError>
    requires fits { IsLayout layout }
    requires table { seat.table_id ≡ table.shared.table_id }
    requires key { table.shared.key ≡ layout }
    requires words { words layout ≤ table.shared.table_id.words }
    requires kind { HasValuesIf values (record { table = table.shared.table_id; layout = layout }) }
    requires view { seat.me.0 ≡ everybody layout }
    requires empty { seat.me.1 ≡ [] }
    ensures layout { IfOk result (λ r. r.0.layout ≡ layout) }
    ensures count { IfOk result (λ r. length r.1.items ≡ layout.workers) }
    ensures fresh { IfOk result (λ r. AreFresh r.0 0 r.1.items) }
    ensures kind { IfOk result (λ r. HasValuesIf values r.0) }
{
    let workers = layout.workers();
    let mut passes = Vec::new(alloc);
    for number in 0..workers {
        let own = table.shared.split_seat::<Deal>(&mut seat);
        passes.push(Pass {
            seat: own,
            number,
            announcement_word: layout.announcement(number),
            brief: Brief {
                seen: None,
                announcement: None,
                pin: None,
                unlabelled: false,
            },
        })?;
    }
    let shared = Shared {
        table,
        layout,
        values,
    };
    Ok((shared, passes))
}

/// Returns the words of the empty tree, with every slot above 5 in the pool.
fn opening_words(alloc: Global, layout: Layout) -> Result<Vec<u64>, AllocError>
    ensures { IfOk result (λ tree. tree.items ≡ words_of layout (opening layout)) }
{
    let mut tree = vec![in alloc; 0; layout.words() as usize]?;
    plant_fixed(&mut tree, layout);
    fill_pool(&mut tree, layout);
    Ok(tree)
}

/// Writes a node's key and edges; its birth stays 0.
fn plant(tree: &mut Vec<u64>, layout: Layout, slot: u32, key: u64, left: u32, right: u32)
    requires slot { IsSlot layout slot }
    requires long { length tree.old.items ≡ words layout }
    ensures planted { Plants layout tree.old.items tree.new.items slot (fork key left right) }
    ensures long { length tree.new.items ≡ words layout }
{
    tree[layout.key(slot) as usize] = key;
    tree[layout.edge(slot, Side::Left) as usize] = Edge::to(left).pack();
    tree[layout.edge(slot, Side::Right) as usize] = Edge::to(right).pack();
}

/// Writes the five nodes of the empty tree.
fn plant_fixed(tree: &mut Vec<u64>, layout: Layout)
    requires { tree.old.items ≡ words_of layout (untouched layout) }
    ensures { tree.new.items ≡ words_of layout (planted layout) }
{
    plant(tree, layout, 1, INFINITY_2, 2, 5);
    plant(tree, layout, 2, INFINITY_1, 3, 4);
    plant(tree, layout, 3, INFINITY_0, 0, 0);
    plant(tree, layout, 4, INFINITY_1, 0, 0);
    plant(tree, layout, 5, INFINITY_2, 0, 0);
}

/// Puts every slot above 5 into the pool.
fn fill_pool(tree: &mut Vec<u64>, layout: Layout)
    requires { tree.old.items ≡ words_of layout (planted layout) }
    ensures { tree.new.items ≡ words_of layout (opening layout) }
{
    for slot in FIRST_SLOT..layout.nodes() + 1 {
        let place = layout.pool(slot);
        tree[place.word as usize] |= place.mask;
    }
}
