//! The theorem, and what follows from it, as laws.
ghost use Rattle.nm_theorem.specs.EachRun.{AnswersStand, InsertsAreFound, LogsArePartsOfTurns, NobodyReadsAnotherNode, OfEachRun, OrderedRunsHaveHistories, ReadersOfFreedNodesHaveLeft, WordsAreWritten};
ghost use Rattle.nm_model.specs.Headline.{Headline};

/// Law: every run of a plain or an ordered core, for all events in every order, ends with the words
/// that its turns have written. It also has the headline, of which these are parts:
///
/// - Each reply agrees with the words at its moment: what is read, the epochs that sights and
///   advances return, whether a claim finds its slot in the pool, and the node that a link or a flag
///   returns.
/// - While a worker is pinned at an epoch, the epoch is that one or the next.
/// - Each turn cuts off exactly the nodes that its reply names as cut, and only a won splice names
///   any.
/// - The nodes that each worker cut are freed in cut order, no other node is freed, and no node is
///   cut twice.
/// - No node is freed before each worker that was pinned at its cut has left.
/// - A worker touches a slot only after a reply under its pin returned an edge to it, apart from
///   slots 1 and 2 and those in its hands.
/// - Such a slot stays the same node until the worker leaves.
/// - Only the worker that has a slot in its hands stores in the slot's fields.
/// - A slot in the tree has a greater birth (generation) than each node in it that was cut.
/// - At each moment each slot above the five fixed ones is in one place.
///
/// (The cleanup of Natarajan and Mittal, with the grace periods of Fraser's epochs.)
pub fn each_run_has_the_headline()
    ensures words { WordsAreWritten }
    ensures headline { OfEachRun Headline }
{}

/// Law: every run of an ordered core is a history of one plain set (it is linearizable). The
/// history has the calls that the turns answered, with some of those that have no answer yet, each
/// once. Their moments (linearization points) are in order and within the calls. A plain set gives
/// these answers, and at each moment it has the keys of the leaves that are reached then. Calls,
/// answers and words are read off the turns alone. (Herlihy and Wing, Linearizability, TOPLAS
/// 1990.)
pub fn ordered_runs_have_histories()
    ensures { OrderedRunsHaveHistories }
{}

/// Law: every log that is a worker's part of some ordered run, at any moment of it, is the worker's
/// part of turns that have the headline and a history.
pub fn logs_are_parts_of_turns()
    ensures { LogsArePartsOfTurns }
{}

/// Law: in all turns that have the headline, if a node that was freed was cut by one of them, each
/// worker that was pinned at the cut has left after it. A worker that was pinned when a node left
/// the tree has therefore left before the node is used again. (Fraser, section 5.2.3.)
pub fn readers_of_freed_nodes_have_left()
    ensures { ReadersOfFreedNodesHaveLeft }
{}

/// Law: in every ordered run whose last turn answers a call of a worker, the call has an act with
/// this answer in each history of these turns, and of all turns that extend them. If the worker was
/// in no call after an earlier part of the turns, the call began after that part. The moment of the
/// act is after the pin of the call, and not after the answer. (Herlihy and Wing, Linearizability,
/// TOPLAS 1990.)
pub fn answers_stand()
    ensures { AnswersStand }
{}

/// Law: every key whose insert was answered true is found by a look-up that began after all that
/// the inserter had seen then, if some history of the turns has no true delete of the key. The law
/// names no run and no core. (Herlihy and Wing, Linearizability, TOPLAS 1990.)
pub fn inserts_are_found()
    ensures { InsertsAreFound }
{}

/// Law: in all turns that have the headline, no worker reads a node that was freed, or another node
/// in its place. A worker that touches a slot other than 1 and 2, which it does not have in its
/// hands, is pinned, and has learned of the slot under that pin. At each moment after that, the
/// slot was neither in the pool nor in a worker's hands, and was the same node. (Fraser, section
/// 5.2.3.)
pub fn nobody_reads_another_node()
    ensures { NobodyReadsAnotherNode }
{}
