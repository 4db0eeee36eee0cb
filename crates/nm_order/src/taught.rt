//! Laws of every log of one worker: what the worker learns by the log's last entry.
ghost use Rattle.nm_order.specs.Taught.{BirthsAreLearned, EdgesAreLearned, FlagsAreLearned, PinsAreLearned, TagsAreLearned, TagsFreeze, WalksBegin, WalksEnd, WalksGoOn, WalksLearnKeys};
ghost use Rattle.nm_order.specs.Told.{OfEachEntry};

/// Law: for every log, the last entry adds facts that the log holds from then on: edges and births
/// that were read, edges that were tagged or flagged, and what a pin for a call shows at once.
/// (Marks and births as the cleanup of Natarajan and Mittal needs them, section 3.2.)
pub fn entries_teach_facts()
    ensures edges { OfEachEntry EdgesAreLearned }
    ensures tags { OfEachEntry TagsAreLearned }
    ensures freeze { OfEachEntry TagsFreeze }
    ensures flags { OfEachEntry FlagsAreLearned }
    ensures births { OfEachEntry BirthsAreLearned }
    ensures pins { OfEachEntry PinsAreLearned }
{}

/// Law: for every log, a look takes the call's walks on. A walk begins at the left edge of slot 2,
/// reads the key of the slot to which it has come, and goes on by the edge on the side of its own
/// key. It ends if that edge is null. The same holds of the walks that began after the call's flag.
/// (The seek of Natarajan and Mittal, section 3.2.)
pub fn looks_take_walks_on()
    ensures begin { OfEachEntry WalksBegin }
    ensures keys { OfEachEntry WalksLearnKeys }
    ensures on { OfEachEntry WalksGoOn }
    ensures end { OfEachEntry WalksEnd }
{}
