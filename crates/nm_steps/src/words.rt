//! Laws of a whole memory as its words, in the order of the layout: what each word says, and what
//! each write changes.
ghost use Rattle.nm_model.specs.Laws.{OfEachState};
ghost use Rattle.nm_steps.specs.Packing.{AtMostOneWordChanges, BirthIsOneWord, EachBitIsItsSlot, EachFieldHasAWord, EachWordIsItsField, EdgeIsOneWord, EpochIsOneWord, EventsTouchOneWord, FixedBitsAreZero, GivingSetsABit, KeyIsOneWord, AnnouncementIsOneWord, NullEdgesAreUnmarked, OpeningOf135, SpareBitsAreZero, StateFits, StateIsInRange, TakingClearsABit, WordsAreBelow, WordsStayBelow};
ghost use Rattle.nm_steps.specs.Told.{RepliesAreTold};

/// Law: every memory whose lists are as long as the layout says has as many words as the layout,
/// and the word of each field is that field. A slot's bit is set exactly if the slot is in the
/// pool; bits that are no slot's are 0. In every run each memory is such, and the bits of the five
/// fixed slots are 0. The last clause is a worked example.
pub fn words_tell_the_memory()
    ensures counted { EachFieldHasAWord }
    ensures fields { EachWordIsItsField }
    ensures bits { EachBitIsItsSlot }
    ensures spare { SpareBitsAreZero }
    ensures runs { OfEachState StateFits }
    ensures fixed { OfEachState FixedBitsAreZero }
    ensures opening { OpeningOf135 }
{}

/// Law: writing one field changes only its word. The fields are the epoch, an announcement, and a
/// slot's key, edge or birth. A slot that leaves the pool clears its bit of one word, and a slot
/// that enters it sets that bit.
pub fn writes_change_one_word()
    ensures epoch { EpochIsOneWord }
    ensures announcement { AnnouncementIsOneWord }
    ensures key { KeyIsOneWord }
    ensures edge { EdgeIsOneWord }
    ensures birth { BirthIsOneWord }
    ensures taking { TakingClearsABit }
    ensures giving { GivingSetsABit }
{}

/// Law: in every run, an allowed event touches the word of one field, which the event names. The
/// word that it leaves depends only on what its worker knows and on the word that it finds. So does
/// its reply, unless it is a join. For a flag, a splice or a swap, the births of the nodes in the reply
/// must be known, from any source. No turn, including refused ones and joins, changes more than one
/// word.
pub fn events_touch_one_word()
    ensures touched { OfEachState EventsTouchOneWord }
    ensures replies { OfEachState RepliesAreTold }
    ensures most { OfEachState AtMostOneWordChanges }
{}

/// Law: in every run the epoch, the announcements and the births are at most 2^62, no edge leads to
/// a slot above the last one, and no null edge has a mark. If the keys are below 2^64 too, each
/// word is, for fewer than 2^32 nodes. Each word is therefore below 2^64 in every run whose fills
/// store keys below 2^64.
pub fn words_have_room()
    ensures range { OfEachState StateIsInRange }
    ensures marks { OfEachState NullEdgesAreUnmarked }
    ensures below { WordsAreBelow }
    ensures runs { WordsStayBelow }
{}
