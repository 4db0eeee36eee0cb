//! Laws of words: each holds for every edge, word and layout.
ghost use Rattle.nm_edge.specs.Edges.{PackingGivesTheWord, UnpackingGivesTheEdge};
ghost use Rattle.nm_edge.specs.Ranges.{CoversIsTheRange};
ghost use Rattle.nm_edge.specs.Words.{FieldsAreApart, FieldsAreWithin, PoolMasksAreApart, PoolPlacesAreApart, PoolPlacesAreRows};

/// Law: for every edge with a slot below 2^32, unpacking its word gives the edge. (A null edge has
/// no mark.)
pub fn unpacking_gives_the_edge()
    ensures { UnpackingGivesTheEdge }
{}

/// Law: for every word that gives an edge, the word of this edge is that word.
pub fn packing_gives_the_word()
    ensures { PackingGivesTheWord }
{}

/// Law: for every layout, different fields have different words, and the number of each is below
/// the number of words.
pub fn fields_are_apart()
    ensures apart { FieldsAreApart }
    ensures within { FieldsAreWithin }
{}

/// Law: for every layout, different slots have different places in the pool. If two places are in
/// the same word, their masks share no bit. Each place is in a row of the pool.
pub fn pool_places_are_apart()
    ensures masks { PoolMasksAreApart }
    ensures places { PoolPlacesAreApart }
    ensures rows { PoolPlacesAreRows }
{}

/// Law: for every router below 2^64 with lowest bit 2^b, a key is in its range exactly if the key
/// is at most 2^b below it or less than 2^b above it.
pub fn covers_is_the_range()
    ensures { CoversIsTheRange }
{}
