//! Values that are lent, callers, and loans.
ghost use Rattle.std.specs.Prelude.{◌≡◌, ◌≢◌, ◌⊎◌, ◌+◌, ◌*◌, ◌%◌, ◌<◌, ◌≤◌, ◌++◌, ◌∷◌, [], ℕ, List, length, None, Some, IfOk, IfErr, vec_capacity};
ghost use Rattle.nm_lending.specs.Visits.{AreApart, AreInOrder, AreResident, AreSeated, sitting};
ghost use Rattle.nm_lending.specs.Views.{HasLooked, IsAnother, IsLent, IsNotThere, NoneIsLent, look, says_away};

use crate::knowing::{
    Comes, GivesBack, GivesUp, Joins, Known, LendRule, Lends, Looks, Shows, Takes,
};
use atomic_table::{Seat as Pass, Table};
use std::alloc::{AllocError, Global};
use std::marker::Model;

/// No value comes back to a seat with this word.
const RETIRED: u64 = 0xffff_ffff_ffff_fffe;

/// What sits on a seat in a later sitting than this one stays there.
const LAST_TURN: u64 = 0x7fff_ffff_ffff_fff0;

/// The seats of one site, in the order of their numbers.
#[derive(Drop)]
pub struct Lending<T: Drop, C, P: LendRule<T, C>> {
    table: Table<Option<T>, Known<T, C>, C, Lends<P>, Global>,
}

impl<T: Drop, C, P: LendRule<T, C>> Model for Lending<T, C, P> {
    ghost use Rattle.std.specs.Prelude.{◌≡◌};
    ghost use Rattle.nm_lending.specs.Views.{LendingView};

    ghost Value = { LendingView C };

    ghost view = { λ s. record { table = s.table.shared.table_id; site = s.table.shared.key } };

    ghost invariant = { λ s. s.table.shared.table_id.slots ≡ s.table.shared.table_id.words };
}

/// A caller, which remembers where it left a value last. At run time it has two numbers.
#[derive(Drop)]
pub struct Caller<T, C> {
    pass: Pass<Option<T>, Known<T, C>>,
    seat: u32,
    turn: u64,
}

impl<T, C> Model for Caller<T, C> {
    ghost use Rattle.nm_lending.specs.Views.{CallerView, IsCaller};

    ghost Value = { CallerView T C };

    ghost view = { λ l. record {
      table = l.pass.table_id;
      site = l.pass.me.0.site;
      seat = l.seat;
      turn = l.turn;
      left = l.pass.me.0.value;
      visits = l.pass.me.0.visits;
      looks = l.pass.me.0.looks;
    } };

    ghost invariant = { λ l. IsCaller l.pass l.seat l.turn };
}

impl<T, C> Caller<T, C> {
    /// Returns the seat on which this caller left a value last, or 0 if it has left none.
    pub fn seat(&self) -> u32
        ensures { result ≡ self.now.seat }
    {
        self.seat
    }
}

/// A caller that has borrowed a value, and will give it back. At run time it has two numbers.
#[derive(Drop)]
pub struct Loan<T, C> {
    pass: Pass<Option<T>, Known<T, C>>,
    seat: u32,
    turn: u64,
}

impl<T, C> Model for Loan<T, C> {
    ghost use Rattle.nm_lending.specs.Views.{LoanView, IsLoan};

    ghost Value = { LoanView T C };

    ghost view = { λ l. record {
      table = l.pass.table_id;
      site = l.pass.me.0.site;
      seat = l.seat;
      turn = l.turn;
      taken = l.pass.me.0.value;
      visits = l.pass.me.0.visits;
    } };

    ghost invariant = { λ l. IsLoan l.pass l.seat l.turn };
}

impl<T, C> Loan<T, C> {
    /// Returns the seat from which the value was borrowed.
    pub fn seat(&self) -> u32
        ensures { result ≡ self.now.seat }
    {
        self.seat
    }

    /// Returns how often a value had come back to that seat before it was borrowed this time.
    pub fn turn(&self) -> u64
        ensures { result ≡ self.now.turn }
    {
        self.turn
    }
}

impl<T: Drop, C, P: LendRule<T, C>> Lending<T, C, P> {
    /// Makes a seat for each of these values, which sit there, in the order of the seats.
    ///
    /// Errors: `AllocError`: the values are dropped.
    pub fn new(
        alloc: Global,
        site: &C,
        values: Vec<Option<T>>,
    ) -> Result<Lending<T, C, P>, AllocError>
        requires { AreSeated P.resident site.now 0 values.items }
        ensures site { IfOk result (λ s. s.site ≡ site.now) }
        ensures count { IfOk result (λ s. s.table.words ≡ length values.items) }
    {
        let words = vec![in alloc; 1; values.len()]?;
        match Table::new(alloc, words.as_slice(), values, site) {
            Ok((table, _pass)) => Ok(Lending { table }),
            Err(_) => Err(AllocError),
        }
    }

    /// Returns the number of seats.
    pub fn len(&self) -> usize
        ensures { result ≡ self.now.table.words }
    {
        self.table.word_count()
    }

    /// Looks at a seat, by one load, and returns its word.
    fn look(&self, caller: &mut Caller<T, C>, seat: u32) -> u64
        requires table { caller.old.table ≡ self.now.table }
        requires within { seat < self.now.table.words }
        ensures { HasLooked caller.old (look seat result ∷ []) caller.new }
    {
        self.table
            .shared
            .load::<Looks>(&mut caller.pass, seat as usize)
    }

    /// Returns whether a caller has what sat on a seat, and may give it back.
    pub fn is_away(&self, caller: &mut Caller<T, C>, seat: u32) -> bool
        requires table { caller.old.table ≡ self.now.table }
        requires within { seat < self.now.table.words }
        ensures { (n : ℕ) × HasLooked caller.old (look seat n ∷ []) caller.new
            × (result ≡ says_away n) }
    {
        let word = self.look(caller, seat);
        word % 2 == 0 && word != RETIRED
    }

    /// Makes a caller, which has made no visits.
    pub fn caller(&self) -> Caller<T, C>
        requires { 0 < self.now.table.words }
        ensures table { result.table ≡ self.now.table }
        ensures site { result.site ≡ Some self.now.site }
        ensures left { result.left ≡ None }
        ensures visits { result.visits ≡ [] }
    {
        let (_, pass) = self.table.shared.load_new_seat::<Comes>(0);
        Caller {
            pass,
            seat: 0,
            turn: 0,
        }
    }

    /// Borrows what sits on a seat, by a load and one compare-exchange.
    ///
    /// Errors: the seat was found empty, or another caller was faster.
    pub fn lend(&self, caller: Caller<T, C>, seat: u32) -> Result<(T, Loan<T, C>), Caller<T, C>>
        requires table { caller.table ≡ self.now.table }
        requires site { caller.site ≡ Some self.now.site }
        requires within { seat < self.now.table.words }
        ensures lent { IfOk result (λ r. IsLent P.resident self.now seat caller.visits r.0 r.1) }
        ensures refused { IfErr result (NoneIsLent caller (λ i. i ≡ seat)) }
    {
        let mut caller = caller;
        let found = self.look(&mut caller, seat);
        let turn = found / 2;
        if found % 2 == 0 || LAST_TURN < turn {
            return Err(caller);
        }
        self.take(caller, seat, turn)
    }

    /// Borrows what has sat on a seat from the start.
    ///
    /// Errors: it was borrowed before.
    pub fn lend_first(
        &self,
        caller: Caller<T, C>,
        seat: u32,
    ) -> Result<(T, Loan<T, C>), Caller<T, C>>
        requires table { caller.table ≡ self.now.table }
        requires site { caller.site ≡ Some self.now.site }
        requires within { seat < self.now.table.words }
        ensures lent { IfOk result (λ r. IsLent P.resident self.now seat caller.visits r.0 r.1) }
        ensures first { IfOk result (λ r. r.1.turn ≡ 0) }
        ensures refused { IfErr result (IsAnother caller seat 0) }
    {
        self.take(caller, seat, 0)
    }

    /// Borrows the very value that this caller left last, as it left it.
    ///
    /// Errors: another caller has had the value since, or this one has left none.
    pub fn lend_again(&self, caller: Caller<T, C>) -> Result<(T, Loan<T, C>), Caller<T, C>>
        requires table { caller.table ≡ self.now.table }
        requires site { caller.site ≡ Some self.now.site }
        ensures lent { IfOk result
            (λ r. IsLent P.resident self.now caller.seat caller.visits r.0 r.1) }
        ensures same { IfOk result (λ r. caller.left ≡ Some r.0) }
        ensures refused { IfErr result (IsNotThere caller) }
    {
        let _table = &self.table;
        let seat = caller.seat;
        let turn = caller.turn;
        if turn == 0 || LAST_TURN < turn {
            return Err(caller);
        }
        self.take(caller, seat, turn)
    }

    /// Borrows what sits on the first seat, from this one on, at which it is found.
    ///
    /// Errors: each seat was found empty, one after the other, or another caller was faster.
    pub fn lend_near(
        &self,
        caller: Caller<T, C>,
        first: u32,
    ) -> Result<(T, Loan<T, C>), Caller<T, C>>
        requires table { caller.table ≡ self.now.table }
        requires site { caller.site ≡ Some self.now.site }
        ensures lent { IfOk result
            (λ r. (i : ℕ) × IsLent P.resident self.now i caller.visits r.0 r.1) }
        ensures refused { IfErr result
            (NoneIsLent caller (λ i. (i < self.now.table.words) × (i < 4294967295))) }
    {
        let seats = self.seats();
        let caller = match self.lend_between(caller, first, seats) {
            Ok(lent) => return Ok(lent),
            Err(caller) => caller,
        };
        let least = if first < seats { first } else { seats };
        self.lend_between(caller, 0, least)
    }

    /// Returns how many seats there are, of those with a number below 2^32 - 1.
    fn seats(&self) -> u32
        ensures within { result ≤ self.now.table.words }
        ensures all { (i : ℕ) → i < self.now.table.words → i < 4294967295 → i < result }
    {
        match u32::try_from(self.len()) {
            Ok(seats) => seats,
            Err(_) => u32::MAX,
        }
    }

    fn lend_between(
        &self,
        caller: Caller<T, C>,
        from: u32,
        below: u32,
    ) -> Result<(T, Loan<T, C>), Caller<T, C>>
        requires table { caller.table ≡ self.now.table }
        requires site { caller.site ≡ Some self.now.site }
        requires within { below ≤ self.now.table.words }
        ensures lent { IfOk result
            (λ r. (i : ℕ) × IsLent P.resident self.now i caller.visits r.0 r.1) }
        ensures refused { IfErr result (NoneIsLent caller (λ i. (from ≤ i) × (i < below))) }
    {
        let mut caller = caller;
        for seat in from..below {
            match self.lend(caller, seat) {
                Ok(lent) => return Ok(lent),
                Err(back) => caller = back,
            }
        }
        Err(caller)
    }

    /// Borrows what sits on a seat in this sitting.
    fn take(
        &self,
        caller: Caller<T, C>,
        seat: u32,
        turn: u64,
    ) -> Result<(T, Loan<T, C>), Caller<T, C>>
        requires table { caller.table ≡ self.now.table }
        requires site { caller.site ≡ Some self.now.site }
        requires within { seat < self.now.table.words }
        requires few { sitting turn + 3 < 18446744073709551616 }
        ensures lent { IfOk result (λ r. IsLent P.resident self.now seat caller.visits r.0 r.1) }
        ensures turn { IfOk result (λ r. r.1.turn ≡ turn) }
        ensures same { IfOk result (λ r. (x : T) → caller.left ≡ Some x → caller.seat ≡ seat
            → caller.turn ≡ turn → r.0 ≡ x) }
        ensures refused { IfErr result (IsAnother caller seat turn) }
    {
        let Caller {
            pass,
            seat: last_seat,
            turn: last_turn,
        } = caller;
        let mut pass = pass;
        let old = 2 * turn + 1;
        let found = self
            .table
            .shared
            .compare_exchange::<Takes<P>>(&mut pass, seat as usize, old, old + 1);
        if found != old {
            return Err(Caller {
                pass,
                seat: last_seat,
                turn: last_turn,
            });
        }
        match self.table.shared.exchange(&mut pass, seat as usize, None) {
            Some(value) => Ok((value, Loan { pass, seat, turn })),
            None => unreachable!(),
        }
    }

    /// Gives the value back, by one store. The visit is the last one of this caller.
    pub fn give_back(&self, loan: Loan<T, C>, value: T) -> Caller<T, C>
        requires table { loan.table ≡ self.now.table }
        requires site { loan.site ≡ Some self.now.site }
        requires resident { P.resident self.now.site loan.seat (loan.turn + 1) value }
        requires goes { (x : T) → loan.taken ≡ Some x → P.goes self.now.site x value }
        ensures table { result.table ≡ self.now.table }
        ensures site { result.site ≡ Some self.now.site }
        ensures sitting { (result.seat ≡ loan.seat) × (result.turn ≡ loan.turn + 1) }
        ensures left { result.left ≡ Some value }
        ensures visits { (x : T) → loan.taken ≡ Some x → result.visits ≡ loan.visits
            ++ record { seat = loan.seat; turn = loan.turn; was = x; left = value } ∷ [] }
    {
        let Loan { pass, seat, turn } = loan;
        let mut pass = pass;
        self.table
            .shared
            .exchange(&mut pass, seat as usize, Some(value));
        self.table
            .shared
            .store::<GivesBack>(&mut pass, seat as usize, 2 * turn + 3);
        Caller {
            pass,
            seat,
            turn: turn + 1,
        }
    }

    /// Marks the seat as one to which its value does not come back. The loan is no visit.
    pub fn retire(&self, loan: Loan<T, C>) -> Caller<T, C>
        requires table { loan.table ≡ self.now.table }
        ensures table { result.table ≡ self.now.table }
        ensures site { result.site ≡ loan.site }
        ensures left { result.left ≡ None }
        ensures visits { result.visits ≡ loan.visits }
    {
        let Loan {
            pass,
            seat,
            turn: _,
        } = loan;
        let mut pass = pass;
        self.table
            .shared
            .store::<GivesUp>(&mut pass, seat as usize, RETIRED);
        Caller {
            pass,
            seat: 0,
            turn: 0,
        }
    }

    /// Takes over the visits of another caller. What this caller left last remains the same. Costs a
    /// load.
    pub fn join(&self, caller: &mut Caller<T, C>, other: Caller<T, C>)
        requires table { caller.old.table ≡ self.now.table }
        requires other { other.table ≡ self.now.table }
        requires within { 0 < self.now.table.words }
        ensures table { caller.new.table ≡ caller.old.table }
        ensures site { caller.new.site ≡ caller.old.site }
        ensures left { (caller.new.seat ≡ caller.old.seat) × (caller.new.turn ≡ caller.old.turn)
            × (caller.new.left ≡ caller.old.left) }
        ensures visits { caller.new.visits ≡ caller.old.visits ++ other.visits }
    {
        let Caller {
            pass,
            seat: _,
            turn: _,
        } = other;
        self.table.shared.join_seat::<Joins>(&mut caller.pass, pass);
    }

    /// Proof only: no two of the caller's visits are the same one, and of two visits to one seat,
    /// what the earlier one left led to what the later one found. Costs a load.
    pub fn show(&self, caller: &mut Caller<T, C>)
        requires table { caller.old.table ≡ self.now.table }
        requires within { 0 < self.now.table.words }
        requires site { caller.old.site ≡ Some self.now.site }
        ensures same { caller.new ≡ caller.old }
        ensures apart { AreApart caller.old.visits }
        ensures order { AreInOrder (P.goes self.now.site) caller.old.visits }
    {
        self.table.shared.load::<Shows<P>>(&mut caller.pass, 0);
    }

    /// Ends the seats, and appends what sits there to these values. There is room for all.
    pub fn gather(self, values: Vec<T>) -> Vec<T>
        requires room { length values.items + self.table.words ≤ vec_capacity values }
        ensures { (rest : List T) × (result.items ≡ values.items ++ rest) × AreResident P.resident self.site rest }
    {
        let Lending { table } = self;
        let mut closed = table.close();
        let mut values = values;
        for seat in 0..closed.slot_count() {
            let word = closed.word(seat);
            let found = closed.take(seat);
            values = and_if_seated(values, word, found);
        }
        closed.free();
        values
    }
}

/// Appends what was found on a seat, if its word says that it sits there.
fn and_if_seated<T: Drop>(values: Vec<T>, word: u64, found: Option<T>) -> Vec<T>
    requires { length values.items < vec_capacity values }
    ensures capacity { vec_capacity result ≡ vec_capacity values }
    ensures items { (result.items ≡ values.items)
        ⊎ ((x : T) × (found ≡ Some x) × (word % 2 ≢ 0) × (result.items ≡ values.items ++ x ∷ [])) }
{
    let mut values = values;
    if word % 2 == 0 {
        return values;
    }
    if let Some(value) = found {
        values.push_reserved(value);
    }
    values
}
