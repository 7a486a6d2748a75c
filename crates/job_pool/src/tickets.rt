// A word from which numbers are drawn, and seats that draw.
ghost use Rattle.std.specs.Prelude.{◌≡◌, ℕ, ◌+◌, ◌-◌, ◌^◌, ◌<◌, ◌≤◌, List, [], ◌∷◌, ◌++◌, All, length, IfOk};
ghost use Rattle.job_pool.specs.Seats.{EachOnceBelow};

use crate::rule::{Both, Cut, Draw, EachOnce, Hand, Part};
use atomic_table::Table;
use std::alloc::{AllocError, Global};
use std::marker::{Brand, Model};

/// A shared word from which seats draw numbers, 0 and up, each number once. Contracts see the word's name and the
/// limit, which is how many numbers may be drawn from it in all.
#[derive(Drop)]
pub struct Tickets {
    table: Table<(), Hand, u64, EachOnce, Global>,
}

impl Model for Tickets {
    ghost use Rattle.std.specs.Prelude.{◌≡◌, ℕ, ◌^◌, ◌≤◌};
    ghost use Rattle.job_pool.specs.Seats.{Counter};

    ghost Value = { Counter };

    ghost view = { λ t. record { word = t.table.shared.table_id; limit = t.table.shared.key } };

    ghost invariant = { λ t. (t.table.shared.table_id.words ≡ 1) × (t.table.shared.table_id.slots ≡ 0) × (t.table.shared.key ≤ 2 ^ 63) };
}

/// The right to draw some numbers from a word, and the numbers drawn with it. Contracts see the word's name, the
/// numbers in the order in which the seat came to them, and the allowance, which is how many more it may draw.
#[derive(Drop)]
pub struct Seat {
    inner: atomic_table::Seat<(), Hand>,
}

impl Model for Seat {
    ghost use Rattle.std.specs.Prelude.{◌≡◌, []};
    ghost use Rattle.job_pool.specs.Seats.{Place};

    ghost Value = { Place };

    ghost view = { λ s. record { word = s.inner.table_id; numbers = s.inner.me.0.drawn; allowance = s.inner.me.0.left } };

    ghost invariant = { λ s. s.inner.me.1 ≡ [] };
}

impl Tickets {
    /// A word at 0, and its first seat, which may draw as many numbers as the limit.
    pub fn new(alloc: Global, limit: u64) -> Result<(Tickets, Seat), AllocError>
        requires { limit ≤ 2 ^ 63 }
        ensures limit { IfOk result (λ r. r.0.limit ≡ limit) }
        ensures seat { IfOk result (λ r. r.1 ≡ record { word = r.0.word; numbers = []; allowance = limit }) }
    {
        let (table, inner) = Table::of_words(alloc, &[0], &limit)?;
        Ok((Tickets { table }, Seat { inner }))
    }

    /// A new seat with a part of this seat's allowance and no numbers. Takes no memory.
    pub fn split(&self, seat: &mut Seat, part: u64) -> Seat
        requires word { seat.old.word ≡ self.now.word }
        requires part { part ≤ seat.old.allowance }
        ensures seat { seat.new ≡ record seat.old { allowance = seat.old.allowance - part } }
        ensures new { result ≡ record { word = self.now.word; numbers = []; allowance = part } }
    {
        self.cut::<Brand>(seat, part)
    }

    // Cuts off a part that the proof names, since a split of seats knows no value of the run.
    fn cut<B: Part>(&self, seat: &mut Seat, part: u64) -> Seat
        requires part_is { part ≡ B.part }
        requires word { seat.old.word ≡ self.now.word }
        requires part { part ≤ seat.old.allowance }
        ensures seat { seat.new ≡ record seat.old { allowance = seat.old.allowance - part } }
        ensures new { result ≡ record { word = self.now.word; numbers = []; allowance = part } }
    {
        let inner = self.table.shared.split_seat::<Cut<B>>(&mut seat.inner);
        Seat { inner }
    }

    /// Draws the next number of the word by one atomic addition. It goes to the end of the seat's numbers and is
    /// greater than all of them. Takes no memory, and waits for nobody.
    pub fn draw(&self, seat: &mut Seat) -> u64
        requires word { seat.old.word ≡ self.now.word }
        requires allowed { 0 < seat.old.allowance }
        ensures seat { seat.new ≡ record { word = seat.old.word; numbers = seat.old.numbers ++ result ∷ []; allowance = seat.old.allowance - 1 } }
        ensures above { All (λ x. x < result) seat.old.numbers }
        ensures many { length seat.old.numbers ≤ result }
    {
        self.table.shared.fetch_add::<Draw>(&mut seat.inner, 0, 1)
    }

    /// Puts the numbers and the allowance of another seat behind this one's. Takes no memory.
    pub fn join(&self, seat: &mut Seat, other: Seat)
        requires word { (seat.old.word ≡ self.now.word) × (other.word ≡ self.now.word) }
        ensures { seat.new ≡ record { word = seat.old.word; numbers = seat.old.numbers ++ other.numbers; allowance = seat.old.allowance + other.allowance } }
    {
        let Seat { inner } = other;
        self.table.shared.join_seat::<Both>(&mut seat.inner, inner);
    }

    /// How many numbers were drawn. The seat has just the numbers below this count, each once, where all that was
    /// allowed came back to it. Takes no memory.
    pub fn close(self, seat: Seat) -> u64
        requires word { seat.word ≡ self.word }
        requires whole { length seat.numbers + seat.allowance ≡ self.limit }
        ensures numbers { EachOnceBelow result seat.numbers }
        ensures count { length seat.numbers ≡ result }
    {
        let Tickets { table } = self;
        let Seat { inner } = seat;
        let closed = table.close_with(inner);
        let count = closed.word(0);
        closed.free();
        count
    }
}
