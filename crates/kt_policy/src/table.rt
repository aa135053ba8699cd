//! The table of sums.
ghost use Rattle.std.specs.Prelude.{◌≡◌};

use std::marker::Model;

/// Sums of widths, by cost from 0 on. Contracts see them as a list.
#[derive(Drop)]
pub struct Sums {
    sums: Vec<u32>,
}

impl Model for Sums {
    ghost use Rattle.std.specs.Prelude.{List, ℕ};

    ghost Value = { List ℕ };

    ghost view = { λ s. s.sums.items };
}

impl Sums {
    /// The sums of a vector, which takes no memory.
    pub fn of(sums: Vec<u32>) -> Sums
        ensures { result ≡ sums.items }
    {
        Sums { sums }
    }

    pub fn as_slice(&self) -> &[u32]
        ensures { result.now ≡ self.now }
    {
        &self.sums
    }

    /// The sums as a vector, which takes no memory.
    pub fn into_vec(self) -> Vec<u32>
        ensures { result.items ≡ self }
    {
        self.sums
    }
}

/// The sums of one left bound, by the number of candidates from 0 on. Contracts see them as a list of rows.
#[derive(Drop)]
pub struct Part {
    rows: Vec<Sums>,
}

impl Model for Part {
    ghost use Rattle.std.specs.Prelude.{List, ℕ};

    ghost Value = { List (List ℕ) };

    ghost view = { λ p. p.rows.items };
}

impl Part {
    /// The rows of a vector, which takes no memory.
    pub fn of(rows: Vec<Sums>) -> Part
        ensures { result ≡ rows.items }
    {
        Part { rows }
    }

    pub fn as_slice(&self) -> &[Sums]
        ensures { result.now ≡ self.now }
    {
        &self.rows
    }

    /// The rows as a vector, which takes no memory.
    pub fn into_vec(self) -> Vec<Sums>
        ensures { result.items ≡ self }
    {
        self.rows
    }
}

/// The sums of each left bound. Contracts see them as a list of parts.
#[derive(Drop)]
pub struct Table {
    parts: Vec<Part>,
}

impl Model for Table {
    ghost use Rattle.std.specs.Prelude.{List, ℕ};

    ghost Value = { List (List (List ℕ)) };

    ghost view = { λ t. t.parts.items };
}

impl Table {
    /// The parts of a vector, which takes no memory.
    pub fn of(parts: Vec<Part>) -> Table
        ensures { result ≡ parts.items }
    {
        Table { parts }
    }

    pub fn as_slice(&self) -> &[Part]
        ensures { result.now ≡ self.now }
    {
        &self.parts
    }

    /// The parts as a vector, which takes no memory.
    pub fn into_vec(self) -> Vec<Part>
        ensures { result.items ≡ self }
    {
        self.parts
    }
}
