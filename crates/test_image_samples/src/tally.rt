//! What rows give, and whether that may be.

use std::alloc::AllocError;

/// What a row gives: whether its answer is the whole one, or `AllocError` if an allocation failed for it. The failed
/// allocation may be one of the row's own, as for the bytes of its file.
pub type Row = Result<bool, AllocError>;

/// A row that is wrong, and how.
pub type Wrong = (&'static str, &'static str);

/// What the rows of a group gave.
#[derive(Drop)]
pub struct Tally {
    /// How many there are.
    pub rows: usize,
    // The first one that an allocation failed for.
    out_of_memory: Option<&'static str>,
    // The first one that is wrong.
    wrong: Option<Wrong>,
}

impl Tally {
    /// Of no rows.
    pub fn new() -> Tally {
        Tally {
            rows: 0,
            out_of_memory: None,
            wrong: None,
        }
    }

    /// Counts a row. Since one allocation fails in a run, no more than one row may be out of memory.
    pub fn add(&mut self, name: &'static str, row: Row) {
        self.rows = self.rows.saturating_add(1);
        match row {
            Ok(true) => {}
            Ok(false) => self.add_wrong(name, "neither its answer nor out of memory"),
            Err(_) => match self.out_of_memory {
                None => self.out_of_memory = Some(name),
                Some(_) => self.add_wrong(name, "out of memory, as another row was before"),
            },
        }
    }

    fn add_wrong(&mut self, name: &'static str, how: &'static str) {
        if self.wrong.is_none() {
            self.wrong = Some((name, how));
        }
    }

    /// The first row that is wrong. Where no allocation failed, that is also one that is out of memory.
    pub fn first_wrong(&self, has_failed: bool) -> Option<Wrong> {
        match (self.wrong, self.out_of_memory) {
            (Some(wrong), _) => Some(wrong),
            (None, Some(name)) if !has_failed => {
                Some((name, "out of memory, and no allocation failed"))
            }
            _ => None,
        }
    }
}
