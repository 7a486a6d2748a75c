use std::alloc::{AllocError, Global};

/// For each clause the place in it where a literal to watch was last found. It only says where to look first, so that
/// none is owed: for a clause without one it is 0.
#[derive(Drop)]
pub struct Resumes {
    places: Vec<u32>,
}

impl Resumes {
    /// No clause.
    pub fn new(alloc: Global) -> Resumes {
        Resumes {
            places: Vec::new(alloc),
        }
    }

    /// The next clause, with its first place.
    pub fn push(&mut self) -> Result<(), AllocError> {
        self.places.push(0)?;
        Ok(())
    }

    /// The place for the clause of this number.
    pub fn place(&self, number: u32) -> usize {
        let number = number as usize;
        if number < self.places.len() {
            self.places[number] as usize
        } else {
            0
        }
    }

    /// Keeps a place for the clause of this number; one past 32 bits as the greatest of these.
    pub fn set(&mut self, number: u32, place: usize) {
        let number = number as usize;
        if number < self.places.len() {
            self.places[number] = place.min(u32::MAX as usize) as u32;
        }
    }
}
