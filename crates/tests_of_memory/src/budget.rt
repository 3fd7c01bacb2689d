//! Calls under refused memory: all memory is taken first, and then a budget of bytes is handed back, 16 bytes more each
//! time. What they write goes where memory is held already.
use std::alloc::{AllocError, Global};
use std::process::Abort;

// How many blocks are taken at the most.
const MOST_BLOCKS: usize = 65_536;

// What is handed back at the most, in steps of so many bytes.
const MOST_BYTES: usize = 98_304;

const STEP: usize = 16;

const BUDGETS: usize = 6_144;

// Blocks of one size, until one is refused.
fn take_blocks(alloc: Global, held: &mut Vec<Vec<u8>>, size: usize) {
    for _ in 0..MOST_BLOCKS {
        match Vec::<u8>::with_capacity(alloc, size) {
            Ok(block) => {
                if held.len() == MOST_BLOCKS || held.push(block).is_err() {
                    break;
                }
            }
            Err(_) => break,
        }
    }
}

/// Blocks that together leave no memory: ever smaller ones, and at last of each size by which free blocks may be kept,
/// since a block that is kept so is given for no other size.
pub fn take_all(alloc: Global) -> Result<Vec<Vec<u8>>, AllocError> {
    let mut held = Vec::with_capacity(alloc, MOST_BLOCKS)?;
    let mut size: usize = 1 << 44;
    for _ in 0..98 {
        take_blocks(alloc, &mut held, size);
        if size > 1_024 {
            size /= 2;
        } else {
            size = size.saturating_sub(16);
        }
    }
    Ok(held)
}

/// What a call answered: as it should with memory, as it should without, so after a part of its output, or otherwise.
#[derive(Clone, Copy, PartialEq, Eq)]
pub enum Answered {
    Whole,
    Refused,
    Partly,
    Wrong,
}

/// A call that may ask for memory.
pub trait Call {
    fn answer(&self, alloc: Global) -> Answered;
}

// How a call answers at every budget.
#[derive(Clone, Copy, PartialEq, Eq)]
struct Tally {
    whole: bool,
    refused: bool,
    wrong: bool,
}

impl Tally {
    fn new() -> Tally {
        Tally {
            whole: false,
            refused: false,
            wrong: false,
        }
    }

    fn count(&mut self, answered: Answered) {
        match answered {
            Answered::Whole => self.whole = true,
            Answered::Refused => self.refused = true,
            Answered::Partly | Answered::Wrong => self.wrong = true,
        }
    }

    // Some whole answers, some refused, and none wrong.
    fn is_good(&self) -> bool {
        self.whole && self.refused && !self.wrong
    }

    // Whole answers alone: the call asks for no memory.
    fn is_whole(&self) -> bool {
        self.whole && !self.refused && !self.wrong
    }
}

// Each budget in turn: what the filler leaves of the memory that is there.
fn at_each_budget<C: Call>(alloc: Global, call: &C) -> Tally {
    let mut tally = Tally::new();
    for number in 0..BUDGETS {
        let taken = MOST_BYTES.saturating_sub(number.saturating_mul(STEP));
        if let Ok(filler) = Vec::<u8>::with_capacity(alloc, taken) {
            tally.count(call.answer(alloc));
            drop(filler);
        }
    }
    tally
}

// How a call answers at every budget.
fn by_budget<C: Call>(alloc: Global, call: &C) -> Result<Tally, AllocError> {
    let spare = Vec::<u8>::with_capacity(alloc, MOST_BYTES)?;
    let held = take_all(alloc)?;
    drop(spare);
    let tally = at_each_budget(alloc, call);
    drop(held);
    Ok(tally)
}

/// A call has to answer as it should at every budget: whole at some, refused at others, wrong at none.
pub fn stands<C: Call>(rt: &impl Abort, alloc: Global, call: &C) {
    assert!(rt; by_budget(alloc, call).expect(rt, "memory").is_good());
}

/// A call has to answer whole at every budget, since it asks for no memory.
pub fn asks_nothing<C: Call>(rt: &impl Abort, alloc: Global, call: &C) {
    assert!(rt; by_budget(alloc, call).expect(rt, "memory").is_whole());
}

// The least budget at which a call answers whole.
fn first_whole<C: Call>(alloc: Global, call: &C) -> usize {
    for number in 0..BUDGETS {
        let bytes = number.saturating_mul(STEP);
        if let Ok(filler) = Vec::<u8>::with_capacity(alloc, MOST_BYTES.saturating_sub(bytes)) {
            let answered = call.answer(alloc);
            drop(filler);
            if answered == Answered::Whole {
                return bytes;
            }
        }
    }
    MOST_BYTES
}

/// The least budget at which a call answers whole, in steps of 16 bytes.
pub fn least_budget<C: Call>(alloc: Global, call: &C) -> Result<usize, AllocError> {
    let spare = Vec::<u8>::with_capacity(alloc, MOST_BYTES)?;
    let held = take_all(alloc)?;
    drop(spare);
    let least = first_whole(alloc, call);
    drop(held);
    Ok(least)
}

/// What a call answers at one budget.
pub fn at_budget<C: Call>(alloc: Global, call: &C, bytes: usize) -> Result<Answered, AllocError> {
    let spare = Vec::<u8>::with_capacity(alloc, bytes)?;
    let held = take_all(alloc)?;
    drop(spare);
    let answered = call.answer(alloc);
    drop(held);
    Ok(answered)
}
