// Small jobs: their lines, and how a plan, a tip for each line, shares the tips.
use std::alloc::{AllocError, Global};

// A line: the set of the tips that may pick its part, and its number of placements.
#[derive(Clone, Copy)]
pub struct Line {
    pub tips: u64,
    pub quantity: u8,
}

// The set with the one tip, empty for a tip past 63.
pub fn set_of(tip: u8) -> u64 {
    1u64.checked_shl(u32::from(tip)).unwrap_or(0)
}

// Every word of so many letters.
pub fn words<T: Copy>(
    alloc: Global,
    letters: &[T],
    length: usize,
) -> Result<Vec<Vec<T>>, AllocError> {
    let mut words = Vec::new(alloc);
    words.push(Vec::new(alloc))?;
    for _ in 0..length {
        let mut longer = Vec::new(alloc);
        for word in &words {
            for letter in letters {
                let mut next = word.clone()?;
                next.push(*letter)?;
                longer.push(next)?;
            }
        }
        words = longer;
    }
    Ok(words)
}

// How many placements the lines have.
pub fn placements(lines: &[Line]) -> usize {
    lines.iter().fold(0, |all: usize, line| {
        all.saturating_add(usize::from(line.quantity))
    })
}

// How many placements of the lines a plan puts on the tip.
pub fn uses(lines: &[Line], plan: &[u8], tip: u8) -> usize {
    lines
        .iter()
        .zip(plan)
        .filter(|(_, on)| **on == tip)
        .fold(0, |all: usize, (line, _)| {
            all.saturating_add(usize::from(line.quantity))
        })
}

// How many placements of the lines are off the tip that a plan uses most.
pub fn off(rack: u8, lines: &[Line], plan: &[u8]) -> usize {
    let most = (0..rack)
        .map(|tip| uses(lines, plan, tip))
        .max()
        .unwrap_or(0);
    placements(lines).saturating_sub(most)
}
