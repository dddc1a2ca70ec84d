// The numbers that are given with a list, by name in its text.
use crate::line::{Words, numbers};
use crate::problem::Problem;

// Those that the text gives.
#[derive(Clone, Copy, Default)]
pub struct Settings {
    pub types: Option<u32>,
    pub first_repeat: Option<u32>,
    pub bound: Option<u32>,
    pub start: Option<u32>,
    pub top: Option<u32>,
    // The length of the top.
    pub length: Option<u32>,
}

// The numbers that a list is built with.
#[derive(Clone, Copy)]
pub struct Numbers {
    pub types: u32,
    pub first_repeat: u32,
    pub bound: u32,
    pub start: u32,
    pub top: u32,
    // The length of the top: without one, the end of the last child.
    pub length: Option<u32>,
}

// Reads the number of a setting.
pub fn read_setting(setting: &mut Option<u32>, words: Words<'_>) -> Result<(), Problem> {
    if setting.is_some() {
        return Err(Problem::Twice);
    }
    let [number] = numbers::<1>(words)?;
    *setting = Some(number);
    Ok(())
}

impl Settings {
    // The numbers that the settings give: none without the number of types, and else no ids are repeat ids, the bound is
    // 1,024, start and top are 0.
    pub fn numbers(self) -> Option<Numbers> {
        let types = self.types?;
        Some(Numbers {
            types,
            first_repeat: self.first_repeat.unwrap_or(types),
            bound: self.bound.unwrap_or(1024),
            start: self.start.unwrap_or(0),
            top: self.top.unwrap_or(0),
            length: self.length,
        })
    }
}
