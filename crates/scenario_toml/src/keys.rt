//! The keys whose values are whole numbers, but for those that one kind of thread has, and how many items a selection
//! can have.

/// The most items of the key `select`.
pub(crate) const PICKABLES: u32 = 32;

/// A key whose value is a whole number.
#[derive(Clone, Copy, Debug)]
pub(crate) struct NumberKey {
    /// Its name.
    pub(crate) name: &'static str,
    /// The least number.
    pub(crate) least: i64,
    /// The greatest number.
    pub(crate) most: i64,
    /// What stands for it where it is absent. None where it has to be there, or nothing stands for it.
    pub(crate) default: Option<u64>,
}

pub(crate) const MAX_STEPS: NumberKey = NumberKey {
    name: "max_steps",
    least: 1,
    most: surw_base::STEPS as i64,
    default: Some(surw_base::STEPS as u64),
};

pub(crate) const SEED: NumberKey = NumberKey {
    name: "seed",
    least: 0,
    most: i64::MAX,
    default: Some(0),
};

pub(crate) const DEPTH: NumberKey = NumberKey {
    name: "depth",
    least: 1,
    most: surw_base::DEPTH as i64,
    default: Some(3),
};

pub(crate) const CELLS: NumberKey = NumberKey {
    name: "cells",
    least: 0,
    most: surw_base::CELLS as i64,
    default: Some(0),
};

pub(crate) const LOCKS: NumberKey = NumberKey {
    name: "locks",
    least: 0,
    most: surw_base::LOCKS as i64,
    default: Some(0),
};

pub(crate) const FRAMES: NumberKey = NumberKey {
    name: "frames",
    least: 0,
    most: surw_base::FRAMES as i64,
    default: Some(0),
};

pub(crate) const PAGES: NumberKey = NumberKey {
    name: "pages",
    least: 0,
    most: surw_base::PAGES as i64,
    default: Some(0),
};

pub(crate) const SLOTS: NumberKey = NumberKey {
    name: "slots",
    least: 0,
    most: surw_base::SLOTS as i64,
    default: Some(0),
};

pub(crate) const PAGE: NumberKey = NumberKey {
    name: "page",
    least: 0,
    most: surw_base::PAGES as i64 - 1,
    default: None,
};
