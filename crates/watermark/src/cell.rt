//! The word of a watermark, its rule, and what its passes know.
use atomic_table::{Join, Split};
use crossbeam_utils::atomic::seq_cell::{Pass, RuledSeqCell};
use crossbeam_utils::rule::{Outcome, Protocol};
use std::marker::Brand;

/// Names one watermark, so that its writer and its readers have a type of their own.
pub trait WatermarkId {
    ghost use Rattle.atomic_table.specs.Seated.{TableId};

    ghost watermark: { TableId };
}

impl WatermarkId for Brand {
    ghost use Rattle.watermark.specs.Views.{no_table};

    ghost watermark = { no_table };
}

/// What a pass knows of the word. No value of it is made.
pub struct View {
    /// Whether it is the writer's.
    pub writes: bool,
    /// The watermark, of a reader's pass the one that it read last.
    pub number: u64,
    /// The number of a retired reader, which the writer compares with its own.
    pub claim: u64,
}

/// The rule: at most one pass writes, its number is the word, and no pass has a greater one.
pub struct Monotone;

impl Protocol<[u64; 1], View> for Monotone {
    ghost use Rattle.watermark.specs.Views.{IsHighest, writer_at};

    ghost holds = { IsHighest };

    ghost first = { writer_at 0 };
}

/// The step of the writer.
pub(crate) struct Advances;

impl Outcome<[u64; 1], View> for Advances {
    ghost use Rattle.watermark.specs.Views.{Advanced};

    ghost then = { Advanced };
}

/// The step of a reader.
pub(crate) struct Loads;

impl Outcome<[u64; 1], View> for Loads {
    ghost use Rattle.watermark.specs.Views.{Loaded};

    ghost then = { Loaded };
}

/// The step by which the writer compares the number of a retired reader.
pub(crate) struct Compares;

impl Outcome<[u64; 1], View> for Compares {
    ghost use Rattle.watermark.specs.Views.{Compared};

    ghost then = { Compared };
}

/// A reader's pass is split off, or joined into the writer's.
pub(crate) struct Reads;

impl Split<View> for Reads {
    ghost use Rattle.watermark.specs.Views.{reader_at};

    ghost left = { λ v. v };

    ghost right = { λ v. reader_at v.number };
}

impl Join<View> for Reads {
    ghost use Rattle.watermark.specs.Views.{with_claim, reader_at};

    ghost both = { with_claim };

    ghost spent = { reader_at 0 };
}

pub type Cell = RuledSeqCell<[u64; 1], View, Monotone, 1>;

pub type ViewPass = Pass<[u64; 1], View>;
