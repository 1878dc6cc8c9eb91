//! A watermark, its writer, and its readers.
ghost use Rattle.std.specs.Prelude.{◌≡◌, ◌≤◌, IfOk};
ghost use Rattle.crossbeam_utils.specs.Seq.{cell_view};
ghost use Rattle.watermark.specs.Views.{writer_at};

use crate::cell::{Advances, Cell, Compares, Loads, Reads, ViewPass, WatermarkId};
use std::alloc::{AllocError, Global};
use std::marker::{Model, PhantomData};
use std::sync::Wait;

/// A watermark at 0 that has no name yet.
#[derive(Drop)]
pub struct NewWatermark {
    pub cell: Cell,
    writer: ViewPass,
    ghost tied: { writer.table_id ≡ cell.table.shared.table_id },
    ghost starts: { cell_view writer ≡ writer_at 0 },
}

impl NewWatermark {
    /// A watermark at 0. Takes memory for its word, which may be refused.
    pub fn new(alloc: Global) -> Result<NewWatermark, AllocError> {
        let (cell, writer) = Cell::ruled(alloc, [0])?;
        Ok(NewWatermark { cell, writer })
    }

    /// The watermark under its name, and its writer.
    pub fn named<J: WatermarkId>(self) -> (Watermark<J>, WatermarkWriter<J>)
        requires { self.cell.table.shared.table_id ≡ J.watermark }
        ensures { result.1 ≡ 0 }
    {
        let NewWatermark { cell, writer } = self;
        (
            Watermark {
                cell,
                of: PhantomData,
            },
            WatermarkWriter {
                pass: writer,
                number: 0,
                of: PhantomData,
            },
        )
    }
}

/// The word that threads share.
#[derive(Drop)]
pub struct Watermark<J: WatermarkId> {
    cell: Cell,
    of: PhantomData<J>,
}

impl<J: WatermarkId> Model for Watermark<J> {
    ghost use Rattle.std.specs.Prelude.{◌≡◌};

    ghost Value = { Unit {0} };

    ghost view = { λ l. tt };

    ghost invariant = { λ l. l.cell.table.shared.table_id ≡ J.watermark };
}

/// The only writer of a watermark. Contracts see the watermark.
#[derive(Drop)]
pub struct WatermarkWriter<J: WatermarkId> {
    pass: ViewPass,
    number: u64,
    of: PhantomData<J>,
}

impl<J: WatermarkId> Model for WatermarkWriter<J> {
    ghost use Rattle.std.specs.Prelude.{◌≡◌, ℕ};
    ghost use Rattle.crossbeam_utils.specs.Seq.{cell_view};
    ghost use Rattle.watermark.specs.Views.{writer_at};

    ghost Value = { ℕ };

    ghost view = { λ r. r.number };

    ghost invariant = { λ r. (r.pass.table_id ≡ J.watermark) × (cell_view r.pass ≡ writer_at r.number) };
}

/// A reader of a watermark. Contracts see the number that it loaded last: the watermark is at least that, from then on.
#[derive(Drop)]
pub struct WatermarkReader<J: WatermarkId> {
    pass: ViewPass,
    number: u64,
    of: PhantomData<J>,
}

impl<J: WatermarkId> Model for WatermarkReader<J> {
    ghost use Rattle.std.specs.Prelude.{◌≡◌, ℕ};
    ghost use Rattle.crossbeam_utils.specs.Seq.{cell_view};
    ghost use Rattle.watermark.specs.Views.{reader_at};

    ghost Value = { ℕ };

    ghost view = { λ w. w.number };

    ghost invariant = { λ w. (w.pass.table_id ≡ J.watermark) × (cell_view w.pass ≡ reader_at w.number) };
}

impl<J: WatermarkId> WatermarkWriter<J> {
    /// The watermark.
    pub fn number(&self) -> u64
        ensures { result ≡ self.now }
    {
        self.number
    }

    /// Advances the watermark to this number.
    pub fn advance<R: Wait>(&mut self, rt: &R, watermark: &Watermark<J>, to: u64)
        requires { self.old ≤ to }
        ensures { self.new ≡ to }
    {
        watermark
            .cell
            .swap_as::<Advances, R>(rt, &mut self.pass, [to]);
        self.number = to;
    }

    /// A reader that has loaded the watermark as it is.
    pub fn reader(&mut self, watermark: &Watermark<J>) -> WatermarkReader<J>
        ensures reader { result ≡ self.old }
        ensures same { self.new ≡ self.old }
    {
        let pass = watermark.cell.split_pass::<Reads>(&mut self.pass);
        WatermarkReader {
            pass,
            number: self.number,
            of: PhantomData,
        }
    }

    /// Takes a reader back, and shows that it isn't ahead of the watermark.
    pub fn retire<R: Wait>(&mut self, rt: &R, watermark: &Watermark<J>, reader: WatermarkReader<J>)
        ensures below { reader ≤ self.old }
        ensures same { self.new ≡ self.old }
    {
        let mut reader = reader;
        let pass = watermark.cell.split_pass::<Reads>(&mut reader.pass);
        watermark.cell.join_pass::<Reads>(&mut self.pass, pass);
        watermark.cell.load_as::<Compares, R>(rt, &mut self.pass);
    }
}

impl<J: WatermarkId> WatermarkReader<J> {
    /// The number that it loaded last.
    pub fn number(&self) -> u64
        ensures { result ≡ self.now }
    {
        self.number
    }

    /// Another reader with the same number.
    pub fn again(&mut self, watermark: &Watermark<J>) -> WatermarkReader<J>
        ensures reader { result ≡ self.old }
        ensures same { self.new ≡ self.old }
    {
        let pass = watermark.cell.split_pass::<Reads>(&mut self.pass);
        WatermarkReader {
            pass,
            number: self.number,
            of: PhantomData,
        }
    }

    /// Loads the watermark. No clause says how fresh the number is, only that it is a lower bound and no lower than the last one.
    pub fn load<R: Wait>(&mut self, rt: &R, watermark: &Watermark<J>) -> u64
        ensures number { result ≡ self.new }
        ensures later { self.old ≤ self.new }
    {
        let [number] = watermark.cell.load_as::<Loads, R>(rt, &mut self.pass);
        self.number = number;
        number
    }
}
