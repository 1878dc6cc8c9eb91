//! A walk over a range of the image for a caller that keeps columns of its own beside the stable table: stretches that tell
//! which stable rows they come from (Héman et al. 2010, "MergeScan").
ghost use Rattle.std.specs.Prelude.{◌≡◌, ◌+◌, ◌≤◌, ◌<◌, ◌^◌, min, length, Some};
ghost use Rattle.std.specs.Iterator.{at_most};
ghost use Rattle.merge.specs.Image.{image_rows};
ghost use Rattle.merge.specs.Placed.{IsPlaced, YieldsPlaced};

use crate::image::Image;
use crate::layers::Layers;
use crate::stretch::Stretch;
use stable::StableTable;
use std::iter::FusedIterator;
use std::marker::Model;

/// The stretches that are left of a range of the image, in order, with the stable rows that they come from. A contract sees
/// the layers, the position of the next row, and how many rows are left.
///
/// The rows are those of the stretches whatever stands in the stable rows: so a caller may read the stretches over columns
/// that stay with it.
#[derive(Drop)]
pub struct PlacedStretches<'a> {
    layers: Layers<'a>,
    rows: Image<'a>,
    /// The position of the next row.
    rid: u64,
    /// How many rows are wanted of those that are left.
    left: u64,
}

impl<'a> Model for PlacedStretches<'a> {
    ghost use Rattle.std.specs.Prelude.{◌+◌, ◌≤◌, ◌<◌, ◌^◌, length};
    ghost use Rattle.merge.specs.Image.{image_rows};
    ghost use Rattle.merge.specs.Placed.{IsPlaced, Placed};

    ghost Value = { Placed };

    ghost view = { λ p. record { stack = p.layers; rid = p.rid; left = p.left } };

    ghost invariant = { λ p. IsPlaced p.layers p.rid p.rows × (p.rid + p.left ≤ length (image_rows p.layers))
        × (length (image_rows p.layers) < 2 ^ 62) };
}

impl<'a> PlacedStretches<'a> {
    /// So many rows of the image of layers, from a position on.
    pub(crate) fn new(
        layers: Layers<'a>,
        rows: Image<'a>,
        rid: u64,
        left: u64,
    ) -> PlacedStretches<'a>
        requires placed { IsPlaced layers rid rows }
        requires within { rid + left ≤ length (image_rows layers) }
        requires few { length (image_rows layers) < 2 ^ 62 }
        ensures { result ≡ record { stack = layers.entry; rid = rid; left = left } }
    {
        PlacedStretches {
            layers,
            rows,
            rid,
            left,
        }
    }

    /// The stable table, over whose rows the stretches are.
    pub fn stable(&self) -> &'a StableTable
        ensures schema { result.now.schema ≡ self.now.stack.schema }
        ensures rows { result.now.rows ≡ self.now.stack.rows }
    {
        self.layers.stable()
    }

    /// The position of the next row.
    pub fn rid(&self) -> u64
        ensures { result ≡ self.now.rid }
    {
        self.rid
    }

    /// How many rows are left.
    pub fn rows_left(&self) -> u64
        ensures count { result ≡ self.now.left }
        ensures within { self.now.rid + self.now.left ≤ length (image_rows self.now.stack) }
    {
        self.left
    }
}

impl<'a> Iterator for PlacedStretches<'a> {
    type Item = Stretch<'a>;

    ghost next_gives = { λ s r t. YieldsPlaced s r t };

    ghost remaining = { λ s. at_most s.left };

    #[inline(always)]
    fn next(&mut self) -> Option<Stretch<'a>> {
        let PlacedStretches {
            layers: _,
            rows,
            rid,
            left,
        } = self;
        if *left == 0 {
            return None;
        }
        let stretch = rows.next_stretch(*left);
        let count = stretch.count();
        *rid += count;
        *left -= count;
        Some(stretch)
    }

    /// At least one stretch where a row is left, and no more than there are rows.
    fn size_hint(&self) -> (usize, Option<usize>)
        ensures least { result.0 ≡ min 1 self.now.left }
        ensures most { result.1 ≡ Some self.now.left }
    {
        let left = self.rows_left() as usize;
        (left.min(1), Some(left))
    }
}

impl<'a> FusedIterator for PlacedStretches<'a> {}
