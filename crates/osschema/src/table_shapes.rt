//! The shape of a schedule table: its members and their types, and the limits of its numbers.

ghost use Rattle.std.specs.Prelude.{◌≡◌, map, option_copied, option_map, true};
ghost use Rattle.std.specs.{List.list_all, Option.option_map_or};
ghost use Rattle.osbase.specs.Names.{is_name};
ghost use Rattle.osplan.specs.Limits.{first_offset, is_point_within, is_table_start_within, is_table_within};
ghost use Rattle.osschema.specs.{Declarations.declared_sizes, declared.table_shapes.PointText.PointText as Point};
ghost use Rattle.osschema.specs.Shape.{point_sizes, table_numbers, point_shape, table_start_shape, table_shape};

use crate::declarations::Declaration;
use crate::numbers::is_between;
use osbase::{ACTIONS, GREATEST_DURATION, List, POINTS};
use osjson::{
    BoolReader, JsonReader, ListOf, NameReader, OrNull, Refusal, Text, TextReader, Whole,
    WholeReader, at, at_or, only_members,
};
use serde_json::Value;
use std::alloc::Global;

/// An expiry point of a schedule table as a text has it.
#[derive(Drop)]
pub struct PointText<'v> {
    pub offset: Whole,
    pub actions: List<Text<'v>>,
}

impl PointText<'_> {
    /// Whether the expiry point has an action, and not too many.
    pub fn is_within(&self) -> bool
        ensures { result ≡ is_point_within (point_sizes self.now) }
    {
        1 <= self.actions.len() && self.actions.len() <= ACTIONS
    }
}

/// How a schedule table is autostarted, as a text has it.
#[derive(Drop)]
pub struct TableStartText<'v> {
    pub modes: List<Text<'v>>,
    pub offset: Whole,
}

/// A schedule table as a text has it.
#[derive(Drop)]
pub struct TableText<'v> {
    pub name: Text<'v>,
    pub counter: Text<'v>,
    pub duration: Whole,
    pub points: List<PointText<'v>>,
    pub repeating: bool,
    pub auto: Option<TableStartText<'v>>,
}

impl TableText<'_> {
    /// The offset of the table's first point. It is 0 if there is no point, or if the offset is below 0.
    pub fn first_offset(&self) -> u64
        ensures { result ≡ first_offset (map point_sizes self.now.points) }
    {
        match self.points.as_slice().first() {
            Some(point) => point.offset.unwrap_or(0),
            None => 0,
        }
    }

    fn is_each_point_within(&self) -> bool
        ensures { result ≡ list_all (λ (point : Point). is_point_within (point_sizes point)) self.now.points }
    {
        self.points.as_slice().iter().all(|point| point.is_within())
    }

    // Whether the table may start after `offset` counts: after at least 1, and early enough that the table's first
    // point is within the counter's values. Without a counter, any offset passes.
    fn is_start_within(&self, counter: Option<&Declaration>, offset: Whole) -> bool
        ensures { result ≡ is_table_start_within (table_numbers (option_map declared_sizes (option_copied counter.entry)) self.now) offset }
    {
        match counter {
            Some(counter) => {
                let greatest = counter.max.unwrap_or(0);
                is_between(1, greatest.saturating_sub(self.first_offset()), offset)
            }
            None => true,
        }
    }

    // Whether the table's autostart, if it has one, is within the limits that this counter sets. Without a counter, any
    // autostart passes.
    fn is_auto_within(&self, counter: Option<&Declaration>) -> bool
        ensures { let s = table_numbers (option_map declared_sizes (option_copied counter.entry)) self.now in result ≡ option_map_or (is_table_start_within s) s.auto true }
    {
        match &self.auto {
            Some(auto) => self.is_start_within(counter, auto.offset),
            None => true,
        }
    }

    /// Whether the table's duration, the number of its points, the number of each point's actions, and the table's
    /// autostart are within their limits. The counter limits the autostart. Without a counter, any autostart passes.
    #[tactic(auto, using(crate::proofs::Lists::counted))]
    pub fn is_within(&self, counter: Option<&Declaration>) -> bool
        ensures { result ≡ is_table_within (table_numbers (option_map declared_sizes (option_copied counter.entry)) self.now) }
    {
        is_between(1, GREATEST_DURATION, self.duration)
            && 1 <= self.points.len()
            && self.points.len() <= POINTS
            && self.is_each_point_within()
            && self.is_auto_within(counter)
    }
}

// Reads an expiry point.
#[derive(Clone, Copy)]
struct PointReader;

impl<'v> JsonReader<'v, PointText<'v>> for PointReader {
    ghost shape = { λ _ d. point_shape d };

    ghost passes = { λ _ _. true };

    #[tactic(auto, unfolding(crate::specs::Shape::point_shape))]
    fn read(&self, alloc: Global, value: &'v Value) -> Result<PointText<'v>, Refusal> {
        only_members(value, &["offset", "actions"])?;
        Ok(PointText {
            offset: at(alloc, value, "offset", &WholeReader)?,
            actions: at(alloc, value, "actions", &ListOf { of: TextReader })?,
        })
    }
}

// Reads how a schedule table is autostarted.
#[derive(Clone, Copy)]
struct TableStartReader;

impl<'v> JsonReader<'v, TableStartText<'v>> for TableStartReader {
    ghost shape = { λ _ d. table_start_shape d };

    ghost passes = { λ _ _. true };

    #[tactic(auto, unfolding(crate::specs::Shape::table_start_shape))]
    fn read(&self, alloc: Global, value: &'v Value) -> Result<TableStartText<'v>, Refusal> {
        only_members(value, &["modes", "offset"])?;
        Ok(TableStartText {
            modes: at(alloc, value, "modes", &ListOf { of: NameReader })?,
            offset: at(alloc, value, "offset", &WholeReader)?,
        })
    }
}

/// Reads a schedule table.
#[derive(Clone, Copy)]
pub struct TableReader;

impl<'v> JsonReader<'v, TableText<'v>> for TableReader {
    ghost shape = { λ _ d. table_shape d };

    ghost passes = { λ _ table. is_name table.name };

    #[tactic(auto, unfolding(crate::specs::Shape::table_shape))]
    fn read(&self, alloc: Global, value: &'v Value) -> Result<TableText<'v>, Refusal> {
        only_members(
            value,
            &["name", "counter", "duration", "points", "repeating", "auto"],
        )?;
        Ok(TableText {
            name: at(alloc, value, "name", &NameReader)?,
            counter: at(alloc, value, "counter", &NameReader)?,
            duration: at(alloc, value, "duration", &WholeReader)?,
            points: at(alloc, value, "points", &ListOf { of: PointReader })?,
            repeating: at_or(alloc, value, "repeating", &BoolReader, false)?,
            auto: at_or(
                alloc,
                value,
                "auto",
                &OrNull {
                    of: TableStartReader,
                },
                None,
            )?,
        })
    }
}
