//! The tests of the schedule tables of a configuration's text.

ghost use Rattle.std.specs.Prelude.{◌≡◌, ◌<◌, ◌^◌, map, nat_le, true, unwrap_or};
ghost use Rattle.std.specs.{List.list_all, Option.option_map_or};
ghost use Rattle.osschema.specs.{declared.table_shapes.TableText.TableText as Table, Declarations.declared_sizes, Declarations.place_alone};
ghost use Rattle.osplan.specs.Limits.{are_alarms_within, are_ascending, are_tables_within, delays, is_before, is_delay, is_final, is_table_timed, is_table_within, is_timed_by, last_offset, most_posted};
ghost use Rattle.osvalidate.specs.Posted.{most_posts_of_table, is_posting, posted_at, posted_by_alarms, posted_by_tables, most_posts_per_tick};
ghost use Rattle.osvalidate.specs.Check.{alarm_sizes, is_mode_known, point_sizes, table_modes, table_sizes, bare_table_sizes};

use crate::checks::are_modes_known;
use osbase::{CoreId, ObjectKind, POSTED, Place, TABLES};
use oscript::action_of_op;
use osschema::{AlarmText, CoreText, Declaration, Objects, PointText, TableText, number_id};
use ossyntax::{Places, op_of_text};

// The offset of a point, or 0 if it is below 0.
fn offset_of(point: &PointText) -> u64
    ensures { result ≡ unwrap_or point.now.offset 0 }
{
    point.offset.unwrap_or(0)
}

// The offset of the last point; 0 if there is no point, or if the offset is below 0.
fn last_offset(points: &[PointText]) -> u64
    ensures { result ≡ last_offset (map point_sizes points.now) }
{
    match points.last() {
        Some(point) => offset_of(point),
        None => 0,
    }
}

// Whether the table is within its limits. The counter that it names limits its autostart.
fn is_table_within(objects: &Objects, table: &TableText) -> bool
    ensures { result ≡ is_table_within (table_sizes objects.now.declared table.now) }
{
    table.is_within(objects.counter(table.counter.as_str()))
}

fn is_each_table_within(objects: &Objects, tables: &[TableText]) -> bool
    ensures { result ≡ list_all (λ (table : Table). is_table_within (table_sizes objects.now.declared table)) tables.now }
{
    tables.iter().all(|table| is_table_within(objects, table))
}

/// Whether each table of a core is within its limits, and there are not too many.
#[tactic(auto, using(crate::proofs::Numbers::mapped))]
pub fn are_tables_within(objects: &Objects, tables: &[TableText]) -> bool
    ensures { result ≡ are_tables_within (map (table_sizes objects.now.declared) tables.now) }
{
    tables.len() <= TABLES && is_each_table_within(objects, tables)
}

// The objects whose names no other object has. What a text posts is judged before it is known whether a name
// occurs twice.
#[derive(Clone, Copy)]
struct Alone<'o, 'e> {
    objects: &'o Objects<'e>,
}

impl Places for Alone<'_, '_> {
    ghost place = { λ alone. place_alone alone.objects.now.declared };

    fn place(&self, kind: ObjectKind, name: &str) -> Option<Place> {
        self.objects.place_alone(kind, name)
    }
}

// Whether the text is an action on a task of another core than `id`, and no other object has the task's name.
fn is_posting(objects: &Objects, id: CoreId, text: &str) -> bool
    ensures { result ≡ is_posting objects.now.declared id text.now }
{
    match op_of_text(&Alone { objects }, text) {
        Some(op) => match action_of_op(op) {
            Some(action) => action.object().place.core.number != id.number,
            None => false,
        },
        None => false,
    }
}

// How many actions of the point post a letter to another core.
fn posted_at(objects: &Objects, id: CoreId, point: &PointText) -> usize
    ensures { result ≡ posted_at objects.now.declared id point.now }
{
    point
        .actions
        .as_slice()
        .iter()
        .filter(|text| is_posting(objects, id, text.as_str()))
        .count()
}

// The greatest number of letters that a point of the table posts.
fn most_posts_of_table(objects: &Objects, id: CoreId, table: &TableText) -> usize
    ensures { result ≡ most_posts_of_table objects.now.declared id table.now }
{
    let mut greatest = 0;
    for point in table.points.as_slice() {
        let posted = posted_at(objects, id, point);
        if posted > greatest {
            greatest = posted;
        }
    }
    greatest
}

// How many of these alarms post a letter to another core.
fn posted_by_alarms(objects: &Objects, id: CoreId, alarms: &[AlarmText]) -> usize
    ensures { result ≡ posted_by_alarms objects.now.declared id alarms.now }
{
    alarms
        .iter()
        .filter(|alarm| is_posting(objects, id, alarm.action.as_str()))
        .count()
}

// How many letters these tables may post at once: for each table, the most that one of its points posts.
fn posted_by_tables(objects: &Objects, id: CoreId, tables: &[TableText]) -> usize
    requires { posted_by_tables objects.now.declared id tables.now < 2 ^ 64 }
    ensures { result ≡ posted_by_tables objects.now.declared id tables.now }
{
    tables
        .iter()
        .map(|table| most_posts_of_table(objects, id, table))
        .sum()
}

/// Whether the core's alarms and tables post no more letters at once than they may. The alarms and tables must be
/// within their limits, so that the sum is small.
pub fn are_posted_few(objects: &Objects, core: &CoreText) -> bool
    requires alarms { are_alarms_within (map (alarm_sizes objects.now.declared) core.now.alarms) ≡ true }
    requires tables { are_tables_within (map (table_sizes objects.now.declared) core.now.tables) ≡ true }
    ensures { result ≡ nat_le (most_posts_per_tick objects.now.declared core.now) most_posted }
{
    let id = number_id(core.id);
    let by_alarms = posted_by_alarms(objects, id, core.alarms.as_slice());
    let by_tables = posted_by_tables(objects, id, core.tables.as_slice());
    by_alarms + by_tables <= POSTED
}

/// Whether the modes in which the table is autostarted exist.
pub fn are_table_modes_known(objects: &Objects, table: &TableText) -> bool
    ensures { result ≡ list_all (is_mode_known objects.now.declared) (table_modes table.now) }
{
    match &table.auto {
        Some(auto) => are_modes_known(objects, auto.modes.as_slice()),
        None => true,
    }
}

fn is_before(point: &PointText, next: &PointText) -> bool
    ensures { result ≡ is_before point.now.offset next.now.offset }
{
    match (point.offset, next.offset) {
        (Some(offset), Some(next)) => offset < next,
        _ => false,
    }
}

// Whether no offset of these points is below 0, and each is greater than the one before.
fn are_ascending(points: &[PointText]) -> bool
    ensures { result ≡ are_ascending (map point_sizes points.now) }
{
    let mut points = points;
    while let [point, later @ ..] = points {
        let in_order = match later.first() {
            Some(next) => is_before(point, next),
            None => point.offset.is_some(),
        };
        if !in_order {
            return false;
        }
        points = later;
    }
    true
}

// Whether the counter admits the delay: it is at least the counter's least cycle, and at most its greatest value.
fn is_delay(counter: &Declaration, delay: u64) -> bool
    ensures { result ≡ is_delay (declared_sizes counter.now) delay }
{
    counter.min.unwrap_or(0) <= delay && delay <= counter.max.unwrap_or(0)
}

// Whether the counter admits each delay from a point to the next.
fn are_delays(counter: &Declaration, points: &[PointText]) -> bool
    ensures { result ≡ list_all (is_delay (declared_sizes counter.now)) (delays (map point_sizes points.now)) }
{
    let mut points = points;
    while let [point, later @ ..] = points {
        let is_admitted = match later.first() {
            Some(next) => is_delay(counter, offset_of(next).saturating_sub(offset_of(point))),
            None => true,
        };
        if !is_admitted {
            return false;
        }
        points = later;
    }
    true
}

// Whether the counter admits the delay from the last point to the end of the table's duration. If the table does not
// repeat, this delay may be less than the counter's least cycle.
fn is_final(counter: &Declaration, table: &TableText) -> bool
    ensures { result ≡ is_final (bare_table_sizes table.now) (declared_sizes counter.now) }
{
    let last = last_offset(table.points.as_slice());
    let delay = table.duration.unwrap_or(0).saturating_sub(last);
    delay <= counter.max.unwrap_or(0) && (!table.repeating || is_delay(counter, delay))
}

// Whether the counter admits the first point's offset, which may be 0, the delays between the points, and the delay
// from the last point to the end of the table's duration.
fn is_timed_by(counter: &Declaration, table: &TableText) -> bool
    ensures { result ≡ is_timed_by (bare_table_sizes table.now) (declared_sizes counter.now) }
{
    let first = table.first_offset();
    (first == 0 || is_delay(counter, first))
        && are_delays(counter, table.points.as_slice())
        && is_final(counter, table)
}

// Whether the counter that the table names admits the delays before, between and after the table's points. Any delays
// pass unless exactly one object has the name and is a counter.
fn is_timed(objects: &Objects, table: &TableText) -> bool
    ensures { result ≡ option_map_or (is_timed_by (bare_table_sizes table.now)) (table_sizes objects.now.declared table.now).counter true }
{
    match objects.counter(table.counter.as_str()) {
        Some(counter) => is_timed_by(counter, table),
        None => true,
    }
}

// Whether the table's points come in order, none past the table's duration. The table's counter, if it is known, must
// admit the delays before, between and after them.
fn is_table_timed(objects: &Objects, table: &TableText) -> bool
    ensures { result ≡ is_table_timed (table_sizes objects.now.declared table.now) }
{
    let points = table.points.as_slice();
    are_ascending(points)
        && last_offset(points) <= table.duration.unwrap_or(0)
        && is_timed(objects, table)
}

/// Whether the points of each table come in order, none past the table's duration. The table's counter, if it is known,
/// must admit the delays before, between and after them.
pub fn are_tables_timed(objects: &Objects, tables: &[TableText]) -> bool
    ensures { result ≡ list_all (λ (table : Table). is_table_timed (table_sizes objects.now.declared table)) tables.now }
{
    tables.iter().all(|table| is_table_timed(objects, table))
}
