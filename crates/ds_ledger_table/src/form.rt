//! The form of a ledger's database.
ghost use Rattle.std.specs.Prelude.{◌≡◌, ◌↔◌, ◌∷◌, [], IsTrue, Some, map};
ghost use Rattle.ds_ledger_table.specs.Form.{column as column_of, free_table, ledger_schema, table as table_of, view as view_of};

use sqlite_schema::schema::{Column, Kind, Schema, Stamps, Table, View};
use sqlite_value::keys::Collation;
use sqlite_value::value::Value;

/// How many columns a row has.
pub const COLUMNS: usize = 28;

/// What makes the table of accepted commands.
pub(crate) const COMMAND_TABLE: &str =
    "CREATE TABLE command (serial INTEGER PRIMARY KEY, done TEXT, id INTEGER, moment INTEGER, name TEXT, port \
    TEXT, path TEXT, class INTEGER, kind TEXT, mode TEXT, cir INTEGER, cbs INTEGER, pir INTEGER, pbs INTEGER, \
    eir INTEGER, ebs INTEGER, since INTEGER, until INTEGER, src ANY, src_length INTEGER, dst ANY, \
    dst_length INTEGER, protocol INTEGER, sport_low INTEGER, sport_high INTEGER, dport_low INTEGER, dport_high \
    INTEGER, dscp INTEGER) STRICT";

/// What makes the table with the form's version.
pub(crate) const FORM_TABLE: &str = "CREATE TABLE form (version INTEGER PRIMARY KEY) STRICT";

/// What makes the view of what is held.
pub(crate) const HELD_VIEW: &str =
    "CREATE VIEW held AS SELECT id, name, port, path, class, kind, mode, cir, cbs, pir, pbs, eir, ebs, since, \
    until, (SELECT moment FROM command AS ended WHERE ended.done = 'release' AND ended.id = command.id) AS \
    released FROM command WHERE done = 'reserve' AND id NOT IN (SELECT id FROM command WHERE done = 'retire')";

/// What gives the form's version.
pub(crate) const VERSION: &str = "INSERT INTO form VALUES (1)";

/// What adds a row to the accepted commands.
pub(crate) const INSERT: &str =
    "INSERT INTO command VALUES (?1, ?2, ?3, ?4, ?5, ?6, ?7, ?8, ?9, ?10, ?11, ?12, ?13, ?14, ?15, ?16, ?17, ?18, \
    ?19, ?20, ?21, ?22, ?23, ?24, ?25, ?26, ?27, ?28)";

/// What reads the accepted commands.
pub const SELECT: &str =
    "SELECT serial, done, id, moment, name, port, path, class, kind, mode, cir, cbs, pir, pbs, eir, ebs, since, \
    until, src, src_length, dst, dst_length, protocol, sport_low, sport_high, dport_low, dport_high, dscp FROM \
    command";

/// What reads the version of the form.
pub(crate) const SELECT_VERSION: &str = "SELECT version FROM form";

/// The columns of the accepted commands.
const COMMAND_COLUMNS: [(&str, Kind); 28] = [
    ("serial", Kind::Integer),
    ("done", Kind::Text),
    ("id", Kind::Integer),
    ("moment", Kind::Integer),
    ("name", Kind::Text),
    ("port", Kind::Text),
    ("path", Kind::Text),
    ("class", Kind::Integer),
    ("kind", Kind::Text),
    ("mode", Kind::Text),
    ("cir", Kind::Integer),
    ("cbs", Kind::Integer),
    ("pir", Kind::Integer),
    ("pbs", Kind::Integer),
    ("eir", Kind::Integer),
    ("ebs", Kind::Integer),
    ("since", Kind::Integer),
    ("until", Kind::Integer),
    ("src", Kind::Any),
    ("src_length", Kind::Integer),
    ("dst", Kind::Any),
    ("dst_length", Kind::Integer),
    ("protocol", Kind::Integer),
    ("sport_low", Kind::Integer),
    ("sport_high", Kind::Integer),
    ("dport_low", Kind::Integer),
    ("dport_high", Kind::Integer),
    ("dscp", Kind::Integer),
];

/// The columns of the form's version.
const FORM_COLUMNS: [(&str, Kind); 1] = [("version", Kind::Integer)];

/// Whether a schema is that of a ledger.
pub(crate) fn is_form(schema: &Schema) -> bool
    ensures only { IsTrue result → schema.now ≡ ledger_schema }
    ensures all { schema.now ≡ ledger_schema → IsTrue result }
{
    let tables = schema.tables.as_slice();
    let views = schema.views.as_slice();
    if tables.len() != 2 || views.len() != 1 || !schema.indexes.is_empty() {
        return false;
    }
    is_table(&tables[0], "command", 0, &COMMAND_COLUMNS)
        && is_table(&tables[1], "form", 1, &FORM_COLUMNS)
        && is_view(&views[0], "held", 2, HELD_VIEW)
}

/// Whether a view has this name, this number and this text.
fn is_view(view: &View, name: &str, tree: u32, sql: &str) -> bool
    ensures { IsTrue result ↔ (view.now ≡ view_of name.now tree sql.now) }
{
    view.name.as_slice() == name.as_bytes()
        && view.tree == tree
        && view.sql.as_slice() == sql.as_bytes()
        && view.foreign.is_none()
        && !view.binds
        && !view.is_bound
}

/// Whether a table has this name, this number and these columns, the first of which is its key, and nothing else.
fn is_table(table: &Table, name: &str, tree: u32, columns: &[(&str, Kind)]) -> bool
    ensures { IsTrue result
        ↔ (table.now ≡ table_of name.now tree (map (λ c. column_of c.0.now c.1) columns.now)) }
{
    table.name.as_slice() == name.as_bytes()
        && table.tree == tree
        && has_columns(table.columns.as_slice(), columns)
        && is_keyed(table)
        && is_free(table)
}

/// Whether a table's first column is its key.
fn is_keyed(table: &Table) -> bool
    ensures { IsTrue result ↔ ((table.now.key ≡ Some 0) × (table.now.primary ≡ 0 ∷ [])) }
{
    matches!(table.key, Some(0)) && table.primary.as_slice() == [0].as_slice()
}

/// Whether a table has no rule beside its key.
fn is_free(table: &Table) -> bool
    ensures { IsTrue result ↔ (table.now ≡ free_table table.now) }
{
    table.uniques.is_empty()
        && table.orders.is_empty()
        && table.checks.roots.is_empty()
        && table.references.is_empty()
        && table.computed.is_empty()
        && has_no_stamps(&table.stamps)
        && !table.is_counted
}

/// Whether no default reads the time.
fn has_no_stamps(stamps: &Stamps) -> bool
    ensures { IsTrue result ↔ (stamps.now ≡ record { places = []; terms = []; formats = [] }) }
{
    stamps.places.is_empty() && stamps.terms.roots.is_empty() && stamps.formats.is_empty()
}

/// Whether columns have these names and kinds, and nothing else.
fn has_columns(own: &[Column], columns: &[(&str, Kind)]) -> bool
    ensures { IsTrue result ↔ (own.now ≡ map (λ c. column_of c.0.now c.1) columns.now) }
{
    if own.len() != columns.len() {
        return false;
    }
    for at in 0..own.len() {
        let (name, kind) = columns[at];
        if !is_column(&own[at], name, kind) {
            return false;
        }
    }
    true
}

/// Whether a column has this name and this kind, and may be NULL.
fn is_column(column: &Column, name: &str, kind: Kind) -> bool
    ensures { IsTrue result ↔ (column.now ≡ column_of name.now kind) }
{
    column.name.as_slice() == name.as_bytes()
        && column.kind == kind
        && column.is_strict
        && !column.not_null
        && matches!(column.default, Value::Null)
        && column.collation == Collation::Binary
}
