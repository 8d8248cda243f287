// Writes the parts of a pack from the tables that it is made of, one behind another: the head, the names, the definitions and the ranges.
#![tactic(auto)]

ghost use Rattle.std.specs.Prelude.{◌≡◌, map, ◌+◌, ◌*◌, ◌≤◌, ◌<◌, T, eqb, length, get_or, take, drop};
ghost use Rattle.paper.specs.Lists.{joined, sum};
ghost use Rattle.paper.specs.Pack.Fields.{flag, byte_width, name_length_width, head_width, definition_width, name_fields, definition_fields, pack_fields};
ghost use Rattle.paper.specs.Tables.Layout.{name_slot_size, definition_size, definition_of, pieces, split};
ghost use Rattle.paper.specs.Computed.HandedIn.{decoded, holds};
ghost use Rattle.put_field.specs.Writer.{Room, Puts, start};
ghost use Rattle.hold.specs.HandedIn.{tables};
ghost use Rattle.put_parts.specs.Parts.{lengths_in, head_of, pack_width};

use field::{
    CATEGORIES_WIDTH, FLAG_WIDTH, LENGTH_WIDTH, LINES_WIDTH, NAME_LENGTH_WIDTH, RANGES_WIDTH,
    REFERENCES_WIDTH, VERSION_WIDTH,
};
use hold::Reading;
use paper::Counts;
use put_field::BitWriter;
use table::{CATEGORY_BYTES, DEFINITION_BYTES, GROUP_AT, INVOKE_AT, NAME_LENGTH_AT};

const VERSION: u64 = 1;

// The head, at the start of the room.
fn put_head(out: &mut [u8], counts: Counts) -> BitWriter
    requires { Room out.old start head_width }
    ensures { Puts out.old start (head_of counts) head_width out.new result }
{
    let first = BitWriter {
        at: 0,
        waiting: 0,
        held: 0,
    };
    let second = first.put(out, VERSION_WIDTH, VERSION);
    let third = second.put(out, CATEGORIES_WIDTH, counts.categories as u64);
    let fourth = third.put(out, LINES_WIDTH, counts.definitions as u64);
    let fifth = fourth.put(out, RANGES_WIDTH, counts.ranges as u64);
    fifth.put(out, REFERENCES_WIDTH, counts.references as u64)
}

// A name: "length 15, then its bytes".
fn put_name(from: BitWriter, out: &mut [u8], names: &[u8], first: usize, n: usize) -> BitWriter
    requires n_in_bounds { first + n ≤ length names.now }
    requires room { Room out.old from (name_length_width + byte_width * n) }
    ensures { Puts out.old from (name_fields (take n (drop first names.now))) (name_length_width + byte_width * n) out.new result }
{
    let second = from.put(out, NAME_LENGTH_WIDTH, n as u64);
    put_field::put_bytes(second, out, names, first, n)
}

// The names. They stand in the store one behind another, so their lengths say where.
fn put_names(
    from: BitWriter,
    out: &mut [u8],
    names: &[u8],
    categories: &[u8],
    n: usize,
) -> BitWriter
    requires n_in_bounds { name_slot_size * n ≤ length categories.now }
    requires categories_in_bounds { sum (lengths_in n categories.now) ≤ length names.now }
    requires room { Room out.old from (name_length_width * n + byte_width * sum (lengths_in n categories.now)) }
    ensures { Puts out.old from (joined (map name_fields (split (lengths_in n categories.now) names.now))) (name_length_width * n + byte_width * sum (lengths_in n categories.now)) out.new result }
{
    let mut w = from;
    let mut at = 0;
    for i in 0..n {
        let len = usize::from(table::get_u16(categories, CATEGORY_BYTES * i + NAME_LENGTH_AT));
        w = put_name(w, out, names, at, len);
        at += len;
    }
    w
}

// A flag of a definition: 1 where the byte is 1.
fn flag_at(definitions: &[u8], at: usize) -> u64
    requires { at < length definitions.now }
    ensures { result ≡ flag (eqb (get_or definitions.now at 0) 1) }
{
    u64::from(definitions[at] == 1)
}

// Definition i: "invoke 1, group 1, length 32".
fn put_definition(from: BitWriter, out: &mut [u8], definitions: &[u8], i: usize) -> BitWriter
    requires definition_size_in_bounds { definition_size * i + definition_size ≤ length definitions.now }
    requires room { Room out.old from definition_width }
    ensures { Puts out.old from (definition_fields (definition_of (take definition_size (drop (definition_size * i) definitions.now)))) definition_width out.new result }
{
    let at = DEFINITION_BYTES * i;
    let invoke = flag_at(definitions, at + INVOKE_AT);
    let group = flag_at(definitions, at + GROUP_AT);
    let length = table::get_u32(definitions, at);
    let second = from.put(out, FLAG_WIDTH, invoke);
    let third = second.put(out, FLAG_WIDTH, group);
    third.put(out, LENGTH_WIDTH, u64::from(length))
}

// The definitions, in the order of the table.
fn put_definitions(from: BitWriter, out: &mut [u8], definitions: &[u8], n: usize) -> BitWriter
    requires n_in_bounds { definition_size * n ≤ length definitions.now }
    requires room { Room out.old from (definition_width * n) }
    ensures { Puts out.old from (joined (map definition_fields (map definition_of (pieces definition_size n definitions.now)))) (definition_width * n) out.new result }
{
    let mut w = from;
    for i in 0..n {
        w = put_definition(w, out, definitions, i);
    }
    w
}

// Every field of the pack, of tables that hold together.
pub fn put_fields(out: &mut [u8], reading: &Reading) -> BitWriter
    requires t { T (holds (tables reading.now) reading.now.counts) }
    requires room { Room out.old start (pack_width reading.now.counts) }
    ensures { Puts out.old start (pack_fields (decoded (tables reading.now) reading.now.counts)) (pack_width reading.now.counts) out.new result }
{
    let n = reading.counts;
    let head = put_head(out, n);
    let named = put_names(head, out, reading.names, reading.categories, n.categories);
    let defined = put_definitions(named, out, reading.definitions, n.definitions);
    put_ranges::put_ranges(defined, out, reading.ranges, reading.references, n.ranges)
}
