// Enters one line of char.def into five lent tables: "Lines", 9 to 13. `lines` walks the lines of a text over it.
#![tactic(auto)]

ghost use Rattle.std.specs.Prelude.{◌≡◌, ◌+◌, ◌*◌, ◌≤◌, length, take, drop};
ghost use Rattle.paper.specs.CharDef.Line.{category, range};
ghost use Rattle.paper.specs.Tables.Layout.{definition_size, range_slot_size, definition_bytes, slot_bytes};
ghost use Rattle.paper.specs.Tables.Lent.{patch};
ghost use Rattle.scan.specs.Asked.{Inside};
ghost use Rattle.line.specs.Bytes.{line_bytes};
ghost use Rattle.entry.specs.Steps.{long, words_of, Ready, EntersAll, Working, Stepped, enter_bytes, enter_found_bytes};

use category_line::{CategoryLine, Line, RangeLine};
use paper::{
    CATEGORY_LINES_FULL, Counts, MAX_CATEGORY_LINES, MAX_RANGES, MAX_REFERENCES, RANGES_FULL,
    REFERENCES_FULL,
};
use scan::Part;
use table::{
    COUNT_AT, DEFINITION_BYTES, FIRST_AT, GROUP_AT, INVOKE_AT, RANGE_BYTES, REFERENCE_BYTES,
    UPPER_AT,
};

// One more entry of the definition table.
fn append_definition(definitions: &mut [u8], n: usize, invoke: bool, group: bool, length: u32)
    requires { definition_size * n + definition_size ≤ long definitions.old }
    ensures { definitions.new ≡ patch (definition_size * n) (definition_bytes (record { invoke = invoke; group = group; len = length })) definitions.old }
{
    let at = DEFINITION_BYTES * n;
    table::put_u32(definitions, at, length);
    definitions[at + INVOKE_AT] = u8::from(invoke);
    definitions[at + GROUP_AT] = u8::from(group);
}

// One more entry of the range table.
fn append_range(ranges: &mut [u8], n: usize, lower: u16, upper: u16, first: u16, count: u16)
    requires { range_slot_size * n + range_slot_size ≤ length ranges.old }
    ensures { ranges.new ≡ patch (range_slot_size * n) (slot_bytes (record { lower = lower; upper = upper; first = first; count = count })) ranges.old }
{
    let at = RANGE_BYTES * n;
    table::put_u16(ranges, at, lower);
    table::put_u16(ranges, at + UPPER_AT, upper);
    table::put_u16(ranges, at + FIRST_AT, first);
    table::put_u16(ranges, at + COUNT_AT, count);
}

// How many words stand in a part. A step is as long as the word, so this loop and the next stay a `while`.
fn count_words(text: &[u8], part: Part) -> usize
    requires { Inside text.now part.start part.end }
    ensures { result ≡ length (words_of (drop part.start (take part.end text.now))) }
{
    let mut at = part.start;
    let mut n = 0;
    while at < part.end {
        let w = scan::next_word(text, at, part.end, true);
        if w.end <= w.start {
            return n;
        }
        at = w.end;
        n += 1;
    }
    n
}

// Interns the names that stand in a part, and puts their numbers behind the reference table's.
fn enter_names(
    text: &[u8],
    part: Part,
    names: &mut [u8],
    slots: &mut [u64],
    references: &mut [u8],
    mut counts: Counts,
) -> Result<Counts, u32>
    requires { Ready names.old slots.old references.old text.now counts part.start part.end }
    ensures { EntersAll names.old slots.old references.old counts (words_of (drop part.start (take part.end text.now))) names.new slots.new references.new result }
{
    let mut at = part.start;
    while at < part.end {
        let w = scan::next_word(text, at, part.end, true);
        if w.end <= w.start {
            return Ok(counts);
        }
        let e = name::category_id(
            names,
            slots,
            counts.categories,
            counts.bytes,
            text,
            w.start,
            w.end,
        )?;
        table::put_u16(
            references,
            REFERENCE_BYTES * counts.references,
            e.number as u16,
        );
        counts.categories = e.count;
        counts.bytes = e.bytes;
        counts.references += 1;
        at = w.end;
    }
    Ok(counts)
}

// A category line: 11, then its name, then its definition.
fn enter_category(
    text: &[u8],
    line: CategoryLine,
    names: &mut [u8],
    slots: &mut [u64],
    definitions: &mut [u8],
    ranges: &[u8],
    references: &[u8],
    counts: Counts,
) -> Result<Counts, u32>
    requires working { Working (record { store = names.old; slots = slots.old; definitions = definitions.old; ranges = ranges.now; references = references.now }) counts }
    requires inside { Inside text.now line.name.start line.name.end }
    ensures { Stepped (λ x. enter_bytes x (category (drop line.name.start (take line.name.end text.now)) line.invoke line.group line.length)) (record { store = names.old; slots = slots.old; definitions = definitions.old; ranges = ranges.now; references = references.now }) counts (record { store = names.new; slots = slots.new; definitions = definitions.new; ranges = ranges.now; references = references.now }) result }
{
    let n = counts.definitions;
    if MAX_CATEGORY_LINES <= n {
        return Err(CATEGORY_LINES_FULL);
    }
    let name = line.name;
    let e = name::category_id(
        names,
        slots,
        counts.categories,
        counts.bytes,
        text,
        name.start,
        name.end,
    )?;
    append_definition(definitions, n, line.invoke, line.group, line.length);
    Ok(Counts {
        categories: e.count,
        definitions: n + 1,
        bytes: e.bytes,
        ..counts
    })
}

// A range line: 9, 10, then its names, then its entry.
fn enter_range(
    text: &[u8],
    line: RangeLine,
    names: &mut [u8],
    slots: &mut [u64],
    definitions: &[u8],
    ranges: &mut [u8],
    references: &mut [u8],
    counts: Counts,
) -> Result<Counts, u32>
    requires working { Working (record { store = names.old; slots = slots.old; definitions = definitions.now; ranges = ranges.old; references = references.old }) counts }
    requires inside { Inside text.now line.names.start line.names.end }
    ensures { Stepped (λ x. enter_bytes x (range line.lower line.upper (words_of (drop line.names.start (take line.names.end text.now))))) (record { store = names.old; slots = slots.old; definitions = definitions.now; ranges = ranges.old; references = references.old }) counts (record { store = names.new; slots = slots.new; definitions = definitions.now; ranges = ranges.new; references = references.new }) result }
{
    let n = counts.ranges;
    if MAX_RANGES <= n {
        return Err(RANGES_FULL);
    }
    let words = count_words(text, line.names);
    let first = counts.references;
    if MAX_REFERENCES - first < words {
        return Err(REFERENCES_FULL);
    }
    let named = enter_names(text, line.names, names, slots, references, counts)?;
    append_range(
        ranges,
        n,
        line.lower,
        line.upper,
        first as u16,
        words as u16,
    );
    Ok(Counts {
        ranges: n + 1,
        ..named
    })
}

// The line from `start` to `end` entered. The error is the refusal's number, which `Stepped` gives to the paper's `stop`.
pub fn enter_line(
    text: &[u8],
    start: usize,
    end: usize,
    names: &mut [u8],
    slots: &mut [u64],
    definitions: &mut [u8],
    ranges: &mut [u8],
    references: &mut [u8],
    counts: Counts,
) -> Result<Counts, u32>
    requires working { Working (record { store = names.old; slots = slots.old; definitions = definitions.old; ranges = ranges.old; references = references.old }) counts }
    requires inside { Inside text.now start end }
    ensures { Stepped (λ x. enter_found_bytes x (line_bytes (drop start (take end text.now)))) (record { store = names.old; slots = slots.old; definitions = definitions.old; ranges = ranges.old; references = references.old }) counts (record { store = names.new; slots = slots.new; definitions = definitions.new; ranges = ranges.new; references = references.new }) result }
{
    match line::read_line(text, start, end)? {
        Line::Blank => Ok(counts),
        Line::Category(x) => enter_category(
            text,
            x,
            names,
            slots,
            definitions,
            ranges,
            references,
            counts,
        ),
        Line::Range(x) => enter_range(
            text,
            x,
            names,
            slots,
            definitions,
            ranges,
            references,
            counts,
        ),
    }
}
