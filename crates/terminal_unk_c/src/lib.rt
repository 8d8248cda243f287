// What C links of crate `terminal_unk`: its function under its own name, with the same promise and nothing besides.
#![tactic(auto)]

ghost use Rattle.terminal_unk.specs.Answer.{ExportsUnk};

// unk.def read into lent tables, over a reading's tables.
#[unsafe(no_mangle)]
pub extern "C" fn twinebeetle_read_unk<'a>(
    text: &[u8],
    names: &'a [u8],
    categories: &'a [u8],
    definitions: &'a [u8],
    ranges: &'a [u8],
    references: &'a [u8],
    counts: &[u8],
    entries: &mut [u8],
    offsets: &mut [u8],
    details: &mut [u8],
    places: &mut [u8],
    members: &mut [u8],
    unk_counts: &mut [u8],
) -> u64
    ensures { ExportsUnk (record { names = names.now; categories = categories.now; definitions = definitions.now; ranges = ranges.now; references = references.now }) counts.now text.now (record { entries = entries.old; offsets = offsets.old; details = details.old; places = places.old; members = members.old }) (record { entries = entries.new; offsets = offsets.new; details = details.new; places = places.new; members = members.new }) unk_counts.old unk_counts.new result }
{
    terminal_unk::twinebeetle_read_unk(
        text,
        names,
        categories,
        definitions,
        ranges,
        references,
        counts,
        entries,
        offsets,
        details,
        places,
        members,
        unk_counts,
    )
}
