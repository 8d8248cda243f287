// What C links of crate `terminal`: its functions under their own names, with the same promises and nothing besides.
#![tactic(auto)]

ghost use Rattle.paper.specs.Computed.ReadPack.{read_pack};
ghost use Rattle.paper.specs.Computed.ReadText.{read_text};
ghost use Rattle.paper.specs.Text.Scalar.{LongestPrefix};
ghost use Rattle.exported.specs.Answer.{Exports};

// The length of the longest well-formed prefix.
#[unsafe(no_mangle)]
pub extern "C" fn twinebeetle_valid_prefix(text: &[u8]) -> u64
    ensures { LongestPrefix result text.now }
{
    terminal::twinebeetle_valid_prefix(text)
}

// char.def read into lent tables.
#[unsafe(no_mangle)]
pub extern "C" fn twinebeetle_read_char_def(
    text: &[u8],
    names: &mut [u8],
    categories: &mut [u8],
    definitions: &mut [u8],
    ranges: &mut [u8],
    references: &mut [u8],
    counts: &mut [u8],
) -> u64
    ensures { Exports (read_text text.now) (record { names = names.old; categories = categories.old; definitions = definitions.old; ranges = ranges.old; references = references.old }) (record { names = names.new; categories = categories.new; definitions = definitions.new; ranges = ranges.new; references = references.new }) counts.old counts.new result }
{
    terminal::twinebeetle_read_char_def(
        text,
        names,
        categories,
        definitions,
        ranges,
        references,
        counts,
    )
}

// A pack read into lent tables: "the terminal's C loader calls the pack reader".
#[unsafe(no_mangle)]
pub extern "C" fn twinebeetle_read_pack(
    pack: &[u8],
    names: &mut [u8],
    categories: &mut [u8],
    definitions: &mut [u8],
    ranges: &mut [u8],
    references: &mut [u8],
    counts: &mut [u8],
) -> u64
    ensures { Exports (read_pack pack.now) (record { names = names.old; categories = categories.old; definitions = definitions.old; ranges = ranges.old; references = references.old }) (record { names = names.new; categories = categories.new; definitions = definitions.new; ranges = ranges.new; references = references.new }) counts.old counts.new result }
{
    terminal::twinebeetle_read_pack(
        pack,
        names,
        categories,
        definitions,
        ranges,
        references,
        counts,
    )
}
