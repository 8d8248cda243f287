// What bench/ links of crate `bench_entries`: its functions under their own names.
#![tactic(auto)]

#[unsafe(no_mangle)]
pub extern "C" fn bench_rows<'a>(
    names: &'a [u8],
    categories: &'a [u8],
    definitions: &'a [u8],
    ranges: &'a [u8],
    references: &'a [u8],
    counts: &[u8],
    boundaries: &mut [u32],
    starts: &mut [u32],
    lengths: &mut [u16],
    pool: &mut [u16],
    said: &mut [u64],
) -> u64 {
    let reading = bench_entries::reading_of(
        names,
        categories,
        definitions,
        ranges,
        references,
        counts,
    );
    bench_entries::bench_rows(&reading, boundaries, starts, lengths, pool, said)
}

#[unsafe(no_mangle)]
pub extern "C" fn bench_flat<'a>(
    names: &'a [u8],
    categories: &'a [u8],
    definitions: &'a [u8],
    ranges: &'a [u8],
    references: &'a [u8],
    counts: &[u8],
    flat_index: &mut [u32],
    flat_pool: &mut [u16],
    said: &mut [u64],
) -> u64 {
    let reading = bench_entries::reading_of(
        names,
        categories,
        definitions,
        ranges,
        references,
        counts,
    );
    bench_entries::bench_flat(&reading, flat_index, flat_pool, said)
}

// The lookups of a whole text, summed up so that none can be left out.
#[unsafe(no_mangle)]
pub extern "C" fn bench_lookups<'a>(
    flat_index: &[u32],
    flat_pool: &'a [u16],
    boundaries: &[u32],
    row_starts: &[u32],
    row_lengths: &[u16],
    row_pool: &'a [u16],
    codes: &[u32],
) -> u64 {
    bench_entries::bench_lookups(
        flat_index,
        flat_pool,
        boundaries,
        row_starts,
        row_lengths,
        row_pool,
        codes,
    )
}

#[unsafe(no_mangle)]
pub extern "C" fn bench_packed_lookups(flat_index: &[u32], codes: &[u32]) -> u64 {
    bench_entries::bench_packed_lookups(flat_index, codes)
}

#[unsafe(no_mangle)]
pub extern "C" fn bench_read_unk<'a>(
    names: &'a [u8],
    categories: &'a [u8],
    definitions: &'a [u8],
    ranges: &'a [u8],
    references: &'a [u8],
    counts: &[u8],
    text: &[u8],
    entries: &mut [u8],
    offsets: &mut [u8],
    details: &mut [u8],
    places: &mut [u8],
    members: &mut [u8],
    said: &mut [u64],
) -> u64 {
    let reading = bench_entries::reading_of(
        names,
        categories,
        definitions,
        ranges,
        references,
        counts,
    );
    bench_entries::bench_read_unk(
        &reading, text, entries, offsets, details, places, members, said,
    )
}

#[unsafe(no_mangle)]
pub extern "C" fn bench_write_pack<'a>(
    names: &'a [u8],
    categories: &'a [u8],
    definitions: &'a [u8],
    ranges: &'a [u8],
    references: &'a [u8],
    counts: &[u8],
    out: &mut [u8],
    said: &mut [u64],
) -> u64 {
    let reading = bench_entries::reading_of(
        names,
        categories,
        definitions,
        ranges,
        references,
        counts,
    );
    bench_entries::bench_write_pack(&reading, out, said)
}
