// The head of a pack: its version, then its counts, each held to its limit where it is read. What it says is of no use but to bound the loops behind it.
#![tactic(auto)]

ghost use Rattle.std.specs.Prelude.{◌+◌, ◌≤◌};
ghost use Rattle.paper.specs.Sizes.{max_categories, max_category_lines};
ghost use Rattle.paper.specs.Pack.Fields.{head_width};
ghost use Rattle.paper.specs.Computed.ReadPack.{read_fields, read_counted};
ghost use Rattle.field.specs.Cursor.{rest};
ghost use Rattle.pack_field.specs.Parts.{max_place};
ghost use Rattle.pack_head.specs.Head.{HeadIs, last_width, counts_width, read_last};

use field::{
    BitCursor, CATEGORIES_WIDTH, LINES_WIDTH, RANGES_WIDTH, REFERENCES_WIDTH, VERSION_WIDTH,
};
use pack_field::limited;
use paper::{
    MAX_CATEGORIES, MAX_CATEGORY_LINES, MAX_RANGES, MAX_REFERENCES, PACK_VERSION, Refusal,
};

// "Head: version": the one that is read.
const VERSION: u32 = 1;

// What the head says; of no use but to bound loops.
#[derive(Clone, Copy)]
pub struct Head {
    pub categories: usize,
    pub lines: usize,
    pub ranges: usize,
    pub references: usize,
}

// The counts of ranges and references.
fn last_counts(
    pack: &[u8],
    from: BitCursor,
    categories: usize,
    lines: usize,
) -> Result<(Head, BitCursor), Refusal>
    requires { (from.at + last_width ≤ max_place) × ((categories ≤ max_categories) × (lines ≤ max_category_lines)) }
    ensures { HeadIs pack.now from.at last_width (read_last categories lines from.at (rest pack.now from.at)) result }
{
    let (ranges, second) = limited(pack, from, RANGES_WIDTH, 0, MAX_RANGES)?;
    let (references, next) = limited(pack, second, REFERENCES_WIDTH, 0, MAX_REFERENCES)?;
    let head = Head {
        categories,
        lines,
        ranges: ranges as usize,
        references: references as usize,
    };
    Ok((head, next))
}

// The counts of the head, behind the version.
fn read_counts(pack: &[u8], from: BitCursor) -> Result<(Head, BitCursor), Refusal>
    requires { from.at + counts_width ≤ max_place }
    ensures { HeadIs pack.now from.at counts_width (read_counted from.at (rest pack.now from.at)) result }
{
    let (categories, second) = limited(pack, from, CATEGORIES_WIDTH, 0, MAX_CATEGORIES)?;
    let (lines, third) = limited(pack, second, LINES_WIDTH, 0, MAX_CATEGORY_LINES)?;
    last_counts(pack, third, categories as usize, lines as usize)
}

// The head: the version, then the counts.
pub fn read_head(pack: &[u8], from: BitCursor) -> Result<(Head, BitCursor), Refusal>
    requires { from.at + head_width ≤ max_place }
    ensures { HeadIs pack.now from.at head_width (read_fields from.at (rest pack.now from.at)) result }
{
    let (version, next) = from.field(pack, VERSION_WIDTH)?;
    if version != VERSION {
        return Err(Refusal {
            number: PACK_VERSION,
            place: from.at,
        });
    }
    read_counts(pack, next)
}
