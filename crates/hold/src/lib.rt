// Refusal 26: the one test for all who are handed a reading. Its tables hold together exactly where each is as long as its count says
// and they keep the pack's rules.
#![tactic(auto)]

ghost use Rattle.std.specs.Prelude.{◌≡◌, map, ◌*◌, ◌≤◌, ltb, length};
ghost use Rattle.paper.specs.Lists.{all};
ghost use Rattle.paper.specs.Computed.HandedIn.{enough, holds};
ghost use Rattle.hold.specs.HandedIn.{tables};
ghost use Rattle.paper.specs.Tables.Layout.{pieces};
ghost use Rattle.paper.specs.Tables.Lent.{num};

use paper::{
    Counts, MAX_CATEGORIES, MAX_CATEGORY_LINES, MAX_NAME_BYTES, MAX_RANGES, MAX_REFERENCES,
};
use table::{CATEGORY_BYTES, DEFINITION_BYTES, RANGE_BYTES, REFERENCE_BYTES};

// A reading as it is handed in: five tables that are lent, and how many of each they hold. Nothing is believed of them.
#[derive(Clone, Copy)]
pub struct Reading<'a> {
    pub names: &'a [u8],
    pub categories: &'a [u8],
    pub definitions: &'a [u8],
    pub ranges: &'a [u8],
    pub references: &'a [u8],
    pub counts: Counts,
}

// Every category number is known.
fn numbers_known(references: &[u8], n: usize, known: usize) -> bool
    requires { 2 * n ≤ length references.now }
    ensures { result ≡ all (λ c. ltb c known) (map (num 2 0) (pieces 2 n references.now)) }
{
    for i in 0..n {
        let c = table::get_u16(references, REFERENCE_BYTES * i) as usize;
        if known <= c {
            return false;
        }
    }
    true
}

impl<'a> Reading<'a> {
    // Counts within the limits, and tables that long.
    fn is_enough(&self) -> bool
        ensures { result ≡ enough (length self.now.names.now) (length self.now.categories.now) (length self.now.definitions.now) (length self.now.ranges.now) (length self.now.references.now) self.now.counts }
    {
        let n = self.counts;
        if MAX_CATEGORIES < n.categories {
            return false;
        }
        if MAX_NAME_BYTES < n.bytes {
            return false;
        }
        if MAX_CATEGORY_LINES < n.definitions {
            return false;
        }
        if MAX_RANGES < n.ranges {
            return false;
        }
        if MAX_REFERENCES < n.references {
            return false;
        }
        if self.names.len() < n.bytes {
            return false;
        }
        if self.categories.len() < CATEGORY_BYTES * n.categories {
            return false;
        }
        if self.definitions.len() < DEFINITION_BYTES * n.definitions {
            return false;
        }
        if self.ranges.len() < RANGE_BYTES * n.ranges {
            return false;
        }
        if self.references.len() < REFERENCE_BYTES * n.references {
            return false;
        }
        true
    }

    // The tables hold a reading together: refusal 26 is given exactly where this is false.
    pub fn holds(&self) -> bool
        ensures { result ≡ holds (tables self.now) self.now.counts }
    {
        let n = self.counts;
        if !self.is_enough() {
            return false;
        }
        if !table_rules::names_stand(self.categories, n.categories, n.bytes) {
            return false;
        }
        if !table_rules::flags_hold(self.definitions, n.definitions) {
            return false;
        }
        if !table_rules::ranges_stand(self.ranges, n.ranges, n.references) {
            return false;
        }
        if !numbers_known(self.references, n.references, n.categories) {
            return false;
        }
        if !name_rules::names_formed(self.names, self.categories, n.categories) {
            return false;
        }
        if !name_rules::names_once(self.names, self.categories, n.categories) {
            return false;
        }
        true
    }
}
