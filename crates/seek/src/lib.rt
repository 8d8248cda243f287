// Seeking a name: its bytes compared with those that a store holds at a place, and what a search answers. Names are sought among the
// slots of a text that is read (`slot`) and over tables handed in (`by_name`).
#![tactic(auto)]

ghost use Rattle.std.specs.Prelude.{◌≡◌, ◌-◌, ◌≤◌, length, take, drop};
ghost use Rattle.paper.specs.Lists.{same};

// The bytes of the text from `start` to `end` stand in the store at `at`. The last byte first, since names often begin alike.
pub fn holds_at(names: &[u8], at: usize, text: &[u8], start: usize, end: usize) -> bool
    requires { (start ≤ end) × (end ≤ length text.now) }
    ensures { result ≡ same (drop start (take end text.now)) (take (end - start) (drop at names.now)) }
{
    if end <= start {
        return true;
    }
    let len = end - start;
    if names.len() < len || names.len() - len < at || text[end - 1] != names[at + len - 1] {
        return false;
    }
    text[start..end] == names[at..at + len]
}
