//! What the words ask for.
ghost use Rattle.std.specs.Prelude.{◌≡◌, ◌≤◌, ◌^◌, IfSome};

// By what the bytes cross: the ring's looks and moves alone, its whole discipline with bells, or,
// to compare, a queue of crossbeam's.
#[derive(Clone, Copy)]
pub(crate) enum Way {
    Moves,
    Bells,
    Array,
}

// How many bytes are to cross a queue whose capacity is 2 to a power, and by what.
#[derive(Clone, Copy)]
pub(crate) struct Order {
    pub(crate) entries: u32,
    pub(crate) power: u32,
    pub(crate) way: Way,
}

// Of which power of two a capacity is, up to 32,768.
fn power_of(capacity: u32) -> Option<u32>
    ensures { IfSome result (λ p. p ≤ 15) }
{
    for power in 0..16u32 {
        if capacity == 1 << power {
            return Some(power);
        }
    }
    None
}

fn number_of(word: &str) -> Option<u32> {
    word.parse::<u32>().ok()
}

// The words ENTRIES CAPACITY, and maybe one of the words `bells` and `array`; None where they are
// others.
pub(crate) fn read_order(words: &[String]) -> Option<Order>
    ensures { IfSome result (λ o. o.power ≤ 15) }
{
    let way = match words.len() {
        2 => Way::Moves,
        3 => match words[2].as_str() {
            "bells" => Way::Bells,
            "array" => Way::Array,
            _ => return None,
        },
        _ => return None,
    };
    Some(Order {
        entries: number_of(words[0].as_str())?,
        power: power_of(number_of(words[1].as_str())?)?,
        way,
    })
}
