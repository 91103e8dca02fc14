//! What the words ask for.

/// One of the two players.
#[derive(Clone, Copy)]
pub(crate) enum Player {
    Small,
    System,
}

/// So many bytes of input, played by one of the players.
#[derive(Clone, Copy)]
pub(crate) struct Order {
    pub(crate) player: Player,
    pub(crate) count: u32,
}

// The player of a name.
fn player_of(name: &str) -> Option<Player> {
    match name {
        "small" => Some(Player::Small),
        "system" => Some(Player::System),
        _ => None,
    }
}

// The words PLAYER COUNT; None where they are others.
pub(crate) fn read_order(words: &[String]) -> Option<Order> {
    if words.len() != 2 {
        return None;
    }
    Some(Order {
        player: player_of(words[0].as_str())?,
        count: words[1].parse::<u32>().ok()?,
    })
}
