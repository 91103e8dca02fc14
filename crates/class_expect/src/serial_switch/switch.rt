//! The switch of the receiving virtualiser: it reads the input byte by byte, and tells whose each
//! byte is.

ghost use Rattle.std.specs.Prelude.{◌≡◌, ◌<◌, ◌≤◌, ◌^◌, ◌&&◌, nat_lt, ℕ, List, [], ◌∷◌, ◌++◌};
ghost use Rattle.std.specs.Prelude.{length, IfSome};
ghost use Rattle.std.specs.Char.{is_ascii_digit};
ghost use Rattle.class_expect.specs.SerialSwitch.Switching.{input_of, given_to, given_by, selected_next};
ghost use Rattle.class_expect.specs.SerialSwitch.Switching.{number_of, ended};

/// The byte that opens a selection.
const ESCAPE: u8 = 28;

/// The byte that ends a selection and makes it take place.
const CONFIRM: u8 = 13;

/// How many digits a selection can have.
const DIGITS: u8 = 4;

/// A selection that is open: how many digits it has, and the number that they write.
#[derive(Clone, Copy, Debug, PartialEq, Eq)]
struct Selection {
    digits: u8,
    number: u16,
    ghost few: { digits ≤ 4 },
    ghost small: { number < 10 ^ digits },
}

impl Selection {
    // Whether a byte is its next digit.
    fn is_next_digit(&self, byte: u8) -> bool
        ensures { result ≡ (is_ascii_digit byte && nat_lt self.now.digits 4) }
    {
        byte.is_ascii_digit() && self.digits < DIGITS
    }
}

/// Switches serial input between clients, byte by byte.
#[derive(Clone, Copy, Debug, PartialEq, Eq)]
pub struct Switch {
    clients: u32,
    selected: u32,
    opened: Option<Selection>,
    ghost known: { selected < clients },
}

impl Switch {
    ghost use Rattle.class_expect.specs.SerialSwitch.Standing.{StandsAfter};

    /// The state before any input: client 0 is selected.
    pub fn new(clients: u32) -> Switch
        requires { 0 < clients }
        ensures { StandsAfter clients [] result }
    {
        Switch {
            clients,
            selected: 0,
            opened: None,
        }
    }

    /// Reads a byte of the input, and answers the client that gets a byte for it, with that byte.
    pub fn step(&mut self, byte: u8) -> Option<(u32, u8)>
        ensures after { (clients : ℕ) (input : List ℕ) → StandsAfter clients input self.old
            → StandsAfter clients (input ++ byte ∷ []) self.new }
        ensures given { (clients : ℕ) (input : List ℕ) → StandsAfter clients input self.old
            → (client : ℕ) → input_of clients client (input ++ byte ∷ [])
            ≡ input_of clients client input ++ given_to client result }
        ensures known { (clients : ℕ) (input : List ℕ) → StandsAfter clients input self.old
            → IfSome result (λ g. g.0 < clients) }
    {
        match self.opened {
            None if byte == ESCAPE => {
                self.opened = Some(Selection {
                    digits: 0,
                    number: 0,
                });
                None
            }
            None => Some((self.selected, byte)),
            Some(selection) => {
                if selection.is_next_digit(byte) {
                    self.opened = Some(Selection {
                        digits: selection.digits + 1,
                        number: 10 * selection.number + u16::from(byte - b'0'),
                    });
                    None
                } else {
                    self.opened = None;
                    self.end(selection, byte)
                }
            }
        }
    }

    // A byte ends a selection, which makes a piece.
    fn end(&mut self, selection: Selection, byte: u8) -> Option<(u32, u8)>
        ensures clients { self.new.clients ≡ self.old.clients }
        ensures opened { self.new.opened ≡ self.old.opened }
        ensures selects { (ds : List ℕ) → length ds ≡ selection.digits
            → number_of ds ≡ selection.number
            → self.new.selected ≡ selected_next self.old.clients self.old.selected (ended ds byte) }
        ensures gives { (ds : List ℕ) → length ds ≡ selection.digits → (client : ℕ)
            → given_to client result ≡ given_by self.old.selected client (ended ds byte) }
        ensures known { IfSome result (λ g. g.0 < self.old.clients) }
    {
        if selection.digits == 0 {
            if byte == ESCAPE {
                return Some((self.selected, byte));
            }
        } else if byte == CONFIRM && u32::from(selection.number) < self.clients {
            self.selected = u32::from(selection.number);
        }
        None
    }
}
