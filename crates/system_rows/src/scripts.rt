//! Scripts of acts for hostile clients, drawn by a number: the lines of a trace.

use cargo_core::Memory;

/// What an act may name beside addresses and lengths: none, one, and the ends of 16 and 64 bits.
const VALUES: [u64; 5] = [0, 1, 65_535, 65_536, 18_446_744_073_709_551_615];

/// Lengths at the ends of what a frame may have.
const LENGTHS: [u64; 5] = [13, 14, 1514, 1515, 2048];

/// How many acts are drawn for a script at most.
const ACTS: u64 = 48;

/// Buffers as acts name them: where they begin for a device, how many there are, and how many bytes
/// each has.
#[derive(Clone, Copy)]
pub struct Buffers {
    pub base: u64,
    pub many: u64,
    pub size: u64,
}

/// A hostile client: its class, its number there, how many inputs it has, which are as many outputs,
/// and its buffers.
#[derive(Clone, Copy)]
pub struct Hostile<'a> {
    pub class: &'a str,
    pub client: u64,
    pub inputs: u64,
    pub buffers: Buffers,
}

/// Numbers that are drawn one after another.
#[derive(Clone, Copy)]
struct Draws {
    x: u64,
}

impl Draws {
    // The next number below a count.
    fn below(&mut self, count: u64) -> u64 {
        self.x = self
            .x
            .wrapping_mul(6_364_136_223_846_793_005)
            .wrapping_add(1_442_695_040_888_963_407);
        (self.x >> 33).checked_rem(count).unwrap_or(0)
    }

    // The next of some numbers.
    fn among(&mut self, numbers: &[u64]) -> u64 {
        let place = self.below(numbers.len() as u64);
        match numbers.get(place as usize) {
            Some(number) => *number,
            None => 0,
        }
    }

    fn length(&mut self) -> u64 {
        if self.below(2) == 0 {
            self.among(&VALUES)
        } else {
            self.among(&LENGTHS)
        }
    }

    // An address: any number, one of a device, one at the edge of a buffer, or that of a buffer.
    fn address(&mut self, buffers: Buffers) -> u64 {
        let edge = edge(buffers, self.below(edges(buffers)));
        match self.below(6) {
            0 => self.among(&VALUES),
            1 => buffers.base.saturating_add(edge),
            2 => edge,
            _ => self.below(buffers.many).saturating_mul(buffers.size),
        }
    }
}

// How many edges buffers have: three at the beginning of each, and three behind the last.
fn edges(buffers: Buffers) -> u64 {
    buffers.many.saturating_add(1).saturating_mul(3)
}

// The address before the begin of a buffer, there or behind it.
fn edge(buffers: Buffers, number: u64) -> u64 {
    let begin = (number / 3).saturating_mul(buffers.size);
    match number % 3 {
        0 => begin.saturating_sub(1),
        1 => begin,
        _ => begin.saturating_add(1),
    }
}

fn word_name(number: u64) -> &'static str {
    match number {
        0 => " head",
        1 => " tail",
        2 => " flag",
        3 => " flag_back",
        4 => " pending",
        _ => " pending_back",
    }
}

impl<'a> Hostile<'a> {
    // The number of an output.
    fn output(&self, draws: &mut Draws) -> u64 {
        self.inputs.saturating_add(draws.below(self.inputs))
    }

    // Adds the line of an act: its name, its queue, a word, and numbers.
    fn add_line(
        &self,
        to: &mut String,
        name: &str,
        queue: u64,
        word: &str,
        numbers: &[u64],
    ) -> Result<(), Memory> {
        write!(
            to,
            "rogue {} {} {name} {queue}{word}",
            self.class, self.client
        )?;
        for number in numbers {
            write!(to, " {number}")?;
        }
        to.push_str("\n")?;
        Ok(())
    }

    // A page that is given.
    fn add_give(&self, to: &mut String, draws: &mut Draws, twice: bool) -> Result<(), Memory> {
        let queue = self.output(draws);
        let place = draws.below(self.buffers.many.saturating_mul(2).saturating_add(1));
        let numbers = [place, draws.address(self.buffers), draws.length()];
        if twice {
            self.add_line(to, "give", queue, "", &numbers)?;
        }
        self.add_line(to, "give", queue, "", &numbers)
    }

    // One act, or two.
    fn add_act(&self, to: &mut String, draws: &mut Draws) -> Result<(), Memory> {
        match draws.below(8) {
            0 | 1 => self.add_line(to, "take", draws.below(self.inputs), "", &[]),
            2 => {
                let queue = self.output(draws);
                let numbers = [draws.address(self.buffers), draws.length()];
                self.add_line(to, "put", queue, "", &numbers)
            }
            3 | 4 => self.add_give(to, draws, false),
            5 => self.add_give(to, draws, true),
            _ => {
                let queue = draws.below(self.inputs.saturating_mul(2));
                let word = word_name(draws.below(6));
                self.add_line(to, "store", queue, word, &[draws.among(&VALUES)])
            }
        }
    }

    /// The script of a number. It begins with an item without a buffer and one with the first of
    /// those that are kept, both with an address in the range of the client's buffers or beside it:
    /// the next number's is the next one.
    pub fn add_script(&self, to: &mut String, number: u64) -> Result<(), Memory> {
        let mut draws = Draws { x: number };
        let edge = edge(
            self.buffers,
            number.checked_rem(edges(self.buffers)).unwrap_or(0),
        );
        let queue = self.output(&mut draws);
        self.add_line(to, "put", queue, "", &[edge, 60])?;
        self.add_line(to, "give", queue, "", &[0, edge, 60])?;
        for _ in 0..draws.below(ACTS) {
            self.add_act(to, &mut draws)?;
        }
        Ok(())
    }
}
