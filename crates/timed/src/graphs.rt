// Registers whose rows name each other: in a cycle, in a line, at random.
ghost use Rattle.std.specs.Prelude.{◌≡◌, ◌+◌, ◌<◌, ◌≤◌};

// Each row names the next, and the last one the first or none; or each names four rows at random.
#[derive(Clone, Copy)]
pub enum Graph {
    Cycle,
    Line,
    Random,
}

impl From<Option<char>> for Graph {
    fn from(letter: Option<char>) -> Graph {
        match letter {
            Some('c') => Graph::Cycle,
            Some('l') => Graph::Line,
            _ => Graph::Random,
        }
    }
}

// Random numbers.
#[derive(Drop)]
pub struct Random {
    seed: u32,
}

impl Random {
    pub fn new() -> Random {
        Random { seed: 1 }
    }

    // A row of `rows`.
    fn next_row(&mut self, rows: usize) -> usize
        requires { 0 < rows }
    {
        self.seed = self.seed.wrapping_mul(1664525).wrapping_add(1013904223);
        (self.seed >> 16) as usize % rows + 1
    }
}

// A type.
#[derive(Drop)]
pub struct Blob {
    bytes: [u8; 16],
    length: usize,

    ghost within: { length ≤ 16 },
}

impl Blob {
    fn new() -> Blob
        ensures { result.length ≡ 0 }
    {
        Blob {
            bytes: [0; 16],
            length: 0,
        }
    }

    pub fn as_slice(&self) -> &[u8] {
        &self.bytes[..self.length]
    }

    fn push(&mut self, byte: u8)
        requires { self.old.length < 16 }
        ensures { self.new.length ≡ self.old.length + 1 }
    {
        self.bytes[self.length] = byte;
        self.length += 1;
    }

    // A modifier that names a row.
    fn push_modifier(&mut self, row: usize)
        requires { self.old.length ≤ 13 }
        ensures { self.new.length ≤ self.old.length + 3 }
    {
        let token = 4 * (row % 1024) + 2;
        self.push(0x20);
        if 0x80 <= token {
            self.push((0x80 + token / 0x100) as u8);
        }
        self.push((token % 0x100) as u8);
    }
}

// The type of a row of `rows`: I4 behind the modifiers.
pub fn type_of(graph: Graph, rows: usize, row: usize, random: &mut Random) -> Blob
    requires { 0 < rows }
{
    let mut blob = Blob::new();
    match graph {
        Graph::Cycle => blob.push_modifier(row % rows + 1),
        Graph::Line => {
            if row < rows {
                blob.push_modifier(row + 1);
            }
        }
        Graph::Random => {
            for _ in 0..4usize {
                blob.push_modifier(random.next_row(rows));
            }
        }
    }
    blob.push(0x08);
    blob
}
