// A register over lent numbers: each call is printed with its answer, on standard output.
use answer::number_in;
use number::token::Counts;
use register::Register;
use std::io;

#[derive(Drop)]
pub struct Session<'a, P: Print> {
    rt: &'a P,
    register: Register,
    sets: &'a mut [u32],
}

fn name_of(standing: u32) -> &'static str {
    match standing {
        0 => "EMPTY",
        1 => "BAD",
        2 => "LOOP",
        3 => "LEANS",
        4 => "CLEAN",
        _ => "?",
    }
}

impl<'a, P: Print> Session<'a, P> {
    // With a register that was not opened over these numbers.
    pub fn new(rt: &'a P, register: Register, sets: &'a mut [u32]) -> Session<'a, P> {
        Session { rt, register, sets }
    }

    pub fn open(rt: &'a P, counts: Counts, sets: &'a mut [u32]) -> io::Result<Session<'a, P>> {
        let (register, told) = Register::open(counts, sets);
        println!(rt; "open {}: {}", counts.specs, number_in(&told))?;
        Ok(Session { rt, register, sets })
    }

    pub fn register(&self) -> Register {
        self.register
    }

    // Puts a register in place that no call hands back.
    pub fn set_register(&mut self, register: Register) {
        self.register = register;
    }

    // Puts a number in place that no call puts there.
    pub fn set_word(&mut self, at: usize, word: u32) {
        if let Some(place) = self.sets.get_mut(at) {
            *place = word;
        }
    }

    pub fn file(&mut self, row: usize, blob: &[u8]) -> io::Result<()> {
        let told = self.register.file(row, blob, self.sets);
        println!(self.rt; "file {row}: {}", number_in(&told))
    }

    pub fn acknowledge(&mut self, row: usize) -> io::Result<()> {
        let mut register = self.register;
        let told = register.acknowledge(row, self.sets);
        self.register = register;
        println!(self.rt; "acknowledge {row}: {}", number_in(&told))
    }

    // The answer, then standing, finding, place and mark.
    pub fn ask(&self, row: usize) -> io::Result<()> {
        let told = self.register.report(row, self.sets);
        print!(self.rt; "ask {row}: {} ", told.code)?;
        if told.code == 0 {
            print!(self.rt; "{}", name_of(told.standing))?;
        } else {
            print!(self.rt; "{}", told.standing)?;
        }
        println!(self.rt; " {} {} {}", told.finding, told.place, told.mark)
    }

    // Asks rows 1 to `last`.
    pub fn ask_to(&self, last: usize) -> io::Result<()> {
        for row in 1..=last {
            self.ask(row)?;
        }
        Ok(())
    }

    // Prints one of the numbers lent.
    pub fn show_word(&self, at: usize) -> io::Result<()> {
        if let Some(word) = self.sets.get(at) {
            println!(self.rt; "word {at}: {word}")?;
        }
        Ok(())
    }
}
