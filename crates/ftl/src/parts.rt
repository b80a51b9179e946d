// Tariff pages on a part: programmed, read back, compared, and erased.
use crate::BLOCKS;
use crate::blocks::wear_of;
use crate::pages::tariff_page;
use flash::{Flash, PartRefusal};
use least::{Counted, least};
use page::equal;
use std::{array, io};

const TARIFFS: u8 = 3;

pub(crate) fn demonstrate<F: Flash>(rt: &HostRuntime, part: &mut F) -> io::Result<()> {
    Demonstration { rt, part }.run()
}

// A part, and the runtime that prints what is done on it.
#[derive(Drop)]
struct Demonstration<'a, F> {
    rt: &'a HostRuntime,
    part: &'a mut F,
}

impl<F: Flash> Demonstration<'_, F> {
    fn run(&mut self) -> io::Result<()> {
        println!(self.rt;
            "A window of blocks 1 to 4 over a pair of memory parts, 2 pages a block."
        )?;
        self.show_blocks()?;
        for tariff in 0..TARIFFS {
            self.store(tariff)?;
            self.read_back(tariff)?;
        }
        let out_of_turn = self.part.program(2, 1, &tariff_page(9));
        self.report("program page 1 of clean block 2", out_of_turn)?;
        let erased = self.part.erase(0);
        self.report("erase block 0", erased)?;
        self.show_blocks()?;
        self.show_least_erased()
    }

    // Tariff t stands in page t % 2 of block t / 2.
    fn store(&mut self, tariff: u8) -> io::Result<()> {
        let at = usize::from(tariff);
        let answer = self.part.program(at / 2, at % 2, &tariff_page(tariff));
        print!(self.rt; "tariff {tariff}: ")?;
        self.report("program", answer)
    }

    fn read_back(&mut self, tariff: u8) -> io::Result<()> {
        let at = usize::from(tariff);
        let mut buffer = [0; 256];
        let answer = self.part.read(at / 2, at % 2, &mut buffer);
        print!(self.rt; "tariff {tariff}: ")?;
        self.report("read", answer)?;
        let same = equal(&buffer, &tariff_page(tariff));
        println!(self.rt; "tariff {tariff}: equal to what was programmed: {same}")
    }

    fn report(&self, call: &str, answer: Result<(), PartRefusal>) -> io::Result<()> {
        match answer {
            Ok(()) => println!(self.rt; "{call}: accepted"),
            Err(refusal) => println!(self.rt; "{call}: refused with {}", refusal.number()),
        }
    }

    fn show_blocks(&self) -> io::Result<()> {
        for block in 0..self.part.blocks() {
            let written = self.part.written(block);
            let erases = self.part.erases(block);
            println!(self.rt; "block {block}: {written} written, {erases} erased")?;
        }
        Ok(())
    }

    fn show_least_erased(&self) -> io::Result<()> {
        let blocks: [Counted<usize>; BLOCKS] = array::from_fn(|block| wear_of(self.part, block));
        match least(&blocks) {
            Some(place) => println!(self.rt; "a least erased block: {}", blocks[place].item),
            None => println!(self.rt; "no block"),
        }
    }
}
