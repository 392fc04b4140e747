//! A sheet on which commands are carried out.
use crate::command::Command;
use crate::failure::Failure;
use calendar::instant::Timestamp;
use sheet::sheet::Sheet;
use std::io::Write;
use std::{fs, io};
use streams::{fill, first};
use tables::lines::PredictionTable;
use tables::windows::window;
use writing::file::write_row;

#[derive(Drop)]
pub struct Session<'s> {
    pub rt: &'s HostRuntime,
    pub sheet: Sheet<'s>,
    /// Room for one byte more than a file may have: a longer file is refused by its length.
    pub file: Vec<u8>,
    pub out: Vec<u8>,
}

impl<'s> Session<'s> {
    /// Carries a line of the script out, and prints the answer.
    pub fn run<'l>(&mut self, line: &'l str) -> Result<(), Failure<'l>> {
        match Command::try_from(line)? {
            Command::Open(path) => self.open(path),
            Command::Cells => self.cells(),
            Command::Show => self.show(),
            Command::Write(path) => self.write(path),
            Command::Row(number) => self.row(number),
            Command::Window(at) => self.window(at),
            Command::Nothing => Ok(()),
        }
    }

    fn load(&mut self, path: &str) -> io::Result<usize> {
        fill(&mut fs::open(self.rt, path)?, &mut self.file)
    }

    fn open<'l>(&mut self, path: &'l str) -> Result<(), Failure<'l>> {
        let n = self.load(path).map_err(|_| Failure::Unreadable(path))?;
        self.sheet.open(first(&self.file, n))?;
        Ok(println!(self.rt; "accepted")?)
    }

    // Kept: no Display, since the words of this line are the script's.
    fn cells<'l>(&self) -> Result<(), Failure<'l>> {
        let cells = self.sheet.cells()?;
        let (start, end) = (cells.start, cells.end);
        Ok(println!(self.rt;
            "cells {} {} {} {} {} {}",
            cells.count, start.day, start.second, end.day, end.second, cells.interval
        )?)
    }

    fn show<'l>(&mut self) -> Result<(), Failure<'l>> {
        let len = self.sheet.write(&mut self.out)?;
        Ok(self.rt.stdout().write_all(first(&self.out, len))?)
    }

    fn write<'l>(&mut self, path: &'l str) -> Result<(), Failure<'l>> {
        let len = self.sheet.write(&mut self.out)?;
        fs::write(self.rt, path, first(&self.out, len)).map_err(|_| Failure::Unwritable(path))?;
        Ok(println!(self.rt; "wrote {len}")?)
    }

    fn row<'l>(&mut self, number: usize) -> Result<(), Failure<'l>> {
        let len = write_row(&self.sheet.row(number)?, &mut self.out)?;
        Ok(self.rt.stdout().write_all(first(&self.out, len))?)
    }

    fn window<'l>(&self, at: Timestamp) -> Result<(), Failure<'l>> {
        let row = window(&self.sheet, at)?;
        Ok(println!(self.rt; "window {row}")?)
    }
}
